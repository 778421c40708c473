// Salvage of a broken capture: its frames one after the other, and a list of frames and gaps.
#![tactic(auto)]

mod outcome;

ghost use Rattle.std.specs.Prelude.{◌≡◌, List, [], ◌∷◌, ℕ, ◌+◌, ◌*◌, ◌/◌, ◌<◌, ◌≤◌, length};
ghost use Rattle.std.proofs.lemmas.List.Edits.{sets};
ghost use Rattle.salvage.specs.Walk.{entry_width, close_gap, is_met, keep_frame, meet};
ghost use Rattle.salvage.specs.Lent.{Does, salvaged};
ghost use Rattle.salvage.specs.Passed.{is_sync, NextPlace};
ghost use Rattle.salvage.specs.Refusals.{as_numbers, going, kind_number, so_far};

pub use outcome::{Done, Kind, Refusal, Refused};
use syntax::Refusal as Frame;

// The numbers of an entry of the list: kind, place, length.
pub const ENTRY: usize = 3;

// Fewer bytes than these are no frame, whatever they are.
const SYNCINFO: usize = 6;

// Writes the entry that comes after so many others.
fn put_entry(list: &mut [usize], entries: usize, kind: Kind, place: usize, size: usize)
    requires { entries < length list.old / entry_width }
    ensures { list.new ≡ sets list.old (entries * entry_width) (kind_number kind ∷ place ∷ size ∷ []) }
{
    let at = entries * ENTRY;
    list[at..at + ENTRY].copy_from_slice(&[kind.number(), place, size]);
}

// A frame is met where parsing accepts, or answers that the field room is too short.
fn is_met(refusal: u8) -> bool
    ensures { result ≡ is_met refusal }
{
    refusal == 0 || refusal == Frame::Full.number()
}

// Enters the bytes that are in no entry yet, if there are any, as one gap.
fn close_gap(list: &mut [usize], done: &mut Done, from: usize, to: usize) -> Result<(), Refusal>
    ensures { (done.new.bytes ≡ done.old.bytes) × ((out : List ℕ) → Does (λ rooms. close_gap rooms from to) (going done.old, (list.old, out)) (so_far result done.new, (list.new, out))) }
{
    if to <= from {
        return Ok(());
    }
    if list.len() / ENTRY <= done.entries {
        return Err(Refusal::NoEntry);
    }
    put_entry(list, done.entries, Kind::Gap, from, to - from);
    done.entries += 1;
    Ok(())
}

// Writes and lists a frame, if there is room for both. It goes to the front of what is left of the output.
fn keep_frame(
    frame: &[u8],
    place: usize,
    list: &mut [usize],
    out: &mut [u8],
    done: &mut Done,
) -> Result<(), Refusal>
    requires { done.old.bytes ≤ length out.old }
    ensures { Does (λ rooms. keep_frame rooms place frame.now) (going done.old, (list.old, out.old)) (so_far result done.new, (list.new, out.new)) }
{
    if list.len() / ENTRY <= done.entries {
        return Err(Refusal::NoEntry);
    }
    if out.len() - done.bytes < frame.len() {
        return Err(Refusal::NoOutput);
    }
    writer::copy(frame, &mut out[done.bytes..], 0);
    put_entry(list, done.entries, Kind::Frame, place, frame.len());
    done.entries += 1;
    done.bytes += frame.len();
    Ok(())
}

// A frame is met: the gap before it is entered, and then it is kept, unless the field room was too short for it.
fn meet(
    capture: &[u8],
    list: &mut [usize],
    out: &mut [u8],
    done: &mut Done,
    parsed: &ac3::Answer,
    from: usize,
    place: usize,
) -> Result<(), Refusal>
    requires { (place + parsed.now.summary.header.bytes ≤ length capture.now) × (done.old.bytes ≤ length out.old) }
    ensures { Does (λ rooms. meet capture.now rooms parsed.now from place) (going done.old, (list.old, out.old)) (so_far result done.new, (list.new, out.new)) }
{
    close_gap(list, done, from, place)?;
    if parsed.refusal == Frame::Full.number() {
        return Err(Refusal::NoFields);
    }
    let after = place + usize::from(parsed.summary.header.bytes);
    keep_frame(&capture[place..after], place, list, out, done)
}

// Whether the sync word stands at a place.
fn is_sync(capture: &[u8], place: usize) -> bool
    requires { place + 1 < length capture.now }
    ensures { result ≡ is_sync capture.now place }
{
    capture[place] == 0x0B && capture[place + 1] == 0x77
}

// The next place that is worth a parse: where the sync word stands, or where the one after has too few bytes for it. What a parse would
// leave in the room at the places before, the parse there writes over. (Public because whoever walks over a capture passes over them.)
pub fn next_place(capture: &[u8], from: usize) -> usize
    ensures { NextPlace capture.now from result }
{
    let end = capture.len().saturating_sub(SYNCINFO);
    for place in from..end {
        if is_sync(capture, place) {
            return place;
        }
    }
    from.max(end)
}

// Goes through a capture from byte 0, until something is refused.
fn walk(
    capture: &[u8],
    rows: &mut [i32],
    list: &mut [usize],
    out: &mut [u8],
    done: &mut Done,
) -> Result<(), Refusal>
    requires { done.old ≡ record { entries = 0; bytes = 0 } }
    ensures { ((so_far result done.new, (list.new, out.new)), rows.new) ≡ salvaged capture.now rows.old list.old out.old }
{
    let mut from = 0;
    let mut place = 0;
    while place < capture.len() {
        let parsed = ac3::parse(capture, place, rows);
        if !is_met(parsed.refusal) {
            place = next_place(capture, place + 1);
            continue;
        }
        meet(capture, list, out, done, &parsed, from, place)?;
        place += usize::from(parsed.summary.header.bytes);
        from = place;
    }
    close_gap(list, done, from, place)
}

// Goes through a capture from byte 0. The frames that are accepted are written one after the other to the front of the output, and frames
// and gaps are listed, three numbers to an entry: kind (0 frame, 1 gap), place, length. A refusal tells what was listed and written before.
pub fn salvage(
    capture: &[u8],
    rows: &mut [i32],
    list: &mut [usize],
    out: &mut [u8],
) -> Result<Done, Refused>
    ensures { ((as_numbers result, (list.new, out.new)), rows.new) ≡ salvaged capture.now rows.old list.old out.old }
{
    let mut done = Done {
        entries: 0,
        bytes: 0,
    };
    match walk(capture, rows, list, out, &mut done) {
        Ok(()) => Ok(done),
        Err(refusal) => Err(Refused { refusal, done }),
    }
}
