// An index beside a capture: an entry for each of its frames, and more of them when bytes were appended.
#![tactic(auto)]

mod outcome;

ghost use Rattle.std.specs.Prelude.{◌≡◌, cond, ℕ, ◌<◌, ◌≤◌, eqb, pos, length, IfOk};
ghost use Rattle.syntax.specs.Names as Name;
ghost use Rattle.ac3.specs.Later.{is_short};
ghost use Rattle.ac3.specs.Promise.{Call, answer_to};
ghost use Rattle.rows.specs.Look.{value_in};
ghost use Rattle.index.specs.Index.{answered_by, begin, entry_in, entry_of, indexed, room_in, walk_from};
ghost use Rattle.index.specs.Filled.{filled, put, started};
ghost use Rattle.index.specs.Refusals.{as_numbers};

use ac3::MOST_ROWS;
pub use outcome::{Entry, Refusal};
use syntax::names::DIALNORM;
use syntax::{ROW, Refusal as Frame};

// The numbers of an entry.
pub const ENTRY: usize = 5;

// No frame has fewer bytes.
const SHORTEST: usize = 128;

// The second programme's name stands eight further on.
const DIALNORM2: u8 = DIALNORM + 8;

// ---- an entry

// The value of the first row of a name.
fn level(rows: &[i32], count: usize, name: u8) -> usize
    ensures { (v : ℕ) → value_in count name rows.now ≡ pos v → result ≡ v }
{
    rows::natural(rows::value(rows, count, name))
}

fn second_level(rows: &[i32], count: usize, acmod: u8) -> usize
    ensures { (v : ℕ) → value_in count Name.dialnorm2 rows.now ≡ pos v → result ≡ cond (eqb acmod 0) v 0 }
{
    if acmod == 0 {
        return level(rows, count, DIALNORM2);
    }
    0
}

// The entry of a frame, from what its parse answered and left in the room.
fn entry_of(rows: &[i32], parsed: &ac3::Answer, place: usize) -> Entry
    ensures { (c : Call) → c.place ≡ place → (parsed.now, rows.now) ≡ answer_to c → result ≡ entry_of c }
{
    let count = parsed.rows;
    let acmod = parsed.summary.header.acmod;
    Entry {
        place,
        size: usize::from(parsed.summary.header.bytes),
        acmod: usize::from(acmod),
        dialnorm: level(rows, count, DIALNORM),
        second: second_level(rows, count, acmod),
    }
}

// Writes the entry that comes after so many others, if there is room for it.
fn put(index: &mut [usize], entries: usize, e: Entry)
    ensures { index.new ≡ put index.old entries e }
{
    if entries < index.len() / ENTRY {
        let at = entries * ENTRY;
        index[at..at + ENTRY].copy_from_slice(&[e.place, e.size, e.acmod, e.dialnorm, e.second]);
    }
}

// The entry that comes after so many others.
fn entry_at(index: &[usize], entries: usize) -> Entry
    requires { entries < room_in index.now }
    ensures { result ≡ entry_in index.now entries }
{
    let at = entries * ENTRY;
    Entry {
        place: index[at],
        size: index[at + 1],
        acmod: index[at + 2],
        dialnorm: index[at + 3],
        second: index[at + 4],
    }
}

// ---- the walk

// Bytes that come may change these two refusals alone.
fn is_short(refusal: u8) -> bool
    ensures { result ≡ is_short refusal }
{
    refusal == Frame::TooShort.number() || refusal == Frame::CutShort.number()
}

// Walks over the capture from a place on. The entries that there is room for are written behind so many others, and all are counted.
fn fill(
    capture: &[u8],
    rows: &mut [i32],
    index: &mut [usize],
    entries: usize,
    from: usize,
) -> Result<usize, Refusal>
    requires { (from ≤ length capture.now) × (entries ≤ room_in index.old) }
    ensures { ((result, index.new), rows.new) ≡ filled index.old entries (walk_from capture.now from rows.old) }
{
    let mut done = entries;
    let mut place = from;
    while place < capture.len() {
        let parsed = ac3::parse(capture, place, rows);
        if parsed.refusal == Frame::Full.number() {
            return Err(Refusal::NoFields);
        }
        if is_short(parsed.refusal) {
            return Ok(done);
        }
        if parsed.refusal != 0 {
            place = salvage::next_place(capture, place + 1);
            continue;
        }
        put(index, done, entry_of(rows, &parsed, place));
        done += 1;
        place += usize::from(parsed.summary.header.bytes);
    }
    Ok(done)
}

// ---- the call

// Where the walk begins: at byte 0, or at the end of the last entry, if parsing at its place gives it.
fn begin(
    capture: &[u8],
    rows: &mut [i32],
    index: &[usize],
    entries: usize,
) -> Result<usize, Refusal>
    ensures rows_after { started result rows.new ≡ begin capture.now rows.old index.now entries }
    ensures place_in_bounds { IfOk result (λ place. (place ≤ length capture.now) × (entries ≤ room_in index.now)) }
{
    if entries == 0 {
        return Ok(0);
    }
    if index.len() / ENTRY < entries {
        return Err(Refusal::NotThere);
    }
    let last = entry_at(index, entries - 1);
    let parsed = ac3::parse(capture, last.place, rows);
    if parsed.refusal == 0 && entry_of(rows, &parsed, last.place) == last {
        return Ok(last.place + last.size);
    }
    Err(Refusal::NotThere)
}

// Walks from a place on. Where room may lack, a first walk counts, behind all that there is room for, so that it writes nothing.
fn extend(
    capture: &[u8],
    rows: &mut [i32],
    index: &mut [usize],
    entries: usize,
    from: usize,
) -> Result<usize, Refusal>
    requires { (from ≤ length capture.now) × (entries ≤ room_in index.old) }
    ensures { ((as_numbers entries result, index.new), rows.new) ≡ answered_by index.old entries (walk_from capture.now from rows.old) }
{
    let room = index.len() / ENTRY;
    // neither fields nor entries can lack room
    if MOST_ROWS <= rows.len() / ROW && (capture.len() - from) / SHORTEST <= room - entries {
        return fill(capture, rows, index, entries, from);
    }
    let counted = fill(capture, rows, index, room, from)?;
    if room - entries < counted - room {
        return Err(Refusal::NoRoom);
    }
    fill(capture, rows, index, entries, from)
}

// Makes an index of a capture (from 0 entries), or extends one that was made before bytes were appended, and gives the number of entries
// that it has now. Five numbers to an entry: place, length, acmod, dialnorm, second dialnorm. A refusal leaves the index as it is.
pub fn index(
    capture: &[u8],
    rows: &mut [i32],
    index: &mut [usize],
    entries: usize,
) -> Result<usize, Refusal>
    ensures { ((as_numbers entries result, index.new), rows.new) ≡ indexed capture.now rows.old index.old entries }
{
    let from = begin(capture, rows, index, entries)?;
    extend(capture, rows, index, entries, from)
}
