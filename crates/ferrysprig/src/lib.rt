// The functions that Rust and C call: `ferrysprig_c` exports them. An exported function can take no enum and nothing that leads to one, so
// answers go as numbers.
#![tactic(auto)]

mod apart;
mod packing;

ghost use Rattle.std.specs.Prelude.{◌≡◌, ◌≤◌, length};
ghost use Rattle.bits.specs.Bits.{range_eq};
ghost use Rattle.syntax.specs.Names as Name;
ghost use Rattle.ac3.specs.Frame as frame;
ghost use Rattle.ac3.specs.Frame.{slot_counts};
ghost use Rattle.ac3.specs.Promise.{call};
ghost use Rattle.ac3.specs.RowBound.{most_rows};
ghost use Rattle.ac3.specs.Marked.{among};
ghost use Rattle.burst.specs.Answers as bursts;
ghost use Rattle.edits.specs.Edits as edits;
ghost use Rattle.ac3.specs.Apart.{header_to};
ghost use Rattle.ferrysprig.specs.Apart.{header_told, blocks_held};
ghost use Rattle.salvage.specs.Lent.{salvaged};
ghost use Rattle.salvage.specs.Refusals.{as_numbers};
ghost use Rattle.index.specs.Index.{indexed};
ghost use Rattle.aht.specs.Aht.{aht_of};
ghost use Rattle.ferrysprig.specs.Aht.{aht_numbers};
ghost use Rattle.level.specs.Level as levels;
ghost use Rattle.level.specs.Level.{correct_to};
ghost use Rattle.profile.specs.Answers as profiles;
ghost use Rattle.profile.specs.Answers.{numbers_of, profile_to};
ghost use Rattle.ferrysprig.specs.Bursts.{burst_numbers, burst_told};
ghost use Rattle.ferrysprig.specs.Levels.{level_numbers, level_told};
ghost use Rattle.ferrysprig.specs.Numbers.{flag, in_order, answer_numbers, told};
ghost use Rattle.ferrysprig.specs.Profiles.{profile_numbers, profile_told};
ghost use Rattle.ferrysprig.specs.Promise.{PromisedNumbers};
ghost use Rattle.ferrysprig.specs.Salvages.{salvage_numbers, salvage_told};
ghost use Rattle.ferrysprig.specs.Indexes.{index_told};

use ac3::{Answer, SLOT_COUNTS};
pub use apart::HEADER_ANSWER;
use apart::{are_taken, header_numbers};
pub use packing::{PACKING_ANSWER, ferrysprig_pack, ferrysprig_unpack};
use profile::{Judgement, Verdict};
use syntax::rows::shown;

// The numbers of an answer, and of those about a burst, a salvage, the profile and a level. The block of what did not fit, which alone may be
// negative, stands before the mantissa bits.
pub const ANSWER: usize = BITS + SLOT_COUNTS;

const BLOCK: usize = 25;

const BITS: usize = BLOCK + 1;

pub const BURST_ANSWER: usize = 3;

pub const SALVAGE_ANSWER: usize = 3;

pub const PROFILE_ANSWER: usize = 4;

pub const LEVEL_ANSWER: usize = 3;

fn flag(b: bool) -> u16
    ensures { result ≡ flag b }
{
    if b { 1 } else { 0 }
}

// The numbers of an answer in their order, as far as the block. None is large: no frame has more than 4,067 rows.
fn in_order(a: Answer) -> [u16; BLOCK]
    requires { (a.rows ≤ most_rows) × (a.summary.rows ≤ most_rows) }
    ensures { result ≡ in_order a }
{
    let summary = a.summary;
    let header = summary.header;
    let tally = summary.tally;
    let starts = tally.starts;
    let mantissas = tally.mantissas;
    [
        a.refusal as u16,
        a.rows as u16,
        a.bit,
        summary.rows as u16,
        header.bytes,
        summary.end,
        header.bsid as u16,
        header.acmod as u16,
        flag(header.lfeon),
        header.fscod as u16,
        tally.coupled as u16,
        starts[0],
        starts[1],
        starts[2],
        starts[3],
        starts[4],
        starts[5],
        mantissas[0],
        mantissas[1],
        mantissas[2],
        mantissas[3],
        mantissas[4],
        mantissas[5],
        flag(tally.coordinates),
        a.name as u16,
    ]
}

// All of them as the caller reads them.
fn numbers(a: Answer) -> [i32; ANSWER]
    requires rows_le_most_rows { (a.rows ≤ most_rows) × (a.summary.rows ≤ most_rows) }
    requires bits_len { length a.summary.tally.bits ≡ slot_counts }
    ensures { result ≡ answer_numbers a }
{
    let small = in_order(a);
    let mut out = [0i32; ANSWER];
    writer::numbers(&small, &mut out);
    out[BLOCK] = shown(a.block);
    let summary = a.summary;
    let tally = summary.tally;
    let bits = tally.bits;
    writer::numbers(&bits, &mut out[BITS..]);
    out
}

// Parses the frame at a place of a capture into the lent rows, and writes the answer's numbers.
pub fn ferrysprig_parse(capture: &[u8], place: usize, rows: &mut [i32], answer: &mut [i32; ANSWER])
    ensures rows_after { (answer.new, rows.new) ≡ told (frame.answer capture.now place rows.old) }
    ensures promised_numbers { PromisedNumbers (call capture.now place rows.old) answer.new rows.new }
{
    *answer = numbers(ac3::parse(capture, place, rows));
}

// Reads the header of the frame at a place of a capture, as far as addbsi, and writes its answer's numbers.
pub fn ferrysprig_header(
    capture: &[u8],
    place: usize,
    rows: &mut [i32],
    answer: &mut [i32; HEADER_ANSWER],
)
    ensures { (answer.new, rows.new) ≡ header_told (header_to (call capture.now place rows.old)) }
{
    *answer = header_numbers(ac3::apart::header(capture, place, rows));
}

// Parses the frame at a place of a capture for one who holds ten numbers of its header. They may be any: only those that the header is
// answered with in this very call are taken, and they are held against these before a row is written.
pub fn ferrysprig_blocks(
    capture: &[u8],
    place: usize,
    rows: &mut [i32],
    header: &[i32; HEADER_ANSWER],
    answer: &mut [i32; ANSWER],
)
    ensures { (answer.new, rows.new) ≡ blocks_held (call capture.now place rows.old) header.now }
{
    let given = *header;
    let own = ac3::apart::header_again(capture, place, rows.len());
    let fits = are_taken(given, own);
    *answer = numbers(ac3::apart::afresh_if(capture, place, rows, fits));
}

// Whether the n bits of x from bit a on are those of y from bit b on. Where either range ends past its slice they are not.
pub fn ferrysprig_range_eq(x: &[u8], a: usize, y: &[u8], b: usize, n: usize) -> bool
    ensures { result ≡ range_eq x.now a y.now b n }
{
    bits::range_eq(x, a, y, b, n)
}

// The numbers of an answer about a burst. None is large: no frame has more than 4,067 rows.
fn burst_numbers(answer: Result<burst::Written, burst::Refused>) -> [i32; BURST_ANSWER]
    requires { (bursts.told answer).rows ≤ most_rows }
    ensures { result ≡ burst_numbers (bursts.told answer) }
{
    match answer {
        Ok(written) => [0, written.rows as i32, i32::from(written.bytes)],
        Err(refused) => [i32::from(refused.refusal.number()), refused.rows as i32, 0],
    }
}

// Writes the frame at a place of a capture as one IEC 61937 burst of 6,144 bytes, and the answer's numbers.
pub fn ferrysprig_burst_write(
    capture: &[u8],
    place: usize,
    rows: &mut [i32],
    out: &mut [u8],
    answer: &mut [i32; BURST_ANSWER],
)
    ensures { (answer.new, (rows.new, out.new)) ≡ burst_told (bursts.written capture.now place rows.old out.old) }
{
    *answer = burst_numbers(burst::burst_write(capture, place, rows, out));
}

// Writes the frame of an IEC 61937 burst, and the answer's numbers.
pub fn ferrysprig_burst_read(
    burst: &[u8],
    rows: &mut [i32],
    out: &mut [u8],
    answer: &mut [i32; BURST_ANSWER],
)
    ensures { (answer.new, (rows.new, out.new)) ≡ burst_told (bursts.read burst.now rows.old out.old) }
{
    *answer = burst_numbers(burst::burst_read(burst, rows, out));
}

// Whether new values in the fields of this name change nothing but themselves.
pub fn ferrysprig_editable(name: usize) -> bool
    ensures { result ≡ among name Name.editable }
{
    edits::editable(name)
}

// Writes a value of this width at a bit of the frame that starts at a place of the capture, and answers the refusal.
pub fn ferrysprig_set(
    capture: &mut [u8],
    place: usize,
    position: usize,
    width: usize,
    value: usize,
) -> u8
    ensures { (result, capture.new) ≡ edits.set capture.old place position width value }
{
    match edits::set(capture, place, position, width, value) {
        Ok(()) => 0,
        Err(refusal) => refusal.number(),
    }
}

// The numbers of how a salvage ended. They count entries and bytes of a capture, so they are as wide as places are.
fn salvage_numbers(ended: Result<salvage::Done, salvage::Refused>) -> [usize; SALVAGE_ANSWER]
    ensures { result ≡ salvage_numbers (as_numbers ended) }
{
    match ended {
        Ok(done) => [0, done.entries, done.bytes],
        Err(refused) => [
            usize::from(refused.refusal.number()),
            refused.done.entries,
            refused.done.bytes,
        ],
    }
}

// Goes through a broken capture: its frames are written one after the other, frames and gaps are listed, three numbers to an entry (kind,
// place, length), and then the answer's numbers are written.
pub fn ferrysprig_salvage(
    capture: &[u8],
    rows: &mut [i32],
    list: &mut [usize],
    out: &mut [u8],
    answer: &mut [usize; SALVAGE_ANSWER],
)
    ensures { ((answer.new, (list.new, out.new)), rows.new) ≡ salvage_told (salvaged capture.now rows.old list.old out.old) }
{
    *answer = salvage_numbers(salvage::salvage(capture, rows, list, out));
}

// Makes an index of a capture, or extends one that holds so many entries, five numbers to an entry (place, length, acmod, dialnorm, second
// dialnorm), and then writes the answer's numbers.
pub fn ferrysprig_index(
    capture: &[u8],
    rows: &mut [i32],
    index: &mut [usize],
    entries: usize,
    answer: &mut [usize; 2],
)
    ensures { ((answer.new, index.new), rows.new) ≡ index_told (indexed capture.now rows.old index.old entries) }
{
    *answer = match index::index(capture, rows, index, entries) {
        Ok(made) => [0, made],
        Err(refusal) => [usize::from(refusal.number()), entries],
    };
}

// Walks over an AHT section from bit `at` on, with the bins from first up to past, where nothing may end past bit `end`, and writes the
// answer's numbers.
pub fn ferrysprig_aht(
    bytes: &[u8],
    at: usize,
    end: usize,
    hebap: &[u8],
    first: usize,
    past: usize,
    answer: &mut [usize; 3],
)
    ensures { answer.new ≡ aht_numbers (aht_of bytes.now at end hebap.now first past) }
{
    *answer = match aht::aht(bytes, at, end, hebap, first, past) {
        Ok(walked) => [0, walked.end, walked.tags],
        Err(refusal) => [usize::from(refusal.number()), 0, 0],
    };
}

// The numbers of an answer about the profile. None is large: no frame has more than 4,067 rows.
fn profile_numbers(answer: Result<Judgement, profile::Refused>) -> [i32; PROFILE_ANSWER]
    requires { ((profiles.told answer).rows ≤ most_rows) × ((numbers_of (profiles.told answer).verdict).row ≤ most_rows) }
    ensures { result ≡ profile_numbers (profiles.told answer) }
{
    match answer {
        Ok(judged) => match judged.verdict {
            Verdict::Within => [0, judged.rows as i32, 0, 0],
            Verdict::Broken(rule, row) => [0, judged.rows as i32, i32::from(rule), row as i32],
        },
        Err(refused) => [i32::from(refused.refusal), refused.rows as i32, 0, 0],
    }
}

// Holds the frame at a place of a capture against the contribution profile, and writes the answer's numbers.
pub fn ferrysprig_profile(
    capture: &[u8],
    place: usize,
    rows: &mut [i32],
    answer: &mut [i32; PROFILE_ANSWER],
)
    ensures { (answer.new, rows.new) ≡ profile_told (profile_to capture.now place rows.old) }
{
    *answer = profile_numbers(profile::profile(capture, place, rows));
}

// The numbers of an answer about a level. None is large: no frame has more than 4,067 rows.
fn level_numbers(answer: Result<level::Correction, level::Refused>) -> [i32; LEVEL_ANSWER]
    requires { ((levels.told answer).rows ≤ most_rows) × ((levels.told answer).changes ≤ 4) }
    ensures { result ≡ level_numbers (levels.told answer) }
{
    match answer {
        Ok(correction) => [0, correction.rows as i32, correction.changes as i32],
        Err(refused) => [i32::from(refused.refusal.number()), refused.rows as i32, 0],
    }
}

// Corrects the level of a programme, counted from 1, in the frame at a place of a capture, lists what changed, three numbers to a change
// (name, old value, new value), and writes the answer's numbers. On a refusal capture and changes are untouched.
pub fn ferrysprig_correct(
    capture: &mut [u8],
    place: usize,
    programme: usize,
    level: usize,
    rows: &mut [i32],
    changes: &mut [i32; 12],
    answer: &mut [i32; LEVEL_ANSWER],
)
    ensures { (answer.new, (changes.new, (rows.new, capture.new))) ≡ level_told (correct_to capture.old place programme level rows.old changes.old) }
{
    *answer = level_numbers(level::correct(capture, place, programme, level, rows, changes));
}
