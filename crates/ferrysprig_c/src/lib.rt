// The functions that C calls, and Rust through the archive: each is that of the library `ferrysprig`, under the same name and with the same
// clauses. They stand in a crate of their own since no other crate can use one whose functions are exported.
#![tactic(auto)]

ghost use Rattle.std.specs.Prelude.{◌≡◌};
ghost use Rattle.bits.specs.Bits.{range_eq};
ghost use Rattle.syntax.specs.Names as Name;
ghost use Rattle.ac3.specs.Frame as frame;
ghost use Rattle.ac3.specs.Promise.{call};
ghost use Rattle.ac3.specs.Marked.{among};
ghost use Rattle.burst.specs.Answers as bursts;
ghost use Rattle.edits.specs.Edits as edits;
ghost use Rattle.ac3.specs.Apart.{header_to};
ghost use Rattle.ferrysprig.specs.Apart.{header_told, blocks_held};
ghost use Rattle.salvage.specs.Lent.{salvaged};
ghost use Rattle.index.specs.Index.{indexed};
ghost use Rattle.aht.specs.Aht.{aht_of};
ghost use Rattle.ferrysprig.specs.Aht.{aht_numbers};
ghost use Rattle.level.specs.Level.{correct_to};
ghost use Rattle.profile.specs.Answers.{profile_to};
ghost use Rattle.packed.specs.Converted.{packing, unpacking};
ghost use Rattle.ferrysprig.specs.Bursts.{burst_told};
ghost use Rattle.ferrysprig.specs.Levels.{level_told};
ghost use Rattle.ferrysprig.specs.Numbers.{told};
ghost use Rattle.ferrysprig.specs.Packings.{packing_told};
ghost use Rattle.ferrysprig.specs.Profiles.{profile_told};
ghost use Rattle.ferrysprig.specs.Promise.{PromisedNumbers};
ghost use Rattle.ferrysprig.specs.Salvages.{salvage_told};
ghost use Rattle.ferrysprig.specs.Indexes.{index_told};

use ferrysprig::{
    ANSWER, BURST_ANSWER, HEADER_ANSWER, LEVEL_ANSWER, PACKING_ANSWER, PROFILE_ANSWER,
    SALVAGE_ANSWER,
};

// Parses the frame at a place of a capture into the lent rows, and writes the answer's numbers.
#[unsafe(no_mangle)]
pub extern "C" fn ferrysprig_parse(
    capture: &[u8],
    place: usize,
    rows: &mut [i32],
    answer: &mut [i32; ANSWER],
)
    ensures rows_after { (answer.new, rows.new) ≡ told (frame.answer capture.now place rows.old) }
    ensures promised_numbers { PromisedNumbers (call capture.now place rows.old) answer.new rows.new }
{
    ferrysprig::ferrysprig_parse(capture, place, rows, answer);
}

// Reads the header of the frame at a place of a capture, as far as addbsi, and writes its answer's numbers.
#[unsafe(no_mangle)]
pub extern "C" fn ferrysprig_header(
    capture: &[u8],
    place: usize,
    rows: &mut [i32],
    answer: &mut [i32; HEADER_ANSWER],
)
    ensures { (answer.new, rows.new) ≡ header_told (header_to (call capture.now place rows.old)) }
{
    ferrysprig::ferrysprig_header(capture, place, rows, answer);
}

// Parses the frame at a place of a capture for one who holds ten numbers of its header. They may be any: only those that the header is
// answered with in this very call are taken, and they are held against these before a row is written.
#[unsafe(no_mangle)]
pub extern "C" fn ferrysprig_blocks(
    capture: &[u8],
    place: usize,
    rows: &mut [i32],
    header: &[i32; HEADER_ANSWER],
    answer: &mut [i32; ANSWER],
)
    ensures { (answer.new, rows.new) ≡ blocks_held (call capture.now place rows.old) header.now }
{
    ferrysprig::ferrysprig_blocks(capture, place, rows, header, answer);
}

// Whether the n bits of x from bit a on are those of y from bit b on. Where either range ends past its slice they are not.
#[unsafe(no_mangle)]
pub extern "C" fn ferrysprig_range_eq(x: &[u8], a: usize, y: &[u8], b: usize, n: usize) -> bool
    ensures { result ≡ range_eq x.now a y.now b n }
{
    ferrysprig::ferrysprig_range_eq(x, a, y, b, n)
}

// Writes the frame at a place of a capture as one IEC 61937 burst of 6,144 bytes, and the answer's numbers.
#[unsafe(no_mangle)]
pub extern "C" fn ferrysprig_burst_write(
    capture: &[u8],
    place: usize,
    rows: &mut [i32],
    out: &mut [u8],
    answer: &mut [i32; BURST_ANSWER],
)
    ensures { (answer.new, (rows.new, out.new)) ≡ burst_told (bursts.written capture.now place rows.old out.old) }
{
    ferrysprig::ferrysprig_burst_write(capture, place, rows, out, answer);
}

// Writes the frame of an IEC 61937 burst, and the answer's numbers.
#[unsafe(no_mangle)]
pub extern "C" fn ferrysprig_burst_read(
    burst: &[u8],
    rows: &mut [i32],
    out: &mut [u8],
    answer: &mut [i32; BURST_ANSWER],
)
    ensures { (answer.new, (rows.new, out.new)) ≡ burst_told (bursts.read burst.now rows.old out.old) }
{
    ferrysprig::ferrysprig_burst_read(burst, rows, out, answer);
}

// Whether new values in the fields of this name change nothing but themselves.
#[unsafe(no_mangle)]
pub extern "C" fn ferrysprig_editable(name: usize) -> bool
    ensures { result ≡ among name Name.editable }
{
    ferrysprig::ferrysprig_editable(name)
}

// Writes a value of this width at a bit of the frame that starts at a place of the capture, and answers the refusal.
#[unsafe(no_mangle)]
pub extern "C" fn ferrysprig_set(
    capture: &mut [u8],
    place: usize,
    position: usize,
    width: usize,
    value: usize,
) -> u8
    ensures { (result, capture.new) ≡ edits.set capture.old place position width value }
{
    ferrysprig::ferrysprig_set(capture, place, position, width, value)
}

// Goes through a broken capture: its frames are written one after the other, frames and gaps are listed, three numbers to an entry (kind,
// place, length), and then the answer's numbers are written.
#[unsafe(no_mangle)]
pub extern "C" fn ferrysprig_salvage(
    capture: &[u8],
    rows: &mut [i32],
    list: &mut [usize],
    out: &mut [u8],
    answer: &mut [usize; SALVAGE_ANSWER],
)
    ensures { ((answer.new, (list.new, out.new)), rows.new) ≡ salvage_told (salvaged capture.now rows.old list.old out.old) }
{
    ferrysprig::ferrysprig_salvage(capture, rows, list, out, answer);
}

// Makes an index of a capture, or extends one that holds so many entries, five numbers to an entry (place, length, acmod, dialnorm, second
// dialnorm), and then writes the answer's numbers.
#[unsafe(no_mangle)]
pub extern "C" fn ferrysprig_index(
    capture: &[u8],
    rows: &mut [i32],
    index: &mut [usize],
    entries: usize,
    answer: &mut [usize; 2],
)
    ensures { ((answer.new, index.new), rows.new) ≡ index_told (indexed capture.now rows.old index.old entries) }
{
    ferrysprig::ferrysprig_index(capture, rows, index, entries, answer);
}

// Walks over an AHT section from bit `at` on, with the bins from first up to past, where nothing may end past bit `end`, and writes the
// answer's numbers.
#[unsafe(no_mangle)]
pub extern "C" fn ferrysprig_aht(
    bytes: &[u8],
    at: usize,
    end: usize,
    hebap: &[u8],
    first: usize,
    past: usize,
    answer: &mut [usize; 3],
)
    ensures { answer.new ≡ aht_numbers (aht_of bytes.now at end hebap.now first past) }
{
    ferrysprig::ferrysprig_aht(bytes, at, end, hebap, first, past, answer);
}

// Holds the frame at a place of a capture against the contribution profile, and writes the answer's numbers.
#[unsafe(no_mangle)]
pub extern "C" fn ferrysprig_profile(
    capture: &[u8],
    place: usize,
    rows: &mut [i32],
    answer: &mut [i32; PROFILE_ANSWER],
)
    ensures { (answer.new, rows.new) ≡ profile_told (profile_to capture.now place rows.old) }
{
    ferrysprig::ferrysprig_profile(capture, place, rows, answer);
}

// Corrects the level of a programme, counted from 1, in the frame at a place of a capture, lists what changed, three numbers to a change
// (name, old value, new value), and writes the answer's numbers. On a refusal capture and changes are untouched.
#[unsafe(no_mangle)]
pub extern "C" fn ferrysprig_correct(
    capture: &mut [u8],
    place: usize,
    programme: usize,
    level: usize,
    rows: &mut [i32],
    changes: &mut [i32; 12],
    answer: &mut [i32; LEVEL_ANSWER],
)
    ensures { (answer.new, (changes.new, (rows.new, capture.new))) ≡ level_told (correct_to capture.old place programme level rows.old changes.old) }
{
    ferrysprig::ferrysprig_correct(capture, place, programme, level, rows, changes, answer);
}

// Packs a listing's text into the front of `out`, and writes the answer's numbers.
#[unsafe(no_mangle)]
pub extern "C" fn ferrysprig_pack(
    listing: &[u8],
    out: &mut [u8],
    answer: &mut [usize; PACKING_ANSWER],
)
    ensures { (answer.new, out.new) ≡ packing_told (packing listing.now out.old) }
{
    ferrysprig::ferrysprig_pack(listing, out, answer);
}

// Writes the text of a packed listing into the front of `out`, and then the answer's numbers.
#[unsafe(no_mangle)]
pub extern "C" fn ferrysprig_unpack(
    packed: &[u8],
    out: &mut [u8],
    answer: &mut [usize; PACKING_ANSWER],
)
    ensures { (answer.new, out.new) ≡ packing_told (unpacking packed.now out.old) }
{
    ferrysprig::ferrysprig_unpack(packed, out, answer);
}
