// A frame's listing as text: what the program `list` prints. (Public because the programs stand in crates above.)
#![tactic(auto)]

ghost use Rattle.std.specs.Prelude.{map, not, ◌≡◌, ◌+◌, ◌*◌, ◌≤◌, ◌<◌, eqb, length};
ghost use Rattle.std.proofs.lemmas.List.Edits.{sets};
ghost use Rattle.syntax.specs.Numbers.{row_width};
ghost use Rattle.ac3.specs.Promise.{call, answer_to};
ghost use Rattle.ac3.specs.RowBound.{most_rows};
ghost use Rattle.listing.specs.Listing.{Each, Line, Valid, line, last_count, joined, text};
ghost use Rattle.lister.specs.Listed.{stored, rows_in, last_of, last_line, listing_of, rows_lent};
ghost use Rattle.lister.specs.Written.{most_text, Written, Printed};

use ac3::Answer;
use listing::{put_ended, put_word};
use syntax::ROW;
use syntax::rows::shown;

// The most bytes of a number with what stands after it, of a row's line and of the last line.
const NUMBER: usize = 11;

const LINE: usize = ROW * NUMBER;

const LAST: usize = 63;

// The rows that the programs lend to the parser, the numbers of these, and the most bytes of their listing.
const ROWS: usize = 1820;

const NUMBERS: usize = ROWS * ROW;

pub const TEXT: usize = ROWS * LINE + LAST;

// A number as a listing stores it. None is below -1.
fn stored(n: i32) -> usize
    ensures { (result ≡ stored n) × (result ≤ 2147483648) }
{
    if n < 0 {
        return 0;
    }
    n as usize + 1
}

// Numbers as a line, from a place on; the place after it.
fn put_line(numbers: &[i32], out: &mut [u8], at: usize) -> usize
    requires { at + length numbers.now * 11 ≤ length out.old }
    ensures value { (result ≡ at + length (line (map stored numbers.now))) × (out.new ≡ sets out.old at (line (map stored numbers.now))) }
    ensures line { Line (length numbers.now) (map stored numbers.now) }
{
    let mut to = at;
    for (i, &n) in numbers.iter().enumerate() {
        to = put_ended(out, to, stored(n), numbers.len() - i - 1);
    }
    to
}

// The first rows of a room, a line to each, from the front on; the place after them.
fn put_rows(rows: &[i32], count: usize, out: &mut [u8]) -> usize
    requires { (count * row_width ≤ length rows.now) × (count * 99 ≤ length out.old) }
    ensures value { (result ≡ length (joined line (rows_in count rows.now))) × (out.new ≡ sets out.old 0 (joined line (rows_in count rows.now))) }
    ensures each { Each (Line row_width) (rows_in count rows.now) × (result ≤ count * 99) }
{
    let mut to = 0;
    for row in 0..count {
        let from = row * ROW;
        to = put_line(&rows[from..from + ROW], out, to);
    }
    to
}

// The last line from a place on; the place after it.
fn put_last(a: Answer, out: &mut [u8], at: usize) -> usize
    requires { (a.rows ≤ most_rows) × (at + 63 ≤ length out.old) }
    ensures value { (result ≡ at + length (last_line a)) × (out.new ≡ sets out.old at (last_line a)) }
    ensures line { Line (last_count (not (eqb a.refusal 0))) (map stored (last_of a)) }
{
    let rows = a.rows as i32;
    let bit = a.bit as i32;
    if a.refusal == 0 {
        let said = put_word(out, at, 0, 6);
        return put_line(&[rows, a.summary.header.bytes as i32, bit], out, said);
    }
    let said = put_word(out, at, 6, 14);
    put_line(
        &[a.refusal as i32, rows, bit, a.name as i32, shown(a.block)],
        out,
        said,
    )
}

// An answer's listing, in front of the output; its length.
fn put_text(rows: &[i32], a: Answer, out: &mut [u8]) -> usize
    requires { (a.rows ≤ most_rows) × (a.rows * row_width ≤ length rows.now) × (most_text a.rows ≤ length out.old) }
    ensures value { (result ≡ length (text (listing_of a rows.now))) × (out.new ≡ sets out.old 0 (text (listing_of a rows.now))) }
    ensures valid { Valid (listing_of a rows.now) × (result ≤ most_text a.rows) }
{
    let at = put_rows(rows, a.rows, out);
    put_last(a, out, at)
}

// Parses the frame at a place of a capture, and writes the listing of that call as text to the front of the output; its length. Nothing
// is written where a longest listing of so many rows would not fit.
pub fn text(capture: &[u8], place: usize, rows: &mut [i32], out: &mut [u8]) -> usize
    ensures rows_after { rows.new ≡ (answer_to (call capture.now place rows.old)).1 }
    ensures written { Written (call capture.now place rows.old) out.old result out.new }
{
    let answer = ac3::parse(capture, place, rows);
    if out.len() < answer.rows * LINE + LAST {
        return 0;
    }
    put_text(rows, answer, out)
}

// The listing of the frame at the start of some bytes, as the programs write it. (By the requires a program has to show that its buffer is
// large enough: then the bytes that it writes are the text.)
pub fn listed(frame: &[u8], out: &mut [u8]) -> usize
    requires { most_text rows_lent ≤ length out.old }
    ensures { Printed frame.now result out.new }
{
    let mut rows = [0i32; NUMBERS];
    text(frame, 0, &mut rows, out)
}
