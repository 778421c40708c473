// The contribution profile: the part of AC-3 that a carrier accepts, as seven rules over the fields of a frame. (The rules themselves stand
// in specs/Rules.)
#![tactic(auto)]

ghost use Rattle.std.specs.Prelude.{◌≡◌, ◌+◌, ◌*◌, ◌<◌, ◌≤◌, length, drop};
ghost use Rattle.syntax.specs.Numbers.{row_width};
ghost use Rattle.rows.specs.Look.{first_where};
ghost use Rattle.profile.specs.Rules.{rule, broken_in, judged_in};
ghost use Rattle.profile.specs.Answers.{profile};

use header::Header;
use syntax::ROW;
use syntax::names::{ACMOD, BSID, DELTBAIE, DIALNORM, FRMSIZECOD, FSCOD, LFEON};

// Which number of a row is its value.
const VALUE: usize = 7;

// The fewest bytes: twice 384 words, which at 48 kHz are 192 kbit/s.
const LEAST_BYTES: u16 = 768;

// No rule is broken; or the first rule that is, counted from 1, and the first row that breaks it, from 0.
#[derive(Clone, Copy, Debug, PartialEq, Eq)]
pub enum Verdict {
    Within,
    Broken(u8, usize),
}

// The verdict on a frame, and the rows that the parse left.
#[derive(Clone, Copy, Debug, PartialEq, Eq)]
pub struct Judgement {
    pub rows: usize,
    pub verdict: Verdict,
}

// The number of the parse's refusal, the only one there is, and the rows that the parse left.
#[derive(Clone, Copy, Debug, PartialEq, Eq)]
pub struct Refused {
    pub refusal: u8,
    pub rows: usize,
}

// The field that a rule speaks of. (A rule goes by its number: the answer tells it, and the definition's list of rules is counted by it.)
fn field(number: u8) -> u8
    requires { number < 7 }
    ensures { result ≡ (rule number).field }
{
    match number {
        0 => FSCOD,
        1 => ACMOD,
        2 => BSID,
        3 => FRMSIZECOD,
        4 => LFEON,
        5 => DELTBAIE,
        _ => DIALNORM,
    }
}

// Whether this value of its field breaks a rule, in a frame with this header.
fn breaks(number: u8, header: Header, value: usize) -> bool
    requires { number < 7 }
    ensures { result ≡ (rule number).breaks header value }
{
    match number {
        0 => value != 0,
        1 => value != 2 && value != 7,
        2 => value != 6 && value != 8,
        3 => header.bytes < LEAST_BYTES,
        4 => value == 1 && header.acmod != 7,
        5 => value == 1,
        _ => value == 0,
    }
}

// Whether row i breaks a rule.
fn broken(rows: &[i32], i: usize, header: Header, number: u8) -> bool
    requires { (number < 7) × (i * row_width + row_width ≤ length rows.now) }
    ensures { result ≡ broken_in header (rule number) (drop (i * row_width) rows.now) }
{
    rows[i * ROW] == i32::from(field(number))
        && breaks(number, header, rows::natural(rows[i * ROW + VALUE]))
}

// The first of the first `count` rows that does; `count` where none does.
fn first_broken(rows: &[i32], count: usize, header: Header, number: u8) -> usize
    requires { number < 7 }
    ensures { result ≡ first_where (broken_in header (rule number)) count rows.now }
{
    for i in 0..count.min(rows.len() / ROW) {
        if broken(rows, i, header, number) {
            return i;
        }
    }
    count
}

// The first rule that is broken, in the order of the rules.
fn judged(rows: &[i32], count: usize, header: Header) -> Verdict
    ensures { result ≡ judged_in header count rows.now }
{
    for number in 0..7u8 {
        let row = first_broken(rows, count, header, number);
        if row < count {
            return Verdict::Broken(number + 1, row);
        }
    }
    Verdict::Within
}

// Whether the frame at a place of a capture is within the profile.
pub fn profile(capture: &[u8], place: usize, rows: &mut [i32]) -> Result<Judgement, Refused>
    ensures { (result, rows.new) ≡ profile capture.now place rows.old }
{
    let parsed = ac3::parse(capture, place, rows);
    let count = parsed.rows;
    if parsed.refusal != 0 {
        return Err(Refused {
            refusal: parsed.refusal,
            rows: count,
        });
    }
    Ok(Judgement {
        rows: count,
        verdict: judged(rows, count, parsed.summary.header),
    })
}
