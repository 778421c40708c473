// Reading a listing's text.
ghost use Rattle.std.specs.Prelude.{◌≡◌, option_to_list, MatchResult};
ghost use Rattle.packed.specs.Answers.{number};
ghost use Rattle.packed.specs.Moves.{cell};
ghost use Rattle.packed.specs.Machine.{after, told};
ghost use Rattle.packed.specs.Text.{next, row_end, lettered, row_on, last_on, step, yields, tell, verdict, count, ended};

use super::tellers::Teller;
use super::{Next, Part, Refusal, Seen, Text, rows};

// What a first byte makes of a number.
fn fresh_next(sep: u8, b: u8) -> Next
    ensures { result ≡ next Part.Fresh sep b }
{
    match b {
        b'-' => Next::More(Part::Minus),
        b'0' => Next::More(Part::Closed(1)),
        b'1'..=b'9' => Next::More(Part::Open((b - b'0') as u32)),
        _ => Next::Wrong(Refusal::Malformed),
    }
}

// What a byte makes of digits.
fn open_next(n: u32, sep: u8, b: u8) -> Next
    ensures { result ≡ next (Part.Open n) sep b }
{
    if b == sep {
        return Next::Ended(n as usize + 1);
    }
    if !b.is_ascii_digit() {
        return Next::Wrong(Refusal::Malformed);
    }
    let m = n as usize * 10 + (b - b'0') as usize;
    if m < 2147483648 {
        return Next::More(Part::Open(m as u32));
    }
    Next::Wrong(Refusal::TooLarge)
}

// What a byte makes of a number that the separator ends.
fn next_of(p: Part, sep: u8, b: u8) -> Next
    ensures { result ≡ next p sep b }
{
    match p {
        Part::Fresh => fresh_next(sep, b),
        Part::Minus if b == b'1' => Next::More(Part::Closed(0)),
        Part::Closed(v) if b == sep => Next::Ended(v),
        Part::Open(n) => open_next(n, sep, b),
        _ => Next::Wrong(Refusal::Malformed),
    }
}

fn row_end(rows: usize) -> Text
    ensures { result ≡ row_end rows }
{
    if rows < 2147483648 {
        return Text::Line(rows + 1);
    }
    Text::Stop(Refusal::TooLarge)
}

fn row_on(rows: usize, left: usize, n: Next) -> Text
    ensures { result ≡ row_on rows left n }
{
    match n {
        Next::More(p) => Text::Row(rows, left, p),
        Next::Ended(_) if left == 0 => row_end(rows),
        Next::Ended(_) => Text::Row(rows, left - 1, Part::Fresh),
        Next::Wrong(refusal) => Text::Stop(refusal),
    }
}

fn last_on(rows: usize, left: usize, n: Next) -> Text
    ensures { result ≡ last_on rows left n }
{
    match n {
        Next::More(p) => Text::Last(rows, left, p),
        Next::Ended(_) if left == 0 => Text::End(rows),
        Next::Ended(_) => Text::Last(rows, left - 1, Part::Fresh),
        Next::Wrong(refusal) => Text::Stop(refusal),
    }
}

fn letter_on(rows: usize, at: usize) -> Text
    ensures { result ≡ lettered rows at }
{
    if at == 5 {
        return Text::Last(rows, 2, Part::Fresh);
    }
    if at < 13 {
        return Text::Word(rows, at + 1);
    }
    Text::Last(rows, 4, Part::Fresh)
}

fn line_on(rows: usize, b: u8) -> Text
    ensures { result ≡ step (Text.Line rows) b }
{
    match b {
        b'a' => Text::Word(rows, 1),
        b'r' => Text::Word(rows, 7),
        _ => row_on(rows, 8, fresh_next(b' ', b)),
    }
}

fn step_on(s: Text, b: u8) -> Text
    ensures { result ≡ step s b }
{
    match s {
        Text::Line(rows) => line_on(rows, b),
        Text::Row(rows, left, p) => row_on(rows, left, next_of(p, listing::separator_of(left), b)),
        Text::Word(rows, at) => {
            if b == listing::letter(at) {
                return letter_on(rows, at);
            }
            Text::Stop(Refusal::Malformed)
        }
        Text::Last(rows, left, p) => {
            last_on(rows, left, next_of(p, listing::separator_of(left), b))
        }
        Text::End(_) => Text::Stop(Refusal::Trailing),
        Text::Stop(refusal) => Text::Stop(refusal),
    }
}

fn ended_of(n: Next) -> Option<usize>
    ensures { option_to_list result ≡ ended n }
{
    match n {
        Next::Ended(v) => Some(v),
        _ => None,
    }
}

fn line_yield(b: u8) -> Option<usize>
    ensures { option_to_list result ≡ yields (Text.Line 1) b }
{
    match b {
        b'a' => Some(1),
        b'r' => Some(2),
        _ => None,
    }
}

// A number that a byte ends, stored plus one.
fn yield_of(s: Text, b: u8) -> Option<usize>
    ensures { option_to_list result ≡ yields s b }
{
    match s {
        Text::Line(_) => line_yield(b),
        Text::Row(_, left, p) | Text::Last(_, left, p) => {
            ended_of(next_of(p, listing::separator_of(left), b))
        }
        _ => None,
    }
}

// Tells what a byte tells.
fn tell_on<T: Teller>(out: &mut [u8], at: usize, s: Text, b: u8) -> usize
    requires { T.room out.old at (tell s b) }
    ensures { T.tells out.old at (tell s b) out.new result }
{
    match yield_of(s, b) {
        Some(v) => T::packed(out, at, v),
        None => at,
    }
}

// The row count of a text that was read to its end, stored plus one.
pub(crate) fn whole(s: Text) -> Result<usize, Refusal>
    ensures { MatchResult result (λ rows. (verdict s ≡ 0) × (count s ≡ rows)) (λ refusal. verdict s ≡ number refusal) }
{
    match s {
        Text::End(rows) => Ok(rows),
        Text::Stop(refusal) => Err(refusal),
        _ => Err(Refusal::Incomplete),
    }
}

// Where a row's number is to begin.
fn cell_of(rows: usize, left: usize) -> Text
    ensures { result ≡ cell rows left }
{
    if left == 8 {
        return Text::Line(rows);
    }
    Text::Row(rows, left, Part::Fresh)
}

// Tells a text; where its reading ends.
pub(crate) fn read<T: Teller>(listing: &[u8], out: &mut [u8], at: usize) -> Seen<Text>
    requires { T.room out.old at (told step tell (Text.Line 1) listing.now) }
    ensures { (result.end ≡ after step (Text.Line 1) listing.now) × T.tells out.old at (told step tell (Text.Line 1) listing.now) out.new result.told }
{
    let front = rows::read::<T>(listing, out, at);
    let mut s = cell_of(front.rows, front.left);
    let mut to = front.told;
    for b in &listing[front.end..] {
        to = tell_on::<T>(out, to, s, *b);
        s = step_on(s, *b);
    }
    Seen { end: s, told: to }
}
