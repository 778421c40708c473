// The text of a listing: its numbers and words, written into lent bytes. Every number is the stored one, the value plus one.
#![tactic(auto)]

ghost use Rattle.std.specs.Prelude.{[], ◌∷◌, ◌++◌, ◌≡◌, ◌+◌, ◌-◌, ◌≤◌, ◌<◌, length, get_or};
ghost use Rattle.std.proofs.lemmas.List.Edits.{sets};
ghost use Rattle.std.proofs.Math.Seq.{slice};
ghost use Rattle.listing.specs.Number.{decimal, signed, separator, letters};

// A byte at a place; the next place.
pub fn put(out: &mut [u8], at: usize, b: u8) -> usize
    requires { at < length out.old }
    ensures { (result ≡ at + 1) × (out.new ≡ sets out.old at (b ∷ [])) }
{
    out[at] = b;
    at + 1
}

// How many decimal digits a number has. Most have few, and are not divided.
fn decimal_size(v: usize) -> usize
    ensures { (result ≡ length (decimal v)) × (result ≤ 20) }
{
    if v < 10 {
        return 1;
    }
    if v < 100 {
        return 2;
    }
    if v < 1000 {
        return 3;
    }
    if v < 10000 {
        return 4;
    }
    if v < 100000 {
        return 5;
    }
    let mut rest = v;
    let mut n = 1;
    while 10 <= rest {
        rest /= 10;
        n += 1;
    }
    n
}

// The digit of a number below ten.
fn digit(v: usize) -> u8
    requires { v < 10 }
    ensures { result ≡ 48 + v }
{
    b'0' + v as u8
}

// The two digits of a number from a place on; the place after them.
fn put_two(out: &mut [u8], at: usize, v: usize) -> usize
    requires { (10 ≤ v) × (v < 100) × (at + length (decimal v) ≤ length out.old) }
    ensures { (result ≡ at + length (decimal v)) × (out.new ≡ sets out.old at (decimal v)) }
{
    let to = put(out, at, digit(v / 10));
    put(out, to, digit(v % 10))
}

// A number's decimal digits from a place on, by two at a time from the last; the place after them.
fn put_decimal(out: &mut [u8], at: usize, v: usize) -> usize
    requires { at + length (decimal v) ≤ length out.old }
    ensures { (result ≡ at + length (decimal v)) × (out.new ≡ sets out.old at (decimal v)) }
{
    if v < 10 {
        return put(out, at, digit(v));
    }
    let tenth = v / 10;
    if tenth < 10 {
        return put_two(out, at, v);
    }
    let to = put_decimal(out, at, tenth / 10);
    let last = put(out, to, digit(tenth % 10));
    put(out, last, digit(v % 10))
}

// How many bytes of text a stored number takes.
pub fn signed_size(v: usize) -> usize
    ensures { (result ≡ length (signed v)) × (result ≤ 20) }
{
    if v == 0 {
        return 2;
    }
    decimal_size(v - 1)
}

// A stored number's text from a place on; the place after it.
pub fn put_signed(out: &mut [u8], at: usize, v: usize) -> usize
    requires { at + length (signed v) ≤ length out.old }
    ensures { (result ≡ at + length (signed v)) × (out.new ≡ sets out.old at (signed v)) }
{
    if v == 0 {
        let to = put(out, at, b'-');
        return put(out, to, b'1');
    }
    if v < 11 {
        return put(out, at, digit(v - 1));
    }
    if v < 101 {
        return put_two(out, at, v - 1);
    }
    put_decimal(out, at, v - 1)
}

// What stands after a number that `left` numbers follow on its line.
pub fn separator_of(left: usize) -> u8
    ensures { result ≡ separator left }
{
    if left == 0 { b'\n' } else { b' ' }
}

// How many bytes of text a stored number takes, with the separator after it.
pub fn ended_size(v: usize) -> usize
    ensures { result ≡ length (signed v) + 1 }
{
    signed_size(v) + 1
}

// A stored number's text and its separator from a place on; the place after them.
pub fn put_ended(out: &mut [u8], at: usize, v: usize, left: usize) -> usize
    requires { at + length (signed v ++ (separator left ∷ [])) ≤ length out.old }
    ensures { (result ≡ at + length (signed v ++ (separator left ∷ []))) × (out.new ≡ sets out.old at (signed v ++ (separator left ∷ []))) }
{
    let to = put_signed(out, at, v);
    put(out, to, separator_of(left))
}

// The words of the last line, one after the other.
static LETTERS: [u8; 14] = *b"audio refused ";

// The letter at a place; 0 past the last.
pub fn letter(at: usize) -> u8
    ensures { result ≡ get_or letters at 0 }
{
    LETTERS.get(at).copied().unwrap_or(0)
}

// The letters from one on, up to a last one, from a place on; the place after them.
pub fn put_word(out: &mut [u8], at: usize, from: usize, end: usize) -> usize
    requires { (from ≤ end) × (end ≤ 14) × (at + (end - from) ≤ length out.old) }
    ensures { (result ≡ at + (end - from)) × (out.new ≡ sets out.old at (slice from end letters)) }
{
    let to = at + (end - from);
    out[at..to].copy_from_slice(&LETTERS[from..end]);
    to
}
