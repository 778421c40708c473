// Header answers as numbers, and whether a caller's numbers are those of one.
ghost use Rattle.std.specs.Prelude.{◌≡◌, ◌≤◌};
ghost use Rattle.ac3.specs.Apart.{most_header_rows};
ghost use Rattle.ferrysprig.specs.Apart.{header_in_order, header_numbers, same_numbers, taken_by};

use crate::flag;
use ac3::HeaderAnswer;
use syntax::rows::shown;

// The numbers of a header answer, and which of them is the block of what did not fit.
pub const HEADER_ANSWER: usize = 10;

const BLOCK: usize = 4;

// The numbers in their order, with 0 for the block. None is large.
fn header_in_order(a: HeaderAnswer) -> [u16; HEADER_ANSWER]
    requires { a.rows ≤ most_header_rows }
    ensures { result ≡ header_in_order a }
{
    let header = a.header;
    [
        a.refusal as u16,
        a.rows as u16,
        a.bit,
        a.name as u16,
        0,
        header.bytes,
        header.bsid as u16,
        header.acmod as u16,
        flag(header.lfeon),
        header.fscod as u16,
    ]
}

// All of them as the caller reads them.
pub fn header_numbers(a: HeaderAnswer) -> [i32; HEADER_ANSWER]
    requires { a.rows ≤ most_header_rows }
    ensures { result ≡ header_numbers a }
{
    let small = header_in_order(a);
    let mut out = [0i32; HEADER_ANSWER];
    writer::numbers(&small, &mut out);
    out[BLOCK] = shown(a.block);
    out
}

fn same_numbers(a: [i32; HEADER_ANSWER], b: [i32; HEADER_ANSWER]) -> bool
    ensures { result ≡ same_numbers a b }
{
    let mut i = 0usize;
    while i < HEADER_ANSWER {
        if a[i] != b[i] {
            return false;
        }
        i += 1;
    }
    true
}

// Whether the given numbers are those of a header answer that is no refusal. They may be any.
pub fn are_taken(given: [i32; HEADER_ANSWER], own: HeaderAnswer) -> bool
    requires { own.rows ≤ most_header_rows }
    ensures { result ≡ taken_by given own }
{
    if own.refusal != 0 {
        return false;
    }
    same_numbers(given, header_numbers(own))
}
