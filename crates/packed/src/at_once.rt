// A whole number of a text at once. What is not read here, as a number that is too large or malformed, is read byte by byte.
ghost use Rattle.std.specs.Prelude.{◌≡◌, ◌+◌, ◌≤◌, ◌<◌, length, get_or, IfSome};
ghost use Rattle.packed.specs.Moves.{SpeltAt};

use super::Spelt;

// A number that is whole before a place, if the byte there ends it.
fn ended(listing: &[u8], at: usize, sep: u8, stored: usize) -> Option<Spelt>
    ensures { IfSome result (λ r. (r.stored ≡ stored) × (r.end ≡ at + 1) × (at < length listing.now) × (get_or listing.now at 0 ≡ sep)) }
{
    if *listing.get(at)? != sep {
        return None;
    }
    Some(Spelt {
        stored,
        end: at + 1,
    })
}

// Digits from a place on, of which the first is not 0.
fn digits(listing: &[u8], at: usize, first: usize, sep: u8) -> Option<Spelt>
    requires { (at < length listing.now) × (get_or listing.now at 0 ≡ 48 + first) × (1 ≤ first) × (first < 10) }
    ensures { IfSome result (SpeltAt listing.now at sep) }
{
    let mut n = first;
    for to in at + 1..listing.len() {
        let b = listing[to];
        if b == sep {
            return Some(Spelt {
                stored: n + 1,
                end: to + 1,
            });
        }
        if !b.is_ascii_digit() {
            return None;
        }
        n = n * 10 + (b - b'0') as usize;
        if 2147483647 < n {
            return None;
        }
    }
    None
}

// The number at a place that a byte ends.
#[inline(never)]
fn number_at(listing: &[u8], at: usize, sep: u8) -> Option<Spelt>
    ensures { IfSome result (SpeltAt listing.now at sep) }
{
    let first = *listing.get(at)?;
    match first {
        b'0' => ended(listing, at + 1, sep, 1),
        b'1'..=b'9' => digits(listing, at, (first - b'0') as usize, sep),
        b'-' => {
            if *listing.get(at + 1)? != b'1' {
                return None;
            }
            ended(listing, at + 2, sep, 0)
        }
        _ => None,
    }
}

// The same if the number has one digit or two or is -1, as most are.
#[inline(always)]
#[tactic(auto, using(crate::proofs::AtOnce::spelt_digit, crate::proofs::AtOnce::spelt_two))]
fn short_at(listing: &[u8], at: usize, sep: u8) -> Option<Spelt>
    requires { at ≤ length listing.now }
    ensures { IfSome result (SpeltAt listing.now at sep) }
{
    if listing.len() - at < 3 {
        return None;
    }
    let a = listing[at];
    let b = listing[at + 1];
    if b == sep {
        if a.is_ascii_digit() {
            return Some(Spelt {
                stored: (a - b'0') as usize + 1,
                end: at + 2,
            });
        }
        return None;
    }
    if listing[at + 2] != sep {
        return None;
    }
    match (a, b) {
        (b'1'..=b'9', b'0'..=b'9') => Some(Spelt {
            stored: (a - b'0') as usize * 10 + (b - b'0') as usize + 1,
            end: at + 3,
        }),
        (b'-', b'1') => Some(Spelt {
            stored: 0,
            end: at + 3,
        }),
        _ => None,
    }
}

// The number at a place that a byte ends. Short numbers are read where this is called, without a call.
#[inline(always)]
pub(crate) fn spelt_at(listing: &[u8], at: usize, sep: u8) -> Option<Spelt>
    requires { at ≤ length listing.now }
    ensures { IfSome result (SpeltAt listing.now at sep) }
{
    match short_at(listing, at, sep) {
        Some(n) => Some(n),
        None => number_at(listing, at, sep),
    }
}
