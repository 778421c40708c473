// Reading a packed listing.
ghost use Rattle.std.specs.Prelude.{◌≡◌, ◌≤◌, length, drop, MatchResult};
ghost use Rattle.packed.specs.Answers.{number};
ghost use Rattle.packed.specs.Machine.{after, told};
ghost use Rattle.packed.specs.Moves.{spot};
ghost use Rattle.packed.specs.Packed.{weight, group, rows_on, reached, grouping, step, say, spoken, tell, verdict, heard};
ghost use Rattle.packed.specs.Tellers.{Reads};

use super::tellers::Teller;
use super::{Group, Packed, PackedFront, Place, Refusal, Seen, cells};

// What a group counts for: 128 to the number of groups before it, which is 5 from the sixth on.
pub(crate) fn weight_of(k: u8) -> usize
    ensures { (result ≡ weight k) × (result ≤ 34359738368) }
{
    match k {
        0 => 1,
        1 => 128,
        2 => 16384,
        3 => 2097152,
        4 => 268435456,
        _ => 34359738368,
    }
}

// What a byte makes of a number n so far, of k groups, where 5 stands for all from 5 on.
fn group_of(n: u32, k: u8, b: u8) -> Group
    ensures { result ≡ group n k b }
{
    let m = n as usize + (b % 128) as usize * weight_of(k);
    if 2147483648 < m {
        return Group::Bad(Refusal::TooLarge);
    }
    if 128 <= b {
        return Group::Going(m as u32, k.min(4) + 1);
    }
    if b == 0 && k != 0 {
        return Group::Bad(Refusal::NeedlessGroup);
    }
    Group::Whole(m)
}

fn rows_on(rows: usize) -> Packed
    ensures { result ≡ rows_on rows }
{
    if rows == 0 {
        return Packed::At(Place::Kind, 0, 0);
    }
    Packed::At(Place::Cell(rows - 1, 8), 0, 0)
}

// After a whole number at a place.
fn reached_of(p: Place, v: usize) -> Packed
    ensures { result ≡ reached p v }
{
    match p {
        Place::Count if v == 0 => Packed::Halt(Refusal::WrongValue),
        Place::Count => rows_on(v - 1),
        Place::Cell(rows, 0) => rows_on(rows),
        Place::Cell(rows, left) => Packed::At(Place::Cell(rows, left - 1), 0, 0),
        Place::Kind if v == 1 => Packed::At(Place::Tail(2), 0, 0),
        Place::Kind if v == 2 => Packed::At(Place::Tail(4), 0, 0),
        Place::Kind => Packed::Halt(Refusal::WrongValue),
        Place::Tail(0) => Packed::Done,
        Place::Tail(left) => Packed::At(Place::Tail(left - 1), 0, 0),
    }
}

fn grouping_of(p: Place, g: Group) -> Packed
    ensures { result ≡ grouping p g }
{
    match g {
        Group::Going(n, k) => Packed::At(p, n, k),
        Group::Whole(v) => reached_of(p, v),
        Group::Bad(refusal) => Packed::Halt(refusal),
    }
}

fn step_on(s: Packed, b: u8) -> Packed
    ensures { result ≡ step s b }
{
    match s {
        Packed::At(p, n, k) => grouping_of(p, group_of(n, k, b)),
        Packed::Done => Packed::Halt(Refusal::Trailing),
        Packed::Halt(refusal) => Packed::Halt(refusal),
    }
}

fn said_of(p: Place, g: Group) -> Option<(Place, usize)>
    ensures { heard result ≡ spoken p g }
{
    match g {
        Group::Whole(v) => Some((p, v)),
        _ => None,
    }
}

// A whole number that a byte ends, stored plus one, with its place.
fn heard_of(s: Packed, b: u8) -> Option<(Place, usize)>
    ensures { heard result ≡ tell s b }
{
    match s {
        Packed::At(p, n, k) => said_of(p, group_of(n, k, b)),
        _ => None,
    }
}

// Tells a whole number at a place.
fn say<T: Teller>(out: &mut [u8], at: usize, p: Place, v: usize) -> usize
    requires { T.room out.old at (say p v) }
    ensures { T.tells out.old at (say p v) out.new result }
{
    match p {
        Place::Count => at,
        Place::Cell(_, left) | Place::Tail(left) => T::text(out, at, v, left),
        Place::Kind if v == 1 => T::word(out, at, 0, 6),
        Place::Kind => T::word(out, at, 6, 14),
    }
}

// Tells what a byte tells.
fn tell_on<T: Teller>(out: &mut [u8], at: usize, s: Packed, b: u8) -> usize
    requires { T.room out.old at (tell s b) }
    ensures { T.tells out.old at (tell s b) out.new result }
{
    match heard_of(s, b) {
        Some((p, v)) => say::<T>(out, at, p, v),
        None => at,
    }
}

// Whether a packed listing was read to its end.
pub(crate) fn whole(s: Packed) -> Result<(), Refusal>
    ensures { MatchResult result (λ _. verdict s ≡ 0) (λ refusal. verdict s ≡ number refusal) }
{
    match s {
        Packed::At(_, _, _) => Err(Refusal::Incomplete),
        Packed::Done => Ok(()),
        Packed::Halt(refusal) => Err(refusal),
    }
}

// Where a row's number is to begin, or behind the rows the kind.
fn spot_of(more: usize, left: usize) -> Packed
    ensures { result ≡ spot more left }
{
    if more == 0 {
        return Packed::At(Place::Kind, 0, 0);
    }
    Packed::At(Place::Cell(more - 1, left), 0, 0)
}

// Tells the row count and the rows, as far as they stand whole.
fn front<T: Teller>(packed: &[u8], out: &mut [u8], at: usize) -> PackedFront
    requires { T.room out.old at (told step tell (Packed.At Place.Count 0 0) packed.now) }
    ensures { Reads step tell T.tells (Packed.At Place.Count 0 0) packed.now out.old at result.next (drop result.end packed.now) out.new result.told × (result.end ≤ length packed.now) }
{
    match cells::number_at(packed, 0) {
        Some(n) if 0 < n.stored => {
            let front = cells::read::<T>(packed, out, n.stored - 1, at, n.end);
            PackedFront {
                next: spot_of(front.rows, front.left),
                told: front.told,
                end: front.end,
            }
        }
        _ => PackedFront {
            next: Packed::At(Place::Count, 0, 0),
            told: at,
            end: 0,
        },
    }
}

// Tells a packed listing; where its reading ends.
pub(crate) fn read<T: Teller>(packed: &[u8], out: &mut [u8], at: usize) -> Seen<Packed>
    requires { T.room out.old at (told step tell (Packed.At Place.Count 0 0) packed.now) }
    ensures { (result.end ≡ after step (Packed.At Place.Count 0 0) packed.now) × T.tells out.old at (told step tell (Packed.At Place.Count 0 0) packed.now) out.new result.told }
{
    let front = front::<T>(packed, out, at);
    let mut s = front.next;
    let mut to = front.told;
    for b in &packed[front.end..] {
        to = tell_on::<T>(out, to, s, *b);
        s = step_on(s, *b);
    }
    Seen { end: s, told: to }
}
