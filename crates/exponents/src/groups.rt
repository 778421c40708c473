// The groups of a set (6.1.3): each has three exponents, and each of these stands for 1, 2 or 4 bins.
ghost use Rattle.std.specs.Prelude.{◌≡◌, ◌+◌, ◌*◌, ◌<◌, ◌≤◌, pos, replicate, IfOk};
ghost use Rattle.std.proofs.lemmas.List.Edits.{sets};
ghost use Rattle.syntax.specs.Grammar.{for, part_of};
ghost use Rattle.syntax.specs.Reads.{Reads, with_lent};
ghost use Rattle.slots.specs.Sound.{SoundRow};
ghost use Rattle.exponents.specs.Exponents as grammar;
ghost use Rattle.exponents.specs.Bytes.{Steps};
ghost use Rattle.exponents.specs.Made as made;
ghost use Rattle.exponents.specs.Sound.{SoundUnpacked, SoundGrouping};

use crate::unpack::{steps, unpack};
use syntax::items::part_of;
use syntax::{Reader, Refusal};

// The bins that an exponent stands for.
pub(crate) fn bins_each(strategy: u8) -> usize
    requires { strategy < 4 }
    ensures { result ≡ grammar.bins_each strategy }
{
    match strategy {
        2 => 2,
        3 => 4,
        _ => 1,
    }
}

// An exponent stands for as many bins as the strategy says, from bin `at` on.
// Stores one by one: a `fill` of the two or four bins was tried, and took half as much again for each group.
fn repeat(row: &mut [i16; 256], at: usize, strategy: u8, exponent: u32)
    requires { (strategy < 4) × ((at + grammar.bins_each strategy ≤ 256) × (exponent < 32)) }
    ensures { row.new ≡ sets row.old at (replicate (grammar.bins_each strategy) (pos exponent)) }
{
    let e = exponent as i16;
    row[at] = e;
    if strategy < 2 {
        return;
    }
    row[at + 1] = e;
    if strategy == 2 {
        return;
    }
    row[at + 2] = e;
    row[at + 3] = e;
}

// Three exponents, one after the other.
fn spread(row: &mut [i16; 256], at: usize, strategy: u8, three: (u32, u32, u32))
    requires strategy_bound { (strategy < 4) × (at + 3 * grammar.bins_each strategy ≤ 256) }
    requires three_bound { (three.0 < 25) × ((three.1 < 25) × (three.2 < 25)) }
    requires sound_row { SoundRow row.old }
    ensures row_after { row.new ≡ sets row.old at (grammar.spread (grammar.bins_each strategy) three.0 three.1 three.2) }
    ensures sound_row_2 { SoundRow row.new }
{
    let bins = bins_each(strategy);
    repeat(row, at, strategy, three.0);
    repeat(row, at + bins, strategy, three.1);
    repeat(row, at + bins + bins, strategy, three.2);
}

// The groups of a set: the block, name and index that they are recorded with, their strategy, the first bin, and how many they are.
#[derive(Clone, Copy)]
pub(crate) struct Grouping {
    pub(crate) blk: u8,
    pub(crate) name: u8,
    pub(crate) index: u8,
    pub(crate) strategy: u8,
    pub(crate) first: usize,
    pub(crate) count: usize,
}

// The exponents of a group, into the row from bin `at` on; the answer is the last of them.
pub(crate) fn unpack_group(
    row: &mut [i16; 256],
    steps: &[u32; 128],
    strategy: u8,
    at: usize,
    last: u32,
    group: u32,
) -> Result<u32, Refusal>
    requires strategy_bound { (strategy < 4) × (group < 128) }
    requires strategy_bound_2 { at + 3 * grammar.bins_each strategy ≤ 256 }
    requires sound_unpacked { SoundUnpacked (record { last = last; row = row.old }) }
    requires steps { Steps steps.now }
    ensures group_value { made.of_number (grammar.bins_each strategy) at (record { last = last; row = row.old }) group
        ≡ made.answered (with_lent (λ made. record { last = made; row = row.new }) result) }
    ensures sound_row { SoundRow row.new }
    ensures last_bound { IfOk result (λ made. made < 32) }
{
    let three = unpack(steps, last, group)?;
    spread(row, at, strategy, three);
    Ok(three.2)
}

// All groups of a set, each with its tests; the answer is the last exponent.
pub(crate) fn groups(
    r: &mut Reader<'_>,
    row: &mut [i16; 256],
    set: Grouping,
    last: u32,
) -> Result<u32, Refusal>
    requires grouping { SoundGrouping set }
    requires sound_unpacked { SoundUnpacked (record { last = last; row = row.old }) }
    ensures reads { Reads (for 0 set.count (record { last = last; row = row.old }) (grammar.group (part_of set.blk set.name set.index) (grammar.bins_each set.strategy) set.first))
        r.old (with_lent (λ made. record { last = made; row = row.new }) result) r.new }
    ensures sound_row { SoundRow row.new }
{
    let steps = steps();
    let width = 3 * bins_each(set.strategy);
    let mut exponent = last;
    for n in 0..set.count {
        let group = r.take(part_of(set.blk, set.name, set.index, n as u8), 7)?;
        let at = set.first + n * width;
        exponent = unpack_group(row, &steps, set.strategy, at, exponent, group)?;
    }
    Ok(exponent)
}
