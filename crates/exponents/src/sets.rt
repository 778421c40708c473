// One set of exponents (4.3.3, 6.1.3): a first exponent, and then groups of differences.
ghost use Rattle.std.specs.Prelude.{◌≡◌, ◌*◌, ◌<◌};
ghost use Rattle.syntax.specs.Grammar.{for, part_of};
ghost use Rattle.syntax.specs.Reads.{Reads, with_lent};
ghost use Rattle.slots.specs.Sound.{SoundRow};
ghost use Rattle.exponents.specs.Exponents as grammar;
ghost use Rattle.exponents.specs.Sound.{SoundUnpacked, SoundSet, SoundGrouping};

use crate::at_hand::{all_at_hand, groups_at_hand};
use crate::groups::{Grouping, bins_each, groups};
use slots::{CPL, LFE};
use syntax::items::nth;
use syntax::{Reader, Refusal, names};

// A set: in which block, of which slot, by which strategy, from bin `start` up to, not including, `end`.
#[derive(Clone, Copy)]
pub(crate) struct Set {
    pub(crate) blk: u8,
    pub(crate) slot: u8,
    pub(crate) strategy: u8,
    pub(crate) start: usize,
    pub(crate) end: usize,
}

// What the groups of a set begin with: the exponent of bin 0; for coupling it is doubled and stands for no bin.
fn first_exponent(row: &mut [i16; 256], slot: u8, absexp: u32) -> u32
    requires { absexp < 16 }
    ensures row_after { record { last = result; row = row.new } ≡ grammar.unpacked_first slot absexp }
    ensures sound_unpacked { SoundUnpacked (record { last = result; row = row.new }) }
{
    *row = [0i16; 256];
    if slot == CPL {
        return 2 * absexp;
    }
    row[0] = absexp as i16;
    absexp
}

impl Set {
    // The names of its first exponent and of its groups, and their index.
    fn names(self) -> (u8, u8, u8)
        requires { self.slot < 7 }
        ensures { result ≡ (grammar.first_name self.slot, grammar.group_name self.slot, grammar.exponent_index self.slot) }
    {
        match self.slot {
            CPL => (names::CPLABSEXP, names::CPLEXPS, 0),
            LFE => (names::LFEABSEXP, names::LFEEXPS, 0),
            channel => (names::ABSEXP, names::EXPS, channel),
        }
    }

    // The first bin of its groups: a channel's bin 0 has the first exponent.
    fn first_grouped(self) -> usize
        ensures { result ≡ grammar.first_grouped self.slot self.start }
    {
        if self.slot == CPL { self.start } else { 1 }
    }

    // How many groups it has: as many as its bins need. (A bad coupling range may end before it starts: then none.)
    fn group_count(self) -> usize
        requires { (self.strategy < 4) × (self.end < 254) }
        ensures { result ≡ grammar.group_count self.slot self.strategy self.start self.end }
    {
        let bins = 3 * bins_each(self.strategy);
        match self.slot {
            CPL => self.end.saturating_sub(self.start) / bins,
            LFE => 2,
            _ => (self.end.saturating_sub(1) + bins - 3) / bins,
        }
    }
}

// All groups of a set: each is tested by itself only where they are not all at hand. The answer is the last exponent.
fn all_groups(
    r: &mut Reader<'_>,
    row: &mut [i16; 256],
    set: Grouping,
    last: u32,
) -> Result<u32, Refusal>
    requires grouping { SoundGrouping set }
    requires sound_unpacked { SoundUnpacked (record { last = last; row = row.old }) }
    ensures reads { Reads (for 0 set.count (record { last = last; row = row.old }) (grammar.group (part_of set.blk set.name set.index) (grammar.bins_each set.strategy) set.first))
        r.old (with_lent (λ made. record { last = made; row = row.new }) result) r.new }
    ensures sound_row { SoundRow row.new }
{
    if all_at_hand(&*r, set.count) {
        return groups_at_hand(r, row, set, last);
    }
    groups(r, row, set, last)
}

// The exponents of a set, into a row that holds no others then.
pub(crate) fn exponent_set(
    r: &mut Reader<'_>,
    row: &mut [i16; 256],
    set: Set,
) -> Result<(), Refusal>
    requires sound_set { SoundSet set }
    requires sound_row { SoundRow row.old }
    ensures reads { Reads (grammar.exponent_set set.blk set.slot set.strategy set.start set.end) r.old (with_lent (λ _. row.new) result) r.new }
    ensures sound_row_2 { SoundRow row.new }
{
    let (first_name, group_name, index) = set.names();
    let absexp = r.take(nth(set.blk, first_name, index), 4)?;
    let last = first_exponent(row, set.slot, absexp);
    let grouping = Grouping {
        blk: set.blk,
        name: group_name,
        index,
        strategy: set.strategy,
        first: set.first_grouped(),
        count: set.group_count(),
    };
    all_groups(r, row, grouping, last)?;
    Ok(())
}
