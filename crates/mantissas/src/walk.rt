// The walk over a block's mantissas (6.3.5), piece by piece.
ghost use Rattle.std.specs.Prelude.{◌≡◌, ◌*◌, ◌<◌, ◌≤◌, IfOk};
ghost use Rattle.syntax.specs.Run.{sum};
ghost use Rattle.syntax.specs.Reads.{walked, with_lent, Writes};
ghost use Rattle.slots.specs.Sound.{Entries, SoundExps};
ghost use Rattle.mantissas.specs.Mantissas.{none_open, widths, all_pointers};
ghost use Rattle.mantissas.specs.Sound.{SoundSetting, SoundParts, listed, between};
ghost use Rattle.mantissas.specs.Counts.{counted_all, open_after, AtMost};

use crate::counting::NO_COUNTS;
use crate::pointers::part_pointers;
use crate::{Counts, Parts, Setting};
use syntax::{Item, Reader, Refusal};

// A mantissa takes as many bits as the total grows by. By index: nothing says that a slot ends past its start, as a slice of it would ask.
fn walk_bins(
    r: &mut Reader<'_>,
    item: Item,
    before: Counts,
    pointers: &[u8; 256],
    start: usize,
    end: usize,
) -> Result<Counts, Refusal>
    requires { AtMost (6 * 253) before × ((end ≤ 253) × Entries pointers.now 16) }
    ensures counts_value { IfOk result (λ counts. counts ≡ counted_all before (between 0 pointers.now start end)) }
    ensures goes_on { Writes (walked item (widths (open_after before) (between 0 pointers.now start end))) r.old (with_lent (λ _. tt) result) r.new }
{
    let bits = tables::mantissa_bits();
    let mut counts = before;
    for bin in start..end {
        let more = counts.with_one(bits, pointers[bin]);
        let width = more.width() - counts.width();
        r.step(item, width as u16)?;
        counts = more;
    }
    Ok(counts)
}

// All slots in use, with what they leave open carried from one to the next.
fn walk_parts(
    r: &mut Reader<'_>,
    item: Item,
    by: &Setting,
    exps: &[[i16; 256]; 7],
    ps: &Parts,
) -> Result<(), Refusal>
    requires { SoundSetting by.now × SoundExps exps.now × SoundParts ps.now }
    ensures { Writes (walked item (widths none_open (all_pointers by.now.fscod by.now.st exps.now by.now.silent (listed ps.now)))) r.old result r.new }
{
    let mut counts = NO_COUNTS;
    for p in ps.slots() {
        let pointers = part_pointers(by, exps, *p);
        counts = walk_bins(
            &mut *r,
            item,
            counts,
            &pointers,
            p.start as usize,
            p.end as usize,
        )?;
    }
    Ok(())
}

// Where the mantissas, of so many bits, fit the frame they are passed at once; where not, the first that does not fit is looked for.
pub fn walk(
    r: &mut Reader<'_>,
    item: Item,
    width: u32,
    by: &Setting,
    exps: &[[i16; 256]; 7],
    ps: &Parts,
) -> Result<(), Refusal>
    requires sound { SoundSetting by.now × SoundExps exps.now × SoundParts ps.now }
    requires width_value { width ≡ sum (widths none_open (all_pointers by.now.fscod by.now.st exps.now by.now.silent (listed ps.now))) }
    requires width_bound { width < 65536 }
    ensures { Writes (walked item (widths none_open (all_pointers by.now.fscod by.now.st exps.now by.now.silent (listed ps.now)))) r.old result r.new }
{
    let end = r.at as u32 + width;
    if end <= r.limit as u32 {
        r.at = end as u16;
        return Ok(());
    }
    walk_parts(r, item, by, exps, ps)
}
