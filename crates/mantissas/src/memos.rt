// Mantissas counted before, kept for each slot while nothing that they depend on has changed.
ghost use Rattle.std.specs.Prelude.{◌≡◌, true, List, ℕ, ◌<◌, ℤ};
ghost use Rattle.syntax.specs.Run.{sum};
ghost use Rattle.slots.specs.Slots.{is_new};
ghost use Rattle.slots.specs.Sound.{SoundAlloc, SoundExps};
ghost use Rattle.mantissas.specs.Mantissas as grammar;
ghost use Rattle.mantissas.specs.Mantissas.{none_open, widths, all_pointers, part_pointers, by_slot};
ghost use Rattle.mantissas.specs.Sound.{SoundSetting, SoundPart, SoundParts, listed};
ghost use Rattle.mantissas.specs.Counts.{no_counts, counted_all, AtMost};
ghost use Rattle.mantissas.specs.Kept.{memo_of, counts_in, SameBasis, Kept, KeptUnlessNew};
ghost use Rattle.slots.specs.Reused.{strategy_of};

use crate::counting::{NO_COUNTS, count_bins};
use crate::parameters::{deltas_of, parameters_of};
use crate::pointers::zeros;
use crate::{Counts, Part, Parts, Setting};
use slots::{AllocState, CPL, LFE, Strategies};

// ---- forgotten

// Whether the exponents of a slot are new in this block.
fn is_new(strategies: Strategies, slot: u8) -> bool
    requires { slot < 7 }
    ensures { result ≡ is_new (strategy_of strategies slot) }
{
    match slot {
        CPL => strategies.cplexpstr != 0,
        LFE => strategies.lfeexpstr != 0,
        _ => strategies.chexpstr[slot as usize] != 0,
    }
}

// What was counted of a slot goes by its exponents, so that it is forgotten where these are new.
pub fn forget_new(memos: &mut [[u32; 16]; 7], strategies: Strategies)
    ensures { (fscod : ℕ) (exps : List (List ℤ)) → KeptUnlessNew fscod strategies memos.old exps → Kept fscod memos.new exps }
{
    for slot in 0..7u8 {
        if is_new(strategies, slot) {
            memos[slot as usize] = [0; 16];
        }
    }
}

// ---- kept

// So many numbers of a memo say what its counts go by.
const BASIS: usize = 12;

// What the pointers of a slot without delta segments go by, besides its exponents; and then what was counted.
fn memo(st: &AllocState, p: Part, n: Counts) -> [u32; 16]
    requires { SoundPart p × SoundAlloc st.now }
    ensures { result ≡ memo_of st.now p n }
{
    let at = p.slot as usize;
    [
        p.start as u32,
        p.end as u32,
        st.curve.sdcycod as u32,
        st.curve.fdcycod as u32,
        st.curve.sgaincod as u32,
        st.curve.dbpbcod as u32,
        st.curve.floorcod as u32,
        st.offsets.csnroffst as u32,
        st.offsets.fsnroffst[at] as u32,
        st.offsets.fgaincod[at] as u32,
        st.leak.cplfleak as u32,
        st.leak.cplsleak as u32,
        n.bits,
        n.ones,
        n.twos,
        n.fours,
    ]
}

// Whether what was kept was counted from the same.
fn same_basis(kept: &[u32; 16], memo: &[u32; 16]) -> bool
    ensures { result ≡ true → SameBasis kept.now memo.now }
{
    kept[..BASIS] == memo[..BASIS]
}

fn counts_in(kept: &[u32; 16]) -> Counts
    ensures { result ≡ counts_in kept.now }
{
    Counts {
        bits: kept[12],
        ones: kept[13],
        twos: kept[14],
        fours: kept[15],
    }
}

// ---- the mantissas of the slots

// The bits that mantissas take: all of them, and those of each slot.
#[derive(Drop)]
pub struct Taken {
    pub width: u32,
    pub bits: [u16; 7],
}

// The mantissas of a slot, counted by the addresses of its bins: no array of pointers is made.
fn count_slot(by: &Setting, exps: &[[i16; 256]; 7], p: Part) -> Counts
    requires { SoundSetting by.now × SoundExps exps.now × SoundPart p }
    ensures value { result ≡ counted_all no_counts (grammar.pointers by.now.fscod by.now.st exps.now p) }
    ensures at_most { AtMost 253 result }
{
    let at = p.slot as usize;
    let mut addresses = zeros();
    alloc::addresses_of(
        &mut addresses,
        &exps[at],
        parameters_of(by.fscod, &by.st, p),
    );
    count_bins(&addresses, p.start as usize, p.end as usize)
}

// The same, counted only where what was kept was counted from something else.
fn counts_of(by: &Setting, exps: &[[i16; 256]; 7], memos: &mut [[u32; 16]; 7], p: Part) -> Counts
    requires sound_setting { SoundSetting by.now × SoundExps exps.now × SoundPart p }
    requires kept { Kept by.now.fscod memos.old exps.now }
    ensures value { result ≡ counted_all no_counts (grammar.pointers by.now.fscod by.now.st exps.now p) }
    ensures at_most { AtMost 253 result }
    ensures kept_2 { Kept by.now.fscod memos.new exps.now }
{
    if deltas_of(&by.st, p.slot).count != 0 {
        return count_slot(by, exps, p);
    }
    let at = p.slot as usize;
    if same_basis(&memos[at], &memo(&by.st, p, NO_COUNTS)) {
        return counts_in(&memos[at]);
    }
    let counts = count_slot(by, exps, p);
    memos[at] = memo(&by.st, p, counts);
    counts
}

// The mantissas of a slot in use: 0 where every pointer is.
fn part_counts(by: &Setting, exps: &[[i16; 256]; 7], memos: &mut [[u32; 16]; 7], p: Part) -> Counts
    requires sound_setting { SoundSetting by.now × SoundExps exps.now × SoundPart p }
    requires kept { Kept by.now.fscod memos.old exps.now }
    ensures value { result ≡ counted_all no_counts (part_pointers by.now.fscod by.now.st exps.now by.now.silent p) }
    ensures at_most { AtMost 253 result }
    ensures kept_2 { Kept by.now.fscod memos.new exps.now }
{
    if by.silent {
        return NO_COUNTS;
    }
    counts_of(by, exps, memos, p)
}

// The bits that the mantissas of all slots in use take, and those of each of the seven slots: a slot takes what the total grows by.
pub fn count_parts(
    by: &Setting,
    exps: &[[i16; 256]; 7],
    memos: &mut [[u32; 16]; 7],
    ps: &Parts,
) -> Taken
    requires sound_setting { SoundSetting by.now × SoundExps exps.now × SoundParts ps.now }
    requires kept { Kept by.now.fscod memos.old exps.now }
    ensures width_value { result.width ≡ sum (widths none_open (all_pointers by.now.fscod by.now.st exps.now by.now.silent (listed ps.now))) }
    ensures bits_value { result.bits ≡ by_slot (listed ps.now) (widths none_open (all_pointers by.now.fscod by.now.st exps.now by.now.silent (listed ps.now))) }
    ensures width_bound { result.width < 65536 }
    ensures kept_2 { Kept by.now.fscod memos.new exps.now }
{
    let mut counts = NO_COUNTS;
    let mut width = 0u32;
    let mut bits = [0u16; 7];
    for p in ps.slots() {
        let more = part_counts(by, exps, memos, *p);
        counts = counts.plus(more);
        let before = width;
        width = counts.width();
        bits[p.slot as usize] += (width - before) as u16;
    }
    Taken { width, bits }
}
