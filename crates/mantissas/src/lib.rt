// The bit allocation of a block (6.2.2.1) and its mantissas (4.3.3, 6.3.5). Mantissas are counted slot by slot, and their bits
// follow from the counts; only where they do not fit the frame is the one that does not fit looked for, mantissa by mantissa.
// `mantissas` is public because the audio block stands in a crate above.
#![tactic(auto)]

mod counting;
mod in_use;
mod memos;
mod parameters;
mod pointers;
mod walk;

ghost use Rattle.syntax.specs.Reads.{Reads};
ghost use Rattle.slots.specs.Sound.{SoundAlloc, SoundExps};
ghost use Rattle.mantissas.specs.Mantissas as grammar;
ghost use Rattle.mantissas.specs.Sound.{SoundBlock};
ghost use Rattle.mantissas.specs.Kept.{Kept, KeptUnlessNew};

use crate::in_use::parts_in_use;
use crate::memos::{Taken, count_parts, forget_new};
use crate::parameters::is_silent;
use crate::walk::walk;
use slots::{AllocState, Coupling, Strategies};
use syntax::items::one_roled;
use syntax::readers::refuse_if;
use syntax::{Reader, Refusal, Role, names};

// What the block's mantissas go by, besides the state of its bit allocation and its exponents.
#[derive(Drop)]
pub struct Block {
    pub blk: u8,
    pub fscod: u8,
    pub nfchans: u8,
    pub lfeon: bool,
    pub coupling: Coupling,
    pub strategies: Strategies,
    pub ends: [usize; 5],
}

// A slot in use, with its first bin and the first bin past its last.
#[derive(Clone, Copy)]
pub struct Part {
    pub slot: u8,
    pub start: u8,
    pub end: u8,
}

// The slots in use, in the order of their mantissas.
#[derive(Clone, Copy)]
pub struct Parts {
    pub count: usize,
    pub list: [Part; 7],
}

// What the pointers of a block go by, besides the exponents. Where it is silent every pointer is 0.
#[derive(Clone, Copy)]
pub struct Setting {
    pub fscod: u8,
    pub st: AllocState,
    pub silent: bool,
}

// Mantissas counted: the bits of those that stand alone, and how many there are of pointers 1, 2 and 4.
#[derive(Clone, Copy)]
pub struct Counts {
    pub bits: u32,
    pub ones: u32,
    pub twos: u32,
    pub fours: u32,
}

// The first bit of a block's mantissas, and the bits of each slot.
#[derive(Drop)]
pub struct Walked {
    pub start: u16,
    pub bits: [u16; 7],
}

// One span; the answer is its first bit and the bits of the slots. Walked first, and its row is written after. What was counted of the
// slots in earlier blocks is lent; what was counted from exponents that are new in this block is forgotten before all else, so that it is
// true of the exponents whatever is read.
pub fn mantissas(
    r: &mut Reader<'_>,
    block: Block,
    st: AllocState,
    exps: &[[i16; 256]; 7],
    memos: &mut [[u32; 16]; 7],
) -> Result<Walked, Refusal>
    requires sound_block { SoundBlock block × SoundAlloc st × SoundExps exps.now }
    requires kept_unless_new { KeptUnlessNew block.fscod block.strategies memos.old exps.now }
    ensures reads { Reads (grammar.mantissas block.blk block.fscod block.nfchans block.lfeon block.coupling block.ends st exps.now) r.old result r.new }
    ensures kept { Kept block.fscod memos.new exps.now }
{
    forget_new(&mut *memos, block.strategies);
    let ps = parts_in_use(block.nfchans, block.lfeon, &block.coupling, &block.ends);
    let silent = is_silent(&st.offsets, &ps);
    refuse_if(
        !silent & (block.coupling.cplinu & !st.leak.sent),
        Refusal::NoLeak,
    )?;
    let start = r.at;
    let item = one_roled(block.blk, Role::Mantissas, names::MANTISSAS);
    let by = Setting {
        fscod: block.fscod,
        st,
        silent,
    };
    let Taken { width, bits } = count_parts(&by, exps, memos, &ps);
    walk(&mut *r, item, width, &by, exps, &ps)?;
    r.close(item, start)?;
    Ok(Walked { start, bits })
}
