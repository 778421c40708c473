// The SNR offsets and fast gains (4.3.3, 4.4.3.36 to .43): a coarse offset, and a fine one with a gain for each slot in use.
ghost use Rattle.std.specs.Prelude.{◌<◌, ◌≤◌, IfOk};
ghost use Rattle.syntax.specs.Grammar.{read_if};
ghost use Rattle.syntax.specs.Reads.{Reads};
ghost use Rattle.slots.specs.Sound.{SoundOffsets};
ghost use Rattle.parameters.specs.Parameters as grammar;

use slots::{CPL, LFE, Offsets};
use syntax::items::{nth, one};
use syntax::{Item, Reader, Refusal, names};

// The fine offset and the fast gain of a slot, by the elements that send the two.
fn fine_offset(
    r: &mut Reader<'_>,
    slot: u8,
    offset: Item,
    gain: Item,
    old: Offsets,
) -> Result<Offsets, Refusal>
    requires slot_bound { slot < 7 }
    requires sound_offsets { SoundOffsets old }
    ensures reads { Reads (grammar.fine_offset slot offset gain old) r.old result r.new }
    ensures sound_offsets_2 { IfOk result SoundOffsets }
{
    let fsnroffst = r.take(offset, 4)?;
    let fgaincod = r.take(gain, 3)?;
    let mut offsets = old;
    offsets.fsnroffst[slot as usize] = fsnroffst as u8;
    offsets.fgaincod[slot as usize] = fgaincod as u8;
    Ok(offsets)
}

// Those of coupling and LFE, which stand only where the slot is in use.
fn fine_offset_when(
    r: &mut Reader<'_>,
    used: bool,
    slot: u8,
    offset: Item,
    gain: Item,
    old: Offsets,
) -> Result<Offsets, Refusal>
    requires slot_bound { slot < 7 }
    requires sound_offsets { SoundOffsets old }
    ensures reads { Reads (read_if used old (grammar.fine_offset slot offset gain old)) r.old result r.new }
    ensures sound_offsets_2 { IfOk result SoundOffsets }
{
    if used {
        return fine_offset(r, slot, offset, gain, old);
    }
    Ok(old)
}

fn new_offsets(
    r: &mut Reader<'_>,
    blk: u8,
    nfchans: u8,
    cplinu: bool,
    lfeon: bool,
    old: Offsets,
) -> Result<Offsets, Refusal>
    requires nfchans_bound { nfchans ≤ 5 }
    requires sound_offsets { SoundOffsets old }
    ensures reads { Reads (grammar.new_offsets blk nfchans cplinu lfeon old) r.old result r.new }
    ensures sound_offsets_2 { IfOk result SoundOffsets }
{
    let csnroffst = r.take(one(blk, names::CSNROFFST), 6)?;
    let coarse = Offsets {
        csnroffst: csnroffst as u8,
        ..old
    };
    let offset = one(blk, names::CPLFSNROFFST);
    let gain = one(blk, names::CPLFGAINCOD);
    let mut offsets = fine_offset_when(r, cplinu, CPL, offset, gain, coarse)?;
    for ch in 0..nfchans {
        let offset = nth(blk, names::FSNROFFST, ch);
        let gain = nth(blk, names::FGAINCOD, ch);
        offsets = fine_offset(r, ch, offset, gain, offsets)?;
    }
    let offset = one(blk, names::LFEFSNROFFST);
    let gain = one(blk, names::LFEFGAINCOD);
    fine_offset_when(r, lfeon, LFE, offset, gain, offsets)
}

// The offsets of a block: new ones where they are announced, else those in force.
pub fn offsets(
    r: &mut Reader<'_>,
    blk: u8,
    nfchans: u8,
    cplinu: bool,
    lfeon: bool,
    old: Offsets,
) -> Result<Offsets, Refusal>
    requires nfchans_bound { nfchans ≤ 5 }
    requires sound_offsets { SoundOffsets old }
    ensures reads { Reads (grammar.offsets blk nfchans cplinu lfeon old) r.old result r.new }
    ensures sound_offsets_2 { IfOk result SoundOffsets }
{
    if r.announced(blk, names::SNROFFSTE, Refusal::NoOffsets)? {
        return new_offsets(r, blk, nfchans, cplinu, lfeon, old);
    }
    Ok(old)
}
