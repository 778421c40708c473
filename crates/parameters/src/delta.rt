// Delta bit allocation (4.3.3, 4.4.3.47): for each slot up to eight segments, kept from block to block.
ghost use Rattle.std.specs.Prelude.{◌≡◌, ◌<◌, ◌≤◌, IfOk};
ghost use Rattle.syntax.specs.Grammar.{one, part_of, read_if};
ghost use Rattle.syntax.specs.Names as Name;
ghost use Rattle.syntax.specs.Reads.{Reads};
ghost use Rattle.slots.specs.Slots as slots;
ghost use Rattle.parameters.specs.Delta as grammar;
ghost use Rattle.slots.specs.Sound.{SoundCodes, SoundSegments, SoundDeltas};

use slots::{CPL, Deltas, NO_DELTAS};
use syntax::items::{nth, one, part_of};
use syntax::readers::refuse_if;
use syntax::{Item, NONE, Reader, Refusal, names};

// ---- codes

// The codes of a block (Table 4.11: 0 keeps the segments of a slot, 1 announces new ones, 2 clears them), and the segments in force. A code
// stays the number that the definition compares. (Public because the definition speaks of it.)
#[derive(Clone, Copy)]
pub struct Coded {
    pub codes: [u8; 7],
    pub deltas: [Deltas; 7],
}

// The code of a slot.
fn delta_code(
    r: &mut Reader<'_>,
    blk: u8,
    slot: u8,
    item: Item,
    coded: Coded,
) -> Result<Coded, Refusal>
    requires { (slot < 7) × SoundDeltas coded.deltas }
    ensures reads { Reads (grammar.delta_code blk slot item coded) r.old result r.new }
    ensures sound_deltas { IfOk result (λ next. SoundDeltas next.deltas) }
{
    let deltbae = r.take(item, 2)?;
    refuse_if((deltbae == 0) & (blk == 0), Refusal::NoDelta)?;
    refuse_if(deltbae == 3, Refusal::BadDelta)?;
    let at = slot as usize;
    let mut next = coded;
    next.codes[at] = deltbae as u8;
    if deltbae == 2 {
        next.deltas[at] = NO_DELTAS;
    }
    Ok(next)
}

// The code of coupling, where it is in use.
fn coupling_code(r: &mut Reader<'_>, blk: u8, cplinu: bool, coded: Coded) -> Result<Coded, Refusal>
    requires { SoundDeltas coded.deltas }
    ensures reads { Reads (read_if cplinu coded (grammar.delta_code blk slots.CPL (one blk Name.cpldeltbae) coded)) r.old result r.new }
    ensures sound_deltas { IfOk result (λ next. SoundDeltas next.deltas) }
{
    if cplinu {
        return delta_code(r, blk, CPL, one(blk, names::CPLDELTBAE), coded);
    }
    Ok(coded)
}

// ---- segments

// An element of a slot's segments: coupling and the channels have each a name of their own for it.
fn of_slot(blk: u8, slot: u8, coupling: u8, channel: u8, part: u8) -> Item
    ensures { result ≡ part_of blk (grammar.delta_name slot coupling channel) slot part }
{
    if slot == CPL {
        part_of(blk, coupling, slot, part)
    } else {
        part_of(blk, channel, slot, part)
    }
}

// A segment: the bands that it skips, its length and its code.
fn segment(
    r: &mut Reader<'_>,
    blk: u8,
    slot: u8,
    seg: usize,
    segments: [u8; 24],
) -> Result<[u8; 24], Refusal>
    requires { (seg < 8) × SoundCodes segments }
    ensures reads { Reads (grammar.segment blk slot seg segments) r.old result r.new }
    ensures sound_codes { IfOk result SoundCodes }
{
    let part = seg as u8;
    let offset = of_slot(blk, slot, names::CPLDELTOFFST, names::DELTOFFST, part);
    let length = of_slot(blk, slot, names::CPLDELTLEN, names::DELTLEN, part);
    let code = of_slot(blk, slot, names::CPLDELTBA, names::DELTBA, part);
    let deltoffst = r.take(offset, 5)?;
    let deltlen = r.take(length, 4)?;
    let deltba = r.take(code, 3)?;
    let at = seg * 3;
    let mut next = segments;
    next[at] = deltoffst as u8;
    next[at + 1] = deltlen as u8;
    next[at + 2] = deltba as u8;
    Ok(next)
}

// All segments of a slot.
fn new_deltas(r: &mut Reader<'_>, blk: u8, slot: u8) -> Result<Deltas, Refusal>
    ensures reads { Reads (grammar.new_deltas blk slot) r.old result r.new }
    ensures sound_segments { IfOk result SoundSegments }
{
    let number = of_slot(blk, slot, names::CPLDELTNSEG, names::DELTNSEG, NONE);
    let deltnseg = r.take(number, 3)?;
    let count = deltnseg as usize + 1;
    let mut segments = [0u8; 24];
    for seg in 0..count {
        segments = segment(r, blk, slot, seg, segments)?;
    }
    Ok(Deltas {
        count: count as u8,
        segments,
    })
}

// New segments of a slot that announced them.
fn slot_deltas(
    r: &mut Reader<'_>,
    blk: u8,
    codes: [u8; 7],
    slot: u8,
    deltas: [Deltas; 7],
) -> Result<[Deltas; 7], Refusal>
    requires { (slot < 7) × SoundDeltas deltas }
    ensures reads { Reads (grammar.slot_deltas blk codes slot deltas) r.old result r.new }
    ensures sound_deltas { IfOk result SoundDeltas }
{
    let at = slot as usize;
    if codes[at] != 1 {
        return Ok(deltas);
    }
    let mut next = deltas;
    next[at] = new_deltas(r, blk, slot)?;
    Ok(next)
}

// ---- a block

// All codes, and then all new segments.
fn coded_deltas(
    r: &mut Reader<'_>,
    blk: u8,
    nfchans: u8,
    cplinu: bool,
    old: [Deltas; 7],
) -> Result<[Deltas; 7], Refusal>
    requires { (nfchans ≤ 5) × SoundDeltas old }
    ensures reads { Reads (grammar.coded_deltas blk nfchans cplinu old) r.old result r.new }
    ensures sound_deltas { IfOk result SoundDeltas }
{
    let start = Coded {
        codes: [0; 7],
        deltas: old,
    };
    let mut coded = coupling_code(r, blk, cplinu, start)?;
    for ch in 0..nfchans {
        coded = delta_code(r, blk, ch, nth(blk, names::DELTBAE, ch), coded)?;
    }
    let mut deltas = slot_deltas(r, blk, coded.codes, CPL, coded.deltas)?;
    for ch in 0..nfchans {
        deltas = slot_deltas(r, blk, coded.codes, ch, deltas)?;
    }
    Ok(deltas)
}

// The delta bit allocation of a block. Where deltbaie is 0 the segments stay; in block 0 there are none.
pub fn deltas(
    r: &mut Reader<'_>,
    blk: u8,
    nfchans: u8,
    cplinu: bool,
    old: [Deltas; 7],
) -> Result<[Deltas; 7], Refusal>
    requires { (nfchans ≤ 5) × SoundDeltas old }
    ensures reads { Reads (grammar.deltas blk nfchans cplinu old) r.old result r.new }
    ensures sound_deltas { IfOk result SoundDeltas }
{
    if r.flag(one(blk, names::DELTBAIE))? {
        return coded_deltas(r, blk, nfchans, cplinu, old);
    }
    if blk == 0 {
        return Ok([NO_DELTAS; 7]);
    }
    Ok(old)
}
