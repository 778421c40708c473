// The coupling coordinates and phase flags of a block (4.3.3).
ghost use Rattle.std.specs.Prelude.{false, ◌<◌, ◌≤◌, replicate};
ghost use Rattle.syntax.specs.Grammar as syntax;
ghost use Rattle.syntax.specs.Reads.{Reads};
ghost use Rattle.channels.specs.Coupling as grammar;
ghost use Rattle.channels.specs.Sound.{SoundBands};

use slots::Coupling;
use syntax::items::{nth, part_of};
use syntax::names::*;
use syntax::{Reader, Refusal};

fn coordinates(r: &mut Reader<'_>, blk: u8, ch: u8, ncplbnd: usize) -> Result<(), Refusal>
    requires { ncplbnd ≤ 18 }
    ensures { Reads (syntax.each ncplbnd (grammar.coordinate blk ch)) r.old result r.new }
{
    for bnd in 0..ncplbnd as u8 {
        r.note(part_of(blk, CPLCOEXP, ch, bnd), 4)?;
        r.note(part_of(blk, CPLCOMANT, ch, bnd), 4)?;
    }
    Ok(())
}

// Whether a channel sent coordinates.
fn channel_coordinates(
    r: &mut Reader<'_>,
    blk: u8,
    coupling: Coupling,
    ch: u8,
) -> Result<bool, Refusal>
    requires ch_bound { ch < 5 }
    requires sound_bands { SoundBands coupling }
    ensures { Reads (grammar.channel_coordinates blk coupling ch) r.old result r.new }
{
    if !coupling.chincpl[ch as usize] {
        return Ok(false);
    }
    let cplcoe = r.flag(nth(blk, CPLCOE, ch))?;
    if cplcoe {
        r.note(nth(blk, MSTRCPLCO, ch), 2)?;
        coordinates(r, blk, ch, coupling.ncplbnd)?;
    }
    Ok(cplcoe)
}

fn sent_coordinates(
    r: &mut Reader<'_>,
    blk: u8,
    nfchans: u8,
    coupling: Coupling,
) -> Result<[bool; 5], Refusal>
    requires nfchans_bound { nfchans ≤ 5 }
    requires sound_bands { SoundBands coupling }
    ensures { Reads (syntax.fill nfchans (replicate 5 false) (grammar.channel_coordinates blk coupling)) r.old result r.new }
{
    let mut sent = [false; 5];
    for ch in 0..nfchans {
        sent[ch as usize] = channel_coordinates(r, blk, coupling, ch)?;
    }
    Ok(sent)
}

// Which channels sent coordinates: none where there is no coupling.
pub fn coupling_coordinates(
    r: &mut Reader<'_>,
    blk: u8,
    nfchans: u8,
    coupling: Coupling,
) -> Result<[bool; 5], Refusal>
    requires nfchans_bound { nfchans ≤ 5 }
    requires sound_bands { SoundBands coupling }
    ensures { Reads (grammar.coupling_coordinates blk nfchans coupling) r.old result r.new }
{
    if !coupling.cplinu {
        return Ok([false; 5]);
    }
    let sent = sent_coordinates(r, blk, nfchans, coupling)?;
    // Phase flags follow where they are in use and one of the two channels sent coordinates.
    if coupling.phsflginu & (sent[0] | sent[1]) {
        r.flags(blk, PHSFLG, coupling.ncplbnd as u8)?;
    }
    Ok(sent)
}
