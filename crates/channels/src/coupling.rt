// The coupling strategy of a block (4.3.3): which channels are coupled, in which range and in how many bands.
ghost use Rattle.std.specs.Prelude.{◌≡◌, ◌<◌, ◌≤◌, IfOk};
ghost use Rattle.syntax.specs.Reads.{Reads};
ghost use Rattle.slots.specs.Slots.{sub_bands};
ghost use Rattle.slots.specs.Sound.{SoundCoupling};
ghost use Rattle.channels.specs.Coupling as grammar;
ghost use Rattle.channels.specs.Sound.{SoundBands};

use slots::Coupling;
use syntax::items::{nth, one};
use syntax::names::*;
use syntax::readers::refuse_if;
use syntax::{Reader, Refusal};

fn coupled_channels(r: &mut Reader<'_>, blk: u8, nfchans: u8) -> Result<[bool; 5], Refusal>
    requires { nfchans ≤ 5 }
    ensures { Reads (grammar.coupled_channels blk nfchans) r.old result r.new }
{
    let mut chincpl = [false; 5];
    for ch in 0..nfchans {
        chincpl[ch as usize] = r.flag(nth(blk, CHINCPL, ch))?;
    }
    Ok(chincpl)
}

fn how_many(set: [bool; 5]) -> usize
    ensures { result ≡ grammar.how_many set }
{
    set.iter().filter(|flag| **flag).count()
}

// Coupling sub-bands: none where the range is empty.
fn sub_bands(cplbegf: usize, cplendf: usize) -> usize
    requires { (cplbegf < 16) × (cplendf < 16) }
    ensures value { result ≡ sub_bands cplbegf cplendf }
    ensures upper_bound { result ≤ 18 }
{
    (3 + cplendf).saturating_sub(cplbegf)
}

// The coupling bands: as many as there are sub-bands, less those that join the band before them.
fn coupling_bands(r: &mut Reader<'_>, blk: u8, subbands: usize) -> Result<usize, Refusal>
    requires { subbands ≤ 18 }
    ensures reads { Reads (grammar.coupling_bands blk subbands) r.old result r.new }
    ensures bands_bound { IfOk result (λ bands. bands ≤ 18) }
{
    let mut bands = subbands;
    for bnd in 1..subbands as u8 {
        let cplbndstrc = r.flag(nth(blk, CPLBNDSTRC, bnd))?;
        if cplbndstrc {
            bands -= 1;
        }
    }
    Ok(bands)
}

// cplinu 1
fn new_coupling(r: &mut Reader<'_>, blk: u8, acmod: u8, nfchans: u8) -> Result<Coupling, Refusal>
    requires { nfchans ≤ 5 }
    ensures reads { Reads (grammar.new_coupling blk acmod nfchans) r.old result r.new }
    ensures sound_coupling { IfOk result SoundCoupling }
    ensures sound_bands { IfOk result SoundBands }
{
    let chincpl = coupled_channels(r, blk, nfchans)?;
    let phsflginu = r.flag_if(acmod == 2, one(blk, PHSFLGINU))?;
    let cplbegf = r.take(one(blk, CPLBEGF), 4)? as usize;
    let cplendf = r.take(one(blk, CPLENDF), 4)? as usize;
    refuse_if(cplendf + 2 < cplbegf, Refusal::BadCouplingRange)?;
    let ncplbnd = coupling_bands(r, blk, sub_bands(cplbegf, cplendf))?;
    refuse_if(how_many(chincpl) < 2, Refusal::TooFewCoupled)?;
    Ok(Coupling {
        cplinu: true,
        chincpl,
        phsflginu,
        cplbegf,
        cplendf,
        ncplbnd,
    })
}

pub fn coupling_strategy(
    r: &mut Reader<'_>,
    blk: u8,
    acmod: u8,
    nfchans: u8,
    old: Coupling,
) -> Result<Coupling, Refusal>
    requires nfchans_bound { nfchans ≤ 5 }
    requires sound_coupling { SoundCoupling old }
    requires sound_bands { SoundBands old }
    ensures reads { Reads (grammar.coupling_strategy blk acmod nfchans old) r.old result r.new }
    ensures sound_coupling_2 { IfOk result SoundCoupling }
    ensures sound_bands_2 { IfOk result SoundBands }
{
    let cplstre = r.announced(blk, CPLSTRE, Refusal::NoCouplingStrategy)?;
    if !cplstre {
        return Ok(old);
    }
    let cplinu = r.flag(one(blk, CPLINU))?;
    if cplinu {
        new_coupling(r, blk, acmod, nfchans)
    } else {
        // No channel is coupled; the range stays.
        Ok(Coupling {
            cplinu: false,
            chincpl: [false; 5],
            phsflginu: false,
            ..old
        })
    }
}
