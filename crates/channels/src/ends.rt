// Where the channels of a block end (4.3.3): by the bandwidths that they sent, or where the coupling begins.
ghost use Rattle.std.specs.Prelude.{◌<◌, ◌≤◌, IfOk};
ghost use Rattle.syntax.specs.declared.Reader.{Reader};
ghost use Rattle.syntax.specs.Reads.{Reads};
ghost use Rattle.slots.specs.Sound.{SoundCoupling, SoundEnds};
ghost use Rattle.channels.specs.Strategies as grammar;
ghost use Rattle.channels.specs.Sound.{SoundBandwidths};

use crate::Bandwidths;
use slots::{Coupling, first_coupled, past_channel};
use syntax::items::nth;
use syntax::names::*;
use syntax::readers::refuse_if;
use syntax::{Reader, Refusal};

// A channel with new exponents that is not coupled sends its bandwidth. A code that is refused is not kept: every code in force is at most 60.
fn bandwidth(
    r: &mut Reader<'_>,
    blk: u8,
    coupling: Coupling,
    chexpstr: [u8; 5],
    ch: u8,
    old: Bandwidths,
) -> Result<Bandwidths, Refusal>
    requires ch_bound { ch < 5 }
    requires sound_bandwidths { SoundBandwidths old }
    ensures reads { Reads (grammar.bandwidth blk coupling chexpstr ch old) r.old result r.new }
    ensures sound_bandwidths_2 { IfOk result SoundBandwidths }
{
    let at = ch as usize;
    let sends = (chexpstr[at] != 0) & !coupling.chincpl[at];
    if !sends {
        return Ok(old);
    }
    let chbwcod = r.take(nth(blk, CHBWCOD, ch), 6)?;
    refuse_if(60 < chbwcod, Refusal::BadBandwidth)?;
    let mut new = old;
    new.sent[at] = true;
    new.chbwcod[at] = chbwcod as u8;
    Ok(new)
}

pub fn bandwidths(
    r: &mut Reader<'_>,
    blk: u8,
    nfchans: u8,
    coupling: Coupling,
    chexpstr: [u8; 5],
    old: Bandwidths,
) -> Result<Bandwidths, Refusal>
    requires nfchans_bound { nfchans ≤ 5 }
    requires sound_bandwidths { SoundBandwidths old }
    ensures reads { Reads (grammar.bandwidths blk nfchans coupling chexpstr old) r.old result r.new }
    ensures sound_bandwidths_2 { IfOk result SoundBandwidths }
{
    let mut bandwidths = old;
    for ch in 0..nfchans {
        bandwidths = bandwidth(r, blk, coupling, chexpstr, ch, bandwidths)?;
    }
    Ok(bandwidths)
}

// The first bin past a channel: where the coupling begins, or by its bandwidth.
fn channel_end(coupling: Coupling, bandwidths: Bandwidths, ch: u8) -> Result<usize, Refusal>
    requires ch_bound { ch < 5 }
    requires sound_coupling { SoundCoupling coupling }
    requires sound_bandwidths { SoundBandwidths bandwidths }
    ensures by_index { (c : Reader) → Reads (grammar.channel_end coupling bandwidths ch) c result c }
    ensures end_bound { IfOk result (λ end. end < 254) }
{
    let at = ch as usize;
    if coupling.chincpl[at] {
        return Ok(first_coupled(coupling.cplbegf));
    }
    refuse_if(!bandwidths.sent[at], Refusal::NoBandwidth)?;
    Ok(past_channel(bandwidths.chbwcod[at] as usize))
}

pub fn channel_ends(
    nfchans: u8,
    coupling: Coupling,
    bandwidths: Bandwidths,
) -> Result<[usize; 5], Refusal>
    requires nfchans_bound { nfchans ≤ 5 }
    requires sound_coupling { SoundCoupling coupling }
    requires sound_bandwidths { SoundBandwidths bandwidths }
    ensures by_index { (c : Reader) → Reads (grammar.channel_ends nfchans coupling bandwidths) c result c }
    ensures sound_ends { IfOk result SoundEnds }
{
    let mut ends = [0; 5];
    for ch in 0..nfchans {
        ends[ch as usize] = channel_end(coupling, bandwidths, ch)?;
    }
    Ok(ends)
}
