// The exponent strategies of a block (4.3.3).
ghost use Rattle.std.specs.Prelude.{◌≤◌, IfOk};
ghost use Rattle.syntax.specs.Reads.{Reads};
ghost use Rattle.slots.specs.Sound.{Entries, SoundStrategies};
ghost use Rattle.channels.specs.Strategies as grammar;

use slots::Strategies;
use syntax::items::{nth, one};
use syntax::names::*;
use syntax::{Reader, Refusal};

fn channel_strategies(r: &mut Reader<'_>, blk: u8, nfchans: u8) -> Result<[u8; 5], Refusal>
    requires { nfchans ≤ 5 }
    ensures reads { Reads (grammar.channel_strategies blk nfchans) r.old result r.new }
    ensures entries { IfOk result (λ codes. Entries codes 4) }
{
    let mut codes = [0; 5];
    for ch in 0..nfchans {
        codes[ch as usize] = r.take(nth(blk, CHEXPSTR, ch), 2)? as u8;
    }
    Ok(codes)
}

pub fn exponent_strategies(
    r: &mut Reader<'_>,
    blk: u8,
    nfchans: u8,
    cplinu: bool,
    lfeon: bool,
) -> Result<Strategies, Refusal>
    requires { nfchans ≤ 5 }
    ensures reads { Reads (grammar.exponent_strategies blk nfchans cplinu lfeon) r.old result r.new }
    ensures sound_strategies { IfOk result SoundStrategies }
{
    let cplexpstr = r.take_if(cplinu, one(blk, CPLEXPSTR), 2)? as u8;
    let chexpstr = channel_strategies(r, blk, nfchans)?;
    let lfeexpstr = r.take_if(lfeon, one(blk, LFEEXPSTR), 1)? as u8;
    Ok(Strategies {
        cplexpstr,
        chexpstr,
        lfeexpstr,
    })
}
