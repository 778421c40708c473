// Where the excitation of coupling starts (4.3.3, 4.4.3.44 to .46).
ghost use Rattle.std.specs.Prelude.{IfOk};
ghost use Rattle.syntax.specs.Reads.{Reads};
ghost use Rattle.slots.specs.Sound.{SoundLeak};
ghost use Rattle.parameters.specs.Parameters as grammar;

use slots::CouplingLeak;
use syntax::items::one;
use syntax::{Reader, Refusal, names};

fn new_leak(r: &mut Reader<'_>, blk: u8) -> Result<CouplingLeak, Refusal>
    ensures reads { Reads (grammar.new_leak blk) r.old result r.new }
    ensures sound_leak { IfOk result SoundLeak }
{
    let cplfleak = r.take(one(blk, names::CPLFLEAK), 3)?;
    let cplsleak = r.take(one(blk, names::CPLSLEAK), 3)?;
    Ok(CouplingLeak {
        sent: true,
        cplfleak: cplfleak as u8,
        cplsleak: cplsleak as u8,
    })
}

// The leak of a block: a new one where coupling is in use and sends it, else the one in force.
pub fn coupling_leak(
    r: &mut Reader<'_>,
    blk: u8,
    cplinu: bool,
    old: CouplingLeak,
) -> Result<CouplingLeak, Refusal>
    requires { SoundLeak old }
    ensures reads { Reads (grammar.coupling_leak blk cplinu old) r.old result r.new }
    ensures sound_leak { IfOk result SoundLeak }
{
    if !cplinu {
        return Ok(old);
    }
    if r.flag(one(blk, names::CPLLEAKE))? {
        return new_leak(r, blk);
    }
    Ok(old)
}
