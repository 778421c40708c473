// The masking curve's parameters (4.3.3, 4.4.3.30 to .35).
ghost use Rattle.std.specs.Prelude.{IfOk};
ghost use Rattle.syntax.specs.Reads.{Reads};
ghost use Rattle.slots.specs.Sound.{SoundCurve};
ghost use Rattle.parameters.specs.Parameters as grammar;

use slots::Curve;
use syntax::items::one;
use syntax::{Reader, Refusal, names};

fn new_curve(r: &mut Reader<'_>, blk: u8) -> Result<Curve, Refusal>
    ensures reads { Reads (grammar.new_curve blk) r.old result r.new }
    ensures sound_curve { IfOk result SoundCurve }
{
    let sdcycod = r.take(one(blk, names::SDCYCOD), 2)?;
    let fdcycod = r.take(one(blk, names::FDCYCOD), 2)?;
    let sgaincod = r.take(one(blk, names::SGAINCOD), 2)?;
    let dbpbcod = r.take(one(blk, names::DBPBCOD), 2)?;
    let floorcod = r.take(one(blk, names::FLOORCOD), 3)?;
    Ok(Curve {
        sdcycod: sdcycod as u8,
        fdcycod: fdcycod as u8,
        sgaincod: sgaincod as u8,
        dbpbcod: dbpbcod as u8,
        floorcod: floorcod as u8,
    })
}

// The curve of a block: a new one where it is announced, else the one in force.
pub fn curve(r: &mut Reader<'_>, blk: u8, old: Curve) -> Result<Curve, Refusal>
    requires { SoundCurve old }
    ensures reads { Reads (grammar.curve blk old) r.old result r.new }
    ensures sound_curve { IfOk result SoundCurve }
{
    if r.announced(blk, names::BAIE, Refusal::NoCurve)? {
        return new_curve(r, blk);
    }
    Ok(old)
}
