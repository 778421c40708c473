// The rematrixing flags of a block (4.3.3), as many as Table 4.10 says.
ghost use Rattle.std.specs.Prelude.{◌≡◌};
ghost use Rattle.syntax.specs.Reads.{Reads};
ghost use Rattle.channels.specs.Coupling as grammar;

use slots::Coupling;
use syntax::names::*;
use syntax::{Reader, Refusal};

fn rematrix_bands(c: Coupling) -> u8
    ensures { result ≡ grammar.rematrix_bands c }
{
    if !c.cplinu {
        return 4;
    }
    match c.cplbegf {
        0 => 2,
        1 | 2 => 3,
        _ => 4,
    }
}

pub fn rematrixing(
    r: &mut Reader<'_>,
    blk: u8,
    acmod: u8,
    coupling: Coupling,
) -> Result<(), Refusal>
    ensures { Reads (grammar.rematrixing blk acmod coupling) r.old result r.new }
{
    if acmod == 2 {
        let rematstr = r.announced(blk, REMATSTR, Refusal::NoRematrixing)?;
        if rematstr {
            r.flags(blk, REMATFLG, rematrix_bands(coupling))?;
        }
    }
    Ok(())
}
