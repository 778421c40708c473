// The six blocks of a frame.
ghost use Rattle.std.specs.Prelude.{◌≡◌, ◌+◌, ◌<◌, ◌≤◌};
ghost use Rattle.syntax.specs.Reads.{Reads, with_lent};
ghost use Rattle.header.specs.Sound.{SoundHeader};
ghost use Rattle.ac3.specs.Frame as grammar;
ghost use Rattle.ac3.specs.Sound.{SoundState};

use crate::block::audio_block;
use crate::{SLOT_COUNTS, State, Tally};
use channels::Bandwidths;
use header::Header;
use slots::{AllocState, Coupling, CouplingLeak, Cover, Curve, NO_DELTAS, Offsets};
use syntax::{Reader, Refusal};

// Nothing was sent yet.
fn unsent() -> State
    ensures { result ≡ grammar.unsent }
{
    State {
        coupling: Coupling {
            cplinu: false,
            chincpl: [false; 5],
            phsflginu: false,
            cplbegf: 0,
            cplendf: 0,
            ncplbnd: 0,
        },
        bandwidths: Bandwidths {
            sent: [false; 5],
            chbwcod: [0; 5],
        },
        cover: Cover {
            sent: [false; 7],
            start: [0; 7],
            end: [0; 7],
        },
        alloc: AllocState {
            curve: Curve {
                sdcycod: 0,
                fdcycod: 0,
                sgaincod: 0,
                dbpbcod: 0,
                floorcod: 0,
            },
            offsets: Offsets {
                csnroffst: 0,
                fsnroffst: [0; 7],
                fgaincod: [0; 7],
            },
            leak: CouplingLeak {
                sent: false,
                cplfleak: 0,
                cplsleak: 0,
            },
            deltas: [NO_DELTAS; 7],
        },
    }
}

// "Coordinates sent" is yes until a block says otherwise.
fn uncounted() -> Tally
    ensures { result ≡ grammar.uncounted }
{
    Tally {
        coupled: 0,
        coordinates: true,
        starts: [0; 6],
        mantissas: [0; 6],
        bits: [0; SLOT_COUNTS],
    }
}

// The tally of the six blocks. Where reading stopped the blocks that are left are not looked at.
pub fn audio(r: &mut Reader<'_>, header: Header) -> Result<Tally, Refusal>
    requires { SoundHeader header }
    ensures { Reads (grammar.audio header) r.old (with_lent (λ tally. record { header = header; tally = tally; end = r.new.at }) result) r.new }
{
    let mut exps = [[0i16; 256]; 7];
    let mut memos = [[0u32; 16]; 7];
    let mut state = unsent();
    let mut tally = uncounted();
    let mut had = [false; 5];
    for blk in 0..6 {
        let left = audio_block(r, &mut exps, &mut memos, header, blk, state, tally, had)?;
        state = left.state;
        tally = left.tally;
        had = left.had;
    }
    Ok(tally)
}
