// The exponents of a block (4.3.3, 6.1.3): for each slot a first exponent, and then differences, three to a group, each of
// them for 1, 2 or 4 bins. `exponents` is public because the audio block stands in a crate above.
#![tactic(auto)]

mod at_hand;
mod by_slot;
mod groups;
mod sets;
mod unpack;

ghost use Rattle.std.specs.Prelude.{◌≤◌};
ghost use Rattle.syntax.specs.Reads.{Reads, with_lent};
ghost use Rattle.slots.specs.Sound.{SoundExps, SoundCoupling, SoundStrategies, SoundEnds};
ghost use Rattle.exponents.specs.Exponents as grammar;
ghost use Rattle.slots.specs.Reused.{Keeps, ReusedBy};

use crate::by_slot::{channel_exponents, slot_exponents_if};
use crate::sets::Set;
use slots::{CPL, Coupling, Cover, LFE, Strategies, first_coupled, past_coupled};
use syntax::{Reader, Refusal};

// What says which sets a block has: its number, the channels and LFE of the frame, coupling and the strategies, and the channels' ends.
#[derive(Clone, Copy)]
pub struct Layout {
    pub blk: u8,
    pub nfchans: u8,
    pub lfeon: bool,
    pub coupling: Coupling,
    pub strategies: Strategies,
    pub ends: [usize; 5],
}

// The exponents of a block: coupling, the channels, LFE. Those in force are lent; the bins that they cover go in by value and come back. A slot
// whose strategy is 0 keeps its exponents, also where reading stops: what was made of them stays true.
pub fn exponents(
    r: &mut Reader<'_>,
    exps: &mut [[i16; 256]; 7],
    layout: Layout,
    cover: Cover,
) -> Result<Cover, Refusal>
    requires nfchans_bound { layout.nfchans ≤ 5 }
    requires sound_coupling { SoundCoupling layout.coupling × (SoundStrategies layout.strategies × SoundEnds layout.ends) }
    requires sound_exps { SoundExps exps.old }
    ensures reads { Reads (grammar.exponents layout.blk layout.nfchans layout.lfeon layout.coupling layout.strategies layout.ends (record { cover = cover; exps = exps.old })) r.old
        (with_lent (λ covered. record { cover = covered; exps = exps.new }) result) r.new }
    ensures sound_exps_2 { SoundExps exps.new }
    ensures keeps { Keeps (ReusedBy layout.strategies) exps.old exps.new }
{
    let coupled = Set {
        blk: layout.blk,
        slot: CPL,
        strategy: layout.strategies.cplexpstr,
        start: first_coupled(layout.coupling.cplbegf),
        end: past_coupled(layout.coupling.cplendf),
    };
    let mut covered = slot_exponents_if(
        r,
        exps,
        layout.coupling.cplinu,
        coupled,
        Refusal::NoCouplingExponents,
        cover,
    )?;
    for ch in 0..layout.nfchans {
        covered = channel_exponents(r, exps, layout, ch, covered)?;
    }
    let lfe = Set {
        blk: layout.blk,
        slot: LFE,
        strategy: layout.strategies.lfeexpstr,
        start: 0,
        end: 7,
    };
    slot_exponents_if(r, exps, layout.lfeon, lfe, Refusal::NoLfeExponents, covered)
}
