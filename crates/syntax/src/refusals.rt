// The refusals of a frame, by name (the table of docs/FORMAT.md), and what is told of one.
ghost use Rattle.std.specs.Prelude.{◌≡◌, ◌<◌};
ghost use Rattle.syntax.specs.Refusals as told;

use crate::{Item, NONE, Refusal};

// This element would end past the frame.
pub fn past(item: Item) -> Refusal
    ensures { result ≡ told.past item }
{
    Refusal::Past {
        name: item.name,
        block: item.block,
    }
}

impl Refusal {
    // Its number in the table.
    pub fn number(self) -> u8
        ensures { result ≡ told.number self }
    {
        match self {
            Refusal::TooShort => 1,
            Refusal::NotSync => 2,
            Refusal::NoFrameSize => 3,
            Refusal::CutShort => 4,
            Refusal::BadBsid => 5,
            Refusal::Past { .. } => 6,
            Refusal::Full => 7,
            Refusal::NoCouplingStrategy => 8,
            Refusal::BadCouplingRange => 9,
            Refusal::TooFewCoupled => 10,
            Refusal::BadBandwidth => 11,
            Refusal::NoBandwidth => 12,
            Refusal::NoCouplingExponents => 13,
            Refusal::NoChannelExponents => 14,
            Refusal::NoLfeExponents => 15,
            Refusal::BadGroup => 16,
            Refusal::BadExponent => 17,
            Refusal::NoDelta => 18,
            Refusal::BadDelta => 19,
            Refusal::NoLeak => 20,
            Refusal::NoRematrixing => 21,
            Refusal::NoCurve => 22,
            Refusal::NoOffsets => 23,
            Refusal::Unfit => 24,
        }
    }

    // The name and the block of the element that did not fit; every other refusal tells none.
    pub fn name(self) -> u8
        ensures { result ≡ told.name self }
    {
        match self {
            Refusal::Past { name, .. } => name,
            _ => 0,
        }
    }

    pub fn block(self) -> u8
        ensures { result ≡ told.block self }
    {
        match self {
            Refusal::Past { block, .. } => block,
            _ => NONE,
        }
    }
}
