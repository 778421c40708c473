// The slots of a block in use, in the order of their mantissas (4.3.3).
ghost use Rattle.std.specs.Prelude.{◌≡◌, cond, [], ◌∷◌, ◌++◌, ℕ, suc, ◌+◌, ◌<◌, ◌≤◌, get_or};
ghost use Rattle.slots.specs.Sound.{SoundCoupling, SoundEnds};
ghost use Rattle.mantissas.specs.Parts as slots;
ghost use Rattle.mantissas.specs.Parts.{part};
ghost use Rattle.mantissas.specs.Sound.{SoundPart, SoundParts, no_part, listed};

use crate::{Part, Parts};
use slots::{CPL, Coupling, LFE, first_coupled, past_coupled};

impl Parts {
    fn none() -> Parts
        ensures result_value { (listed result ≡ []) × (result.count ≡ 0) }
        ensures sound_parts { SoundParts result }
    {
        Parts {
            count: 0,
            list: [Part {
                slot: 0,
                start: 0,
                end: 0,
            }; 7],
        }
    }

    // One slot more.
    fn push(&mut self, slot: u8, start: usize, end: usize)
        requires { (self.old.count < 7) × SoundParts self.old × SoundPart (part slot start end) }
        ensures result_value { (listed self.new ≡ listed self.old ++ (part slot start end ∷ [])) × (self.new.count ≡ self.old.count + 1) }
        ensures sound_parts { SoundParts self.new }
    {
        self.list[self.count] = Part {
            slot,
            start: start as u8,
            end: end as u8,
        };
        self.count += 1;
    }

    // The slots that were put there. (Public, as the list and the count are.)
    pub fn slots(&self) -> &[Part]
        requires { SoundParts self.now }
        ensures value { result.now ≡ listed self.now }
        ensures each_sound { (i : ℕ) → SoundPart (get_or result.now i no_part) }
    {
        &self.list[..self.count]
    }
}

// What the channels so far put into the list, and whether coupling still waits for its first channel.
#[derive(Drop)]
struct Order {
    parts: Parts,
    waiting: bool,
}

impl Order {
    // A channel, and directly after the first coupled one coupling.
    fn add_channel(&mut self, coupling: &Coupling, ends: &[usize; 5], ch: u8)
        requires ch_bound { (ch < 5) × (self.old.parts.count < 6) × SoundParts self.old.parts }
        requires sound_coupling { SoundCoupling coupling.now × SoundEnds ends.now }
        ensures by_index { (n : ℕ) → listed self.new.parts ++ slots.channel_parts coupling.now ends.now (ch + 1) n self.new.waiting ≡ listed self.old.parts ++ slots.channel_parts coupling.now ends.now ch (suc n) self.old.waiting }
        ensures sound_parts { SoundParts self.new.parts }
        ensures waiting_bound { self.new.parts.count + cond self.new.waiting 1 0 ≤ self.old.parts.count + cond self.old.waiting 1 0 + 1 }
    {
        let at = ch as usize;
        self.parts.push(ch, 0, ends[at]);
        if self.waiting & coupling.chincpl[at] {
            let start = first_coupled(coupling.cplbegf);
            let end = past_coupled(coupling.cplendf);
            self.parts.push(CPL, start, end);
            self.waiting = false;
        }
    }
}

// The slots in use, in the order of their mantissas.
pub fn parts_in_use(nfchans: u8, lfeon: bool, coupling: &Coupling, ends: &[usize; 5]) -> Parts
    requires nfchans_bound { nfchans ≤ 5 }
    requires sound_coupling { SoundCoupling coupling.now × SoundEnds ends.now }
    ensures result_value { listed result ≡ slots.parts nfchans lfeon coupling.now ends.now }
    ensures sound_parts { SoundParts result }
{
    let mut order = Order {
        parts: Parts::none(),
        waiting: coupling.cplinu,
    };
    for ch in 0..nfchans {
        order.add_channel(coupling, ends, ch);
    }
    let mut parts = order.parts;
    if lfeon {
        parts.push(LFE, 0, 7);
    }
    parts
}
