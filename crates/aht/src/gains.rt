// E.2.4.2: which bins have a gain, and the gain words.
ghost use Rattle.std.specs.Prelude.{◌≡◌, true, cond, ◌≤◌, ◌<◌, ◌^◌};
ghost use Rattle.aht.specs.Walk.{run};
ghost use Rattle.aht.specs.Aht as standard;
ghost use Rattle.aht.specs.Promises.{ended, digit, gain_place, gain_at};
ghost use Rattle.aht.specs.declared.outcome.Refusal.TheVariants.{GainAbove26};

use crate::outcome::Refusal;
use crate::section::Section;

// The gain words of a channel: the bit that they begin at, and their mode, which stays the number that is sent: the definition goes by it too.
#[derive(Clone, Copy)]
pub struct Gains {
    pub at: usize,
    pub gaqmod: u8,
}

impl Gains {
    // Whether a bin has a gain: hebap 8 to 11 under modes 0 and 1, to 16 under 2 and 3. (Mode 0 sends none.)
    pub fn is_active(self, hebap: u8) -> bool
        ensures { result ≡ standard.is_active self.gaqmod hebap }
    {
        let endbap = if self.gaqmod < 2 { 12 } else { 17 };
        (8..endbap).contains(&hebap)
    }

    // How many bins have a gain.
    pub fn active_bins(self, hebap: &[u8]) -> usize
        ensures { result ≡ standard.active_bins self.gaqmod hebap.now }
    {
        hebap.iter().filter(|&&h| self.is_active(h)).count()
    }

    // The gain of active bin k, read from its place: there may be any number of gains, so that none are kept.
    #[tactic(auto, unfolding(crate::specs::Promises::gain_at))]
    fn gain_at(self, s: &[u8], k: usize) -> u32
        requires { gain_place self.at self.gaqmod k < 2 ^ 64 }
        ensures { result ≡ gain_at s.now self.at self.gaqmod k }
    {
        match self.gaqmod {
            0 => 1,
            1 => single(2, bits::get(s, self.at + k, 1)),
            2 => single(4, bits::get(s, self.at + k, 1)),
            _ => 1 << digit(bits::get(s, self.at + 5 * (k / 3), 5), k % 3),
        }
    }

    // The gain of a bin, of which k active ones stand before it.
    pub fn gain_of(self, s: &[u8], k: usize, hebap: u8) -> u32
        requires { standard.is_active self.gaqmod hebap ≡ true → gain_place self.at self.gaqmod k < 2 ^ 64 }
        ensures { result ≡ cond (standard.is_active self.gaqmod hebap) (gain_at s.now self.at self.gaqmod k) 1 }
    {
        if self.is_active(hebap) {
            self.gain_at(s, k)
        } else {
            1
        }
    }

    // Where the gain words end, of which as many bins as are active have one. Those of one bit are not looked at: each is good.
    pub fn end(self, section: &Section<'_>, active: usize) -> Result<usize, Refusal>
        requires { self.at ≤ section.now.limit }
        ensures { result ≡ ended (run (standard.gains self.gaqmod active) section.now.bytes.now section.now.limit self.at) }
    {
        match self.gaqmod {
            0 => Ok(self.at),
            1 | 2 => section.skip(self.at, active),
            _ => composites_end(section, self.at, active.div_ceil(3)),
        }
    }
}

// A gain of 1, or where its bit is 1 the mode's.
fn single(gain: u32, word: u32) -> u32
    ensures { result ≡ standard.single gain word }
{
    if word == 1 { gain } else { 1 }
}

// One of the three gains in a word, as a power of 2.
fn digit(word: u32, which: usize) -> u32
    requires { word < 32 }
    ensures { (result ≡ digit word which) × (result < 4) }
{
    match which {
        0 => word / 9,
        1 => word % 9 / 3,
        _ => word % 3,
    }
}

// Where words of three gains each end.
fn composites_end(section: &Section<'_>, at: usize, count: usize) -> Result<usize, Refusal>
    ensures { result ≡ ended (run (standard.composites count) section.now.bytes.now section.now.limit at) }
{
    let mut place = at;
    for _i in 0..count {
        let word = section.take(place, 5)?;
        if 26 < word {
            return Err(Refusal::GainAbove26);
        }
        place += 5;
    }
    Ok(place)
}
