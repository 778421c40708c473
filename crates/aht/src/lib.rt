// The adaptive hybrid transform's part of a channel (E.2.4): where it ends, and its tags. A walk over bits, by the values that it reads.
#![tactic(auto)]

mod gains;
mod mantissas;
mod outcome;
mod section;

ghost use Rattle.std.specs.Prelude.{◌≡◌, List, ℕ};
ghost use Rattle.aht.specs.Aht as standard;
ghost use Rattle.aht.specs.Aht.{outcome_of, aht_of};
ghost use Rattle.aht.specs.Promises.{Walks, Placed, Holds};

use gains::Gains;
pub use outcome::{Refusal, Walked};
use section::Section;

// One bin under its gain: nothing, a vector index for all six blocks, or a mantissa for each.
#[tactic(auto, unfolding(crate::specs::Aht::bin, crate::specs::Walk::run))]
fn bin(section: &Section<'_>, from: Walked, gain: u32, hebap: u8) -> Result<Walked, Refusal>
    ensures { Walks (standard.bin gain hebap) section.now from result }
{
    match hebap {
        0 => Ok(from),
        1..=7 => section.pass(from, tables::vq_bits(hebap)),
        8..=19 => mantissas::mantissas(section, from, gain, tables::gaq_bits(hebap - 8)),
        _ => Err(Refusal::HebapAbove19),
    }
}

// Bins under their gains, from where a walk stands.
fn bins(section: &Section<'_>, from: Walked, hebap: &[u8], gains: Gains) -> Result<Walked, Refusal>
    requires { Placed gains.at gains.gaqmod (standard.active_bins gains.gaqmod hebap.now) }
    ensures { (words : List ℕ) → Holds section.now.bytes.now gains.at gains.gaqmod (standard.active_bins gains.gaqmod hebap.now) words
        → Walks (λ tags. standard.bins gains.gaqmod words 0 tags hebap.now) section.now from result }
{
    let mut walked = from;
    let mut next = 0;
    for &h in hebap {
        walked = bin(section, walked, gains.gain_of(section.bytes, next, h), h)?;
        next += usize::from(gains.is_active(h));
    }
    Ok(walked)
}

// The whole: from bit `at` on, gain words and then the bins from first up to past. Nothing may end past bit `end`.
pub fn aht(
    s: &[u8],
    at: usize,
    end: usize,
    hebap: &[u8],
    first: usize,
    past: usize,
) -> Result<Walked, Refusal>
    ensures { outcome_of result ≡ aht_of s.now at end hebap.now first past }
{
    // A range that begins past its end has no bins.
    let hebap = hebap
        .get(first.min(past)..past)
        .ok_or(Refusal::BinsPastTheArray)?;
    let section = Section::new(s, end);
    let gaqmod = section.take(at, 2)? as u8;
    let gains = Gains { at: at + 2, gaqmod };
    let words_end = gains.end(&section, gains.active_bins(hebap))?;
    let from = Walked {
        end: words_end,
        tags: 0,
    };
    bins(&section, from, hebap, gains)
}
