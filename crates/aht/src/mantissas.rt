// E.2.4.4.2: the mantissas of a bin, and their tags.
ghost use Rattle.std.specs.Prelude.{◌≡◌, ◌≤◌};
ghost use Rattle.aht.specs.Walk.{times};
ghost use Rattle.aht.specs.Aht as standard;
ghost use Rattle.aht.specs.Promises.{Walks};

use crate::outcome::{Refusal, Walked};
use crate::section::Section;

// The bits of a small mantissa, where under gain 1 there would be m.
fn small_bits(gain: u32, m: usize) -> usize
    requires { (3 ≤ m) × (m ≤ 16) }
    ensures { result ≡ standard.small_bits gain m }
{
    if gain == 2 { m - 1 } else { m - 2 }
}

// Those of the large one after a tag.
fn large_bits(gain: u32, m: usize) -> usize
    requires { 3 ≤ m }
    ensures { result ≡ standard.large_bits gain m }
{
    if gain == 2 { m - 1 } else { m }
}

// A mantissa: under gain 1 its m bits, under another a small one, and where that is a tag, only its first bit being 1, the large one that it stands for.
fn mantissa(section: &Section<'_>, from: Walked, gain: u32, m: usize) -> Result<Walked, Refusal>
    requires { (3 ≤ m) × (m ≤ 16) }
    ensures { Walks (standard.mantissa gain m) section.now from result }
{
    if gain == 1 {
        return section.pass(from, m);
    }
    let small = small_bits(gain, m);
    let value = section.take(from.end, small)?;
    let end = from.end + small;
    if value == 1 << (small - 1) {
        let tags = from.tags + 1;
        return section.pass(Walked { end, tags }, large_bits(gain, m));
    }
    Ok(Walked {
        end,
        tags: from.tags,
    })
}

// The mantissas of a bin, one for each block.
pub fn mantissas(
    section: &Section<'_>,
    from: Walked,
    gain: u32,
    m: usize,
) -> Result<Walked, Refusal>
    requires { (3 ≤ m) × (m ≤ 16) }
    ensures { Walks (times 6 (standard.mantissa gain m)) section.now from result }
{
    let mut walked = from;
    for _blk in 0..6u8 {
        walked = mantissa(section, walked, gain, m)?;
    }
    Ok(walked)
}
