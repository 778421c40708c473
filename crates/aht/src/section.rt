// Reading the bits of a section: no bit past its limit.
ghost use Rattle.std.specs.Prelude.{◌≡◌, ◌+◌, ◌≤◌};
ghost use Rattle.bits.specs.Bits.{value};
ghost use Rattle.aht.specs.Walk.{pass};
ghost use Rattle.aht.specs.Aht.{limit_of};
ghost use Rattle.aht.specs.Promises.{IfFits, Walks};

use crate::outcome::{Refusal, Walked};

// Bytes, and the first of their bits that may not be read.
#[derive(Clone, Copy)]
pub struct Section<'s> {
    pub bytes: &'s [u8],
    pub limit: usize,
}

impl<'s> Section<'s> {
    // The section up to a given end or up to that of the bytes, of which there may be too many to count their bits.
    pub fn new(bytes: &'s [u8], end: usize) -> Self
        ensures bytes { result.bytes.now ≡ bytes.now }
        ensures limit { result.limit ≡ limit_of bytes.now end }
    {
        Section {
            bytes,
            limit: end.min(bytes.len().saturating_mul(8)),
        }
    }

    // The end of some bits that are not looked at.
    pub fn skip(&self, at: usize, width: usize) -> Result<usize, Refusal>
        ensures { IfFits self.now at width (at + width) result }
    {
        if at <= self.limit && width <= self.limit - at {
            Ok(at + width)
        } else {
            Err(Refusal::PastTheEnd)
        }
    }

    // The value of some bits, 16 at most.
    pub fn take(&self, at: usize, width: usize) -> Result<u32, Refusal>
        requires { width ≤ 16 }
        ensures { IfFits self.now at width (value self.now.bytes.now at width) result }
    {
        self.skip(at, width)?;
        Ok(bits::get(self.bytes, at, width))
    }

    // Goes on past some bits that are not looked at.
    pub fn pass(&self, from: Walked, width: usize) -> Result<Walked, Refusal>
        ensures { Walks (pass width) self.now from result }
    {
        let end = self.skip(from.end, width)?;
        Ok(Walked {
            end,
            tags: from.tags,
        })
    }
}
