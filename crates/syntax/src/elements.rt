// Elements that stand under a test, or one after the other for each channel or band.
ghost use Rattle.std.specs.Prelude.{◌≡◌, false, ◌&&◌, not, ◌<◌, ◌≤◌, ◌^◌, ◌+◌, IfOk};
ghost use Rattle.syntax.specs.Grammar as grammar;
ghost use Rattle.syntax.specs.Reads.{Reads};

use crate::items::{nth, one};
use crate::readers::refuse_if;
use crate::{Item, Reader, Refusal};

impl Reader<'_> {
    // A flag that is there only where a test holds: else it counts as not set.
    #[inline(always)]
    pub fn flag_if(&mut self, present: bool, item: Item) -> Result<bool, Refusal>
        ensures { Reads (grammar.read_if present false (grammar.flag item)) self.old result self.new }
    {
        if present { self.flag(item) } else { Ok(false) }
    }

    // A value that is there only where a test holds: else it counts as 0.
    #[inline(always)]
    pub fn take_if(&mut self, present: bool, item: Item, width: u16) -> Result<u32, Refusal>
        requires { width ≤ 16 }
        ensures reads { Reads (grammar.read_if present 0 (grammar.take item width)) self.old result self.new }
        ensures value_bound { IfOk result (λ value. value < 2 ^ width) }
    {
        if present {
            self.take(item, width)
        } else {
            Ok(0)
        }
    }

    // A value that is there only where a test holds, and that steers nothing.
    #[inline(always)]
    pub fn note_if(&mut self, present: bool, item: Item, width: u16) -> Result<(), Refusal>
        requires { width ≤ 16 }
        ensures { Reads (grammar.when present (grammar.note item width)) self.old result self.new }
    {
        if present {
            self.note(item, width)
        } else {
            Ok(())
        }
    }

    // Flags that steer nothing: one for each channel or band.
    pub fn flags(&mut self, blk: u8, name: u8, count: u8) -> Result<(), Refusal>
        ensures { Reads (grammar.each count (λ i. grammar.note (grammar.nth blk name i) 1)) self.old result self.new }
    {
        for i in 0..count {
            self.note(nth(blk, name, i), 1)?;
        }
        Ok(())
    }

    // A flag that announces what a block needs: block 0 must have it set.
    pub fn announced(&mut self, blk: u8, name: u8, refusal: Refusal) -> Result<bool, Refusal>
        ensures { Reads (grammar.announced blk name refusal) self.old result self.new }
    {
        let sent = self.flag(one(blk, name))?;
        refuse_if((blk == 0) & !sent, refusal)?;
        Ok(sent)
    }
}
