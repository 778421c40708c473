// A walk: a span whose pieces are gone over one by one, before its row is written.
ghost use Rattle.syntax.specs.Reads.{Writes, stepped};

use crate::refusals::past;
use crate::{Item, Reader, Refusal};

impl Reader<'_> {
    // Goes on by one piece of a walk: refused, at the piece's start, where it would end past the frame.
    pub fn step(&mut self, item: Item, width: u16) -> Result<(), Refusal>
        ensures { Writes (stepped item width) self.old result self.new }
    {
        if self.ends_past(width) {
            return Err(past(item));
        }
        self.at += width;
        Ok(())
    }
}
