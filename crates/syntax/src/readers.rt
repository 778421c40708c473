// The reader's methods: where it starts, what it refuses, and one for each kind of element.
ghost use Rattle.std.specs.Prelude.{◌≡◌, cond, ◌<◌, ◌≤◌, ◌^◌, IfOk, Ok, Err};
ghost use Rattle.syntax.specs.Grammar as grammar;
ghost use Rattle.syntax.specs.Place.{fresh};
ghost use Rattle.syntax.specs.Reads.{Reads, place};

use crate::{Item, Reader, Refusal};

// Refuses where what was read is bad.
pub fn refuse_if(bad: bool, refusal: Refusal) -> Result<(), Refusal>
    ensures { result ≡ cond bad (Err refusal) (Ok tt) }
{
    if bad { Err(refusal) } else { Ok(()) }
}

impl<'a> Reader<'a> {
    // At the start of a frame: nothing may be read until its size is known.
    pub fn new(bytes: &'a [u8], rows: &'a mut [i32]) -> Reader<'a>
        ensures start { place result ≡ fresh rows.old }
        ensures bytes { result.bytes.now ≡ bytes.now }
        ensures lent { result.rows.ghost_name ≡ rows.entry.ghost_name }
    {
        Reader {
            bytes,
            rows,
            count: 0,
            at: 0,
            limit: 0,
        }
    }
}

impl Reader<'_> {
    // Sets the limit to a frame of some bytes: refused where the input is shorter.
    pub fn frame(&mut self, refusal: Refusal, bytes: u16) -> Result<(), Refusal>
        requires { bytes ≤ 3840 }
        ensures { Reads (grammar.framed refusal bytes) self.old result self.new }
    {
        if self.bytes.len() < bytes as usize {
            return Err(refusal);
        }
        self.limit = bytes * 8;
        Ok(())
    }

    // Reads a value of at most 16 bits.
    #[inline(always)]
    pub fn take(&mut self, item: Item, width: u16) -> Result<u32, Refusal>
        requires { width ≤ 16 }
        ensures reads { Reads (grammar.take item width) self.old result self.new }
        ensures value_bound { IfOk result (λ value. value < 2 ^ width) }
    {
        let value = bits::get(self.bytes, self.at as usize, width as usize);
        self.put(item, width, value)?;
        Ok(value)
    }

    // Reads a flag: one bit.
    #[inline(always)]
    pub fn flag(&mut self, item: Item) -> Result<bool, Refusal>
        ensures { Reads (grammar.flag item) self.old result self.new }
    {
        let value = bits::get(self.bytes, self.at as usize, 1);
        self.put(item, 1, value)?;
        Ok(value == 1)
    }

    // Records a value that steers nothing, and drops it.
    #[inline(always)]
    pub fn note(&mut self, item: Item, width: u16) -> Result<(), Refusal>
        requires { width ≤ 16 }
        ensures { Reads (grammar.note item width) self.old result self.new }
    {
        let value = bits::get(self.bytes, self.at as usize, width as usize);
        self.put(item, width, value)
    }

    // Passes over a span.
    pub fn pass(&mut self, item: Item, width: u16) -> Result<(), Refusal>
        ensures { Reads (grammar.pass item width) self.old result self.new }
    {
        self.put(item, width, 0)
    }
}
