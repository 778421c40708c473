// How writing and reading end: what was written, or why nothing was.
ghost use Rattle.std.specs.Prelude.{◌≡◌};

// The rows that the parse left, and the bytes in front of the output.
#[derive(Clone, Copy, Debug, PartialEq, Eq)]
pub struct Written {
    pub rows: usize,
    pub bytes: u16,
}

// Why nothing is written, with the rows that the parse left.
#[derive(Clone, Copy, Debug, PartialEq, Eq)]
pub struct Refused {
    pub refusal: Refusal,
    pub rows: usize,
}

#[derive(Clone, Copy, Debug, PartialEq, Eq)]
pub enum Refusal {
    // the frame's own, by its number
    Frame(u8),
    // the output is too short
    NoRoom,
    // not 6,144 bytes
    NotABurst,
    // the first three, outside bits 8 to 10 of the third
    WrongWords,
    // the fourth word is not the frame's length in bits
    WrongLength,
    // a byte after the frame
    NotZero,
    // bits 8 to 10 of the third word are not the frame's bsmod
    OtherMode,
}

impl Refusal {
    ghost use Rattle.burst.specs.Refusals.{number};

    // The number that is told of it (the table of docs/FORMAT.md).
    pub fn number(self) -> u8
        ensures { result ≡ number self }
    {
        match self {
            Refusal::Frame(number) => number,
            Refusal::NoRoom => 28,
            Refusal::NotABurst => 30,
            Refusal::WrongWords => 31,
            Refusal::WrongLength => 32,
            Refusal::NotZero => 33,
            Refusal::OtherMode => 34,
        }
    }

    pub(crate) fn after(self, rows: usize) -> Refused
        ensures { result ≡ record { refusal = self; rows = rows } }
    {
        Refused {
            refusal: self,
            rows,
        }
    }
}
