// How a salvage ends: what was listed and written, and why it went no further.
ghost use Rattle.std.specs.Prelude.{◌≡◌};

// How many entries are listed, and how many bytes are written.
#[derive(Clone, Copy, Debug, PartialEq, Eq)]
pub struct Done {
    pub entries: usize,
    pub bytes: usize,
}

// Why the rest of the capture was not gone through, with what was done before.
#[derive(Clone, Copy, Debug, PartialEq, Eq)]
pub struct Refused {
    pub refusal: Refusal,
    pub done: Done,
}

// Too little room for output, list entries or fields.
#[derive(Clone, Copy, Debug, PartialEq, Eq)]
pub enum Refusal {
    NoOutput,
    NoEntry,
    NoFields,
}

impl Refusal {
    ghost use Rattle.salvage.specs.Refusals.{number};

    // The number that is told of it (the table of docs/FORMAT.md).
    pub fn number(self) -> u8
        ensures { result ≡ number self }
    {
        match self {
            Refusal::NoOutput => 35,
            Refusal::NoEntry => 36,
            Refusal::NoFields => 37,
        }
    }
}

// What an entry of the list is.
#[derive(Clone, Copy, Debug, PartialEq, Eq)]
pub enum Kind {
    Frame,
    Gap,
}

impl Kind {
    ghost use Rattle.salvage.specs.Refusals.{kind_number};

    // Its number in the list.
    pub fn number(self) -> usize
        ensures { result ≡ kind_number self }
    {
        match self {
            Kind::Frame => 0,
            Kind::Gap => 1,
        }
    }
}
