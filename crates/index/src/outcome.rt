// What an entry tells, and why an index is not made.
ghost use Rattle.std.specs.Prelude.{◌≡◌};

// A frame of the capture. The second dialnorm is that of the second programme, which is there where acmod is 0; else it is 0.
#[derive(Clone, Copy, Debug, PartialEq, Eq)]
pub struct Entry {
    pub place: usize,
    pub size: usize,
    pub acmod: usize,
    pub dialnorm: usize,
    pub second: usize,
}

// Why the index is left as it was.
#[derive(Clone, Copy, Debug, PartialEq, Eq)]
pub enum Refusal {
    // a frame has more rows than there are fields for
    NoFields,
    // there are more frames than entries
    NoRoom,
    // the last entry is not the frame that is there
    NotThere,
}

impl Refusal {
    ghost use Rattle.index.specs.Refusals.{number};

    // The number that is told of it (the table of docs/FORMAT.md).
    pub fn number(self) -> u8
        ensures { result ≡ number self }
    {
        match self {
            Refusal::NoFields => 37,
            Refusal::NoRoom => 55,
            Refusal::NotThere => 56,
        }
    }
}
