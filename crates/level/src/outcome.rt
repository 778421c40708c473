// How a correction ends: what was changed, or why nothing was.
ghost use Rattle.std.specs.Prelude.{◌≡◌};

// The rows that the parse left, and how many changes were listed.
#[derive(Clone, Copy, Debug, PartialEq, Eq)]
pub struct Correction {
    pub rows: usize,
    pub changes: usize,
}

// Why nothing is changed, with the rows that the parse left.
#[derive(Clone, Copy, Debug, PartialEq, Eq)]
pub struct Refused {
    pub refusal: Refusal,
    pub rows: usize,
}

#[derive(Clone, Copy, Debug, PartialEq, Eq)]
pub enum Refusal {
    // the frame's own, by its number
    Frame(u8),
    // the frame has no such programme
    NoProgramme,
    // no dialogue level is this number
    NoLevel,
    // the audio ends so late that the frame's last words are not free
    EndsLate,
}

impl Refusal {
    ghost use Rattle.level.specs.Refusals.{number};

    // The number that is told of it (the table of docs/FORMAT.md).
    pub fn number(self) -> u8
        ensures { result ≡ number self }
    {
        match self {
            Refusal::Frame(number) => number,
            Refusal::NoProgramme => 50,
            Refusal::NoLevel => 51,
            Refusal::EndsLate => 52,
        }
    }
}
