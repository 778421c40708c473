// How a walk ends: where it stands, or why it is refused.
ghost use Rattle.std.specs.Prelude.{◌≡◌, ◌≤◌};

// Where a walk stands: at a bit, after so many tags. Each tag took a bit, so that counting them doesn't wrap.
#[derive(Clone, Copy, Debug, PartialEq, Eq)]
pub struct Walked {
    pub end: usize,
    pub tags: usize,
    pub ghost few: { tags ≤ end },
}

// Why a walk is refused, with the numbers of the table in docs/FORMAT.md.
#[derive(Clone, Copy, Debug, PartialEq, Eq)]
pub enum Refusal {
    PastTheEnd = 6,
    GainAbove26 = 25,
    HebapAbove19 = 26,
    BinsPastTheArray = 27,
}

impl Refusal {
    ghost use Rattle.aht.specs.Walk.{number};

    // The number that is told of it.
    pub fn number(self) -> u8
        ensures { result ≡ number self }
    {
        self as u8
    }
}
