// What the sections of an audio block share (4.3.3): the slots of its channels and the bins of each, and what a block leaves to the next one.
// Slots: full bandwidth channels 0 to 4, coupling 5, LFE 6. What is public here is so because the sections stand in crates above.
#![tactic(auto)]

ghost use Rattle.std.specs.Prelude.{◌≡◌, ◌<◌};
ghost use Rattle.slots.specs.Slots as slots;

pub const CPL: u8 = 5;

pub const LFE: u8 = 6;

// The first bin of a coupling sub-band.
fn sub_band(n: usize) -> usize
    requires { n < 19 }
    ensures { result ≡ slots.sub_band n }
{
    37 + 12 * n
}

// The first bin of the coupling range.
pub fn first_coupled(cplbegf: usize) -> usize
    requires { cplbegf < 16 }
    ensures { result ≡ slots.first_coupled cplbegf }
{
    sub_band(cplbegf)
}

// The first bin past the coupling range.
pub fn past_coupled(cplendf: usize) -> usize
    requires { cplendf < 16 }
    ensures { result ≡ slots.past_coupled cplendf }
{
    sub_band(cplendf + 3)
}

// The first bin past a channel that is not coupled.
pub fn past_channel(chbwcod: usize) -> usize
    requires { chbwcod < 61 }
    ensures { result ≡ slots.past_channel chbwcod }
{
    37 + 3 * (chbwcod + 12)
}

// The coupling strategy in force.
#[derive(Clone, Copy)]
pub struct Coupling {
    pub cplinu: bool,
    pub chincpl: [bool; 5],
    pub phsflginu: bool,
    pub cplbegf: usize,
    pub cplendf: usize,
    pub ncplbnd: usize,
}

// The exponent strategies of a block.
#[derive(Clone, Copy)]
pub struct Strategies {
    pub cplexpstr: u8,
    pub chexpstr: [u8; 5],
    pub lfeexpstr: u8,
}

// The bins that the exponents in force cover, for each slot.
#[derive(Clone, Copy)]
pub struct Cover {
    pub sent: [bool; 7],
    pub start: [u8; 7],
    pub end: [u8; 7],
}

// Bit allocation information (baie).
#[derive(Clone, Copy)]
pub struct Curve {
    pub sdcycod: u8,
    pub fdcycod: u8,
    pub sgaincod: u8,
    pub dbpbcod: u8,
    pub floorcod: u8,
}

// SNR offsets and fast gains (snroffste), the fine ones for each slot.
#[derive(Clone, Copy)]
pub struct Offsets {
    pub csnroffst: u8,
    pub fsnroffst: [u8; 7],
    pub fgaincod: [u8; 7],
}

// Coupling leak initialisation (cplleake).
#[derive(Clone, Copy)]
pub struct CouplingLeak {
    pub sent: bool,
    pub cplfleak: u8,
    pub cplsleak: u8,
}

// Delta segments of a slot: offset, length and code of each.
#[derive(Clone, Copy)]
pub struct Deltas {
    pub count: u8,
    pub segments: [u8; 24],
}

pub const NO_DELTAS: Deltas = Deltas {
    count: 0,
    segments: [0; 24],
};

// What the bit allocation of a block goes by, besides the exponents.
#[derive(Clone, Copy)]
pub struct AllocState {
    pub curve: Curve,
    pub offsets: Offsets,
    pub leak: CouplingLeak,
    pub deltas: [Deltas; 7],
}
