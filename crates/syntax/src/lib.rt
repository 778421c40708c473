// Reads the elements of a syncframe one after the other, and records each as a row of numbers in the rows that the caller lends. A method of
// the reader that meets a refusal answers with it, and the reader stands where reading stopped: so the code of a syntax table is the table, one
// call and a `?` for each line. What is public here is so because those who read a frame stand in crates above. (The small methods are always
// inlined: the compiler takes a call behind several `?` for a rare one, and a header alone took twice the instructions, docs/SPEED.md.)
#![tactic(auto)]

pub mod elements;
pub mod items;
pub mod names;
pub mod readers;
pub mod refusals;
pub mod rows;
pub mod walks;

// The numbers of a row.
pub const ROW: usize = 9;

// No block, no index, no programme, no part: a row says -1.
pub const NONE: u8 = 255;

// What an element means to the metadata editor. Everything not listed is Plain.
#[derive(Clone, Copy)]
pub enum Role {
    Plain,
    Sync,
    Crc1,
    Crc2,
    CrcRsv,
    FrameSize,
    Dialnorm(u8),
    ComprExists(u8),
    Compr(u8),
    DynrngExists(u8),
    Dynrng(u8),
    Skiple,
    Skipl,
    Skipfld,
    Addbsi,
    Mantissas,
    AuxBits,
    AuxDataL,
    AuxDataE,
    BlkStrtInfoE,
    BlkStrtInfo,
}

// An element of the syntax: all that its row says but the position, the width and the value. Its part is the band, the group or the segment
// of an element that is sent for each. (A walk's width is known only at its end, so a width stands beside the item.)
#[derive(Clone, Copy)]
pub struct Item {
    pub name: u8,
    pub role: Role,
    pub block: u8,
    pub index: u8,
    pub part: u8,
}

// The two numbers of a row that say its role: the role's, and the programme that it speaks of.
#[derive(Clone, Copy)]
pub struct RoleNumbers(pub u8, pub u8);

// Why reading stopped.
#[derive(Clone, Copy, Debug, PartialEq, Eq)]
pub enum Refusal {
    // syncinfo and bsi
    TooShort,
    NotSync,
    NoFrameSize,
    CutShort,
    BadBsid,
    // An element would end past the frame: its name and its block.
    Past { name: u8, block: u8 },
    // No row is left.
    Full,
    // Block 0 lacks a flag that announces what it needs: cplstre, rematstr, baie, snroffste.
    NoCouplingStrategy,
    NoRematrixing,
    NoCurve,
    NoOffsets,
    BadCouplingRange,
    TooFewCoupled,
    BadBandwidth,
    NoBandwidth,
    // Exponents are reused that were not sent, or not for these bins.
    NoCouplingExponents,
    NoChannelExponents,
    NoLfeExponents,
    BadGroup,
    BadExponent,
    // Delta segments are reused in block 0; a reserved code.
    NoDelta,
    BadDelta,
    NoLeak,
    // A header answer that does not fit the input: no refusal of a frame's own.
    Unfit,
}

// Reads a frame: its bytes, and the rows that the caller lends. It stands at the first bit not yet read, and knows the frame's end in bits and
// how many rows are written.
#[derive(Drop)]
pub struct Reader<'a> {
    pub bytes: &'a [u8],
    pub rows: &'a mut [i32],
    pub count: usize,
    pub at: u16,
    pub limit: u16,
}
