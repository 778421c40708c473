// The AC-3 syncframe as far as the end of its audio: syncinfo, bsi and six audio blocks.
#![tactic(auto)]

pub mod apart;
mod audio;
mod block;

ghost use Rattle.std.specs.Prelude.{◌≡◌};
ghost use Rattle.syntax.specs.Place.{exec, fresh};
ghost use Rattle.syntax.specs.Reads.{Reads, with_lent};
ghost use Rattle.syntax.specs.Refusals as told;
ghost use Rattle.ac3.specs.Frame as grammar;
ghost use Rattle.ac3.specs.Promise.{call, Promised};
ghost use Rattle.ac3.specs.Within.{Within};

use channels::Bandwidths;
use header::{Header, NO_HEADER};
use slots::{AllocState, Coupling, Cover};
use syntax::{NONE, Reader, Refusal};

// No frame has more rows: so many occur with five channels and LFE, two of the channels coupled from the lowest sub-band on, all sent anew
// in every block, and eight delta segments for each (`most_rows`, specs/RowBound). With room for these no frame is refused for want of room.
pub const MOST_ROWS: usize = 4067;

// All that a block leaves to the next one, besides the exponents.
#[derive(Clone, Copy)]
pub struct State {
    pub coupling: Coupling,
    pub bandwidths: Bandwidths,
    pub cover: Cover,
    pub alloc: AllocState,
}

// The counts of mantissa bits: seven slots in each of six blocks.
pub const SLOT_COUNTS: usize = 42;

// What the summary tells of the blocks: how many use coupling, whether coordinates were sent, where blocks and mantissas start, and the
// mantissa bits of each slot, those of block 0 first.
#[derive(Clone, Copy)]
pub struct Tally {
    pub coupled: u8,
    pub coordinates: bool,
    pub starts: [u16; 6],
    pub mantissas: [u16; 6],
    pub bits: [u16; SLOT_COUNTS],
}

// An accepted frame's summary; its end is audio_end.
#[derive(Clone, Copy)]
pub struct Summary {
    pub rows: usize,
    pub end: u16,
    pub header: Header,
    pub tally: Tally,
}

// Refusal 0: accepted. The bit is the first one not yet read, audio_end if accepted. Refusal 6 tells the name and the block of what did not
// fit; every other answer has name 0 and no block.
#[derive(Clone, Copy)]
pub struct Answer {
    pub refusal: u8,
    pub rows: usize,
    pub bit: u16,
    pub name: u8,
    pub block: u8,
    pub summary: Summary,
}

// What is answered of a header by itself. Refusal 0: it was read to its end, and the bit is the first one after it. A refusal's header is
// all zeros.
#[derive(Clone, Copy, PartialEq, Eq)]
pub struct HeaderAnswer {
    pub refusal: u8,
    pub rows: usize,
    pub bit: u16,
    pub name: u8,
    pub block: u8,
    pub header: Header,
}

// The answer where reading stopped, after so many rows and at this bit: its summary is all zeros.
fn refused(refusal: Refusal, rows: usize, bit: u16) -> Answer
    ensures { result ≡ record { refusal = told.number refusal; rows = rows; bit = bit; name = told.name refusal; block = told.block refusal; summary = grammar.no_summary } }
{
    Answer {
        refusal: refusal.number(),
        rows,
        bit,
        name: refusal.name(),
        block: refusal.block(),
        summary: Summary {
            rows: 0,
            end: 0,
            header: NO_HEADER,
            tally: Tally {
                coupled: 0,
                coordinates: false,
                starts: [0; 6],
                mantissas: [0; 6],
                bits: [0; SLOT_COUNTS],
            },
        },
    }
}

// The header, which ends the frame where it is refused, and then the blocks.
fn frame(r: &mut Reader<'_>) -> Result<(Header, Tally), Refusal>
    ensures { Reads grammar.syncframe r.old (with_lent (λ read. record { header = read.0; tally = read.1; end = r.new.at }) result) r.new }
{
    let header = header::read(r)?;
    let tally = audio::audio(r, header)?;
    Ok((header, tally))
}

// The frame at the start of s.
fn syncframe(s: &[u8], rows: &mut [i32]) -> Answer
    ensures { (result, rows.new) ≡ grammar.answered (exec grammar.syncframe s.now (fresh rows.old)) }
{
    let mut r = Reader::new(s, rows);
    match frame(&mut r) {
        Err(refusal) => refused(refusal, r.count, r.at),
        Ok((header, tally)) => Answer {
            refusal: 0,
            rows: r.count,
            bit: r.at,
            name: 0,
            block: NONE,
            summary: Summary {
                rows: r.count,
                end: r.at,
                header,
                tally,
            },
        },
    }
}

// The frame that starts at a place of a capture: its rows go to the front of the room. Past the capture's end there is nothing, which is
// too short.
pub fn parse(capture: &[u8], place: usize, rows: &mut [i32]) -> Answer
    ensures rows_after { (result, rows.new) ≡ grammar.answer capture.now place rows.old }
    ensures promised { Promised (call capture.now place rows.old) result rows.new }
    ensures within { Within (call capture.now place rows.old) result rows.new }
{
    if capture.len() < place {
        return refused(Refusal::TooShort, 0, 0);
    }
    syncframe(&capture[place..], rows)
}
