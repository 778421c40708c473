// Header and blocks apart: the header by itself, and the blocks for one who holds a header answer, which is not trusted.
ghost use Rattle.std.specs.Prelude.{List, ◌≡◌, ℤ, length};
ghost use Rattle.syntax.specs.Place.{exec, fresh};
ghost use Rattle.syntax.specs.Refusals as told;
ghost use Rattle.header.specs.Header as grammar;
ghost use Rattle.ac3.specs.Apart.{no_header, headed, header_to, afresh_if, blocks_to};
ghost use Rattle.ac3.specs.Promise.{call};

use crate::{Answer, HeaderAnswer, parse, refused};
use header::{NO_HEADER, read};
use syntax::{NONE, ROW, Reader, Refusal};

// No header has more rows (`most_header_rows`, specs/Apart): room for these is as good as any more.
pub const MOST_HEADER_ROWS: usize = 44;

const OWN: usize = MOST_HEADER_ROWS * ROW;

// ---- the header by itself

// The answer where reading stopped, after so many rows and at this bit: its header is all zeros.
fn stopped(refusal: Refusal, rows: usize, bit: u16) -> HeaderAnswer
    ensures { result ≡ record { refusal = told.number refusal; rows = rows; bit = bit; name = told.name refusal; block = told.block refusal; header = no_header } }
{
    HeaderAnswer {
        refusal: refusal.number(),
        rows,
        bit,
        name: refusal.name(),
        block: refusal.block(),
        header: NO_HEADER,
    }
}

// The header at the start of s.
fn header_of(s: &[u8], rows: &mut [i32]) -> HeaderAnswer
    ensures { (result, rows.new) ≡ headed (exec grammar.header s.now (fresh rows.old)) }
{
    let mut r = Reader::new(s, rows);
    match read(&mut r) {
        Err(refusal) => stopped(refusal, r.count, r.at),
        Ok(header) => HeaderAnswer {
            refusal: 0,
            rows: r.count,
            bit: r.at,
            name: 0,
            block: NONE,
            header,
        },
    }
}

// The header of the frame that starts at a place of a capture, as far as addbsi: its rows go to the front of the room.
pub fn header(capture: &[u8], place: usize, rows: &mut [i32]) -> HeaderAnswer
    ensures { (result, rows.new) ≡ header_to (call capture.now place rows.old) }
{
    if capture.len() < place {
        return stopped(Refusal::TooShort, 0, 0);
    }
    header_of(&capture[place..], rows)
}

// The same answer for a room of so many numbers, with no room lent: the rows go to rows of its own. (Public because the exported functions
// stand in a crate above.)
pub fn header_again(capture: &[u8], place: usize, room: usize) -> HeaderAnswer
    ensures { (l : List ℤ) → length l ≡ room → result ≡ (header_to (call capture.now place l)).0 }
{
    let mut own = [0i32; OWN];
    header(capture, place, &mut own[..room.min(OWN)])
}

// ---- the blocks for one who holds a header answer

// The header's rows afresh and the six blocks, where a header answer was found to fit; else 24, and no number of the room is touched.
// (Public because the exported functions stand in a crate above.)
pub fn afresh_if(capture: &[u8], place: usize, rows: &mut [i32], fits: bool) -> Answer
    ensures { (result, rows.new) ≡ afresh_if fits (call capture.now place rows.old) }
{
    if fits {
        return parse(capture, place, rows);
    }
    refused(Refusal::Unfit, 0, 0)
}

// The blocks of the frame at a place of a capture, by a header answer: that of this very call is taken, if it is no refusal, and no other.
// It is held against the header before a row is written.
pub fn blocks(capture: &[u8], place: usize, rows: &mut [i32], claim: HeaderAnswer) -> Answer
    ensures { (result, rows.new) ≡ blocks_to (call capture.now place rows.old) claim }
{
    let own = header_again(capture, place, rows.len());
    let fits = (claim.refusal == 0) & (claim == own);
    afresh_if(capture, place, rows, fits)
}
