// Replays a list of cases with the judge's answers (judge/vectors/README.md says its layout), from standard input: each capture is parsed at
// its place with its room, and the numbers of the answer and a checksum of the whole room are held against those of the list.
#![tactic(auto)]

ghost use Rattle.std.specs.Prelude.{◌≤◌, IfOk};

use ferrysprig::ANSWER;
use input::read_full;
use std::io;
use std::io::Read;
use syntax::ROW;

// What is said of an answer: four bytes to a number, and to the checksum of the room. The numbers of the largest room: 4,096 rows.
const SAID: usize = 4 * (ANSWER + 1);

const NUMBERS: usize = 4096 * ROW;

// The 32 bits of a number of a row or of an answer: no such number is below -1, and none below it is taken for -1.
fn bits_of(n: i32) -> u32 {
    if n < -1 {
        4294967294
    } else {
        n.cast_unsigned()
    }
}

// The checksum with one number more, lowest byte first.
fn with_number(sum: u32, n: i32) -> u32 {
    let mut sum = sum;
    for &byte in &bits_of(n).to_le_bytes() {
        sum = (sum ^ byte as u32).wrapping_mul(16777619);
    }
    sum
}

fn checksum(room: &[i32]) -> u32 {
    room.iter().fold(2166136261, |sum, &n| with_number(sum, n))
}

// The room before a call: no row has such numbers.
fn mark(room: &mut [i32]) {
    for (i, n) in room.iter_mut().enumerate() {
        *n = (1000000 + i % 1000000) as i32;
    }
}

// Whether a call answers as the list says, and rows that are made of the frame's records are the same.
fn as_said(capture: &[u8], place: usize, room: &mut [i32], said: &[u8; SAID]) -> bool {
    let (said, _) = said.as_chunks::<4>();
    let sum = u32::from_be_bytes(said[ANSWER]);
    mark(room);
    let mut answer = [0i32; ANSWER];
    ferrysprig::ferrysprig_parse(capture, place, room, &mut answer);
    if checksum(room) != sum {
        return false;
    }
    mark(room);
    fields::parse_through(capture, place, room);
    checksum(room) == sum
        && answer
            .iter()
            .zip(said)
            .all(|(&n, &bytes)| bits_of(n) == u32::from_be_bytes(bytes))
}

// The sizes of a case: the capture's bytes, the place, the room's numbers.
#[derive(Drop)]
struct Sizes {
    bytes: usize,
    place: usize,
    numbers: usize,
}

fn read_sizes<R: Read>(reader: &mut R) -> io::Result<Sizes> {
    let mut b = [0u8; 8];
    read_full(reader, &mut b)?;
    Ok(Sizes {
        bytes: u16::from_be_bytes([b[0], b[1]]) as usize,
        place: u16::from_be_bytes([b[2], b[3]]) as usize,
        numbers: u32::from_be_bytes([b[4], b[5], b[6], b[7]]) as usize,
    })
}

// Reads one case, and answers whether the port answers as the list says. A case that is cut short does not.
fn replay<R: Read>(reader: &mut R) -> io::Result<bool> {
    let sizes = read_sizes(reader)?;
    let bytes = sizes.bytes;
    let numbers = sizes.numbers;
    let mut capture = [0u8; 8192];
    let mut said = [0u8; SAID];
    let mut room = [0i32; NUMBERS];
    if capture.len() < bytes || room.len() < numbers {
        return Ok(false);
    }
    if read_full(reader, &mut capture[..bytes])? != bytes {
        return Ok(false);
    }
    if read_full(reader, &mut said)? != SAID {
        return Ok(false);
    }
    Ok(as_said(&capture[..bytes], sizes.place, &mut room[..numbers], &said))
}

// The number of cases; none where the list does not begin as one.
fn read_count<R: Read>(reader: &mut R) -> io::Result<Option<u32>> {
    let mut b = [0u8; 8];
    read_full(reader, &mut b)?;
    if !b.starts_with(b"AC3J") {
        return Ok(None);
    }
    Ok(Some(u32::from_be_bytes([b[4], b[5], b[6], b[7]])))
}

// How many of so many cases are not as the list says.
fn differences<R: Read>(reader: &mut R, count: usize) -> io::Result<usize>
    ensures { IfOk result (λ found. found ≤ count) }
{
    let mut found = 0;
    for i in 0..count {
        if !replay(reader)? {
            found += 1;
        }
    }
    Ok(found)
}

fn main(rt: HostRuntime) -> io::Result<()> {
    let mut reader = rt.reader();
    let count = read_count(&mut reader)?.unwrap_or(0) as usize;
    let found = differences(&mut reader, count)?;
    println!(rt; "{count} cases, {found} differences")?;
    Ok(())
}
