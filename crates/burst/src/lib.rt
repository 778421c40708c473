// IEC 61937 data bursts: a frame as a burst of 6,144 bytes, and the frame of a burst.
#![tactic(auto)]

mod outcome;

ghost use Rattle.std.specs.Prelude.{◌++◌, ◌≡◌, ◌+◌, ◌<◌, ◌≤◌, length, drop};
ghost use Rattle.signed.specs.Level.{clamp_z};
ghost use Rattle.syntax.specs.Names as Name;
ghost use Rattle.rows.specs.Look.{value_in};
ghost use Rattle.burst.specs.Burst.{burst_bytes, head_bytes, burst_of, word_at, opens, all_zero};
ghost use Rattle.burst.specs.Answers as answers;

pub use outcome::{Refusal, Refused, Written};
use syntax::names::BSMOD;

// The bytes of a burst, and of its four words before the frame.
const BURST: usize = 6144;

const HEAD: usize = 8;

// bsmod, in the row of its name; it is three bits wide.
fn bsmod(rows: &[i32], count: usize) -> u16
    ensures { (result ≡ clamp_z (value_in count Name.bsmod rows.now) 7) × (result < 8) }
{
    signed::clamp(rows::value(rows, count, BSMOD), 7) as u16
}

// ---- writing

// The burst of a frame, in front of the output.
fn put(frame: &[u8], bsmod: u16, out: &mut [u8])
    requires { (head_bytes + length frame.now ≤ burst_bytes) × (burst_bytes ≤ length out.old) × (bsmod < 8) }
    ensures { out.new ≡ burst_of bsmod frame.now ++ drop burst_bytes out.old }
{
    let bytes = frame.len();
    writer::word(out, 0, 0xF872);
    writer::word(out, 2, 0x4E1F);
    writer::word(out, 4, 1 + 256 * bsmod);
    writer::word(out, 6, 8 * bytes as u16);
    writer::copy(frame, out, HEAD);
    writer::fill(out, HEAD + bytes, BURST - HEAD - bytes, 0);
}

// Writes the frame that starts at a place of a capture as one burst.
pub fn burst_write(
    capture: &[u8],
    place: usize,
    rows: &mut [i32],
    out: &mut [u8],
) -> Result<Written, Refused>
    ensures { (result, (rows.new, out.new)) ≡ answers.burst_write capture.now place rows.old out.old }
{
    let parsed = ac3::parse(capture, place, rows);
    let count = parsed.rows;
    if parsed.refusal != 0 {
        return Err(Refusal::Frame(parsed.refusal).after(count));
    }
    if out.len() < BURST {
        return Err(Refusal::NoRoom.after(count));
    }
    let end = place + usize::from(parsed.summary.header.bytes);
    put(&capture[place..end], bsmod(rows, count), out);
    Ok(Written {
        rows: count,
        bytes: BURST as u16,
    })
}

// ---- reading

// One of the four words, counted from 0.
fn word(s: &[u8], i: usize) -> usize
    requires { i < 4 }
    ensures { result ≡ word_at s.now i }
{
    bits::get(s, 16 * i, 16) as usize
}

// Whether the first three words are a burst's, whatever bits 8 to 10 of the third are.
fn opens(s: &[u8]) -> bool
    ensures { result ≡ opens s.now }
{
    let third = word(s, 2);
    word(s, 0) == 0xF872 && word(s, 1) == 0x4E1F && third == 1 + 256 * (third / 256 % 8)
}

fn all_zero(s: &[u8]) -> bool
    ensures { result ≡ all_zero s.now }
{
    s.iter().all(|&byte| byte == 0)
}

// Writes the frame of a burst.
pub fn burst_read(burst: &[u8], rows: &mut [i32], out: &mut [u8]) -> Result<Written, Refused>
    ensures { (result, (rows.new, out.new)) ≡ answers.burst_read burst.now rows.old out.old }
{
    if burst.len() != BURST {
        return Err(Refusal::NotABurst.after(0));
    }
    if !opens(burst) {
        return Err(Refusal::WrongWords.after(0));
    }
    let parsed = ac3::parse(burst, HEAD, rows);
    let count = parsed.rows;
    if parsed.refusal != 0 {
        return Err(Refusal::Frame(parsed.refusal).after(count));
    }
    let bytes = usize::from(parsed.summary.header.bytes);
    if word(burst, 3) != 8 * bytes {
        return Err(Refusal::WrongLength.after(count));
    }
    let end = HEAD + bytes;
    if !all_zero(&burst[end..]) {
        return Err(Refusal::NotZero.after(count));
    }
    if word(burst, 2) / 256 % 8 != usize::from(bsmod(rows, count)) {
        return Err(Refusal::OtherMode.after(count));
    }
    if out.len() < bytes {
        return Err(Refusal::NoRoom.after(count));
    }
    writer::copy(&burst[HEAD..end], out, 0);
    Ok(Written {
        rows: count,
        bytes: parsed.summary.header.bytes,
    })
}
