// Lists one frame in the packed form: reads it from standard input (at most 3,840 bytes, later ones are not read), makes the text that the
// program `list` writes, and packs it.
#![tactic(auto)]

ghost use Rattle.std.specs.Prelude.{◌≡◌, ◌≤◌, length, take};
ghost use Rattle.listing.specs.Listing.{packed};
ghost use Rattle.lister.specs.Listed.{listing, rows_lent, frame_call};
ghost use Rattle.lister.specs.Written.{most_text};

use input::read_full;
use lister::TEXT;
use std::io;
use std::io::Write;

// The packed listing of the frame at the start of some bytes; its length. (No packed form is longer than a longest text.)
fn listed_packed(frame: &[u8], out: &mut [u8]) -> usize
    requires { most_text rows_lent ≤ length out.old }
    ensures { (take result out.new ≡ packed (listing (frame_call frame.now))) × (result ≤ length out.new) }
{
    let mut text = [0u8; TEXT];
    let size = lister::listed(frame, &mut text);
    packed::pack(&text[..size], out).unwrap()
}

fn main(rt: HostRuntime) -> io::Result<()> {
    let mut frame = [0u8; 3840];
    let mut out = [0u8; TEXT];
    let n = read_full(&mut rt.reader(), &mut frame)?;
    let size = listed_packed(&frame[..n], &mut out);
    io::writer(&rt).write_all(&out[..size])
}
