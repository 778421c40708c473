// Lists one frame: reads it from standard input (at most 3,840 bytes, later ones are not read) and writes its listing as text: a line of
// nine numbers for each row, and a last line, `audio ROWS BYTES AUDIO_END` or `refused NUMBER ROWS BIT NAME BLOCK`.
#![tactic(auto)]

use input::read_full;
use lister::TEXT;
use std::io;
use std::io::Write;

fn main(rt: HostRuntime) -> io::Result<()> {
    let mut frame = [0u8; 3840];
    let mut out = [0u8; TEXT];
    let n = read_full(&mut rt.reader(), &mut frame)?;
    let size = lister::listed(&frame[..n], &mut out);
    io::writer(&rt).write_all(&out[..size])
}
