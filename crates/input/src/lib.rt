// What the programs read: standard input, as far as a run of bytes reaches.
#![tactic(auto)]

ghost use Rattle.std.specs.Prelude.{◌≡◌, ◌≤◌, length, IfOk};

use std::io;
use std::io::Read;

// Reads from a reader until the run of bytes is full or the reader is at its end; how many bytes were read. What a reader gives, no contract
// can say. After an error the run holds what was read before it.
pub fn read_full<R: Read>(reader: &mut R, bytes: &mut [u8]) -> io::Result<usize>
    ensures within { IfOk result (λ count. count ≤ length bytes.new) }
    ensures long { length bytes.new ≡ length bytes.old }
{
    let mut at: usize = 0;
    for _ in 0..bytes.len() {
        let count = reader.read(&mut bytes[at..])?;
        if count == 0 {
            break;
        }
        at += count;
    }
    Ok(at)
}
