// Writing into lent bytes and numbers. Each function promises the whole run: what does not fit is not written, and the rest is as it was.
// (Public because those who write bursts, frames, listings and answers stand in crates above.)
#![tactic(auto)]

ghost use Rattle.std.specs.Prelude.{map, ◌≡◌, ◌-◌, min, pos, length, replicate};
ghost use Rattle.std.proofs.lemmas.List.Edits.{sets};
ghost use Rattle.writer.specs.Words.{word_bytes};

// How many of n bytes fit from a place on.
fn fitting(room: usize, at: usize, n: usize) -> usize
    ensures { result ≡ min n (room - at) }
{
    n.min(room.saturating_sub(at))
}

// Copies bytes into a run, from a place on.
pub fn copy(from: &[u8], run: &mut [u8], at: usize)
    ensures { run.new ≡ sets run.old at from.now }
{
    // By index: with `copy_from_slice` the archive for C would need memmove, and it needs memcpy and memset alone.
    for i in 0..fitting(run.len(), at, from.len()) {
        run[at + i] = from[i];
    }
}

// Writes one byte so many times into a run, from a place on.
pub fn fill(run: &mut [u8], at: usize, count: usize, byte: u8)
    ensures { run.new ≡ sets run.old at (replicate count byte) }
{
    let n = fitting(run.len(), at, count);
    let start = at.min(run.len());
    run[start..start + n].fill(byte);
}

// Writes a word into a run, high byte first.
pub fn word(run: &mut [u8], at: usize, w: u16)
    ensures { run.new ≡ sets run.old at (word_bytes w) }
{
    copy(&w.to_be_bytes(), run, at);
}

// Writes small numbers to the front of a run, as a caller reads them.
pub fn numbers(from: &[u16], run: &mut [i32])
    ensures { run.new ≡ sets run.old 0 (map pos from.now) }
{
    // By index: after a `zip` over `iter_mut` no proof knows the run's numbers.
    for i in 0..from.len().min(run.len()) {
        run[i] = i32::from(from[i]);
    }
}
