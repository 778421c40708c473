// What is done with the bytes that a reading tells: they are counted, or written.
ghost use Rattle.std.specs.Prelude.{◌≡◌, [], ◌∷◌, ◌++◌, ◌≤◌, List, ℕ};
ghost use Rattle.std.proofs.Math.Seq.{slice};
ghost use Rattle.listing.specs.Number.{groups, signed, separator, letters};
ghost use Rattle.packed.specs.Tellers.{TellerLaws, CountRoom, Counts, WriteRoom, Writes, counting, writing};

use super::numbers;

// What takes the bytes of a reading in their order. `at` is how many were counted before, or the place of the output to write them from, and
// each function's result the same after them.
pub(crate) trait Teller {
    // Whether there is room for the bytes.
    ghost room: { List ℕ → ℕ → List ℕ → Type 0 };
    // The output and the number before, the bytes, the output and the number after.
    ghost tells: { List ℕ → ℕ → List ℕ → List ℕ → ℕ → Type 0 };

    // A number, packed.
    fn packed(out: &mut [u8], at: usize, v: usize) -> usize
        requires { room out.old at (groups v) }
        ensures { tells out.old at (groups v) out.new result };

    // A number's text, and what stands after it where `left` numbers follow on its line.
    fn text(out: &mut [u8], at: usize, v: usize, left: usize) -> usize
        requires { room out.old at (signed v ++ (separator left ∷ [])) }
        ensures { tells out.old at (signed v ++ (separator left ∷ [])) out.new result };

    // Letters of the words.
    fn word(out: &mut [u8], at: usize, from: usize, end: usize) -> usize
        requires { (from ≤ end) × (end ≤ 14) × room out.old at (slice from end letters) }
        ensures { tells out.old at (slice from end letters) out.new result };

    ghost laws: { TellerLaws room tells };
}

// Counts, to one past the length of an output that it leaves alone.
pub(crate) struct Count;

impl Teller for Count {
    ghost room = { CountRoom };

    ghost tells = { Counts };

    fn packed(out: &mut [u8], at: usize, v: usize) -> usize {
        numbers::capped(at, numbers::groups_size(v), out.len())
    }

    fn text(out: &mut [u8], at: usize, v: usize, left: usize) -> usize {
        numbers::capped(at, listing::ended_size(v), out.len())
    }

    fn word(out: &mut [u8], at: usize, from: usize, end: usize) -> usize {
        numbers::capped(at, end - from, out.len())
    }

    ghost laws = { counting };
}

// Writes into the output.
pub(crate) struct Write;

impl Teller for Write {
    ghost room = { WriteRoom };

    ghost tells = { Writes };

    fn packed(out: &mut [u8], at: usize, v: usize) -> usize {
        numbers::put_groups(out, at, v)
    }

    fn text(out: &mut [u8], at: usize, v: usize, left: usize) -> usize {
        listing::put_ended(out, at, v, left)
    }

    fn word(out: &mut [u8], at: usize, from: usize, end: usize) -> usize {
        listing::put_word(out, at, from, end)
    }

    ghost laws = { writing };
}
