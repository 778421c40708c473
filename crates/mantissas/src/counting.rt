// Mantissas counted (6.3.5): from the counts follow the bits that all of them take.
ghost use Rattle.std.specs.Prelude.{◌≡◌, ℕ, ◌-◌, ◌*◌, ◌<◌, ◌≤◌, get_or};
ghost use Rattle.tables.specs.Tables.{bap, mantissa_bits};
ghost use Rattle.alloc.specs.Allocation.{from};
ghost use Rattle.alloc.specs.Stages.{bap_at};
ghost use Rattle.mantissas.specs.Counts.{no_counts, counted, counted_all, plus, width_of, AtMost, packed};

use crate::Counts;

// Nothing counted, and no group open: so each block begins.
pub const NO_COUNTS: Counts = Counts {
    bits: 0,
    ones: 0,
    twos: 0,
    fours: 0,
};

// All four counts in one number, 16 bits for each, so that a mantissa takes one addition.
const ONE: u64 = 1 << 16;

const TWO: u64 = 1 << 32;

const FOUR: u64 = 1 << 48;

// What a mantissa adds, by its pointer: its bits (Table 6.17), or one of pointer 1, 2 or 4. A loop keeps them in a local: a constant array is made
// anew wherever it is looked into.
pub fn weights() -> [u64; 16]
    ensures { result ≡ from 0 16 (λ bap. packed (counted no_counts bap)) }
{
    let bits = tables::mantissa_bits();
    [
        bits[0] as u64,
        ONE,
        TWO,
        bits[3] as u64,
        FOUR,
        bits[5] as u64,
        bits[6] as u64,
        bits[7] as u64,
        bits[8] as u64,
        bits[9] as u64,
        bits[10] as u64,
        bits[11] as u64,
        bits[12] as u64,
        bits[13] as u64,
        bits[14] as u64,
        bits[15] as u64,
    ]
}

// The mantissas of some bins, by their addresses (6.2.2.7). By index: nothing says that a slot ends past its start, as a slice of it would ask.
pub fn count_bins(addresses: &[u8; 256], start: usize, end: usize) -> Counts
    requires { (end ≤ 253) × ((bin : ℕ) → start ≤ bin → bin < end → get_or addresses.now bin 0 < 64) }
    ensures { result ≡ counted_all no_counts (from start (end - start) (bap_at bap addresses.now)) }
{
    let baps = tables::bit_allocation_pointers();
    let weights = weights();
    let mut total = 0u64;
    for bin in start..end {
        let pointer = baps[addresses[bin] as usize] as usize;
        total += weights[pointer];
    }
    Counts {
        bits: (total % ONE) as u32,
        ones: (total / ONE % ONE) as u32,
        twos: (total / TWO % ONE) as u32,
        fours: (total / FOUR) as u32,
    }
}

// A block has at most seven slots of 253 mantissas, so nothing wraps. (The methods are public, as the fields are: who holds counts can count on.)
impl Counts {
    // One mantissa more.
    pub fn with_one(self, bits: &[u8; 16], bap: u8) -> Counts
        requires { AtMost (7 * 253) self × (bits.now ≡ mantissa_bits) × (bap < 16) }
        ensures { result ≡ counted self bap }
    {
        Counts {
            bits: self.bits + u32::from(bits[bap as usize]),
            ones: self.ones + u32::from(bap == 1),
            twos: self.twos + u32::from(bap == 2),
            fours: self.fours + u32::from(bap == 4),
        }
    }

    // These and others.
    pub fn plus(self, more: Counts) -> Counts
        requires { AtMost (7 * 253) self × AtMost (7 * 253) more }
        ensures { result ≡ plus self more }
    {
        Counts {
            bits: self.bits + more.bits,
            ones: self.ones + more.ones,
            twos: self.twos + more.twos,
            fours: self.fours + more.fours,
        }
    }

    // The bits that they take.
    pub fn width(self) -> u32
        requires { AtMost (7 * 253) self }
        ensures { result ≡ width_of self }
    {
        self.bits
            + 5 * ((self.ones + 2) / 3)
            + 7 * ((self.twos + 2) / 3)
            + 7 * ((self.fours + 1) / 2)
    }
}
