// Packed listings, both ways.
ghost use Rattle.std.specs.Prelude.{◌≡◌};
ghost use Rattle.packed.specs.Answers.{answer};
ghost use Rattle.packed.specs.Converted.{packing, unpacking};
ghost use Rattle.ferrysprig.specs.Packings.{packing_numbers, packing_told};

use packed::Refusal;

pub const PACKING_ANSWER: usize = 2;

// The refusal's number, 0 for none, and how many bytes were written. They count bytes, so they are as wide as places are.
fn packing_numbers(converted: Result<usize, Refusal>) -> [usize; PACKING_ANSWER]
    ensures { result ≡ packing_numbers (answer converted) }
{
    match converted {
        Ok(written) => [0, written],
        Err(refusal) => [refusal as usize, 0],
    }
}

// Packs a listing's text into the front of `out`, and writes the answer's numbers.
pub fn ferrysprig_pack(listing: &[u8], out: &mut [u8], answer: &mut [usize; PACKING_ANSWER])
    ensures { (answer.new, out.new) ≡ packing_told (packing listing.now out.old) }
{
    *answer = packing_numbers(packed::pack(listing, out));
}

// Writes the text of a packed listing into the front of `out`, and then the answer's numbers.
pub fn ferrysprig_unpack(packed: &[u8], out: &mut [u8], answer: &mut [usize; PACKING_ANSWER])
    ensures { (answer.new, out.new) ≡ packing_told (unpacking packed.now out.old) }
{
    *answer = packing_numbers(packed::unpack(packed, out));
}
