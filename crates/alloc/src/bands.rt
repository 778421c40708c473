// 6.2.2.3: the psd of the bins of a band are added up.
ghost use Rattle.std.specs.Prelude.{◌&&◌, ◌≡◌, ◌+◌, ◌-◌, ◌/◌, ◌≤◌, ◌<◌, pos, nat_abs, neg_ℤ, length, get_or, T};
ghost use Rattle.std.specs.Int.Signed.{le_z, lt_z, non_neg};
ghost use Rattle.signed.specs.Bound.{Below};
ghost use Rattle.tables.specs.Tables.{band_end, log_add};
ghost use Rattle.alloc.specs.Allocation.{logadd, psd_at, band_sum, start_of, end_of, band_psd};
ghost use Rattle.alloc.specs.Sound.{Exponents};
ghost use Rattle.alloc.specs.Fills.{Fills};
ghost use Rattle.alloc.specs.Stages.{relative_at};
ghost use Rattle.alloc.specs.Band.{InBand, Spans};

use crate::Parameters;
use crate::psd::{drop, level, relative};

// Whether a level is the larger of two, and not so far above the other that it hides it.
fn is_near(distance: i32) -> bool
    ensures { result ≡ (le_z (pos 0) distance && lt_z distance (pos 512)) }
{
    (0..512).contains(&distance)
}

// What the table has at half a distance.
fn added(adds: &[u8; 256], distance: i32) -> i32
    requires { (adds.now ≡ log_add) × T (non_neg distance) × (nat_abs distance < 512) }
    ensures { (result ≡ pos (get_or log_add (nat_abs distance / 2) 0)) × Below 8 result }
{
    i32::from(adds[distance as usize / 2])
}

// The sum of two levels, of which the second is given by how far it is below 0: so each arm is an addition or a subtraction of its own, and the
// usual one takes the fewest instructions. Of two that are far apart it is the larger, without a look into the table.
fn logadd(adds: &[u8; 256], sum: i32, drop: i32) -> i32
    requires { (adds.now ≡ log_add) × Below 20 sum × Below 20 drop }
    ensures { result ≡ logadd sum (neg_ℤ drop) }
{
    let distance = sum + drop;
    if is_near(distance) {
        return sum + added(adds, distance);
    }
    if 0 <= distance {
        return sum;
    }
    if -512 < distance {
        return added(adds, 0 - distance) - drop;
    }
    0 - drop
}

// The sum and one bin more.
fn plus(adds: &[u8; 256], exponents: &[i16; 256], bin: usize, sum: i32) -> i32
    requires { (adds.now ≡ log_add) × Exponents exponents.now × (bin < 256) × Below 20 sum }
    ensures { result ≡ logadd sum (relative_at exponents.now bin) }
{
    logadd(adds, sum, drop(exponents[bin]))
}

// The sum and two bins more. That and the next stand as they are, and not as a loop: three bins in one go take fewer instructions.
fn plus_two(adds: &[u8; 256], exponents: &[i16; 256], bin: usize, sum: i32) -> i32
    requires { (adds.now ≡ log_add) × Exponents exponents.now × (bin + 1 < 256) × Below 18 sum }
    ensures { result ≡ logadd (logadd sum (relative_at exponents.now bin)) (relative_at exponents.now (bin + 1)) }
{
    let one = plus(adds, exponents, bin, sum);
    plus(adds, exponents, bin + 1, one)
}

// The sum and three bins more.
fn plus_three(adds: &[u8; 256], exponents: &[i16; 256], bin: usize, sum: i32) -> i32
    requires { (adds.now ≡ log_add) × Exponents exponents.now × (bin + 2 < 256) × Below 17 sum }
    ensures { result ≡ logadd (logadd (logadd sum (relative_at exponents.now bin)) (relative_at exponents.now (bin + 1))) (relative_at exponents.now (bin + 2)) }
{
    let two = plus_two(adds, exponents, bin, sum);
    plus(adds, exponents, bin + 2, two)
}

// The levels of the bins from first up to last, added up. The bands from 28 on are threes: two bins after the first, and then three in each turn.
// What is left where a range cuts a band goes one by one.
fn sum_levels(adds: &[u8; 256], exponents: &[i16; 256], first: usize, last: usize) -> i32
    requires { (adds.now ≡ log_add) × Exponents exponents.now × (0 < first) × (first < last) × (last ≤ 256) }
    ensures { result ≡ band_sum (psd_at exponents.now) first (last - 1 - first) }
{
    let threes = last - 2;
    let mut sum = relative(exponents[first]);
    let mut bin = first + 1;
    if bin + 1 < last {
        sum = plus_two(adds, exponents, bin, sum);
        bin += 2;
    }
    while bin < threes {
        sum = plus_three(adds, exponents, bin, sum);
        bin += 3;
    }
    while bin < last {
        sum = plus(adds, exponents, bin, sum);
        bin += 1;
    }
    sum + 3072
}

// Table 6.13: the band of a bin, by the ranges of Table 6.12: bands of 1, 3, 6, 12 and 24 bins. Bin 252 is in band 49, the last one. No bin
// past it is asked for; there, bands of 24 bins go on.
pub fn masktab(bin: usize) -> usize
    ensures { (bin < 253 → InBand bin result) × (252 < bin → result ≡ 45 + (bin - 133) / 24) }
{
    if bin < 28 {
        return bin;
    }
    if bin < 49 {
        return 28 + (bin - 28) / 3;
    }
    if bin < 85 {
        return 35 + (bin - 49) / 6;
    }
    if bin < 133 {
        return 41 + (bin - 85) / 12;
    }
    45 + (bin - 133) / 24
}

// The levels of bands of one bin: a loop of its own, in which the processor takes several bands at once.
fn narrow_levels(out: &mut [i32; 50], exponents: &[i16; 256], first: usize, last: usize)
    requires { (length out.old ≡ 50) × (first ≤ last) × (last ≤ 50) }
    ensures { Fills (pos 0) first last (psd_at exponents.now) out.old out.new }
{
    for band in first..last {
        out[band] = level(exponents[band]);
    }
}

// The level of one band, over those of its bins that are in the range.
fn band_level(
    adds: &[u8; 256],
    ends: &[u8; 50],
    exponents: &[i16; 256],
    p: &Parameters,
    band: usize,
) -> i32
    requires { (adds.now ≡ log_add) × (ends.now ≡ band_end) × Exponents exponents.now × (0 < band) × (band < 50) × (start_of band < p.now.end) × (p.now.start < end_of band) × (p.now.start < p.now.end) × (p.now.end ≤ 253) }
    ensures { result ≡ band_psd (psd_at exponents.now) p.now.start p.now.end band }
{
    let first = p.start.max(usize::from(ends[band - 1]));
    let last = p.end.min(usize::from(ends[band]));
    sum_levels(adds, exponents, first, last)
}

// The levels of bands of several bins.
fn wide_levels(
    out: &mut [i32; 50],
    ends: &[u8; 50],
    exponents: &[i16; 256],
    p: &Parameters,
    first: usize,
    last: usize,
)
    requires { (length out.old ≡ 50) × (ends.now ≡ band_end) × Exponents exponents.now × (0 < first) × (first < last) × (last ≤ 50) × (start_of (last - 1) < p.now.end) × (p.now.start < end_of first) × (p.now.start < p.now.end) × (p.now.end ≤ 253) }
    ensures { Fills (pos 0) first last (band_psd (psd_at exponents.now) p.now.start p.now.end) out.old out.new }
{
    let adds = tables::log_adds();
    for band in first..last {
        out[band] = band_level(&adds, ends, exponents, p, band);
    }
}

// The levels of the bands of a range of bins; below band 28 a band is a bin.
pub fn band_levels(
    out: &mut [i32; 50],
    ends: &[u8; 50],
    exponents: &[i16; 256],
    p: &Parameters,
    first: usize,
    last: usize,
)
    requires { (length out.old ≡ 50) × (ends.now ≡ band_end) × Exponents exponents.now × Spans p.now.start p.now.end first last × (p.now.end ≤ 253) }
    ensures { Fills (pos 0) first last (band_psd (psd_at exponents.now) p.now.start p.now.end) out.old out.new }
{
    let split = last.min(first.max(28));
    narrow_levels(&mut *out, exponents, first, split);
    if last <= split {
        return;
    }
    wide_levels(&mut *out, ends, exponents, p, split, last);
}
