// 6.2.2.7: the thresholds of bands, the addresses of bins, and the pointers there.
ghost use Rattle.std.specs.Prelude.{◌≡◌, ℕ, ◌+◌, ◌≤◌, ◌<◌, min, pos, length, get_or, replicate, ◌≤ℤ◌};
ghost use Rattle.signed.specs.Bound.{Below};
ghost use Rattle.tables.specs.Tables.{band_end, hearing};
ghost use Rattle.alloc.specs.Allocation.{at, psd_at, band_of, start_of, end_of, threshold, address_of};
ghost use Rattle.alloc.specs.Sound.{Exponents, SoundParameters, Every};
ghost use Rattle.alloc.specs.Fills.{within, Fills};
ghost use Rattle.alloc.specs.Stages.{Limit, bap_at, threshold_at, threshold_by};

use crate::Parameters;
use crate::mask::mask_of;
use crate::psd::level;

// The level above which the bins of a band get bits.
fn threshold(mask: i32, snroffset: i32, floor: i32) -> i32
    requires { Below 22 mask × Below 20 snroffset × Below 11 floor }
    ensures { result ≡ threshold mask snroffset floor }
{
    ((mask - snroffset - floor).max(0) & 0x1fe0) + floor
}

// 6.2.2.5 to 6.2.2.7 for one band.
fn threshold_at(p: &Parameters, excite: i32, here: i32, quiet: u16, delta: i32) -> i32
    requires { SoundParameters p.now × Below 18 excite × Below 15 here × (quiet ≤ 2112) × Below 20 delta }
    ensures { result ≡ threshold_at excite here p.now.dbknee quiet delta p.now.snroffset p.now.floor }
{
    let mask = mask_of(excite, here, p.dbknee, quiet) + delta;
    threshold(mask, p.snroffset, p.floor)
}

// 6.2.2.5 to 6.2.2.7: the thresholds of the bands.
pub fn thresholds(
    excite: &[i32; 50],
    bands: &[i32; 50],
    quiet: &[u16; 150],
    deltas: &[i32; 50],
    p: &Parameters,
    first: usize,
    last: usize,
) -> [i32; 50]
    requires { (first ≤ last) × (last ≤ 50) × SoundParameters p.now × (quiet.now ≡ hearing) × Every 18 excite.now × Every 15 bands.now × Every 20 deltas.now }
    ensures { (band : ℕ) → at result band ≡ within (pos 0) first last (threshold_by (at excite.now) (at bands.now) (at deltas.now) p.now.dbknee p.now.fscod p.now.snroffset p.now.floor) band }
{
    let mut out = [0; 50];
    for band in first..last {
        let quiet = quiet[50 * p.fscod + band];
        out[band] = threshold_at(p, excite[band], bands[band], quiet, deltas[band]);
    }
    out
}

// The same threshold for each bin from first up to last.
fn fill(out: &mut [i32; 256], first: usize, last: usize, threshold: i32)
    requires { (length out.old ≡ 256) × (first ≤ last) × (last ≤ 256) }
    ensures { Fills (pos 0) first last (λ j. threshold) out.old out.new }
{
    for bin in first..last {
        out[bin] = threshold;
    }
}

// The thresholds of bands of the same width, for each of their bins.
fn spread(
    out: &mut [i32; 256],
    ends: &[u8; 50],
    thresholds: &[i32; 50],
    first: usize,
    last: usize,
    width: usize,
)
    requires { (length out.old ≡ 256) × (ends.now ≡ band_end) × (0 < first) × (first ≤ last) × (last ≤ 50) × ((band : ℕ) → first ≤ band → band < last → end_of band ≡ start_of band + width) }
    ensures { Fills (pos 0) (start_of first) (start_of last) (λ bin. at thresholds.now (band_of bin)) out.old out.new }
{
    for band in first..last {
        let from = usize::from(ends[band - 1]);
        fill(&mut *out, from, from + width, thresholds[band]);
    }
}

// The thresholds of bands of one bin: a loop of its own, in which the processor takes several bands at once.
fn narrow(out: &mut [i32; 256], thresholds: &[i32; 50])
    requires { length out.old ≡ 256 }
    ensures { Fills (pos 0) 0 28 (at thresholds.now) out.old out.new }
{
    for band in 0..28 {
        out[band] = thresholds[band];
    }
}

// The thresholds of the bands before the last one, for each of their bins: bands of 1, 3, 6, 12 and 24 bins.
pub fn by_bin(out: &mut [i32; 256], ends: &[u8; 50], thresholds: &[i32; 50], last: usize)
    requires { (length out.old ≡ 256) × ends.now ≡ band_end }
    ensures { (length out.new ≡ 256) × ((bin : ℕ) → bin < 253 → band_of bin < last → at out.new bin ≡ at thresholds.now (band_of bin)) }
{
    narrow(&mut *out, thresholds);
    if last <= 28 {
        return;
    }
    spread(&mut *out, ends, thresholds, 28, 35, 3);
    spread(&mut *out, ends, thresholds, 35, 41, 6);
    spread(&mut *out, ends, thresholds, 41, 45, 12);
    spread(&mut *out, ends, thresholds, 45, 50, 24);
}

// The address of a bin: its level minus the mask, in steps of 32, and then clamped. What is not below 0 is at most 160, and goes on as a byte,
// so that the processor takes several bins at once.
fn address(psd: i32, mask: i32) -> u8
    requires { (pos 0 ≤ℤ psd) × (psd ≤ℤ pos 3072) × Limit mask }
    ensures { result ≡ address_of psd mask }
{
    (((psd - mask) >> 5).max(0) as u8).min(63)
}

// From the thresholds of the bins to their addresses.
pub fn addresses(out: &mut [u8; 256], masks: &[i32; 256], exponents: &[i16; 256], p: &Parameters)
    requires { (length out.old ≡ 256) × (p.now.start ≤ p.now.end) × (p.now.end ≤ 256) × Exponents exponents.now × ((bin : ℕ) → p.now.start ≤ bin → bin < p.now.end → Limit (at masks.now bin)) }
    ensures { Fills 0 p.now.start p.now.end (λ bin. address_of (psd_at exponents.now bin) (at masks.now bin)) out.old out.new }
{
    for bin in p.start..p.end {
        out[bin] = address(level(exponents[bin]), masks[bin]);
    }
}

// The pointers at the addresses of the bins, by a table.
pub fn pointers(out: &mut [u8; 256], baps: &[u8; 64], addresses: &[u8; 256], p: &Parameters)
    requires { (length out.old ≡ 256) × (p.now.start ≤ p.now.end) × (p.now.end ≤ 256) × ((bin : ℕ) → p.now.start ≤ bin → bin < p.now.end → get_or addresses.now bin 0 < 64) }
    ensures { Fills 0 p.now.start p.now.end (bap_at baps.now addresses.now) out.old out.new }
{
    for bin in p.start..p.end {
        out[bin] = baps[usize::from(addresses[bin])];
    }
}
