// 6.2.2.4: the excitation, a state that is carried from band to band.
ghost use Rattle.std.specs.Prelude.{◌≡◌, ℕ, ◌-◌, ◌≤◌, ◌<◌, pos, length};
ghost use Rattle.signed.specs.Bound.{Below};
ghost use Rattle.alloc.specs.Allocation.{at, lowcomp, lfe_last, low_after, rises, fall_to, starts_anew, start_leak, fall_by, leak_step, leak_before};
ghost use Rattle.alloc.specs.Sound.{SoundParameters, Bounded, Every};
ghost use Rattle.alloc.specs.Fills.{Fills};
ghost use Rattle.alloc.specs.Leaks.{leak_after, excite_at};

use crate::{Gains, Leak, Parameters};

// The low frequency compensation.
fn calc_lowcomp(a: i32, b0: i32, b1: i32, bin: usize) -> i32
    requires { Below 20 a × (Below 20 b0 × Below 20 b1) }
    ensures { result ≡ lowcomp a b0 b1 bin }
{
    if bin < 20 {
        if b0 + 256 == b1 {
            return if bin < 7 { 384 } else { 320 };
        }
        return if b1 < b0 { (a - 64).max(0) } else { a };
    }
    (a - 128).max(0)
}

// The leaks start anew.
fn start_leak(g: Gains, here: i32, low: i32, risen: bool) -> Leak
    requires { Below 15 here × Below 9 low }
    ensures { result ≡ start_leak g here low risen }
{
    let fast = here - g.fgain as i32;
    let slow = here - g.sgain as i32;
    let excite = fast - low;
    Leak {
        fast,
        slow,
        low,
        excite,
        risen,
    }
}

// A leak falls by its decay, and not below a floor.
fn fall_to(leak: i32, decay: u16, floor: i32) -> i32
    requires { Below 17 leak × Below 17 floor }
    ensures { result ≡ fall_to leak decay floor }
{
    (leak - decay as i32).max(floor)
}

// The leaks fall by one band; the excitation is the larger of them, the fast one less the compensation where it counts.
fn fall_leak(g: Gains, here: i32, low: i32, less: i32, l: Leak) -> Leak
    requires { Below 15 here × Below 9 low × Below 9 less × Bounded l }
    ensures { result ≡ fall_by g here low less l }
{
    let fast = fall_to(l.fast, g.fdecay, here - g.fgain as i32);
    let slow = fall_to(l.slow, g.sdecay, here - g.sgain as i32);
    Leak {
        fast,
        slow,
        low,
        excite: (fast - less).max(slow),
        risen: l.risen,
    }
}

// The last band of the LFE channel has no next band.
fn lfe_last(count: usize, band: usize) -> bool
    ensures { result ≡ lfe_last count band }
{
    count == 7 && band == 6
}

// The compensation after a band.
fn low_after(bands: &[i32; 50], count: usize, band: usize, low: i32) -> i32
    requires { (band < 22) × Below 9 low × Every 15 bands.now }
    ensures { result ≡ low_after (at bands.now) count band low }
{
    if lfe_last(count, band) {
        return low;
    }
    calc_lowcomp(low, bands[band], bands[band + 1], band)
}

// A band that does not fall to the next one.
fn is_rise(bands: &[i32; 50], count: usize, band: usize) -> bool
    requires { band < 49 }
    ensures { result ≡ rises (at bands.now) count band }
{
    if band < 2 {
        return false;
    }
    if lfe_last(count, band) {
        return false;
    }
    bands[band] <= bands[band + 1]
}

// The first phase. A function of its own, as the definition has it: a test of two parts is joined in it, and not in each path after it.
fn starts_anew(band: usize, risen: bool) -> bool
    ensures { result ≡ starts_anew band risen }
{
    band < 7 && !risen
}

// One band below 22.
fn leak_step(g: Gains, bands: &[i32; 50], count: usize, band: usize, l: Leak) -> Leak
    requires { (band < 22) × Bounded l × Every 15 bands.now }
    ensures { result ≡ leak_step g (at bands.now) count band l }
{
    let here = bands[band];
    let low = low_after(bands, count, band, l.low);
    let risen = l.risen;
    if starts_anew(band, risen) {
        return start_leak(g, here, low, is_rise(bands, count, band));
    }
    fall_leak(g, here, low, low, l)
}

// One band from 7 to 21: the leaks do not start anew, and there is a next band, so neither is tested for.
fn middle_step(g: Gains, bands: &[i32; 50], band: usize, l: Leak) -> Leak
    requires { (7 ≤ band) × (band < 22) × Bounded l × Every 15 bands.now }
    ensures { (count : ℕ) → result ≡ leak_step g (at bands.now) count band l }
{
    let here = bands[band];
    let low = calc_lowcomp(l.low, here, bands[band + 1], band);
    fall_leak(g, here, low, low, l)
}

// The excitation of bands below 22, and the state after them. Only those below 7 need all that it tests for: so the bands stand in three loops,
// of which the longer ones test for less, and not in one.
fn low_excitations(
    out: &mut [i32; 50],
    g: Gains,
    bands: &[i32; 50],
    first: usize,
    last: usize,
    count: usize,
    start: Leak,
) -> Leak
    requires { (length out.old ≡ 50) × (first ≤ last) × (last ≤ 50) × ((band : ℕ) → first ≤ band → band < last → band < 22) × Bounded start × Every 15 bands.now }
    ensures { (result ≡ leak_after g (at bands.now) count first start (last - first)) × Fills (pos 0) first last (excite_at g (at bands.now) count first start) out.old out.new }
{
    let mut leak = start;
    for band in first..last {
        leak = leak_step(g, bands, count, band, leak);
        let excite = leak.excite;
        out[band] = excite;
    }
    leak
}

// The same of bands from 7 to 21.
fn middle_excitations(
    out: &mut [i32; 50],
    g: Gains,
    bands: &[i32; 50],
    first: usize,
    last: usize,
    start: Leak,
) -> Leak
    requires { (length out.old ≡ 50) × (first ≤ last) × (last ≤ 50) × ((band : ℕ) → first ≤ band → band < last → (7 ≤ band) × (band < 22)) × Bounded start × Every 15 bands.now }
    ensures { (count : ℕ) → (result ≡ leak_after g (at bands.now) count first start (last - first)) × Fills (pos 0) first last (excite_at g (at bands.now) count first start) out.old out.new }
{
    let mut leak = start;
    for band in first..last {
        leak = middle_step(g, bands, band, leak);
        let excite = leak.excite;
        out[band] = excite;
    }
    leak
}

// From band 22 on there is no compensation, and the leaks merely fall: a loop of its own, which carries only the two.
fn high_excitations(
    out: &mut [i32; 50],
    g: Gains,
    bands: &[i32; 50],
    first: usize,
    last: usize,
    start: Leak,
)
    requires { (length out.old ≡ 50) × (first ≤ last) × (last ≤ 50) × ((band : ℕ) → first ≤ band → band < last → 22 ≤ band) × Bounded start × Every 15 bands.now }
    ensures { Fills (pos 0) first last (excite_at g (at bands.now) last first start) out.old out.new }
{
    let mut leak = start;
    for band in first..last {
        leak = fall_leak(g, bands[band], leak.low, 0, leak);
        let excite = leak.excite;
        out[band] = excite;
    }
}

// The excitation of the bands from first up to last.
pub fn excitations(
    out: &mut [i32; 50],
    g: Gains,
    bands: &[i32; 50],
    first: usize,
    last: usize,
    start: Leak,
)
    requires { (length out.old ≡ 50) × (first ≤ last) × (last ≤ 50) × Bounded start × Every 15 bands.now }
    ensures { Fills (pos 0) first last (excite_at g (at bands.now) last first start) out.old out.new }
{
    let low = last.min(first.max(7));
    let middle = last.min(first.max(22));
    let leak = low_excitations(&mut *out, g, bands, first, low, last, start);
    let next = middle_excitations(&mut *out, g, bands, low, middle, leak);
    high_excitations(&mut *out, g, bands, middle, last, next);
}

// The state before the first band.
pub fn leak_before(p: &Parameters) -> Leak
    requires { SoundParameters p.now }
    ensures { (result ≡ leak_before p.now) × Bounded result }
{
    Leak {
        fast: p.fastleak,
        slow: p.slowleak,
        low: 0,
        excite: 0,
        risen: false,
    }
}
