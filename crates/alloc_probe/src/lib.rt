// The bit allocation for callers in Rust and C. It exists to hold the allocation against the original's (compare/alloc), call by call; the
// parser does without it. What `alloc::allocate` requires is tested here, so that any call has an answer.
#![tactic(auto)]

ghost use Rattle.std.specs.Prelude.{cond, ◌&&◌, ◌≡◌};
ghost use Rattle.alloc_probe.specs.Accepted.{start_fits, range_fits, codes_fit, is_exponent, exponents_fit, accepted, parameters_of, table_of, answer};

use alloc::{Gains, Parameters};

// A slot starts at bin 0, and the coupling channel at bin 37 or later.
fn start_fits(start: usize) -> bool
    ensures { result ≡ start_fits start }
{
    start == 0 || 37 <= start
}

fn range_fits(start: usize, end: usize) -> bool
    ensures { result ≡ range_fits start end }
{
    start_fits(start) && end <= 253
}

fn codes_fit(fscod: usize, csnroffst: u8, fsnroffst: u8, count: usize, which: u8) -> bool
    ensures { result ≡ codes_fit fscod csnroffst fsnroffst count which }
{
    fscod <= 2 && csnroffst <= 63 && fsnroffst <= 15 && count <= 8 && which <= 1
}

fn is_exponent(e: i16) -> bool
    ensures { result ≡ is_exponent e }
{
    (0..=24).contains(&e)
}

// Whether all 256 exponents are from 0 to 24. A frame's are, outside the range too, and so `alloc::allocate` requires it. There is no way out
// of the loop but its end, so that many exponents are tested at once.
fn exponents_fit(exponents: &[i16; 256]) -> bool
    ensures { result ≡ exponents_fit exponents.now }
{
    let mut fit = true;
    for bin in 0..256 {
        fit = is_exponent(exponents[bin]) && fit;
    }
    fit
}

// The table of pointers that a call chooses.
fn table_of(which: u8) -> &'static [u8; 64]
    ensures { result.now ≡ table_of which }
{
    if which == 0 {
        tables::bit_allocation_pointers()
    } else {
        tables::high_efficiency_pointers()
    }
}

// The pointers of the bins from start up to end, by Table 6.16 (which 0) or by that of E.2.4.3.1 (which 1), and 0 for every other bin, of a
// call that `accepted` has; of any other call the answer is false, and nothing is written.
#[unsafe(no_mangle)]
pub extern "C" fn ferrysprig_allocate(
    exponents: &[i16; 256],
    start: usize,
    end: usize,
    sdcycod: u8,
    fdcycod: u8,
    sgaincod: u8,
    dbpbcod: u8,
    floorcod: u8,
    fgaincod: u8,
    fscod: usize,
    csnroffst: u8,
    fsnroffst: u8,
    fastleak: u16,
    slowleak: u16,
    segments: &[u8; 24],
    count: usize,
    out: &mut [u8; 256],
    which: u8,
) -> bool
    ensures { (result ≡ accepted exponents.now start end fscod csnroffst fsnroffst count which) × (out.new ≡ cond result (answer which exponents.now (parameters_of start end sdcycod fdcycod sgaincod dbpbcod floorcod fgaincod fscod csnroffst fsnroffst fastleak slowleak segments.now count)) out.old) }
{
    if !range_fits(start, end) {
        return false;
    }
    if !codes_fit(fscod, csnroffst, fsnroffst, count, which) {
        return false;
    }
    if !exponents_fit(exponents) {
        return false;
    }
    let gains = Gains {
        fdecay: tables::fast_decay(fdcycod),
        sdecay: tables::slow_decay(sdcycod),
        fgain: tables::fast_gain(fgaincod),
        sgain: tables::slow_gain(sgaincod),
    };
    let parameters = Parameters {
        start,
        end,
        gains,
        fastleak: fastleak as i32,
        slowleak: slowleak as i32,
        dbknee: tables::db_knee(dbpbcod),
        fscod,
        segments: *segments,
        count,
        snroffset: alloc::snr_offset(csnroffst, fsnroffst),
        floor: tables::floor(floorcod),
    };
    *out = alloc::allocate(table_of(which), exponents, parameters);
    true
}
