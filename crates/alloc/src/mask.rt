// 6.2.2.5 and 6.2.2.6: the masking curve, and what delta segments add to it.
ghost use Rattle.std.specs.Prelude.{◌≡◌, ℕ, ◌≤◌, ◌<◌, pos, ◌+ℤ◌, length};
ghost use Rattle.signed.specs.Level.{max_z};
ghost use Rattle.signed.specs.Bound.{Below};
ghost use Rattle.alloc.specs.Allocation.{at, over_knee, delta_of, delta_sum};
ghost use Rattle.alloc.specs.Sound.{Every};
ghost use Rattle.alloc.specs.Fills.{Fills};

// 6.2.2.5: a band below the knee is masked by more.
fn over_knee(excite: i32, here: i32, knee: u16) -> i32
    requires { Below 18 excite × Below 15 here }
    ensures { result ≡ over_knee excite here knee }
{
    let k = knee as i32;
    if here < k {
        excite + ((k - here) >> 2)
    } else {
        excite
    }
}

// 6.2.2.5: the mask of a band; no mask is below the hearing threshold.
pub fn mask_of(excite: i32, here: i32, knee: u16, quiet: u16) -> i32
    requires { Below 18 excite × Below 15 here }
    ensures { result ≡ max_z (over_knee excite here knee) (pos quiet) }
{
    over_knee(excite, here, knee).max(quiet as i32)
}

// 6.2.2.6: what a code adds.
fn delta_of(code: u8) -> i32
    ensures { (result ≡ delta_of code) × Below 16 result }
{
    match code {
        0..=3 => (code as i32 - 4) << 7,
        _ => (code as i32 - 3) << 7,
    }
}

// 6.2.2.6: a segment adds to each of its bands.
fn add_delta(out: &mut [i32; 50], first: usize, last: usize, delta: i32)
    requires { (length out.old ≡ 50) × (last ≤ 50) × Below 16 delta × Every 20 out.old }
    ensures { Fills (pos 0) first last (λ j. at out.old j +ℤ delta) out.old out.new }
{
    for band in first..last {
        out[band] += delta;
    }
}

// 6.2.2.6: what the segments add to each band. A segment is three bytes: offset, length, code. Segments start at band 0; bands
// past the last one are passed over.
pub fn deltas(segments: &[u8; 24], count: usize) -> [i32; 50]
    requires { count ≤ 8 }
    ensures { ((band : ℕ) → band < 50 → at result band ≡ delta_sum segments.now band count) × Every 20 result }
{
    let mut out = [0; 50];
    let mut from = 0;
    for n in 0..count {
        let first = from + usize::from(segments[n * 3]);
        let last = first + usize::from(segments[n * 3 + 1]);
        add_delta(&mut out, first, last.min(50), delta_of(segments[n * 3 + 2]));
        from = last;
    }
    out
}
