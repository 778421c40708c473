// 6.2.2.2: exponents are mapped into psd.
ghost use Rattle.std.specs.Prelude.{◌≡◌, pos, neg_ℤ, ◌≤ℤ◌};
ghost use Rattle.signed.specs.Bound.{Below};
ghost use Rattle.alloc.specs.Allocation.{psd_of};
ghost use Rattle.alloc.specs.Stages.{relative};

// The level of a bin, by its exponent.
pub fn level(exponent: i16) -> i32
    ensures { result ≡ psd_of exponent }
{
    3072 - ((exponent as i32) << 7)
}

// The level of a bin below that of exponent 0. A sum of levels goes by these, and is raised once at its end.
pub fn relative(exponent: i16) -> i32
    requires { (pos 0 ≤ℤ exponent) × (exponent ≤ℤ pos 24) }
    ensures { result ≡ relative exponent }
{
    level(exponent) - 3072
}

// How far the level of a bin is below that of exponent 0.
pub fn drop(exponent: i16) -> i32
    requires { (pos 0 ≤ℤ exponent) × (exponent ≤ℤ pos 24) }
    ensures { (neg_ℤ result ≡ relative exponent) × Below 13 result }
{
    (exponent as i32) << 7
}
