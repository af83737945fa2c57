// Binary64 values: tests on one float, the order of total_cmp, the first entry of a slice that is not finite, and copies of a few
// entries.
//
// Each function equals a definition of specs/ for every input. They are written here, on comparisons and bits, a form that the
// project keeps (document 01). proofs/ holds the laws on the toolchain's model of
// IEEE 754 that the crates above cite: values in units of the smallest one (Units), bit patterns (Pattern), one value
// has one form (OneForm), comparisons with zero (Zero), lists entry by entry (Updated) and vectors in a slice
// (Vector). Start with specs/.
#![tactic(auto)]

ghost use Rattle.std.specs.Prelude.{◌≡◌, ◌≤◌, ◌++◌, length, take, drop};
ghost use Rattle.std.specs.Float.{binary64};
ghost use Rattle.std.specs.Float.Ieee.{to_bits};
ghost use Rattle.std.specs.Float.Ieee.Scale.{finite};
ghost use Rattle.floats.specs.Finite.{positive, first_not_finite, index};
ghost use Rattle.floats.specs.Magnitude.{magnitude};
ghost use Rattle.floats.specs.TotalOrder.{rank};

// The bit pattern of +infinity.
pub const INFINITY_BITS: u64 = 0x7ff0_0000_0000_0000;

// That of the least positive normal value, 2^-1022.
pub const LEAST_NORMAL_BITS: u64 = 0x0010_0000_0000_0000;

// 2^52: below it lies the fraction in a bit pattern, and from it on the exponent.
pub const EXPONENT_UNIT: u64 = 0x0010_0000_0000_0000;

// 2^63, the sign in a bit pattern.
pub const SIGN_BIT: u64 = 0x8000_0000_0000_0000;

pub fn is_finite(x: f64) -> bool
    ensures { result ≡ finite x }
{
    let top = f64::from_bits(INFINITY_BITS);
    if x < top { -top < x } else { false }
}

// Finite and above 0.
pub fn is_positive(x: f64) -> bool
    ensures { result ≡ positive x }
{
    if is_finite(x) { 0.0 < x } else { false }
}

// |x|.
pub fn abs(x: f64) -> f64
    ensures { result ≡ magnitude x }
{
    if x < 0.0 {
        return -x;
    }
    if x == 0.0 {
        return 0.0;
    }
    x
}

// The bit pattern of x. Every NaN has one pattern here.
pub fn to_bits(x: f64) -> u64
    ensures { result ≡ to_bits binary64 x }
{
    if x != x {
        0x7ff8_0000_0000_0000
    } else {
        f64::to_bits(x)
    }
}

// The place of x in the order of total_cmp, which compares two such places.
pub fn total_cmp(x: f64) -> u64
    ensures { result ≡ rank x }
{
    let b = to_bits(x);
    if b < SIGN_BIT {
        b + SIGN_BIT
    } else {
        0xffff_ffff_ffff_ffff - b
    }
}

// Each caller has a refusal of its own for it: a test over that would be lent a closure, which is longer than the `match`.
pub fn first_not_finite(xs: &[f64]) -> Option<usize>
    ensures { index result ≡ first_not_finite xs.now }
{
    xs.iter().position(|x| !is_finite(*x))
}

// The first n entries of one slice into another, in pairs: pairs stay whole between two loops (docs/DECISIONS.md, 17), and where
// entries are few no function of the C library is called, which slows what comes after it (43).
pub fn copy_pairs<T: Copy>(out: &mut [T], from: &[T], n: usize)
    requires { (n ≤ length out.old) × (n ≤ length from.now) }
    ensures { out.new ≡ take n from.now ++ drop n out.old }
{
    for pair in 0..n / 2 {
        let i = 2 * pair;
        out[i] = from[i];
        out[i + 1] = from[i + 1];
    }
    if n % 2 == 1 {
        out[n - 1] = from[n - 1];
    }
}
