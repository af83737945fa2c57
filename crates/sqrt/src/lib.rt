// IEEE 754's squareRoot on binary64, rounded to nearest, by whole numbers.
//
// `sqrt` equals the definition of specs/SquareRoot.antt for every input. That file also states what the standard asks of
// a root, over whole numbers. specs/OneRoot.antt states that the definition meets it, that nothing else does, and that the
// root of a positive finite value is finite and above 2^-1022. There is no array (document 02, e): host/rodata tests it. The parts
// ask for a significand, from 2^52 up to 2^53, and the parity of an exponent as a number that they compute with.
#![tactic(auto)]

ghost use Rattle.std.specs.Prelude.{◌≡◌, ◌+◌, ◌*◌, ◌^◌, ◌≤◌, ◌<◌, T, Float};
ghost use Rattle.std.specs.Float.{binary64};
ghost use Rattle.std.specs.Float.Ieee.{of_bits, fits};
ghost use Rattle.sqrt.specs.SquareRoot as Spec;

// The whole square root of a number n, and n - root^2.
#[derive(Clone, Copy)]
struct WholeRoot {
    pub root: u64,
    pub rest: u64,
}

// Near the root of a * (1 + odd): a cubic polynomial fitted to the root for a from 2^52 to 2^53, times 1 or the root of 2.
// Nothing rests on how near it is.
fn guess(a: u64, odd: u64) -> u64
    requires { (2 ^ 52 ≤ a) × (a < 2 ^ 53) × (odd ≤ 1) }
    ensures { (2 ^ 25 ≤ result) × (result < 2 ^ 28) }
{
    let t = a / 2097152;
    let square = t * t / 4294967296;
    let low = 794475297 + 1692052260 * t / 2147483648;
    let high = 392447558 - 53552716 * t / 2147483648;
    (low - high * square / 1073741824) * (67108864 + odd * 27797402) / 2147483648
}

// The whole root of n = a * (1 + odd). One Newton step from any guess is not below the root. The guess is so near that
// the loop runs at most once, which no proof needs.
fn whole_root(a: u64, odd: u64) -> WholeRoot
    requires { (2 ^ 52 ≤ a) × (a < 2 ^ 53) × (odd ≤ 1) }
    ensures { (result.root * result.root + result.rest ≡ a * (1 + odd))
        × (result.rest ≤ 2 * result.root) × (2 ^ 26 ≤ result.root) × (result.root < 2 ^ 27) }
{
    let n = a * (1 + odd);
    let g = guess(a, odd);
    let mut r = (g + n / g) / 2;
    while n < r * r {
        r -= 1;
    }
    WholeRoot {
        root: r,
        rest: n - r * r,
    }
}

// 27 binary digits more, of zeros, by one division (Zimmermann's step): the quotient is the next digits, or one above
// them.
fn longer_root(g: u64, d: u64) -> WholeRoot
    requires { (d ≤ 2 * g) × (2 ^ 26 ≤ g) × (g < 2 ^ 27) }
    ensures { (result.root * result.root + result.rest ≡ (g * g + d) * 2 ^ 54)
        × (result.rest ≤ 2 * result.root) × (result.root < 2 ^ 54) }
{
    let t = d * 134217728;
    let q = t / (2 * g);
    let u = t % (2 * g) * 134217728;
    let s = g * 134217728 + q;
    let square = q * q;
    if square <= u {
        let rest = u - square;
        WholeRoot {
            root: s,
            rest: rest,
        }
    } else {
        let root = s - 1;
        let rest = u + root + s - square;
        WholeRoot {
            root: root,
            rest: rest,
        }
    }
}

// The root of x = a * 2^(p - 2096), which is (s / 2) * 2^(p / 2 - 1074) for the root s of a * 2^54 or of twice that.
// s is odd exactly where the root is nearer to (s + 1) / 2 than to (s - 1) / 2, and it is never halfway.
fn scaled_root(a: u64, p: u64) -> f64
    requires { (2 ^ 52 ≤ a) × (a < 2 ^ 53) × (900 ≤ p) × (p < 4000) }
    ensures { (x : Float) → T (fits binary64 x) → Spec.Scaled a p x → result ≡ Spec.root x }
{
    let k = p / 2;
    let w = whole_root(a, p % 2);
    let s = longer_root(w.root, w.rest);
    f64::from_bits(k * floats::EXPONENT_UNIT + (s.root + 1) / 2)
}

// Of a pattern that is a number above zero and no infinity.
fn pattern_root(b: u64) -> f64
    requires { (0 < b) × (b < 0x7ff0_0000_0000_0000) }
    ensures { result ≡ Spec.root (of_bits binary64 b) }
{
    let e = b / floats::EXPONENT_UNIT;
    let t = b % floats::EXPONENT_UNIT;
    if e == 0 {
        let z = u64::leading_zeros(t) as u64 - 11;
        scaled_root(t << z, 1022 - z)
    } else {
        scaled_root(floats::EXPONENT_UNIT + t, e + 1021)
    }
}

// A negative value and a NaN are told apart first, then the ordinary case by two comparisons of the bits.
pub fn sqrt(x: f64) -> f64
    ensures { result ≡ Spec.root x }
{
    // A test ahead of the others is a branch; behind them the compiler makes a choice between two registers of it, for which it
    // keeps a constant of 16 bytes.
    if x < 0.0 {
        return 0.0 / 0.0;
    }
    if x != x {
        return x;
    }
    let b = f64::to_bits(x);
    if 0 < b {
        if b < floats::INFINITY_BITS {
            return pattern_root(b);
        }
    }
    x
}
