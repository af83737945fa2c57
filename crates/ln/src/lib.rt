// The natural logarithm of a positive normal binary64 value, by document 01's list of operations.
//
// `ln` equals the definition of specs/Logarithm.antt for every input, and refuses (24) whatever is not positive, normal
// and finite. specs/OneSplit.antt states that the sentence "write z = m * 2^k" has exactly one solution, the one that the
// definition computes. There is no array, and each constant stands once, in `series` (document 02, e): host/rodata tests it.
#![tactic(auto)]

ghost use Rattle.std.specs.Prelude.{◌≡◌, T};
ghost use Rattle.error.specs.Refusal.{answer};
ghost use Rattle.ln.specs.Logarithm as Spec;

use error::LyapunovError;

// The logarithm of m * 2^k, for m near 1.
fn series(m: f64, k: f64) -> f64
    ensures { result ≡ Spec.series m k }
{
    let f = m - 1.0;
    let q = 0.5 * f * f;
    let s = f / (2.0 + f);
    let z2 = s * s;
    let w = z2 * z2;
    let l1 = f64::from_bits(0x3fe5555555555593);
    let l2 = f64::from_bits(0x3fd999999997fa04);
    let l3 = f64::from_bits(0x3fd2492494229359);
    let l4 = f64::from_bits(0x3fcc71c51d8e78af);
    let l5 = f64::from_bits(0x3fc7466496cb03de);
    let l6 = f64::from_bits(0x3fc39a09d078c69f);
    let l7 = f64::from_bits(0x3fc2f112df3e5244);
    let t1 = w * (l2 + w * (l4 + w * l6));
    let t2 = z2 * (l1 + w * (l3 + w * (l5 + w * l7)));
    let r = t2 + t1;
    let high = f64::from_bits(0x3fe62e42fee00000);
    let low = f64::from_bits(0x3dea39ef35793c76);
    s * (q + r) + k * low - q + f + k * high
}

fn normal_ln(z: f64) -> f64
    requires { T (Spec.normal z) }
    ensures { result ≡ Spec.log z }
{
    let b = f64::to_bits(z) + 0x0009_5f62_0000_0000;
    let m = f64::from_bits(b % floats::EXPONENT_UNIT + 0x3fe6_a09e_0000_0000);
    let k = (b / floats::EXPONENT_UNIT) as i32 - 1023;
    series(m, k as f64)
}

pub fn ln(z: f64) -> Result<f64, LyapunovError>
    ensures { answer result ≡ Spec.logarithm z }
{
    if z >= f64::from_bits(floats::LEAST_NORMAL_BITS) {
        if z < f64::from_bits(floats::INFINITY_BITS) {
            return Ok(normal_ln(z));
        }
    }
    Err(LyapunovError::LogarithmDomain)
}
