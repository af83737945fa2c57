// SplitMix64 (source: estimator.rs; also Vigna's public splitmix64.c), and the draw from -1 up to below 1.
//
// The generator goes in by value and comes back in the answer. Each function equals a definition of specs/Mix.antt for
// every input. specs/ExactDraw.antt states that the draw is exactly (n - 2^52) / 2^52, with n the top 53 bits, and its range.
#![tactic(auto)]

ghost use Rattle.std.specs.Prelude.{◌≡◌, ◌*◌, ◌%◌, ◌^◌};
ghost use Rattle.splitmix64.specs.Mix as Spec;

#[derive(Clone, Copy)]
pub struct SplitMix64 {
    pub state: u64,
}

// 2^32, by which a number of 64 bits is taken in halves.
const BASE: u64 = 4294967296;

// a * b, modulo 2^64, by halves of 32 bits: a form that the project keeps (document 01).
fn wrapping_mul(a: u64, b: u64) -> u64
    ensures { result ≡ a * b % 2 ^ 64 }
{
    let a0 = a % BASE;
    let a1 = a / BASE;
    let b0 = b % BASE;
    let b1 = b / BASE;
    let mid = (a1 * b0 % BASE + a0 * b1 % BASE) % BASE;
    let low = a0 * b0;
    low.wrapping_add(mid * BASE)
}

// The state after this one.
pub fn next_state(state: u64) -> u64
    ensures { result ≡ Spec.next_state state }
{
    state.wrapping_add(0x9e37_79b9_7f4a_7c15)
}

// The output of a state.
pub fn mix(state: u64) -> u64
    ensures { result ≡ Spec.mix state }
{
    let a = wrapping_mul(state ^ (state >> 30), 0xbf58_476d_1ce4_e5b9);
    let b = wrapping_mul(a ^ (a >> 27), 0x94d0_49bb_1331_11eb);
    b ^ (b >> 31)
}

// The draw of an output: exactly (n - 2^52) / 2^52, with n its top 53 bits.
pub fn unit(output: u64) -> f64
    ensures { result ≡ Spec.unit output }
{
    let n = (output >> 11) as i64;
    ((n - 4503599627370496) as f64) / 4503599627370496.0
}

impl SplitMix64 {
    pub fn new(seed: u64) -> SplitMix64
        ensures { result ≡ Spec.generator seed }
    {
        SplitMix64 { state: seed }
    }

    pub fn next_u64(self) -> (SplitMix64, u64)
        ensures { result ≡ Spec.next_u64 self }
    {
        let state = next_state(self.state);
        let value = mix(state);
        (SplitMix64 { state }, value)
    }

    pub fn symmetric_unit(self) -> (SplitMix64, f64)
        ensures { result ≡ Spec.symmetric_unit self }
    {
        let (next, output) = self.next_u64();
        let value = unit(output);
        (next, value)
    }
}
