// The classical method: its two formulas, at each of the first `WIDTH` places of a vector, and the four stages of a step.
//
// `combine_stage` and `rk4_update` equal a rule of `rk4` at those places, and `advance` equals `moved` and `stage_points`. Start
// reading at specs/Stepper.antt: explicit steppers over any number of stages, and the classical one. specs/Stages.antt only says
// what the derivative that `advance` is lent computes. Only crate rk4 calls these three: it has the bodies that move a state and
// its directions.
//
// Each formula stands once, here, as in specs/Stepper.antt, and the four stages in `advance` and in wide.rt of crate rk4: another
// method adds its own. A width is at most 16, which each function asks: the arrays' length can't name a const parameter where a
// closure is passed. proofs/Entrywise.antt and proofs/Moves.antt hold for any method, proofs/FourStages.antt for this one.
#![tactic(auto)]

ghost use Rattle.std.specs.Prelude.{◌≡◌, ℕ, ◌≤◌, ◌<◌, List, [], ◌∷◌, map, take, length, Float};
ghost use Rattle.stepper.specs.Stepper.{entrywise, stage_points, moved, rk4};
ghost use Rattle.stepper.specs.Stepper as Spec;
ghost use Rattle.stepper.specs.Stages.{Derives};

// What four stages make of a vector: its stage points, each at the front of an array, and the vector a step later. The points of
// a state are computed once and lent to every direction.
#[derive(Clone, Copy)]
pub struct Advanced {
    pub points: [[f64; 16]; 4],
    pub next: [f64; 16],
}

// The point of a stage, from the base and the derivative of the stage before (source: combine_stage). The width is known where
// this is compiled, so that the loop unrolls.
#[inline(always)]
pub fn combine_stage<const WIDTH: usize>(v: [f64; 16], k: [f64; 16], scale: f64) -> [f64; 16]
    requires { WIDTH ≤ 16 }
    ensures { (ks : List (List Float)) → take WIDTH result ≡ entrywise (Spec.combine_stage scale) (map (take WIDTH) (k ∷ ks)) (take WIDTH v) }
{
    let mut out = [0.0; 16];
    for i in 0..WIDTH {
        out[i] = v[i] + scale * k[i];
    }
    out
}

// The update, from the base and all derivatives (source: rk4_update).
#[inline(always)]
pub fn rk4_update<const WIDTH: usize>(
    v: [f64; 16],
    k1: [f64; 16],
    k2: [f64; 16],
    k3: [f64; 16],
    k4: [f64; 16],
    h: f64,
) -> [f64; 16]
    requires { WIDTH ≤ 16 }
    ensures { take WIDTH result ≡ entrywise (rk4 h).update (map (take WIDTH) (k4 ∷ k3 ∷ k2 ∷ k1 ∷ [])) (take WIDTH v) }
{
    let mut out = [0.0; 16];
    for i in 0..WIDTH {
        out[i] = v[i] + (h / 6.0) * (((k1[i] + 2.0 * k2[i]) + 2.0 * k3[i]) + k4[i]);
    }
    out
}

// The vector at the front of `x1` through all stages. `derivative` gives that of a stage, numbered from 0, at its point: stages
// may have maps of their own, as those of a direction do.
#[inline(always)]
pub fn advance<const WIDTH: usize, D: Fn(usize, &[f64; 16]) -> [f64; 16]>(
    derivative: D,
    x1: [f64; 16],
    h: f64,
) -> Advanced
    requires width { WIDTH ≤ 16 }
    requires callable { (stage : ℕ) (x : _) → stage < 4 → length x.now ≡ 16 → D.pre derivative stage x }
    ensures moves { (d : ℕ) (f : ℕ → List Float → List Float) → d ≤ WIDTH → Derives d f (D.post derivative)
        → take d result.next ≡ moved (rk4 h) (f 0 ∷ f 1 ∷ f 2 ∷ f 3 ∷ []) (take d x1) }
    ensures points { (d : ℕ) (g : List Float → List Float) → d ≤ WIDTH → Derives d (λ _. g) (D.post derivative)
        → map (take d) result.points ≡ stage_points (rk4 h).points g [] (take d x1) }
{
    let k1 = derivative(0, &x1);
    let x2 = combine_stage::<WIDTH>(x1, k1, 0.5 * h);
    let k2 = derivative(1, &x2);
    let x3 = combine_stage::<WIDTH>(x1, k2, 0.5 * h);
    let k3 = derivative(2, &x3);
    let x4 = combine_stage::<WIDTH>(x1, k3, h);
    let k4 = derivative(3, &x4);
    let next = rk4_update::<WIDTH>(x1, k1, k2, k3, k4, h);
    let points = [x1, x2, x3, x4];
    Advanced { points, next }
}
