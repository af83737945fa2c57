// Systems of fixed dimension: all loops have the width 3, so that a vector stays in registers. In dimension 2 the third place is
// computed and dropped.
ghost use Rattle.std.specs.Prelude.{◌≡◌, ◌*◌, ◌<◌, List, [], length, get_or, Float};
ghost use Rattle.stepper.specs.Stepper.{rk4, moved};
ghost use Rattle.system.specs.System.{dim, field, tangent};
ghost use Rattle.system.specs.Array.{in16};
ghost use Rattle.system.specs.Evaluation.{Fixed};
ghost use Rattle.rk4.specs.Step.{advance};
ghost use Rattle.rk4.specs.Stages.{Pointed, Advances, along};

use crate::arrays;
use system::{System, fixed};

// The state, and its stage points.
fn advance_state(system: System, state: &mut [f64], h: f64) -> [[f64; 16]; 4]
    requires { Fixed system × (length state.old ≡ dim system) }
    ensures { (m : List Float) → (state.new ≡ (advance system m h state.old).0) × Pointed system m h state.old result }
{
    let x1 = arrays::zero_padded::<3>(state);
    let advanced = stepper::advance::<3, _>(
        |_, x|
            requires { Fixed system }
            ensures { (m : List Float) → result ≡ in16 (field system m x.now) }
        { fixed::fixed_field(system, x) },
        x1,
        h,
    );
    arrays::copy_front::<3>(state, advanced.next);
    advanced.points
}

// One direction, with the stage points of the state.
fn advance_direction(system: System, points: &[[f64; 16]; 4], t: &mut [f64], h: f64)
    requires { Fixed system × (length t.old ≡ dim system) }
    ensures { (m : List Float) → t.new ≡ moved (rk4 h) (along system m points.now) t.old }
{
    let t1 = arrays::zero_padded::<3>(t);
    let advanced = stepper::advance::<3, _>(
        |stage, v|
            requires { Fixed system × (stage < 4) }
            ensures { (m : List Float) → result ≡ in16 (tangent system m (get_or points.entry.now stage []) v.now) }
        { fixed::fixed_tangent(system, &points[stage], v) },
        t1,
        h,
    );
    arrays::copy_front::<3>(t, advanced.next);
}

// The state and every direction.
pub fn advance_fixed(system: System, state: &mut [f64], tangents: &mut [f64], count: usize, h: f64)
    requires { Fixed system × (length state.old ≡ dim system) × (length tangents.old ≡ count * dim system) }
    ensures { (m : List Float) → Advances system m h state.old tangents.old count state.new tangents.new }
{
    let d = state.len();
    let points = advance_state(system, state, h);
    arrays::for_each_vector(
        tangents,
        d,
        count,
        |t| advance_direction(system, &points, t, h),
    );
}
