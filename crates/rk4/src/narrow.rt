// Linear systems of at most 8 entries: all loops have the width 8, so that a vector stays in registers. The state and
// the directions have the same derivative map, the product with the matrix, and so the same text.
ghost use Rattle.std.specs.Prelude.{◌≡◌, ◌*◌, ◌≤◌, List, length, take, Float};
ghost use Rattle.floats.specs.Vector.{chunks};
ghost use Rattle.matrix.specs.Matrix.{times, Transposed};
ghost use Rattle.stepper.specs.Stepper.{rk4, moved};
ghost use Rattle.rk4.specs.Stages.{Advances, alike};

use crate::arrays;
use system::System;

// The state or a direction.
fn advance_vector(columns: &[f64], d: usize, v: &mut [f64], h: f64)
    requires { (d ≤ 8) × (8 * d ≤ length columns.now) × (length v.old ≡ d) }
    ensures { (m : List Float) → length m ≡ d * d → Transposed 8 d m columns.now → v.new
        ≡ moved (rk4 h) (alike (times (chunks d d m))) v.old }
{
    let x1 = arrays::zero_padded::<8>(v);
    let advanced = stepper::advance::<8, _>(
        |_, x|
            requires { (d ≤ 8) × (8 * d ≤ length columns.now) }
            ensures { (m : List Float) → length m ≡ d * d → Transposed 8 d m columns.entry.now → take d result ≡ times (chunks d d m) (take d x.now) }
        { matrix::product::<8>(columns, d, x) },
        x1,
        h,
    );
    arrays::copy_front::<8>(v, advanced.next);
}

// The state and every direction. The matrix is transposed first, into `columns`.
fn advance_by_columns(
    matrix: &[f64],
    d: usize,
    columns: &mut [f64],
    state: &mut [f64],
    tangents: &mut [f64],
    count: usize,
    h: f64,
)
    requires { (d ≤ 8) × (8 * d ≤ length columns.old) × (length matrix.now ≡ d * d) × (length state.old ≡ d) × (length tangents.old ≡ count * d) }
    ensures { Advances (System.Linear d) matrix.now h state.old tangents.old count state.new tangents.new }
{
    matrix::transpose::<8>(matrix, d, columns);
    advance_vector(columns, d, state, h);
    arrays::for_each_vector(tangents, d, count, |t| advance_vector(columns, d, t, h));
}

// The same with room for the columns. Up to 4 columns have half the room: what is not used has to be cleared too.
pub fn advance_narrow(
    matrix: &[f64],
    d: usize,
    state: &mut [f64],
    tangents: &mut [f64],
    count: usize,
    h: f64,
)
    requires { (d ≤ 8) × (length matrix.now ≡ d * d) × (length state.old ≡ d) × (length tangents.old ≡ count * d) }
    ensures { Advances (System.Linear d) matrix.now h state.old tangents.old count state.new tangents.new }
{
    if d <= 4 {
        let mut columns = [0.0; 32];
        advance_by_columns(matrix, d, &mut columns, state, tangents, count, h);
    } else {
        let mut columns = [0.0; 64];
        advance_by_columns(matrix, d, &mut columns, state, tangents, count, h);
    }
}
