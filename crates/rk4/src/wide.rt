// Any system of up to 16 entries, with all vectors in memory: `system::vector_field` and `system::jacobian_vector_product` are
// called, and the width of a stage point is 16. Linear systems of more than 8 entries and rings are moved here.
//
// The four stages are written out, where fixed.rt and narrow.rt call `stepper::advance`: a derivative is lent here and not
// returned, and a closure took 1.12 to 1.4 of the time. The points are lent one by one: in an array of arrays, as in fixed.rt, a
// ring's step took 1.15 to 1.3 of the time.
//
// One array, k, is lent for each derivative in turn, and its value is what the method takes: four arrays that are lent would
// have to be cleared for every vector, and their values are copied anyway.
ghost use Rattle.std.specs.Prelude.{◌≡◌, ◌*◌, ◌≤◌, List, map, length, Float};
ghost use Rattle.stepper.specs.Stepper.{rk4, moved};
ghost use Rattle.system.specs.System.{dim};
ghost use Rattle.system.specs.Evaluation.{Columns};
ghost use Rattle.rk4.specs.Stages.{Advances, along};

use crate::arrays;
use system::System;

// One direction, with the stage points of the state.
fn advance_direction(
    system: System,
    columns: &[f64],
    points: &[&[f64; 16]; 4],
    t: &mut [f64],
    h: f64,
)
    requires { (length t.old ≡ dim system) × (dim system ≤ 16) }
    ensures { (m : List Float) → Columns system m columns.now → t.new ≡ moved (rk4 h) (along system m (map (λ x. x.now) points.now)) t.old }
{
    let d = t.len();
    let mut t1 = [0.0; 16];
    floats::copy_pairs(&mut t1, t, d);
    let mut k = [0.0; 16];
    system::jacobian_vector_product(system, columns, points[0], &t1, &mut k);
    let k1 = k;
    let t2 = stepper::combine_stage::<16>(t1, k1, 0.5 * h);
    system::jacobian_vector_product(system, columns, points[1], &t2, &mut k);
    let k2 = k;
    let t3 = stepper::combine_stage::<16>(t1, k2, 0.5 * h);
    system::jacobian_vector_product(system, columns, points[2], &t3, &mut k);
    let k3 = k;
    let t4 = stepper::combine_stage::<16>(t1, k3, h);
    system::jacobian_vector_product(system, columns, points[3], &t4, &mut k);
    let k4 = k;
    let next = stepper::rk4_update::<16>(t1, k1, k2, k3, k4, h);
    floats::copy_pairs(t, &next, d);
}

// The state and every direction.
pub fn advance_wide(
    system: System,
    columns: &[f64],
    state: &mut [f64],
    tangents: &mut [f64],
    count: usize,
    h: f64,
)
    requires { (length state.old ≡ dim system) × (dim system ≤ 16) × (length tangents.old ≡ count * dim system) }
    ensures { (m : List Float) → Columns system m columns.now → Advances system m h state.old tangents.old count state.new tangents.new }
{
    let d = state.len();
    let mut x1 = [0.0; 16];
    floats::copy_pairs(&mut x1, state, d);
    let mut k = [0.0; 16];
    system::vector_field(system, columns, &x1, &mut k);
    let k1 = k;
    let x2 = stepper::combine_stage::<16>(x1, k1, 0.5 * h);
    system::vector_field(system, columns, &x2, &mut k);
    let k2 = k;
    let x3 = stepper::combine_stage::<16>(x1, k2, 0.5 * h);
    system::vector_field(system, columns, &x3, &mut k);
    let k3 = k;
    let x4 = stepper::combine_stage::<16>(x1, k3, h);
    system::vector_field(system, columns, &x4, &mut k);
    let k4 = k;
    let next = stepper::rk4_update::<16>(x1, k1, k2, k3, k4, h);
    floats::copy_pairs(state, &next, d);
    let points = [&x1, &x2, &x3, &x4];
    arrays::for_each_vector(tangents, d, count, |t| {
        advance_direction(system, columns, &points, t, h)
    });
}
