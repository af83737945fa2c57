// The classical Runge-Kutta step of a state with its directions (source: Rk4 of system.rs).
//
// `step` equals a definition of specs/ for every input. Read specs/Stepper.antt of crate stepper first: explicit steppers,
// place by place, and the classical one. Then specs/Tests.antt and specs/Step.antt: the tests of a step that is called alone,
// which validation.rt makes, and what it leaves in the two slices. specs/Stages.antt only serves the private functions.
// proofs/Advance.antt and proofs/Tests.antt have what a caller needs: a step keeps every length, and when no test fails.
//
// Crate stepper has the formulas of the method and its four stages. A vector is moved by one of three bodies, by where its
// numbers live: fixed.rt (width 3, in registers), narrow.rt (8, in registers) and wide.rt (16, in memory; any system). A
// method adds its formulas and its stages to crate stepper, and its stages to wide.rt once more; a system adds its formulas to
// crate system: no body is for one system (docs/DEFINITIONS.md has what each would add).
//
// The bodies ask for a dimension of at most 8 or 16, and for slices of as many entries: tests 7 to 10 and 19 come before them, and
// the type of one slice can't say what it has to do with another. The matrix is lent beside the enum of systems, document 01's form.
#![tactic(auto)]

mod arrays;
mod fixed;
mod narrow;
pub mod passed;
pub mod validation;
mod wide;

ghost use Rattle.std.specs.Prelude.{◌≡◌, ◌*◌, length};
ghost use Rattle.system.specs.System.{dim};
ghost use Rattle.rk4.specs.Tests.{Passed};
ghost use Rattle.rk4.specs.Step.{advanced, stepped, observed};
ghost use Rattle.rk4.specs.Stages.{tested_finite};

use error::LyapunovError;
use system::System;

// The state and every direction, by the body that is fastest. A matrix of more than 8 rows is transposed here, so that only a
// step that needs it has room for it. Neither `system` nor `matrix` is lent on to the wide body: what is lent on is copied before
// it is looked at, which takes a third of a small step. So the system is made anew there, and a ring is lent no columns, since it
// reads none. Its arm stands first for speed too (docs/DECISIONS.md, 17).
fn advance_values(
    system: System,
    matrix: &[f64],
    state: &mut [f64],
    tangents: &mut [f64],
    count: usize,
    h: f64,
)
    requires { Passed system matrix.now state.old count h × (length tangents.old ≡ count * dim system) }
    ensures { tested_finite state.new tangents.new ≡ advanced system matrix.now state.old tangents.old count h }
{
    match system {
        System::Lorenz96 { cells, forcing } => {
            let ring = System::Lorenz96 { cells, forcing };
            let none = [0.0; 0];
            wide::advance_wide(ring, &none, state, tangents, count, h);
        }
        System::Linear(d) => {
            if d <= 8 {
                narrow::advance_narrow(matrix, d, state, tangents, count, h);
            } else {
                let mut columns = [0.0; 256];
                matrix::transpose::<16>(matrix, d, &mut columns);
                let linear = System::Linear(d);
                wide::advance_wide(linear, &columns, state, tangents, count, h);
            }
        }
        _ => fixed::advance_fixed(system, state, tangents, count, h),
    }
}

// One step of the state and of `tangent_count` directions, which lie one after the other in `tangents` (source: Rk4::step).
pub fn step(
    system: System,
    matrix: &[f64],
    time: f64,
    state: &mut [f64],
    tangents: &mut [f64],
    tangent_count: usize,
    step_size: f64,
) -> Result<(), LyapunovError>
    ensures { observed result state.new tangents.new ≡ stepped system matrix.now time state.old tangents.old tangent_count step_size }
{
    validation::validate_step_inputs(
        system,
        matrix,
        time,
        state,
        tangents,
        tangent_count,
        step_size,
    )?;
    passed::step(system, matrix, state, tangents, tangent_count, step_size)
}
