// The tests of a step: 19, and all of them in their order (specs/Tests.antt). Crate system_validation has the others.
#![tactic(auto, unfolding(error::specs::Tests::first_failing))]

ghost use Rattle.std.specs.Prelude.{◌≡◌, ◌≤◌};
ghost use Rattle.error.specs.Refusal.{reported};
ghost use Rattle.error.specs.Tests.{first_failing};
ghost use Rattle.system.specs.System.{dim};
ghost use Rattle.rk4.specs.Tests.{tangent_tests, step_tests};

use error::LyapunovError;
use system::System;

// Test 19.
fn validate_tangents(system: System, tangents: &[f64], count: usize) -> Result<(), LyapunovError>
    requires { dim system ≤ 16 }
    ensures { reported result ≡ first_failing (tangent_tests system tangents.now count) }
{
    if count > 16 {
        return Err(LyapunovError::TangentMismatch);
    }
    let filled = tangents.len() == count * system::dimension(system);
    error::test(filled, LyapunovError::TangentMismatch)
}

// The tests 7, 8, 25, 9, 10, 19, 6, 2, in this order. They are made at each step, so the first refusal returns: to make all of
// them takes up to 4 % of a step more.
pub fn validate_step_inputs(
    system: System,
    matrix: &[f64],
    time: f64,
    state: &[f64],
    tangents: &[f64],
    tangent_count: usize,
    step_size: f64,
) -> Result<(), LyapunovError>
    ensures { reported result ≡ first_failing (step_tests system matrix.now time state.now tangents.now tangent_count step_size) }
{
    system_validation::validate_dimension(system)?;
    system_validation::validate_matrix(system, matrix)?;
    system_validation::validate_length(system, state)?;
    validate_tangents(system, tangents, tangent_count)?;
    system_validation::validate_time(time)?;
    system_validation::validate_step_size(step_size)
}
