// The tests of a system and of what is lent beside it, 7, 8, 25, 9 and 10, and of the time and size of a step, 6 and 2.
//
// Each function answers the first refusal of a block of specs/Tests.antt, for every input: start reading there. A step that is
// called alone (crate rk4) and a run (crate benettin) both make these tests. proofs/Tests.antt has what a caller needs: what is
// known once a block is passed. Crate system has what they ask of a system: its dimension, and whether matrix and cells fit. A
// test of one line is `error::test` with its own question and refusal.
#![tactic(auto, unfolding(error::specs::Tests::first_failing))]

ghost use Rattle.std.specs.Prelude.{◌≡◌};
ghost use Rattle.error.specs.Refusal.{reported};
ghost use Rattle.error.specs.Tests.{first_failing};
ghost use Rattle.system_validation.specs.Tests.{dimension_tests, matrix_tests, length_tests, time_tests, step_size_tests};

use error::LyapunovError;
use system::System;

// The tests 7, 8 and 25. A step makes them too, so the first refusal returns (docs/DECISIONS.md, 27).
pub fn validate_dimension(system: System) -> Result<(), LyapunovError>
    ensures { reported result ≡ first_failing (dimension_tests system) }
{
    let d = system::dimension(system);
    if d == 0 {
        return Err(LyapunovError::ZeroDimension);
    }
    if d > 16 {
        return Err(LyapunovError::DimensionAboveLimit);
    }
    error::test(system::cells_fit(system), LyapunovError::TooFewCells)
}

// Test 9.
pub fn validate_matrix(system: System, matrix: &[f64]) -> Result<(), LyapunovError>
    ensures { reported result ≡ first_failing (matrix_tests system matrix.now) }
{
    error::test(
        system::matrix_fits(system, matrix),
        LyapunovError::MatrixMismatch,
    )
}

// Test 10.
pub fn validate_length(system: System, state: &[f64]) -> Result<(), LyapunovError>
    ensures { reported result ≡ first_failing (length_tests system state.now) }
{
    error::test(
        state.len() == system::dimension(system),
        LyapunovError::StateMismatch,
    )
}

// Test 6.
pub fn validate_time(time: f64) -> Result<(), LyapunovError>
    ensures { reported result ≡ first_failing (time_tests time) }
{
    error::test(floats::is_finite(time), LyapunovError::InvalidInitialTime)
}

// Test 2.
pub fn validate_step_size(step_size: f64) -> Result<(), LyapunovError>
    ensures { reported result ≡ first_failing (step_size_tests step_size) }
{
    error::test(
        floats::is_positive(step_size),
        LyapunovError::InvalidStepSize,
    )
}
