// The tests of a run, 1 to 13 with 29 behind 4 and 25 behind 8: a function for each block of specs/Estimate.antt and of the end
// of specs/Run.antt. Crate system_validation has the others: the system and what is lent beside it, 2 and 6.
#![tactic(auto, unfolding(error::specs::Tests::first_failing))]

ghost use Rattle.std.specs.Prelude.{◌≡◌, ◌+◌, ◌*◌, List, leb, Float};
ghost use Rattle.error.specs.Refusal.{reported};
ghost use Rattle.error.specs.Tests.{first_failing};
ghost use Rattle.system.specs.System.{dim};
ghost use Rattle.benettin.specs.Run as Run;
ghost use Rattle.benettin.specs.Estimate as Estimate;

use crate::{BenettinConfig, OutputLengths};
use error::LyapunovError;
use system::System;

// The tests 3, 4 and 29.
fn validate_nonzero(steps: u64, windows: u64, transient_steps: u64) -> Result<(), LyapunovError>
    ensures { reported result ≡ first_failing (Estimate.nonzero_tests steps windows transient_steps) }
{
    error::test(0 < steps, LyapunovError::ZeroStepsPerWindow)?;
    error::test(0 < windows, LyapunovError::ZeroWindows)?;
    error::test(
        0 < transient_steps,
        LyapunovError::ZeroStepsPerTransientWindow,
    )
}

// Test 5: the first count over the limit, in the order steps, windows, warm-up, steps of a warm-up window.
fn validate_limits(
    steps: u64,
    windows: u64,
    warm_up: u64,
    transient_steps: u64,
) -> Result<(), LyapunovError>
    ensures { reported result ≡ first_failing (Estimate.limit_tests steps windows warm_up transient_steps) }
{
    error::test(
        steps <= crate::COUNT_LIMIT,
        LyapunovError::CountAboveLimit(0),
    )?;
    error::test(
        windows <= crate::COUNT_LIMIT,
        LyapunovError::CountAboveLimit(1),
    )?;
    error::test(
        warm_up <= crate::COUNT_LIMIT,
        LyapunovError::CountAboveLimit(2),
    )?;
    error::test(
        transient_steps <= crate::COUNT_LIMIT,
        LyapunovError::CountAboveLimit(3),
    )
}

// The tests 1 to 5, with 29 behind 4. The windows of the settings are the last of `total`; any other run than one that goes on
// has the same count twice.
pub fn validate_settings(config: BenettinConfig, total: u64) -> Result<(), LyapunovError>
    ensures { reported result ≡ first_failing (Estimate.config_tests total config) }
{
    let steps = config.steps_per_window;
    let transient_steps = config.steps_per_transient_window;
    error::test(0 < config.top_k, LyapunovError::ZeroTopK)?;
    system_validation::validate_step_size(config.step_size)?;
    validate_nonzero(steps, config.windows, transient_steps)?;
    validate_limits(steps, total, config.transient_windows, transient_steps)
}

// Test 11.
fn validate_finite(state: &[f64]) -> Result<(), LyapunovError>
    ensures { reported result ≡ first_failing (Estimate.finite_tests state.now) }
{
    match floats::first_not_finite(state) {
        Some(i) => Err(LyapunovError::NonFiniteInitialState(i)),
        None => Ok(()),
    }
}

// The tests 10 and 11.
pub fn validate_state(system: System, state: &[f64]) -> Result<(), LyapunovError>
    ensures { reported result ≡ first_failing (Estimate.state_tests system state.now) }
{
    system_validation::validate_length(system, state)?;
    validate_finite(state)
}

// Test 12.
pub fn validate_count(system: System, top_k: usize) -> Result<(), LyapunovError>
    ensures { reported result ≡ first_failing (Run.count_tests top_k (dim system)) }
{
    error::test(
        top_k <= system::dimension(system),
        LyapunovError::InvalidExponentCount,
    )
}

// Whether the rows of so many windows fit. The quotient is compared, since the product may be above 2^64.
fn rows_fit(top_k: usize, windows: u64, rows: usize) -> bool
    ensures { result ≡ leb (windows * (1 + 2 * top_k)) rows }
{
    if windows == 0 {
        return true;
    }
    if rows / 2 < top_k {
        return false;
    }
    windows as usize <= rows / (1 + 2 * top_k)
}

// Test 13.
pub fn validate_outputs(
    system: System,
    top_k: usize,
    windows: u64,
    lengths: OutputLengths,
) -> Result<(), LyapunovError>
    ensures { reported result ≡ first_failing (Run.output_tests top_k (dim system) windows lengths) }
{
    error::test(
        rows_fit(top_k, windows, lengths.rows),
        LyapunovError::OutputTooShort(0),
    )?;
    error::test(top_k <= lengths.exponents, LyapunovError::OutputTooShort(1))?;
    error::test(
        system::dimension(system) <= lengths.state,
        LyapunovError::OutputTooShort(2),
    )
}

// The tests 1 to 8, with 29 behind 4 and 25 behind 8. The windows of the settings are the last of `total`; any other run than
// one that goes on has the same count twice.
pub fn validate_set_up(
    system: System,
    time: f64,
    config: BenettinConfig,
    total: u64,
) -> Result<(), LyapunovError>
    ensures { (matrix state : List Float) → reported result ≡ first_failing (Estimate.set_up_tests total (Estimate.input system matrix time state config) config.top_k) }
{
    validate_settings(config, total)?;
    system_validation::validate_time(time)?;
    system_validation::validate_dimension(system)
}

// The tests 10 to 12.
pub fn validate_start(system: System, state: &[f64], top_k: usize) -> Result<(), LyapunovError>
    ensures { reported result ≡ first_failing (Estimate.start_tests system state.now top_k) }
{
    validate_state(system, state)?;
    validate_count(system, top_k)
}

// The tests 1 to 12.
pub fn validate_input(
    system: System,
    matrix: &[f64],
    time: f64,
    state: &[f64],
    config: BenettinConfig,
    total: u64,
) -> Result<(), LyapunovError>
    ensures { reported result ≡ first_failing (Run.input_tests (Estimate.problem_within total (Estimate.input system matrix.now time state.now config)) config.top_k) }
{
    validate_set_up(system, time, config, total)?;
    system_validation::validate_matrix(system, matrix)?;
    validate_start(system, state, config.top_k)
}

// The tests 1 to 13.
pub fn validate(
    system: System,
    matrix: &[f64],
    time: f64,
    state: &[f64],
    config: BenettinConfig,
    total: u64,
    lengths: OutputLengths,
) -> Result<(), LyapunovError>
    ensures { reported result ≡ first_failing
        (Run.run_tests (Estimate.problem_within total (Estimate.input system matrix.now time state.now config)) config.top_k lengths) }
{
    validate_input(system, matrix, time, state, config, total)?;
    validate_outputs(system, config.top_k, config.windows, lengths)
}
