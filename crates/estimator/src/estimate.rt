// The entry points: a run's tests, then its begin, its windows and its end. `complete` and `run_in` are for other crates of ours,
// and have a `requires`.
ghost use Rattle.std.specs.Prelude.{◌*◌, ◌≡◌, length};
ghost use Rattle.floats.specs.Arithmetic.{zero⁺};
ghost use Rattle.benettin.specs.Estimate as Estimate;
ghost use Rattle.benettin.specs.Outputs as Outputs;
ghost use Rattle.benettin.specs.Validation as Validation;
ghost use Rattle.totals.specs.Progress.{held};
ghost use Rattle.estimator.specs.Estimates as Estimates;

use benettin::{BenettinConfig, OutputLengths, RefusedRun, SpectrumEstimate};
use system::System;
use totals::Progress;

// What a run comes to that is not refused: its answer, and what it carries on.
#[derive(Drop)]
pub struct RunEnd {
    pub estimate: SpectrumEstimate,
    pub progress: Progress,
}

// The measured windows of the settings, the last of `total`, from where a run stands, and its end.
pub fn complete(
    system: System,
    matrix: &[f64],
    state: &mut [f64],
    tangents: &mut [f64],
    norms: &mut [f64; 32],
    rows: &mut [f64],
    exponents: &mut [f64],
    final_state: &mut [f64],
    config: BenettinConfig,
    total: u64,
    from: Progress,
) -> Result<RunEnd, RefusedRun>
    requires { Estimates.Completes system matrix.now config total (held state.old tangents.old norms.old from)
        rows.old exponents.old final_state.old }
    ensures { Estimates.Completed system matrix.now config total
        (held state.old tangents.old norms.old from) rows.old exponents.old final_state.old
        state.new tangents.new norms.new rows.new exponents.new final_state.new result }
{
    let mut progress = from;
    course::measure(
        system,
        matrix,
        state,
        tangents,
        norms,
        rows,
        config,
        &mut progress,
    )?;
    let estimate = progress.end(state, exponents, final_state, config, total);
    Ok(RunEnd { estimate, progress })
}

// The run once the tests are passed.
fn run(
    system: System,
    matrix: &[f64],
    time: f64,
    state: &mut [f64],
    tangents: &mut [f64],
    norms: &mut [f64; 32],
    rows: &mut [f64],
    exponents: &mut [f64],
    final_state: &mut [f64],
    config: BenettinConfig,
) -> Result<RunEnd, RefusedRun>
    requires { Validation.Ready config.windows (Estimate.input system matrix.now time state.old config) config.top_k (Outputs.lengths_of rows.old exponents.old final_state.old)
        × (length tangents.old ≡ config.top_k * length state.old) }
    ensures { Estimates.RunDone (Estimate.input system matrix.now time state.old config) config.top_k rows.old exponents.old final_state.old
        state.new tangents.new norms.new rows.new exponents.new final_state.new result }
{
    let mut begun = progress::begin(state, tangents, norms, config, time)?;
    course::warm_up(system, matrix, state, tangents, norms, config, &mut begun)?;
    complete(
        system,
        matrix,
        state,
        tangents,
        norms,
        rows,
        exponents,
        final_state,
        config,
        config.windows,
        begun,
    )
}

// A run with its working memory lent, so that a caller has what it comes to: room for 16 entries of the state, 256 of the
// directions and 32 of their logarithms and squared lengths.
pub fn run_in(
    system: System,
    matrix: &[f64],
    time: f64,
    state: &[f64],
    config: BenettinConfig,
    moving: &mut [f64; 16],
    tangents: &mut [f64; 256],
    norms: &mut [f64; 32],
    rows: &mut [f64],
    exponents: &mut [f64],
    final_state: &mut [f64],
) -> Result<RunEnd, RefusedRun>
    ensures { Estimates.Ran (Estimate.input system matrix.now time state.now config) config.top_k rows.old exponents.old final_state.old
        moving.new tangents.new norms.new rows.new exponents.new final_state.new result }
{
    let lengths = OutputLengths::of(rows, exponents, final_state);
    benettin::validation::validate(system, matrix, time, state, config, config.windows, lengths)?;
    let d = state.len();
    let kd = config.top_k * d;
    moving[..d].copy_from_slice(state);
    run(
        system,
        matrix,
        time,
        &mut moving[..d],
        &mut tangents[..kd],
        norms,
        rows,
        exponents,
        final_state,
        config,
    )
}

// Estimates the leading spectrum from an explicit start time. Rows of 1 + 2 * K floats, one a measured window.
pub fn estimate_spectrum_at(
    system: System,
    matrix: &[f64],
    time: f64,
    state: &[f64],
    config: BenettinConfig,
    rows: &mut [f64],
    exponents: &mut [f64],
    final_state: &mut [f64],
) -> Result<SpectrumEstimate, RefusedRun>
    ensures { Outputs.Meets (Estimate.input system matrix.now time state.now config) config.top_k
        (Outputs.call rows.old exponents.old final_state.old (Outputs.observed result rows.new exponents.new final_state.new)) }
{
    let mut moving = [0.0; 16];
    let mut tangents = [0.0; 256];
    let mut norms = [0.0; 32];
    let done = run_in(
        system,
        matrix,
        time,
        state,
        config,
        &mut moving,
        &mut tangents,
        &mut norms,
        rows,
        exponents,
        final_state,
    )?;
    Ok(done.estimate)
}

// Estimates the leading spectrum from time zero.
pub fn estimate_spectrum(
    system: System,
    matrix: &[f64],
    state: &[f64],
    config: BenettinConfig,
    rows: &mut [f64],
    exponents: &mut [f64],
    final_state: &mut [f64],
) -> Result<SpectrumEstimate, RefusedRun>
    ensures { Outputs.Meets (Estimate.input system matrix.now zero⁺ state.now config) config.top_k
        (Outputs.call rows.old exponents.old final_state.old (Outputs.observed result rows.new exponents.new final_state.new)) }
{
    estimate_spectrum_at(
        system,
        matrix,
        0.0,
        state,
        config,
        rows,
        exponents,
        final_state,
    )
}

// Estimates the largest exponent from time zero, with no warm-up and the default seed.
pub fn estimate_largest(
    system: System,
    matrix: &[f64],
    state: &[f64],
    step_size: f64,
    steps_per_window: u64,
    windows: u64,
    rows: &mut [f64],
    exponents: &mut [f64],
    final_state: &mut [f64],
) -> Result<SpectrumEstimate, RefusedRun>
    ensures { Outputs.Meets (Estimate.input system matrix.now zero⁺ state.now (Estimate.settings 1 step_size steps_per_window windows 0 steps_per_window Estimate.default_seed)) 1
        (Outputs.call rows.old exponents.old final_state.old (Outputs.observed result rows.new exponents.new final_state.new)) }
{
    // Not `BenettinConfig::new`, which makes tests that the run makes too.
    let config = BenettinConfig {
        top_k: 1,
        step_size,
        steps_per_window,
        windows,
        transient_windows: 0,
        steps_per_transient_window: steps_per_window,
        seed: benettin::DEFAULT_SEED,
    };
    estimate_spectrum(system, matrix, state, config, rows, exponents, final_state)
}
