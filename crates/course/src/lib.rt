// The loops over windows of a run under way: the warm-up, and the measured windows with their rows.
//
// `warm_up` and `measure` are `pub` because other crates of ours go on with a run: each has a `requires`, as crate progress
// has, and goes by its windows. Start with specs/Course.antt, which says what each leaves: the windows themselves are defined
// in crate benettin. Crate estimator has the whole run over these loops. Nothing is allocated.
#![tactic(auto)]

ghost use Rattle.std.specs.Prelude.{◌*◌, ◌≤◌, ◌+◌, length};
ghost use Rattle.benettin.specs.Estimate.{limit};
ghost use Rattle.totals.specs.Progress.{held, carried};
ghost use Rattle.progress.specs.UnderWay as Under;
ghost use Rattle.course.specs.Course as Course;

use benettin::{BenettinConfig, RefusedRun};
use system::System;
use totals::Progress;

// The warm-up windows of the settings, up to the first that is refused. This loop and that of `measure` stay apart: over a
// closure, which would be lent the slices of both, the contract would be longer than the loops.
pub fn warm_up(
    system: System,
    matrix: &[f64],
    state: &mut [f64],
    tangents: &mut [f64],
    norms: &mut [f64; 32],
    config: BenettinConfig,
    progress: &mut Progress,
) -> Result<(), RefusedRun>
    requires { Under.Fits system matrix.now config limit limit (held state.old tangents.old norms.old progress.old) × (config.transient_windows ≤ limit) × (config.steps_per_transient_window ≤ limit) }
    ensures { Course.WarmedUp system matrix.now config (held state.old tangents.old norms.old progress.old)
        state.new tangents.new norms.new (carried progress.new result) }
{
    let steps = config.steps_per_transient_window;
    for _ in 0..config.transient_windows {
        progress::window(
            system, matrix, state, tangents, norms, config, steps, progress,
        )?;
    }
    Ok(())
}

// The measured windows of the settings, up to the first that is refused: each is lent its row of the rows slice.
pub fn measure(
    system: System,
    matrix: &[f64],
    state: &mut [f64],
    tangents: &mut [f64],
    norms: &mut [f64; 32],
    rows: &mut [f64],
    config: BenettinConfig,
    progress: &mut Progress,
) -> Result<(), RefusedRun>
    requires { Under.Fits system matrix.now config (limit + limit) limit (held state.old tangents.old norms.old progress.old) × (config.windows ≤ limit)
        × (config.windows * (1 + 2 * config.top_k) ≤ length rows.old) }
    ensures { Course.MeasuredWindows system matrix.now config (held state.old tangents.old norms.old progress.old) rows.old
        state.new tangents.new norms.new rows.new (carried progress.new result) }
{
    let width = 1 + 2 * config.top_k;
    for w in 0..config.windows {
        let a = w as usize * width;
        let e = a + width;
        let row = &mut rows[a..e];
        progress::measured_window(
            system, matrix, state, tangents, norms, row, config, progress,
        )?;
    }
    Ok(())
}
