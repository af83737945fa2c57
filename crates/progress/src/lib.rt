// A run under way: begin, one window, one measured window with its row. Crate course has the loops over windows, and
// crate estimator the whole run over them. record.rt has what is recorded of a measured window.
//
// These functions are `pub` because other crates of ours go on with a run: each has a `requires`, which says what passed the
// tests and how long the slices are. What a run carries lies in a `Progress` and in three slices: the state, the directions
// one after the other, and their logarithms and squared lengths. They stand side by side: a struct of lent slices needs a ghost
// name for what is left in each, at every function, so a contract would say more and not less. Nothing is allocated. Start with
// totals/specs/Progress.antt, which says which state of a run that stands for, and specs/UnderWay.antt, which says what each
// function leaves: the run itself is defined in crate benettin. draw.rt, advance.rt and crate totals, which has `Progress` and
// the end of a run, have the parts of these functions.
#![tactic(auto)]

mod advance;
mod draw;
pub mod record;

ghost use Rattle.std.specs.Prelude.{◌*◌, ◌+◌, ◌<◌, ◌≤◌, ◌≡◌, length};
ghost use Rattle.benettin.specs.Estimate.{limit};
ghost use Rattle.totals.specs.Progress.{held, carried};
ghost use Rattle.totals.specs.Ending.{most};
ghost use Rattle.progress.specs.UnderWay as Under;

use benettin::{BenettinConfig, RefusedRun};
use error::LyapunovError;
use system::System;
use totals::Progress;

// The directions are drawn and orthonormalised (14), then the duration of a window is tested (15).
pub fn begin(
    state: &[f64],
    tangents: &mut [f64],
    norms: &mut [f64; 32],
    config: BenettinConfig,
    time: f64,
) -> Result<Progress, RefusedRun>
    requires { Under.Begins config time state.now tangents.old }
    ensures { Under.Begun config time state.now tangents.new norms.new result }
{
    draw::initialize_basis(tangents, state.len(), norms, config.seed)?;
    if floats::is_finite(totals::duration(config)) {
        Ok(Progress::new(time))
    } else {
        Err(RefusedRun::from(LyapunovError::InvalidWindowDuration))
    }
}

// One window of so many steps, as a warm-up window is: its steps, the orthonormalisation, the faint counts.
pub fn window(
    system: System,
    matrix: &[f64],
    state: &mut [f64],
    tangents: &mut [f64],
    norms: &mut [f64; 32],
    config: BenettinConfig,
    steps: u64,
    progress: &mut Progress,
) -> Result<(), RefusedRun>
    requires { Under.Fits system matrix.now config most most (held state.old tangents.old norms.old progress.old) × (steps ≤ limit) }
    ensures { Under.Windowed system matrix.now config steps (held state.old tangents.old norms.old progress.old)
        state.new tangents.new norms.new (carried progress.new result) }
{
    let time = match advance::advance_steps(
        system,
        matrix,
        state,
        tangents,
        config,
        steps,
        progress.time,
    ) {
        Ok(time) => time,
        Err(step) => {
            progress.steps += step.made;
            return Err(progress.refused(step.error));
        }
    };
    progress.add_steps(time, steps);
    if let Err(error) = gram_schmidt::modified_gram_schmidt(tangents, state.len(), norms) {
        return Err(progress.refused(error));
    }
    let k = config.top_k;
    let e = k + k;
    progress.count_faint(&norms[k..e]);
    Ok(())
}

// One measured window: the window, the sums, and its row.
pub fn measured_window(
    system: System,
    matrix: &[f64],
    state: &mut [f64],
    tangents: &mut [f64],
    norms: &mut [f64; 32],
    row: &mut [f64],
    config: BenettinConfig,
    progress: &mut Progress,
) -> Result<(), RefusedRun>
    requires { Under.Fits system matrix.now config most most (held state.old tangents.old norms.old progress.old) × (length row.old ≡ 1 + 2 * config.top_k) }
    ensures { Under.MeasuredWindow system matrix.now config (held state.old tangents.old norms.old progress.old) row.old
        state.new tangents.new norms.new row.new (carried progress.new result) }
{
    let steps = config.steps_per_window;
    window(
        system, matrix, state, tangents, norms, config, steps, progress,
    )?;
    record::record_window(norms, row, config, progress);
    Ok(())
}
