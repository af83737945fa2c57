// The steps of a window, up to the first that is refused.
ghost use Rattle.std.specs.Prelude.{◌≡◌, true, ◌*◌, length};
ghost use Rattle.std.specs.Float.Ieee.Scale.{finite};
ghost use Rattle.system.specs.System.{dim};
ghost use Rattle.rk4.specs.Tests as Tests;
ghost use Rattle.progress.specs.UnderWay as Under;

use benettin::BenettinConfig;
use error::LyapunovError;
use system::System;

// Why a step is refused, and how many were made before it. Steps know of no windows, so it is no `RefusedRun`.
#[derive(Clone, Copy)]
pub struct RefusedStep {
    pub error: LyapunovError,
    pub made: u64,
}

// Makes so many steps of a window from the time `start` on, up to the first that is refused. Answers the time after them.
pub fn advance_steps(
    system: System,
    matrix: &[f64],
    state: &mut [f64],
    tangents: &mut [f64],
    config: BenettinConfig,
    steps: u64,
    start: f64,
) -> Result<f64, RefusedStep>
    requires { Tests.Passed system matrix.now state.old config.top_k config.step_size × (length tangents.old ≡ config.top_k * dim system) × (finite start ≡ true) }
    ensures { Under.Advanced system matrix.now config steps start state.old tangents.old state.new tangents.new result }
{
    let k = config.top_k;
    let h = config.step_size;
    let mut time = start;
    for made in 0..steps {
        if let Err(error) = rk4::passed::step(system, matrix, state, tangents, k, h) {
            return Err(RefusedStep { error, made });
        }
        let next = time + h;
        if !floats::is_finite(next) {
            let error = LyapunovError::InvalidTime;
            return Err(RefusedStep { error, made });
        }
        time = next;
    }
    Ok(time)
}
