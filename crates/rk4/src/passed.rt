// The step behind its tests, for callers of ours that know them to be passed: a run makes its steps so.
ghost use Rattle.std.specs.Prelude.{◌≡◌, ◌*◌, length};
ghost use Rattle.system.specs.System.{dim};
ghost use Rattle.rk4.specs.Tests.{Passed};
ghost use Rattle.rk4.specs.Step.{advanced, observed};

use error::LyapunovError;
use system::System;

// 16 or 17 by the first entry that is not finite.
pub fn step(
    system: System,
    matrix: &[f64],
    state: &mut [f64],
    tangents: &mut [f64],
    count: usize,
    h: f64,
) -> Result<(), LyapunovError>
    requires { Passed system matrix.now state.old count h × (length tangents.old ≡ count * dim system) }
    ensures { observed result state.new tangents.new ≡ advanced system matrix.now state.old tangents.old count h }
{
    crate::advance_values(system, matrix, state, tangents, count, h);
    if let Some(i) = floats::first_not_finite(state) {
        return Err(LyapunovError::NonFiniteState(i));
    }
    if let Some(i) = floats::first_not_finite(tangents) {
        return Err(LyapunovError::NonFiniteTangent(i));
    }
    Ok(())
}
