// A run that goes on from where a shorter one stood (document 02, c): its tests.
//
// specs/Continuation.antt defines what going on answers and leaves, and states that it is one run, from where the shorter one
// stood. specs/LeadingContinued.antt states it of two calls, and that the first rates hold still there too. Crate keep goes on.
#![tactic(auto)]

ghost use Rattle.std.specs.Prelude.{◌≡◌, ◌+◌, ◌≤◌, leb};
ghost use Rattle.error.specs.Refusal.{reported};
ghost use Rattle.error.specs.Tests.{first_failing};
ghost use Rattle.benettin.specs.Estimate as Estimate;
ghost use Rattle.continuation.specs.Continuation as Spec;

use benettin::{BenettinConfig, OutputLengths};
use error::LyapunovError;
use system::System;

// All windows of a run that goes on after `done`. A count that is over the limit by itself stands for the sum, which may be
// above 2^64: test 5 refuses both.
fn total_windows(done: u64, windows: u64) -> u64
    requires { done ≤ Estimate.limit }
    ensures { leb result Estimate.limit ≡ leb (done + windows) Estimate.limit }
{
    if windows <= benettin::COUNT_LIMIT {
        done + windows
    } else {
        windows
    }
}

// The tests 1 to 13 of a run that goes on after `done` windows.
pub fn validate_later(
    system: System,
    matrix: &[f64],
    time: f64,
    state: &[f64],
    config: BenettinConfig,
    done: u64,
    lengths: OutputLengths,
) -> Result<(), LyapunovError>
    requires { done ≤ Estimate.limit }
    ensures { reported result ≡ first_failing (Spec.later_tests done (Estimate.input system matrix.now time state.now config) config.top_k lengths) }
{
    let total = total_windows(done, config.windows);
    benettin::validation::validate(system, matrix, time, state, config, total, lengths)
}
