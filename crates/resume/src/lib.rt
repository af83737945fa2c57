// A kept run goes on (document 02, c): its tests, and its windows from where a slot says that it stood.
//
// `go_on_from` is for crate keep, which finds the slot, and has a `requires`: a slot that is in use. Its contract is an
// equation with specs/Served.antt of crate calls. specs/Resume.antt names what the function below it asks and leaves.
#![tactic(auto)]

ghost use Rattle.std.specs.Prelude.{◌≡◌, ◌≢◌, ◌<◌};
ghost use Rattle.std.proofs.Math.Option.{some};
ghost use Rattle.benettin.specs.Estimate as Estimate;
ghost use Rattle.benettin.specs.Outputs as Outputs;
ghost use Rattle.store.specs.Slots as Slots;
ghost use Rattle.calls.specs.Calls as Calls;
ghost use Rattle.calls.specs.Served as Served;
ghost use Rattle.resume.specs.Resume as Resume;

use benettin::{BenettinConfig, OutputLengths, RefusedRun, SpectrumEstimate};
use system::System;

// The run of a slot, taken up and completed.
fn complete_from(
    floats: &[f64; 2568],
    counts: &[u64; 152],
    slot: usize,
    system: System,
    matrix: &[f64],
    state: &mut [f64],
    tangents: &mut [f64],
    norms: &mut [f64; 32],
    config: BenettinConfig,
    rows: &mut [f64],
    exponents: &mut [f64],
    final_state: &mut [f64],
) -> Result<SpectrumEstimate, RefusedRun>
    requires { Resume.Resumes system matrix.now state.old tangents.old rows.old exponents.old final_state.old config slot (Slots.memory floats.now counts.now) }
    ensures { Outputs.observed result rows.new exponents.new final_state.new
        ≡ Resume.resumed_outputs system matrix.now rows.old exponents.old final_state.old config slot (Slots.memory floats.now counts.now) }
{
    let from = store::load(floats, counts, slot, state, tangents, norms, config.top_k);
    let total = from.windows + config.windows;
    let done = estimator::estimate::complete(
        system,
        matrix,
        state,
        tangents,
        norms,
        rows,
        exponents,
        final_state,
        config,
        total,
        from,
    )?;
    Ok(done.estimate)
}

// Goes on from a slot that is in use, once the tests are passed.
pub fn go_on_from(
    floats: &[f64; 2568],
    counts: &[u64; 152],
    slot: usize,
    system: System,
    matrix: &[f64],
    time: f64,
    state: &[f64],
    config: BenettinConfig,
    rows: &mut [f64],
    exponents: &mut [f64],
    final_state: &mut [f64],
) -> Result<SpectrumEstimate, RefusedRun>
    requires { (slot < 8) × (Slots.tag_at slot (Slots.memory floats.now counts.now) ≢ 0) }
    ensures { Outputs.observed result rows.new exponents.new final_state.new
        ≡ Served.go_on_from (some slot) (Calls.brought (Estimate.input system matrix.now time state.now config) config.top_k
        rows.old exponents.old final_state.old) (Slots.memory floats.now counts.now) }
{
    let windows = store::windows_at(counts, slot);
    let lengths = OutputLengths::of(rows, exponents, final_state);
    continuation::validate_later(system, matrix, time, state, config, windows, lengths)?;
    let d = state.len();
    let kd = config.top_k * d;
    let mut moving = [0.0; 16];
    let mut tangents = [0.0; 256];
    let mut norms = [0.0; 32];
    complete_from(
        floats,
        counts,
        slot,
        system,
        matrix,
        &mut moving[..d],
        &mut tangents[..kd],
        &mut norms,
        config,
        rows,
        exponents,
        final_state,
    )
}
