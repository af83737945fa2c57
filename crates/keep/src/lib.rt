// Runs kept under a number (document 02, c): empty, keep, go on, forget.
//
// The store is memory that the caller lends, two arrays whose types say their lengths. The contracts are equations with
// specs/Served.antt of crate calls, which says what a call answers and leaves in memory, whatever the memory holds; crate
// calls states what follows over lists of calls. Crate store has the slots, crate estimator the run, crate resume the going on
// from a slot.
#![tactic(auto)]

ghost use Rattle.std.specs.Prelude.{◌≡◌, ◌<◌, replicate};
ghost use Rattle.std.proofs.Math.Option.{some};
ghost use Rattle.error.specs.Refusal.{reported};
ghost use Rattle.benettin.specs.Estimate as Estimate;
ghost use Rattle.benettin.specs.Outputs as Outputs;
ghost use Rattle.store.specs.Slots as Slots;
ghost use Rattle.calls.specs.Calls as Calls;
ghost use Rattle.calls.specs.Served as Served;

use benettin::{BenettinConfig, RefusedRun, SpectrumEstimate};
use error::LyapunovError;
use system::System;

// ---- a store with nothing kept: a call of C, as a dispatcher's is to be

pub fn empty(counts: &mut [u64; 152])
    ensures { counts.new ≡ replicate 152 0 }
{
    *counts = [0; 152];
}

// ---- keeping

// Runs, and lays the run down in a slot unless it is refused.
fn keep_at(
    floats: &mut [f64; 2568],
    counts: &mut [u64; 152],
    slot: usize,
    number: u8,
    system: System,
    matrix: &[f64],
    time: f64,
    state: &[f64],
    config: BenettinConfig,
    rows: &mut [f64],
    exponents: &mut [f64],
    final_state: &mut [f64],
) -> Result<SpectrumEstimate, RefusedRun>
    requires { slot < 8 }
    ensures { Served.served (Calls.ran (Outputs.observed result rows.new exponents.new final_state.new)) (Slots.memory floats.new counts.new)
        ≡ Served.keep_in (some slot) number (Calls.brought (Estimate.input system matrix.now time state.now config) config.top_k
        rows.old exponents.old final_state.old) (Slots.memory floats.old counts.old) }
{
    let mut moving = [0.0; 16];
    let mut tangents = [0.0; 256];
    let mut norms = [0.0; 32];
    let done = estimator::estimate::run_in(
        system,
        matrix,
        time,
        state,
        config,
        &mut moving,
        &mut tangents,
        &mut norms,
        rows,
        exponents,
        final_state,
    )?;
    let k = config.top_k;
    let d = state.len();
    let kd = k * d;
    store::save(
        floats,
        counts,
        slot,
        number,
        &moving[..d],
        &tangents[..kd],
        &norms,
        k,
        &done.progress,
    );
    Ok(done.estimate)
}

// A run as `estimate_spectrum_at` makes it, kept under a number unless it is refused.
pub fn keep(
    floats: &mut [f64; 2568],
    counts: &mut [u64; 152],
    number: u8,
    system: System,
    matrix: &[f64],
    time: f64,
    state: &[f64],
    config: BenettinConfig,
    rows: &mut [f64],
    exponents: &mut [f64],
    final_state: &mut [f64],
) -> Result<SpectrumEstimate, RefusedRun>
    ensures { Served.served (Calls.ran (Outputs.observed result rows.new exponents.new final_state.new)) (Slots.memory floats.new counts.new)
        ≡ Served.serve (Slots.memory floats.old counts.old) (Calls.keep number (Calls.brought (Estimate.input system matrix.now time state.now config) config.top_k
        rows.old exponents.old final_state.old)) }
{
    let slot = store::slot_for(floats, counts, number).ok_or(LyapunovError::StoreFull)?;
    keep_at(
        floats,
        counts,
        slot,
        number,
        system,
        matrix,
        time,
        state,
        config,
        rows,
        exponents,
        final_state,
    )
}

// ---- going on

// Goes on from what is kept under a number, for the windows of the settings. The store stays as it is. C lends this call what it
// lends `keep`, so the two have one shape.
pub fn go_on(
    floats: &[f64; 2568],
    counts: &[u64; 152],
    number: u8,
    system: System,
    matrix: &[f64],
    time: f64,
    state: &[f64],
    config: BenettinConfig,
    rows: &mut [f64],
    exponents: &mut [f64],
    final_state: &mut [f64],
) -> Result<SpectrumEstimate, RefusedRun>
    ensures { Served.served (Calls.ran (Outputs.observed result rows.new exponents.new final_state.new)) (Slots.memory floats.now counts.now)
        ≡ Served.serve (Slots.memory floats.now counts.now) (Calls.go_on number (Calls.brought (Estimate.input system matrix.now time state.now config) config.top_k
        rows.old exponents.old final_state.old)) }
{
    let slot = store::slot_of(floats, counts, number).ok_or(LyapunovError::NoSuchNumber)?;
    resume::go_on_from(
        floats,
        counts,
        slot,
        system,
        matrix,
        time,
        state,
        config,
        rows,
        exponents,
        final_state,
    )
}

// ---- forgetting

// Forgets what is kept under a number.
pub fn forget(
    floats: &[f64; 2568],
    counts: &mut [u64; 152],
    number: u8,
) -> Result<(), LyapunovError>
    ensures { Served.served (Calls.told (reported result)) (Slots.memory floats.now counts.new) ≡ Served.serve (Slots.memory floats.now counts.old) (Calls.forget number) }
{
    let forgotten = store::slot_of(floats, counts, number).ok_or(LyapunovError::NoSuchNumber)?;
    counts[19 * forgotten] = 0;
    Ok(())
}
