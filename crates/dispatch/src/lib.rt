// Several circuits on one worker (document 02, f): an empty dispatcher, hand in, next, turn.
//
// The dispatcher is memory that the caller lends, four arrays whose types say their lengths. The contracts are equations with
// specs/Served.antt of crate dispatching, which says what a call answers and leaves in memory, whatever the memory holds;
// specs/Dispatched.antt there states what follows over lists of calls. front.rt has the turn of the run in front. Crate
// schedule has the queue, crate store the slots of the runs, crate progress the windows.
#![tactic(auto)]

mod front;

ghost use Rattle.std.specs.Prelude.{◌≡◌, false, ◌<◌, [], get_or, replicate};
ghost use Rattle.floats.specs.Finite.{index};
ghost use Rattle.benettin.specs.Estimate as Estimate;
ghost use Rattle.store.specs.Slots as Slots;
ghost use Rattle.turns.specs.Turn.{slices};
ghost use Rattle.turns.specs.Dispatcher as Dispatcher;
ghost use Rattle.schedule.specs.Schedule as Schedule;
ghost use Rattle.dispatching.specs.Served as Served;
ghost use Rattle.dispatch.specs.Replies as Replies;

use benettin::{BenettinConfig, RefusedRun, SpectrumEstimate};
use error::LyapunovError;
use system::System;

// What a turn did: nothing, since nobody is next; nothing to the run with a name, since what was lent does not fit; one window
// of it; or its last one, with the run's answer. `begun` counts the windows of the run that are begun.
#[derive(Clone, Copy)]
pub enum TurnTaken {
    Nobody,
    Unfit {
        name: usize,
        begun: u64,
        error: LyapunovError,
    },
    UnderWay {
        name: usize,
        begun: u64,
    },
    Over {
        name: usize,
        begun: u64,
        answer: Result<SpectrumEstimate, RefusedRun>,
    },
}

// ---- an empty dispatcher

pub fn empty(queue: &mut [u64; 73])
    ensures { queue.new ≡ replicate 73 0 }
{
    *queue = [0; 73];
}

// ---- handing in

// A run that passed its tests is drawn and laid down under a new name, unless it is refused.
fn take_in(
    floats: &mut [f64; 2568],
    counts: &mut [u64; 152],
    settings: &mut [f64; 32],
    queue: &mut [u64; 73],
    system: System,
    time: f64,
    state: &[f64],
    config: BenettinConfig,
) -> Result<usize, LyapunovError>
    requires { Replies.TakesIn (Estimate.input system [] time state.now config) config.top_k (Schedule.memory (Slots.memory floats.old counts.old) settings.old queue.old) }
    ensures { Served.served (Schedule.memory (Slots.memory floats.new counts.new) settings.new queue.new) (Replies.admission result)
        ≡ Served.admitted_in (Replies.drawn_in (Estimate.input system [] time state.now config) config.top_k) (Schedule.memory (Slots.memory floats.old counts.old) settings.old queue.old) }
{
    let k = config.top_k;
    let d = state.len();
    let kd = k * d;
    let mut tangents = [0.0; 256];
    let mut norms = [0.0; 32];
    let begun = progress::begin(state, &mut tangents[..kd], &mut norms, config, time).map_err(
        |refused| refused.error,
    )?;
    let name = schedule::new_name(queue);
    store::save(
        floats,
        counts,
        name,
        name as u8,
        state,
        &tangents[..kd],
        &norms,
        k,
        &begun,
    );
    schedule::save_settings(settings, queue, name, system, config);
    schedule::enqueue(queue, name);
    Ok(name)
}

// A run is handed in to a dispatcher with room for it. Its matrix and outputs come with its turns.
fn admit(
    floats: &mut [f64; 2568],
    counts: &mut [u64; 152],
    settings: &mut [f64; 32],
    queue: &mut [u64; 73],
    system: System,
    time: f64,
    state: &[f64],
    config: BenettinConfig,
) -> Result<usize, LyapunovError>
    requires { get_or queue.old 64 0 < 8 }
    ensures { Served.served (Schedule.memory (Slots.memory floats.new counts.new) settings.new queue.new) (Replies.admission result)
        ≡ Served.received_in false (Estimate.input system [] time state.now config) config.top_k (Schedule.memory (Slots.memory floats.old counts.old) settings.old queue.old) }
{
    benettin::validation::validate_set_up(system, time, config, config.windows)?;
    benettin::validation::validate_start(system, state, config.top_k)?;
    take_in(floats, counts, settings, queue, system, time, state, config)
}

// Hands a run in: where eight are unfinished, no test of it is made.
pub fn hand_in(
    floats: &mut [f64; 2568],
    counts: &mut [u64; 152],
    settings: &mut [f64; 32],
    queue: &mut [u64; 73],
    system: System,
    time: f64,
    state: &[f64],
    config: BenettinConfig,
) -> Result<usize, LyapunovError>
    ensures { Served.served (Schedule.memory (Slots.memory floats.new counts.new) settings.new queue.new) (Replies.admission result)
        ≡ Served.serve_in (Schedule.memory (Slots.memory floats.old counts.old) settings.old queue.old) (Dispatcher.hand_in (Estimate.input system [] time state.now config) config.top_k) }
{
    if queue[64] < 8 {
        admit(floats, counts, settings, queue, system, time, state, config)
    } else {
        Err(LyapunovError::DispatcherFull)
    }
}

// ---- whose turn it is

pub fn next(queue: &[u64; 73]) -> Option<usize>
    ensures { index result ≡ Schedule.next_in queue.now }
{
    schedule::next(queue)
}

// ---- a turn

// The run in front makes one window, with the matrix and the outputs that are lent for it.
pub fn turn(
    floats: &mut [f64; 2568],
    counts: &mut [u64; 152],
    settings: &[f64; 32],
    queue: &mut [u64; 73],
    matrix: &[f64],
    rows: &mut [f64],
    exponents: &mut [f64],
    final_state: &mut [f64],
) -> TurnTaken
    ensures { Replies.TurnReturns result (slices rows.old exponents.old final_state.old) (slices rows.new exponents.new final_state.new)
        (Schedule.memory (Slots.memory floats.new counts.new) settings.now queue.new)
        (Served.serve_in (Schedule.memory (Slots.memory floats.old counts.old) settings.now queue.old)
        (Dispatcher.take_turn matrix.now (slices rows.old exponents.old final_state.old))) }
{
    let Some(slot) = schedule::front(floats, counts, settings, queue) else {
        return TurnTaken::Nobody;
    };
    front::turn_of(
        floats,
        counts,
        settings,
        queue,
        slot,
        matrix,
        rows,
        exponents,
        final_state,
    )
}
