// The turn of the run in front: its tests, its window, and what becomes of the run after it.
ghost use Rattle.std.specs.Prelude.{◌≡◌, ◌++◌, ltb};
ghost use Rattle.std.proofs.Math.Option.{none, some};
ghost use Rattle.error.specs.Refusal.{reported};
ghost use Rattle.error.specs.Tests.{first_failing};
ghost use Rattle.system.specs.System.{dim};
ghost use Rattle.benettin.specs.Run.{output_tests};
ghost use Rattle.system_validation.specs.Tests.{matrix_tests};
ghost use Rattle.totals.specs.Progress.{carried};
ghost use Rattle.store.specs.Slots as Slots;
ghost use Rattle.turns.specs.Turn.{slices, warmed_by};
ghost use Rattle.schedule.specs.Schedule as Schedule;
ghost use Rattle.dispatching.specs.Served as Served;
ghost use Rattle.dispatch.specs.Replies as Replies;
ghost use Rattle.dispatch.specs.Turns as Turns;

use crate::TurnTaken;
use benettin::{OutputLengths, RefusedRun};
use error::LyapunovError;
use schedule::Settings;
use totals::Progress;

// The tests 9 and 13 of a turn.
fn validate_turn(
    settings: Settings,
    matrix: &[f64],
    lengths: OutputLengths,
) -> Result<(), LyapunovError>
    ensures { reported result ≡ first_failing (matrix_tests settings.system matrix.now ++ output_tests settings.config.top_k (dim settings.system) settings.config.windows lengths) }
{
    let system = settings.system;
    let config = settings.config;
    system_validation::validate_matrix(system, matrix)?;
    benettin::validation::validate_outputs(system, config.top_k, config.windows, lengths)
}

// How many steps the next window has: one of the warm-up has its own.
fn steps_of_next(settings: Settings) -> u64
    ensures { result ≡ Turns.next_steps settings }
{
    let config = settings.config;
    if settings.warmed < config.transient_windows {
        config.steps_per_transient_window
    } else {
        config.steps_per_window
    }
}

// One window of a run, whose directions are moved where they stand in its slot: in the warm-up no row is written.
fn make_window(
    floats: &mut [f64; 2568],
    slot: usize,
    settings: Settings,
    matrix: &[f64],
    state: &mut [f64],
    norms: &mut [f64; 32],
    rows: &mut [f64],
    progress: &mut Progress,
) -> Result<(), RefusedRun>
    requires { Turns.MakesWindow slot settings matrix.now state.old rows.old progress.old }
    ensures { Turns.WindowMade slot settings matrix.now floats.old state.old norms.old rows.old progress.old
        floats.new state.new norms.new rows.new (carried progress.new result) }
{
    let system = settings.system;
    let config = settings.config;
    let k = config.top_k;
    let a = 321 * slot + 16;
    let e = a + k * state.len();
    let finished = progress.windows;
    let tangents = &mut floats[a..e];
    let steps = steps_of_next(settings);
    progress::window(
        system, matrix, state, tangents, norms, config, steps, progress,
    )?;
    if settings.warmed < config.transient_windows {
        return Ok(());
    }
    let width = 1 + 2 * k;
    let b = finished as usize * width;
    let f = b + width;
    let row = &mut rows[b..f];
    progress::record::record_window(norms, row, config, progress);
    Ok(())
}

// How many warm-up windows are made after one window more.
fn warmed_after(warmed: u64, warm_up: u64) -> u64
    ensures { result ≡ warmed_by (ltb warmed warm_up) warmed }
{
    if warmed < warm_up { warmed + 1 } else { warmed }
}

// The run goes on: it is laid down again, and goes to the back.
fn put_back(
    floats: &mut [f64; 2568],
    counts: &mut [u64; 152],
    queue: &mut [u64; 73],
    slot: usize,
    settings: Settings,
    state: &[f64],
    norms: &[f64; 32],
    done: &Progress,
)
    requires { Turns.PutsBack slot settings queue.old state.now done.now }
    ensures { Turns.PutBack slot settings floats.old counts.old queue.old state.now norms.now done.now
        floats.new counts.new queue.new }
{
    let config = settings.config;
    store::beside::save_beside(
        floats,
        counts,
        slot,
        slot as u8,
        state,
        norms,
        config.top_k,
        done,
    );
    schedule::requeue(queue);
    queue[8 * slot + 7] = warmed_after(settings.warmed, config.transient_windows);
}

// The run is over: its directions are cleared, and its name is free.
fn leave(floats: &mut [f64; 2568], queue: &mut [u64; 73], slot: usize, count: usize)
    requires { Turns.Leaves slot count queue.old }
    ensures { Turns.Left slot count floats.old queue.old floats.new queue.new }
{
    let a = 321 * slot + 16;
    let e = a + count;
    floats[a..e].fill(0.0);
    schedule::dequeue(queue);
}

// The run in a slot, whose state, norms and faint counts are taken up, makes its window. The rest is taken up here, where nothing
// comes before it: so it is not cleared first, which would be a call of the C library (docs/DECISIONS.md, 43).
fn turn_in(
    floats: &mut [f64; 2568],
    counts: &mut [u64; 152],
    stored: &[f64; 32],
    queue: &mut [u64; 73],
    slot: usize,
    settings: Settings,
    matrix: &[f64],
    state: &mut [f64],
    norms: &mut [f64; 32],
    faint: [u64; 16],
    rows: &mut [f64],
    exponents: &mut [f64],
    final_state: &mut [f64],
) -> TurnTaken
    requires { Turns.TurnsIn slot settings matrix.now state.old norms.old faint rows.old exponents.old final_state.old (Schedule.memory (Slots.memory floats.old counts.old) stored.now queue.old) }
    ensures { Replies.TurnReturns result (slices rows.old exponents.old final_state.old) (slices rows.new exponents.new final_state.new)
        (Schedule.memory (Slots.memory floats.new counts.new) stored.now queue.new)
        (Served.given_in none slot matrix.now (slices rows.old exponents.old final_state.old) (Schedule.memory (Slots.memory floats.old counts.old) stored.now queue.old)) }
{
    let config = settings.config;
    let mut progress = store::beside::progress_at(floats, counts, slot, faint);
    let begun = settings.warmed + progress.windows + 1;
    let count = config.top_k * state.len();
    let made = make_window(
        floats,
        slot,
        settings,
        matrix,
        state,
        norms,
        rows,
        &mut progress,
    );
    if let Err(refused) = made {
        leave(floats, queue, slot, count);
        return TurnTaken::Over {
            name: slot,
            begun,
            answer: Err(refused),
        };
    }
    if progress.windows < config.windows {
        put_back(
            floats, counts, queue, slot, settings, state, norms, &progress,
        );
        return TurnTaken::UnderWay { name: slot, begun };
    }
    leave(floats, queue, slot, count);
    let estimate = progress.end(state, exponents, final_state, config, config.windows);
    TurnTaken::Over {
        name: slot,
        begun,
        answer: Ok(estimate),
    }
}

// A turn of the run in a slot, which is in front.
pub fn turn_of(
    floats: &mut [f64; 2568],
    counts: &mut [u64; 152],
    settings: &[f64; 32],
    queue: &mut [u64; 73],
    slot: usize,
    matrix: &[f64],
    rows: &mut [f64],
    exponents: &mut [f64],
    final_state: &mut [f64],
) -> TurnTaken
    requires { Turns.InFront slot (Schedule.memory (Slots.memory floats.old counts.old) settings.now queue.old) }
    ensures { Replies.TurnReturns result (slices rows.old exponents.old final_state.old) (slices rows.new exponents.new final_state.new)
        (Schedule.memory (Slots.memory floats.new counts.new) settings.now queue.new)
        (Served.turned_in (some slot) matrix.now (slices rows.old exponents.old final_state.old) (Schedule.memory (Slots.memory floats.old counts.old) settings.now queue.old)) }
{
    let set = schedule::settings_at(settings, queue, slot);
    let lengths = OutputLengths::of(rows, exponents, final_state);
    if let Err(error) = validate_turn(set, matrix, lengths) {
        return TurnTaken::Unfit {
            name: slot,
            begun: set.warmed + store::windows_at(counts, slot),
            error,
        };
    }
    let d = system::dimension(set.system);
    let mut moving = [0.0; 16];
    let mut norms = [0.0; 32];
    let state = &mut moving[..d];
    let k = set.config.top_k;
    store::beside::load_vectors(floats, slot, state, &mut norms, k);
    let faint = store::faint_at(counts, slot, k);
    turn_in(
        floats,
        counts,
        settings,
        queue,
        slot,
        set,
        matrix,
        state,
        &mut norms,
        faint,
        rows,
        exponents,
        final_state,
    )
}
