// The functions that hand over the settings of a run, with options behind them: settings that came later, by their places
// (specs/Options.antt of crate interface). A run without one of them has what runs had before, so the functions of lib.rt that
// take no options are these with none.
ghost use Rattle.std.specs.Prelude.{◌≡◌, []};
ghost use Rattle.benettin.specs.Estimate.{default_seed, input, settings};
ghost use Rattle.store.specs.Slots.{memory};
ghost use Rattle.calls.specs.Calls as Calls;
ghost use Rattle.calls.specs.Served.{serve};
ghost use Rattle.turns.specs.Dispatcher as Dispatcher;
ghost use Rattle.schedule.specs.Schedule as Schedule;
ghost use Rattle.dispatching.specs.Served.{serve_in};
ghost use Rattle.interface.specs.Interface as Interface;
ghost use Rattle.interface.specs.Options.{transient_steps};
ghost use Rattle.system_numbers.specs.Numbers as Numbers;

use crate::handed;
use benettin::validation;

// The number and the place of the first of the tests 1 to 12, 25 and 29 that a run with this input fails. Nothing is run.
#[unsafe(no_mangle)]
pub extern "C" fn lyapunov_validate_with_options(
    kind: u64,
    p0: f64,
    p1: f64,
    p2: f64,
    dimension: usize,
    matrix: &[f64],
    time: f64,
    state: &[f64],
    top_k: usize,
    step_size: f64,
    steps_per_window: u64,
    windows: u64,
    transient_windows: u64,
    options: &[u64],
    place: &mut u64,
) -> u64
    ensures { Interface.Refuses result place.new (Interface.input_refusal
        (input (Numbers.system kind p0 p1 p2 dimension) matrix.now time state.now (settings top_k step_size steps_per_window windows transient_windows (transient_steps steps_per_window options.now) default_seed))
        top_k) }
{
    let system = handed::system(kind, p0, p1, p2, dimension);
    let config = handed::config(
        top_k,
        step_size,
        steps_per_window,
        windows,
        transient_windows,
        benettin::DEFAULT_SEED,
        options,
    );
    let outcome = validation::validate_input(system, matrix, time, state, config, windows);
    interface::report(outcome, place)
}

// A run. `counts` takes the place, the finished measured windows, the steps and the sixteen faint counts; `times` the final
// and the measured time.
#[unsafe(no_mangle)]
pub extern "C" fn lyapunov_estimate_spectrum_at_with_options(
    kind: u64,
    p0: f64,
    p1: f64,
    p2: f64,
    dimension: usize,
    matrix: &[f64],
    time: f64,
    state: &[f64],
    top_k: usize,
    step_size: f64,
    steps_per_window: u64,
    windows: u64,
    transient_windows: u64,
    seed: u64,
    options: &[u64],
    rows: &mut [f64],
    exponents: &mut [f64],
    final_state: &mut [f64],
    counts: &mut [u64; 19],
    times: &mut [f64; 2],
) -> u64
    ensures { Interface.Meets
        (input (Numbers.system kind p0 p1 p2 dimension) matrix.now time state.now (settings top_k step_size steps_per_window windows transient_windows (transient_steps steps_per_window options.now) seed))
        top_k
        (Interface.call rows.old exponents.old final_state.old result counts.new times.new rows.new exponents.new final_state.new) }
{
    let system = handed::system(kind, p0, p1, p2, dimension);
    let config = handed::config(
        top_k,
        step_size,
        steps_per_window,
        windows,
        transient_windows,
        seed,
        options,
    );
    let answer = estimator::estimate::estimate_spectrum_at(
        system,
        matrix,
        time,
        state,
        config,
        rows,
        exponents,
        final_state,
    );
    interface::report_run(answer, counts, times)
}

// A run, kept under a number unless it is refused.
#[unsafe(no_mangle)]
pub extern "C" fn lyapunov_keep_with_options(
    store_floats: &mut [f64; 2568],
    store_counts: &mut [u64; 152],
    number: u8,
    kind: u64,
    p0: f64,
    p1: f64,
    p2: f64,
    dimension: usize,
    matrix: &[f64],
    time: f64,
    state: &[f64],
    top_k: usize,
    step_size: f64,
    steps_per_window: u64,
    windows: u64,
    transient_windows: u64,
    seed: u64,
    options: &[u64],
    rows: &mut [f64],
    exponents: &mut [f64],
    final_state: &mut [f64],
    counts: &mut [u64; 19],
    times: &mut [f64; 2],
) -> u64
    ensures { Interface.KeeperReturns result counts.new times.new
        rows.new exponents.new final_state.new (memory store_floats.new store_counts.new)
        (serve (memory store_floats.old store_counts.old) (Calls.keep number
        (Calls.brought (input (Numbers.system kind p0 p1 p2 dimension) matrix.now time state.now (settings top_k step_size steps_per_window windows transient_windows (transient_steps steps_per_window options.now) seed))
        top_k rows.old exponents.old final_state.old))) }
{
    let system = handed::system(kind, p0, p1, p2, dimension);
    let config = handed::config(
        top_k,
        step_size,
        steps_per_window,
        windows,
        transient_windows,
        seed,
        options,
    );
    let answer = keep::keep(
        store_floats,
        store_counts,
        number,
        system,
        matrix,
        time,
        state,
        config,
        rows,
        exponents,
        final_state,
    );
    interface::report_run(answer, counts, times)
}

// Goes on from what is kept under a number. The store stays as it is.
#[unsafe(no_mangle)]
pub extern "C" fn lyapunov_go_on_with_options(
    store_floats: &[f64; 2568],
    store_counts: &[u64; 152],
    number: u8,
    kind: u64,
    p0: f64,
    p1: f64,
    p2: f64,
    dimension: usize,
    matrix: &[f64],
    time: f64,
    state: &[f64],
    top_k: usize,
    step_size: f64,
    steps_per_window: u64,
    windows: u64,
    transient_windows: u64,
    seed: u64,
    options: &[u64],
    rows: &mut [f64],
    exponents: &mut [f64],
    final_state: &mut [f64],
    counts: &mut [u64; 19],
    times: &mut [f64; 2],
) -> u64
    ensures { Interface.KeeperReturns result counts.new times.new
        rows.new exponents.new final_state.new (memory store_floats.now store_counts.now)
        (serve (memory store_floats.now store_counts.now) (Calls.go_on number
        (Calls.brought (input (Numbers.system kind p0 p1 p2 dimension) matrix.now time state.now (settings top_k step_size steps_per_window windows transient_windows (transient_steps steps_per_window options.now) seed))
        top_k rows.old exponents.old final_state.old))) }
{
    let system = handed::system(kind, p0, p1, p2, dimension);
    let config = handed::config(
        top_k,
        step_size,
        steps_per_window,
        windows,
        transient_windows,
        seed,
        options,
    );
    let answer = keep::go_on(
        store_floats,
        store_counts,
        number,
        system,
        matrix,
        time,
        state,
        config,
        rows,
        exponents,
        final_state,
    );
    interface::report_run(answer, counts, times)
}

// Hands a run in: `name` gets its name, and 8 where it is refused.
#[unsafe(no_mangle)]
pub extern "C" fn lyapunov_hand_in_with_options(
    run_floats: &mut [f64; 2568],
    run_counts: &mut [u64; 152],
    run_settings: &mut [f64; 32],
    queue: &mut [u64; 73],
    kind: u64,
    p0: f64,
    p1: f64,
    p2: f64,
    dimension: usize,
    time: f64,
    state: &[f64],
    top_k: usize,
    step_size: f64,
    steps_per_window: u64,
    windows: u64,
    transient_windows: u64,
    seed: u64,
    options: &[u64],
    name: &mut u64,
    place: &mut u64,
) -> u64
    ensures { Interface.HandInReturns result name.new place.new
        (Schedule.memory (memory run_floats.new run_counts.new) run_settings.new queue.new)
        (serve_in (Schedule.memory (memory run_floats.old run_counts.old) run_settings.old queue.old) (Dispatcher.hand_in
        (input (Numbers.system kind p0 p1 p2 dimension) [] time state.now (settings top_k step_size steps_per_window windows transient_windows (transient_steps steps_per_window options.now) seed))
        top_k)) }
{
    let system = handed::system(kind, p0, p1, p2, dimension);
    let config = handed::config(
        top_k,
        step_size,
        steps_per_window,
        windows,
        transient_windows,
        seed,
        options,
    );
    let answer = dispatch::hand_in(
        run_floats,
        run_counts,
        run_settings,
        queue,
        system,
        time,
        state,
        config,
    );
    interface::report_admission(answer, name, place)
}
