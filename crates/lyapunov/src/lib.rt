// The C interface: flat numbers and slices, exported by `rt staticlib lyapunov`. include/lyapunov.h declares it.
//
// Every function is total and hands the promise of the library's own function on. A refusal's number is the result, 0 for
// none, as specs/Refusal.antt of crate error has it. specs/Numbers.antt of crate system_numbers says what a system's number
// means, and specs/Interface.antt of crate interface what is written through a pointer. specs/LeadingOutputs.antt states that a
// call from C is a call of the library's own function, and that its first rates hold still. specs/Marked.antt is document 01's
// table of marked examples.
//
// with_options.rt has the functions that take options behind the settings; the others of a run are those without options.
// C hands over a system by its kind, a refusal by its number and its place, and lends each slice by itself. So parameters stand
// side by side here, and functions of one shape stay apart: each is an exported name.
#![tactic(auto)]

mod handed;
pub mod with_options;

ghost use Rattle.std.specs.Prelude.{◌≡◌, [], replicate};
ghost use Rattle.sqrt.specs.SquareRoot.{root};
ghost use Rattle.ln.specs.Logarithm.{logarithm};
ghost use Rattle.splitmix64.specs.Mix as Mix;
ghost use Rattle.error.specs.Refusal.{number_of, refusal_in};
ghost use Rattle.gram_schmidt.specs.GramSchmidt.{euclidean, orthonormalised};
ghost use Rattle.rk4.specs.Step.{stepped};
ghost use Rattle.floats.specs.Arithmetic.{zero⁺};
ghost use Rattle.benettin.specs.Estimate.{configured, default_seed, input, settings};
ghost use Rattle.diagnostics.specs.Rates as Rates;
ghost use Rattle.store.specs.Slots.{memory};
ghost use Rattle.calls.specs.Calls as Calls;
ghost use Rattle.calls.specs.Served.{serve};
ghost use Rattle.turns.specs.Turn.{slices};
ghost use Rattle.turns.specs.Dispatcher as Dispatcher;
ghost use Rattle.schedule.specs.Schedule as Schedule;
ghost use Rattle.dispatching.specs.Served.{serve_in};
ghost use Rattle.interface.specs.Interface as Interface;
ghost use Rattle.system_numbers.specs.Numbers as Numbers;

use benettin::BenettinConfig;
use error::Refusal;

// The square root.
#[unsafe(no_mangle)]
pub extern "C" fn lyapunov_sqrt(x: f64) -> f64
    ensures { result ≡ root x }
{
    sqrt::sqrt(x)
}

// The logarithm goes to `out`, which a refusal leaves as it is.
#[unsafe(no_mangle)]
pub extern "C" fn lyapunov_ln(x: f64, out: &mut f64) -> u64
    ensures { (result ≡ number_of (refusal_in (logarithm x))) × (out.new ≡ Interface.value_or out.old (logarithm x)) }
{
    match ln::ln(x) {
        Ok(y) => {
            *out = y;
            0
        }
        Err(e) => Refusal::from(e).number,
    }
}

// The state after this one.
#[unsafe(no_mangle)]
pub extern "C" fn lyapunov_splitmix64_next(state: u64) -> u64
    ensures { result ≡ Mix.next_state state }
{
    splitmix64::next_state(state)
}

// The output of a state.
#[unsafe(no_mangle)]
pub extern "C" fn lyapunov_splitmix64_value(state: u64) -> u64
    ensures { result ≡ Mix.mix state }
{
    splitmix64::mix(state)
}

// The draw of an output.
#[unsafe(no_mangle)]
pub extern "C" fn lyapunov_splitmix64_symmetric_unit(value: u64) -> f64
    ensures { result ≡ Mix.unit value }
{
    splitmix64::unit(value)
}

// Directions of `dimension` entries, made orthonormal; `norms` takes their logarithms, then their squared lengths.
#[unsafe(no_mangle)]
pub extern "C" fn lyapunov_modified_gram_schmidt(
    tangents: &mut [f64],
    dimension: usize,
    norms: &mut [f64],
    place: &mut u64,
) -> u64
    ensures { Interface.OrthonormaliserReturns result place.new tangents.new norms.new (orthonormalised euclidean tangents.old dimension norms.old) }
{
    let outcome = gram_schmidt::modified_gram_schmidt(tangents, dimension, norms);
    interface::report(outcome, place)
}

// One step of the state and of `count` directions.
#[unsafe(no_mangle)]
pub extern "C" fn lyapunov_step(
    kind: u64,
    p0: f64,
    p1: f64,
    p2: f64,
    dimension: usize,
    matrix: &[f64],
    time: f64,
    state: &mut [f64],
    tangents: &mut [f64],
    count: usize,
    step_size: f64,
    place: &mut u64,
) -> u64
    ensures { Interface.StepReturns result place.new state.new tangents.new
        (stepped (Numbers.system kind p0 p1 p2 dimension) matrix.now time state.old tangents.old count step_size) }
{
    let system = handed::system(kind, p0, p1, p2, dimension);
    let outcome = rk4::step(system, matrix, time, state, tangents, count, step_size);
    interface::report(outcome, place)
}

// Whether settings with no warm-up windows pass the tests 1 to 5.
#[unsafe(no_mangle)]
pub extern "C" fn lyapunov_build_config(
    top_k: usize,
    step_size: f64,
    steps_per_window: u64,
    windows: u64,
    place: &mut u64,
) -> u64
    ensures { Interface.Refuses result place.new (refusal_in (configured top_k step_size steps_per_window windows)) }
{
    let config = BenettinConfig::new(top_k, step_size, steps_per_window, windows);
    interface::report(config, place)
}

// The number and the place of the first of the tests 1 to 12, 25 and 29 that a run with this input fails. Nothing is run.
#[unsafe(no_mangle)]
pub extern "C" fn lyapunov_validate(
    kind: u64,
    p0: f64,
    p1: f64,
    p2: f64,
    dimension: usize,
    matrix: &[f64],
    time: f64,
    state: &[f64],
    top_k: usize,
    step_size: f64,
    steps_per_window: u64,
    windows: u64,
    transient_windows: u64,
    place: &mut u64,
) -> u64
    ensures { Interface.Refuses result place.new (Interface.input_refusal
        (input (Numbers.system kind p0 p1 p2 dimension) matrix.now time state.now (settings top_k step_size steps_per_window windows transient_windows steps_per_window default_seed))
        top_k) }
{
    with_options::lyapunov_validate_with_options(
        kind,
        p0,
        p1,
        p2,
        dimension,
        matrix,
        time,
        state,
        top_k,
        step_size,
        steps_per_window,
        windows,
        transient_windows,
        &[],
        place,
    )
}

// A run. `counts` takes the place, the finished measured windows, the steps and the sixteen faint counts; `times` the final
// and the measured time.
#[unsafe(no_mangle)]
pub extern "C" fn lyapunov_estimate_spectrum_at(
    kind: u64,
    p0: f64,
    p1: f64,
    p2: f64,
    dimension: usize,
    matrix: &[f64],
    time: f64,
    state: &[f64],
    top_k: usize,
    step_size: f64,
    steps_per_window: u64,
    windows: u64,
    transient_windows: u64,
    seed: u64,
    rows: &mut [f64],
    exponents: &mut [f64],
    final_state: &mut [f64],
    counts: &mut [u64; 19],
    times: &mut [f64; 2],
) -> u64
    ensures { Interface.Meets (input (Numbers.system kind p0 p1 p2 dimension) matrix.now time state.now (settings top_k step_size steps_per_window windows transient_windows steps_per_window seed))
        top_k
        (Interface.call rows.old exponents.old final_state.old result counts.new times.new rows.new exponents.new final_state.new) }
{
    with_options::lyapunov_estimate_spectrum_at_with_options(
        kind,
        p0,
        p1,
        p2,
        dimension,
        matrix,
        time,
        state,
        top_k,
        step_size,
        steps_per_window,
        windows,
        transient_windows,
        seed,
        &[],
        rows,
        exponents,
        final_state,
        counts,
        times,
    )
}

// A run from time zero.
#[unsafe(no_mangle)]
pub extern "C" fn lyapunov_estimate_spectrum(
    kind: u64,
    p0: f64,
    p1: f64,
    p2: f64,
    dimension: usize,
    matrix: &[f64],
    state: &[f64],
    top_k: usize,
    step_size: f64,
    steps_per_window: u64,
    windows: u64,
    transient_windows: u64,
    seed: u64,
    rows: &mut [f64],
    exponents: &mut [f64],
    final_state: &mut [f64],
    counts: &mut [u64; 19],
    times: &mut [f64; 2],
) -> u64
    ensures { Interface.Meets (input (Numbers.system kind p0 p1 p2 dimension) matrix.now zero⁺ state.now (settings top_k step_size steps_per_window windows transient_windows steps_per_window seed))
        top_k
        (Interface.call rows.old exponents.old final_state.old result counts.new times.new rows.new exponents.new final_state.new) }
{
    with_options::lyapunov_estimate_spectrum_at_with_options(
        kind,
        p0,
        p1,
        p2,
        dimension,
        matrix,
        0.0,
        state,
        top_k,
        step_size,
        steps_per_window,
        windows,
        transient_windows,
        seed,
        &[],
        rows,
        exponents,
        final_state,
        counts,
        times,
    )
}

// A run for the largest exponent, from time zero, with no warm-up windows and the default seed.
#[unsafe(no_mangle)]
pub extern "C" fn lyapunov_estimate_largest(
    kind: u64,
    p0: f64,
    p1: f64,
    p2: f64,
    dimension: usize,
    matrix: &[f64],
    state: &[f64],
    step_size: f64,
    steps_per_window: u64,
    windows: u64,
    rows: &mut [f64],
    exponents: &mut [f64],
    final_state: &mut [f64],
    counts: &mut [u64; 19],
    times: &mut [f64; 2],
) -> u64
    ensures { Interface.Meets (input (Numbers.system kind p0 p1 p2 dimension) matrix.now zero⁺ state.now (settings 1 step_size steps_per_window windows 0 steps_per_window default_seed))
        1
        (Interface.call rows.old exponents.old final_state.old result counts.new times.new rows.new exponents.new final_state.new) }
{
    let system = handed::system(kind, p0, p1, p2, dimension);
    let answer = estimator::estimate::estimate_largest(
        system,
        matrix,
        state,
        step_size,
        steps_per_window,
        windows,
        rows,
        exponents,
        final_state,
    );
    interface::report_run(answer, counts, times)
}

// A store with nothing kept.
#[unsafe(no_mangle)]
pub extern "C" fn lyapunov_empty_store(store_counts: &mut [u64; 152])
    ensures { store_counts.new ≡ replicate 152 0 }
{
    keep::empty(store_counts)
}

// A run, kept under a number unless it is refused.
#[unsafe(no_mangle)]
pub extern "C" fn lyapunov_keep(
    store_floats: &mut [f64; 2568],
    store_counts: &mut [u64; 152],
    number: u8,
    kind: u64,
    p0: f64,
    p1: f64,
    p2: f64,
    dimension: usize,
    matrix: &[f64],
    time: f64,
    state: &[f64],
    top_k: usize,
    step_size: f64,
    steps_per_window: u64,
    windows: u64,
    transient_windows: u64,
    seed: u64,
    rows: &mut [f64],
    exponents: &mut [f64],
    final_state: &mut [f64],
    counts: &mut [u64; 19],
    times: &mut [f64; 2],
) -> u64
    ensures { Interface.KeeperReturns result counts.new times.new
        rows.new exponents.new final_state.new (memory store_floats.new store_counts.new)
        (serve (memory store_floats.old store_counts.old) (Calls.keep number
        (Calls.brought (input (Numbers.system kind p0 p1 p2 dimension) matrix.now time state.now (settings top_k step_size steps_per_window windows transient_windows steps_per_window seed))
        top_k rows.old exponents.old final_state.old))) }
{
    with_options::lyapunov_keep_with_options(
        store_floats,
        store_counts,
        number,
        kind,
        p0,
        p1,
        p2,
        dimension,
        matrix,
        time,
        state,
        top_k,
        step_size,
        steps_per_window,
        windows,
        transient_windows,
        seed,
        &[],
        rows,
        exponents,
        final_state,
        counts,
        times,
    )
}

// Goes on from what is kept under a number. The store stays as it is.
#[unsafe(no_mangle)]
pub extern "C" fn lyapunov_go_on(
    store_floats: &[f64; 2568],
    store_counts: &[u64; 152],
    number: u8,
    kind: u64,
    p0: f64,
    p1: f64,
    p2: f64,
    dimension: usize,
    matrix: &[f64],
    time: f64,
    state: &[f64],
    top_k: usize,
    step_size: f64,
    steps_per_window: u64,
    windows: u64,
    transient_windows: u64,
    seed: u64,
    rows: &mut [f64],
    exponents: &mut [f64],
    final_state: &mut [f64],
    counts: &mut [u64; 19],
    times: &mut [f64; 2],
) -> u64
    ensures { Interface.KeeperReturns result counts.new times.new
        rows.new exponents.new final_state.new (memory store_floats.now store_counts.now)
        (serve (memory store_floats.now store_counts.now) (Calls.go_on number
        (Calls.brought (input (Numbers.system kind p0 p1 p2 dimension) matrix.now time state.now (settings top_k step_size steps_per_window windows transient_windows steps_per_window seed))
        top_k rows.old exponents.old final_state.old))) }
{
    with_options::lyapunov_go_on_with_options(
        store_floats,
        store_counts,
        number,
        kind,
        p0,
        p1,
        p2,
        dimension,
        matrix,
        time,
        state,
        top_k,
        step_size,
        steps_per_window,
        windows,
        transient_windows,
        seed,
        &[],
        rows,
        exponents,
        final_state,
        counts,
        times,
    )
}

// Forgets what is kept under a number.
#[unsafe(no_mangle)]
pub extern "C" fn lyapunov_forget(
    store_floats: &[f64; 2568],
    store_counts: &mut [u64; 152],
    number: u8,
) -> u64
    ensures { Interface.ForgetReturns result (memory store_floats.now store_counts.new) (serve (memory store_floats.now store_counts.old) (Calls.forget number)) }
{
    match keep::forget(store_floats, store_counts, number) {
        Ok(()) => 0,
        Err(e) => Refusal::from(e).number,
    }
}

// A dispatcher without runs.
#[unsafe(no_mangle)]
pub extern "C" fn lyapunov_empty_dispatcher(queue: &mut [u64; 73])
    ensures { queue.new ≡ replicate 73 0 }
{
    dispatch::empty(queue)
}

// Hands a run in: `name` gets its name, and 8 where it is refused.
#[unsafe(no_mangle)]
pub extern "C" fn lyapunov_hand_in(
    run_floats: &mut [f64; 2568],
    run_counts: &mut [u64; 152],
    run_settings: &mut [f64; 32],
    queue: &mut [u64; 73],
    kind: u64,
    p0: f64,
    p1: f64,
    p2: f64,
    dimension: usize,
    time: f64,
    state: &[f64],
    top_k: usize,
    step_size: f64,
    steps_per_window: u64,
    windows: u64,
    transient_windows: u64,
    seed: u64,
    name: &mut u64,
    place: &mut u64,
) -> u64
    ensures { Interface.HandInReturns result name.new place.new
        (Schedule.memory (memory run_floats.new run_counts.new) run_settings.new queue.new)
        (serve_in (Schedule.memory (memory run_floats.old run_counts.old) run_settings.old queue.old) (Dispatcher.hand_in
        (input (Numbers.system kind p0 p1 p2 dimension) [] time state.now (settings top_k step_size steps_per_window windows transient_windows steps_per_window seed))
        top_k)) }
{
    with_options::lyapunov_hand_in_with_options(
        run_floats,
        run_counts,
        run_settings,
        queue,
        kind,
        p0,
        p1,
        p2,
        dimension,
        time,
        state,
        top_k,
        step_size,
        steps_per_window,
        windows,
        transient_windows,
        seed,
        &[],
        name,
        place,
    )
}

// The name of the run whose turn is next, or 8.
#[unsafe(no_mangle)]
pub extern "C" fn lyapunov_next(queue: &[u64; 73]) -> u64
    ensures { result ≡ Interface.next_name (Schedule.next_in queue.now) }
{
    interface::report_next(dispatch::next(queue))
}

// One window of the run that is next. `event` takes the stage, the name, the windows begun and the place of what refuses the
// turn; counts and times are written where the run is over.
#[unsafe(no_mangle)]
pub extern "C" fn lyapunov_turn(
    run_floats: &mut [f64; 2568],
    run_counts: &mut [u64; 152],
    run_settings: &[f64; 32],
    queue: &mut [u64; 73],
    matrix: &[f64],
    rows: &mut [f64],
    exponents: &mut [f64],
    final_state: &mut [f64],
    event: &mut [u64; 4],
    counts: &mut [u64; 19],
    times: &mut [f64; 2],
) -> u64
    ensures { Interface.TurnReturns counts.old times.old (slices rows.old exponents.old final_state.old)
        (Interface.turn_answer result event.new counts.new times.new (slices rows.new exponents.new final_state.new))
        (Schedule.memory (memory run_floats.new run_counts.new) run_settings.now queue.new)
        (serve_in (Schedule.memory (memory run_floats.old run_counts.old) run_settings.now queue.old)
        (Dispatcher.take_turn matrix.now (slices rows.old exponents.old final_state.old))) }
{
    let taken = dispatch::turn(
        run_floats,
        run_counts,
        run_settings,
        queue,
        matrix,
        rows,
        exponents,
        final_state,
    );
    interface::report_turn(taken, event, counts, times)
}

// The dimension goes to `out`, which a refusal leaves as it is.
#[unsafe(no_mangle)]
pub extern "C" fn lyapunov_kaplan_yorke_dimension(
    exponents: &[f64],
    out: &mut f64,
    place: &mut u64,
) -> u64
    ensures { Interface.DiagnosticReturns result place.new out.old out.new (Rates.dimension exponents.now) }
{
    interface::report_diagnostic(diagnostics::kaplan_yorke_dimension(exponents), out, place)
}

// The entropy goes to `out`, which a refusal leaves as it is.
#[unsafe(no_mangle)]
pub extern "C" fn lyapunov_kolmogorov_sinai_entropy(
    exponents: &[f64],
    out: &mut f64,
    place: &mut u64,
) -> u64
    ensures { Interface.DiagnosticReturns result place.new out.old out.new (Rates.entropy exponents.now) }
{
    interface::report_diagnostic(diagnostics::kolmogorov_sinai_entropy(exponents), out, place)
}
