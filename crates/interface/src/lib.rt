// What the C interface hands over as numbers: what is returned and written for a refusal, for a run, for a call of a dispatcher
// and for a diagnostic.
//
// Every function meets a definition of specs/Interface.antt, for every input: start reading there. That file also has what the
// contracts of the exported functions cite. Crate lyapunov exports those; only it calls these.
#![tactic(auto)]

ghost use Rattle.std.specs.Prelude.{◌≡◌, List, ◌∷◌, Float};
ghost use Rattle.floats.specs.Finite.{index};
ghost use Rattle.error.specs.Refusal.{reported, answer};
ghost use Rattle.benettin.specs.Outputs.{observed};
ghost use Rattle.turns.specs.Turn.{Slices};
ghost use Rattle.dispatch.specs.Replies.{reply, Unspent};
ghost use Rattle.interface.specs.Interface as Interface;
ghost use Rattle.interface.specs.Options as Options;

use benettin::{RefusedRun, SpectrumEstimate};
use dispatch::TurnTaken;
use error::{LyapunovError, Refusal};

// The number of what is refused is the result, and its place goes to `place`.
pub fn report<T: Drop>(answer: Result<T, LyapunovError>, place: &mut u64) -> u64
    ensures { Interface.Refuses result place.new (reported answer) }
{
    let refusal = match answer {
        Ok(_) => Refusal {
            number: 0,
            place: 0,
        },
        Err(e) => Refusal::from(e),
    };
    *place = refusal.place as u64;
    refusal.number
}

// The steps of a warm-up window, by the options and by the steps of a measured one.
pub fn transient_steps(steps: u64, options: &[u64]) -> u64
    ensures { result ≡ Options.transient_steps steps options.now }
{
    if options.is_empty() {
        steps
    } else {
        options[0]
    }
}

// The counts of a run, one after the other, as C's array has them.
pub fn counts_of(place: u64, windows: u64, steps: u64, faint: [u64; 16]) -> [u64; 19]
    ensures { result ≡ place ∷ windows ∷ steps ∷ faint }
{
    let mut counts = [0; 19];
    counts[0] = place;
    counts[1] = windows;
    counts[2] = steps;
    counts[3..].copy_from_slice(&faint);
    counts
}

// The answer of a run as C takes it, whatever its three slices hold.
pub fn report_run(
    answer: Result<SpectrumEstimate, RefusedRun>,
    counts: &mut [u64; 19],
    times: &mut [f64; 2],
) -> u64
    ensures { (rows exponents final : List Float) → Interface.Returns result counts.new times.new rows exponents final (observed answer rows exponents final) }
{
    match answer {
        Ok(run) => {
            *times = [run.final_time, run.measured_time];
            *counts = counts_of(0, run.windows, run.steps, run.faint);
            0
        }
        Err(run) => {
            let refusal = Refusal::from(run.error);
            *times = [0.0; 2];
            *counts = counts_of(refusal.place as u64, run.windows, run.steps, [0; 16]);
            refusal.number
        }
    }
}

// The name that stands for nobody: a run's own is below 8.
const NOBODY: u64 = 8;

// The name of the run that is next, as C takes it.
pub fn report_next(next: Option<usize>) -> u64
    ensures { result ≡ Interface.next_name (index next) }
{
    match next {
        Some(name) => name as u64,
        None => NOBODY,
    }
}

// The name of a run that is handed in goes to `name`, and what refuses it is reported.
pub fn report_admission(
    answer: Result<usize, LyapunovError>,
    name: &mut u64,
    place: &mut u64,
) -> u64
    ensures { (name.new ≡ Interface.taken_name answer) × Interface.Refuses result place.new (reported answer) }
{
    *name = match answer {
        Ok(taken) => taken as u64,
        Err(_) => NOBODY,
    };
    report(answer, place)
}

// A turn as C takes it. `event` gets its stage (0 nobody, 1 unfit, 2 under way, 3 over), the run's name, its windows begun, and
// the place of what refuses the turn; counts and times are the answer of a run that is over.
pub fn report_turn(
    taken: TurnTaken,
    event: &mut [u64; 4],
    counts: &mut [u64; 19],
    times: &mut [f64; 2],
) -> u64
    ensures { (z z' : Slices) → (Unspent taken → z' ≡ z)
        → Interface.turn_answer result event.new counts.new times.new z' ≡ Interface.turn_answered counts.old times.old z (reply taken z') }
{
    match taken {
        TurnTaken::Nobody => {
            *event = [0, NOBODY, 0, 0];
            0
        }
        TurnTaken::Unfit { name, begun, error } => {
            let refusal = Refusal::from(error);
            *event = [1, name as u64, begun, refusal.place as u64];
            refusal.number
        }
        TurnTaken::UnderWay { name, begun } => {
            *event = [2, name as u64, begun, 0];
            0
        }
        TurnTaken::Over {
            name,
            begun,
            answer,
        } => {
            *event = [3, name as u64, begun, 0];
            report_run(answer, counts, times)
        }
    }
}

// A dimension or an entropy goes to `out`, which a refusal leaves as it is.
pub fn report_diagnostic(
    diagnostic: Result<f64, LyapunovError>,
    out: &mut f64,
    place: &mut u64,
) -> u64
    ensures { Interface.DiagnosticReturns result place.new out.old out.new (answer diagnostic) }
{
    if let Ok(x) = diagnostic {
        *out = x;
    }
    report(diagnostic, place)
}
