// What a run has come to, `Progress`: from the start on, with the steps, the faint counts and the sums of a window more; the
// rates and the row of a measured window; and the end of a run, which is its answer.
//
// Each function equals a definition. Start with specs/Progress.antt, which says which state of a run a `Progress` and the
// slices beside it stand for, and what is done to a `Progress`. specs/Ending.antt says what bounds it and what the end leaves:
// the run itself is defined in crate benettin. The functions are `pub` for other crates of ours, and most have a `requires`:
// how long the slices are, and how large the counts. Crate progress has the windows. Nothing is allocated.
#![tactic(auto)]

ghost use Rattle.std.specs.Prelude.{◌≡◌, ℕ, ◌+◌, ◌*◌, ◌≤◌, ◌<◌, ◌^◌, ◌∷◌, ◌++◌, map, length, take, get_or};
ghost use Rattle.floats.specs.Arithmetic.{◌⊕◌, ◌⊗◌, ◌⊘◌};
ghost use Rattle.floats.specs.Vector.{updated};
ghost use Rattle.benettin.specs.Run as Run;
ghost use Rattle.totals.specs.Progress as Held;
ghost use Rattle.totals.specs.Ending as Ending;

use benettin::{BenettinConfig, RefusedRun, SpectrumEstimate};
use error::LyapunovError;

// What a run carries from window to window, beside the three slices.
#[derive(Drop)]
pub struct Progress {
    pub windows: u64,
    pub steps: u64,
    pub time: f64,
    pub faint: [u64; 16],
    pub sums: [f64; 16],
}

impl Progress {
    // Nothing done yet.
    pub fn new(time: f64) -> Progress
        ensures { result ≡ Held.fresh time }
    {
        Progress {
            windows: 0,
            steps: 0,
            time,
            faint: [0u64; 16],
            sums: [0.0; 16],
        }
    }

    // So many steps are made, up to another time.
    pub fn add_steps(&mut self, time: f64, made: u64)
        requires { self.old.steps + made < 2 ^ 64 }
        ensures { self.new ≡ Held.after_steps self.old time made }
    {
        self.steps += made;
        self.time = time;
    }

    // The faint counts of one window more.
    pub fn count_faint(&mut self, squares: &[f64])
        requires { (length squares.now ≤ 16) × ((i : ℕ) → get_or self.old.faint i 0 + 1 < 2 ^ 64) }
        ensures { self.new ≡ Held.with_faint self.old (updated Held.counted self.old.faint squares.now) }
    {
        for (i, square) in squares.iter().enumerate() {
            // 2^-960
            if *square < f64::from_bits(0x03f0_0000_0000_0000) {
                self.faint[i] += 1;
            }
        }
    }

    // One measured window is finished.
    pub fn add_logs(&mut self, logs: &[f64])
        requires { (length logs.now ≤ 16) × (self.old.windows + 1 < 2 ^ 64) }
        ensures { self.new ≡ Held.with_sums self.old (updated (◌⊕◌) self.old.sums logs.now) }
    {
        for (i, log) in logs.iter().enumerate() {
            self.sums[i] = self.sums[i] + *log;
        }
        self.windows += 1;
    }

    // What is answered where the run is refused here.
    pub fn refused(&self, error: LyapunovError) -> RefusedRun
        ensures { result ≡ Held.refused_run error self.now.windows self.now.steps }
    {
        RefusedRun {
            error,
            windows: self.windows,
            steps: self.steps,
        }
    }

    // The answer of a run of so many measured windows, its exponents and its final state.
    pub fn end(
        &self,
        state: &[f64],
        exponents: &mut [f64],
        final_state: &mut [f64],
        config: BenettinConfig,
        windows: u64,
    ) -> SpectrumEstimate
        requires { Ending.Ends config.top_k config.steps_per_window windows state.now exponents.old final_state.old self.now }
        ensures { Ending.Ended config.top_k (config.step_size ⊗ Run.as_float config.steps_per_window) windows state.now self.now
            exponents.old final_state.old result exponents.new final_state.new }
    {
        let k = config.top_k;
        let measured_time = duration(config) * as_float(windows);
        write_rates(&mut exponents[..k], &self.sums[..k], measured_time);
        final_state[..state.len()].copy_from_slice(state);
        SpectrumEstimate {
            windows,
            steps: self.steps,
            final_time: self.time,
            measured_time,
            faint: self.faint,
        }
    }
}

// ---- rates and a row

// A count as a float: the definitions name it.
pub fn as_float(n: u64) -> f64
    requires { n < 2 ^ 32 }
    ensures { result ≡ Run.as_float n }
{
    (n as u32) as f64
}

// The duration of a window.
pub fn duration(config: BenettinConfig) -> f64
    requires { config.steps_per_window < 2 ^ 32 }
    ensures { result ≡ config.step_size ⊗ Run.as_float config.steps_per_window }
{
    config.step_size * as_float(config.steps_per_window)
}

// Each value divided by the same number, into a row's part of the same length.
pub fn write_rates(row: &mut [f64], values: &[f64], by: f64)
    requires { length row.old ≡ length values.now }
    ensures { row.new ≡ map (λ x. x ⊘ by) values.now }
{
    for (i, value) in values.iter().enumerate() {
        row[i] = *value / by;
    }
}

// One row: the end time, the locals, the runnings.
pub fn write_row(row: &mut [f64], logs: &[f64], progress: &Progress, duration: f64, elapsed: f64)
    requires { (length row.old ≡ 1 + 2 * length logs.now) × (length logs.now ≤ 16) }
    ensures { row.new ≡ progress.now.time ∷ map (λ x. x ⊘ duration) logs.now ++ map (λ x. x ⊘ elapsed) (take (length logs.now) progress.now.sums) }
{
    let k = logs.len();
    let e = k + 1;
    row[0] = progress.time;
    write_rates(&mut row[1..e], logs, duration);
    write_rates(&mut row[e..], &progress.sums[..k], elapsed);
}
