// Benettin's method: the settings of a run, its answer, and the definition of the whole run.
//
// specs/Run.antt defines a run over any dynamics, specs/Estimate.antt is document 01's run, specs/Outputs.antt is what it
// leaves in the caller's slices, and the contract of a call (`Meets`). specs/Refusals.antt states what a refused call has
// written. specs/LeadingSpectrum.antt states that the first rates hold still when more are asked for, and
// specs/LeadingOutputs.antt states it of two calls. specs/EqualSteps.antt states that a run whose warm-up windows have as many
// steps as its measured ones is the run of one count of steps. validation.rt makes the tests 1 to 13, with 25 and 29. Crate
// estimator runs: its code meets the contract.
#![tactic(auto)]

pub mod validation;

ghost use Rattle.std.specs.Prelude.{◌≡◌};
ghost use Rattle.error.specs.Refusal.{answer};
ghost use Rattle.benettin.specs.Estimate as Spec;
ghost use Rattle.benettin.specs.Outputs as Outputs;

use error::LyapunovError;

// The most that each of the four counts may be: 2^24.
pub const COUNT_LIMIT: u64 = 16777216;

// The seed of settings that name none.
pub const DEFAULT_SEED: u64 = 0x4c59_4150_554e_4f56;

// The settings of a run. Nothing is promised of the fields: a run tests them.
#[derive(Clone, Copy)]
pub struct BenettinConfig {
    pub top_k: usize,
    pub step_size: f64,
    pub steps_per_window: u64,
    pub windows: u64,
    pub transient_windows: u64,
    pub steps_per_transient_window: u64,
    pub seed: u64,
}

// How long the lent outputs are, which test 13 reads.
#[derive(Clone, Copy)]
pub struct OutputLengths {
    pub rows: usize,
    pub exponents: usize,
    pub state: usize,
}

impl OutputLengths {
    pub fn of(rows: &[f64], exponents: &[f64], final_state: &[f64]) -> OutputLengths
        ensures { result ≡ Outputs.lengths_of rows.now exponents.now final_state.now }
    {
        OutputLengths {
            rows: rows.len(),
            exponents: exponents.len(),
            state: final_state.len(),
        }
    }
}

// What a run answers beside the rows, the exponents and the final state.
#[derive(Clone, Copy)]
pub struct SpectrumEstimate {
    pub windows: u64,
    pub steps: u64,
    pub final_time: f64,
    pub measured_time: f64,
    pub faint: [u64; 16],
}

// What a refused run answers: why, how many measured windows it has finished, and how many steps passed every test.
#[derive(Clone, Copy)]
pub struct RefusedRun {
    pub error: LyapunovError,
    pub windows: u64,
    pub steps: u64,
}

// Refused before its first step.
impl From<LyapunovError> for RefusedRun {
    ghost from_gives = { λ error run. run ≡ Outputs.unstarted error };

    fn from(error: LyapunovError) -> RefusedRun {
        RefusedRun {
            error,
            windows: 0,
            steps: 0,
        }
    }
}

impl BenettinConfig {
    // Settings with no warm-up windows, as many steps in one as in a measured window, and the default seed, tested by 1 to 5. Of
    // two counts over, 5 names the steps.
    pub fn new(
        top_k: usize,
        step_size: f64,
        steps_per_window: u64,
        windows: u64,
    ) -> Result<BenettinConfig, LyapunovError>
        ensures { answer result ≡ Spec.configured top_k step_size steps_per_window windows }
    {
        let config = BenettinConfig {
            top_k,
            step_size,
            steps_per_window,
            windows,
            transient_windows: 0,
            steps_per_transient_window: steps_per_window,
            seed: DEFAULT_SEED,
        };
        validation::validate_settings(config, windows)?;
        Ok(config)
    }

    // Two setters, which a caller of the source knows by these names. The settings with another count of warm-up windows, which
    // the run tests.
    pub fn with_transient_windows(self, windows: u64) -> BenettinConfig
        ensures { result ≡ Spec.with_warm_up windows self }
    {
        BenettinConfig {
            transient_windows: windows,
            ..self
        }
    }

    // The settings with another count of steps in a warm-up window, which the run tests.
    pub fn with_steps_per_transient_window(self, steps: u64) -> BenettinConfig
        ensures { result ≡ Spec.with_warm_up_steps steps self }
    {
        BenettinConfig {
            steps_per_transient_window: steps,
            ..self
        }
    }

    // The settings with another seed.
    pub fn with_seed(self, seed: u64) -> BenettinConfig
        ensures { result ≡ Spec.with_seed seed self }
    {
        BenettinConfig { seed, ..self }
    }
}
