// What C hands over as numbers: a system, and the settings of a run with their options.
ghost use Rattle.std.specs.Prelude.{◌≡◌};
ghost use Rattle.benettin.specs.Estimate.{settings};
ghost use Rattle.interface.specs.Options.{transient_steps};
ghost use Rattle.system_numbers.specs.Numbers as Numbers;

use benettin::BenettinConfig;
use system::System;
use system_numbers::Numbered;

pub fn system(kind: u64, p0: f64, p1: f64, p2: f64, dimension: usize) -> System
    ensures { result ≡ Numbers.system kind p0 p1 p2 dimension }
{
    System::from(Numbered {
        kind,
        p0,
        p1,
        p2,
        dimension,
    })
}

pub fn config(
    top_k: usize,
    step_size: f64,
    steps_per_window: u64,
    windows: u64,
    transient_windows: u64,
    seed: u64,
    options: &[u64],
) -> BenettinConfig
    ensures { result ≡ settings top_k step_size steps_per_window windows transient_windows (transient_steps steps_per_window options.now) seed }
{
    BenettinConfig {
        top_k,
        step_size,
        steps_per_window,
        windows,
        transient_windows,
        steps_per_transient_window: interface::transient_steps(steps_per_window, options),
        seed,
    }
}
