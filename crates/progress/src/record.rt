// What is recorded of a measured window, alone: crate dispatch makes a window and records it in two calls.
ghost use Rattle.progress.specs.UnderWay as Under;

use benettin::BenettinConfig;
use totals::Progress;

// What a measured window adds once it is made: the sums, and its row.
pub fn record_window(
    norms: &[f64; 32],
    row: &mut [f64],
    config: BenettinConfig,
    progress: &mut Progress,
)
    requires { Under.Records config row.old progress.old }
    ensures { Under.WindowRecorded config norms.now progress.old progress.new row.new }
{
    let logs = &norms[..config.top_k];
    progress.add_logs(logs);
    let duration = totals::duration(config);
    let elapsed = duration * totals::as_float(progress.windows);
    totals::write_row(row, logs, progress, duration, elapsed);
}
