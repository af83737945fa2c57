// A run is laid down and taken up but for its directions, which stand in memory already.
//
// specs/Beside.antt says what is left, and what is read.
ghost use Rattle.std.specs.Prelude.{◌≡◌, ◌+◌, ◌*◌, ◌<◌, ◌++◌, length, drop};
ghost use Rattle.floats.specs.Vector.{part};
ghost use Rattle.store.specs.Slots as Slots;
ghost use Rattle.store.specs.Beside as Beside;

use totals::Progress;

// Lays a run down in a slot, under a number, but for its directions.
pub fn save_beside(
    floats: &mut [f64; 2568],
    counts: &mut [u64; 152],
    slot: usize,
    number: u8,
    state: &[f64],
    norms: &[f64; 32],
    k: usize,
    progress: &Progress,
)
    requires { Beside.SavesBeside slot (length state.now) k state.now progress.now }
    ensures { Slots.memory floats.new counts.new ≡ Beside.saved_beside slot number state.now k norms.now progress.now (Slots.memory floats.old counts.old) }
{
    let a = 321 * slot;
    let e = a + state.len();
    floats::copy_pairs(&mut floats[a..e], state, state.len());
    let b = a + 272;
    let f = b + k;
    floats::copy_pairs(&mut floats[b..f], &progress.sums, k);
    let c = a + 288;
    let both = k + k;
    let g = c + both;
    floats::copy_pairs(&mut floats[c..g], norms, both);
    floats[a + 320] = progress.time;
    crate::save_counts(counts, slot, number as u64 + 1, progress);
}

// The state of a slot and its norms, which are logarithms with squared lengths behind them, of a run of k directions.
pub fn load_vectors(
    floats: &[f64; 2568],
    slot: usize,
    state: &mut [f64],
    norms: &mut [f64; 32],
    k: usize,
)
    requires { Beside.Fits slot (length state.old) k }
    ensures { (state.new ≡ part (321 * slot) (length state.old) floats.now) × (norms.new ≡ part (321 * slot + 288) (k + k) floats.now ++ drop (k + k) norms.old) }
{
    let d = state.len();
    let a = 321 * slot;
    let e = a + d;
    floats::copy_pairs(state, &floats[a..e], d);
    let b = a + 288;
    let both = k + k;
    let f = b + both;
    floats::copy_pairs(norms, &floats[b..f], both);
}

// What the run of a slot has come to, with these faint counts. All 16 sums are read, as pairs, which none has to wait for. It is
// compiled where it is called, so that nothing is cleared before it is written.
#[inline(always)]
pub fn progress_at(
    floats: &[f64; 2568],
    counts: &[u64; 152],
    slot: usize,
    faint: [u64; 16],
) -> Progress
    requires { slot < 8 }
    ensures { result ≡ Beside.progress_in slot faint (Slots.memory floats.now counts.now) }
{
    let a = 321 * slot + 272;
    let e = a + 16;
    let mut sums = [0.0; 16];
    sums.copy_from_slice(&floats[a..e]);
    let c = 19 * slot;
    Progress {
        windows: counts[c + 1],
        steps: counts[c + 2],
        time: floats[321 * slot + 320],
        faint,
        sums,
    }
}
