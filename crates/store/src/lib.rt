// Runs under way in memory that a caller lends: eight slots of 321 floats and 19 counts.
//
// specs/Slots.antt says what memory holds, whatever its content is: a slot with what no run can have left counts as free. Each
// function equals a definition there. They are for other crates of ours, and have a `requires`: the lengths of the slices, and a
// slot below 8. A slot stays a `usize`: a struct with a ghost field that says so could not be copied, and each function would be
// lent it for a bound that is seen at once. The two arrays stay apart, and places in them are numbers, since C lends the memory.
// Crate keep has the calls.
#![tactic(auto)]

pub mod beside;

ghost use Rattle.std.specs.Prelude.{◌≡◌, ◌+◌, ◌*◌, ◌≤◌, ◌<◌, List, ◌∷◌, ◌++◌, Float, length, drop, replicate};
ghost use Rattle.std.proofs.lemmas.List.Edits.{sets};
ghost use Rattle.floats.specs.Finite.{index};
ghost use Rattle.floats.specs.Vector.{part};
ghost use Rattle.totals.specs.Progress.{held, run_state};
ghost use Rattle.store.specs.Slots as Slots;
ghost use Rattle.store.specs.Promises as Contracts;

use totals::Progress;

// ---- which slots are in use

fn at_most(counts: &[u64], most: u64) -> bool
    ensures { result ≡ Slots.at_most most counts.now }
{
    counts.iter().all(|count| *count <= most)
}

// The tag, if the rest can be that of a run that ended, else 0.
fn sound_tag(tag: u64, windows: u64, steps: u64, faint: &[u64], time: f64) -> u64
    ensures { result ≡ Slots.sound_tag tag windows steps faint.now time }
{
    if 256 < tag {
        return 0;
    }
    if benettin::COUNT_LIMIT < windows {
        return 0;
    }
    // 2^49
    if 562949953421312 < steps {
        return 0;
    }
    if at_most(faint, 33554432) {
        if floats::is_finite(time) { tag } else { 0 }
    } else {
        0
    }
}

// The tag of a slot, 0 where it is free, as the definition has it.
pub fn tag_at(floats: &[f64; 2568], counts: &[u64; 152], slot: usize) -> u64
    requires { slot < 8 }
    ensures { result ≡ Slots.tag_at slot (Slots.memory floats.now counts.now) }
{
    let c = 19 * slot;
    let a = c + 3;
    let e = a + 16;
    let time = floats[321 * slot + 320];
    sound_tag(counts[c], counts[c + 1], counts[c + 2], &counts[a..e], time)
}

// The first slot with a tag.
pub fn first_slot(floats: &[f64; 2568], counts: &[u64; 152], tag: u64) -> Option<usize>
    ensures { index result ≡ Slots.first_index tag (Slots.tags (Slots.memory floats.now counts.now)) }
{
    for slot in 0..8 {
        if tag_at(floats, counts, slot) == tag {
            return Some(slot);
        }
    }
    None
}

// The slot to keep under a number: its own, else the first that is free.
pub fn slot_for(floats: &[f64; 2568], counts: &[u64; 152], number: u8) -> Option<usize>
    ensures { index result ≡ Slots.slot_for number (Slots.memory floats.now counts.now) }
{
    slot_of(floats, counts, number).or(first_slot(floats, counts, 0))
}

// The slot of a number.
pub fn slot_of(floats: &[f64; 2568], counts: &[u64; 152], number: u8) -> Option<usize>
    ensures { index result ≡ Slots.slot_of number (Slots.memory floats.now counts.now) }
{
    let tag = number as u64 + 1;
    first_slot(floats, counts, tag)
}

// The windows that the run in a slot has measured.
pub fn windows_at(counts: &[u64; 152], slot: usize) -> u64
    requires { slot < 8 }
    ensures { (floats : List Float) → result ≡ Slots.windows_at slot (Slots.memory floats counts.now) }
{
    counts[19 * slot + 1]
}

// ---- a run in a slot

// Writes the counts of a slot: a tag and what a run has counted.
fn save_counts(counts: &mut [u64; 152], slot: usize, tag: u64, progress: &Progress)
    requires { slot < 8 }
    ensures { counts.new ≡ sets counts.old (19 * slot) (tag ∷ progress.now.windows ∷ progress.now.steps ∷ progress.now.faint) }
{
    let c = 19 * slot;
    counts[c] = tag;
    counts[c + 1] = progress.windows;
    counts[c + 2] = progress.steps;
    let a = c + 3;
    let e = a + 16;
    counts[a..e].copy_from_slice(&progress.faint);
}

// Lays a run down in a slot, under a number.
pub fn save(
    floats: &mut [f64; 2568],
    counts: &mut [u64; 152],
    slot: usize,
    number: u8,
    state: &[f64],
    tangents: &[f64],
    norms: &[f64; 32],
    k: usize,
    progress: &Progress,
)
    requires { Contracts.Saves slot (length state.now) k (held state.now tangents.now norms.now progress.now) }
    ensures { Slots.memory floats.new counts.new
        ≡ Slots.saved slot number (run_state (length state.now) k (held state.now tangents.now norms.now progress.now)) (Slots.memory floats.old counts.old) }
{
    let a = 321 * slot + 16;
    let e = a + tangents.len();
    floats::copy_pairs(&mut floats[a..e], tangents, tangents.len());
    beside::save_beside(floats, counts, slot, number, state, norms, k, progress);
}

// The k faint counts of a slot, and zeros behind them.
pub fn faint_at(counts: &[u64; 152], slot: usize, k: usize) -> [u64; 16]
    requires { (slot < 8) × (k ≤ 16) }
    ensures { result ≡ part (19 * slot + 3) k counts.now ++ drop k (replicate 16 0) }
{
    let mut faint = [0u64; 16];
    let a = 19 * slot + 3;
    let e = a + k;
    floats::copy_pairs(&mut faint, &counts[a..e], k);
    faint
}

// Takes the run of a slot up, as one of k directions.
pub fn load(
    floats: &[f64; 2568],
    counts: &[u64; 152],
    slot: usize,
    state: &mut [f64],
    tangents: &mut [f64],
    norms: &mut [f64; 32],
    k: usize,
) -> Progress
    requires { Contracts.Loads slot (length state.old) k (Slots.memory floats.now counts.now) state.old tangents.old }
    ensures { Contracts.Loaded slot (length state.old) k (Slots.memory floats.now counts.now) (held state.new tangents.new norms.new result) }
{
    let n = tangents.len();
    let a = 321 * slot + 16;
    let e = a + n;
    floats::copy_pairs(tangents, &floats[a..e], n);
    beside::load_vectors(floats, slot, state, norms, k);
    beside::progress_at(floats, counts, slot, faint_at(counts, slot, k))
}
