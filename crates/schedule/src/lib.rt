// A dispatcher in memory that a caller lends: which run is in front, what is set of it, and the queue of names.
//
// specs/Schedule.antt says what memory holds, whatever its content is: a slot with what no dispatcher can have left counts as
// no run. Each function equals a definition there. They are for other crates of ours, and some have a `requires`: a name below
// 8, or room in the queue. The two arrays stay apart, and the names lie behind their count, since a caller lends the memory, as C
// lends a store's. Crate store lays the runs down and takes them up; crate dispatch has the calls.
#![tactic(auto)]

ghost use Rattle.std.specs.Prelude.{◌≡◌, ◌+◌, ◌*◌, ◌<◌, [], ◌∷◌, length, set};
ghost use Rattle.std.proofs.lemmas.List.Edits.{sets};
ghost use Rattle.floats.specs.Finite.{index};
ghost use Rattle.system_numbers.specs.Numbers.{numbers};
ghost use Rattle.store.specs.Slots as Slots;
ghost use Rattle.turns.specs.Dispatcher.{member, least_free};
ghost use Rattle.schedule.specs.Schedule as Schedule;
ghost use Rattle.schedule.specs.Promises as Contracts;

use benettin::BenettinConfig;
use system::System;
use system_numbers::Numbered;

// What is set of an unfinished run, and how many warm-up windows of it are made. Its directions are drawn already, so the seed
// is 0.
#[derive(Clone, Copy)]
pub struct Settings {
    pub system: System,
    pub config: BenettinConfig,
    pub warmed: u64,
}

// ---- the queue

// How many names are in the queue.
pub fn queue_length(queue: &[u64; 73]) -> usize
    ensures { result ≡ length (Schedule.names_in queue.now) }
{
    if queue[64] < 8 { queue[64] as usize } else { 8 }
}

// Whose turn is next.
pub fn next(queue: &[u64; 73]) -> Option<usize>
    ensures { index result ≡ Schedule.next_in queue.now }
{
    if queue[64] == 0 {
        return None;
    }
    if queue[65] < 8 {
        Some(queue[65] as usize)
    } else {
        None
    }
}

// Whether a name is among others.
fn is_queued(names: &[u64], name: u64) -> bool
    ensures { result ≡ member name names.now }
{
    names.contains(&name)
}

// The least name that is not among these.
fn least_name(names: &[u64]) -> usize
    ensures { result ≡ least_free names.now }
{
    for name in 0..names.len() {
        if !is_queued(names, name as u64) {
            return name;
        }
    }
    names.len()
}

// The name of a new run.
pub fn new_name(queue: &[u64; 73]) -> usize
    ensures { result ≡ least_free (Schedule.names_in queue.now) }
{
    let e = 65 + queue_length(queue);
    least_name(&queue[65..e])
}

// The run in front goes to the back.
pub fn requeue(queue: &mut [u64; 73])
    requires { 0 < length (Schedule.names_in queue.old) }
    ensures { queue.new ≡ Schedule.rotated queue.old }
{
    // `rotate_left` would call the C library (docs/DECISIONS.md, 43).
    let n = queue_length(queue);
    let e = 65 + n;
    let mut names = [0; 8];
    floats::copy_pairs(&mut names, &queue[66..], n - 1);
    names[n - 1] = queue[65];
    floats::copy_pairs(&mut queue[65..e], &names, n);
}

// The run in front leaves.
pub fn dequeue(queue: &mut [u64; 73])
    requires { 0 < length (Schedule.names_in queue.old) }
    ensures { queue.new ≡ Schedule.shortened queue.old }
{
    let n = queue_length(queue);
    requeue(queue);
    queue[64] = n as u64 - 1;
}

// A name goes to the back.
pub fn enqueue(queue: &mut [u64; 73], name: usize)
    requires { length (Schedule.names_in queue.old) < 8 }
    ensures { queue.new ≡ Schedule.lengthened name queue.old }
{
    let n = queue_length(queue);
    queue[65 + n] = name as u64;
    queue[64] = n as u64 + 1;
}

// ---- what is set of a run

pub fn settings_at(settings: &[f64; 32], queue: &[u64; 73], slot: usize) -> Settings
    requires { slot < 8 }
    ensures { result ≡ Contracts.settings_at slot settings.now queue.now }
{
    let a = 4 * slot;
    let c = 8 * slot;
    let system = System::from(Numbered {
        kind: queue[c],
        p0: settings[a + 1],
        p1: settings[a + 2],
        p2: settings[a + 3],
        dimension: queue[c + 1] as usize,
    });
    let config = BenettinConfig {
        top_k: queue[c + 2] as usize,
        step_size: settings[a],
        steps_per_window: queue[c + 3],
        windows: queue[c + 4],
        transient_windows: queue[c + 5],
        steps_per_transient_window: queue[c + 6],
        seed: 0,
    };
    Settings {
        system,
        config,
        warmed: queue[c + 7],
    }
}

// Writes what is set of a new run.
pub fn save_settings(
    settings: &mut [f64; 32],
    queue: &mut [u64; 73],
    slot: usize,
    system: System,
    config: BenettinConfig,
)
    requires { slot < 8 }
    ensures { (settings.new ≡ sets settings.old (4 * slot) (config.step_size ∷ (numbers system).p0 ∷ (numbers system).p1 ∷ (numbers system).p2 ∷ []))
        × (queue.new ≡ sets queue.old (8 * slot)
        ((numbers system).kind ∷ (numbers system).dimension ∷ config.top_k ∷ config.steps_per_window ∷ config.windows ∷ config.transient_windows ∷ config.steps_per_transient_window ∷ 0 ∷ [])) }
{
    let n = Numbered::from(system);
    let floats = [config.step_size, n.p0, n.p1, n.p2];
    let a = 4 * slot;
    let b = a + 4;
    settings[a..b].copy_from_slice(&floats);
    let dimension = n.dimension as u64;
    let top_k = config.top_k as u64;
    let steps = config.steps_per_window;
    let counts = [
        n.kind,
        dimension,
        top_k,
        steps,
        config.windows,
        config.transient_windows,
        config.steps_per_transient_window,
        0,
    ];
    let c = 8 * slot;
    let d = c + 8;
    queue[c..d].copy_from_slice(&counts);
}

// ---- the run in front

// Whether these are the settings of a run that has finished so many windows, and not all of them.
fn is_unfinished(settings: Settings, finished: u64) -> bool
    ensures { result ≡ Contracts.unfinished_by settings finished }
{
    let system = settings.system;
    let config = settings.config;
    let set = benettin::validation::validate_settings(config, config.windows);
    let dimension = system_validation::validate_dimension(system);
    let count = benettin::validation::validate_count(system, config.top_k);
    if set.and(dimension).and(count).is_err() {
        return false;
    }
    finished < config.windows && settings.warmed <= config.transient_windows
}

// Whether a slot holds an unfinished run.
#[tactic(auto, unfolding(crate::specs::Schedule::sound_at))]
fn is_sound(
    floats: &[f64; 2568],
    counts: &[u64; 152],
    settings: &[f64; 32],
    queue: &[u64; 73],
    slot: usize,
) -> bool
    requires { slot < 8 }
    ensures { result ≡ Schedule.sound_at slot (Schedule.memory (Slots.memory floats.now counts.now) settings.now queue.now) }
{
    if store::tag_at(floats, counts, slot) == 0 {
        return false;
    }
    let set = settings_at(settings, queue, slot);
    is_unfinished(set, store::windows_at(counts, slot))
}

// The run that is next, where it is one.
pub fn front(
    floats: &[f64; 2568],
    counts: &[u64; 152],
    settings: &[f64; 32],
    queue: &[u64; 73],
) -> Option<usize>
    ensures { index result ≡ Schedule.front (Schedule.memory (Slots.memory floats.now counts.now) settings.now queue.now) }
{
    let slot = next(queue)?;
    if is_sound(floats, counts, settings, queue, slot) {
        Some(slot)
    } else {
        None
    }
}
