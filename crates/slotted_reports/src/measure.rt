//! The progress of a graph. Nothing in this module takes memory.
ghost use Rattle.std.specs.Prelude.{◌≡◌, length};
ghost use Rattle.slotted_nodes.specs.Form.{counted};
ghost use Rattle.slotted_lookup.specs.Reports.{live_ids};
ghost use Rattle.slotted_reports.specs.Measure.{live_slots};

use slotted_classes::Store;
use slotted_languages::Language;
use slotted_lookup::reports::is_alive;

/// How far a graph has come. No call lowers the number of classes. While this number stays the same, the number of live
/// classes never rises; while both stay the same, the sum of slots never rises.
#[derive(Drop, PartialEq, Eq)]
pub struct ProgressMeasure {
    /// The number of classes, including dead ones.
    pub number_of_classes: usize,

    /// The number of live classes.
    pub number_of_live_classes: usize,

    /// The number of slots of all live classes together, at most `usize::MAX`.
    pub sum_of_slots: usize,

    /// The number of live classes once more: each has the identity as a symmetry, and listed symmetries are not
    /// counted.
    pub sum_of_symmetries: usize,
}

// Returns the number of live classes.
fn live_count<L: Language>(store: &Store<L>) -> usize
    ensures { result ≡ length (live_ids store.now) }
{
    let mut count = 0;
    for class in 0..store.class_count() {
        if is_alive(store, class) {
            count += 1;
        }
    }
    count
}

// Returns the number of slots of all live classes together.
fn slot_count<L: Language>(store: &Store<L>) -> usize
    ensures { result ≡ counted (live_slots store.now) }
{
    let mut count = 0usize;
    for class in 0..store.class_count() {
        if is_alive(store, class) {
            count = count.saturating_add(store.entry(class).m.len());
        }
    }
    count
}

/// Returns the progress measure of a graph.
pub fn progress<L: Language>(store: &Store<L>) -> ProgressMeasure
    ensures classes { result.number_of_classes ≡ length store.now.classes }
    ensures live { result.number_of_live_classes ≡ length (live_ids store.now) }
    ensures slots { result.sum_of_slots ≡ counted (live_slots store.now) }
    ensures symmetries { result.sum_of_symmetries ≡ length (live_ids store.now) }
{
    let live = live_count(store);
    ProgressMeasure {
        number_of_classes: store.class_count(),
        number_of_live_classes: live,
        sum_of_slots: slot_count(store),
        sum_of_symmetries: live,
    }
}
