//! The counts of the last rebuild, and of all rebuilds so far.
ghost use Rattle.std.specs.Prelude.{◌≡◌, ◌≤◌, ◌<◌, ◌+◌, ◌^◌, ◌*◌, ℕ, length, slice_get, cond, Some, false};
ghost use Rattle.slotted_model.specs.Rest.{entry_size};
ghost use Rattle.slotted_classes.specs.Kept.{find_at, size_of};
ghost use Rattle.slotted_classes.specs.Counts.{last_count};
ghost use Rattle.slotted_data.specs.Counted.{IsWithinBound, came_last, heights_of, last_of, most_size, told_at, totals_with};
ghost use Rattle.slotted_data.specs.Held.{no_turns};
ghost use Rattle.slotted_data.specs.Pending.{lives_in};
ghost use Rattle.slotted_data.specs.Carrying.{AreCounted};

use crate::Analysis;
use crate::class_data::ClassData;
use slotted_classes::{RebuildCount, Store};
use slotted_languages::Language;

// Returns the size of a class: 1, the number of its slots, and the height of its data. The size of a dead class is 0.
fn class_size<L: Language, N: Analysis<L>>(
    store: &Store<L>,
    data: &ClassData<N::Data>,
    analysis: &N,
    class: usize,
) -> u128
    requires within { class < length store.now.classes }
    requires count { length «data».now.values ≡ length store.now.classes }
    ensures value { (x : N.Data) → slice_get «data».now.values class ≡ Some x → result
        ≡ entry_size class (find_at store.now class) + cond (lives_in store.now class) ((N.meaning analysis.now).height x) 0 }
    ensures bound { result ≤ 2 ^ 64 + 2 ^ 32 }
{
    let entry = store.entry(class);
    if entry.id.0 != class {
        return 0;
    }
    entry.m.len() as u128 + 1 + analysis.height(data.value(class)) as u128
}

/// Returns the size of a graph: the number of its live classes and of their slots, and the heights of their data. Takes
/// no memory.
pub fn size_with_heights<L: Language, N: Analysis<L>>(
    store: &Store<L>,
    data: &ClassData<N::Data>,
    analysis: &N,
) -> u128
    requires count { length «data».now.values ≡ length store.now.classes }
    ensures value { result ≡ size_of store.now + heights_of (lives_in store.now) (N.meaning analysis.now) 0 «data».now.values }
    ensures bound { result ≤ most_size }
{
    let mut size: u128 = 0;
    for class in 0..data.count() {
        size += class_size(store, data, analysis, class);
    }
    size
}

// Returns whether turns for data were taken, and no other rebuild came after them.
fn data_came_last<L: Language, D: Drop>(store: &Store<L>, data: &ClassData<D>) -> bool
    ensures { result ≡ came_last store.now.counts «data».now.counts }
{
    let (turns, bound) = data.rebuilt();
    let (later_turns, later_bound) = store.rebuild_totals();
    data.last_turns().turns > 0 && turns == later_turns && bound == later_bound
}

// Returns the counts of the last rebuild. This is the one of data if no other rebuild came after it.
fn last_count_of<L: Language, D: Drop>(store: &Store<L>, data: &ClassData<D>) -> RebuildCount
    ensures last { result ≡ last_count (last_of store.now.counts «data».now.counts) }
    ensures fits { result.turns < 2 ^ 64 }
{
    if data_came_last(store, data) {
        data.last_turns()
    } else {
        store.last_rebuild()
    }
}

/// Returns what the last rebuild did. This is the one of data if no other rebuild came after it.
///
/// Both sizes have the heights of the data as they are now. The size that was found is larger than the one that was
/// left by as much as the rebuild lowered it. Takes no memory.
pub fn last_rebuild<L: Language, N: Analysis<L>>(
    store: &Store<L>,
    data: &ClassData<N::Data>,
    analysis: &N,
) -> RebuildCount
    requires counts { AreCounted (N.meaning analysis.now) store.now «data».now }
    ensures told { result ≡ told_at (last_of store.now.counts «data».now.counts)
        (size_of store.now + heights_of (lives_in store.now) (N.meaning analysis.now) 0 «data».now.values) }
    ensures within { IsWithinBound result }
    ensures low { «data».now.tall ≡ false → result ≡ last_count store.now.counts }
{
    if !data.is_tall() {
        return store.last_rebuild();
    }
    let last = last_count_of(store, data);
    let size = size_with_heights(store, data, analysis);
    let fall = last.size_before.saturating_sub(last.size_after);
    RebuildCount {
        nodes: last.nodes,
        size_before: size.saturating_add(fall),
        size_after: size,
        turns: last.turns,
    }
}

/// Returns how many turns all rebuilds took, those of data included, and how many their bounds allow. A sum that would
/// be too large stays at the largest number. Takes no memory.
pub fn rebuild_totals<L: Language, D: Drop>(store: &Store<L>, data: &ClassData<D>) -> (u64, u128)
    ensures totals { result ≡ totals_with store.now.counts «data».now.counts }
    ensures still { «data».now.counts ≡ no_turns → result ≡ (store.now.counts.total_turns, store.now.counts.total_bound) }
{
    let (turns, bound) = store.rebuild_totals();
    let (more_turns, more_bound) = data.turn_totals();
    (
        turns.saturating_add(more_turns),
        bound.saturating_add(more_bound),
    )
}
