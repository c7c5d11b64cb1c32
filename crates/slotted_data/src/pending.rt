//! The live classes that wait to be modified.
ghost use Rattle.std.specs.Prelude.{◌≡◌, count_by, IfOk, IfErr, OnOk};
ghost use Rattle.slotted_slots.specs.Error.{IsOutOfMemory};
ghost use Rattle.slotted_data.specs.Held.{with_none_changed};
ghost use Rattle.slotted_data.specs.Pending.{ArePending, lives_in};

use crate::class_data::ClassData;
use slotted_classes::Store;
use slotted_languages::Language;
use slotted_slots::Error;
use std::alloc::Global;

// Returns whether a number is that of a live class.
fn is_live<L: Language>(store: &Store<L>, class: usize) -> bool
    ensures { result ≡ lives_in store.now class }
{
    class < store.class_count() && store.entry(class).id.0 == class
}

/// Returns how many live classes wait to be modified. Takes no memory.
pub fn pending_count<L: Language, D: Drop>(store: &Store<L>, data: &ClassData<D>) -> usize
    ensures { result ≡ count_by (lives_in store.now) «data».now.changed }
{
    let mut count = 0;
    for k in 0..data.changed_count() {
        if let Some(class) = data.changed_at(k) {
            if is_live(store, class) {
                count += 1;
            }
        }
    }
    count
}

/// Removes and returns the classes that wait to be modified, by ascending id. Dead ones are left out.
pub fn take_pending<L: Language, D: Drop>(
    store: &Store<L>,
    data: &mut ClassData<D>,
    alloc: Global,
) -> Result<Vec<usize>, Error>
    ensures taken { IfOk result (λ v. ArePending store.now «data».old.changed v.items) }
    ensures left { OnOk result («data».new ≡ with_none_changed «data».old) }
    ensures err { IfErr result IsOutOfMemory }
{
    let taken = data.take_changed(alloc)?;
    let mut live = Vec::new(alloc);
    for class in &taken {
        if is_live(store, *class) {
            live.push(*class)?;
        }
    }
    live.sort()?;
    Ok(live)
}
