//! `find`, also for ids that omit names of slots that their classes use.
ghost use Rattle.std.specs.Prelude.{◌≡◌, ◌<◌, length, IfOk, IfErr};
ghost use Rattle.slotted_slots.specs.Error.{IsOutOfMemory};
ghost use Rattle.slotted_model.specs.Find.{find};
ghost use Rattle.slotted_proofs.specs.Equations.{to_applied};
ghost use Rattle.slotted_classes.specs.Finding.{HasFinds, IsFindable};
ghost use Rattle.slotted_classes.specs.Kept.{entries_of};
ghost use Rattle.slotted_lookup.specs.LookUp.{IsFoundFor, found_slots};

use slotted_classes::Store;
use slotted_languages::Language;
use slotted_slots::{AppliedId, Error, Id, SlotMap};
use std::alloc::Global;

/// Returns what `find` maps a valid id to.
pub fn find_applied_id<L: Language>(
    store: &Store<L>,
    alloc: Global,
    a: &AppliedId,
) -> Result<AppliedId, Error>
    requires good { HasFinds store.now }
    requires findable { IsFindable store.now (to_applied a.now) }
    ensures ok { IfOk result (λ b. to_applied b ≡ find (entries_of store.now) (to_applied a.now)) }
    ensures found { IfOk result (λ b. IsFoundFor store.now (to_applied a.now) (to_applied b)) }
    ensures err { IfErr result IsOutOfMemory }
{
    let found = store.found_id(alloc, a)?;
    Ok(found)
}

/// Returns the live class of a class, with the slot of the class for which each of its slots stands.
pub fn found_class<L: Language>(
    store: &Store<L>,
    alloc: Global,
    class: usize,
) -> Result<AppliedId, Error>
    requires good { HasFinds store.now }
    requires within { class < length store.now.classes }
    ensures ok { IfOk result (λ a. to_applied a ≡ found_slots (entries_of store.now) class) }
    ensures err { IfErr result IsOutOfMemory }
{
    let found = store.find_class(class);
    let slots = &store.entry(found).m;
    let mut m = SlotMap::new(alloc);
    for i in 0..slots.len() {
        let slot = slots.value_at(i);
        if let Some(own) = store.found_slot(class, slot) {
            m.insert(slot, own)?;
        }
    }
    Ok(AppliedId { id: Id(found), m })
}

/// Returns what `find` maps a class to, with these names for its slots.
///
/// Names of slots that the class uses may be missing. Then the result omits them too.
pub fn found_with<L: Language>(
    store: &Store<L>,
    alloc: Global,
    class: usize,
    names: &SlotMap,
) -> Result<AppliedId, Error>
    requires good { HasFinds store.now }
    requires within { class < length store.now.classes }
    ensures ok { IfOk result (λ a. to_applied a ≡ find (entries_of store.now) (class, names.now)) }
    ensures err { IfErr result IsOutOfMemory }
{
    let entry = store.entry(class);
    if entry.id.0 == class {
        return Ok(AppliedId {
            id: Id(class),
            m: entry.m.compose_partial(alloc, names)?,
        });
    }
    let found = found_class(store, alloc, class)?;
    Ok(AppliedId {
        id: found.id,
        m: found.m.compose_partial(alloc, names)?,
    })
}
