//! Path compression.
//!
//! A dead class whose `find` was proved step by step is made to lead at once to its live class.
ghost use Rattle.std.specs.Prelude.{◌≡◌, ◌↔◌, ◌<◌, length, IsTrue, IfOk, IfErr, OnOk, IsErrOf};
ghost use Rattle.slotted_slots.specs.Error.{IsOutOfMemory, IsShortage};
ghost use Rattle.slotted_model.specs.Find.{find_class, find_map};
ghost use Rattle.slotted_proofs.specs.Equations.{to_applied};
ghost use Rattle.slotted_classes.specs.Kept.{entries_of};
ghost use Rattle.slotted_classes.specs.Stored.{Stored};
ghost use Rattle.slotted_rebuilding.specs.Proving.{HasLargeClassOf};
ghost use Rattle.slotted_rebuilding.specs.Shortcuts.{LeadsAtOnce, Shortens, ShortensPath, HasLargeFoundClass};

use crate::unions::proving::find_proof;
use slotted_classes::Store;
use slotted_languages::Language;
use slotted_slots::{AppliedId, Error, Id};
use std::alloc::Global;

// Returns whether a class leads to a live one, as each live class does.
fn leads_at_once<L: Language>(store: &Store<L>, id: usize) -> bool
    requires good { Stored store.now }
    requires within { id < length store.now.classes }
    ensures { IsTrue result ↔ LeadsAtOnce store.now id }
{
    let next = store.entry(id).id.0;
    store.entry(next).id.0 == next
}

// Returns the live class of a class, with a slot of the class for each slot of that.
fn found_entry<L: Language>(store: &Store<L>, alloc: Global, id: usize) -> Result<AppliedId, Error>
    requires good { Stored store.now }
    requires within { id < length store.now.classes }
    ensures ok { IfOk result (λ a. to_applied a ≡ (find_class (entries_of store.now) id, find_map (entries_of store.now) id)) }
    ensures err { IfErr result IsOutOfMemory }
{
    Ok(AppliedId {
        id: Id(store.find_class(id)),
        m: store.found_map(alloc, id)?,
    })
}

/// Makes a class lead at once to its live class, by a proof of this. Nothing changes if the class does so already.
pub fn shorten<L: Language>(store: &mut Store<L>, alloc: Global, id: usize) -> Result<(), Error>
    requires good { Stored store.old }
    requires within { id < length store.old.classes }
    ensures ok { OnOk result (ShortensPath store.old store.new id) }
    ensures full { IsErrOf result Error.OutOfSlots → HasLargeClassOf store.old id id }
    ensures err { IfErr result IsShortage }
{
    if leads_at_once(store, id) {
        return Ok(());
    }
    let find = found_entry(store, alloc, id)?;
    let proof = find_proof(store, alloc, id)?;
    store.set_shortcut(id, find, proof);
    Ok(())
}

// Makes each of some classes lead at once to its live class. A number that is no class is passed over.
fn shorten_each<L: Language>(
    store: &mut Store<L>,
    alloc: Global,
    ids: &[usize],
) -> Result<(), Error>
    requires good { Stored store.old }
    ensures ok { OnOk result (Shortens store.old store.new) }
    ensures full { IsErrOf result Error.OutOfSlots → HasLargeFoundClass store.old }
    ensures err { IfErr result IsShortage }
{
    for id in ids {
        if *id < store.class_count() {
            shorten(store, alloc, *id)?;
        }
    }
    Ok(())
}

/// Compresses the paths of all classes whose `find` was proved step by step since the last call.
pub fn compress_paths<L: Language>(store: &mut Store<L>, alloc: Global) -> Result<(), Error>
    requires good { Stored store.old }
    ensures ok { OnOk result (Shortens store.old store.new) }
    ensures full { IsErrOf result Error.OutOfSlots → HasLargeFoundClass store.old }
    ensures err { IfErr result IsShortage }
{
    let walked = store.take_walked(alloc);
    shorten_each(store, alloc, walked.as_slice())?;
    store.take_walked(alloc);
    Ok(())
}
