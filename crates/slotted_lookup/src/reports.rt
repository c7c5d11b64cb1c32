//! What a graph tells of its classes and of its filed e-nodes. Nothing here writes.
ghost use Rattle.std.specs.Prelude.{◌≡◌, ◌<◌, ◌↔◌, length, is_some, IsTrue, IfOk, IfErr};
ghost use Rattle.slotted_slots.specs.Error.{IsOutOfMemory};
ghost use Rattle.slotted_model.specs.Correspondence.{identity};
ghost use Rattle.slotted_model.specs.Find.{IsLive, used_slots};
ghost use Rattle.slotted_proofs.specs.Equations.{to_applied};
ghost use Rattle.slotted_hashcons.specs.Filed.{filed_of};
ghost use Rattle.slotted_hashcons.specs.FiledRows.{rows_in};
ghost use Rattle.slotted_classes.specs.Finding.{HasFinds, IsFindable};
ghost use Rattle.slotted_classes.specs.Kept.{entries_of};
ghost use Rattle.slotted_lookup.specs.Reports.{class_sources};

use crate::finding::found_class;
use slotted_classes::Store;
use slotted_hashcons::Hashcons;
use slotted_languages::Language;
use slotted_slots::{AppliedId, Error, Id, Slot, SlotMap, SmallHashSet};
use std::alloc::Global;

// Classes.

/// Returns whether a class is live. Takes no memory.
pub fn is_alive<L: Language>(store: &Store<L>, class: usize) -> bool
    requires { class < length store.now.classes }
    ensures { IsTrue result ↔ IsLive (entries_of store.now) class }
{
    store.entry(class).id.0 == class
}

/// Returns the slots of a class that are in use: of a live class, those that are not redundant.
pub fn slots_of<L: Language>(
    store: &Store<L>,
    alloc: Global,
    class: usize,
) -> Result<SmallHashSet<Slot>, Error>
    requires good { HasFinds store.now }
    requires within { class < length store.now.classes }
    ensures ok { IfOk result (λ s. s ≡ used_slots (entries_of store.now) class) }
    ensures err { IfErr result IsOutOfMemory }
{
    let found = found_class(store, alloc, class)?;
    let slots = found.m.values(alloc)?;
    Ok(slots)
}

/// Returns a class with each slot that is in use as its own name.
pub fn mk_identity_applied_id<L: Language>(
    store: &Store<L>,
    alloc: Global,
    class: usize,
) -> Result<AppliedId, Error>
    requires good { HasFinds store.now }
    requires within { class < length store.now.classes }
    ensures ok { IfOk result (λ a. to_applied a ≡ (class, identity (used_slots (entries_of store.now) class))) }
    ensures findable { IfOk result (λ a. IsFindable store.now (to_applied a)) }
    ensures err { IfErr result IsOutOfMemory }
{
    let slots = slots_of(store, alloc, class)?;
    Ok(AppliedId {
        id: Id(class),
        m: SlotMap::identity(alloc, &slots)?,
    })
}

// Filed e-nodes.

// Returns whether an e-node is filed for a class.
fn is_filed<L: Language>(nodes: &Hashcons<L>, class: usize) -> bool
    ensures { result ≡ is_some (filed_of nodes.now.filed class) }
{
    nodes.node(class).is_some()
}

/// Returns the number of filed e-nodes. Takes no memory.
pub fn filed_count<L: Language>(nodes: &Hashcons<L>) -> usize
    ensures { result ≡ length (rows_in nodes.now.filed) }
{
    nodes.len()
}

/// Returns the sources of the filed e-nodes of a live class, ascending.
pub fn class_nodes<L: Language>(
    store: &Store<L>,
    nodes: &Hashcons<L>,
    alloc: Global,
    class: usize,
) -> Result<Vec<usize>, Error>
    requires good { HasFinds store.now }
    requires count { length nodes.now.filed ≡ length store.now.classes }
    ensures ok { IfOk result (λ v. v.items ≡ class_sources store.now nodes.now class) }
    ensures err { IfErr result IsOutOfMemory }
{
    let mut sources = Vec::new(alloc);
    for source in 0..nodes.class_count() {
        if is_filed(nodes, source) && store.find_class(source) == class {
            sources.push(source)?;
        }
    }
    Ok(sources)
}
