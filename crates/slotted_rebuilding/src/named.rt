//! The syntactic e-node of a class with the names of an id put in.
ghost use Rattle.std.specs.Prelude.{IfOk, IfErr, IsErrOf};
ghost use Rattle.slotted_slots.specs.Error.{IsShortage};
ghost use Rattle.slotted_model.specs.Classes.{IsFull};
ghost use Rattle.slotted_proofs.specs.Equations.{to_applied};
ghost use Rattle.slotted_classes.specs.Kept.{nodes_of};
ghost use Rattle.slotted_rebuilding.specs.Named.{IsNodeOf, IsWideClass};

use slotted_classes::Store;
use slotted_languages::Language;
use slotted_slots::{AppliedId, Error, SlotTable};
use std::alloc::Global;

/// Returns the syntactic e-node of an id's class, with the names of the id put in. The fresh names at its binders
/// come from a table of the call's own.
pub fn named_node<L: Language>(store: &Store<L>, alloc: Global, a: &AppliedId) -> Result<L, Error>
    requires { IsFull (nodes_of store.now) (to_applied a.now) }
    ensures ok { IfOk result (λ n. IsNodeOf (nodes_of store.now) (to_applied a.now) (L.form n)) }
    ensures full { IsErrOf result Error.OutOfSlots → IsWideClass (nodes_of store.now) a.now.id.0 }
    ensures err { IfErr result IsShortage }
{
    let mut table = SlotTable::new(alloc);
    store.node_of(a.id.0).apply_slotmap(alloc, &a.m, &mut table)
}
