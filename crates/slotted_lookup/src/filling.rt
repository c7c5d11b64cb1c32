//! Filling: an id gets fresh slots for the names that it omits, and so does each child of an e-node.
ghost use Rattle.std.specs.Prelude.{◌≡◌, unwrap_or, IfOk, IfErr, OnOk, OnErr, IsErrOf, IsOkUnless};
ghost use Rattle.slotted_slots.specs.Error.{IsShortage};
ghost use Rattle.slotted_slots.specs.Maps.{keys, values, value_of};
ghost use Rattle.slotted_slots.specs.Table.{KnowsMore, fresh_slot};
ghost use Rattle.slotted_model.specs.Classes.{IsFull};
ghost use Rattle.slotted_proofs.specs.Equations.{to_applied};
ghost use Rattle.slotted_classes.specs.Finding.{IsFindable};
ghost use Rattle.slotted_classes.specs.Kept.{nodes_of, rows_from};
ghost use Rattle.slotted_hashcons.specs.NormalNodes.{HasFindableChildren};
ghost use Rattle.slotted_lookup.specs.Filling.{FillsChildren, FillsId, HasFullChildren, HasOneNormalForm};
ghost use Rattle.slotted_languages.specs.Beside.{IsBeside};
ghost use Rattle.slotted_lookup.specs.Filling.{KeepsKnown, MakesAtMost, MakesFull, RunsOut, RunsOutForId};
ghost use Rattle.slotted_lookup.specs.Filling.{RunsOutForNode, filled_id, filled_node, lack, lacked, missing};
ghost use Rattle.slotted_lookup.specs.Filling.{missing_of, named, with_fresh};

use slotted_classes::Store;
use slotted_classes::names::map_between;
use slotted_languages::Language;
use slotted_slots::{AppliedId, Error, Slot, SlotMap, SlotTable};
use std::alloc::Global;

// Returns the name of a slot, or a fresh slot if it has none.
fn name_or_fresh(names: &SlotMap, slot: Slot, table: &mut SlotTable) -> Result<Slot, Error>
    ensures name { IfOk result (λ x. x ≡ unwrap_or (value_of names.now slot) (fresh_slot table.old.fresh)) }
    ensures made { OnOk result (table.new ≡ with_fresh (lack (value_of names.now slot)) table.old) }
    ensures more { KnowsMore table.old table.new }
    ensures full { OnErr result (RunsOut (lack (value_of names.now slot)) table.old table.new) }
    ensures only { IsOkUnless result Error.OutOfSlots }
    ensures err { OnErr result (table.new ≡ table.old) }
{
    match names.get(slot) {
        Some(name) => Ok(name),
        None => table.fresh(),
    }
}

// Replaces each value by its name, or by a fresh slot if it has none.
fn name_values(slots: &mut SlotMap, names: &SlotMap, table: &mut SlotTable) -> Result<(), Error>
    ensures keys { OnOk result (keys slots.new ≡ keys slots.old) }
    ensures values { OnOk result (values slots.new ≡ named table.old.fresh names.now (values slots.old)) }
    ensures made { OnOk result (table.new ≡ with_fresh (lacked names.now (values slots.old)) table.old) }
    ensures takes { MakesAtMost (lacked names.now (values slots.old)) table.old table.new }
    ensures more { KnowsMore table.old table.new }
    ensures full { IsErrOf result Error.OutOfSlots → RunsOut (lacked names.now (values slots.old)) table.old table.new }
    ensures only { IsOkUnless result Error.OutOfSlots }
{
    for i in 0..slots.len() {
        let name = name_or_fresh(names, slots.value_at(i), table)?;
        slots.set_value_at(i, name);
    }
    Ok(())
}

/// Returns the full id of an id: with a fresh slot for each canonical slot of its class for which it omits the name,
/// in the order of these slots.
///
/// A full id is returned as it is.
pub fn fill_id<L: Language>(
    store: &Store<L>,
    alloc: Global,
    table: &mut SlotTable,
    a: &AppliedId,
) -> Result<AppliedId, Error>
    requires rows { store.now.rows ≡ rows_from 0 store.now.classes }
    requires findable { IsFindable store.now (to_applied a.now) }
    ensures id { IfOk result (λ b. to_applied b ≡ filled_id store.now table.old.fresh (to_applied a.now)) }
    ensures fills { IfOk result (λ b. FillsId store.now table.old (to_applied a.now) (to_applied b)) }
    ensures same { IfOk result (λ b. IsFull (nodes_of store.now) (to_applied a.now) → to_applied b ≡ to_applied a.now) }
    ensures known { IfOk result (λ b. KeepsKnown table.old table.new (values a.now.m) (values b.m)) }

    // One fresh slot is made for each missing name, and the table keeps its names.
    ensures made { OnOk result (table.new ≡ with_fresh (missing store.now (to_applied a.now)) table.old) }
    ensures takes { MakesAtMost (missing store.now (to_applied a.now)) table.old table.new }
    ensures more { KnowsMore table.old table.new }
    ensures full { IsErrOf result Error.OutOfSlots → RunsOutForId store.now (to_applied a.now) table.old table.new }
    ensures err { IfErr result IsShortage }
{
    let slots = store.names_of(a.id.0);
    let mut names = map_between(alloc, slots, slots)?;
    name_values(&mut names, &a.m, table)?;
    Ok(AppliedId { id: a.id, m: names })
}

/// Returns a copy of the e-node with each child filled, from the left. An e-node over full ids is returned as it is.
pub fn fill_node<L: Language>(
    store: &Store<L>,
    alloc: Global,
    table: &mut SlotTable,
    node: &L,
) -> Result<L, Error>
    requires rows { store.now.rows ≡ rows_from 0 store.now.classes }
    requires children { HasFindableChildren store.now (L.form node.now) }
    ensures node { IfOk result (λ n. L.form n ≡ filled_node store.now table.old.fresh (L.form node.now)) }
    ensures children { IfOk result (λ n. MakesFull store.now table.old (L.form node.now) (L.form n)) }
    ensures fills { IfOk result (λ n. FillsChildren store.now table.old (L.form node.now) (L.form n)) }
    ensures beside { IfOk result (λ n. IsBeside (L.form node.now) (L.form n)) }
    ensures normal { IfOk result (λ n. HasOneNormalForm store.now (L.form node.now) (L.form n)) }
    ensures same { IfOk result (λ n. HasFullChildren store.now (L.form node.now) → L.form n ≡ L.form node.now) }
    ensures known { IfOk result (λ n. KeepsKnown table.old table.new (L.form node.now).names (L.form n).names) }

    // One fresh slot is made for each name that a child omits, and the table keeps its names.
    ensures made { OnOk result (table.new ≡ with_fresh (missing_of store.now (L.form node.now)) table.old) }
    ensures takes { MakesAtMost (missing_of store.now (L.form node.now)) table.old table.new }
    ensures more { KnowsMore table.old table.new }
    ensures full { IsErrOf result Error.OutOfSlots → RunsOutForNode store.now (L.form node.now) table.old table.new }
    ensures err { IfErr result IsShortage }
{
    let mut filled = node.copy(alloc)?;
    for k in 0..node.applied_id_count() {
        let child = fill_id(store, alloc, table, node.applied_id(k))?;
        filled.set_applied_id(k, child);
    }
    Ok(filled)
}
