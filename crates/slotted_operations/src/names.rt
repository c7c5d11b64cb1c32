//! Maps of names for a new class, and tests of the names of ids and e-nodes.
ghost use Rattle.std.specs.Prelude.{◌≡◌, ◌↔◌, ◌+◌, ◌≤◌, ◌^◌, ℕ, length, Contains, IsTrue, IfErr, OnOk};
ghost use Rattle.slotted_theory.specs.FiniteMaps.{IsInjectiveMap};
ghost use Rattle.slotted_slots.specs.Table.{AllKnown, KnowsMore};
ghost use Rattle.slotted_slots.specs.Maps.{keys, values};
ghost use Rattle.slotted_nodes.specs.Form.{IsSmall};
ghost use Rattle.slotted_model.specs.Ascending.{ascending, IsAscending};
ghost use Rattle.slotted_classes.specs.Names.{fresh_slots};
ghost use Rattle.slotted_operations.specs.Graph.{MakesAtMost, RunsOut};

use slotted_languages::Language;
use slotted_slots::{Error, SlotMap, SlotTable};

/// Replaces each value by a fresh slot.
pub fn renew_values(map: &mut SlotMap, table: &mut SlotTable) -> Result<(), Error>
    ensures keys { OnOk result (keys map.new ≡ keys map.old) }
    ensures values { OnOk result (values map.new ≡ fresh_slots table.old.fresh (length map.old)) }
    ensures table { OnOk result (table.new ≡ record table.old { fresh = table.old.fresh + length map.old }) }
    ensures limit { OnOk result (2 ^ 30 ≤ length map.old → table.new.fresh ≡ 2 ^ 30) }
    ensures takes { MakesAtMost (length map.old) table.old table.new }
    ensures full { IfErr result (λ e. (e ≡ Error.OutOfSlots) × RunsOut (length map.old) table.old table.new) }
    ensures more { KnowsMore table.old table.new }
{
    for i in 0..map.len() {
        let slot = table.fresh()?;
        map.set_value_at(i, slot);
    }
    Ok(())
}

/// Returns whether the values of one map, which are all different, are the keys of the other.
pub fn values_are_keys(slots: &SlotMap, map: &SlotMap) -> bool
    requires { IsInjectiveMap slots.now }
    ensures { IsTrue result ↔ (keys map.now ≡ ascending (values slots.now)) }
{
    if slots.len() != map.len() {
        return false;
    }
    for i in 0..slots.len() {
        if !map.contains_key(slots.value_at(i)) {
            return false;
        }
    }
    true
}

/// Returns whether each key of one map is a value of the other. The keys ascend.
pub fn keys_are_values(map: &SlotMap, slots: &SlotMap) -> bool
    ensures within { IsTrue result ↔ ((s : ℕ) → Contains (keys map.now) s → Contains (values slots.now) s) }
    ensures ascending { IsAscending (keys map.now) }
{
    for (slot, _) in map.iter() {
        if !slots.has_value(slot) {
            return false;
        }
    }
    true
}

/// Returns whether the table knows each value of the map.
pub fn values_are_known(table: &SlotTable, map: &SlotMap) -> bool
    ensures { IsTrue result ↔ AllKnown table.now (values map.now) }
{
    for i in 0..map.len() {
        if !table.knows(map.value_at(i)) {
            return false;
        }
    }
    true
}

/// Returns whether the table knows the slot at each place of the e-node.
pub fn places_are_known<L: Language>(table: &SlotTable, node: &L) -> bool
    requires { IsSmall (L.form node.now) }
    ensures { IsTrue result ↔ AllKnown table.now (L.form node.now).names }
{
    for i in 0..node.slot_count() {
        if !table.knows(node.slot(i)) {
            return false;
        }
    }
    true
}
