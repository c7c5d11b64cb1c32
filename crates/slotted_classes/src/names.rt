//! Maps of names for a new class, and their values.
ghost use Rattle.std.specs.Prelude.{◌≡◌, ◌↔◌, ℕ, length, Contains, IsTrue, IfOk, IfErr};
ghost use Rattle.slotted_slots.specs.Error.{IsOutOfMemory};
ghost use Rattle.slotted_slots.specs.Maps.{values};
ghost use Rattle.slotted_nodes.specs.Form.{IsSmall};
ghost use Rattle.slotted_classes.specs.Names.{between, with_put};

use slotted_languages::Language;
use slotted_slots::{Error, SlotMap};
use std::alloc::Global;

/// Returns the map from the values of one map to those of another, place by place.
pub fn map_between(alloc: Global, from: &SlotMap, to: &SlotMap) -> Result<SlotMap, Error>
    requires { length from.now ≡ length to.now }
    ensures ok { IfOk result (λ m. m ≡ between from.now to.now) }
    ensures err { IfErr result IsOutOfMemory }
{
    let mut map = SlotMap::new(alloc);
    for i in 0..from.len() {
        map.insert(from.value_at(i), to.value_at(i))?;
    }
    Ok(map)
}

/// Puts the value of each key in the places that have the key. Each other place keeps its name.
pub fn put_at_places<L: Language>(node: &mut L, map: &SlotMap)
    requires { IsSmall (L.form node.old) }
    ensures { L.form node.new ≡ with_put map.now (L.form node.old) }
{
    for i in 0..node.slot_count() {
        let name = node.slot(i);
        node.set_slot(i, map.get(name).unwrap_or(name));
    }
}

// Returns whether each value of the first map is one of the other.
fn has_values_of(map: &SlotMap, other: &SlotMap) -> bool
    ensures { IsTrue result ↔ ((x : ℕ) → Contains (values map.now) x → Contains (values other.now) x) }
{
    for i in 0..map.len() {
        if !other.has_value(map.value_at(i)) {
            return false;
        }
    }
    true
}

/// Returns whether two maps have the same values.
pub fn have_same_values(left: &SlotMap, right: &SlotMap) -> bool
    ensures { IsTrue result ↔ ((x : ℕ) → Contains (values left.now) x ↔ Contains (values right.now) x) }
{
    has_values_of(left, right) && has_values_of(right, left)
}
