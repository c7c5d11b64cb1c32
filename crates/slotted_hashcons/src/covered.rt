//! Whether the canonical e-node of a class has each slot that the class uses.
ghost use Rattle.std.specs.Prelude.{◌≡◌, ◌<◌, ◌↔◌, length, IsTrue};
ghost use Rattle.slotted_model.specs.Rebuild.{IsCovered};
ghost use Rattle.slotted_classes.specs.Finding.{HasFinds};
ghost use Rattle.slotted_hashcons.specs.FoundNodes.{HasNormalNames, StandsIn, finds_of};

use slotted_classes::Store;
use slotted_languages::Language;
use slotted_slots::{Slot, SlotMap};

// Returns whether a slot of the live class stands for a slot of the class that is a value of the map.
fn has_slot<L: Language>(store: &Store<L>, class: usize, names: &SlotMap, slot: Slot) -> bool
    requires good { HasFinds store.now }
    requires within { class < length store.now.classes }
    ensures { IsTrue result ↔ StandsIn store.now class names.now slot }
{
    match store.found_slot(class, slot) {
        Some(own) => names.has_value(own),
        None => true,
    }
}

/// Returns whether each slot that a class uses stands in its canonical e-node. Takes no memory.
pub fn is_covered<L: Language>(store: &Store<L>, class: usize, names: &SlotMap) -> bool
    requires good { HasFinds store.now }
    requires within { class < length store.now.classes }
    requires names { HasNormalNames store.now class names.now }
    ensures { IsTrue result ↔ IsCovered (finds_of store.now) class }
{
    let slots = &store.entry(store.find_class(class)).m;
    for i in 0..slots.len() {
        if !has_slot(store, class, names, slots.value_at(i)) {
            return false;
        }
    }
    true
}
