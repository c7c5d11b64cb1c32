//! The calls on small sets, and their answers.
use crate::reading::parted;
use crate::writing::{write_set, write_shown, write_test};
use slotted_slots::{Error, Slot, SlotMap, SlotTable, SmallHashSet};
use std::alloc::Global;

// Returns the set that a call makes of two.
fn made(
    alloc: Global,
    call: &str,
    first: &SmallHashSet<Slot>,
    second: &SmallHashSet<Slot>,
) -> Result<SmallHashSet<Slot>, Error> {
    match call {
        "union" => first.union(alloc, second),
        "intersection" => first.intersection(alloc, second),
        _ => first.difference(alloc, second),
    }
}

fn holds(call: &str, first: &SmallHashSet<Slot>, second: &SmallHashSet<Slot>) -> bool {
    match call {
        "is_subset" => first.is_subset(second),
        "is_superset" => first.is_superset(second),
        _ => first.is_disjoint(second),
    }
}

// Writes the answer of a call on the values of two maps.
pub(crate) fn write_sets(
    alloc: Global,
    call: &str,
    first: &SlotMap,
    second: &SlotMap,
    table: &SlotTable,
    text: &mut String,
) -> Result<(), Error> {
    let first = first.values(alloc)?;
    let second = second.values(alloc)?;
    if call.starts_with("is_") {
        write_test(Ok(holds(call, &first, &second)), text)
    } else {
        write_set(made(alloc, call, &first, &second), table, text)
    }
}

// Inserts, removes or seeks a slot. Returns whether the slot is new or there. Any other step returns whether the set is
// empty.
fn step(set: &mut SmallHashSet<Slot>, call: &str, slot: Slot) -> Result<bool, Error> {
    match call {
        "insert" => set.insert(slot),
        "remove" => Ok(set.remove(&slot)),
        "contains" => Ok(set.contains(&slot)),
        _ => Ok(set.is_empty()),
    }
}

// Writes the answer of a step, and how many slots there are then, and which.
fn write_step(
    set: &mut SmallHashSet<Slot>,
    words: &str,
    table: &mut SlotTable,
    text: &mut String,
) -> Result<(), Error> {
    let (call, name) = parted(words, ":");
    let slot = table.named(name)?;
    write_test(step(set, call, slot), text)?;
    let count = set.len();
    write!(text, " {count} ")?;
    for slot in set.iter() {
        write_shown(slot, table, text)?;
    }
    Ok(())
}

// Writes the steps of a set that has no slots at first.
pub(crate) fn write_steps(
    set: &mut SmallHashSet<Slot>,
    words: &str,
    table: &mut SlotTable,
    text: &mut String,
) -> Result<(), Error> {
    for step in words.split_whitespace() {
        write_step(set, step, table, text)?;
    }
    Ok(())
}
