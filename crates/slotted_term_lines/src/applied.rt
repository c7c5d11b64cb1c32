//! The calls on applied ids, and their answers.
use crate::writing::{write_set, write_shown};
use slotted_slots::{AppliedId, Error, Id, Slot, SlotMap, SlotTable};
use std::alloc::Global;

// Returns the same class with the same map, if no slot stands there twice.
fn made_new(alloc: Global, applied: &AppliedId) -> Result<AppliedId, Error> {
    if !applied.m.is_bijection() {
        return Err(Error::NotEqual);
    }
    Ok(AppliedId::new(applied.id, applied.m.copy(alloc)?))
}

// Returns a copy with `$4` for its only slot.
fn four_put_in(alloc: Global, applied: &AppliedId) -> Result<AppliedId, Error> {
    let mut copy = applied.copy(alloc)?;
    if copy.m.len() == 1 {
        copy.set_slot_at(0, Slot::numeric_at(4));
    }
    Ok(copy)
}

// Returns the id applied to `$3`, sent on by a map that knows that slot.
fn three_sent_on(alloc: Global, id: Id, on: &SlotMap) -> Result<AppliedId, Error> {
    let three = Slot::numeric_at(3);
    if !on.contains_key(three) {
        return Err(Error::NotEqual);
    }
    let mut m = SlotMap::new(alloc);
    m.insert(Slot::numeric_at(0), three)?;
    AppliedId { id, m }.apply_slotmap(alloc, on)
}

// Returns the applied id whose slots are sent on by a map, if the map keeps them apart.
fn sent_on(
    alloc: Global,
    call: &str,
    applied: &AppliedId,
    on: &SlotMap,
    table: &mut SlotTable,
) -> Result<AppliedId, Error> {
    if !applied.m.compose_partial(alloc, on)?.is_bijection() {
        return Err(Error::NotEqual);
    }
    match call {
        "apply_slotmap_fresh" => applied.apply_slotmap_fresh(alloc, on, table),
        _ => applied.apply_slotmap_partial(alloc, on),
    }
}

// Returns the applied id that a call makes.
fn made(
    alloc: Global,
    call: &str,
    applied: &AppliedId,
    on: &SlotMap,
    table: &mut SlotTable,
) -> Result<AppliedId, Error> {
    match call {
        "new" => made_new(alloc, applied),
        "null" => Ok(AppliedId::null(alloc)),
        "copy" => applied.copy(alloc),
        "clone" => Ok(applied.clone()?),
        "set_slot_at" => four_put_in(alloc, applied),
        "apply_slotmap" => three_sent_on(alloc, applied.id, on),
        _ => sent_on(alloc, call, applied, on, table),
    }
}

// Writes the second one, and a `=` if it equals the first.
fn write_beside(
    first: &AppliedId,
    second: &AppliedId,
    table: &SlotTable,
    text: &mut String,
) -> Result<(), Error> {
    write_shown(second, table, text)?;
    Ok(text.push_str(if second == first { "=" } else { "" })?)
}

// Writes the answer of a call on the applied id.
pub(crate) fn write_applied(
    alloc: Global,
    call: &str,
    applied: &AppliedId,
    on: &SlotMap,
    table: &mut SlotTable,
    text: &mut String,
) -> Result<(), Error> {
    if call == "slots" {
        return write_set(applied.slots(alloc), table, text);
    }
    let made = made(alloc, call, applied, on, table)?;
    write_beside(applied, &made, table, text)
}
