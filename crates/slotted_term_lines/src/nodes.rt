//! The calls on whole nodes, and their answers.
use crate::writing::{
    write_children, write_ids, write_list, write_node, write_set, write_shape, write_test,
};
use slotted_languages::Language;
use slotted_languages::outline::{outline, skeleton};
use slotted_slots::{AppliedId, Error, Id, Slot, SlotMap, SlotTable};
use std::alloc::Global;

// Returns the shape of the node, or of a copy that becomes its shape.
fn shape<L: Language>(alloc: Global, call: &str, node: &L) -> Result<(L, SlotMap), Error> {
    if call == "weak_shape" {
        return node.weak_shape(alloc);
    }
    let mut own = node.clone()?;
    let free = own.weak_shape_inplace(alloc)?;
    Ok((own, free))
}

// Returns the child under the next number, from 0 on. The child 0 is refused.
fn next_child(next: &mut usize, child: AppliedId) -> Result<AppliedId, Error> {
    let id = Id(*next);
    *next = next.wrapping_add(1);
    if child.id.0 == 0 {
        return Err(Error::NotATerm);
    }
    Ok(AppliedId { id, m: child.m })
}

// Returns the node with its children numbered.
fn numbered<L: Language>(alloc: Global, node: &L) -> Result<L, Error> {
    let mut next = 0usize;
    node.map_applied_ids(alloc, |child| next_child(&mut next, child))
}

// Returns whether no slot of a node is free and bound.
fn is_apart<L: Language>(node: &L) -> bool {
    node.slot_count() < 1 << 30 && node.check()
}

fn bare<L: Language>(alloc: Global, node: &L) -> Result<L, Error> {
    let count = outline(alloc, node, Slot::numeric_at(0))?.slot_count();
    if count >= 1 << 30 {
        return Err(Error::OutOfSlots);
    }
    skeleton(alloc, node)
}

// Returns the node renamed, in whole or in part, by a map that has to know each free slot.
fn renamed<L: Language>(
    alloc: Global,
    call: &str,
    node: &L,
    m: &SlotMap,
    table: &mut SlotTable,
) -> Result<L, Error> {
    if !node.is_known_by(alloc, m)? {
        Err(Error::NotEqual)
    } else if call == "apply_slotmap" {
        node.apply_slotmap(alloc, m, table)
    } else {
        node.apply_slotmap_partial(alloc, m, table)
    }
}

// Returns the node that a call makes.
fn made<L: Language>(
    alloc: Global,
    call: &str,
    node: &L,
    m: &SlotMap,
    table: &mut SlotTable,
) -> Result<L, Error> {
    match call {
        "apply_slotmap_fresh" => node.apply_slotmap_fresh(alloc, m, table),
        "refresh_private" => node.refresh_private(alloc, table),
        "refresh_slots" => node.refresh_slots(alloc, &m.values(alloc)?, table),
        "refresh_internals" => node.refresh_internals(alloc, &m.values(alloc)?, table),
        "outline" => outline(alloc, node, Slot::numeric_at(5)),
        "skeleton" => bare(alloc, node),
        _ => renamed(alloc, call, node, m, table),
    }
}

fn children<L: Language>(
    alloc: Global,
    node: &L,
    table: &SlotTable,
    text: &mut String,
) -> Result<(), Error> {
    write_children(node.applied_id_occurrences(alloc)?.as_slice(), table, text)
}

// Returns the slots that a call lists.
fn listed<L: Language>(alloc: Global, call: &str, node: &L) -> Result<Vec<Slot>, Error> {
    match call {
        "all_slot_occurrences" => node.all_slot_occurrences(alloc),
        "public_slot_occurrences" => node.public_slot_occurrences(alloc),
        _ => node.private_slot_occurrences(alloc),
    }
}

// Writes the node that a call makes. For `refresh_slots`, the node with fresh slots in place of those of a set comes
// first. Behind a bar comes the node with fresh slots in place of all others.
fn write_changed<L: Language>(
    alloc: Global,
    call: &str,
    node: &L,
    m: &SlotMap,
    table: &mut SlotTable,
    text: &mut String,
) -> Result<(), Error> {
    if call.starts_with("weak_shape") {
        let (numbered, free) = shape(alloc, call, node)?;
        return write_shape(alloc, &numbered, &free, table, text);
    }
    write_node(alloc, made(alloc, call, node, m, table), table, text)?;
    if call == "refresh_slots" {
        text.push_str("| ")?;
        let rest = made(alloc, "refresh_internals", node, m, table);
        return write_node(alloc, rest, table, text);
    }
    Ok(())
}

// Writes the answer of a call on the node.
pub(crate) fn write_answer<L: Language>(
    alloc: Global,
    call: &str,
    node: &L,
    m: &SlotMap,
    table: &mut SlotTable,
    text: &mut String,
) -> Result<(), Error> {
    match call {
        "private_slots" => write_set(node.private_slots(alloc), table, text),
        "slots" => write_set(node.slots(alloc), table, text),
        "ids" => write_ids(node.ids(alloc)?.as_slice(), text),
        "applied_id_occurrences" => children(alloc, node, table, text),
        "map_applied_ids" => children(alloc, &numbered(alloc, node)?, table, text),
        "check" => write_test(Ok(is_apart(node)), text),
        "operator" => write_ids(&[Id(node.operator() as usize)], text),
        _ if call.ends_with("_occurrences") => write_list(listed(alloc, call, node), table, text),
        _ => write_changed(alloc, call, node, m, table, text),
    }
}
