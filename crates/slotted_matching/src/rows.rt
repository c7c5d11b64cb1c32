//! The rows of the index: filed shapes by the numbers of their names.
ghost use Rattle.std.specs.Prelude.{◌≡◌, ◌<◌, ◌≤◌, ℕ, Contains, map, IfOk, IfErr, IsTrue};
ghost use Rattle.slotted_slots.specs.Error.{IsOutOfMemory};
ghost use Rattle.slotted_slots.specs.Maps.{value_of, values};
ghost use Rattle.slotted_slots.specs.Table.{slot_limit, numeric_slot};
ghost use Rattle.slotted_nodes.specs.Form.{IsSmall};
ghost use Rattle.slotted_languages.specs.Outline.{skeleton_form};
ghost use Rattle.slotted_model.specs.Applied.{renamed_id};
ghost use Rattle.slotted_proofs.specs.Equations.{to_applied};
ghost use Rattle.slotted_match_machine.specs.Index.{IsIndexChild, OneByOne};
ghost use Rattle.slotted_matching.specs.KeyRows as keys;
ghost use Rattle.slotted_matching.specs.KeyRows.{AreCovered, own_numbers, numbered_ids, position_if, positions_below};
ghost use Rattle.slotted_matching.specs.Skeletons.{GrowsTo, HasFewPlaces, StandsAt};

use crate::skeletons::Skeletons;
use slotted_languages::Language;
use slotted_languages::outline::outline;
use slotted_match_machine::index::IndexChild;
use slotted_slots::{AppliedId, Error, Slot, SlotMap};
use std::alloc::Global;

// Returns the number of a numeric slot.
fn slot_number(slot: Slot) -> usize
    ensures { result ≡ keys.slot_number slot }
{
    slot.raw() as usize / 4
}

/// Returns 1 more than the greatest number of a node, or 0 if it has no name.
pub(crate) fn number_count<L: Language>(node: &L) -> usize
    requires { IsSmall (L.form node.now) }
    ensures covers { (x : ℕ) → Contains (L.form node.now).names x → keys.slot_number x < result }
    ensures within { result ≤ slot_limit }
{
    let mut count = 0;
    for i in 0..node.slot_count() {
        let number = slot_number(node.slot(i));
        if count <= number {
            count = number + 1;
        }
    }
    count
}

// Returns 1 more than the position of the class's slot that a slot of a source stands for, or 0 if it stands for none.
fn class_position(found: &SlotMap, slot: Slot) -> usize
    ensures { result ≡ keys.class_position found.now slot }
{
    for i in 0..found.len() {
        if found.value_at(i) == slot {
            return i + 1;
        }
    }
    0
}

// Returns the position of the slot that a number stands for, or 0 if it stands for none.
fn number_position(names: &SlotMap, found: &SlotMap, number: usize) -> usize
    requires { number < slot_limit }
    ensures { result ≡ position_if found.now (value_of names.now (numeric_slot number)) }
{
    match names.get(Slot::numeric_at(number as u32)) {
        Some(slot) => class_position(found, slot),
        None => 0,
    }
}

/// Returns for each number below `count` 1 more than the position of the class's slot that it stands for, or 0 if it
/// stands for none.
///
/// `names` has the source's slot for each number, and `found` has for each slot of the class the source's slot.
pub(crate) fn row_slots(
    alloc: Global,
    names: &SlotMap,
    found: &SlotMap,
    count: usize,
) -> Result<Vec<usize>, Error>
    requires { count ≤ slot_limit }
    ensures ok { IfOk result (λ v. v.items ≡ positions_below count names.now found.now) }
    ensures err { IfErr result IsOutOfMemory }
{
    let mut slots = Vec::new(alloc);
    for number in 0..count {
        slots.push(number_position(names, found, number))?;
    }
    Ok(slots)
}

// Returns the numbers at the places of an outline, without those of children, where `mark` stands.
fn unmarked_numbers<L: Language>(
    alloc: Global,
    outline: &L,
    mark: Slot,
) -> Result<Vec<usize>, Error>
    requires { IsSmall (L.form outline.now) }
    ensures ok { IfOk result (λ v. v.items ≡ map keys.slot_number (keys.unmarked mark (L.form outline.now).names)) }
    ensures err { IfErr result IsOutOfMemory }
{
    let mut numbers = Vec::new(alloc);
    for i in 0..outline.slot_count() {
        let slot = outline.slot(i);
        if slot != mark {
            numbers.push(slot_number(slot))?;
        }
    }
    Ok(numbers)
}

// Returns `$1` for the mark of a child, and `$0` for any other name.
fn blanked(mark: Slot, slot: Slot) -> Slot
    ensures { result ≡ keys.blanked mark slot }
{
    if slot == mark {
        Slot::numeric_at(1)
    } else {
        Slot::numeric_at(0)
    }
}

// Turns an outline whose children have a mark of their own into the skeleton of its node.
fn blank<L: Language>(outline: &mut L, mark: Slot)
    requires { IsSmall (L.form outline.old) }
    ensures { L.form outline.new ≡ keys.blanked_form mark (L.form outline.old) }
{
    for i in 0..outline.slot_count() {
        let slot = blanked(mark, outline.slot(i));
        outline.set_slot(i, slot);
    }
}

/// Returns the number of a node's skeleton, and the numbers at the node's own names and binders. Adds the skeleton if
/// it is new.
pub(crate) fn number_outline<L: Language>(
    alloc: Global,
    node: &L,
    skeletons: &mut Skeletons<L>,
) -> Result<(usize, Vec<usize>), Error>
    requires few { HasFewPlaces (L.form node.now) }
    requires covered { AreCovered (L.form node.now) }
    ensures place { IfOk result (λ p. StandsAt skeletons.new (skeleton_form (L.form node.now)) p.0) }
    ensures owns { IfOk result (λ p. p.1.items ≡ own_numbers (L.form node.now)) }
    ensures grows { GrowsTo skeletons.old skeletons.new }
    ensures err { IfErr result IsOutOfMemory }
{
    let mark = Slot::numeric_at(node.slot_count() as u32);
    let mut marked = outline(alloc, node, mark)?;
    let owns = unmarked_numbers(alloc, &marked, mark)?;
    blank(&mut marked, mark);
    let number = skeletons.add(marked)?;
    Ok((number, owns))
}

// Returns the numbers of a child's names.
fn child_numbers(alloc: Global, m: &SlotMap) -> Result<Vec<usize>, Error>
    ensures ok { IfOk result (λ v. v.items ≡ map keys.slot_number (values m.now)) }
    ensures err { IfErr result IsOutOfMemory }
{
    let mut numbers = Vec::new(alloc);
    for i in 0..m.len() {
        numbers.push(slot_number(m.value_at(i)))?;
    }
    Ok(numbers)
}

// Returns a child by its class and the numbers of its names.
fn index_child(alloc: Global, child: &AppliedId) -> Result<IndexChild, Error>
    ensures ok { IfOk result (IsIndexChild (renamed_id keys.slot_number (to_applied child.now))) }
    ensures err { IfErr result IsOutOfMemory }
{
    let numbers = child_numbers(alloc, &child.m)?;
    Ok(IndexChild {
        class: child.id.0,
        numbers,
    })
}

/// Returns the children of a node.
pub(crate) fn row_children<L: Language>(alloc: Global, node: &L) -> Result<Vec<IndexChild>, Error>
    ensures ok { IfOk result (λ v. OneByOne IsIndexChild (numbered_ids (L.form node.now)) v.items) }
    ensures err { IfErr result IsOutOfMemory }
{
    let mut children = Vec::new(alloc);
    for k in 0..node.applied_id_count() {
        let child = index_child(alloc, node.applied_id(k))?;
        children.push(child)?;
    }
    Ok(children)
}
