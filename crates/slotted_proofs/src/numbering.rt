//! Equations with numbered names: the names are numbered in the order in which they first occur.
ghost use Rattle.std.specs.Prelude.{◌≡◌, ◌+◌, ◌<◌, ◌≤◌, ◌↔◌, length, cond, is_some, unwrap_or, IsTrue, IfOk, IfErr, IsErrOf};
ghost use Rattle.slotted_theory.specs.FiniteMaps.{IsInjectiveMap, with_values};
ghost use Rattle.slotted_slots.specs.Ascending.{IsAscending};
ghost use Rattle.slotted_slots.specs.Error.{IsOutOfMemory, IsShortage};
ghost use Rattle.slotted_slots.specs.Maps.{value_of as found_at};
ghost use Rattle.slotted_slots.specs.Table.{numeric_slot, slot_limit};
ghost use Rattle.slotted_model.specs.Applied.{keys};
ghost use Rattle.slotted_model.specs.Correspondence.{AllDifferent, same_names, composite as one_after_another, numbered_from, IsPartialInjection};
ghost use Rattle.slotted_proofs.specs.Equations.{to_applied, equality, statement_of, partnered_statement, reflexive_statement, composite_statement, numbered_beside, named_after, Meets, IsWritten, HaveManyNames};

use crate::equation::Equation;
use slotted_slots::{AppliedId, Error, Slot, SlotMap};
use std::alloc::Global;

/// The number of places from which on an equation cannot be numbered.
const PLACES: usize = 1 << 30;

/// Returns the map from slots of the one map to the slots of the other that have the same names.
pub fn shared_names(alloc: Global, from: &SlotMap, to: &SlotMap) -> Result<SlotMap, Error>
    requires { IsInjectiveMap to.now }
    ensures ok { IfOk result (λ m. m ≡ same_names from.now to.now) }
    ensures err { IfErr result IsOutOfMemory }
{
    let back = to.inverse(alloc)?;
    from.compose_partial(alloc, &back)
}

// Returns the pairs with their second slots sent on, each to the slot of the other map that has the same name.
pub(crate) fn sent_along(
    alloc: Global,
    pairs: &SlotMap,
    from: &SlotMap,
    to: &SlotMap,
) -> Result<SlotMap, Error>
    requires { IsInjectiveMap to.now }
    ensures ok { IfOk result (λ m. m ≡ one_after_another pairs.now (same_names from.now to.now)) }
    ensures err { IfErr result IsOutOfMemory }
{
    let names = shared_names(alloc, from, to)?;
    pairs.compose_partial(alloc, &names)
}

// Returns the map from slots of a map to those of another with the same name, and on from there between two more
// maps.
pub(crate) fn shared_over(
    alloc: Global,
    from: &SlotMap,
    to: &SlotMap,
    next: &SlotMap,
    last: &SlotMap,
) -> Result<SlotMap, Error>
    requires to { IsInjectiveMap to.now }
    requires last { IsInjectiveMap last.now }
    ensures ok { IfOk result (λ m. m ≡ one_after_another (same_names from.now to.now) (same_names next.now last.now)) }
    ensures err { IfErr result IsOutOfMemory }
{
    let shared = shared_names(alloc, from, to)?;
    sent_along(alloc, &shared, next, last)
}

// Returns whether the two sides have few enough places for an equation.
pub(crate) fn is_short(l: &AppliedId, r: &AppliedId) -> bool
    ensures short { IsTrue result ↔ (length l.now.m + length r.now.m < slot_limit) }
    ensures left_ascends { IsAscending (keys l.now.m) }
    ensures right_ascends { IsAscending (keys r.now.m) }
{
    let left = l.m.len();
    let right = r.m.len();
    left < PLACES && right < PLACES - left
}

// Returns the left side: its slots with the names `$0`, `$1` and so on.
fn number_left(alloc: Global, map: &SlotMap) -> Result<SlotMap, Error>
    requires { length map.now < slot_limit }
    ensures ok { IfOk result (λ m. m ≡ with_values numeric_slot (numbered_from 0 (keys map.now))) }
    ensures err { IfErr result IsOutOfMemory }
{
    let mut side = map.copy(alloc)?;
    for i in 0..side.len() {
        side.set_value_at(i, Slot::numeric_at(i as u32));
    }
    Ok(side)
}

// Returns the name that a map has for a slot. If there is none, the name is the next number, which is then taken.
fn name_or_next(known: &SlotMap, slot: Slot, next: &mut u32) -> Slot
    requires { next.old < slot_limit }
    ensures name { result ≡ unwrap_or (found_at known.now slot) (numeric_slot next.old) }
    ensures next { next.new ≡ cond (is_some (found_at known.now slot)) next.old (next.old + 1) }
{
    match known.get(slot) {
        Some(name) => name,
        None => {
            let name = Slot::numeric_at(*next);
            *next += 1;
            name
        }
    }
}

// Returns the slots of a map with the names that they are known by, and with the next numbers for the rest.
fn name_slots(alloc: Global, map: &SlotMap, known: &SlotMap, first: u32) -> Result<SlotMap, Error>
    requires { first + length map.now < slot_limit }
    ensures ok { IfOk result (λ m. m ≡ named_after known.now first (keys map.now)) }
    ensures err { IfErr result IsOutOfMemory }
{
    let mut side = SlotMap::new(alloc);
    let mut next = first;
    for (slot, _) in map.iter() {
        let name = name_or_next(known, slot, &mut next);
        side.insert(slot, name)?;
    }
    Ok(side)
}

// Returns the right side: its slots with the names of their partners on the left side, and with the next numbers for
// the rest.
fn number_right(
    alloc: Global,
    map: &SlotMap,
    left: &SlotMap,
    partners: &SlotMap,
) -> Result<SlotMap, Error>
    requires few { length left.now + length map.now < slot_limit }
    requires left { left.now ≡ with_values numeric_slot (numbered_from 0 (keys left.now)) }
    ensures ok { IfOk result (λ m. m ≡ numbered_beside left.now partners.now (keys map.now)) }
    ensures err { IfErr result IsOutOfMemory }
{
    let known = partners.compose_partial(alloc, left)?;
    name_slots(alloc, map, &known, left.len() as u32)
}

// Returns the equation of the classes of two sides, over their slots. `partners` has the partners of right slots.
pub(crate) fn number_sides(
    alloc: Global,
    l: &AppliedId,
    r: &AppliedId,
    partners: &SlotMap,
) -> Result<Equation, Error>
    requires few { length l.now.m + length r.now.m < slot_limit }
    requires left_once { AllDifferent (keys l.now.m) }
    requires right_once { AllDifferent (keys r.now.m) }
    requires partners { IsPartialInjection (keys r.now.m) (keys l.now.m) partners.now }
    ensures ok { IfOk result (IsWritten (partnered_statement l.now r.now partners.now)) }
    ensures err { IfErr result IsOutOfMemory }
{
    let left = number_left(alloc, &l.m)?;
    let right = number_right(alloc, &r.m, &left, partners)?;
    Ok(Equation {
        l: AppliedId { id: l.id, m: left },
        r: AppliedId { id: r.id, m: right },
    })
}

// Returns the equation of two applied ids, with numbered names.
pub(crate) fn numbered(alloc: Global, l: &AppliedId, r: &AppliedId) -> Result<Equation, Error>
    requires left { IsInjectiveMap l.now.m }
    requires right { IsInjectiveMap r.now.m }
    ensures ok { IfOk result (IsWritten (equality (to_applied l.now) (to_applied r.now))) }
    ensures full { IsErrOf result Error.OutOfSlots ↔ HaveManyNames l.now.m r.now.m }
    ensures err { IfErr result IsShortage }
{
    if !is_short(l, r) {
        return Err(Error::OutOfSlots);
    }
    let partners = shared_names(alloc, &r.m, &l.m)?;
    number_sides(alloc, l, r, &partners)
}

// Returns the equation of a class with itself over these slots, with numbered names.
pub(crate) fn numbered_itself(alloc: Global, a: &AppliedId) -> Result<Equation, Error>
    requires { IsInjectiveMap a.now.m }
    ensures ok { IfOk result (IsWritten (reflexive_statement a.now.id.0 (keys a.now.m))) }
    ensures full { IsErrOf result Error.OutOfSlots ↔ (slot_limit ≤ length a.now.m) }
    ensures err { IfErr result IsShortage }
{
    if a.m.len() >= PLACES {
        return Err(Error::OutOfSlots);
    }
    let left = number_left(alloc, &a.m)?;
    let right = left.copy(alloc)?;
    Ok(Equation {
        l: AppliedId { id: a.id, m: left },
        r: AppliedId { id: a.id, m: right },
    })
}
