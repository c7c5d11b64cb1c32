//! The calls that enter into a proof list.
ghost use Rattle.slotted_theory.specs.FiniteMaps.{IsInjectiveMap};

use crate::reading::{applied, equation, parted};
use slotted_proofs::{Equation, ProofList, ProvenEq};
use slotted_slots::{AppliedId, Error, Slot, SlotTable, SmallHashSet};
use std::alloc::Global;

// Returns the number of a text, which some list answered before.
pub(crate) fn number(numbers: &[ProvenEq], text: &str) -> Result<ProvenEq, Error> {
    let place = text.parse().unwrap_or(usize::MAX);
    numbers.get(place).copied().ok_or(Error::NotEqual)
}

// Enters an asserted equation with a text.
fn explicit(
    alloc: Global,
    list: &mut ProofList,
    e: &Equation,
    text: &str,
) -> Result<ProvenEq, Error>
    requires left { IsInjectiveMap e.now.l.m }
    requires right { IsInjectiveMap e.now.r.m }
{
    let text = String::from_str(alloc, text)?;
    list.enter_explicit(alloc, &e.l, &e.r, Some(text))
}

// The slots of the classes of both sides.
type ClassSlots = (SmallHashSet<Slot>, SmallHashSet<Slot>);

// Checks the step of two entries.
fn checked_transitive(
    alloc: Global,
    list: &mut ProofList,
    numbers: &[ProvenEq],
    e: &Equation,
    slots: &ClassSlots,
    parts: &str,
) -> Result<ProvenEq, Error> {
    let (p, q) = parted(parts, " ");
    let p = number(numbers, p)?;
    let q = number(numbers, q)?;
    list.check_transitive(alloc, e, &slots.0, &slots.1, p, q)
}

// Checks the step of a call, over just the slots of the classes.
fn checked(
    alloc: Global,
    list: &mut ProofList,
    numbers: &[ProvenEq],
    call: &str,
    e: &Equation,
    slots: &ClassSlots,
    parts: &str,
) -> Result<ProvenEq, Error> {
    match call {
        "check_reflexive" => list.check_reflexive(alloc, e, &slots.0, &slots.1),
        "check_symmetric" => {
            let p = number(numbers, parts)?;
            list.check_symmetric(alloc, e, &slots.0, &slots.1, p)
        }
        _ => checked_transitive(alloc, list, numbers, e, slots, parts),
    }
}

// Returns the slots that stand in both sides of the equation of a text.
fn slots_over(alloc: Global, table: &mut SlotTable, sides: &str) -> Result<ClassSlots, Error> {
    let over = equation(alloc, table, sides)?;
    let left = over.l.m.keys(alloc)?;
    let right = over.r.m.keys(alloc)?;
    Ok((left, right))
}

// Enters an equation by a call that needs nothing of the classes, or checks a step.
fn enter_equation(
    alloc: Global,
    list: &mut ProofList,
    numbers: &[ProvenEq],
    call: &str,
    e: &Equation,
    slots: &ClassSlots,
    parts: &str,
) -> Result<ProvenEq, Error>
    requires left { IsInjectiveMap e.now.l.m }
    requires right { IsInjectiveMap e.now.r.m }
{
    match call {
        "enter_explicit" => explicit(alloc, list, e, parts),
        "prove_congruent" => list.prove_congruent(alloc, e, &[], Vec::new(alloc)),
        _ => checked(alloc, list, numbers, call, e, slots, parts),
    }
}

// Enters an equation, for `SIDES by PARTS`, or for `SIDES over SIDES by PARTS` if the classes have other slots than the
// equation.
fn equated(
    alloc: Global,
    list: &mut ProofList,
    numbers: &[ProvenEq],
    call: &str,
    words: &str,
    table: &mut SlotTable,
) -> Result<ProvenEq, Error> {
    let (sides, parts) = parted(words, " by ");
    let (sides, over) = sides.split_once(" over ").unwrap_or((sides, sides));
    let e = equation(alloc, table, sides)?;
    let slots = slots_over(alloc, table, over)?;
    enter_equation(alloc, list, numbers, call, &e, &slots, parts)
}

// Enters that the class of a text equals itself.
fn reflexive(
    alloc: Global,
    list: &mut ProofList,
    words: &str,
    table: &mut SlotTable,
) -> Result<ProvenEq, Error> {
    let a = applied(alloc, table, words)?;
    list.enter_reflexive(alloc, &a)
}

// Enters the entry of a number, turned round.
fn symmetric(
    alloc: Global,
    list: &mut ProofList,
    numbers: &[ProvenEq],
    words: &str,
) -> Result<ProvenEq, Error> {
    let p = number(numbers, words)?;
    if list.is_valid(p) {
        list.enter_symmetric(alloc, p)
    } else {
        Err(Error::BadStep)
    }
}

// Enters both equations of a chain, and the equation of its ends.
fn joined(
    alloc: Global,
    list: &mut ProofList,
    l: &AppliedId,
    middle: &AppliedId,
    r: &AppliedId,
) -> Result<ProvenEq, Error>
    requires left { IsInjectiveMap l.now.m }
    requires middle { IsInjectiveMap middle.now.m }
    requires right { IsInjectiveMap r.now.m }
{
    let p = list.enter_explicit(alloc, l, middle, None)?;
    let q = list.enter_explicit(alloc, middle, r, None)?;
    list.enter_transitive(alloc, p, q)
}

// Enters the equation of the two ends of the chain `A = B = C`.
fn transitive(
    alloc: Global,
    list: &mut ProofList,
    chain: &str,
    table: &mut SlotTable,
) -> Result<ProvenEq, Error> {
    let (sides, r) = chain.rsplit_once(" = ").unwrap_or((chain, ""));
    let e = equation(alloc, table, sides)?;
    let r = applied(alloc, table, r)?;
    joined(alloc, list, &e.l, &e.r, &r)
}

// Returns the number that a call answers.
pub(crate) fn entered(
    alloc: Global,
    list: &mut ProofList,
    numbers: &[ProvenEq],
    call: &str,
    words: &str,
    table: &mut SlotTable,
) -> Result<ProvenEq, Error> {
    match call {
        "enter_reflexive" => reflexive(alloc, list, words, table),
        "enter_symmetric" => symmetric(alloc, list, numbers, words),
        "enter_transitive" => transitive(alloc, list, words, table),
        _ => equated(alloc, list, numbers, call, words, table),
    }
}
