//! The calls on equations, and their answers.
ghost use Rattle.slotted_theory.specs.FiniteMaps.{IsInjectiveMap};

use crate::elements::is_cloned;
use crate::reading::{equation, map_of, parted};
use crate::writing::{write_answered, write_test};
use slotted_proofs::Equation;
use slotted_slots::{AppliedId, Error, Id, Slot, SlotMap, SlotTable};
use std::alloc::Global;

// Returns the equation sent on by a map that keeps apart what it knows of each side.
fn sent_on(
    alloc: Global,
    e: &Equation,
    on: &SlotMap,
    table: &mut SlotTable,
) -> Result<Equation, Error> {
    let left = e.l.m.compose_partial(alloc, on)?;
    let right = e.r.m.compose_partial(alloc, on)?;
    if left.is_bijection() && right.is_bijection() {
        e.apply_slotmap_fresh(alloc, on, table)
    } else {
        Err(Error::NotEqual)
    }
}

// Returns the equation of `id7` and `id9` over `$3`, sent on by a map that knows the slot.
fn three_sent_on(alloc: Global, on: &SlotMap) -> Result<Equation, Error> {
    let three = Slot::numeric_at(3);
    if !on.contains_key(three) {
        return Err(Error::NotEqual);
    }
    let mut m = SlotMap::new(alloc);
    m.insert(Slot::numeric_at(0), three)?;
    let mut n = SlotMap::new(alloc);
    n.insert(Slot::numeric_at(1), three)?;
    let e = Equation {
        l: AppliedId { id: Id(7), m },
        r: AppliedId { id: Id(9), m: n },
    };
    e.apply_slotmap(alloc, on)
}

// Returns the equation that a call makes.
fn made(
    alloc: Global,
    call: &str,
    e: &Equation,
    on: &SlotMap,
    table: &mut SlotTable,
) -> Result<Equation, Error>
    requires left { IsInjectiveMap e.now.l.m }
    requires right { IsInjectiveMap e.now.r.m }
{
    match call {
        "numbered" => e.numbered(alloc),
        "turned" => e.turned(alloc),
        "apply_slotmap" => three_sent_on(alloc, on),
        _ => sent_on(alloc, e, on, table),
    }
}

// Writes how many slots an equation has.
fn write_count(alloc: Global, e: &Equation, text: &mut String) -> Result<(), Error> {
    let count = e.slots(alloc)?.len();
    Ok(write!(text, "{count}")?)
}

// Returns whether the copy and the clone of an equation equal it.
fn is_copied(alloc: Global, e: &Equation) -> Result<bool, Error> {
    Ok(e.copy(alloc)? == *e && is_cloned(e)?)
}

// Writes the answer of a call on an equation and a map.
fn write_answer(
    alloc: Global,
    call: &str,
    e: &Equation,
    on: &SlotMap,
    table: &mut SlotTable,
    text: &mut String,
) -> Result<(), Error>
    requires left { IsInjectiveMap e.now.l.m }
    requires right { IsInjectiveMap e.now.r.m }
{
    match call {
        "slots" => write_count(alloc, e, text),
        "copy" => write_test(is_copied(alloc, e), text),
        "correspondence" => write_answered(e.correspondence(alloc), table, text),
        _ => write_answered(made(alloc, call, e, on, table), table, text),
    }
}

// Writes the answer of a call on an equation, which a map may follow.
pub(crate) fn write_equation(
    alloc: Global,
    call: &str,
    words: &str,
    table: &mut SlotTable,
    text: &mut String,
) -> Result<(), Error> {
    let (words, map) = parted(words, " by ");
    let on = map_of(alloc, table, map)?;
    let e = equation(alloc, table, words)?;
    write_answer(alloc, call, &e, &on, table, text)
}
