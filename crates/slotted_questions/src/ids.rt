//! Questions on two ids.
use crate::graphs::{parted, slot, yes};
use slotted_graph::EGraph;
use slotted_languages::Language;
use slotted_proofs::Equation;
use slotted_slots::{AppliedId, Error, Id, Slot, SlotMap};
use std::alloc::Global;
use std::mem;

// Returns whether two ids are equal, if both are valid.
fn equal<L: Language>(graph: &EGraph<L>, a: &AppliedId, b: &AppliedId) -> Result<bool, Error> {
    if graph.is_valid(a) && graph.is_valid(b) {
        graph.eq(a, b)
    } else {
        Err(Error::NotATerm)
    }
}

/// Returns how two ids are related.
pub fn related<L: Language>(
    graph: &EGraph<L>,
    a: &AppliedId,
    b: &AppliedId,
) -> Result<&'static str, Error> {
    if equal(graph, a, b)? {
        Ok("equal")
    } else if a.id == b.id {
        Ok("one class")
    } else {
        Ok("two classes")
    }
}

/// Returns what `find` maps an id to, if the id is valid.
pub fn found<L: Language>(graph: &EGraph<L>, a: &AppliedId) -> Result<AppliedId, Error> {
    if graph.is_valid(a) {
        graph.find_applied_id(a)
    } else {
        Err(Error::NotATerm)
    }
}

/// Returns the class of an id, with its own slots for names, if the class exists.
pub fn own<L: Language>(graph: &EGraph<L>, a: &AppliedId) -> Result<AppliedId, Error> {
    if graph.is_valid_id(a.id) {
        graph.mk_identity_applied_id(a.id)
    } else {
        Err(Error::NotATerm)
    }
}

/// Returns how many slots of the class of an id are not redundant.
pub fn slots_left<L: Language>(graph: &EGraph<L>, a: &AppliedId) -> Result<usize, Error> {
    if !graph.is_valid_id(a.id) {
        return Err(Error::NotATerm);
    }
    Ok(graph.slots(a.id)?.len())
}

/// Returns how the two sides of a listed symmetry are related.
pub fn sides_related<L: Language>(graph: &EGraph<L>, number: usize) -> Result<&'static str, Error> {
    match graph.symmetries_met().get(number) {
        Some(symmetry) => related(graph, &symmetry.equation.l, &symmetry.equation.r),
        None => Ok("none"),
    }
}

/// Returns whether exactly as many listed symmetries have unequal sides as are said to be open.
pub fn are_counted<L: Language>(graph: &EGraph<L>) -> Result<bool, Error> {
    let mut left = graph.open_symmetries()?;
    for symmetry in graph.symmetries_met() {
        if !equal(graph, &symmetry.equation.l, &symmetry.equation.r)? {
            if left == 0 {
                return Ok(false);
            }
            left -= 1;
        }
    }
    Ok(left == 0)
}

// Unites both ids, if they are valid, and returns the answer.
fn unite<L: Language>(graph: &mut EGraph<L>, sides: &Equation) -> Result<bool, Error> {
    if graph.is_valid(&sides.l) && graph.is_valid(&sides.r) {
        graph.union(&sides.l, &sides.r)
    } else {
        Err(Error::NotATerm)
    }
}

// Unites both ids with a text that says why, if they are valid, and returns the answer.
fn unite_since<L: Language>(
    graph: &mut EGraph<L>,
    sides: &Equation,
    text: String,
) -> Result<bool, Error> {
    if graph.is_valid(&sides.l) && graph.is_valid(&sides.r) {
        graph.union_justified(&sides.l, &sides.r, Some(text))
    } else {
        Err(Error::NotATerm)
    }
}

/// Unites both ids, with the text unless it is empty, and returns the answer.
pub fn unite_because<L: Language>(
    alloc: Global,
    graph: &mut EGraph<L>,
    sides: &Equation,
    text: &str,
) -> Result<bool, Error> {
    if text.is_empty() {
        unite(graph, sides)
    } else {
        unite_since(graph, sides, text.replace(alloc, "¶", "\n")?)
    }
}

// Puts another slot at a place of an id, if the id has the place.
fn put_slot(id: &mut AppliedId, i: usize, slot: Slot) {
    if i < id.m.len() {
        id.m.set_value_at(i, slot);
    }
}

// Removes the first slot of an id.
fn shorten(a: &mut AppliedId) {
    let first = a.m.iter().next();
    if let Some((key, _)) = first {
        a.m.remove(key);
    }
}

// Returns the class of this number without slots.
fn bare(alloc: Global, number: &str) -> AppliedId {
    AppliedId {
        id: Id(number.parse::<usize>().unwrap_or(0)),
        m: SlotMap::new(alloc),
    }
}

// Adds a pair to the map of an id.
fn put_more(id: &mut AppliedId, slot: Slot) -> Result<(), Error> {
    id.m.insert(slot, slot)?;
    Ok(())
}

// Changes the left id: another slot at a place, one more pair, a class of this number without slots, or the slots of
// the right id.
fn change(alloc: Global, sides: &mut Equation, how: &str) -> Result<(), Error> {
    let (word, name) = parted(how, " ");
    let slot = slot(alloc, name)?;
    match word {
        "first" => put_slot(&mut sides.l, 0, slot),
        "second" => put_slot(&mut sides.l, 1, slot),
        "more" => return put_more(&mut sides.l, slot),
        "bare" => sides.l = bare(alloc, name),
        _ => mem::swap(&mut sides.l.m, &mut sides.r.m),
    }
    Ok(())
}

// Replaces an id by what `find` maps it to.
fn find<L: Language>(graph: &EGraph<L>, id: &mut AppliedId) -> Result<(), Error> {
    *id = found(graph, id)?;
    Ok(())
}

// Replaces an id by its class over the class's own slots.
fn make_own<L: Language>(graph: &EGraph<L>, id: &mut AppliedId) -> Result<(), Error> {
    *id = own(graph, id)?;
    Ok(())
}

/// Changes one of the ids.
pub fn turn<L: Language>(
    alloc: Global,
    graph: &EGraph<L>,
    sides: &mut Equation,
    word: &str,
    how: &str,
) -> Result<(), Error> {
    match word {
        "find" => find(graph, &mut sides.l),
        "find right" => find(graph, &mut sides.r),
        "own" => make_own(graph, &mut sides.l),
        "change" => change(alloc, sides, how),
        _ => {
            shorten(&mut sides.r);
            Ok(())
        }
    }
}

// Returns whether the id is the class 0 with the slot of this name for its one slot.
fn is_first_over(alloc: Global, id: &AppliedId, name: &str) -> Result<bool, Error> {
    let slot = slot(alloc, name)?;
    match id.m.iter().next() {
        Some((_, value)) => Ok(id.id == Id(0) && id.m.len() == 1 && value == slot),
        None => Ok(false),
    }
}

// Returns whether the id has as many slots as its class has slots that are not redundant.
fn is_narrow<L: Language>(graph: &EGraph<L>, id: &AppliedId) -> Result<bool, Error> {
    Ok(slots_left(graph, id)? == id.m.len())
}

/// Returns whether a word holds of the ids, or of the graph.
pub fn holds<L: Language>(
    alloc: Global,
    graph: &EGraph<L>,
    sides: &Equation,
    word: &str,
    name: &str,
) -> Result<bool, Error> {
    match word {
        "same" => Ok(sides.l == sides.r),
        "alive" => Ok(graph.is_alive(sides.l.id)),
        "valid" => Ok(graph.is_valid(&sides.l)),
        "full" => Ok(graph.is_full(&sides.l)),
        "narrow" => is_narrow(graph, &sides.l),
        "equal" => equal(graph, &sides.l, &sides.r),
        "checked" => graph.check(),
        _ => is_first_over(alloc, &sides.l, name),
    }
}
