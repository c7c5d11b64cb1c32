//! What binds: in an example of an operator, and around the variables of a rule.
use slotted_patterns::Pattern;
use slotted_rule_texts::SlotCondition;
use slotted_slots::{Error, Slot};
use slotted_symbols::{Argument, SymbolLang};
use std::alloc::Global;

/// A variable of a pattern, and the slots that are bound around it.
#[derive(Drop)]
pub struct Occurrence<'a> {
    pub variable: &'a str,
    pub bound: Vec<Slot>,
}

// A pattern that is still to be read, with the slots that are bound around it.
#[derive(Drop)]
struct Open<'a> {
    pattern: &'a Pattern<SymbolLang>,
    bound: Vec<Slot>,
}

fn with_slots(alloc: Global, bound: &[Slot], more: &[Slot]) -> Result<Vec<Slot>, Error> {
    let mut all = Vec::with_capacity(alloc, bound.len())?;
    for slot in bound {
        all.push(*slot)?;
    }
    for slot in more {
        all.push(*slot)?;
    }
    Ok(all)
}

// Adds the children of an e-node, each with the slots that stand in front of it.
fn open_children<'a>(
    alloc: Global,
    node: &'a SymbolLang,
    children: &'a [Pattern<SymbolLang>],
    bound: &[Slot],
    open: &mut Vec<Open<'a>>,
) -> Result<(), Error> {
    let mut run = Vec::new(alloc);
    let mut count = 0usize;
    for argument in node.arguments() {
        match argument {
            Argument::Slot(slot) => run.push(*slot)?,
            Argument::Child(_) => {
                if let Some(pattern) = children.get(count) {
                    let bound = with_slots(alloc, bound, &run)?;
                    open.push(Open { pattern, bound })?;
                }
                run.clear();
                count = count.saturating_add(1);
            }
        }
    }
    Ok(())
}

// Notes a variable, or adds the parts of another pattern.
fn read_open<'a>(
    alloc: Global,
    next: Open<'a>,
    open: &mut Vec<Open<'a>>,
    found: &mut Vec<Occurrence<'a>>,
) -> Result<(), Error> {
    match next.pattern {
        Pattern::ENode(node, children) => open_children(alloc, node, children, &next.bound, open),
        Pattern::PVar(name) => {
            found.push(Occurrence {
                variable: name.as_str(),
                bound: next.bound,
            })?;
            Ok(())
        }
        Pattern::Subst(body, place, value) => {
            open_replaced(alloc, body, place, value, &next.bound, open)
        }
    }
}

/// Returns the variables of a pattern, each as often as it stands, with the slots that are bound around it. If a part
/// is replaced in a pattern, the slots of that part count as bound in the pattern.
pub fn occurrences(
    alloc: Global,
    pattern: &Pattern<SymbolLang>,
) -> Result<Vec<Occurrence<'_>>, Error> {
    let mut found = Vec::new(alloc);
    let mut open = Vec::new(alloc);
    open.push(Open {
        pattern,
        bound: Vec::new(alloc),
    })?;
    for _ in 0..u64::MAX {
        match open.pop() {
            Some(next) => read_open(alloc, next, &mut open, &mut found)?,
            None => return Ok(found),
        }
    }
    Ok(found)
}

// Adds the parts of a substitution.
fn open_replaced<'a>(
    alloc: Global,
    body: &'a Pattern<SymbolLang>,
    place: &'a Pattern<SymbolLang>,
    value: &'a Pattern<SymbolLang>,
    bound: &[Slot],
    open: &mut Vec<Open<'a>>,
) -> Result<(), Error> {
    let mut replaced = Vec::new(alloc);
    if let Pattern::ENode(node, _) = place {
        for argument in node.arguments() {
            if let Argument::Slot(slot) = argument {
                replaced.push(*slot)?;
            }
        }
    }
    open.push(Open {
        pattern: value,
        bound: with_slots(alloc, bound, &[])?,
    })?;
    open.push(Open {
        pattern: body,
        bound: with_slots(alloc, bound, &replaced)?,
    })?;
    Ok(())
}

// Returns whether a slot is bound around each occurrence of a variable.
fn is_bound_at_each(found: &[Occurrence], variable: &str, slot: Slot) -> bool {
    found.iter().all(|o| o.variable != variable || o.bound.iter().any(|b| *b == slot))
}

// Returns whether a condition says that a slot does not occur in what stands for a variable. `slots` are those of the
// conditions, in order.
fn is_excluded(conditions: &[SlotCondition], slots: &[Slot], variable: &str, slot: Slot) -> bool {
    conditions.iter().zip(slots).any(|(c, other)| !c.occurs
        && c.variable == variable
        && *other == slot)
}

// Returns the first slot that is bound around an occurrence, and not around each occurrence on the right side, and that
// no condition excludes.
fn lost_slot(
    occurrence: &Occurrence,
    right: &[Occurrence],
    conditions: &[SlotCondition],
    slots: &[Slot],
) -> Option<Slot> {
    let variable = occurrence.variable;
    for slot in &occurrence.bound {
        if !is_bound_at_each(right, variable, *slot)
            && !is_excluded(conditions, slots, variable, *slot)
        {
            return Some(*slot);
        }
    }
    None
}

/// Returns which occurrence of a variable on the left side is under a binder that some occurrence on the right side is
/// not under, and the slot of that binder. What stands for the variable may then have a slot that nothing binds on the
/// right side.
pub fn lost_binder(
    left: &[Occurrence],
    right: &[Occurrence],
    conditions: &[SlotCondition],
    slots: &[Slot],
) -> Option<(usize, Slot)> {
    for i in 0..left.len() {
        if let Some(slot) = lost_slot(&left[i], right, conditions, slots) {
            return Some((i, slot));
        }
    }
    None
}
