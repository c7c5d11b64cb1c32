//! Places in terms, and the names of terms.
ghost use Rattle.std.specs.Prelude.{◌≤◌, ◌⊎◌, length, Contains, IfErr, IfNone, IfOk, IfSome};
ghost use Rattle.slotted_slots.specs.Error.{IsOutOfMemory};
ghost use Rattle.slotted_slots.specs.Table.{slot_limit};

use slotted_languages::Language;
use slotted_patterns::show::node_text;
use slotted_slots::{AppliedId, Error, Slot, SlotMap, SlotTable, SyntaxElem};
use slotted_terms::expr::RecExpr;
use slotted_terms::expr::printing::Printable;
use slotted_terms::flat::flatten;
use std::alloc::Global;

// Returns the subterm at a path, if there is one.
pub(crate) fn subterm<'a, L: Language>(
    term: &'a RecExpr<L>,
    path: &[usize],
) -> Option<&'a RecExpr<L>> {
    let mut at = term;
    for k in path {
        match at.children.get(*k) {
            Some(child) => at = child,
            None => return None,
        }
    }
    Some(at)
}

// Puts another term in place of the subterm at a path, if there is one.
pub(crate) fn replace_at<L: Language>(term: &mut RecExpr<L>, path: &[usize], new: RecExpr<L>) {
    let mut at = &mut *term;
    for k in path {
        if *k >= at.children.len() {
            return;
        }
        at = &mut at.children[*k];
    }
    *at = new;
}

// Returns the terms along a path, each over the next. The list ends if there is no child.
fn along<'a, L: Language>(
    alloc: Global,
    term: &'a RecExpr<L>,
    path: &[usize],
) -> Result<Vec<&'a RecExpr<L>>, Error>
    ensures err { IfErr result IsOutOfMemory }
{
    let mut terms = Vec::new(alloc);
    let mut at = term;
    for k in path {
        terms.push(at)?;
        match at.children.get(*k) {
            Some(child) => at = child,
            None => return Ok(terms),
        }
    }
    Ok(terms)
}

// Returns the text of a term in brackets after the mark.
fn bracketed<L: Printable>(
    alloc: Global,
    term: &RecExpr<L>,
    mark: &str,
    table: &SlotTable,
) -> Result<String, Error>
    ensures err { IfErr result IsOutOfMemory }
{
    let text = term.text(alloc, table)?;
    Ok(format!(in alloc; "({mark} {text})")?)
}

// Returns the text of a term in which the subterm at a path stands in round brackets after the mark. If there is no
// such subterm, there is no mark.
pub(crate) fn marked<L: Printable>(
    alloc: Global,
    term: &RecExpr<L>,
    path: &[usize],
    mark: &str,
    table: &SlotTable,
) -> Result<String, Error>
    ensures err { IfErr result IsOutOfMemory }
{
    let Some(at) = subterm(term, path) else {
        return term.text(alloc, table);
    };
    let mut text = bracketed(alloc, at, mark, table)?;
    let terms = along(alloc, term, path)?;
    for (above, place) in terms.iter().zip(path).rev() {
        text = text_around(alloc, above, *place, &text, table)?;
    }
    Ok(text)
}

// Returns the text of a term with another text in place of that of one child.
fn text_around<L: Printable>(
    alloc: Global,
    term: &RecExpr<L>,
    place: usize,
    inner: &str,
    table: &SlotTable,
) -> Result<String, Error>
    ensures err { IfErr result IsOutOfMemory }
{
    let mut children = Vec::new(alloc);
    for (k, child) in term.children.iter().enumerate() {
        if k == place {
            children.push(String::from_str(alloc, inner)?)?;
        } else {
            children.push(child.text(alloc, table)?)?;
        }
    }
    let elements = term.node.to_syntax(alloc)?;
    node_text(alloc, &elements, &children, table)
}

// Returns the slots of a term, e-node by e-node. Two terms that are equal up to names have them in one order.
fn slots_of<L: Language>(alloc: Global, term: &RecExpr<L>) -> Result<Vec<Slot>, Error>
    ensures err { IfErr result IsOutOfMemory }
{
    let nodes = flatten(alloc, term)?;
    let mut slots = Vec::new(alloc);
    for flat in &nodes {
        push_own(alloc, &flat.node, &mut slots)?;
    }
    Ok(slots)
}

// Appends the own slots of an e-node.
fn push_own<L: Language>(alloc: Global, node: &L, slots: &mut Vec<Slot>) -> Result<(), Error>
    ensures err { IfErr result IsOutOfMemory }
{
    let elements = node.to_syntax(alloc)?;
    for element in &elements {
        if let SyntaxElem::Slot(slot) = element {
            slots.push(*slot)?;
        }
    }
    Ok(())
}

// Returns the map that takes some slots to the names of a term. A slot that stands in the pattern is taken to the slot
// at the same place of the term.
pub(crate) fn names_in<L: Language>(
    alloc: Global,
    names: &SlotMap,
    pattern: &RecExpr<L>,
    term: &RecExpr<L>,
) -> Result<SlotMap, Error>
    ensures err { IfErr result IsOutOfMemory }
{
    let slots = slots_of(alloc, pattern)?;
    let found = slots_of(alloc, term)?;
    let matched = matched_names(alloc, &slots, &found)?;
    names.compose_partial(alloc, &matched)
}

// Returns the map from the slots of one list to those of the other, place by place.
fn matched_names(alloc: Global, slots: &[Slot], names: &[Slot]) -> Result<SlotMap, Error>
    ensures err { IfErr result IsOutOfMemory }
{
    let mut matched = SlotMap::new(alloc);
    for (i, slot) in slots.iter().enumerate() {
        if let Some(name) = names.get(i) {
            matched.insert(*slot, *name)?;
        }
    }
    Ok(matched)
}

// Names each slot of an id that has no name yet, by one that is not in a term.
pub(crate) fn name_others<L: Language>(
    alloc: Global,
    a: &AppliedId,
    term: &RecExpr<L>,
    names: &mut SlotMap,
) -> Result<(), Error>
    ensures err { IfErr result IsOutOfMemory }
{
    let mut used = slots_of(alloc, term)?;
    name_apart(alloc, a, names, &mut used)
}

// Names each slot of an id that has no name yet, by one that is not used.
fn name_apart(
    alloc: Global,
    a: &AppliedId,
    names: &mut SlotMap,
    used: &mut Vec<Slot>,
) -> Result<(), Error>
    ensures err { IfErr result IsOutOfMemory }
{
    for pair in a.m.iter() {
        if !names.contains_key(pair.1) {
            let name = free_name(alloc, pair.1, names, used)?;
            used.push(name)?;
            names.insert(pair.1, name)?;
        }
    }
    Ok(())
}

// Returns a name for a slot: the slot itself, or a number if the term uses the slot. If the term uses all numbers, the
// name is one that no slot of the id has. There are fewer such slots than numbers.
fn free_name(alloc: Global, slot: Slot, names: &SlotMap, used: &[Slot]) -> Result<Slot, Error>
    ensures free { IfOk result (λ s. ¬ Contains used.now s ⊎ (slot_limit ≤ length used.now)) }
    ensures err { IfErr result IsOutOfMemory }
{
    if let Some(name) = unused(slot, used) {
        return Ok(name);
    }
    let given = names.values_vec(alloc)?;
    Ok(unused(slot, &given).unwrap_or(slot))
}

// Returns the slot if it is not used, else the first number that is not used, if there is one.
fn unused(slot: Slot, used: &[Slot]) -> Option<Slot>
    ensures some { IfSome result (λ s. ¬ Contains used.now s) }
    ensures none { IfNone result (slot_limit ≤ length used.now) }
{
    if !used.contains(&slot) {
        return Some(slot);
    }
    for n in 0..1_073_741_824 {
        let number = Slot::numeric_at(n);
        if !used.contains(&number) {
            return Some(number);
        }
    }
    None
}
