//! Bound names of one term in another.
ghost use Rattle.std.specs.Prelude.{◌<◌, length, IfOk, IfErr};
ghost use Rattle.slotted_slots.specs.Error.{IsOutOfMemory};
ghost use Rattle.slotted_theory.specs.Nameless.{Alpha};

use slotted_languages::Language;
use slotted_outlines::outlines::Outlines;
use slotted_slots::{Error, Slot};
use slotted_terms::RecExpr;
use slotted_terms::flat::{FlatNode, flatten};
use std::alloc::Global;

// Exchanges two names at all places of a node.
fn swap_names<L: Language>(node: &mut L, x: Slot, y: Slot) {
    for i in 0..node.slot_count() {
        let name = node.slot(i);
        if name == x {
            node.set_slot(i, y);
        } else if name == y {
            node.set_slot(i, x);
        }
    }
}

// Exchanges two names in a part of a list of nodes.
fn swap_in<L: Language>(nodes: &mut [FlatNode<L>], from: usize, to: usize, x: Slot, y: Slot) {
    for i in from..to {
        if i < nodes.len() {
            swap_names(&mut nodes[i].node, x, y);
        }
    }
}

// Returns where the nodes of the term end that begins at a place of the list.
fn end_of<L: Language>(nodes: &[FlatNode<L>], start: usize) -> usize {
    let mut open = 1usize;
    for i in start..nodes.len() {
        if open == 0 {
            return i;
        }
        open = (open - 1).saturating_add(nodes[i].count);
    }
    nodes.len()
}

// Gives the term that begins at a place of the list the names of another node's binders. Returns whether the two nodes
// agree but for names and what stands under them.
fn take_names<L: Language>(
    alloc: Global,
    given: &FlatNode<L>,
    nodes: &mut [FlatNode<L>],
    start: usize,
) -> Result<bool, Error>
    requires { start < length nodes.old }
    ensures err { IfErr result IsOutOfMemory }
{
    let end = end_of(nodes, start);
    let (one, mut two) = match Outlines::new(alloc, &given.node, &nodes[start].node) {
        Ok(Some(pair)) => (pair.one, pair.two),
        Ok(None) | Err(Error::OutOfSlots) => return Ok(false),
        Err(error) => return Err(error),
    };
    for i in 0..one.slot_count() {
        if i < two.slot_count() && one.scope_end(i).is_some() && one.slot(i) != two.slot(i) {
            let (x, y) = (one.slot(i), two.slot(i));
            swap_names(&mut two, x, y);
            swap_in(nodes, start, end, x, y);
        }
    }
    Ok(given.count == nodes[start].count)
}

// Returns the nodes of the second term, with the names of the first one's binders from above as far as the nodes agree.
fn renamed_nodes<L: Language>(
    alloc: Global,
    one: &RecExpr<L>,
    two: &RecExpr<L>,
) -> Result<Vec<FlatNode<L>>, Error>
    ensures err { IfErr result IsOutOfMemory }
{
    let given = flatten(alloc, one)?;
    let mut nodes = flatten(alloc, two)?;
    for i in 0..given.len() {
        if i >= nodes.len() || !take_names(alloc, &given[i], &mut nodes, i)? {
            return Ok(nodes);
        }
    }
    Ok(nodes)
}

// Returns the term of a list of nodes, if it is one.
fn assembled<L: Language>(
    alloc: Global,
    mut nodes: Vec<FlatNode<L>>,
) -> Result<Option<RecExpr<L>>, Error>
    ensures err { IfErr result IsOutOfMemory }
{
    let mut done = Vec::new(alloc);
    while let Some(flat) = nodes.pop() {
        let FlatNode { node, count } = flat;
        if count > done.len() {
            return Ok(None);
        }
        let children = done.split_off(done.len() - count)?;
        done.push(RecExpr { node, children })?;
    }
    Ok(done.pop())
}

/// Returns a term that is alpha-equal to the second one, and has the bound names of the first one, from above as far as
/// the nodes of both agree. If these names would capture a free one, the second term is returned as it is.
pub fn named_like<L: Language>(
    alloc: Global,
    one: &RecExpr<L>,
    two: &RecExpr<L>,
) -> Result<RecExpr<L>, Error>
    ensures ok { IfOk result (λ t. Alpha t two.now) }
    ensures err { IfErr result IsOutOfMemory }
{
    let nodes = renamed_nodes(alloc, one, two)?;
    let Some(term) = assembled(alloc, nodes)? else {
        return two.copy(alloc);
    };
    match term.alpha_eq(alloc, two) {
        Ok(true) => Ok(term),
        Ok(false) | Err(Error::OutOfSlots) => two.copy(alloc),
        Err(error) => Err(error),
    }
}
