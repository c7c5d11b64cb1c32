//! E-nodes over the ids and the terms on a stack.
ghost use Rattle.std.specs.Prelude.{◌≡◌, ◌≤◌, ◌-◌, ◌++◌, [], ◌∷◌, length, map, take, drop, reverse, IfOk, IfErr, OnOk};
ghost use Rattle.slotted_slots.specs.Error.{IsOutOfMemory};
ghost use Rattle.slotted_nodes.specs.Form.{children};
ghost use Rattle.slotted_languages.specs.Filled.{term_of};
ghost use Rattle.slotted_terms.specs.Flat.{flat_of};
ghost use Rattle.slotted_languages.specs.Beside.{IsBeside};
ghost use Rattle.slotted_operations.specs.Nodes.{child_ids, to_applied};
ghost use Rattle.slotted_operations.specs.Preorder.{IsOfOneTerm, built};

use slotted_languages::Language;
use slotted_slots::{AppliedId, Error};
use slotted_terms::expr::RecExpr;
use slotted_terms::flat::FlatNode;
use std::alloc::Global;

/// Returns the e-node over as many of the last ids as it has children, and removes these from the list.
pub fn over_last<L: Language>(node: FlatNode<L>, ids: &mut Vec<AppliedId>) -> L
    requires { length (children (L.form node.node).tree) ≤ length ids.old.items }
    ensures beside { IsBeside (L.form node.node) (L.form result) }
    ensures ids { map to_applied ids.old.items ≡ map to_applied ids.new.items ++ child_ids (L.form result) }
{
    let FlatNode { mut node, count: _ } = node;
    let mut k = node.applied_id_count();
    while k > 0 {
        k -= 1;
        match ids.pop() {
            Some(id) => node.set_applied_id(k, id),
            None => unreachable!(),
        }
    }
    node
}

/// Adds the e-node's children to the ids that are left, the last one first.
pub fn push_children<L: Language>(
    alloc: Global,
    node: &L,
    left: &mut Vec<AppliedId>,
) -> Result<(), Error>
    ensures ok { OnOk result (map to_applied left.new.items
        ≡ map to_applied left.old.items ++ reverse (child_ids (L.form node.now))) }
    ensures err { IfErr result IsOutOfMemory }
{
    let mut k = node.applied_id_count();
    while k > 0 {
        k -= 1;
        let child = node.applied_id(k).copy(alloc)?;
        left.push(child)?;
    }
    Ok(())
}

// Returns the term of the e-node over as many of the last terms as stand under it, of which the last one comes first.
// Removes these from the list.
fn over_first<L: Language>(
    node: FlatNode<L>,
    done: &mut Vec<RecExpr<L>>,
) -> Result<RecExpr<L>, Error>
    requires { node.count ≤ length done.old.items }
    ensures ok { IfOk result (λ t. t ≡ term_of (L.form node.node) (reverse (drop (length done.old.items - node.count) done.old.items))) }
    ensures rest { OnOk result (done.new.items ≡ take (length done.old.items - node.count) done.old.items) }
    ensures err { IfErr result IsOutOfMemory }
{
    let FlatNode { node, count } = node;
    let mut children = done.split_off(done.len() - count)?;
    children.reverse();
    Ok(RecExpr { node, children })
}

/// Returns the term of a list of e-nodes, each before those of the terms under it, which follow from the left.
pub fn assemble<L: Language>(
    alloc: Global,
    mut nodes: Vec<FlatNode<L>>,
) -> Result<RecExpr<L>, Error>
    requires { IsOfOneTerm (flat_of L.form nodes.items) }
    ensures ok { IfOk result (λ t. built (flat_of L.form nodes.items) [] ≡ t ∷ []) }
    ensures err { IfErr result IsOutOfMemory }
{
    let mut done = Vec::new(alloc);
    while let Some(node) = nodes.pop() {
        let term = over_first(node, &mut done)?;
        done.push(term)?;
    }
    match done.pop() {
        Some(term) => Ok(term),
        None => unreachable!(),
    }
}
