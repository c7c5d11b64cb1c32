//! Terms as lists of their nodes. Loops make them of trees, and trees of them.
ghost use Rattle.std.specs.Prelude.{◌≡◌, ◌≤◌, ◌++◌, length, map, IfOk, OnOk, IfErr, IsSome};
ghost use Rattle.slotted_slots.specs.Error.{IsOutOfMemory};
ghost use Rattle.slotted_patterns.specs.Tree.{PatternTree};
ghost use Rattle.slotted_patterns.specs.View.{tree_of};
ghost use Rattle.slotted_terms.specs.AsTerm.{as_term, IsRefusal};
ghost use Rattle.slotted_terms.specs.Flat.{HasTree, Opens, closed, closed_terms, flat, flat_of};
ghost use Rattle.slotted_terms.specs.TermPattern.{IsGround, IsPatternOf, term_in};

use crate::expr::RecExpr;
use slotted_languages::language::Language;
use slotted_patterns::Pattern;
use slotted_slots::Error;
use std::alloc::Global;

/// A node of a term, and the number of terms under it.
#[derive(Drop)]
pub struct FlatNode<L: Language> {
    /// The node.
    pub node: L,
    /// The number of terms under the node.
    pub count: usize,
}

// Adds the terms to those that are left.
fn push_all<'a, L: Language>(
    left: &mut Vec<&'a RecExpr<L>>,
    terms: &'a [RecExpr<L>],
) -> Result<(), Error>
    ensures ok { OnOk result (map (λ t. t.now) left.new.items ≡ map (λ t. t.now) left.old.items ++ terms.now) }
    ensures err { IfErr result IsOutOfMemory }
{
    for term in terms {
        left.push(term)?;
    }
    Ok(())
}

/// Returns the nodes of a term, each before those under it, which follow from the right.
///
/// If the nodes are taken from the end, the terms under a node are complete when it is reached.
pub fn flatten<L: Language>(alloc: Global, term: &RecExpr<L>) -> Result<Vec<FlatNode<L>>, Error>
    ensures ok { IfOk result (λ v. (p : PatternTree) × IsPatternOf p term.now × (flat_of L.form v.items ≡ flat p)) }
    ensures err { IfErr result IsOutOfMemory }
{
    let mut nodes = Vec::new(alloc);
    let mut left = Vec::new(alloc);
    left.push(term)?;
    while let Some(next) = left.pop() {
        let node = next.node.copy(alloc)?;
        let count = next.children.len();
        nodes.push(FlatNode { node, count })?;
        push_all(&mut left, &next.children)?;
    }
    Ok(nodes)
}

// Returns the node that the pattern is, and adds the patterns under it to those that are left. Returns `NotATerm` if
// these are not as many as the node's children.
fn open<L: Language>(pattern: Pattern<L>, left: &mut Vec<Pattern<L>>) -> Result<FlatNode<L>, Error>
    ensures ok { IfOk result (λ n. Opens L.form (tree_of L.form pattern) n
        (map (tree_of L.form) left.old.items) (map (tree_of L.form) left.new.items)) }
    ensures none { IfErr result (IsRefusal (as_term (tree_of L.form pattern))) }
{
    let Some((node, mut below)) = pattern.into_node() else {
        return Err(Error::NotATerm);
    };
    let count = below.len();
    if count != node.applied_id_count() {
        return Err(Error::NotATerm);
    }
    left.append(&mut below)?;
    Ok(FlatNode { node, count })
}

// Returns the nodes of the pattern, the uppermost first, if it is a term.
pub(crate) fn take_apart<L: Language>(
    alloc: Global,
    pattern: Pattern<L>,
) -> Result<Vec<FlatNode<L>>, Error>
    ensures ok { IfOk result (λ v. flat_of L.form v.items ≡ flat (tree_of L.form pattern)) }
    ensures term { IfOk result (λ _. IsSome (as_term (tree_of L.form pattern))) }
    ensures none { IfErr result (IsRefusal (as_term (tree_of L.form pattern))) }
{
    let mut nodes = Vec::new(alloc);
    let mut left = Vec::new(alloc);
    left.push(pattern)?;
    while let Some(next) = left.pop() {
        let node = open(next, &mut left)?;
        nodes.push(node)?;
    }
    Ok(nodes)
}

// Replaces the last `node.count` patterns of the list by that of the node over them.
fn close<L: Language>(done: &mut Vec<Pattern<L>>, node: FlatNode<L>) -> Result<(), Error>
    requires { node.count ≤ length done.old.items }
    ensures ok { OnOk result (map (tree_of L.form) done.new.items
        ≡ closed (L.form node.node) node.count (map (tree_of L.form) done.old.items)) }
    ensures err { IfErr result IsOutOfMemory }
{
    let FlatNode { node, count } = node;
    let below = done.split_off(done.len() - count)?;
    done.push(Pattern::ENode(node, below))?;
    Ok(())
}

// Returns the pattern of a list of nodes.
pub(crate) fn assemble<L: Language>(
    alloc: Global,
    mut nodes: Vec<FlatNode<L>>,
) -> Result<Pattern<L>, Error>
    requires { HasTree (flat_of L.form nodes.items) }
    ensures ok { IfOk result (λ q. (p : PatternTree) → IsGround p → flat_of L.form nodes.items ≡ flat p → tree_of L.form q ≡ p) }
    ensures err { IfErr result IsOutOfMemory }
{
    let mut done = Vec::new(alloc);
    while let Some(node) = nodes.pop() {
        close(&mut done, node)?;
    }
    match done.pop() {
        Some(pattern) => Ok(pattern),
        None => unreachable!(),
    }
}

// Replaces the last `node.count` terms of the list by that of the node over them.
fn close_term<L: Language>(done: &mut Vec<RecExpr<L>>, node: FlatNode<L>) -> Result<(), Error>
    requires { node.count ≤ length done.old.items }
    ensures ok { OnOk result (done.new.items ≡ closed_terms (L.form node.node) node.count done.old.items) }
    ensures err { IfErr result IsOutOfMemory }
{
    let FlatNode { node, count } = node;
    let children = done.split_off(done.len() - count)?;
    done.push(RecExpr { node, children })?;
    Ok(())
}

// Returns the term of a list of nodes.
pub(crate) fn assemble_term<L: Language>(
    alloc: Global,
    mut nodes: Vec<FlatNode<L>>,
) -> Result<RecExpr<L>, Error>
    requires { HasTree (flat_of L.form nodes.items) }
    ensures ok { IfOk result (λ t. (p : PatternTree) → IsGround p → flat_of L.form nodes.items ≡ flat p → t ≡ term_in p) }
    ensures err { IfErr result IsOutOfMemory }
{
    let mut done = Vec::new(alloc);
    while let Some(node) = nodes.pop() {
        close_term(&mut done, node)?;
    }
    match done.pop() {
        Some(term) => Ok(term),
        None => unreachable!(),
    }
}
