//! Alpha-equality of terms, by a list of the pairs that are to be compared.
ghost use Rattle.std.specs.Prelude.{◌≡◌, ◌<◌, ◌≤◌, ◌⊎◌, ◌↔◌, ◌++◌, length, take, IsTrue, IfOk, IfErr, IfSome, IfNone, OnOk, IsErrOf};
ghost use Rattle.slotted_slots.specs.Error.{IsOutOfMemory, IsShortage};
ghost use Rattle.slotted_languages.specs.Filled.{term_of};
ghost use Rattle.slotted_theory.specs.Nameless.{Alpha};
ghost use Rattle.slotted_terms.specs.LargeNodes.{HasLargeNode};
ghost use Rattle.slotted_terms.specs.Pairs.{AddsPairs, Compares, SameBelow};
ghost use Rattle.slotted_outlines.specs.Seen.{AreMatchedBy, SameTerm, lefts, lefts_above, rights, rights_above};

use super::{RecExpr, term_count};
use slotted_languages::language::Language;
use slotted_outlines::outlines::{Binders, Outlines};
use slotted_slots::Error;
use std::alloc::Global;

// Two terms that are to be compared, below the first `depth` of the open binders and below the binders `above`
// besides.
#[derive(Drop)]
struct Pair<'a, L: Language> {
    one: &'a RecExpr<L>,
    two: &'a RecExpr<L>,
    depth: usize,
    above: Binders,
}

impl<L: Language> RecExpr<L> {
    /// Returns whether the two terms are alpha-equal, that is, the same up to the choice of bound names.
    pub fn alpha_eq(&self, alloc: Global, other: &RecExpr<L>) -> Result<bool, Error>
        ensures same { IfOk result (λ b. IsTrue b ↔ Alpha self.now other.now) }
        ensures slots { IsErrOf result Error.OutOfSlots → HasLargeNode self.now ⊎ HasLargeNode other.now }
        ensures err { IfErr result IsShortage }
    {
        let mut binders = Vec::new(alloc);
        let mut left = Vec::new(alloc);
        left.push(Pair {
            one: self,
            two: other,
            depth: 0,
            above: Vec::new(alloc),
        })?;
        while let Some(pair) = left.pop() {
            if !compare(alloc, pair, &mut binders, &mut left)? {
                return Ok(false);
            }
        }
        Ok(true)
    }
}

// Returns whether the nodes of two terms agree, with their own names and the number of terms under them. Adds the
// pairs of these terms to those that are left.
fn compare<'a, L: Language>(
    alloc: Global,
    pair: Pair<'a, L>,
    binders: &mut Binders,
    left: &mut Vec<Pair<'a, L>>,
) -> Result<bool, Error>
    ensures same { IfOk result (Compares binders.old.items binders.new.items pair.entry left.old.items left.new.items) }
    ensures slots { IsErrOf result Error.OutOfSlots → HasLargeNode pair.entry.one.now ⊎ HasLargeNode pair.entry.two.now }
    ensures err { IfErr result IsShortage }
{
    let Pair {
        one,
        two,
        depth,
        mut above,
    } = pair;
    binders.truncate(depth);
    binders.append(&mut above)?;
    match same_nodes(
        alloc,
        &one.node,
        &one.children,
        &two.node,
        &two.children,
        binders,
    )? {
        Some(nodes) => {
            push_pairs(&one.children, &two.children, &nodes, binders, left)?;
            Ok(true)
        }
        None => Ok(false),
    }
}

// Returns the outlines of the two nodes if they agree, with their own names below the binders and the number of terms
// under them.
fn same_nodes<L: Language>(
    alloc: Global,
    one: &L,
    ones: &[RecExpr<L>],
    two: &L,
    twos: &[RecExpr<L>],
    binders: &mut Binders,
) -> Result<Option<Outlines<L>>, Error>
    ensures none { IfOk result (λ o. IfNone o
        (¬ SameTerm binders.old.items (term_of (L.form one.now) ones.now) (term_of (L.form two.now) twos.now))) }
    ensures some { IfOk result (λ o. IfSome o
        (λ p. SameBelow L.form p binders.old.items (L.form one.now) (L.form two.now) ones.now twos.now)) }
    ensures kept { IfOk result (λ _. binders.new.items ≡ binders.old.items) }
    ensures slots { IsErrOf result Error.OutOfSlots
        → HasLargeNode (term_of (L.form one.now) ones.now) ⊎ HasLargeNode (term_of (L.form two.now) twos.now) }
    ensures err { IfErr result IsShortage }
{
    if term_count(ones) != term_count(twos) {
        return Ok(None);
    }
    let Some(nodes) = Outlines::new(alloc, one, two)? else {
        return Ok(None);
    };
    if !nodes.same_owns(binders)? {
        return Ok(None);
    }
    Ok(Some(nodes))
}

// Returns the binders of the nodes above their children `k`.
fn above_child<L: Language>(
    k: usize,
    nodes: &Outlines<L>,
    binders: &mut Binders,
) -> Result<Binders, Error>
    requires { AreMatchedBy L.form nodes.now.one nodes.now.two nodes.now.skeleton }
    ensures left { IfOk result
        (λ v. lefts (binders.old.items ++ v.items) ≡ lefts_above (L.form nodes.now.one) binders.old.items k) }
    ensures right { IfOk result
        (λ v. rights (binders.old.items ++ v.items) ≡ rights_above (L.form nodes.now.two) binders.old.items k) }
    ensures kept { IfOk result (λ _. binders.new.items ≡ binders.old.items) }
    ensures err { IfErr result IsOutOfMemory }
{
    let depth = binders.len();
    nodes.push_above(k, binders)?;
    let above = binders.split_off(depth)?;
    Ok(above)
}

// Adds the pairs of the nodes' children to those that are left, the last one first.
fn push_pairs<'a, L: Language>(
    ones: &'a [RecExpr<L>],
    twos: &'a [RecExpr<L>],
    nodes: &Outlines<L>,
    binders: &mut Binders,
    left: &mut Vec<Pair<'a, L>>,
) -> Result<(), Error>
    requires matched { AreMatchedBy L.form nodes.now.one nodes.now.two nodes.now.skeleton }
    requires count { length ones.now ≡ length twos.now }
    ensures ok { OnOk result (AddsPairs (L.form nodes.now.one) (L.form nodes.now.two) binders.old.items ones.now twos.now 0 left.old.items left.new.items) }
    ensures kept { OnOk result (binders.new.items ≡ binders.old.items) }
    ensures err { IfErr result IsOutOfMemory }
{
    let depth = binders.len();
    let mut k = ones.len();
    while k > 0 {
        k -= 1;
        let above = above_child(k, nodes, binders)?;
        left.push(Pair {
            one: &ones[k],
            two: &twos[k],
            depth,
            above,
        })?;
    }
    Ok(())
}
