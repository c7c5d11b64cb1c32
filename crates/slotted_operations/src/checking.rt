//! Steps that callers ask for, over the classes of a graph.
ghost use Rattle.std.specs.Prelude.{◌≡◌, ◌↔◌, IsTrue, IfOk, OnErr, IfErr, IsErrOf};
ghost use Rattle.slotted_slots.specs.Error.{IsShortage};
ghost use Rattle.slotted_model.specs.ProofList.{reflexive, symmetric, transitive, congruent};
ghost use Rattle.slotted_proofs.specs.StepClaims.{IsOfFull};
ghost use Rattle.slotted_proofs.specs.Steps.{IsRefusal};
ghost use Rattle.slotted_operations.specs.Causes.{HasManyNames, SidesRunOut};
ghost use Rattle.slotted_classes.specs.Kept.{EntersBy, nodes_of};
ghost use Rattle.slotted_rebuilding.specs.Frames.{FitsCongruent, FitsReflexive, FitsSymmetric, FitsTransitive};
ghost use Rattle.slotted_operations.specs.Good.{Good};

use crate::adding::is_full;
use slotted_alike::alike::child_equations;
use slotted_classes::Store;
use slotted_languages::Language;
use slotted_proofs::{Equation, ProvenEq};
use slotted_rebuilding::named::named_node;
use slotted_slots::Error;
use std::alloc::Global;

// Returns whether both sides of an equation are full ids.
fn is_of_full<L: Language>(store: &Store<L>, equation: &Equation) -> bool
    requires { Good store.now }
    ensures { IsTrue result ↔ IsOfFull (nodes_of store.now) equation.now }
{
    is_full(store, &equation.l) && is_full(store, &equation.r)
}

/// Enters the equation if it is one of full ids, and both sides are equal. Returns its number.
pub fn check_reflexive<L: Language>(
    store: &mut Store<L>,
    alloc: Global,
    equation: &Equation,
) -> Result<ProvenEq, Error>
    requires { Good store.old }
    ensures fits { IfOk result (λ _. FitsReflexive store.old equation.now) }
    ensures ok { IfOk result (EntersBy store.old store.new equation.now reflexive) }
    ensures refused { IsErrOf result Error.BadStep → ¬ FitsReflexive store.old equation.now }
    ensures full { IsErrOf result Error.OutOfSlots → HasManyNames equation.now }
    ensures only { IfErr result IsRefusal }
    ensures err { OnErr result (store.new ≡ store.old) }
{
    if !is_of_full(store, equation) {
        return Err(Error::BadStep);
    }
    store.prove_reflexive(alloc, equation)
}

/// Enters the equation if it is one of full ids, and that of the part, turned round, matches it. Returns its number.
pub fn check_symmetric<L: Language>(
    store: &mut Store<L>,
    alloc: Global,
    equation: &Equation,
    p: ProvenEq,
) -> Result<ProvenEq, Error>
    requires { Good store.old }
    ensures fits { IfOk result (λ _. FitsSymmetric store.old equation.now p) }
    ensures ok { IfOk result (EntersBy store.old store.new equation.now (symmetric p)) }
    ensures refused { IsErrOf result Error.BadStep → ¬ FitsSymmetric store.old equation.now p }
    ensures full { IsErrOf result Error.OutOfSlots → HasManyNames equation.now }
    ensures only { IfErr result IsRefusal }
    ensures err { OnErr result (store.new ≡ store.old) }
{
    if !is_of_full(store, equation) {
        return Err(Error::BadStep);
    }
    store.prove_symmetric(alloc, equation, p)
}

/// Enters the equation if it is one of full ids, and those of the two parts, one after the other, give it by some
/// names for the middle. Returns its number.
pub fn check_transitive<L: Language>(
    store: &mut Store<L>,
    alloc: Global,
    equation: &Equation,
    p: ProvenEq,
    q: ProvenEq,
) -> Result<ProvenEq, Error>
    requires { Good store.old }
    ensures fits { IfOk result (λ _. FitsTransitive store.old equation.now p q) }
    ensures ok { IfOk result (EntersBy store.old store.new equation.now (transitive p q)) }
    ensures refused { IsErrOf result Error.BadStep → ¬ FitsTransitive store.old equation.now p q }
    ensures full { IsErrOf result Error.OutOfSlots → HasManyNames equation.now }
    ensures only { IfErr result IsRefusal }
    ensures err { OnErr result (store.new ≡ store.old) }
{
    if !is_of_full(store, equation) {
        return Err(Error::BadStep);
    }
    store.prove_transitive(alloc, equation, p, q)
}

/// Enters the equation if it is one of full ids whose syntactic e-nodes agree up to their children, and each part
/// matches the equation of the children there. Returns its number.
///
/// The syntactic e-nodes have the names of the sides put in.
pub fn check_congruent<L: Language>(
    store: &mut Store<L>,
    alloc: Global,
    equation: &Equation,
    parts: Vec<ProvenEq>,
) -> Result<ProvenEq, Error>
    requires { Good store.old }
    ensures fits { IfOk result (λ _. FitsCongruent store.old equation.now parts.items) }
    ensures ok { IfOk result (EntersBy store.old store.new equation.now (congruent parts.items)) }
    ensures refused { IsErrOf result Error.BadStep → ¬ FitsCongruent store.old equation.now parts.items }
    ensures full { IsErrOf result Error.OutOfSlots → SidesRunOut (nodes_of store.old) equation.now }
    ensures only { IfErr result IsRefusal }
    ensures err { OnErr result (store.new ≡ store.old) }
{
    if !is_of_full(store, equation) {
        return Err(Error::BadStep);
    }
    let left = named_node(store, alloc, &equation.l)?;
    let right = named_node(store, alloc, &equation.r)?;
    match child_equations(alloc, &left, &right)? {
        Some(children) => store.prove_congruent(alloc, equation, &children, parts),
        None => Err(Error::BadStep),
    }
}
