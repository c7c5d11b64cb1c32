//! The congruence of two classes whose canonical e-nodes have one shape, as an entry of the proof list.
ghost use Rattle.std.specs.Prelude.{All, IfOk, IfErr, IsErrOf};
ghost use Rattle.slotted_slots.specs.Error.{IsShortage};
ghost use Rattle.slotted_classes.specs.Kept.{nodes_of};
ghost use Rattle.slotted_classes.specs.Stored.{Stored};
ghost use Rattle.slotted_rebuilding.specs.Congruence.{IsOfAlike, AreTwins, AreChildrenOf, HasLargeBridge, ProvesEach, ProvesTwins, TwinsRunOut};
ghost use Rattle.slotted_rebuilding.specs.Named.{HasWideSide};

use crate::named::named_node;
use crate::unions::proving::bridge;
use slotted_alike::alike::child_equations;
use slotted_classes::Store;
use slotted_languages::Language;
use slotted_proofs::{Equation, ProvenEq};
use slotted_slots::Error;
use std::alloc::Global;

/// Returns the proofs of equations of full ids that are found equal, one for each equation.
pub fn bridges<L: Language>(
    store: &mut Store<L>,
    alloc: Global,
    equations: &[Equation],
) -> Result<Vec<ProvenEq>, Error>
    requires good { Stored store.old }
    requires alike { All (IsOfAlike store.old) equations.now }
    ensures ok { IfOk result (λ v. ProvesEach store.old store.new equations.now v.items) }
    ensures full { IsErrOf result Error.OutOfSlots → HasLargeBridge store.old equations.now }
    ensures err { IfErr result IsShortage }
{
    let mut parts = Vec::new(alloc);
    for equation in equations {
        let part = bridge(store, alloc, &equation.l, &equation.r)?;
        parts.push(part)?;
    }
    Ok(parts)
}

// Returns the equations of the children of the two syntactic e-nodes, with the names of the sides put in.
fn alike_children<L: Language>(
    store: &Store<L>,
    alloc: Global,
    equation: &Equation,
) -> Result<Vec<Equation>, Error>
    requires good { Stored store.now }
    requires twins { AreTwins store.now equation.now }
    ensures ok { IfOk result (λ v. AreChildrenOf store.now equation.now v.items) }
    ensures full { IsErrOf result Error.OutOfSlots → HasWideSide (nodes_of store.now) equation.now }
    ensures err { IfErr result IsShortage }
{
    let left = named_node(store, alloc, &equation.l)?;
    let right = named_node(store, alloc, &equation.r)?;
    match child_equations(alloc, &left, &right)? {
        Some(children) => Ok(children),
        None => unreachable!(),
    }
}

/// Returns the proof that two classes are equal, since their canonical e-nodes have one shape.
///
/// The proof is a step of congruence over the bridges of their children. The equation says which names the two have
/// in common.
pub fn congruence<L: Language>(
    store: &mut Store<L>,
    alloc: Global,
    equation: &Equation,
) -> Result<ProvenEq, Error>
    requires good { Stored store.old }
    requires twins { AreTwins store.old equation.now }
    ensures ok { IfOk result (ProvesTwins store.old store.new equation.now) }
    ensures full { IsErrOf result Error.OutOfSlots → TwinsRunOut store.old equation.now }
    ensures err { IfErr result IsShortage }
{
    let children = alike_children(store, alloc, equation)?;
    let parts = bridges(store, alloc, &children)?;
    store.prove_congruent(alloc, equation, &children, parts)
}
