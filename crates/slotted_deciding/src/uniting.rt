//! A variant that a graph lacks, added and united by a checked step.
ghost use Rattle.std.specs.Prelude.{◌≡◌, ◌⊎◌, ◌<◌, ◌+◌, length, IfErr, IfOk, IfSome, IsTrue, OnOk};
ghost use Rattle.slotted_slots.specs.Error.{IsOutOfMemory};
ghost use Rattle.slotted_model.specs.ProofList.{equation_of};
ghost use Rattle.slotted_proofs.specs.Equations.{to_applied};
ghost use Rattle.slotted_operations.specs.Explaining.{StandsAt};
ghost use Rattle.slotted_graph.specs.States.{IsGraph};
ghost use Rattle.slotted_operations.specs.ValidIds.{IsValidId, IsValidNode};
ghost use Rattle.slotted_deciding.specs.Equality.{IsDecidedGraph};
ghost use Rattle.slotted_deciding.specs.Settling.{IsExchanged, IsLookedUpAs};
ghost use Rattle.slotted_deciding.specs.Steps.{CanRefuse, LeadsTo};

use crate::is_equal_up_to_symmetries;
use crate::settling::{Missing, Turn, Variant};
use crate::stepping::{checked, explained, step_by};
use slotted_alike::alike::child_equations;
use slotted_data::Analysis;
use slotted_graph::EGraph;
use slotted_languages::Language;
use slotted_proofs::{CongruenceProof, Equation, ProvenEq};
use slotted_slots::{AppliedId, Error};
use std::alloc::Global;

// Returns the proof of the equation of a child: by the symmetry if the child is twisted.
fn part_of<L: Language, N: Analysis<L>>(
    alloc: Global,
    graph: &mut EGraph<L, N>,
    turn: Turn,
    child: usize,
    equation: &Equation,
) -> Result<ProvenEq, Error>
    requires graph { IsGraph graph.old }
    ensures goes { OnOk result (LeadsTo N.codes N.meaning graph.old graph.new) }
    ensures err { IfErr result CanRefuse }
{
    if child != turn.child {
        return explained(graph, &equation.l, &equation.r);
    }
    step_by(alloc, graph, turn.symmetry, !turn.forwards, equation)
}

// Returns the proofs of these equations.
fn parts_of<L: Language, N: Analysis<L>>(
    alloc: Global,
    graph: &mut EGraph<L, N>,
    turn: Turn,
    equations: &[Equation],
) -> Result<Vec<ProvenEq>, Error>
    requires graph { IsGraph graph.old }
    ensures goes { OnOk result (LeadsTo N.codes N.meaning graph.old graph.new) }
    ensures err { IfErr result CanRefuse }
{
    let mut parts = Vec::new(alloc);
    for k in 0..equations.len() {
        parts.push(part_of(alloc, graph, turn, k, &equations[k])?)?;
    }
    Ok(parts)
}

// Proves that the id of the variant equals the id that lacks it, by a congruent step.
fn prove_variant<L: Language, N: Analysis<L>>(
    alloc: Global,
    graph: &mut EGraph<L, N>,
    node: &L,
    turn: Turn,
    equation: &Equation,
) -> Result<ProvenEq, Error>
    requires graph { IsGraph graph.old }
    ensures goes { OnOk result (LeadsTo N.codes N.meaning graph.old graph.new) }
    ensures err { IfErr result CanRefuse }
    ensures stands { IfOk result (λ p. StandsAt graph.new.image p
        (equation_of (to_applied equation.now.l) (to_applied equation.now.r))) }
{
    if !graph.is_full(&equation.l) {
        return Err(Error::BadStep);
    }
    let variant = graph.fresh_node(&equation.l)?;
    let Some(equations) = child_equations(alloc, &variant, node)? else {
        return Err(Error::BadStep);
    };
    let parts = parts_of(alloc, graph, turn, &equations)?;
    checked(graph, &CongruenceProof(parts), equation)
}

// Unites the sides of an equation that stands in the proof list.
fn unite_proved<L: Language, N: Analysis<L>>(
    graph: &mut EGraph<L, N>,
    equation: &Equation,
    proof: ProvenEq,
) -> Result<(), Error>
    requires graph { IsGraph graph.old }
    requires stands { StandsAt graph.old.image proof
        (equation_of (to_applied equation.now.l) (to_applied equation.now.r)) }
    ensures goes { OnOk result (LeadsTo N.codes N.meaning graph.old graph.new) }
    ensures err { IfErr result CanRefuse }
{
    if !graph.is_full(&equation.l) {
        return Err(Error::BadStep);
    }
    if !graph.is_full(&equation.r) {
        return Err(Error::BadStep);
    }
    graph.union_quietly(&equation.l, &equation.r, None)?;
    Ok(())
}

// Adds an e-node that a graph lacks, and unites its id with the id that lacks it. Nothing is asserted.
//
// The equation of the two ids is proved first, by a congruent step over the proof of the symmetry.
fn unite_variant<L: Language, N: Analysis<L>>(
    alloc: Global,
    graph: &mut EGraph<L, N>,
    missing: &Missing<L>,
    node: &L,
    turn: Turn,
) -> Result<(), Error>
    requires graph { IsGraph graph.old }
    ensures goes { OnOk result (LeadsTo N.codes N.meaning graph.old graph.new) }
    ensures err { IfErr result CanRefuse }
{
    if !graph.is_valid_node(node) {
        return Err(Error::BadStep);
    }
    let l = graph.add_syn_quietly(node)?;
    let equation = Equation {
        l,
        r: missing.id.copy(alloc)?,
    };
    let proof = prove_variant(alloc, graph, &missing.node, turn, &equation)?;
    unite_proved(graph, &equation, proof)
}

// Returns whether a graph that lacked an e-node as an id lacks it still.
fn is_still_missing<L: Language, N: Analysis<L>>(
    alloc: Global,
    graph: &EGraph<L, N>,
    id: &AppliedId,
    variant: &L,
) -> Result<bool, Error>
    requires { IsGraph graph.now }
    ensures no { IfOk result (λ y. IsTrue y ⊎ IsLookedUpAs graph.now (to_applied id.now) (L.form variant.now)) }
    ensures yes { IfOk result (λ y. IsTrue y → IsValidId graph.now (to_applied id.now) → IsValidNode graph.now (L.form variant.now)
        → ¬ IsLookedUpAs graph.now (to_applied id.now) (L.form variant.now)) }
    ensures err { IfErr result IsOutOfMemory }
{
    if !graph.is_valid(id) || !graph.is_valid_node(variant) {
        return Ok(true);
    }
    match graph.lookup(variant)? {
        Some(found) => Ok(!is_equal_up_to_symmetries(alloc, graph, &found, id)?),
        None => Ok(true),
    }
}

// Returns the e-node of an id with the child of a variant, if the e-node is looked up as the id and both children are
// equal up to symmetries.
fn exchanged<L: Language, N: Analysis<L>>(
    alloc: Global,
    graph: &EGraph<L, N>,
    missing: &Missing<L>,
    variant: &Variant<L>,
) -> Result<Option<L>, Error>
    requires { IsGraph graph.now }
    ensures ok { IfOk result (λ o. IfSome o (λ n. IsExchanged graph.now (to_applied missing.now.id) (L.form n))) }
    ensures err { IfErr result IsOutOfMemory }
{
    let Missing {
        id,
        node,
        variants: _,
    } = missing;
    let k = variant.turn.child;
    if k >= node.applied_id_count() || k >= variant.node.applied_id_count() {
        return Ok(None);
    }
    let (child, other) = (node.applied_id(k), variant.node.applied_id(k));
    if !graph.is_valid(id)
        || !graph.is_valid_node(node)
        || !graph.is_valid(child)
        || !graph.is_valid(other)
    {
        return Ok(None);
    }
    if is_still_missing(alloc, graph, id, node)?
        || !is_equal_up_to_symmetries(alloc, graph, child, other)?
    {
        return Ok(None);
    }
    let mut exchanged = node.copy(alloc)?;
    exchanged.set_applied_id(k, other.copy(alloc)?);
    Ok(Some(exchanged))
}

// Returns the e-node of a variant that a graph lacks. No decided graph lacks one.
fn lacking<L: Language, N: Analysis<L>>(
    alloc: Global,
    graph: &EGraph<L, N>,
    missing: &Missing<L>,
    variant: &Variant<L>,
) -> Result<L, Error>
    requires { IsGraph graph.now }
    ensures ok { OnOk result (¬ IsDecidedGraph graph.now) }
    ensures err { IfErr result CanRefuse }
{
    let Some(node) = exchanged(alloc, graph, missing, variant)? else {
        return Err(Error::BadStep);
    };
    if !graph.is_valid_node(&node) || !is_still_missing(alloc, graph, &missing.id, &node)? {
        return Err(Error::BadStep);
    }
    Ok(node)
}

// Unites a variant that a graph lacked, if it lacks the variant still and the limit is not met. Returns what is left of
// the limit.
fn unite_within<L: Language, N: Analysis<L>>(
    alloc: Global,
    graph: &mut EGraph<L, N>,
    missing: &Missing<L>,
    variant: &Variant<L>,
    limit: usize,
) -> Result<usize, Error>
    requires graph { IsGraph graph.old }
    ensures left { IfOk result (λ n. (n + 1 ≡ limit) ⊎ ((n ≡ limit) × (graph.new ≡ graph.old)
        × ((limit ≡ 0) ⊎ IsLookedUpAs graph.old (to_applied missing.now.id) (L.form variant.now.node)))) }
    ensures kept { IsDecidedGraph graph.old → OnOk result (graph.new ≡ graph.old) }
    ensures goes { OnOk result (LeadsTo N.codes N.meaning graph.old graph.new) }
    ensures err { IfErr result CanRefuse }
{
    if limit == 0 {
        return Ok(limit);
    }
    if !is_still_missing(alloc, graph, &missing.id, &variant.node)? {
        return Ok(limit);
    }
    let node = lacking(alloc, graph, missing, variant)?;
    unite_variant(alloc, graph, missing, &node, variant.turn)?;
    Ok(limit - 1)
}

// Unites the variants of an id that a graph lacked, but at most `limit`. Returns what is left of the limit.
fn unite_variants<L: Language, N: Analysis<L>>(
    alloc: Global,
    graph: &mut EGraph<L, N>,
    missing: &Missing<L>,
    limit: usize,
) -> Result<usize, Error>
    requires graph { IsGraph graph.old }
    ensures kept { IsDecidedGraph graph.old → OnOk result (graph.new ≡ graph.old) }
    ensures goes { OnOk result (LeadsTo N.codes N.meaning graph.old graph.new) }
    ensures err { IfErr result CanRefuse }
{
    let mut left = limit;
    for i in 0..missing.variants.len() {
        left = unite_within(alloc, graph, missing, &missing.variants[i], left)?;
    }
    Ok(left)
}

/// Adds the variants that a graph lacked, but at most `limit`, and unites the id of each with the id that lacked it.
/// Nothing is asserted. Returns what is left of the limit.
pub fn unite_all<L: Language, N: Analysis<L>>(
    alloc: Global,
    graph: &mut EGraph<L, N>,
    missing: &[Missing<L>],
    limit: usize,
) -> Result<usize, Error>
    requires graph { IsGraph graph.old }
    ensures kept { IsDecidedGraph graph.old → OnOk result (graph.new ≡ graph.old) }
    ensures goes { OnOk result (LeadsTo N.codes N.meaning graph.old graph.new) }
    ensures err { IfErr result CanRefuse }
{
    let mut left = limit;
    for i in 0..missing.len() {
        left = unite_variants(alloc, graph, &missing[i], left)?;
    }
    Ok(left)
}
