//! Checked steps: two ids that are found equal, and two ids that a symmetry makes equal.
ghost use Rattle.std.specs.Prelude.{◌≡◌, ◌⊎◌, IfErr, IfOk, IsTrue, OnOk};
ghost use Rattle.slotted_model.specs.ProofList.{equation_of};
ghost use Rattle.slotted_proofs.specs.Equations.{to_applied};
ghost use Rattle.slotted_operations.specs.Explaining.{StandsAt};
ghost use Rattle.slotted_graph.specs.States.{IsGraph};
ghost use Rattle.slotted_deciding.specs.Steps.{CanRefuse, LeadsTo};

use slotted_data::Analysis;
use slotted_graph::{Check, EGraph};
use slotted_languages::Language;
use slotted_proofs::{Equation, ProvenEq, SymmetryProof, TransitivityProof};
use slotted_slots::{AppliedId, Error, SlotMap};
use std::alloc::Global;

/// Returns the number of an equation that a step proves.
pub(crate) fn checked<L: Language, N: Analysis<L>, S: Check>(
    graph: &mut EGraph<L, N>,
    step: &S,
    equation: &Equation,
) -> Result<ProvenEq, Error>
    requires graph { IsGraph graph.old }
    ensures goes { OnOk result (LeadsTo N.codes N.meaning graph.old graph.new) }
    ensures stands { IfOk result (λ p. StandsAt graph.new.image p
        (equation_of (to_applied equation.now.l) (to_applied equation.now.r))) }
    ensures err { IfErr result CanRefuse }
{
    let proof = step.check(equation, graph)?;
    Ok(proof)
}

/// Returns the proof that two ids are equal that are found equal.
pub(crate) fn explained<L: Language, N: Analysis<L>>(
    graph: &mut EGraph<L, N>,
    a: &AppliedId,
    b: &AppliedId,
) -> Result<ProvenEq, Error>
    requires graph { IsGraph graph.old }
    ensures goes { OnOk result (LeadsTo N.codes N.meaning graph.old graph.new) }
    ensures stands { IfOk result (λ p. StandsAt graph.new.image p (equation_of (to_applied a.now) (to_applied b.now))) }
    ensures err { IfErr result CanRefuse }
{
    if !graph.is_full(a) {
        return Err(Error::BadStep);
    }
    if !graph.is_full(b) {
        return Err(Error::BadStep);
    }
    let proof = graph.explain_ids(a, b)?;
    Ok(proof)
}

// Adds a fresh slot for each name of a map that has none yet.
fn add_fresh<L: Language, N: Analysis<L>>(
    graph: &mut EGraph<L, N>,
    names: &mut SlotMap,
    m: &SlotMap,
) -> Result<(), Error>
    requires graph { IsGraph graph.old }
    ensures goes { OnOk result (LeadsTo N.codes N.meaning graph.old graph.new) }
    ensures err { IfErr result CanRefuse }
{
    for i in 0..m.len() {
        let name = m.value_at(i);
        if !names.contains_key(name) {
            let fresh = graph.fresh_slot()?;
            names.insert(name, fresh)?;
        }
    }
    Ok(())
}

// Returns the map that takes the names of the one found id to those of the other, place by place.
fn renaming(alloc: Global, from: &SlotMap, to: &SlotMap) -> Result<SlotMap, Error>
    ensures err { IfErr result CanRefuse }
{
    if from.len() != to.len() {
        return Err(Error::BadStep);
    }
    let mut names = SlotMap::new(alloc);
    for i in 0..from.len() {
        names.insert(from.value_at(i), to.value_at(i))?;
    }
    Ok(names)
}

// Returns the renaming after which the one id finds what the other finds.
fn names_between<L: Language, N: Analysis<L>>(
    alloc: Global,
    graph: &EGraph<L, N>,
    from: &AppliedId,
    to: &AppliedId,
) -> Result<SlotMap, Error>
    requires graph { IsGraph graph.now }
    ensures err { IfErr result CanRefuse }
{
    if !graph.is_valid(from) || !graph.is_valid(to) {
        return Err(Error::BadStep);
    }
    let from = graph.find_applied_id(from)?;
    let to = graph.find_applied_id(to)?;
    renaming(alloc, &from.m, &to.m)
}

// Returns the renaming after which the left side of an equation finds what an id finds. Each other name of the two
// sides goes to a fresh slot.
fn names_for<L: Language, N: Analysis<L>>(
    alloc: Global,
    graph: &mut EGraph<L, N>,
    sides: &Equation,
    id: &AppliedId,
) -> Result<SlotMap, Error>
    requires graph { IsGraph graph.old }
    ensures goes { OnOk result (LeadsTo N.codes N.meaning graph.old graph.new) }
    ensures err { IfErr result CanRefuse }
{
    let mut names = names_between(alloc, graph, &sides.l, id)?;
    add_fresh(graph, &mut names, &sides.l.m)?;
    add_fresh(graph, &mut names, &sides.r.m)?;
    Ok(names)
}

// Returns the equation with other names.
fn renamed(alloc: Global, sides: &Equation, names: &SlotMap) -> Result<Equation, Error>
    ensures err { IfErr result CanRefuse }
{
    let l = AppliedId {
        id: sides.l.id,
        m: sides.l.m.compose_partial(alloc, names)?,
    };
    let r = AppliedId {
        id: sides.r.id,
        m: sides.r.m.compose_partial(alloc, names)?,
    };
    Ok(Equation { l, r })
}

// Returns the equation by which a symmetry was proved, or this turned round. It is over all slots of its classes, also
// over those that were dropped before the symmetry was met.
fn sides_of<L: Language, N: Analysis<L>>(
    alloc: Global,
    graph: &EGraph<L, N>,
    symmetry: usize,
    forwards: bool,
) -> Result<Equation, Error>
    ensures err { IfErr result CanRefuse }
{
    let Some(symmetry) = graph.symmetries_met().get(symmetry) else {
        return Err(Error::BadStep);
    };
    let proofs = graph.proofs();
    if symmetry.proof.number() >= proofs.len() {
        return Err(Error::BadStep);
    }
    let Equation { l, r } = proofs.equ(symmetry.proof).copy(alloc)?;
    if forwards {
        return Ok(Equation { l, r });
    }
    Ok(Equation { l: r, r: l })
}

// Returns the proof of the equation of a symmetry under other names, or of this turned round.
fn proof_of<L: Language, N: Analysis<L>>(
    graph: &mut EGraph<L, N>,
    symmetry: usize,
    forwards: bool,
    sides: &Equation,
) -> Result<ProvenEq, Error>
    requires graph { IsGraph graph.old }
    ensures goes { OnOk result (LeadsTo N.codes N.meaning graph.old graph.new) }
    ensures err { IfErr result CanRefuse }
{
    let Some(symmetry) = graph.symmetries_met().get(symmetry) else {
        return Err(Error::BadStep);
    };
    let proof = symmetry.proof;
    if forwards {
        return Ok(proof);
    }
    checked(graph, &SymmetryProof(proof), sides)
}

/// Returns the equation of two ids.
pub(crate) fn equation_between(
    alloc: Global,
    l: &AppliedId,
    r: &AppliedId,
) -> Result<Equation, Error>
    ensures left { IfOk result (λ e. e.l ≡ l.now) }
    ensures right { IfOk result (λ e. e.r ≡ r.now) }
    ensures err { IfErr result CanRefuse }
{
    let l = l.copy(alloc)?;
    let r = r.copy(alloc)?;
    Ok(Equation { l, r })
}

// Returns the proof of an equation by three proofs: its left side equals the left side of the middle equation, the
// middle one holds, and its right side equals the right side of the equation.
pub(crate) fn joined<L: Language, N: Analysis<L>>(
    alloc: Global,
    graph: &mut EGraph<L, N>,
    equation: &Equation,
    middle: &Equation,
    proofs: (ProvenEq, ProvenEq, ProvenEq),
) -> Result<ProvenEq, Error>
    requires graph { IsGraph graph.old }
    ensures goes { OnOk result (LeadsTo N.codes N.meaning graph.old graph.new) }
    ensures stands { IfOk result (λ p. StandsAt graph.new.image p
        (equation_of (to_applied equation.now.l) (to_applied equation.now.r))) }
    ensures err { IfErr result CanRefuse }
{
    let half = equation_between(alloc, &equation.l, &middle.r)?;
    let first = checked(graph, &TransitivityProof(proofs.0, proofs.1), &half)?;
    checked(graph, &TransitivityProof(first, proofs.2), equation)
}

// Returns the proof of an equation by the proof of another one, whose sides find what its sides find.
pub(crate) fn by_middle<L: Language, N: Analysis<L>>(
    alloc: Global,
    graph: &mut EGraph<L, N>,
    equation: &Equation,
    middle: &Equation,
    proof: ProvenEq,
) -> Result<ProvenEq, Error>
    requires graph { IsGraph graph.old }
    ensures goes { OnOk result (LeadsTo N.codes N.meaning graph.old graph.new) }
    ensures stands { IfOk result (λ p. StandsAt graph.new.image p
        (equation_of (to_applied equation.now.l) (to_applied equation.now.r))) }
    ensures err { IfErr result CanRefuse }
{
    let there = explained(graph, &equation.l, &middle.l)?;
    let back = explained(graph, &middle.r, &equation.r)?;
    joined(alloc, graph, equation, middle, (there, proof, back))
}

// Returns the equation by which a symmetry was proved, or this turned round, under names by which its left side finds
// what an id finds.
fn sides_at<L: Language, N: Analysis<L>>(
    alloc: Global,
    graph: &mut EGraph<L, N>,
    symmetry: usize,
    forwards: bool,
    id: &AppliedId,
) -> Result<Equation, Error>
    requires graph { IsGraph graph.old }
    ensures goes { OnOk result (LeadsTo N.codes N.meaning graph.old graph.new) }
    ensures err { IfErr result CanRefuse }
{
    let sides = sides_of(alloc, graph, symmetry, forwards)?;
    let names = names_for(alloc, graph, &sides, id)?;
    renamed(alloc, &sides, &names)
}

/// Returns the proof of an equation by a symmetry: the sides of the equation find what those of the symmetry find, under
/// one renaming.
pub(crate) fn step_by<L: Language, N: Analysis<L>>(
    alloc: Global,
    graph: &mut EGraph<L, N>,
    symmetry: usize,
    forwards: bool,
    equation: &Equation,
) -> Result<ProvenEq, Error>
    requires graph { IsGraph graph.old }
    ensures goes { OnOk result (LeadsTo N.codes N.meaning graph.old graph.new) }
    ensures stands { IfOk result (λ p. StandsAt graph.new.image p
        (equation_of (to_applied equation.now.l) (to_applied equation.now.r))) }
    ensures err { IfErr result CanRefuse }
{
    let middle = sides_at(alloc, graph, symmetry, forwards, &equation.l)?;
    let proof = proof_of(graph, symmetry, forwards, &middle)?;
    by_middle(alloc, graph, equation, &middle, proof)
}
