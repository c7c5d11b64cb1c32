//! Proof steps that tests ask for, by their names.
use crate::graphs::{parted, yes};
use crate::ids::unite_because;
use slotted_graph::{Check, EGraph};
use slotted_languages::Language;
use slotted_proofs::{
    CongruenceProof, Equation, ProvenEq, ReflexivityProof, SymmetryProof, TransitivityProof,
};
use slotted_slots::Error;
use slotted_terms::expr::RecExpr;
use std::alloc::Global;

// Asserts an equation, and returns the number of the last asserted entry.
fn asserted<L: Language>(
    alloc: Global,
    graph: &mut EGraph<L>,
    text: &str,
    equation: &Equation,
) -> Result<ProvenEq, Error> {
    unite_because(alloc, graph, equation, text)?;
    match graph.asserted().last() {
        Some(p) => Ok(*p),
        None => Err(Error::NotATerm),
    }
}

// Returns the parts that digits name. A digit is the place of an earlier answer.
fn parts_of(alloc: Global, known: &[ProvenEq], digits: &str) -> Result<Vec<ProvenEq>, Error> {
    let mut parts = Vec::new(alloc);
    for digit in digits.bytes() {
        if let Some(p) = known.get(usize::from(digit.wrapping_sub(b'0'))) {
            parts.push(*p)?;
        }
    }
    Ok(parts)
}

// Checks the congruent step over the parts that digits name, for an equation.
fn congruent<L: Language>(
    alloc: Global,
    graph: &mut EGraph<L>,
    known: &[ProvenEq],
    digits: &str,
    equation: &Equation,
) -> Result<ProvenEq, Error> {
    let parts = parts_of(alloc, known, digits)?;
    CongruenceProof(parts).check(equation, graph)
}

/// Returns the part that a digit names.
pub fn part(known: &[ProvenEq], digit: Option<&u8>) -> Result<ProvenEq, Error> {
    match digit {
        Some(digit) => match known.get(usize::from(digit.wrapping_sub(b'0'))) {
            Some(p) => Ok(*p),
            None => Err(Error::NotEqual),
        },
        None => Err(Error::NotEqual),
    }
}

// Checks the step of this name, over the parts that digits name, for an equation.
fn step_over<L: Language>(
    alloc: Global,
    graph: &mut EGraph<L>,
    known: &[ProvenEq],
    step: &str,
    equation: &Equation,
) -> Result<ProvenEq, Error> {
    let (name, digits) = parted(step, " ");
    match name {
        "reflexive" => ReflexivityProof.check(equation, graph),
        "symmetric" => SymmetryProof(part(known, digits.as_bytes().first())?).check(
            equation, graph,
        ),
        "transitive" => {
            let p = part(known, digits.as_bytes().first())?;
            let q = part(known, digits.as_bytes().last())?;
            TransitivityProof(p, q).check(equation, graph)
        }
        "congruent" => congruent(alloc, graph, known, digits, equation),
        _ => asserted(alloc, graph, digits, equation),
    }
}

/// Checks a step, and keeps the number of its entry if the step is accepted. A refusal has to leave the graph with as
/// many entries as before.
pub fn answer<L: Language>(
    alloc: Global,
    graph: &mut EGraph<L>,
    known: &mut Vec<ProvenEq>,
    step: &str,
    equation: &Equation,
) -> Result<&'static str, Error> {
    let before = graph.proof_count();
    match step_over(alloc, graph, known, step, equation) {
        Ok(p) => {
            known.push(p)?;
            Ok("accepted")
        }
        Err(_) if graph.is_failed() || graph.proof_count() != before => Ok("changed"),
        Err(e) => Err(e),
    }
}

// Explains why two terms are equal, if both are valid.
fn explanation<L: Language>(
    graph: &mut EGraph<L>,
    left: &RecExpr<L>,
    right: &RecExpr<L>,
) -> Result<ProvenEq, Error> {
    if graph.is_valid_expr(left) {
        if graph.is_valid_expr(right) {
            return graph.explain_equivalence(left, right);
        }
    }
    Err(Error::NotATerm)
}

/// Explains why the terms of two texts are equal, and keeps the number of the entry.
pub fn explained<L: Language>(
    graph: &mut EGraph<L>,
    known: &mut Vec<ProvenEq>,
    left: &str,
    right: &str,
) -> Result<&'static str, Error> {
    let left = graph.parse_expr(left)?;
    let right = graph.parse_expr(right)?;
    let p = explanation(graph, &left, &right)?;
    known.push(p)?;
    Ok("explained")
}

/// Returns whether the number that a digit names is the last one, the next one, the third or a later one, or a valid
/// one.
pub fn numbered<L: Language>(
    graph: &EGraph<L>,
    known: &[ProvenEq],
    ask: &str,
) -> Result<&'static str, Error> {
    let (digit, word) = parted(ask, " ");
    let p = part(known, digit.as_bytes().first())?;
    match word {
        "last" => Ok(yes(graph.proof_count().checked_sub(1) == Some(p.number()))),
        "next" => Ok(yes(graph.proof_count() == p.number())),
        "third" => Ok(yes(p.number() >= 2 && graph.is_valid_proof(p))),
        _ => Ok(yes(graph.is_valid_proof(p))),
    }
}
