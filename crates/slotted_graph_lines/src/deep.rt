//! Graphs of many levels.
//!
//! Terms of them are extracted on a stack that grows by memory, so the machine's stack stays as it is. Each is taken
//! apart e-node by e-node here, since dropping a whole term goes down level by level.
use crate::extracted::unite;
use slotted_costs::AstSize;
use slotted_explain::EGraph;
use slotted_extract::Extractor;
use slotted_slots::{AppliedId, Error};
use slotted_small::Small;
use slotted_terms::expr::RecExpr;
use std::alloc::Global;

// Adds an e-node, if that is possible. Returns its id.
fn put(graph: &mut EGraph<Small>, node: Small) -> Result<AppliedId, Error> {
    if graph.is_valid_node(&node) {
        graph.add(node)
    } else {
        Err(Error::NotATerm)
    }
}

// Adds a level over a class. Returns its id.
fn level(alloc: Global, graph: &mut EGraph<Small>, below: &AppliedId) -> Result<AppliedId, Error> {
    let leaf = put(graph, Small::Number(7))?;
    put(graph, Small::App(below.copy(alloc)?, leaf))
}

// Adds so many levels over a class. Returns the id of the last one.
fn levels(
    alloc: Global,
    graph: &mut EGraph<Small>,
    below: &AppliedId,
    count: usize,
) -> Result<AppliedId, Error> {
    let mut top = below.copy(alloc)?;
    for k in 0..count {
        top = level(alloc, graph, &top)?;
    }
    Ok(top)
}

// Returns the term of fewest e-nodes, if the id is valid.
fn given(
    alloc: Global,
    graph: &mut EGraph<Small>,
    id: &AppliedId,
) -> Result<RecExpr<Small>, Error> {
    let extractor: Extractor<Small, AstSize> = Extractor::new(alloc, graph, AstSize)?;
    if graph.is_valid(id) {
        extractor.extract(id, graph)
    } else {
        Err(Error::NotATerm)
    }
}

// Returns how many e-nodes a term has, or `most` if it has more.
fn node_count(alloc: Global, term: RecExpr<Small>, most: usize) -> Result<usize, Error> {
    let mut left = Vec::new(alloc);
    left.push(term)?;
    for k in 0..most {
        let Some(next) = left.pop() else {
            return Ok(k);
        };
        let (_, children) = next.into_parts();
        for child in children {
            left.push(child)?;
        }
    }
    Ok(most)
}

// Returns a class with `count` levels over a first one. If the levels go round, one level more is the first class
// again.
fn class_of_levels(
    alloc: Global,
    graph: &mut EGraph<Small>,
    count: usize,
    round: bool,
) -> Result<AppliedId, Error> {
    let first = put(graph, Small::Number(1))?;
    let last = levels(alloc, graph, &first, count)?;
    let over = level(alloc, graph, &last)?;
    if round {
        unite(graph, &first, &over)?;
    }
    Ok(last)
}

/// Returns how many e-nodes are extracted for a class of so many levels over a first one. The levels may go round.
pub fn count_of_levels(
    alloc: Global,
    graph: &mut EGraph<Small>,
    count: usize,
    round: bool,
) -> Result<usize, Error> {
    let last = class_of_levels(alloc, graph, count, round)?;
    let term = given(alloc, graph, &last)?;
    node_count(alloc, term, count.saturating_mul(3))
}
