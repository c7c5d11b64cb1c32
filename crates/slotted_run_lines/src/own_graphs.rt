//! Terms, ids and patterns that texts make in a graph.
use slotted_graph::EGraph;
use slotted_patterns::Pattern;
use slotted_slots::{AppliedId, Error};
use slotted_small::Small;
use slotted_terms::expr::RecExpr;
use std::alloc::Global;

// Adds a term, if the term is valid. Returns its id.
fn put_term(graph: &mut EGraph<Small>, term: &RecExpr<Small>) -> Result<AppliedId, Error> {
    if graph.is_valid_expr(term) {
        graph.add_syn_expr(term)
    } else {
        Err(Error::NotATerm)
    }
}

/// Adds the term of a text. Returns its id.
pub fn put(graph: &mut EGraph<Small>, text: &str) -> Result<AppliedId, Error> {
    let term = graph.parse_expr(text)?;
    put_term(graph, &term)
}

/// Unites two ids, if they are valid.
pub fn unite(
    graph: &mut EGraph<Small>,
    left: &AppliedId,
    right: &AppliedId,
) -> Result<bool, Error> {
    if graph.is_valid(left) && graph.is_valid(right) {
        graph.union(left, right)
    } else {
        Err(Error::NotATerm)
    }
}

/// Returns whether two ids are equal, if they are valid.
pub fn compare(graph: &EGraph<Small>, left: &AppliedId, right: &AppliedId) -> Result<bool, Error> {
    if graph.is_valid(left) && graph.is_valid(right) {
        graph.eq(left, right)
    } else {
        Err(Error::NotATerm)
    }
}

/// Returns the canonical term of an id, if the id is valid.
pub fn term_text(
    alloc: Global,
    graph: &mut EGraph<Small>,
    id: &AppliedId,
) -> Result<String, Error> {
    if !graph.is_valid(id) {
        return Err(Error::NotATerm);
    }
    let term = graph.get_syn_expr(id)?;
    term.text(alloc, graph.table())
}

/// Returns a sum without summands, as a pattern, which no text writes.
pub fn bare_sum(alloc: Global) -> Pattern<Small> {
    let node = Small::Add(AppliedId::null(alloc), AppliedId::null(alloc));
    Pattern::ENode(node, Vec::new(alloc))
}
