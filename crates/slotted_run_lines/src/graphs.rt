//! Writes to a graph, and questions to it.
use slotted_costs::AstSize;
use slotted_data::Analysis;
use slotted_graph::EGraph;
use slotted_slots::{AppliedId, Error};
use slotted_small::Small;
use std::alloc::Global;

/// Returns the texts before and behind a sign. Without the sign the second one is empty.
pub fn parted<'a>(text: &'a str, sign: &str) -> (&'a str, &'a str) {
    text.split_once(sign).unwrap_or((text, ""))
}

/// Adds the term of a text. Returns its id.
pub fn put<N: Analysis<Small>>(
    graph: &mut EGraph<Small, N>,
    text: &str,
) -> Result<AppliedId, Error> {
    let term = graph.parse_expr(text)?;
    graph.add_expr(&term)
}

// Unites two ids, if they are valid.
fn join<N: Analysis<Small>>(
    graph: &mut EGraph<Small, N>,
    word: &str,
    l: &AppliedId,
    r: &AppliedId,
) -> Result<bool, Error> {
    if !graph.is_valid(l) || !graph.is_valid(r) {
        return Err(Error::NotATerm);
    }
    match word {
        "quietly" => graph.union_quietly(l, r, None),
        "union" => graph.union(l, r),
        _ => graph.eq(l, r),
    }
}

/// Unites two terms, with rounds or without any, or returns whether they are equal.
pub fn joined<N: Analysis<Small>>(
    graph: &mut EGraph<Small, N>,
    word: &str,
    text: &str,
) -> Result<bool, Error> {
    let (left, right) = parted(text, " == ");
    let l = put(graph, left)?;
    let r = put(graph, right)?;
    join(graph, word, &l, &r)
}

/// Explains two terms. Returns that they are equal, or the error by which they are not explained.
pub fn explained<N: Analysis<Small>>(
    graph: &mut EGraph<Small, N>,
    text: &str,
) -> Result<bool, Error> {
    let (left, right) = parted(text, " == ");
    let l = graph.parse_expr(left)?;
    let r = graph.parse_expr(right)?;
    graph.explain_equivalence(&l, &r)?;
    Ok(true)
}

/// Merges a value into the data of a term's class.
pub fn merge<N: Analysis<Small>>(
    graph: &mut EGraph<Small, N>,
    text: &str,
    value: &N::Data,
) -> Result<(), Error> {
    let a = put(graph, text)?;
    if !graph.is_valid_id(a.id) {
        return Err(Error::NotATerm);
    }
    graph.merge_analysis_data(a.id, value)
}

/// Returns the data of a term's class.
pub fn datum<N: Analysis<Small>>(
    alloc: Global,
    graph: &mut EGraph<Small, N>,
    text: &str,
) -> Result<N::Data, Error> {
    let a = put(graph, text)?;
    if !graph.is_valid_id(a.id) {
        return Err(Error::NotATerm);
    }
    graph.analysis().copy(alloc, graph.analysis_data(a.id))
}

// Returns the text of the least term of an id.
fn least_text<N: Analysis<Small>>(
    alloc: Global,
    graph: &mut EGraph<Small, N>,
    a: &AppliedId,
) -> Result<String, Error> {
    let terms = graph.least_terms(&AstSize)?;
    if !graph.is_valid(a) {
        return Err(Error::NotATerm);
    }
    let least = graph.least_term(&terms, a)?;
    least.text(alloc, graph.table())
}

/// Returns the text of the least term of a term's class.
pub fn least<N: Analysis<Small>>(
    alloc: Global,
    graph: &mut EGraph<Small, N>,
    text: &str,
) -> Result<String, Error> {
    let a = put(graph, text)?;
    least_text(alloc, graph, &a)
}

/// Returns whether a number has a class.
pub fn has_number<N: Analysis<Small>>(
    graph: &EGraph<Small, N>,
    number: u32,
) -> Result<bool, Error> {
    let node = Small::Number(number);
    if !graph.is_valid_node(&node) {
        return Err(Error::NotATerm);
    }
    let found = graph.lookup(&node)?;
    Ok(found.is_some())
}
