//! Which e-nodes and terms that one graph reads belong to another one.
use crate::graphs::{node_of, parted};
use crate::words::Question;
use slotted_graph::EGraph;
use slotted_languages::Language;
use slotted_slots::Error;
use slotted_terms::expr::RecExpr;
use std::alloc::Global;

// Returns whether the e-node of a text, made in the other graph, is valid in this graph.
fn is_node<L: Language>(
    graph: &EGraph<L>,
    other: &mut EGraph<L>,
    text: &str,
) -> Result<bool, Error> {
    let node = node_of(other, text)?;
    Ok(graph.is_valid_node(&node))
}

// Returns the term of a text, without its children.
fn childless<L: Language>(
    alloc: Global,
    graph: &mut EGraph<L>,
    text: &str,
) -> Result<RecExpr<L>, Error> {
    let (node, _) = graph.parse_expr(text)?.into_parts();
    Ok(RecExpr {
        node,
        children: Vec::new(alloc),
    })
}

// Puts the e-node of a text, without children, under a term.
fn put_child<L: Language>(
    alloc: Global,
    graph: &mut EGraph<L>,
    term: &mut RecExpr<L>,
    text: &str,
) -> Result<(), Error> {
    let child = childless(alloc, graph, text)?;
    term.children.push(child)?;
    Ok(())
}

// Returns the e-node of `T` over the e-node of `U` alone, for the text `T / U`.
fn above<L: Language>(
    alloc: Global,
    graph: &mut EGraph<L>,
    texts: &str,
) -> Result<RecExpr<L>, Error> {
    let (text, child) = parted(texts, " / ");
    let mut term = childless(alloc, graph, text)?;
    put_child(alloc, graph, &mut term, child)?;
    Ok(term)
}

// Returns the term of a text, the e-node of a text without children, or one e-node over another.
fn term_of<L: Language>(
    alloc: Global,
    graph: &mut EGraph<L>,
    word: &str,
    text: &str,
) -> Result<RecExpr<L>, Error> {
    match word {
        "childless" => childless(alloc, graph, text),
        "above" => above(alloc, graph, text),
        _ => graph.parse_expr(text),
    }
}

// Returns whether such a term, made in the other graph, is valid in this graph.
fn is_term<L: Language>(
    alloc: Global,
    graph: &EGraph<L>,
    other: &mut EGraph<L>,
    word: &str,
    text: &str,
) -> Result<bool, Error> {
    let term = term_of(alloc, other, word, text)?;
    Ok(graph.is_valid_expr(&term))
}

/// Returns whether what the other graph reads, an e-node or a term, is valid in this graph.
pub fn is_known<L: Language>(
    alloc: Global,
    graph: &EGraph<L>,
    other: &mut EGraph<L>,
    what: &str,
    question: &Question,
) -> Result<bool, Error> {
    match what {
        "node" => is_node(graph, other, question.left),
        _ => is_term(alloc, graph, other, question.argument, question.left),
    }
}
