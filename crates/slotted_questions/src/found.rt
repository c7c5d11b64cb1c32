//! Ids of texts: of terms and e-nodes that are added, and of e-nodes that are looked up.
use crate::graphs::{node_of, put};
use crate::words::Question;
use slotted_graph::EGraph;
use slotted_languages::Language;
use slotted_proofs::Equation;
use slotted_slots::{AppliedId, Error};
use slotted_terms::expr::RecExpr;
use std::alloc::Global;

// Adds a term by look-up, if the term is valid.
fn add_term<L: Language>(graph: &mut EGraph<L>, term: &RecExpr<L>) -> Result<AppliedId, Error> {
    if graph.is_valid_expr(term) {
        graph.add_expr(term)
    } else {
        Err(Error::NotATerm)
    }
}

// Adds the term of a text by look-up.
fn add<L: Language>(graph: &mut EGraph<L>, text: &str) -> Result<AppliedId, Error> {
    let term = graph.parse_expr(text)?;
    add_term(graph, &term)
}

// Adds an e-node by look-up, if the e-node is valid.
fn put_node<L: Language>(graph: &mut EGraph<L>, node: L) -> Result<AppliedId, Error> {
    if graph.is_valid_node(&node) {
        graph.add(node)
    } else {
        Err(Error::NotATerm)
    }
}

// Adds an e-node as a syntactic e-node, if the e-node is valid.
fn put_syn<L: Language>(graph: &mut EGraph<L>, node: L) -> Result<AppliedId, Error> {
    if graph.is_valid_node(&node) {
        graph.add_syn(node)
    } else {
        Err(Error::NotATerm)
    }
}

/// Looks an e-node up, if the e-node is valid.
pub fn look_up<L: Language>(graph: &EGraph<L>, node: &L) -> Result<Option<AppliedId>, Error> {
    if graph.is_valid_node(node) {
        graph.lookup(node)
    } else {
        Err(Error::NotATerm)
    }
}

// Looks an e-node up. Returns the null id if there is none.
fn sought<L: Language>(alloc: Global, graph: &EGraph<L>, node: &L) -> Result<AppliedId, Error> {
    match look_up(graph, node)? {
        Some(id) => Ok(id),
        None => Ok(AppliedId::null(alloc)),
    }
}

// Returns the id of an e-node, by the word for how the id is made.
fn made_of_node<L: Language>(
    alloc: Global,
    graph: &mut EGraph<L>,
    word: &str,
    node: L,
) -> Result<AppliedId, Error> {
    match word {
        "node" => put_node(graph, node),
        "syn" => put_syn(graph, node),
        _ => sought(alloc, graph, &node),
    }
}

// Returns the id of the e-node of a text, by the word for how the id is made.
fn made_of_text<L: Language>(
    alloc: Global,
    graph: &mut EGraph<L>,
    word: &str,
    text: &str,
) -> Result<AppliedId, Error> {
    let node = node_of(graph, text)?;
    made_of_node(alloc, graph, word, node)
}

// Returns the id of a text, by the word for how the id is made.
fn made<L: Language>(
    alloc: Global,
    graph: &mut EGraph<L>,
    word: &str,
    text: &str,
) -> Result<AppliedId, Error> {
    match word {
        "put" => put(graph, text),
        "add" => add(graph, text),
        _ => made_of_text(alloc, graph, word, text),
    }
}

// Replaces an id by the id of a text.
fn make<L: Language>(
    alloc: Global,
    graph: &mut EGraph<L>,
    id: &mut AppliedId,
    word: &str,
    text: &str,
) -> Result<(), Error> {
    *id = made(alloc, graph, word, text)?;
    Ok(())
}

/// Replaces the id of one side by the id of its text.
pub fn make_side<L: Language>(
    alloc: Global,
    graph: &mut EGraph<L>,
    sides: &mut Equation,
    word: &str,
    question: &Question,
) -> Result<(), Error> {
    match word.strip_suffix(" right") {
        Some(word) => make(alloc, graph, &mut sides.r, word, question.right),
        None => make(alloc, graph, &mut sides.l, word, question.left),
    }
}

/// Replaces an id by that of a text's e-node. Returns whether nothing was proved for it.
pub fn stays<L: Language>(
    alloc: Global,
    graph: &mut EGraph<L>,
    id: &mut AppliedId,
    text: &str,
) -> Result<bool, Error> {
    let count = graph.proof_count();
    make(alloc, graph, id, "node", text)?;
    Ok(graph.proof_count() == count)
}
