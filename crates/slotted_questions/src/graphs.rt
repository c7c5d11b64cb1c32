//! What texts make in a graph.
use slotted_graph::EGraph;
use slotted_languages::Language;
use slotted_slots::{AppliedId, Error, Slot, SlotTable};
use slotted_terms::expr::RecExpr;
use std::alloc::Global;

/// Returns the texts before and behind a sign. Without the sign the second one is empty.
pub fn parted<'a>(text: &'a str, sign: &str) -> (&'a str, &'a str) {
    text.split_once(sign).unwrap_or((text, ""))
}

/// Returns the answer to a test.
pub fn yes(holds: bool) -> &'static str {
    if holds { "yes" } else { "no" }
}

/// Returns the slot of a name, by a table of its own. Unless the name is a number, no graph without names knows the
/// slot.
pub fn slot(alloc: Global, name: &str) -> Result<Slot, Error> {
    SlotTable::new(alloc).named(name)
}

/// Returns a graph without classes, over a table that has read a name.
pub fn empty<L: Language>(alloc: Global, name: &str) -> Result<EGraph<L>, Error> {
    let mut table = SlotTable::new(alloc);
    table.named(name)?;
    EGraph::new(alloc, table, ())
}

/// Adds a term by syntactic e-nodes, if the term is valid, and returns its id.
pub fn put_term<L: Language>(graph: &mut EGraph<L>, term: &RecExpr<L>) -> Result<AppliedId, Error> {
    if graph.is_valid_expr(term) {
        graph.add_syn_expr(term)
    } else {
        Err(Error::NotATerm)
    }
}

/// Adds the term of a text by syntactic e-nodes, and returns its id.
pub fn put<L: Language>(graph: &mut EGraph<L>, text: &str) -> Result<AppliedId, Error> {
    let term = graph.parse_expr(text)?;
    put_term(graph, &term)
}

// Replaces the children of an e-node by the ids of the terms, in their order.
fn put_children<L: Language>(
    graph: &mut EGraph<L>,
    node: &mut L,
    terms: &[RecExpr<L>],
) -> Result<(), Error> {
    for (k, term) in terms.iter().enumerate() {
        let id = put_term(graph, term)?;
        if k < node.applied_id_count() {
            node.set_applied_id(k, id);
        }
    }
    Ok(())
}

/// Returns the e-node at the top of a text's term, over the ids of its children.
pub fn node_of<L: Language>(graph: &mut EGraph<L>, text: &str) -> Result<L, Error> {
    let (mut node, children) = graph.parse_expr(text)?.into_parts();
    put_children(graph, &mut node, &children)?;
    Ok(node)
}
