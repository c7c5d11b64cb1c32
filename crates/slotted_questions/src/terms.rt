//! Printed terms and patterns.
use slotted_graph::EGraph;
use slotted_languages::Language;
use slotted_patterns::Pattern;
use slotted_slots::{AppliedId, Error, Show, Slot, SlotTable};
use slotted_terms::expr::RecExpr;
use slotted_terms::expr::printing::Printable;
use std::alloc::Global;

// Returns a pattern as it is printed.
fn shown<L: Language>(
    alloc: Global,
    pattern: &Pattern<L>,
    table: &SlotTable,
) -> Result<String, Error> {
    let shown = pattern.show(table);
    Ok(format!(in alloc; "{shown}")?)
}

// Returns the pattern of a text as it is printed, with the graph's names.
fn pattern<L: Language>(alloc: Global, graph: &mut EGraph<L>, text: &str) -> Result<String, Error> {
    let pattern = graph.parse_pattern(text)?;
    shown(alloc, &pattern, graph.table())
}

// Returns a slot as it is printed.
fn slot_text(alloc: Global, slot: Slot, table: &SlotTable) -> Result<String, Error> {
    let shown = slot.show(table);
    Ok(format!(in alloc; "{shown}")?)
}

// Returns the slot of a name as it is printed.
fn slot<L: Language>(alloc: Global, graph: &mut EGraph<L>, name: &str) -> Result<String, Error> {
    let slot = graph.named_slot(name)?;
    slot_text(alloc, slot, graph.table())
}

// Returns the term of a text as it is printed.
fn term<L: Printable>(alloc: Global, graph: &mut EGraph<L>, text: &str) -> Result<String, Error> {
    let term = graph.parse_expr(text)?;
    term.text(alloc, graph.table())
}

/// Returns the canonical term of an id as it is printed, if the id is valid.
pub fn canonical<L: Printable>(
    alloc: Global,
    graph: &mut EGraph<L>,
    a: &AppliedId,
) -> Result<String, Error> {
    if !graph.is_valid(a) {
        return Err(Error::NotATerm);
    }
    let term = graph.get_syn_expr(a)?;
    term.text(alloc, graph.table())
}

// Returns whether each child id inside an e-node is null.
fn has_null_ids<L: Language>(alloc: Global, node: &L) -> bool {
    let null = AppliedId::null(alloc);
    for k in 0..node.applied_id_count() {
        if *node.applied_id(k) != null {
            return false;
        }
    }
    true
}

// Returns whether all child ids inside the e-nodes of a term are null.
fn has_only_nulls<L: Language>(alloc: Global, term: &RecExpr<L>) -> bool {
    for child in term.children.iter() {
        if !has_only_nulls(alloc, child) {
            return false;
        }
    }
    has_null_ids(alloc, &term.node)
}

/// Returns whether all child ids inside the canonical term of an id are null, if the id is valid.
pub fn is_null_inside<L: Language>(
    alloc: Global,
    graph: &mut EGraph<L>,
    a: &AppliedId,
) -> Result<bool, Error> {
    if !graph.is_valid(a) {
        return Err(Error::NotATerm);
    }
    let term = graph.get_syn_expr(a)?;
    Ok(has_only_nulls(alloc, &term))
}

/// Returns the text of the whole graph, with a sign for each line feed.
pub fn dumped<L: Language>(alloc: Global, graph: &mut EGraph<L>) -> Result<String, Error> {
    let mut out = String::new(alloc);
    graph.dump(&mut out)?;
    Ok(out.replace(alloc, "\n", "¶")?)
}

/// Returns what is printed of a text, by a word.
pub fn printed<L: Printable>(
    alloc: Global,
    graph: &mut EGraph<L>,
    word: &str,
    text: &str,
) -> Result<String, Error> {
    match word {
        "pattern" => pattern(alloc, graph, text),
        "slot" => slot(alloc, graph, text),
        _ => term(alloc, graph, text),
    }
}
