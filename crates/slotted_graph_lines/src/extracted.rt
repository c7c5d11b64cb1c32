//! Questions to an extractor by words.
use slotted_costs::CostFunction;
use slotted_explain::EGraph;
use slotted_extract::{Extractor, ast_size_extract, extract};
use slotted_languages::Language;
use slotted_questions::graphs::{parted, put};
use slotted_slots::{AppliedId, Error, SlotTable};
use slotted_terms::expr::RecExpr;
use slotted_terms::expr::printing::Printable;
use slotted_terms::flat::flatten;
use std::alloc::Global;

/// Unites two ids, if they are valid.
pub fn unite<L: Language>(
    graph: &mut EGraph<L>,
    l: &AppliedId,
    r: &AppliedId,
) -> Result<bool, Error> {
    if graph.is_valid(l) && graph.is_valid(r) {
        graph.union(l, r)
    } else {
        Err(Error::NotATerm)
    }
}

// Adds both terms of a part, and unites them. The term of a part that has one is added alone.
fn unite_part<L: Language>(graph: &mut EGraph<L>, part: &str) -> Result<bool, Error> {
    let (left, right) = part.split_once(" == ").unwrap_or((part, part));
    let l = put(graph, left)?;
    let r = put(graph, right)?;
    unite(graph, &l, &r)
}

// Adds and unites the terms of each part.
fn unite_each<L: Language>(graph: &mut EGraph<L>, parts: &str) -> Result<(), Error> {
    for part in parts.split_terminator("; ") {
        unite_part(graph, part)?;
    }
    Ok(())
}

// Returns what `find` maps an id to, if the id is valid.
fn found<L: Language>(graph: &EGraph<L>, id: &AppliedId) -> Result<AppliedId, Error> {
    if graph.is_valid(id) {
        graph.find_applied_id(id)
    } else {
        Err(Error::NotATerm)
    }
}

// Returns the term that is extracted for an id by a word, if the id is valid.
fn given<L: Language, F: CostFunction<L> + Default>(
    alloc: Global,
    graph: &mut EGraph<L>,
    extractor: &Extractor<L, F>,
    word: &str,
    id: &AppliedId,
) -> Result<RecExpr<L>, Error> {
    if !graph.is_valid(id) {
        return Err(Error::NotATerm);
    }
    match word {
        "by default" => extract::<L, (), F>(alloc, id, graph),
        "by size" => ast_size_extract(alloc, id, graph),
        _ => extractor.extract(id, graph),
    }
}

// Returns the text with `$fk` for the fresh slot that stands first.
fn with_fresh(alloc: Global, text: &str) -> Result<String, Error> {
    let (_, behind) = parted(text, "$f");
    let (name, _) = parted(behind, ")");
    let (name, _) = parted(name, " ");
    let slot = format!(in alloc; "$f{name}")?;
    Ok(text.replace(alloc, slot.as_str(), "$fk")?)
}

// Returns whether each child id inside an e-node is null.
fn has_null_ids<L: Language>(alloc: Global, node: &L) -> bool {
    let null = AppliedId::null(alloc);
    for k in 0..node.applied_id_count() {
        if *node.applied_id(k) != null {
            return false;
        }
    }
    true
}

// Returns whether all child ids inside the e-nodes of a term are null. No clause of extraction speaks of them.
fn has_only_nulls<L: Language>(alloc: Global, term: &RecExpr<L>) -> Result<bool, Error> {
    for flat in flatten(alloc, term)?.iter() {
        if !has_null_ids(alloc, &flat.node) {
            return Ok(false);
        }
    }
    Ok(true)
}

// Returns the text of a term, with `$fk` for its first fresh slot. A term with a child id inside has none.
fn term_shown<L: Printable>(
    alloc: Global,
    term: &RecExpr<L>,
    table: &SlotTable,
) -> Result<String, Error> {
    if !has_only_nulls(alloc, term)? {
        return Err(Error::NotATerm);
    }
    let text = term.text(alloc, table)?;
    with_fresh(alloc, text.as_str())
}

// Returns the text of the extracted term, as above.
fn given_text<L: Printable, F: CostFunction<L> + Default>(
    alloc: Global,
    graph: &mut EGraph<L>,
    extractor: &Extractor<L, F>,
    word: &str,
    id: &AppliedId,
) -> Result<String, Error> {
    let term = given(alloc, graph, extractor, word, id)?;
    term_shown(alloc, &term, graph.table())
}

// Returns the cost of a term, if the term is valid.
fn term_cost<L: Language, F: CostFunction<L>>(
    alloc: Global,
    graph: &EGraph<L>,
    costs: &F,
    term: &RecExpr<L>,
) -> Result<F::Cost, Error> {
    if graph.is_valid_expr(term) {
        costs.cost_rec(alloc, term)
    } else {
        Err(Error::NotATerm)
    }
}

// Returns the cost of the extracted term.
fn given_cost<L: Language, F: CostFunction<L> + Default>(
    alloc: Global,
    graph: &mut EGraph<L>,
    extractor: &Extractor<L, F>,
    id: &AppliedId,
) -> Result<F::Cost, Error> {
    let term = given(alloc, graph, extractor, "least", id)?;
    term_cost(alloc, graph, &extractor.costs, &term)
}

// Returns the cost of the term of a text.
fn written_cost<L: Language, F: CostFunction<L>>(
    alloc: Global,
    graph: &mut EGraph<L>,
    costs: &F,
    text: &str,
) -> Result<F::Cost, Error> {
    let term = graph.parse_expr(text)?;
    term_cost(alloc, graph, costs, &term)
}

// Returns the cost of the class of what an id is found as.
fn found_cost<L: Language, F: CostFunction<L>>(
    graph: &EGraph<L>,
    extractor: &Extractor<L, F>,
    id: &AppliedId,
) -> Result<F::Cost, Error> {
    let found = found(graph, id)?;
    extractor.get_best_cost(&found)
}

// Returns the cost that is asked of an id by a word.
fn id_cost<L: Language, F: CostFunction<L> + Default>(
    alloc: Global,
    graph: &mut EGraph<L>,
    extractor: &Extractor<L, F>,
    word: &str,
    id: &AppliedId,
) -> Result<F::Cost, Error> {
    match word {
        "own cost" => extractor.get_best_cost(id),
        "found cost" => found_cost(graph, extractor, id),
        _ => given_cost(alloc, graph, extractor, id),
    }
}

// Returns the cost that is asked of a text's term by a word.
fn cost<L: Language, F: CostFunction<L> + Default>(
    alloc: Global,
    graph: &mut EGraph<L>,
    extractor: &Extractor<L, F>,
    word: &str,
    text: &str,
) -> Result<F::Cost, Error> {
    let id = put(graph, text)?;
    match word {
        "written cost" => written_cost(alloc, graph, &extractor.costs, text),
        _ => id_cost(alloc, graph, extractor, word, &id),
    }
}

// Returns a cost in digits.
fn cost_text<L: Language, F: CostFunction<L, Cost = u64> + Default>(
    alloc: Global,
    graph: &mut EGraph<L>,
    extractor: &Extractor<L, F>,
    word: &str,
    text: &str,
) -> Result<String, Error> {
    let cost = cost(alloc, graph, extractor, word, text)?;
    Ok(format!(in alloc; "{cost}")?)
}

// Returns the text of the term that is extracted for the term of a text.
fn term_text<L: Printable, F: CostFunction<L> + Default>(
    alloc: Global,
    graph: &mut EGraph<L>,
    extractor: &Extractor<L, F>,
    word: &str,
    text: &str,
) -> Result<String, Error> {
    let id = put(graph, text)?;
    given_text(alloc, graph, extractor, word, &id)
}

/// Returns an extractor of the graph after unions.
pub fn extractor_after<L: Language, F: CostFunction<L> + Default>(
    alloc: Global,
    graph: &mut EGraph<L>,
    unions: &str,
) -> Result<Extractor<L, F>, Error> {
    unite_each(graph, unions)?;
    Extractor::new(alloc, graph, F::default())
}

/// Returns the answer to a question by a word.
pub fn answer<L: Printable, F: CostFunction<L, Cost = u64> + Default>(
    alloc: Global,
    graph: &mut EGraph<L>,
    extractor: &Extractor<L, F>,
    word: &str,
    text: &str,
) -> Result<String, Error> {
    if word.ends_with("cost") {
        cost_text(alloc, graph, extractor, word, text)
    } else {
        term_text(alloc, graph, extractor, word, text)
    }
}
