//! Calls that a failed graph refuses: each that answers a `Result`.
use slotted_explain::{Check, EGraph, Explanation};
use slotted_languages::Language;
use slotted_proofs::{
    CongruenceProof, Equation, ProvenEq, ReflexivityProof, SymmetryProof, TransitivityProof,
};
use slotted_slots::{AppliedId, Error};
use slotted_terms::expr::RecExpr;
use slotted_terms::expr::printing::Printable;
use std::alloc::Global;

// Returns whether a call is refused because the graph has failed.
fn is_refused<T: Drop>(outcome: Result<T, Error>) -> bool {
    matches!(outcome, Err(Error::Failed))
}

// Returns whether a failed graph finds nothing, and nothing is valid in it.
fn finds_nothing<L: Language>(graph: &EGraph<L>, term: &RecExpr<L>, id: &AppliedId) -> bool {
    graph.is_failed()
        && is_refused(graph.eq(id, id))
        && is_refused(graph.lookup(&term.node))
        && !graph.is_full(id)
        && !graph.is_valid(id)
        && !graph.is_valid_node(&term.node)
        && !graph.is_valid_expr(term)
}

// Returns whether a failed graph tells nothing of its classes.
fn tells_nothing<L: Language>(graph: &EGraph<L>, id: &AppliedId) -> bool {
    graph.is_failed()
        && is_refused(graph.ids())
        && is_refused(graph.slots(id.id))
        && is_refused(graph.find_applied_id(id))
        && is_refused(graph.mk_identity_applied_id(id.id))
        && is_refused(graph.open_symmetries())
        && !graph.is_valid_id(id.id)
        && !graph.is_alive(id.id)
}

// Returns whether a failed graph makes no slot, and adds no term.
fn takes_nothing<L: Language>(graph: &mut EGraph<L>, term: &RecExpr<L>) -> bool {
    graph.is_failed()
        && is_refused(graph.fresh_slot())
        && is_refused(graph.named_slot("a"))
        && is_refused(graph.parse_expr("a"))
        && is_refused(graph.parse_pattern("a"))
        && is_refused(graph.add_expr(term))
        && is_refused(graph.add_syn_expr(term))
        && graph.is_failed()
}

// Returns whether a failed graph adds no e-node.
fn takes_no_node<L: Language>(
    alloc: Global,
    graph: &mut EGraph<L>,
    node: &L,
) -> Result<bool, Error> {
    if !graph.is_failed() {
        return Ok(false);
    }
    let added = is_refused(graph.add(node.copy(alloc)?));
    Ok(added && is_refused(graph.add_syn(node.copy(alloc)?)) && graph.is_failed())
}

// Returns whether a failed graph returns no syntactic e-node, no term and no e-nodes of an id.
fn gives_nothing<L: Language>(alloc: Global, graph: &mut EGraph<L>, id: &AppliedId) -> bool {
    let mut out = String::new(alloc);
    graph.is_failed()
        && is_refused(graph.get_syn_node(id))
        && is_refused(graph.get_syn_expr(id))
        && is_refused(graph.check())
        && is_refused(graph.enodes(id.id))
        && is_refused(graph.enodes_applied(id))
        && is_refused(graph.dump(&mut out))
        && graph.is_failed()
}

// Returns whether a failed graph unites, proves and explains nothing.
fn proves_nothing<L: Language>(graph: &mut EGraph<L>, term: &RecExpr<L>, sides: &Equation) -> bool {
    graph.is_failed()
        && is_refused(graph.union(&sides.l, &sides.r))
        && is_refused(ReflexivityProof.check(sides, graph))
        && is_refused(graph.union_justified(&sides.l, &sides.r, None))
        && is_refused(graph.explain_equivalence(term, term))
        && graph.is_failed()
}

// Returns an equation of null ids.
fn null_sides(alloc: Global) -> Equation {
    Equation {
        l: AppliedId::null(alloc),
        r: AppliedId::null(alloc),
    }
}

// Returns whether a failed graph takes no step over an entry.
fn takes_no_step<L: Language>(
    alloc: Global,
    graph: &mut EGraph<L>,
    p: ProvenEq,
    sides: &Equation,
) -> bool {
    graph.is_failed()
        && is_refused(SymmetryProof(p).check(sides, graph))
        && is_refused(TransitivityProof(p, p).check(sides, graph))
        && is_refused(CongruenceProof(Vec::new(alloc)).check(sides, graph))
        && graph.is_failed()
}

// Returns whether a failed graph prints no entry.
fn prints_nothing<L: Printable>(alloc: Global, graph: &mut EGraph<L>, p: ProvenEq) -> bool {
    graph.is_failed()
        && is_refused(p.entry(alloc, graph))
        && is_refused(p.to_string(alloc, graph))
        && is_refused(p.to_flat_string(alloc, graph))
        && graph.is_failed()
}

// Returns whether a failed graph refuses each call over the number of its first asserted entry, if there is one.
fn refuses_entries<L: Printable>(alloc: Global, graph: &mut EGraph<L>, sides: &Equation) -> bool {
    match graph.asserted().first().copied() {
        Some(p) => takes_no_step(alloc, graph, p, sides) && prints_nothing(alloc, graph, p),
        None => true,
    }
}

/// Returns whether a failed graph refuses each call over terms, e-nodes, ids or entries.
pub fn refuses_all<L: Printable>(
    alloc: Global,
    graph: &mut EGraph<L>,
    term: &RecExpr<L>,
) -> Result<bool, Error> {
    let sides = null_sides(alloc);
    Ok(
        finds_nothing(graph, term, &sides.l)
            && tells_nothing(graph, &sides.l)
            && takes_nothing(graph, term)
            && gives_nothing(alloc, graph, &sides.l)
            && proves_nothing(graph, term, &sides)
            && takes_no_node(alloc, graph, &term.node)?
            && refuses_entries(alloc, graph, &sides),
    )
}
