//! The steps of the script. Each returns whether its answer is the one for ample memory and slots.
ghost use Rattle.std.specs.Prelude.{◌≡◌, ◌⊎◌, ⊤, IsTrue};
ghost use Rattle.slotted_proofs.specs.Equations.{to_applied};
ghost use Rattle.slotted_graph.specs.ValidIds.{IsValidId};
ghost use Rattle.slotted_terms.specs.Valid.{IsValidTerm};

use slotted_costs::AstSize;
use slotted_explain::Explanation;
use slotted_extract::Extractor;
use slotted_graph::EGraph;
use slotted_languages::Language;
use slotted_proofs::{Equation, ProvenEq};
use slotted_rules::{
    Clock, NoHook, Report, RewriteT, StopReason, apply_rewrites, are_valid, run_eqsat,
};
use slotted_slots::{AppliedId, Error, SlotMap};
use slotted_terms::expr::RecExpr;
use std::alloc::Global;

/// A clock that stands still.
#[derive(Drop)]
struct Still;

impl Clock for Still {
    ghost tells = { λ k time l. ⊤ };

    fn now(&mut self) -> u64 {
        0
    }
}

// Returns whether an id can be handed to calls on the graph. A failed graph takes any id.
fn takes_id<L: Language>(graph: &EGraph<L>, id: &AppliedId) -> bool
    ensures { IsTrue result → IsTrue graph.now.failed ⊎ IsValidId graph.now (to_applied id.now) }
{
    graph.is_failed() || graph.is_valid(id)
}

// Returns whether a term can be handed to calls on the graph. A failed graph takes any term.
fn takes_term<L: Language>(graph: &EGraph<L>, term: &RecExpr<L>) -> bool
    ensures { IsTrue result → IsTrue graph.now.failed ⊎ IsValidTerm graph.now.table term.now }
{
    graph.is_failed() || graph.is_valid_expr(term)
}

/// Uses up the fresh slots up to that of a name.
pub fn name_last<L: Language>(graph: &mut EGraph<L>, name: &str) -> Result<bool, Error> {
    graph.named_slot(name)?;
    Ok(true)
}

/// Adds a term of four e-nodes, each of which gets a class.
pub fn add<L: Language>(
    graph: &mut EGraph<L>,
    term: &RecExpr<L>,
    id: &mut AppliedId,
) -> Result<bool, Error> {
    if !takes_term(graph, term) {
        return Err(Error::NotATerm);
    }
    *id = graph.add_expr(term)?;
    Ok(graph.progress().number_of_live_classes == 4)
}

fn put<L: Language>(graph: &mut EGraph<L>, term: &RecExpr<L>) -> Result<AppliedId, Error> {
    if takes_term(graph, term) {
        graph.add_syn_expr(term)
    } else {
        Err(Error::NotATerm)
    }
}

fn unite_ids<L: Language>(
    graph: &mut EGraph<L>,
    left: &AppliedId,
    right: &AppliedId,
) -> Result<bool, Error> {
    if takes_id(graph, left) && takes_id(graph, right) {
        graph.union(left, right)
    } else {
        Err(Error::NotATerm)
    }
}

/// Unites two terms that were not equal. Two classes become one.
pub fn unite<L: Language>(
    graph: &mut EGraph<L>,
    left: &RecExpr<L>,
    right: &RecExpr<L>,
) -> Result<bool, Error> {
    let left = put(graph, left)?;
    let right = put(graph, right)?;
    let united = unite_ids(graph, &left, &right)?;
    Ok(united && graph.progress().number_of_live_classes == 3)
}

// Returns how many names two maps have at the same places.
fn common_names(left: &SlotMap, right: &SlotMap) -> usize {
    let mut count = 0usize;
    for i in 0..left.len() {
        if i < right.len() && left.value_at(i) == right.value_at(i) {
            count = count.saturating_add(1);
        }
    }
    count
}

// Returns whether an equation has one class on both sides, over two names each, of which one is the same.
fn changes_one_of_two_names(equation: &Equation) -> bool {
    let (left, right) = (&equation.l, &equation.r);
    left.id == right.id
        && left.m.len() == 2
        && right.m.len() == 2
        && common_names(&left.m, &right.m) == 1
}

fn is_of_one_name<L: Language>(graph: &EGraph<L>, p: ProvenEq) -> bool {
    graph.is_valid_proof(p) && changes_one_of_two_names(p.equ(graph))
}

/// Explains why two terms that differ in one of two names are equal.
pub fn explain<L: Language>(
    graph: &mut EGraph<L>,
    left: &RecExpr<L>,
    right: &RecExpr<L>,
) -> Result<bool, Error> {
    if !takes_term(graph, left) || !takes_term(graph, right) {
        return Err(Error::NotATerm);
    }
    let p = graph.explain_equivalence(left, right)?;
    Ok(is_of_one_name(graph, p))
}

/// Lists the e-nodes of an id: one like that of the term that was added.
pub fn list_nodes<L: Language>(
    graph: &mut EGraph<L>,
    id: &AppliedId,
    term: &RecExpr<L>,
) -> Result<bool, Error> {
    if !takes_id(graph, id) {
        return Err(Error::NotATerm);
    }
    let nodes = graph.enodes_applied(id)?;
    match nodes.first() {
        Some(node) => Ok(nodes.len() == 1 && node.operator() == term.node.operator()),
        None => Ok(false),
    }
}

/// Returns the canonical term of an id: the term that was added.
pub fn give_term<L: Language>(
    alloc: Global,
    graph: &mut EGraph<L>,
    id: &AppliedId,
    term: &RecExpr<L>,
) -> Result<bool, Error> {
    if !takes_id(graph, id) {
        return Err(Error::NotATerm);
    }
    let given = graph.get_syn_expr(id)?;
    given.alpha_eq(alloc, term)
}

/// Makes an extractor by which the cost of the term is the number of its e-nodes.
pub fn count_costs<L: Language>(
    alloc: Global,
    graph: &mut EGraph<L>,
    id: &AppliedId,
) -> Result<bool, Error> {
    let extractor: Extractor<L, AstSize> = Extractor::new(alloc, graph, AstSize)?;
    let cost = extractor.get_best_cost(id)?;
    Ok(cost == 4)
}

/// Applies rules that change nothing.
pub fn apply<L: Language, R: RewriteT<L, ()>>(
    alloc: Global,
    graph: &mut EGraph<L>,
    rules: &[R],
) -> Result<bool, Error> {
    if !graph.is_failed() && !are_valid(graph, rules) {
        return Err(Error::NotATerm);
    }
    let changed = apply_rewrites(alloc, graph, rules)?;
    Ok(!changed)
}

// Returns whether no turn was counted, and the graph has four e-nodes in three classes.
fn is_saturated_at_once(report: &Report) -> bool {
    matches!(report.stop_reason, StopReason::Saturated)
        && report.iterations == 0
        && report.egraph_nodes == 4
        && report.egraph_classes == 3
        && report.total_time == 0
}

/// Runs rules that change nothing.
pub fn run<L: Language, R: RewriteT<L, ()>>(
    alloc: Global,
    graph: &mut EGraph<L>,
    rules: &[R],
) -> Result<bool, Error> {
    if !graph.is_failed() && !are_valid(graph, rules) {
        return Err(Error::NotATerm);
    }
    let report = run_eqsat(alloc, graph, rules, 2, 60, &mut NoHook, &mut Still)?;
    Ok(is_saturated_at_once(&report))
}
