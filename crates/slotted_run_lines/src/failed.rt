//! Calls over patterns and rules that a failed graph refuses.
use crate::own_graphs::put;
use crate::own_methods::Asserting;
use crate::own_rules::Union;
use slotted_graph::EGraph;
use slotted_patterns::Pattern;
use slotted_rule_patterns::Subst;
use slotted_rules::{
    CondTree, Rewrite, RewriteT, apply_rewrites, are_valid, lookup_rec_expr, pattern_subst,
    subst_ids, subst_with, union_instantiations,
};
use slotted_slots::{AppliedId, Error};
use slotted_small::Small;
use slotted_terms::expr::RecExpr;
use std::alloc::Global;

// Returns whether a call is refused because the graph has failed.
fn is_refused<T: Drop>(outcome: Result<T, Error>) -> bool {
    matches!(outcome, Err(Error::Failed))
}

// Returns whether a failed graph finds nothing.
fn finds_nothing(graph: &mut EGraph<Small>, pattern: &Pattern<Small>) -> bool {
    graph.is_failed()
        && !graph.is_valid_pattern(pattern)
        && is_refused(graph.find_matches(pattern))
        && is_refused(graph.parse_pattern("a"))
        && graph.is_failed()
}

// Returns whether a failed graph builds and unites nothing.
fn builds_nothing(
    alloc: Global,
    graph: &mut EGraph<Small>,
    pattern: &Pattern<Small>,
    id: &AppliedId,
) -> bool {
    let values = Subst::new(alloc);
    graph.is_failed()
        && is_refused(pattern_subst(alloc, graph, pattern, &values))
        && is_refused(subst_with(alloc, graph, pattern, &values, &mut Asserting))
        && is_refused(union_instantiations(alloc, graph, pattern, pattern, &values, None))
        && is_refused(subst_ids(alloc, graph, id, id, id))
        && graph.is_failed()
}

// Returns whether no rule is valid in a failed graph, searches the graph or is applied to it.
fn applies_nothing<R: RewriteT<Small, ()>>(
    alloc: Global,
    graph: &mut EGraph<Small>,
    rules: &[R; 1],
) -> bool {
    graph.is_failed()
        && !are_valid(graph, rules)
        && is_refused(apply_rewrites(alloc, graph, rules))
        && is_refused(rules[0].search(alloc, graph))
        && graph.is_failed()
}

// Fails the graph. Returns whether what a search found before is not applied.
fn leaves_found<R: RewriteT<Small, ()>>(
    alloc: Global,
    graph: &mut EGraph<Small>,
    rule: &R,
) -> Result<bool, Error> {
    if !rule.is_valid(graph) {
        return Ok(false);
    }
    let found = rule.search(alloc, graph)?;
    graph.fail();
    Ok(is_refused(rule.apply(alloc, found, graph)) && graph.is_failed())
}

// Returns the rule of the pattern `?x` and of that of a text.
fn rule(alloc: Global, graph: &mut EGraph<Small>) -> Result<Rewrite<Small, CondTree>, Error> {
    let left = graph.parse_pattern("?x")?;
    let right = graph.parse_pattern("(app ?x ?x)")?;
    Rewrite::from_patterns(alloc, "rule", left, right, CondTree::Always)
}

// Fails the graph. Returns whether it refuses each call over a pattern, a rule or an id.
fn refuses_patterns(alloc: Global, graph: &mut EGraph<Small>) -> Result<bool, Error> {
    let id = put(graph, "a")?;
    let rules = [rule(alloc, graph)?];
    let holds = leaves_found(alloc, graph, &rules[0])?;
    Ok(
        holds
            && finds_nothing(graph, &rules[0].left)
            && builds_nothing(alloc, graph, &rules[0].right, &id)
            && applies_nothing(alloc, graph, &rules),
    )
}

// Fails the graph. Returns whether it refuses a rule of a caller's own.
fn refuses_own(alloc: Global, graph: &mut EGraph<Small>) -> Result<bool, Error> {
    let left = put(graph, "a")?;
    let right = put(graph, "b")?;
    let rules = [Union { left, right }];
    let holds = leaves_found(alloc, graph, &rules[0])?;
    Ok(holds && applies_nothing(alloc, graph, &rules))
}

// Returns whether a failed graph looks nothing up.
fn looks_nothing_up(alloc: Global, graph: &EGraph<Small>, term: &RecExpr<Small>) -> bool {
    graph.is_failed() && is_refused(lookup_rec_expr(alloc, term, graph))
}

// Fails the graph. Returns whether a term that was read before is not looked up.
fn refuses_term(alloc: Global, graph: &mut EGraph<Small>) -> Result<bool, Error> {
    let term = graph.parse_expr("a")?;
    graph.fail();
    Ok(looks_nothing_up(alloc, graph, &term))
}

/// Fails the graph. Returns whether it refuses each call over what is named.
pub fn refuses(alloc: Global, graph: &mut EGraph<Small>, what: &str) -> Result<bool, Error> {
    match what {
        "patterns" => refuses_patterns(alloc, graph),
        "own rules" => refuses_own(alloc, graph),
        _ => refuses_term(alloc, graph),
    }
}
