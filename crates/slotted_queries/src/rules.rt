//! The rules of queries.
use crate::condition::Asked;
use anyhow::Result;
use slotted_graph::EGraph;
use slotted_rule_texts::{RuleText, SlotCondition};
use slotted_rules::{Rewrite, SlotFreeIn, UnlessEqual, slot_free_in, sparing};
use slotted_slots::Error;
use slotted_symbols::SymbolLang;
use std::alloc::Global;

/// A graph of queries.
pub type QueryGraph = EGraph<SymbolLang>;

/// A rule, which may ask that a predicate mentions one side of a join only, and passes over what is found equal already.
pub type Rule = Rewrite<SymbolLang, UnlessEqual<SymbolLang, Asked>>;

// `(join xs ys $r $s p)` has the pairs of rows $r and $s for which p holds, `(filter xs $r p)` the rows for which it does.
// Two conjuncts may differ by a symmetry, which matching does not use. So both orders stand here.
const RULES: [&str; 17] = [
    "filter_join: (filter (join ?x ?y $r $s ?p) $t ?q) => (join ?x ?y $r $s (and ?p ?q[(var $t) := (pair (var $r) (var $s))]))",
    "filter_map: (filter (map ?x $r ?f) $t ?p) => (map (filter ?x $r ?p[(var $t) := ?f]) $r ?f)",
    "filter_filter: (filter (filter ?x $r ?p) $t ?q) => (filter ?x $r (and ?p ?q[(var $t) := (var $r)]))",
    "filter_true: (filter ?x $r true) => ?x",
    "first: (first (pair ?a ?b)) => ?a",
    "second: (second (pair ?a ?b)) => ?b",
    "left: (join ?x ?y $r $s ?p) => (join (filter ?x $r ?p) ?y $r $s true) if $r in ?p and $s not in ?p",
    "left_one: (join ?x ?y $r $s (and ?p ?q)) => (join (filter ?x $r ?p) ?y $r $s ?q) if $r in ?p and $s not in ?p",
    "left_other: (join ?x ?y $r $s (and ?q ?p)) => (join (filter ?x $r ?p) ?y $r $s ?q) if $r in ?p and $s not in ?p",
    "right: (join ?x ?y $r $s ?p) => (join ?x (filter ?y $s ?p) $r $s true) if $s in ?p and $r not in ?p",
    "right_one: (join ?x ?y $r $s (and ?p ?q)) => (join ?x (filter ?y $s ?p) $r $s ?q) if $s in ?p and $r not in ?p",
    "right_other: (join ?x ?y $r $s (and ?q ?p)) => (join ?x (filter ?y $s ?p) $r $s ?q) if $s in ?p and $r not in ?p",
    "commute: (and ?p ?q) => (and ?q ?p)",
    "group: (and (and ?p ?q) ?o) => (and ?p (and ?q ?o))",
    "true_one: (and true ?p) => ?p",
    "true_other: (and ?p true) => ?p",
    "map_map: (map (map ?x $r ?f) $t ?g) => (map ?x $r ?g[(var $t) := ?f])",
];

// Returns the condition that a slot does not occur.
fn lacking(
    alloc: Global,
    graph: &mut QueryGraph,
    asked: &SlotCondition,
) -> Result<SlotFreeIn, Error> {
    let slot = graph.named_slot(asked.slot)?;
    slot_free_in(alloc, slot, asked.variable)
}

// Returns what a rule's text asks of a match.
fn condition(alloc: Global, graph: &mut QueryGraph, rule: &RuleText) -> Result<Asked, Error> {
    let [this, other] = rule.conditions.as_slice() else {
        return Ok(Asked::Nothing);
    };
    let this = lacking(alloc, graph, this)?;
    let other = lacking(alloc, graph, other)?;
    Ok(Asked::MentionsOnly(this, other))
}

// Returns the rule of a text.
fn read_rule(alloc: Global, graph: &mut QueryGraph, rule: &RuleText) -> Result<Rule, Error> {
    let asked = condition(alloc, graph, rule)?;
    let searched = graph.parse_pattern(rule.left)?;
    let made = graph.parse_pattern(rule.right)?;
    let rule = Rewrite::from_patterns(alloc, rule.name, searched, made, asked)?;
    sparing(alloc, rule)
}

/// Returns the rules, over the graph's table.
pub fn query_rules(alloc: Global, graph: &mut QueryGraph) -> Result<Vec<Rule>> {
    let mut rules = Vec::new(alloc);
    for text in &RULES {
        let text = RuleText::read(alloc, text)?;
        rules.push(read_rule(alloc, graph, &text)?)?;
    }
    Ok(rules)
}
