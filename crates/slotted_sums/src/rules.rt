//! The rules of sums.
use anyhow::Result;
use slotted_const_fold::ConstFold;
use slotted_graph::EGraph;
use slotted_rule_texts::RuleText;
use slotted_rules::{CondTree, Rewrite, UnlessEqual, slot_free_in, sparing};
use slotted_slots::Error;
use slotted_small::Small;
use std::alloc::Global;

/// A graph in which a class that comes to a number equals that number.
pub type SumGraph = EGraph<Small, ConstFold>;

/// A rule, which may ask that some slot does not occur, and passes over what is found equal already.
pub type Rule = Rewrite<Small, UnlessEqual<Small, CondTree>>;

// `(app (app sum n) (lam $k b))` is the sum of b for k from 1 to n. Over bound names the two orders of a product differ by
// a symmetry, which matching does not use. So a rule on products stands here for both.
const RULES: [&str; 14] = [
    "linear: (app (app sum ?n) (lam $k (add ?a ?b))) => (add (app (app sum ?n) (lam $k ?a)) (app (app sum ?n) (lam $k ?b)))",
    "pull_left: (app (app sum ?n) (lam $k (mul ?c ?b))) => (mul ?c (app (app sum ?n) (lam $k ?b))) if $k not in ?c",
    "pull_right: (app (app sum ?n) (lam $k (mul ?b ?c))) => (mul ?c (app (app sum ?n) (lam $k ?b))) if $k not in ?c",
    "swap: (app (app sum ?n) (lam $k (app (app sum ?m) (lam $l ?b)))) => (app (app sum ?m) (lam $l (app (app sum ?n) (lam $k ?b)))) if $k not in ?m",
    "constant: (app (app sum ?n) (lam $k ?c)) => (mul ?n ?c) if $k not in ?c",
    "triangle: (app (app sum ?n) (lam $k (var $k))) => (app triangle ?n)",
    "distribute_left: (mul ?a (add ?b ?c)) => (add (mul ?a ?b) (mul ?a ?c))",
    "distribute_right: (mul (add ?b ?c) ?a) => (add (mul ?b ?a) (mul ?c ?a))",
    "gather_left: (add (mul ?a ?b) (mul ?a ?c)) => (mul ?a (add ?b ?c))",
    "gather_right: (add (mul ?b ?a) (mul ?c ?a)) => (mul (add ?b ?c) ?a)",
    "commute_add: (add ?a ?b) => (add ?b ?a)",
    "commute_mul: (mul ?a ?b) => (mul ?b ?a)",
    "add_zero: (add ?a 0) => ?a",
    "mul_one: (mul ?a 1) => ?a",
];

// Returns the condition of a rule's text.
fn condition(alloc: Global, graph: &mut SumGraph, rule: &RuleText) -> Result<CondTree, Error> {
    let Some(asked) = rule.conditions.first() else {
        return Ok(CondTree::Always);
    };
    let slot = graph.named_slot(asked.slot)?;
    let lacks = slot_free_in(alloc, slot, asked.variable)?;
    Ok(CondTree::SlotFreeIn(lacks))
}

// Returns the rule of a text.
fn read_rule(alloc: Global, graph: &mut SumGraph, rule: &RuleText) -> Result<Rule, Error> {
    let condition = condition(alloc, graph, rule)?;
    let searched = graph.parse_pattern(rule.left)?;
    let made = graph.parse_pattern(rule.right)?;
    let rule = Rewrite::from_patterns(alloc, rule.name, searched, made, condition)?;
    sparing(alloc, rule)
}

/// Returns the rules, over the graph's table.
pub fn sum_rules(alloc: Global, graph: &mut SumGraph) -> Result<Vec<Rule>> {
    let mut rules = Vec::new(alloc);
    for text in &RULES {
        let text = RuleText::read(alloc, text)?;
        rules.push(read_rule(alloc, graph, &text)?)?;
    }
    Ok(rules)
}
