//! The rules of a session.

use crate::rule_text::{Asked, RuleText};
use slotted_graph::EGraph;
use slotted_rules::{CondTree, Rewrite, apply_rewrites, are_valid, slot_free_in};
use slotted_slots::Error;
use slotted_small::Small;
use std::alloc::Global;

/// A rule of a session. Conditions of all kinds are of one type.
pub type Rule = Rewrite<Small, CondTree>;

// Returns the condition of the text of one.
fn condition(alloc: Global, graph: &mut EGraph<Small>, asked: &Asked) -> Result<CondTree, Error> {
    let slot = graph.named_slot(asked.slot)?;
    let free = CondTree::SlotFreeIn(slot_free_in(alloc, slot, asked.variable)?);
    if asked.is_free {
        return Ok(free);
    }
    Ok(CondTree::Not(Box::new(alloc, free)?))
}

// Returns the rule of the texts. Both sides are read before the condition, and then tested.
fn read(alloc: Global, graph: &mut EGraph<Small>, text: &RuleText) -> Result<Rule, Error> {
    let left = graph.parse_pattern(text.left)?;
    let right = graph.parse_pattern(text.right)?;
    let condition = match &text.condition {
        Some(asked) => condition(alloc, graph, asked)?,
        None => CondTree::Always,
    };
    Rewrite::from_patterns(alloc, text.name, left, right, condition)
}

/// Adds the rule of the texts to those of the session. The memory of the answer is taken first.
pub fn add_rule(
    alloc: Global,
    graph: &mut EGraph<Small>,
    rules: &mut Vec<Rule>,
    text: &RuleText,
) -> Result<String, Error> {
    let told = String::from_str(alloc, "ok")?;
    let rule = read(alloc, graph, text)?;
    rules.push(rule)?;
    Ok(told)
}

/// Applies all rules once, and answers whether the graph changed. The memory of the answer is taken first.
pub fn apply(alloc: Global, graph: &mut EGraph<Small>, rules: &[Rule]) -> Result<String, Error> {
    if !are_valid(graph, rules) {
        return Err(Error::Failed);
    }
    let mut told = String::with_capacity(alloc, 8)?;
    let changed = apply_rewrites(alloc, graph, rules)?;
    told.push_str(if changed { "true" } else { "false" })?;
    Ok(told)
}
