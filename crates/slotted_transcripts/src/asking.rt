//! Answers to lines about patterns and rules.

use crate::rule_text::read_rule;
use crate::rules::{Rule, add_rule, apply};
use slotted_graph::EGraph;
use slotted_rule_patterns::Subst;
use slotted_rule_patterns::subst::value;
use slotted_rules::pattern_subst;
use slotted_slots::{AppliedId, Error};
use slotted_small::Small;
use std::alloc::Global;

/// Returns whether a line is one about patterns or rules.
pub fn is_asked(line: &str) -> bool {
    line == "counts"
        || line == "apply"
        || read_rule(line).is_some()
        || line.starts_with("matches ")
        || line.starts_with("match ")
        || line.starts_with("subst ")
}

// Returns the canonical term of an id.
fn term_text(alloc: Global, graph: &mut EGraph<Small>, id: &AppliedId) -> Result<String, Error> {
    if !graph.is_valid(id) {
        return Err(Error::Failed);
    }
    let term = graph.get_syn_expr(id)?;
    term.text(alloc, graph.table())
}

// Returns how many matches a pattern has.
fn matches(alloc: Global, graph: &mut EGraph<Small>, text: &str) -> Result<String, Error> {
    let pattern = graph.parse_pattern(text)?;
    let found = graph.find_matches(&pattern)?;
    let count = found.len();
    Ok(format!(in alloc; "{count}")?)
}

// Returns the term of a variable in a match.
fn match_term(alloc: Global, graph: &mut EGraph<Small>, text: &str) -> Result<String, Error> {
    let (place, pattern) = text.split_once(": ").unwrap_or((text, ""));
    let (number, variable) = place.split_once(" ").unwrap_or((place, ""));
    let pattern = graph.parse_pattern(pattern)?;
    let found = graph.find_matches(&pattern)?;
    let answer = number.parse::<usize>().unwrap_or(0);
    if answer >= found.len() {
        return Ok(String::from_str(alloc, "none")?);
    }
    let subst = found.substitution(alloc, answer)?;
    match value(&subst, variable) {
        Some(id) => term_text(alloc, graph, id),
        None => Ok(String::from_str(alloc, "none")?),
    }
}

// Returns the canonical term of an instance of a pattern without variables.
fn instance(alloc: Global, graph: &mut EGraph<Small>, text: &str) -> Result<String, Error> {
    let pattern = graph.parse_pattern(text)?;
    let subst = Subst::new(alloc);
    let id = pattern_subst(alloc, graph, &pattern, &subst)?;
    term_text(alloc, graph, &id)
}

// Returns how many live classes, filed e-nodes and asserted equations there are.
fn counts(alloc: Global, graph: &EGraph<Small>) -> Result<String, Error> {
    let live = graph.ids()?.len();
    let nodes = graph.total_number_of_nodes();
    let asserted = graph.asserted().len();
    Ok(format!(in alloc; "{live} {nodes} {asserted}")?)
}

// Returns the answer to a line about patterns.
fn ask_of_patterns(alloc: Global, graph: &mut EGraph<Small>, line: &str) -> Result<String, Error> {
    if line == "counts" {
        return counts(alloc, graph);
    }
    if let Some(text) = line.strip_prefix("matches ") {
        return matches(alloc, graph, text);
    }
    match line.strip_prefix("match ") {
        Some(text) => match_term(alloc, graph, text),
        None => instance(alloc, graph, line.strip_prefix("subst ").unwrap_or(line)),
    }
}

/// Returns the answer to a line about patterns or rules, over a graph and the rules of its session.
pub fn answer(
    alloc: Global,
    graph: &mut EGraph<Small>,
    rules: &mut Vec<Rule>,
    line: &str,
) -> Result<String, Error> {
    if line == "apply" {
        return apply(alloc, graph, rules);
    }
    match read_rule(line) {
        Some(text) => add_rule(alloc, graph, rules, &text),
        None => ask_of_patterns(alloc, graph, line),
    }
}
