//! Counts of a rule in each turn, and a rule that rests.
use slotted_graph::EGraph;
use slotted_rules::{Always, Backoff, Rewrite, TurnCounts, apply_rewrites, are_valid, run_counted};
use slotted_slots::{Error, SlotTable};
use slotted_small::Small;
use std::alloc::Global;

// Adds the term of a text.
fn add(graph: &mut EGraph<Small>, text: &str) -> Result<(), Error> {
    let term = graph.parse_expr(text)?;
    graph.add_expr(&term)?;
    Ok(())
}

// Returns the rule `L => R`.
fn rule(
    alloc: Global,
    graph: &mut EGraph<Small>,
    text: &str,
) -> Result<Rewrite<Small, Always>, Error> {
    let (left, right) = text.split_once(" => ").unwrap_or((text, ""));
    let left = graph.parse_pattern(left)?;
    let right = graph.parse_pattern(right)?;
    Rewrite::from_patterns(alloc, "rule", left, right, Always)
}

// Writes whether a turn changed the graph, and how many matches each rule had and united.
fn write_turn(turn: &TurnCounts, text: &mut String) -> Result<(), Error> {
    text.push_str(if turn.changed { "changed" } else { "unchanged" })?;
    for counts in turn.rules.iter() {
        let (found, united) = (counts.found, counts.united);
        write!(text, " {found} {united}")?;
    }
    Ok(text.push_str("; ")?)
}

// Takes turns with one rule, and writes what each did.
fn write_turns(
    alloc: Global,
    graph: &mut EGraph<Small>,
    rules: &[Rewrite<Small, Always>],
    limit: usize,
    text: &mut String,
) -> Result<(), Error> {
    if !are_valid(graph, rules) {
        return Err(Error::Failed);
    }
    for turn in run_counted(alloc, graph, rules, limit)?.iter() {
        write_turn(turn, text)?;
    }
    Ok(())
}

// Writes the turns of a line, over its graph.
fn write_counted(
    alloc: Global,
    graph: &mut EGraph<Small>,
    words: &str,
    text: &mut String,
) -> Result<(), Error> {
    let (words, rule_text) = words.split_once(": ").unwrap_or((words, ""));
    let (limit, term) = words.split_once(' ').unwrap_or((words, ""));
    add(graph, term)?;
    let rules = [rule(alloc, graph, rule_text)?];
    write_turns(alloc, graph, &rules, limit.parse().unwrap_or(0), text)
}

// Applies a rule once. Writes whether the graph changed, and whether the rule rests.
fn write_applied(
    alloc: Global,
    graph: &mut EGraph<Small>,
    rules: &[Backoff<Small, Always>; 1],
    text: &mut String,
) -> Result<(), Error> {
    if !are_valid(graph, rules) {
        return Err(Error::Failed);
    }
    let changed = apply_rewrites(alloc, graph, rules)?;
    text.push_str(if changed { "changed" } else { "unchanged" })?;
    let resting = rules[0].is_resting();
    Ok(text.push_str(if resting { " resting; " } else { "; " })?)
}

// Applies a rule so many times, and writes what it did.
fn write_each(
    alloc: Global,
    graph: &mut EGraph<Small>,
    rules: &[Backoff<Small, Always>; 1],
    times: usize,
    text: &mut String,
) -> Result<(), Error> {
    for _ in 0..times {
        write_applied(alloc, graph, rules, text)?;
    }
    let count = graph.total_number_of_nodes();
    Ok(write!(text, "{count} e-nodes")?)
}

// Writes what the rule of a line did that rests, over its graph.
fn write_resting(
    alloc: Global,
    graph: &mut EGraph<Small>,
    words: &str,
    text: &mut String,
) -> Result<(), Error> {
    let (words, rule_text) = words.split_once(": ").unwrap_or((words, ""));
    let (times, words) = words.split_once(' ').unwrap_or((words, ""));
    let (most, words) = words.split_once(' ').unwrap_or((words, ""));
    let (rest, term) = words.split_once(' ').unwrap_or((words, ""));
    add(graph, term)?;
    let rule = rule(alloc, graph, rule_text)?;
    let (most, rest) = (most.parse().unwrap_or(0), rest.parse().unwrap_or(0));
    let rules = [Backoff::new(rule, most, rest)];
    write_each(alloc, graph, &rules, times.parse().unwrap_or(0), text)
}

/// Writes what the rule of a line did in each turn, over a new graph.
pub fn write_counts(
    alloc: Global,
    word: &str,
    words: &str,
    text: &mut String,
) -> Result<(), Error> {
    let mut graph: EGraph<Small> = EGraph::new(alloc, SlotTable::new(alloc), ())?;
    let written = if word == "counted" {
        write_counted(alloc, &mut graph, words, text)
    } else {
        write_resting(alloc, &mut graph, words, text)
    };
    let _ = graph.into_table();
    written
}
