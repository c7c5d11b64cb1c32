//! Runs over the terms that a runner was made with, under a rule that `rw!` makes.
use crate::asked::parted;
use crate::doubles::Times;
use slotted_graph::EGraph;
use slotted_rules::{Cond, NoHook, Rewrite, Runner, and, are_valid, not, or, rw, slot_free_in};
use slotted_slots::{AppliedId, Error, Slot, SlotTable};
use slotted_small::Small;
use slotted_terms::expr::RecExpr;
use std::alloc::Global;
use std::collections::VecDeque;

type Rooted = Runner<Small, (), (), String, NoHook, Times>;

// Lets a runner go.
fn let_go(runner: Rooted) {
    let _ = runner.into_table();
}

// Returns a runner over a graph.
fn runner_over(alloc: Global, graph: EGraph<Small>) -> Result<Rooted, Error> {
    let left = VecDeque::new(alloc);
    match Runner::new(alloc, SlotTable::new(alloc), (), Times { left }) {
        Ok(runner) => Ok(runner.with_egraph(graph)),
        Err(e) => {
            let _ = graph.into_table();
            Err(e)
        }
    }
}

// Adds a root to a runner.
fn rooted(runner: Rooted, term: &RecExpr<Small>) -> Result<Rooted, Error> {
    if runner.egraph.is_valid_expr(term) {
        runner.with_expr(term)
    } else {
        let_go(runner);
        Err(Error::Failed)
    }
}

// Returns whether the ids of two terms are equal.
fn are_equal(graph: &EGraph<Small>, left: &AppliedId, right: &AppliedId) -> Result<bool, Error> {
    if graph.is_valid(left) && graph.is_valid(right) {
        graph.eq(left, right)
    } else {
        Err(Error::Failed)
    }
}

// Writes whether the first two roots are equal, and how many roots there are.
fn write_roots(graph: &EGraph<Small>, roots: &[AppliedId], text: &mut String) -> Result<(), Error> {
    let [left, right] = roots else {
        return Err(Error::Failed);
    };
    let equal = are_equal(graph, left, right)?;
    Ok(text.push_str(if equal { "equal" } else { "not equal" })?)
}

// Runs a rule, and writes what became of the roots.
fn write_run<C: Cond<Small, ()>>(
    runner: &mut Rooted,
    rules: &[Rewrite<Small, C>; 1],
    text: &mut String,
) -> Result<(), Error> {
    if !are_valid(&runner.egraph, rules) {
        return Err(Error::Failed);
    }
    runner.run(rules)?;
    write_roots(&runner.egraph, runner.roots.as_slice(), text)
}

// Runs a rule over a graph with two terms.
fn write_over<C: Cond<Small, ()>>(
    alloc: Global,
    table: SlotTable,
    rules: &[Rewrite<Small, C>; 1],
    terms: &[RecExpr<Small>; 2],
    text: &mut String,
) -> Result<(), Error> {
    let graph = EGraph::new(alloc, table, ())?;
    let runner = runner_over(alloc, graph)?;
    let runner = rooted(runner, &terms[0])?;
    let mut runner = rooted(runner, &terms[1])?;
    let written = write_run(&mut runner, rules, text);
    let_go(runner);
    written
}

// Makes the rule of a kind over the slot of its condition, and runs the rule.
fn write_kind(
    alloc: Global,
    mut table: SlotTable,
    kind: &str,
    x: Slot,
    rule_text: &str,
    terms: &[RecExpr<Small>; 2],
    text: &mut String,
) -> Result<(), Error> {
    let (left, right) = parted(rule_text, " => ");
    let free = slot_free_in(alloc, x, "f")?;
    let other = slot_free_in(alloc, x, "f")?;
    match kind {
        "if" => {
            let rules = [rw!(alloc, &mut table; "rule"; left => right, if free)?];
            write_over(alloc, table, &rules, terms, text)
        }
        "unless" => {
            let rules = [rw!(alloc, &mut table; "rule"; left => right, if !free)?];
            write_over(alloc, table, &rules, terms, text)
        }
        "either" => {
            let rules = [rw!(alloc, &mut table; "rule"; left => right, if or(free, not(other)))?];
            write_over(alloc, table, &rules, terms, text)
        }
        "both" => {
            let rules = [rw!(alloc, &mut table; "rule"; left => right, if and(free, not(other)))?];
            write_over(alloc, table, &rules, terms, text)
        }
        _ => {
            let rules = [rw!(alloc, &mut table; "rule"; left => right)?];
            write_over(alloc, table, &rules, terms, text)
        }
    }
}

/// Writes whether the two terms of a line are equal after a run of its rule.
pub fn write_rooted(alloc: Global, words: &str, text: &mut String) -> Result<(), Error> {
    let (words, rule_text) = parted(words, ": ");
    let (kind, words) = parted(words, " ");
    let (left, right) = parted(words, " == ");
    let mut table = SlotTable::new(alloc);
    let x = table.named("x")?;
    let left = RecExpr::parse(alloc, left, &mut table)?;
    let right = RecExpr::parse(alloc, right, &mut table)?;
    write_kind(alloc, table, kind, x, rule_text, &[left, right], text)
}
