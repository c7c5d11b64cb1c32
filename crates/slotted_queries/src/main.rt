//! The program `slotted_queries`: a planner of queries. A query a line in, a cheapest equal one out.
#![tactic(auto)]

mod condition;
mod cost;
pub mod planner;
mod rules;
mod still;

use anyhow::{Result, ensure};
use cost::RowCost;
use planner::{Effort, Plan, Planner, find_plan};
use rules::query_rules;
use slotted_messages::Message;
use slotted_rules::{Runner, StopReason, are_valid};
use slotted_slots::SlotTable;
use slotted_symbols::SymbolLang;
use still::StillClock;

const EFFORT: Effort = Effort { equations: 2_000 };

type QueryPlanner = Planner<SymbolLang, (), StillClock>;

// Writes what became of a query.
fn show(rt: &impl Print, planner: &QueryPlanner, plan: &Plan<u64>) -> Result<()> {
    let Plan {
        before,
        after,
        text,
    } = plan;
    let ending = match planner.stop_reason {
        Some(StopReason::Saturated) => "saturated",
        _ => "stopped",
    };
    println!(rt; "  {before} => {after}, {ending}")?;
    println!(rt; "  {text}")?;
    Ok(())
}

// Answers a query, over a graph without classes.
fn answer_query(rt: &HostRuntime, planner: &mut QueryPlanner, line: &str) -> Result<()> {
    let rules = query_rules(rt.alloc(), &mut planner.egraph)?;
    ensure!(
        are_valid(&planner.egraph, &rules),
        "a rule is not one of the graph"
    );
    match find_plan(rt.alloc(), planner, &rules, line, RowCost) {
        Ok(plan) => show(rt, planner, &plan),
        Err(error) => {
            let message = Message::of_text(&error, line);
            println!(rt; "  error: {message}")?;
            Ok(())
        }
    }
}

// Answers a line. An empty one and one that begins with `#` ask nothing.
fn answer_line(rt: &HostRuntime, line: &str) -> Result<()> {
    println!(rt; "{line}")?;
    if line.is_empty() || line.starts_with('#') {
        return Ok(());
    }
    let table = SlotTable::new(rt.alloc());
    let runner = Runner::new(rt.alloc(), table, (), StillClock)?;
    let mut runner = runner.with_hook(EFFORT);
    let answered = answer_query(rt, &mut runner, line);
    let _ = runner.into_table();
    answered
}

fn main(rt: HostRuntime) -> Result<()> {
    for line in rt.lines(rt.alloc()) {
        let line = line?;
        answer_line(&rt, &line)?;
    }
    Ok(())
}
