//! The program `slotted_sums`: symbolic sums. A term a line in, a cheapest equal one out.
#![tactic(auto)]

mod cost;
mod rules;
pub mod simplifier;
mod still;

use anyhow::{Result, ensure};
use cost::LoopCost;
use rules::sum_rules;
use simplifier::{Simplified, Simplifier, simplify};
use slotted_const_fold::ConstFold;
use slotted_messages::Message;
use slotted_rules::{Runner, StopReason, are_valid};
use slotted_slots::SlotTable;
use slotted_small::Small;
use still::StillClock;

// A runner in whose graph a class that comes to a number equals that number.
type SumRunner = Simplifier<Small, ConstFold, StillClock>;

const NODE_LIMIT: usize = 2_000;

// Writes what became of a term.
fn show(rt: &impl Print, runner: &SumRunner, simplified: &Simplified<u64>) -> Result<()> {
    let Simplified {
        before,
        after,
        text,
    } = simplified;
    let ending = match runner.stop_reason {
        Some(StopReason::Saturated) => "saturated",
        _ => "stopped",
    };
    println!(rt; "  {before} => {after}, {ending}")?;
    println!(rt; "  {text}")?;
    Ok(())
}

// Answers a term, over a graph of its own.
fn answer_term(rt: &HostRuntime, runner: &mut SumRunner, line: &str) -> Result<()> {
    let rules = sum_rules(rt.alloc(), &mut runner.egraph)?;
    ensure!(
        are_valid(&runner.egraph, &rules),
        "a rule is not one of the graph"
    );
    match simplify(rt.alloc(), runner, &rules, line, LoopCost) {
        Ok(simplified) => show(rt, runner, &simplified),
        Err(error) => {
            let message = Message::of_text(&error, line);
            println!(rt; "  error: {message}")?;
            Ok(())
        }
    }
}

// Answers a line. An empty one and one that begins with `#` ask nothing.
fn answer_line(rt: &HostRuntime, line: &str) -> Result<()> {
    println!(rt; "{line}")?;
    if line.is_empty() || line.starts_with('#') {
        return Ok(());
    }
    let table = SlotTable::new(rt.alloc());
    let runner: SumRunner = Runner::new(rt.alloc(), table, ConstFold, StillClock)?;
    let mut runner = runner.with_node_limit(NODE_LIMIT);
    let answered = answer_term(rt, &mut runner, line);
    let _ = runner.into_table();
    answered
}

fn main(rt: HostRuntime) -> Result<()> {
    for line in rt.lines(rt.alloc()) {
        let line = line?;
        answer_line(&rt, &line)?;
    }
    Ok(())
}
