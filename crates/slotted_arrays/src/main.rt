//! The program `slotted_arrays`: an optimiser of array programs. A program a line in, a cheapest equal one out, and the
//! chain of terms from the one to the other.
#![tactic(auto)]

pub mod optimiser;
mod rules;

use anyhow::Result;
use optimiser::{Optimised, optimise};
use rules::{keep_rules, walk_weights};
use slotted_messages::Message;
use slotted_symbols::SymbolLang;
use slotted_weights::OperatorWeights;
use slotted_workspace::{Limits, Workspace, WorkspaceError};
use std::alloc::Global;
use std::mem::replace;

// The limits of a run.
const LIMITS: Limits = Limits {
    turns: 20,
    nodes: 2_000,
};

// Writes what became of a program, with the chain of terms below it.
fn show(rt: &impl Print, optimised: &Optimised<u64>) -> Result<()> {
    let before = optimised.before;
    let best = &optimised.derivation.best;
    let after = best.cost;
    let ending = if optimised.ended {
        "saturated"
    } else {
        "stopped"
    };
    println!(rt; "  {before} => {after}, {ending}")?;
    for term in optimised.derivation.chain.lines() {
        println!(rt; "  {term}")?;
    }
    let text = &best.text;
    println!(rt; "  {text}")?;
    Ok(())
}

fn show_error(rt: &impl Print, error: &WorkspaceError, line: &str) -> Result<()> {
    match error {
        WorkspaceError::Graph(error) => {
            let message = Message::of_text(error, line);
            println!(rt; "  error: {message}")?;
        }
        _ => println!(rt; "  error: {error}")?,
    }
    Ok(())
}

// Answers a program, over the rules of the workspace.
fn answer_program(
    rt: &HostRuntime,
    workspace: &mut Workspace<SymbolLang>,
    weights: &OperatorWeights,
    line: &str,
) -> Result<()> {
    keep_rules(workspace)?;
    let weights = weights.copy(rt.alloc())?;
    match optimise(rt.alloc(), workspace, line, weights, LIMITS) {
        Ok(optimised) => show(rt, &optimised),
        Err(error) => show_error(rt, &error, line),
    }
}

// Puts a new workspace in the place of a former one.
fn begin_anew(alloc: Global, workspace: &mut Workspace<SymbolLang>) -> Result<(), WorkspaceError> {
    let former = replace(workspace, Workspace::new(alloc)?);
    let _ = former.into_table();
    Ok(())
}

// Answers a program in a new workspace. An empty line and one that begins with `#` ask nothing.
fn answer_line(
    rt: &HostRuntime,
    workspace: &mut Workspace<SymbolLang>,
    weights: &OperatorWeights,
    line: &str,
) -> Result<()> {
    println!(rt; "{line}")?;
    if line.is_empty() || line.starts_with('#') {
        return Ok(());
    }
    begin_anew(rt.alloc(), workspace)?;
    answer_program(rt, workspace, weights, line)
}

fn answer_lines(
    rt: &HostRuntime,
    workspace: &mut Workspace<SymbolLang>,
    weights: &OperatorWeights,
) -> Result<()> {
    for line in rt.lines(rt.alloc()) {
        let line = line?;
        answer_line(rt, workspace, weights, &line)?;
    }
    Ok(())
}

fn main(rt: HostRuntime) -> Result<()> {
    let weights = walk_weights(rt.alloc())?;
    let mut workspace: Workspace<SymbolLang> = Workspace::new(rt.alloc())?;
    let answered = answer_lines(&rt, &mut workspace, &weights);
    let _ = workspace.into_table();
    answered
}
