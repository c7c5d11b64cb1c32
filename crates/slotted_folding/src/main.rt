//! The program `slotted_folding`: arithmetic terms in, and what they fold to out.
//!
//! Each line is a term of the language of `slotted_small`, and has a graph of its own. The rules of arithmetic run
//! until they change nothing or a limit is passed. Sums and products of numbers become numbers. The answer is a
//! smallest term that equals the line's, and the size of the graph.
//!
//! A line `turns N` sets the limit of turns for the lines behind it. Such a line is written as it stands, and so are an
//! empty line and a line that begins with `#`.
#![tactic(auto)]

mod folding;
mod rules;

use anyhow::Result;
use folding::{Folded, fold};
use slotted_rules::MachineClock;

// The limit of turns before a line sets one.
const USUAL_TURNS: usize = 30;

fn show(rt: &HostRuntime, folded: &Folded) -> Result<()> {
    let Folded {
        term,
        classes,
        nodes,
        is_saturated,
    } = folded;
    let ending = if *is_saturated {
        "saturated"
    } else {
        "stopped"
    };
    println!(rt; "{term}: {classes} classes, {nodes} e-nodes, {ending}")?;
    Ok(())
}

// Answers a line that is a term.
fn answer_term(rt: &HostRuntime, turn_limit: usize, line: &str) -> Result<()> {
    let clock = MachineClock::new(rt)?;
    match fold(rt.alloc(), clock, line, turn_limit) {
        Ok(folded) => show(rt, &folded),
        Err(error) => {
            println!(rt; "error: {error}")?;
            Ok(())
        }
    }
}

// Answers a line. Returns the limit of turns for the next one.
fn answer_line(rt: &HostRuntime, turn_limit: usize, line: &str) -> Result<usize> {
    if let Some(number) = line.strip_prefix("turns ") {
        println!(rt; "{line}")?;
        return Ok(number.parse::<usize>().unwrap_or(turn_limit));
    }
    if line.is_empty() || line.starts_with('#') {
        println!(rt; "{line}")?;
    } else {
        answer_term(rt, turn_limit, line)?;
    }
    Ok(turn_limit)
}

fn main(rt: HostRuntime) -> Result<()> {
    let mut turn_limit = USUAL_TURNS;
    for line in rt.lines(rt.alloc()) {
        let line = line?;
        turn_limit = answer_line(&rt, turn_limit, &line)?;
    }
    Ok(())
}
