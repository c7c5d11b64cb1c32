//! The part `=== extraction`: questions to extractors in, answers out.
//!
//! A line `--- COSTS UNIONS` begins a session over a new graph after these unions, which stand between `; `. A term
//! alone is added. Then an extractor is made by these costs: `AstSize`, `DearProducts` or `LightLambdas`. The line is
//! written as it stands, and so is a line that begins with `#`. Each other line is `WORD: TEXT`, and is written with an
//! arrow and the answer or the error behind it.
//!
//! - `least T`, `by default T` and `by size T` are the term that the extractor gives, a new one, and one by size. `$fk`
//!   stands for its first fresh slot.
//! - `own cost T`, `found cost T`, `given cost T` and `written cost T` are the cost of the class of an id, of what the
//!   id is found as, of the term that is given, and of the term itself.
//! - `chain N` is how many e-nodes are extracted for a class of N levels over a first one. In `cycle N`, one level more
//!   is the first class again.

use crate::dear_products::DearProducts;
use crate::deep::count_of_levels;
use crate::extracted::{answer, extractor_after};
use crate::light_lambdas::LightLambdas;
use slotted_costs::{AstSize, CostFunction};
use slotted_explain::EGraph;
use slotted_extract::Extractor;
use slotted_slots::{Error, SlotTable};
use slotted_small::Small;
use std::alloc::Global;
use std::io;
use std::io::ErrorKind;

// Returns how many e-nodes are extracted, as text.
fn count(
    alloc: Global,
    graph: &mut EGraph<Small>,
    word: &str,
    text: &str,
) -> Result<String, Error> {
    let levels = text.parse().unwrap_or(0);
    let count = count_of_levels(alloc, graph, levels, word == "cycle")?;
    Ok(format!(in alloc; "{count}")?)
}

// Returns the answer to a question.
fn told<F: CostFunction<Small, Cost = u64> + Default>(
    alloc: Global,
    graph: &mut EGraph<Small>,
    extractor: &Extractor<Small, F>,
    line: &str,
) -> Result<String, Error> {
    let (word, text) = line.split_once(": ").unwrap_or((line, ""));
    match word {
        "chain" | "cycle" => count(alloc, graph, word, text),
        _ => answer(alloc, graph, extractor, word, text),
    }
}

// Answers a line.
fn answer_line<F: CostFunction<Small, Cost = u64> + Default>(
    rt: &HostRuntime,
    graph: &mut EGraph<Small>,
    extractor: &Extractor<Small, F>,
    line: &str,
) -> io::Result<()> {
    match told(rt.alloc(), graph, extractor, line) {
        Ok(answer) => println!(rt; "{line} => {answer}"),
        Err(error) => {
            let name = error.name();
            println!(rt; "{line} => {name}")
        }
    }
}

// Answers the lines of a session.
fn answer_lines<F: CostFunction<Small, Cost = u64> + Default>(
    rt: &HostRuntime,
    graph: &mut EGraph<Small>,
    extractor: &Extractor<Small, F>,
    lines: &str,
) -> io::Result<()> {
    for line in lines.lines() {
        if line.starts_with('#') {
            println!(rt; "{line}")?;
        } else {
            answer_line(rt, graph, extractor, line)?;
        }
    }
    Ok(())
}

// Answers a session over its graph.
fn answer_in<F: CostFunction<Small, Cost = u64> + Default>(
    rt: &HostRuntime,
    graph: &mut EGraph<Small>,
    unions: &str,
    lines: &str,
) -> io::Result<()> {
    match extractor_after::<Small, F>(rt.alloc(), graph, unions) {
        Ok(extractor) => answer_lines(rt, graph, &extractor, lines),
        Err(_) => Err(io::Error::from(ErrorKind::InvalidData)),
    }
}

// Answers a session by the costs of this name, over its graph.
fn answer_by(
    rt: &HostRuntime,
    graph: &mut EGraph<Small>,
    head: &str,
    lines: &str,
) -> io::Result<()> {
    match head.split_once(" ").unwrap_or((head, "")) {
        ("DearProducts", unions) => answer_in::<DearProducts>(rt, graph, unions, lines),
        ("LightLambdas", unions) => answer_in::<LightLambdas>(rt, graph, unions, lines),
        (_, unions) => answer_in::<AstSize>(rt, graph, unions, lines),
    }
}

// Answers a session.
fn answer_session(rt: &HostRuntime, session: &str) -> io::Result<()> {
    let (head, lines) = session.split_once("\n").unwrap_or((session, ""));
    println!(rt; "--- {head}")?;
    match EGraph::new(rt.alloc(), SlotTable::new(rt.alloc()), ()) {
        Ok(mut graph) => {
            let answered = answer_by(rt, &mut graph, head, lines);
            let _ = graph.into_table();
            answered
        }
        Err(_) => Err(io::Error::from(ErrorKind::OutOfMemory)),
    }
}

/// Answers this part of the input.
pub fn answer_all(rt: &HostRuntime, text: &str) -> io::Result<()> {
    for session in text.split("--- ") {
        if !session.is_empty() {
            answer_session(rt, session)?;
        }
    }
    Ok(())
}
