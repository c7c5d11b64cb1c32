//! The part `=== data`: sessions over graphs that keep data in, answers out.
//!
//! A line `--- NAME` begins a session over a graph that keeps the data of the analysis of this name: `ConstFold`,
//! `LeastSize`, `LeastBinders`, `Marking`, `Tired`, `Refusing N`, or nothing. It is written as it stands, and so is a
//! line that begins with `#`. Each other line is a word with what it is asked of, as in `data (add 2 3)`. It is written
//! as it stands, then an arrow, then the answer or the name of the error.
//!
//! - `put T` adds a term. `again T` answers whether its id is that of the term that was put last.
//! - `union T == U` and `quietly T == U` unite two terms. The latter modifies no class. `learn T: V` merges a value into
//!   the data of a class.
//! - `data T`, `least T` and `eq T == U` answer the data of a class, its least term, and whether two terms are equal.
//! - `explain T == U` adds two terms and explains that they are equal.
//! - `make T: V ..`, `merge V W` and `asks V` answer what an e-node makes over children with these data, the merge of
//!   two data with its height, and how many edits are asked of a class.
//! - `has N` and `class N` answer whether a number has a class, and whether there is a class of this number.
//! - `pending`, `rounds`, `asserted` and `symmetries` are numbers. `set_rounds N` sets the second one.
//! - `modify` and `modify_once` answer whether anything was asked, and `failed` whether the graph has failed.
//! - `last` and `rebuilt` are what the last rebuild did, and over how many e-nodes. After `mark`, `rose N` answers whether at least so many turns were taken
//!   since, and no more than their bound allows. `stood` answers whether none was taken though the bound rose.
//! - `unit V` applies `(mul ?x ?y) => ?x` where the variable is known to be 1, and answers whether the graph changed.
//! - `carried` is how many data, and how many changed ones, a graph without classes carries.

use crate::answers::{Seen, write_answer};
use crate::datum::Datum;
use crate::least_binders::LeastBinders;
use crate::least_size::LeastSize;
use crate::marking::Marking;
use crate::refusing::Refusing;
use crate::tired::Tired;
use slotted_const_fold::ConstFold;
use slotted_data::Analysis;
use slotted_graph::EGraph;
use slotted_slots::{Error, SlotTable};
use slotted_small::Small;
use std::io;
use std::io::ErrorKind;

// Answers a line over a graph.
fn answer_line<N: Analysis<Small>>(
    rt: &HostRuntime,
    graph: &mut EGraph<Small, N>,
    seen: &mut Seen,
    line: &str,
) -> io::Result<()>
where
    N::Data: Datum,
{
    let mut text = String::new(rt.alloc());
    if let Err(error) = write_answer(rt.alloc(), graph, seen, line, &mut text) {
        text.push_str(error.name())?;
    }
    println!(rt; "{line} => {text}")
}

// Answers the lines of a session over its graph.
fn answer_lines<N: Analysis<Small>>(
    rt: &HostRuntime,
    graph: &mut EGraph<Small, N>,
    lines: &str,
) -> io::Result<()>
where
    N::Data: Datum,
{
    let mut seen = Seen::new(rt.alloc());
    for line in lines.lines() {
        if line.starts_with('#') {
            println!(rt; "{line}")?;
        } else {
            answer_line(rt, graph, &mut seen, line)?;
        }
    }
    Ok(())
}

// Answers a session over a new graph, which keeps the data of this analysis.
fn answer_over<N: Analysis<Small>>(rt: &HostRuntime, analysis: N, lines: &str) -> io::Result<()>
where
    N::Data: Datum,
{
    match EGraph::new(rt.alloc(), SlotTable::new(rt.alloc()), analysis) {
        Ok(mut graph) => {
            let answered = answer_lines(rt, &mut graph, lines);
            let _ = graph.into_table();
            answered
        }
        Err(_) => Err(io::Error::from(ErrorKind::OutOfMemory)),
    }
}

// Answers a session, whose first line is the name of an analysis.
fn answer_session(rt: &HostRuntime, session: &str) -> io::Result<()> {
    let (name, lines) = session.split_once("\n").unwrap_or((session, ""));
    println!(rt; "--- {name}")?;
    match name.split_once(" ").unwrap_or((name, "")) {
        ("ConstFold", _) => answer_over(rt, ConstFold, lines),
        ("LeastSize", _) => answer_over(rt, LeastSize, lines),
        ("LeastBinders", _) => answer_over(rt, LeastBinders, lines),
        ("Marking", _) => answer_over(rt, Marking, lines),
        ("Tired", _) => answer_over(rt, Tired, lines),
        ("Refusing", most) => {
            let most = most.parse().unwrap_or(0);
            answer_over(rt, Refusing { most }, lines)
        }
        _ => answer_over(rt, (), lines),
    }
}

/// Answers this part of the input.
pub fn answer_all(rt: &HostRuntime, text: &str) -> io::Result<()> {
    for session in text.split("--- ") {
        if !session.is_empty() {
            answer_session(rt, session)?;
        }
    }
    Ok(())
}
