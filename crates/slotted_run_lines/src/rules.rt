//! The part `=== rules`: sessions about rules, conditions and methods of substitution of a caller's own.
//!
//! Each row is `WORD: TEXT => ANSWER`, a question with its answer, and is written as it stands. So is a line that begins
//! with `#`. A row with another answer is written behind `wrong: `, and ends the program with an error. If memory is
//! refused, the row is asked once more, unless the graph has failed: then it is written behind `refused: `.
//!
//! A line `---` begins a session over a new graph, whose substitutions look into canonical terms, and `--- extraction`
//! one whose substitutions look into terms of fewest e-nodes.
//!
//! - `union`, `equal`, `matches`, `asserted`, `failed`, `looked up` ask of a graph. `substitutions P` counts what
//!   `ematch_all` finds, and `matches in P in T` what `find_matches_in` finds in the class of a term.
//! - `apply`, `apply first`, `apply refusing` apply the rule `L ~> R` without a condition, under one that holds as long
//!   as nothing was asserted, and under one that is refused from then on. `apply own` applies a rule that unites two
//!   terms.
//! - `subst P`, `subst at P by Q` and `own subst P` answer the canonical term of an instance: over no values, over the
//!   first match of a pattern, and by a method of substitution that asserts that the part equals the value. `replaced B,
//!   X, T` answers that of `subst_ids` for three terms.
//! - `unite L ~> R` unites two instances. `bare` is a sum without summands, which no text writes.
//! - `refuses WHAT` fails the graph, and asks whether it refuses all calls over `patterns`, `own rules` or a `term`.

use crate::walking::{Walked, step};
use slotted_graph::{EGraph, SubstMethod};
use slotted_slots::SlotTable;
use slotted_small::Small;
use std::io;
use std::io::ErrorKind;

// Asks a row. Returns whether its graph has not failed.
fn answer_row(rt: &HostRuntime, graph: &mut EGraph<Small>, row: &str) -> io::Result<bool> {
    match step(rt.alloc(), graph, row) {
        Walked::Answered => println!(rt; "{row}")?,
        Walked::Refused => {
            println!(rt; "refused: {row}")?;
            return Ok(false);
        }
        Walked::Wrong => {
            println!(rt; "wrong: {row}")?;
            return Err(io::Error::from(ErrorKind::InvalidData));
        }
    }
    Ok(true)
}

// Asks the rows of a session up to the end, or to the first write that is refused.
fn answer_rows(rt: &HostRuntime, graph: &mut EGraph<Small>, rows: &str) -> io::Result<()> {
    for row in rows.lines() {
        if row.starts_with('#') {
            println!(rt; "{row}")?;
        } else if !answer_row(rt, graph, row)? {
            return Ok(());
        }
    }
    Ok(())
}

// Answers a session over a new graph.
fn answer_session(rt: &HostRuntime, session: &str) -> io::Result<()> {
    let (name, rows) = session.split_once("\n").unwrap_or((session, ""));
    println!(rt; "---{name}")?;
    let method = if name == " extraction" {
        SubstMethod::Extraction
    } else {
        SubstMethod::SynExpr
    };
    match EGraph::with_subst_method(rt.alloc(), SlotTable::new(rt.alloc()), (), method) {
        Ok(mut graph) => {
            let answered = answer_rows(rt, &mut graph, rows);
            let _ = graph.into_table();
            answered
        }
        Err(_) => Err(io::Error::from(ErrorKind::OutOfMemory)),
    }
}

/// Answers this part of the input.
pub fn answer_all(rt: &HostRuntime, text: &str) -> io::Result<()> {
    for session in text.split("---") {
        if !session.is_empty() {
            answer_session(rt, session)?;
        }
    }
    Ok(())
}
