//! Answers to questions `ASK: TERMS`.
use crate::graphs::parted;
use crate::words::{Question, asked, meaning};
use slotted_graph::EGraph;
use slotted_proofs::{Equation, ProvenEq};
use slotted_slots::{AppliedId, Error};
use slotted_terms::expr::printing::Printable;
use std::alloc::Global;

// Asks words in turn, up to the first that is not answered by yes, and returns its answer.
fn asked_in_turn<L: Printable>(
    alloc: Global,
    graph: &mut EGraph<L>,
    other: &mut EGraph<L>,
    known: &mut Vec<ProvenEq>,
    sides: &mut Equation,
    question: &Question,
    words: &str,
    out: &mut String,
) -> Result<&'static str, Error> {
    for word in words.split(", ") {
        let told = asked(alloc, graph, other, known, sides, question, word, out)?;
        if told != "yes" {
            return Ok(told);
        }
    }
    Ok("yes")
}

// Asks words in turn, beginning with two null ids.
fn answered<L: Printable>(
    alloc: Global,
    graph: &mut EGraph<L>,
    other: &mut EGraph<L>,
    known: &mut Vec<ProvenEq>,
    question: &Question,
    words: &str,
    out: &mut String,
) -> Result<&'static str, Error> {
    let mut sides = Equation {
        l: AppliedId::null(alloc),
        r: AppliedId::null(alloc),
    };
    asked_in_turn(alloc, graph, other, known, &mut sides, question, words, out)
}

// Writes the answer to a question.
fn write_answer<L: Printable>(
    alloc: Global,
    graph: &mut EGraph<L>,
    other: &mut EGraph<L>,
    known: &mut Vec<ProvenEq>,
    text: &str,
    out: &mut String,
) -> Result<(), Error> {
    let (ask, texts) = parted(text, ": ");
    let (left, right) = texts.split_once(" == ").unwrap_or((texts, texts));
    let (words, argument) = meaning(ask);
    let question = Question {
        step: ask.strip_prefix("short ").unwrap_or(ask),
        argument,
        left,
        right,
    };
    let told = answered(alloc, graph, other, known, &question, words, out)?;
    out.push_str(told)?;
    Ok(())
}

/// Answers a question. Memory for a short answer is taken first, so that no answer is lost once the graph was asked.
pub fn answer<L: Printable>(
    alloc: Global,
    graph: &mut EGraph<L>,
    other: &mut EGraph<L>,
    known: &mut Vec<ProvenEq>,
    question: &str,
) -> Result<String, Error> {
    let mut out = String::with_capacity(alloc, 16)?;
    write_answer(alloc, graph, other, known, question, &mut out)?;
    Ok(out)
}

/// Answers a question, which may ask the other graph.
pub fn answer_of_either<L: Printable>(
    alloc: Global,
    graph: &mut EGraph<L>,
    other: &mut EGraph<L>,
    known: &mut Vec<ProvenEq>,
    question: &str,
) -> Result<String, Error> {
    match question.strip_prefix("other ") {
        Some(question) => answer(alloc, other, graph, known, question),
        None => answer(alloc, graph, other, known, question),
    }
}
