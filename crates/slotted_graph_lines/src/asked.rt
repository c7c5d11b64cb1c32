//! Answers to the rows of tables: those of the questions that other tests of the graph ask too, and printed proofs.
use crate::proofs::{printed, told};
use slotted_explain::EGraph;
use slotted_proofs::ProvenEq;
use slotted_questions::graphs::parted;
use slotted_questions::rows::answer;
use slotted_slots::Error;
use slotted_terms::expr::printing::Printable;
use std::alloc::Global;

// Returns the answer to a question.
fn asked<L: Printable>(
    alloc: Global,
    graph: &mut EGraph<L>,
    other: &mut EGraph<L>,
    known: &mut Vec<ProvenEq>,
    question: &str,
) -> Result<String, Error> {
    match parted(question, " ") {
        ("proof", ask) => printed(alloc, graph, known, ask),
        ("entry", ask) => told(alloc, graph, known, ask),
        _ => answer(alloc, graph, other, known, question),
    }
}

// Returns whether an answer is the wanted one, or `None` if it is the error with the number of what ended.
fn is_wanted(answer: &Result<String, Error>, wanted: &str, ended: u8) -> Option<bool> {
    match answer {
        Ok(text) => Some(text.as_str() == wanted),
        Err(e) => {
            if e.number() == ended {
                None
            } else {
                Some(e.name() == wanted)
            }
        }
    }
}

// Returns whether a row's question has the answer behind its arrow, or `None` if the answer is the error with the
// number of what ended.
pub fn is_answered<L: Printable>(
    alloc: Global,
    graph: &mut EGraph<L>,
    other: &mut EGraph<L>,
    known: &mut Vec<ProvenEq>,
    row: &str,
    ended: u8,
) -> Option<bool> {
    let (question, wanted) = parted(row, " => ");
    let answer = asked(alloc, graph, other, known, question);
    is_wanted(&answer, wanted, ended)
}
