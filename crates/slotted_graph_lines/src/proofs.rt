//! Printing of the proofs of a graph.
use slotted_explain::{EGraph, Explanation};
use slotted_languages::Language;
use slotted_proofs::{Proof, ProvenEq};
use slotted_questions::graphs::{parted, yes};
use slotted_questions::steps::part;
use slotted_slots::Error;
use slotted_terms::expr::printing::Printable;
use std::alloc::Global;

// Returns the proof by lines, if there is one of this number.
fn lines<L: Printable>(alloc: Global, graph: &mut EGraph<L>, p: ProvenEq) -> Result<String, Error> {
    if graph.is_valid_proof(p) {
        p.to_string(alloc, graph)
    } else {
        Err(Error::BadStep)
    }
}

// Returns the proof as a chain of terms.
fn chain<L: Printable>(alloc: Global, graph: &mut EGraph<L>, p: ProvenEq) -> Result<String, Error> {
    if graph.is_valid_proof(p) {
        p.to_flat_string(alloc, graph)
    } else {
        Err(Error::BadStep)
    }
}

// Returns the equation of the last line.
fn last_equation(alloc: Global, lines: &str) -> Result<String, Error> {
    let (_, line) = lines.trim_end().rsplit_once("\n").unwrap_or(("", lines));
    let (_, line) = parted(line, ": ");
    let (equation, _) = parted(line, " by ");
    Ok(String::from_str(alloc, equation)?)
}

// Returns the equation that the last line of a proof says.
fn said<L: Printable>(alloc: Global, graph: &mut EGraph<L>, p: ProvenEq) -> Result<String, Error> {
    let text = lines(alloc, graph, p)?;
    last_equation(alloc, text.as_str())
}

// Returns what is printed by a word.
fn text<L: Printable>(
    alloc: Global,
    graph: &mut EGraph<L>,
    p: ProvenEq,
    word: &str,
) -> Result<String, Error> {
    match word {
        "lines" => lines(alloc, graph, p),
        "says" => said(alloc, graph, p),
        _ => chain(alloc, graph, p),
    }
}

// Returns the text with a sign for each line feed.
fn in_one_line(alloc: Global, text: &str) -> Result<String, Error> {
    Ok(text.replace(alloc, "\n", "¶")?)
}

fn printed_in_one_line<L: Printable>(
    alloc: Global,
    graph: &mut EGraph<L>,
    p: ProvenEq,
    word: &str,
) -> Result<String, Error> {
    let text = text(alloc, graph, p, word)?;
    in_one_line(alloc, text.as_str())
}

// Returns what is printed of the proof that a digit names.
pub fn printed<L: Printable>(
    alloc: Global,
    graph: &mut EGraph<L>,
    known: &[ProvenEq],
    ask: &str,
) -> Result<String, Error> {
    let (word, digit) = parted(ask, " ");
    let p = part(known, digit.as_bytes().first())?;
    printed_in_one_line(alloc, graph, p, word)
}

// Returns whether an entry is asserted for this reason.
fn has_text<L: Language>(graph: &EGraph<L>, p: ProvenEq, text: &str) -> bool {
    if !graph.is_valid_proof(p) {
        return false;
    }
    match p.proof(graph) {
        Proof::Explicit(why) => why.0.as_deref() == Some(text),
        _ => false,
    }
}

// Returns whether the copy of an entry has the same equation.
fn is_copied<L: Language>(alloc: Global, graph: &EGraph<L>, p: ProvenEq) -> Result<bool, Error> {
    if !graph.is_valid_proof(p) {
        return Err(Error::BadStep);
    }
    let entry = p.entry(alloc, graph)?;
    Ok(entry.equ == *p.equ(graph))
}

// Returns whether an entry is asserted for this reason, and its copy has the same equation.
fn is_told<L: Language>(
    alloc: Global,
    graph: &EGraph<L>,
    p: ProvenEq,
    text: &str,
) -> Result<bool, Error> {
    Ok(is_copied(alloc, graph, p)? && has_text(graph, p, text))
}

// Returns whether the entry that a digit names is asserted for this reason, and its copy has the same equation.
pub fn told<L: Language>(
    alloc: Global,
    graph: &EGraph<L>,
    known: &[ProvenEq],
    ask: &str,
) -> Result<String, Error> {
    let (digit, text) = parted(ask, " ");
    let p = part(known, digit.as_bytes().first())?;
    let holds = is_told(alloc, graph, p, text)?;
    Ok(String::from_str(alloc, yes(holds))?)
}
