//! Proofs as pictures.
ghost use Rattle.std.specs.Prelude.{◌≡◌, ◌<◌, ◌⊎◌, ◌↔◌, length, string_bytes, IsTrue, IfErr, IsErrOf, OnErr, OnOk};
ghost use Rattle.slotted_slots.specs.Error.{IsOutOfMemory};
ghost use Rattle.slotted_graph.specs.FiledNodes.{IsAppended};

use crate::quoting::{push_id, push_quoted};
use slotted_data::Analysis;
use slotted_graph::EGraph;
use slotted_languages::Language;
use slotted_proofs::{Equation, Proof, ProofLines, ProofList, ProvenEq};
use slotted_slots::{Error, SlotTable};
use std::alloc::Global;
use std::fmt::Write;

// Appends how an equation was proved.
fn push_reason(out: &mut String, proof: &Proof) -> Result<(), Error>
    ensures { IfErr result IsOutOfMemory }
{
    match proof {
        Proof::Explicit(explicit) => {
            out.push_str("asserted")?;
            if let Some(text) = &explicit.0 {
                out.push_str(":\\ ")?;
                push_quoted(out, text)?;
            }
        }
        Proof::Reflexivity(_) => out.push_str("reflexivity")?,
        Proof::Symmetry(_) => out.push_str("symmetry")?,
        Proof::Transitivity(_) => out.push_str("transitivity")?,
        Proof::Congruence(_) => out.push_str("congruence")?,
    }
    Ok(())
}

// Appends a line: its equation, and how the equation was proved.
fn push_line(
    alloc: Global,
    out: &mut String,
    table: &SlotTable,
    number: usize,
    equation: &Equation,
    proof: &Proof,
) -> Result<(), Error>
    ensures { IfErr result IsOutOfMemory }
{
    write!(out, "  p{number} [label=\"{{")?;
    push_id(alloc, out, table, &equation.l)?;
    out.push_str("\\ =\\ ")?;
    push_id(alloc, out, table, &equation.r)?;
    out.push('|')?;
    push_reason(out, proof)?;
    out.push_str("}\"];\n")?;
    Ok(())
}

// Appends an edge to a part of a line.
fn push_part(
    out: &mut String,
    lines: &ProofLines,
    number: usize,
    part: ProvenEq,
) -> Result<(), Error>
    ensures { IfErr result IsOutOfMemory }
{
    if let Some(line) = lines.line_of(part) {
        write!(out, "  p{number} -> p{line};\n")?;
    }
    Ok(())
}

// Appends an edge to each of several parts.
fn push_each_part(
    out: &mut String,
    lines: &ProofLines,
    number: usize,
    parts: &[ProvenEq],
) -> Result<(), Error>
    ensures { IfErr result IsOutOfMemory }
{
    for k in 0..parts.len() {
        push_part(out, lines, number, parts[k])?;
    }
    Ok(())
}

// Appends an edge to each part of a line.
fn push_parts(
    out: &mut String,
    lines: &ProofLines,
    number: usize,
    proof: &Proof,
) -> Result<(), Error>
    ensures { IfErr result IsOutOfMemory }
{
    match proof {
        Proof::Explicit(_) | Proof::Reflexivity(_) => Ok(()),
        Proof::Symmetry(step) => push_part(out, lines, number, step.0),
        Proof::Transitivity(step) => {
            push_part(out, lines, number, step.0)?;
            push_part(out, lines, number, step.1)
        }
        Proof::Congruence(step) => push_each_part(out, lines, number, &step.0),
    }
}

// Appends each line with its parts.
fn push_lines(
    alloc: Global,
    out: &mut String,
    table: &SlotTable,
    list: &ProofList,
    lines: &ProofLines,
) -> Result<(), Error>
    ensures { IfErr result IsOutOfMemory }
{
    for number in 0..lines.len() {
        if let Some(entry) = lines.get(number) {
            if list.is_valid(entry) {
                let proof = list.proof(entry);
                push_line(alloc, out, table, number, list.equ(entry), proof)?;
                push_parts(out, lines, number, proof)?;
            }
        }
    }
    Ok(())
}

/// Appends a picture of a proof, as text in the DOT language.
///
/// Each entry of the proof list that the proof uses is a record, with its equation of ids and its reason. An edge leads
/// from an entry to each entry that proves it.
pub fn proof_to_dot<L: Language, N: Analysis<L>>(
    alloc: Global,
    graph: &EGraph<L, N>,
    proof: ProvenEq,
    out: &mut String,
) -> Result<(), Error>
    requires { IsTrue graph.now.failed ⊎ (proof < length graph.now.image.stored) }

    // What stood in the text stays before the picture. If the call is refused, the text stays as it was.
    ensures appends { OnOk result (IsAppended (string_bytes out.old) (string_bytes out.new)) }
    ensures unchanged { OnErr result (string_bytes out.new ≡ string_bytes out.old) }
    ensures failed { IsErrOf result Error.Failed ↔ IsTrue graph.now.failed }
    ensures only { IfErr result (λ e. (e ≡ Error.Failed) ⊎ (e ≡ Error.OutOfMemory)) }
{
    if graph.is_failed() {
        return Err(Error::Failed);
    }
    let list = graph.proofs();
    let lines = list.lines(alloc, proof)?;
    let mut text = String::new(alloc);
    text.push_str("digraph proof {\n  node [shape=record];\n")?;
    push_lines(alloc, &mut text, graph.table(), list, &lines)?;
    text.push_str("}\n")?;
    out.push_str(&text)?;
    Ok(())
}
