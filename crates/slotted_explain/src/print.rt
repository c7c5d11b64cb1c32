//! Printing a proof line by line.
ghost use Rattle.std.specs.Prelude.{All, ◌<◌, length, string_bytes, IsTrue, IfOk, OnOk, IfErr, IsErrOf};
ghost use Rattle.slotted_slots.specs.Error.{IsShortage};
ghost use Rattle.slotted_graph.specs.Graph.{IsFullId, OnlyTakesSlots};
ghost use Rattle.slotted_proofs.specs.Equations.{to_applied};
ghost use Rattle.slotted_graph.specs.Syn.{MakesForTermAt, RunsOutForTermAt};
ghost use Rattle.slotted_explain.specs.Printed.{AppendsLine, ArePrinted, IsSideText, IsSidesText, LineRunsOut};
ghost use Rattle.slotted_explain.specs.Printed.{LinesRunOut, MakesForLine, MakesForLines};

use slotted_data::Analysis;
use slotted_graph::EGraph;
use slotted_proofs::reasons::reason;
use slotted_proofs::{ProofLines, ProvenEq};
use slotted_slots::{AppliedId, Error};
use slotted_terms::expr::printing::Printable;
use std::alloc::Global;
use std::fmt::Write;

// Returns the lines in turn.
pub(crate) fn lines_text<L: Printable, N: Analysis<L>>(
    alloc: Global,
    graph: &mut EGraph<L, N>,
    lines: &ProofLines,
) -> Result<String, Error>
    requires well { ¬ IsTrue graph.old.failed }
    requires within { All (λ q. q < length graph.old.image.stored) lines.now }
    ensures text { IfOk result
        (λ s. ArePrinted L.written graph.old graph.new lines.now (length lines.now) (string_bytes s)) }
    ensures takes { OnlyTakesSlots graph.old graph.new }
    ensures count { MakesForLines graph.old graph.new lines.now }
    ensures full { IsErrOf result Error.OutOfSlots → LinesRunOut graph.old graph.new lines.now }
    ensures only { IfErr result IsShortage }
{
    let mut text = String::new(alloc);
    for i in 0..lines.len() {
        if let Some(entry) = lines.get(i) {
            push_line(alloc, graph, lines, i, entry, &mut text)?;
        }
    }
    Ok(text)
}

// Appends the line of an entry.
fn push_line<L: Printable, N: Analysis<L>>(
    alloc: Global,
    graph: &mut EGraph<L, N>,
    lines: &ProofLines,
    i: usize,
    p: ProvenEq,
    text: &mut String,
) -> Result<(), Error>
    requires well { ¬ IsTrue graph.old.failed }
    requires within { p < length graph.old.image.stored }
    ensures line { OnOk result (AppendsLine L.written graph.old graph.new lines.now i p text.old text.new) }
    ensures takes { OnlyTakesSlots graph.old graph.new }
    ensures count { MakesForLine graph.old graph.new p }
    ensures full { IsErrOf result Error.OutOfSlots → LineRunsOut graph.old graph.new p }
    ensures only { IfErr result IsShortage }
{
    let sides = sides_text(alloc, graph, p)?;
    let reason = reason(alloc, graph.proofs().proof(p), lines)?;
    writeln!(text, "{i}: {sides} by {reason}")?;
    Ok(())
}

// Returns the texts of the two sides of an entry.
fn sides_text<L: Printable, N: Analysis<L>>(
    alloc: Global,
    graph: &mut EGraph<L, N>,
    p: ProvenEq,
) -> Result<String, Error>
    requires well { ¬ IsTrue graph.old.failed }
    requires within { p < length graph.old.image.stored }
    ensures text { IfOk result (λ s. IsSidesText L.written graph.old graph.new p (string_bytes s)) }
    ensures takes { OnlyTakesSlots graph.old graph.new }
    ensures count { MakesForLine graph.old graph.new p }
    ensures full { IsErrOf result Error.OutOfSlots → LineRunsOut graph.old graph.new p }
    ensures only { IfErr result IsShortage }
{
    let equation = graph.proofs().equ(p).copy(alloc)?;
    let left = side_text(alloc, graph, &equation.l)?;
    let right = side_text(alloc, graph, &equation.r)?;
    let text = format!(in alloc; "{left} = {right}")?;
    Ok(text)
}

// Returns the text of the canonical term of an id.
fn side_text<L: Printable, N: Analysis<L>>(
    alloc: Global,
    graph: &mut EGraph<L, N>,
    a: &AppliedId,
) -> Result<String, Error>
    requires well { ¬ IsTrue graph.old.failed }
    requires valid { IsFullId graph.old (to_applied a.now) }
    ensures text { IfOk result (λ s. IsSideText L.written graph.old graph.new (to_applied a.now) (string_bytes s)) }
    ensures takes { OnlyTakesSlots graph.old graph.new }
    ensures count { MakesForTermAt graph.old graph.new a.now.id.0 }
    ensures full { IsErrOf result Error.OutOfSlots → RunsOutForTermAt graph.old graph.new a.now.id.0 }
    ensures only { IfErr result IsShortage }
{
    let term = graph.get_syn_expr(a)?;
    let text = term.text(alloc, graph.table())?;
    Ok(text)
}
