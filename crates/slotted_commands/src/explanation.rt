//! Answers to `explain`.
ghost use Rattle.std.specs.Prelude.{◌<◌, length, IsTrue, IfOk, IfErr};
ghost use Rattle.slotted_terms.specs.Valid.{IsValidTerm};
ghost use Rattle.slotted_commands.specs.Explained.{ExplanationAnswers, Prints, PrintingRunsOut};
ghost use Rattle.slotted_commands.specs.Sessions.{answer_of};

use crate::answer::Answer;
use slotted_explain::{EGraph, Explanation};
use slotted_proofs::ProvenEq;
use slotted_slots::Error;
use slotted_terms::expr::RecExpr;
use slotted_terms::expr::printing::Printable;
use std::alloc::Global;

// Explains why two terms are equal, which adds both.
pub(crate) fn explain_terms<L: Printable>(
    alloc: Global,
    graph: &mut EGraph<L>,
    left: &RecExpr<L>,
    right: &RecExpr<L>,
) -> Result<Answer, Error>
    requires sound { ¬ IsTrue graph.old.failed }
    requires left { IsValidTerm graph.old.table left.now }
    requires right { IsValidTerm graph.old.table right.now }
    ensures { ExplanationAnswers L.written graph.old left.now right.now graph.new (answer_of result) }
{
    let proof = graph.explain_equivalence(left, right)?;
    let text = proof_text(alloc, graph, proof)?;
    Ok(Answer::Explained(text))
}

// Returns the proof of an entry by lines, without the last line feed: whoever writes an answer ends its line.
fn proof_text<L: Printable>(
    alloc: Global,
    graph: &mut EGraph<L>,
    proof: ProvenEq,
) -> Result<String, Error>
    requires sound { ¬ IsTrue graph.old.failed }
    requires within { proof < length graph.old.image.entries }
    ensures ok { IfOk result (λ text. Prints L.written graph.old proof text graph.new) }
    ensures err { IfErr result (λ e. PrintingRunsOut graph.old proof e graph.new) }
{
    let mut text = proof.to_string(alloc, graph)?;
    text.pop();
    Ok(text)
}
