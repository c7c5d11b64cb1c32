//! Answers to `extract`.
ghost use Rattle.std.specs.Prelude.{IsTrue, IfOk, IfErr, IsErrOf};
ghost use Rattle.slotted_slots.specs.Error.{IsShortage};
ghost use Rattle.slotted_explain.specs.Graph.{OnlyTakesSlots};
ghost use Rattle.slotted_explain.specs.Nodes.{to_applied};
ghost use Rattle.slotted_explain.specs.Reports.{IsFound};
ghost use Rattle.slotted_commands.specs.Extracted.{ExtractionAnswers, IsSmallest, LacksForSmallest, TakesForSmallest};
ghost use Rattle.slotted_commands.specs.Sessions.{answer_of};

use crate::answer::Answer;
use slotted_explain::EGraph;
use slotted_extract::{AstSize, Extractor};
use slotted_slots::{AppliedId, Error};
use slotted_terms::expr::RecExpr;
use slotted_terms::expr::printing::Printable;
use std::alloc::Global;

// Extracts a term of the fewest e-nodes that a canonical id represents.
pub(crate) fn extract_term<L: Printable>(
    alloc: Global,
    graph: &mut EGraph<L>,
    id: &AppliedId,
) -> Result<Answer, Error>
    requires sound { ¬ IsTrue graph.old.failed }
    requires found { IsFound graph.old (to_applied id.now) }
    ensures { ExtractionAnswers L.written graph.old (to_applied id.now) graph.new (answer_of result) }
{
    let (cost, term) = smallest_term(alloc, graph, id)?;
    let text = term.text(alloc, graph.table())?;
    Ok(Answer::Extracted(cost, text))
}

// Returns a smallest term of an id, behind its cost.
fn smallest_term<L: Printable>(
    alloc: Global,
    graph: &mut EGraph<L>,
    id: &AppliedId,
) -> Result<(u64, RecExpr<L>), Error>
    requires sound { ¬ IsTrue graph.old.failed }
    requires found { IsFound graph.old (to_applied id.now) }
    ensures ok { IfOk result (λ p. IsSmallest graph.old (to_applied id.now) p.0 p.1 graph.new) }
    ensures takes { OnlyTakesSlots graph.old graph.new }
    ensures count { TakesForSmallest graph.old (to_applied id.now) graph.new }
    ensures full { IsErrOf result Error.OutOfSlots → LacksForSmallest graph.old (to_applied id.now) graph.new }
    ensures err { IfErr result IsShortage }
{
    let extractor: Extractor<L, AstSize> = Extractor::new(alloc, graph, AstSize)?;
    let cost = extractor.get_best_cost(id)?;
    let term = extractor.extract(id, graph)?;
    Ok((cost, term))
}
