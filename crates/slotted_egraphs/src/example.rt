//! First callers: they unite and compare terms, add a term again, look an e-node up, apply rules, and simplify a term
//! by rules.
ghost use Rattle.std.specs.Prelude.{◌↔◌, ◌⊎◌, All, IsTrue, IfOk, OnOk};
ghost use Rattle.slotted_egraphs.specs.AppliedRules.{HasAppliedEach};
ghost use Rattle.slotted_egraphs.specs.Filed.{IsFiledAs, SaysNodeEqual};
ghost use Rattle.slotted_egraphs.specs.Simplified.{IsSimplified};
ghost use Rattle.slotted_egraphs.specs.ValidIds.{IsValidId, IsValidNode};
ghost use Rattle.slotted_egraphs.specs.Image.{AreClosed};
ghost use Rattle.slotted_egraphs.specs.Nodes.{to_applied};
ghost use Rattle.slotted_egraphs.specs.Valid.{IsValidTerm};
ghost use Rattle.slotted_egraphs.specs.Written.{CanBeSearched};

use crate::{
    Always, AppliedId, EGraph, Error, Language, ProvenEq, RecExpr, Rewrite, apply_rewrites,
    ast_size_extract, run_counted,
};
use std::alloc::Global;

/// Adds the terms of two texts, unites them, and returns whether they are equal. Any answer is yes, unless a symmetry
/// that a union met is open.
pub fn unite_and_ask<L: Language>(
    graph: &mut EGraph<L>,
    left: &str,
    right: &str,
) -> Result<bool, Error>
    ensures { IfOk result (λ y. AreClosed graph.new.image → IsTrue y) }
{
    let left = graph.parse_expr(left)?;
    let right = graph.parse_expr(right)?;
    let left = graph.add_expr(&left)?;
    let right = graph.add_expr(&right)?;
    graph.union(&left, &right)?;
    graph.eq(&left, &right)
}

/// Adds the term of a text, and then the canonical term of its id. Any answer is yes: both got equal ids.
pub fn add_again<L: Language>(graph: &mut EGraph<L>, text: &str) -> Result<bool, Error>
    ensures { IfOk result IsTrue }
{
    let term = graph.parse_expr(text)?;
    let id = graph.add_syn_expr(&term)?;
    let canonical = graph.get_syn_expr(&id)?;
    let again = graph.add_syn_expr(&canonical)?;
    graph.eq(&id, &again)
}

/// Returns whether an e-node is looked up as an id that is found equal to the given one.
pub fn is_filed_as<L: Language>(graph: &EGraph<L>, node: &L, id: &AppliedId) -> Result<bool, Error>
    requires node { IsTrue graph.now.failed ⊎ IsValidNode graph.now (L.form node.now) }
    requires id { IsTrue graph.now.failed ⊎ IsValidId graph.now (to_applied id.now) }

    // Yes exactly if it is so. A yes says that both are equal by what was asserted.
    ensures filed { IfOk result (λ y. IsTrue y ↔ IsFiledAs graph.now (L.form node.now) (to_applied id.now)) }
    ensures equal { IfOk result (SaysNodeEqual graph.now (L.form node.now) (to_applied id.now)) }
{
    let Some(found) = graph.lookup(node)? else {
        return Ok(false);
    };
    graph.eq(&found, id)
}

/// Applies rules without conditions once. If there is an answer, instances of both sides are then equal by what is
/// asserted, for each rule and each match.
pub fn apply_once<L: Language>(
    alloc: Global,
    graph: &mut EGraph<L>,
    rules: &[Rewrite<L, Always>],
) -> Result<bool, Error>
    requires { All (CanBeSearched L.form graph.old.table) rules.now }
    ensures { OnOk result (HasAppliedEach L.form graph.old graph.new rules.now) }
{
    let changed = apply_rewrites(alloc, graph, rules)?;
    if graph.is_failed() {
        return Err(Error::Failed);
    }
    Ok(changed)
}

/// Adds a term, applies rules until they change nothing or the limit of turns is reached, and extracts a term of the
/// fewest e-nodes. Returns that term, with a proof that both are equal.
pub fn simplify<L: Language>(
    alloc: Global,
    graph: &mut EGraph<L>,
    rules: &[Rewrite<L, Always>],
    term: &RecExpr<L>,
    turn_limit: usize,
) -> Result<(RecExpr<L>, ProvenEq), Error>
    requires rules { All (CanBeSearched L.form graph.old.table) rules.now }
    requires term { IsValidTerm graph.old.table term.now }
    ensures { IfOk result (λ r. IsSimplified graph.new term.now r.0 r.1) }
{
    let id = graph.add_expr(term)?;
    run_counted(alloc, graph, rules, turn_limit)?;
    let best = ast_size_extract(alloc, &id, graph)?;
    let proof = graph.explain_equivalence(term, &best)?;
    Ok((best, proof))
}
