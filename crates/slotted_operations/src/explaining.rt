//! Explanations: proofs that two terms are equal.
ghost use Rattle.std.specs.Prelude.{◌+◌, IfErr, IfOk, IsErrOf};
ghost use Rattle.slotted_slots.specs.Error.{IsShortage};
ghost use Rattle.slotted_slots.specs.Table.{KnowsMore};
ghost use Rattle.slotted_model.specs.Classes.{IsFull};
ghost use Rattle.slotted_proofs.specs.Equations.{to_applied};
ghost use Rattle.slotted_terms.specs.Valid.{IsWhole};
ghost use Rattle.slotted_classes.specs.Finding.{FindAlike};
ghost use Rattle.slotted_classes.specs.Kept.{nodes_of, entries_of};
ghost use Rattle.slotted_rebuilding.specs.Proving.{HasLargeClassOf};
ghost use Rattle.slotted_operations.specs.Explaining.{ExplainsTerms, ProvesIfAlike, RunsOutForTerms};
ghost use Rattle.slotted_operations.specs.Good.{Good, RestsWith, HasFreshSlots, image_of};
ghost use Rattle.slotted_operations.specs.Graph.{MakesAtMost};
ghost use Rattle.slotted_operations.specs.Places.{term_slots};

use crate::adding::add_syn_expr;
use slotted_classes::Store;
use slotted_hashcons::Hashcons;
use slotted_languages::Language;
use slotted_proofs::ProvenEq;
use slotted_rebuilding::unions::proving::bridge;
use slotted_rebuilding::unions::shortening::compress_paths;
use slotted_slots::{AppliedId, Error, SlotTable};
use slotted_terms::expr::RecExpr;
use std::alloc::Global;

/// Returns the proof that two terms are equal, or `None` if their ids are not found equal. The terms are added first.
/// Paths that were walked are compressed at the end.
pub fn explain<L: Language>(
    store: &mut Store<L>,
    nodes: &mut Hashcons<L>,
    alloc: Global,
    table: &mut SlotTable,
    left: &RecExpr<L>,
    right: &RecExpr<L>,
) -> Result<Option<ProvenEq>, Error>
    requires good { Good store.old }
    requires rests { RestsWith store.old nodes.old }
    requires fresh_slots { HasFreshSlots table.old store.old }
    requires left { IsWhole left.now.args }
    requires right { IsWhole right.now.args }
    ensures ok { IfOk result
        (ExplainsTerms table.old table.new store.old nodes.old store.new nodes.new left.now right.now) }
    ensures more { KnowsMore table.old table.new }
    ensures takes { MakesAtMost (term_slots left.now + term_slots right.now) table.old table.new }
    ensures full { IsErrOf result Error.OutOfSlots
        → RunsOutForTerms (image_of store.old) left.now right.now table.old table.new }
    ensures err { IfErr result IsShortage }
{
    let a = add_syn_expr(store, nodes, alloc, table, left)?;
    let b = add_syn_expr(store, nodes, alloc, table, right)?;
    let answer = explain_ids(store, alloc, &a, &b)?;
    compress_paths(store, alloc)?;
    Ok(answer)
}

/// Returns the proof that two full ids are equal, or `None` if they are not found equal.
pub fn explain_ids<L: Language>(
    store: &mut Store<L>,
    alloc: Global,
    a: &AppliedId,
    b: &AppliedId,
) -> Result<Option<ProvenEq>, Error>
    requires good { Good store.old }
    requires left { IsFull (nodes_of store.old) (to_applied a.now) }
    requires right { IsFull (nodes_of store.old) (to_applied b.now) }
    ensures ok { IfOk result (ProvesIfAlike store.old store.new (to_applied a.now) (to_applied b.now)) }
    ensures alike { IsErrOf result Error.OutOfSlots
        → FindAlike (entries_of store.old) (to_applied a.now) (to_applied b.now) }
    ensures full { IsErrOf result Error.OutOfSlots → HasLargeClassOf store.old a.now.id.0 b.now.id.0 }
    ensures err { IfErr result IsShortage }
{
    if !store.eq(a, b) {
        return Ok(None);
    }
    let answer = bridge(store, alloc, a, b)?;
    Ok(Some(answer))
}
