//! Syntactic e-nodes and canonical terms, with the names of an id put in. Names that the id omits are filled in
//! first, by fresh slots.
ghost use Rattle.std.specs.Prelude.{◌≡◌, ◌<◌, ◌*◌, map, IfOk, IfErr, IsErrOf, All};
ghost use Rattle.slotted_theory.specs.Nameless.{nameless};
ghost use Rattle.slotted_slots.specs.Error.{IsShortage};
ghost use Rattle.slotted_slots.specs.Table.{KnowsMore, AllKnown};
ghost use Rattle.slotted_nodes.specs.Form.{IsSmall};
ghost use Rattle.slotted_terms.specs.Flat.{flat_of};
ghost use Rattle.slotted_terms.specs.Valid.{IsValidTerm};
ghost use Rattle.slotted_model.specs.Classes.{IsFull, term_of};
ghost use Rattle.slotted_operations.specs.Canonical.{IsNodeOf};
ghost use Rattle.slotted_languages.specs.Beside.{IsBeside};
ghost use Rattle.slotted_operations.specs.Good.{Good, HasFreshSlots, IsFullOver, IsIdOver, IsNodeOver};
ghost use Rattle.slotted_operations.specs.Graph.{MakesAtMost};
ghost use Rattle.slotted_classes.specs.Kept.{nodes_of};
ghost use Rattle.slotted_operations.specs.Nodes.{child_ids};
ghost use Rattle.slotted_proofs.specs.Equations.{to_applied};
ghost use Rattle.slotted_operations.specs.Syn.{GivesNode, GivesTerm, KnowsSlotsAnd, LacksForFilledNode, LacksForFilledTerm};
ghost use Rattle.slotted_operations.specs.Syn.{LacksForFullNode, LacksForFullTerm, MakesForNode, MakesForTerm};
ghost use Rattle.slotted_operations.specs.Opened.{IsOfTermOf, OpensId};
ghost use Rattle.slotted_operations.specs.Syn.{FreshNodeRunsOut, HasUnknownBinders, node_binders, slots_for_node, slots_for_term};

use crate::stacks::{assemble, push_children};
use slotted_classes::Store;
use slotted_languages::Language;
use slotted_lookup::filling::fill_id;
use slotted_slots::{AppliedId, Error, SlotTable};
use slotted_terms::expr::RecExpr;
use slotted_terms::flat::FlatNode;
use std::alloc::Global;

/// Returns the syntactic e-node of an id, which may omit names of redundant slots.
pub fn syn_node_of<L: Language>(
    store: &Store<L>,
    alloc: Global,
    table: &mut SlotTable,
    a: &AppliedId,
) -> Result<L, Error>
    requires good { Good store.now }
    requires fresh_slots { HasFreshSlots table.old store.now }
    requires findable { IsIdOver table.old store.now a.now }
    ensures ok { IfOk result (λ n. GivesNode table.old table.new store.now a.now (L.form n)) }
    ensures takes { MakesAtMost (slots_for_node (nodes_of store.now) (to_applied a.now)) table.old table.new }
    ensures more { KnowsMore table.old table.new }
    ensures full { IsErrOf result Error.OutOfSlots → LacksForFilledNode store.now a.now table.old table.new }
    ensures only { IfErr result IsShortage }
{
    let filled = fill_id(store, alloc, table, a)?;
    syn_node(store, alloc, table, &filled)
}

/// Returns the canonical term of an id, which may omit names of redundant slots.
pub fn syn_expr_of<L: Language>(
    store: &Store<L>,
    alloc: Global,
    table: &mut SlotTable,
    a: &AppliedId,
) -> Result<RecExpr<L>, Error>
    requires good { Good store.now }
    requires fresh_slots { HasFreshSlots table.old store.now }
    requires findable { IsIdOver table.old store.now a.now }
    ensures ok { IfOk result (λ t. GivesTerm table.old table.new store.now a.now t) }
    ensures takes { MakesAtMost (slots_for_term (nodes_of store.now) (to_applied a.now)) table.old table.new }
    ensures more { KnowsMore table.old table.new }
    ensures full { IsErrOf result Error.OutOfSlots → LacksForFilledTerm store.now a.now table.old table.new }
    ensures only { IfErr result IsShortage }
{
    let filled = fill_id(store, alloc, table, a)?;
    syn_expr(store, alloc, table, &filled)
}

/// Returns the syntactic e-node of a full id, with a fresh slot for each binder.
pub fn fresh_node<L: Language>(
    store: &Store<L>,
    alloc: Global,
    table: &mut SlotTable,
    a: &AppliedId,
) -> Result<L, Error>
    requires good { Good store.now }
    requires fresh_slots { HasFreshSlots table.old store.now }
    requires full { IsFullOver table.old store.now a.now }
    ensures node { IfOk result (λ n. IsNodeOf (nodes_of store.now) (to_applied a.now) (L.form n)) }
    ensures fresh { IfOk result (λ n. HasUnknownBinders table.old (L.form n)) }
    ensures valid { IfOk result (λ n. IsNodeOver table.new store.now (L.form n)) }
    ensures children { IfOk result (λ n. All (IsFull (nodes_of store.now)) (child_ids (L.form n))) }
    ensures takes { MakesAtMost (2 * node_binders (nodes_of store.now) a.now.id.0) table.old table.new }
    ensures more { KnowsMore table.old table.new }
    ensures full { IsErrOf result Error.OutOfSlots → FreshNodeRunsOut (nodes_of store.now) a.now.id.0 table.old table.new }
    ensures only { IfErr result IsShortage }
{
    let node = syn_node(store, alloc, table, a)?;
    node.refresh_private(alloc, table)
}

// Returns the syntactic e-node of the class of a full id, with the id's names put in.
fn syn_node<L: Language>(
    store: &Store<L>,
    alloc: Global,
    table: &mut SlotTable,
    a: &AppliedId,
) -> Result<L, Error>
    requires good { Good store.now }
    requires full { IsFull (nodes_of store.now) (to_applied a.now) }
    ensures node { IfOk result (λ n. IsNodeOf (nodes_of store.now) (to_applied a.now) (L.form n)) }

    // The children of the result are full, and its places can be numbered. The table knows its names if it knew those
    // that are put in.
    ensures children { IfOk result (λ n. All (IsFull (nodes_of store.now)) (child_ids (L.form n))) }
    ensures small { IfOk result (λ n. IsSmall (L.form n)) }
    ensures known { IfOk result (λ n. KnowsSlotsAnd table.old store.now a.now.m → AllKnown table.new (L.form n).names) }

    ensures takes { MakesForNode store.now a.now.id.0 a.now.m table.old table.new }
    ensures more { KnowsMore table.old table.new }
    ensures kept { table.new.names ≡ table.old.names }
    ensures full { IsErrOf result Error.OutOfSlots → LacksForFullNode store.now a.now.id.0 a.now.m table.old table.new }
    ensures only { IfErr result IsShortage }
{
    store.node_of(a.id.0).apply_slotmap(alloc, &a.m, table)
}

// Returns the canonical term of a full id: the syntactic e-node of its class, over the terms of its children.
fn syn_expr<L: Language>(
    store: &Store<L>,
    alloc: Global,
    table: &mut SlotTable,
    a: &AppliedId,
) -> Result<RecExpr<L>, Error>
    requires good { Good store.now }
    requires full { IsFull (nodes_of store.now) (to_applied a.now) }
    ensures term { IfOk result (λ t. nameless t ≡ term_of (nodes_of store.now) (to_applied a.now)) }

    // The term can be added to a graph over the table, if the table knew the names that are put in.
    ensures operator { IfOk result (λ t. 0 < t.op) }
    ensures valid { IfOk result (λ t. KnowsSlotsAnd table.old store.now a.now.m → IsValidTerm table.new t) }

    ensures takes { MakesForTerm store.now a.now.id.0 a.now.m table.old table.new }
    ensures more { KnowsMore table.old table.new }
    ensures kept { table.new.names ≡ table.old.names }
    ensures full { IsErrOf result Error.OutOfSlots → LacksForFullTerm store.now a.now.id.0 a.now.m table.old table.new }
    ensures only { IfErr result IsShortage }
{
    let nodes = syn_nodes(store, alloc, table, a)?;
    let term = assemble(alloc, nodes)?;
    Ok(term)
}

// Returns the e-nodes of the canonical term of a full id, each before those of the terms under it, which follow from
// the left.
fn syn_nodes<L: Language>(
    store: &Store<L>,
    alloc: Global,
    table: &mut SlotTable,
    a: &AppliedId,
) -> Result<Vec<FlatNode<L>>, Error>
    requires good { Good store.now }
    requires full { IsFull (nodes_of store.now) (to_applied a.now) }
    ensures nodes { IfOk result (λ v. IsOfTermOf table.old table.new store.now a.now (flat_of L.form v.items)) }
    ensures takes { MakesForTerm store.now a.now.id.0 a.now.m table.old table.new }
    ensures more { KnowsMore table.old table.new }
    ensures kept { table.new.names ≡ table.old.names }
    ensures full { IsErrOf result Error.OutOfSlots → LacksForFullTerm store.now a.now.id.0 a.now.m table.old table.new }
    ensures only { IfErr result IsShortage }
{
    let mut nodes = Vec::new(alloc);
    let mut left = Vec::new(alloc);
    let first = a.copy(alloc)?;
    left.push(first)?;
    while let Some(next) = left.pop() {
        let node = open_id(store, alloc, table, &next, &mut left)?;
        nodes.push(node)?;
    }
    Ok(nodes)
}

// Returns the syntactic e-node of the class of a full id, with the id's names put in. Adds its children to the ids
// that are left, the last one first.
fn open_id<L: Language>(
    store: &Store<L>,
    alloc: Global,
    table: &mut SlotTable,
    a: &AppliedId,
    left: &mut Vec<AppliedId>,
) -> Result<FlatNode<L>, Error>
    requires good { Good store.now }
    requires full { IsFull (nodes_of store.now) (to_applied a.now) }
    ensures node { IfOk result (λ n. OpensId table.old table.new store.now a.now (L.form n.node) n.count
        (map to_applied left.old.items) (map to_applied left.new.items)) }
    ensures takes { MakesForNode store.now a.now.id.0 a.now.m table.old table.new }
    ensures more { KnowsMore table.old table.new }
    ensures kept { table.new.names ≡ table.old.names }
    ensures full { IsErrOf result Error.OutOfSlots → LacksForFullNode store.now a.now.id.0 a.now.m table.old table.new }
    ensures only { IfErr result IsShortage }
{
    let mut node = syn_node(store, alloc, table, a)?;
    let count = node.applied_id_count();
    push_children(alloc, &node, left)?;
    forget_children(alloc, &mut node);
    Ok(FlatNode { node, count })
}

/// Replaces each child by the null id.
pub fn forget_children<L: Language>(alloc: Global, node: &mut L)
    ensures { IsBeside (L.form node.old) (L.form node.new) }
{
    for k in 0..node.applied_id_count() {
        node.set_applied_id(k, AppliedId::null(alloc));
    }
}
