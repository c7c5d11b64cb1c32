//! Tests of which ids and e-nodes are of the graph, and adding by syntactic e-nodes.
ghost use Rattle.std.specs.Prelude.{◌≡◌, ◌↔◌, ◌+◌, length, IsTrue, IfOk, IfErr, OnOk, IsErrOf, All};
ghost use Rattle.slotted_slots.specs.Error.{IsOutOfMemory, IsShortage};
ghost use Rattle.slotted_slots.specs.Maps.{keys, values};
ghost use Rattle.slotted_slots.specs.Table.{KnowsMore};
ghost use Rattle.slotted_model.specs.Classes.{IsFull};
ghost use Rattle.slotted_proofs.specs.Equations.{to_applied};
ghost use Rattle.slotted_terms.specs.Valid.{IsWhole};
ghost use Rattle.slotted_operations.specs.Causes.{CanRunOutForNode, CanRunOutForTerm, IsUnknownNode, IsUnknownTerm};
ghost use Rattle.slotted_operations.specs.Graph.{MakesAtMost, RunsOut, RunsOutForNode};
ghost use Rattle.slotted_operations.specs.Good.{Good, RestsWith, HasFreshSlots, IsFullOver, IsIdOver, IsNodeOver};
ghost use Rattle.slotted_operations.specs.Good.{Makes, Adds, AddsTerm, image_of};
ghost use Rattle.slotted_classes.specs.Finding.{IsFindable};
ghost use Rattle.slotted_classes.specs.Kept.{nodes_of};
ghost use Rattle.slotted_classes.specs.Names.{between, fresh_slots};
ghost use Rattle.slotted_operations.specs.Nodes.{child_ids};
ghost use Rattle.slotted_operations.specs.Places.{term_slots};

use crate::names::{
    keys_are_values, places_are_known, renew_values, values_are_keys, values_are_known,
};
use crate::stacks::over_last;
use slotted_classes::names::map_between;
use slotted_classes::{Row, Store};
use slotted_hashcons::Hashcons;
use slotted_languages::Language;
use slotted_languages::shape::PLACES;
use slotted_rebuilding::newest::file_newest;
use slotted_rebuilding::unions::shortening::compress_paths;
use slotted_slots::{AppliedId, Error, Id, SlotMap, SlotTable};
use slotted_terms::expr::RecExpr;
use slotted_terms::flat::flatten;
use std::alloc::Global;

// Tests.

/// Returns whether the id is full: it has different names for exactly the canonical slots of its class.
pub fn is_full<L: Language>(store: &Store<L>, a: &AppliedId) -> bool
    requires { Good store.now }
    ensures { IsTrue result ↔ IsFull (nodes_of store.now) (to_applied a.now) }
{
    if a.id.0 >= store.class_count() {
        return false;
    }
    if !values_are_keys(store.names_of(a.id.0), &a.m) {
        return false;
    }
    a.m.is_bijection()
}

/// Returns whether the id is full, and the table knows its names.
pub fn is_full_id<L: Language>(store: &Store<L>, table: &SlotTable, a: &AppliedId) -> bool
    requires { Good store.now }
    ensures { IsTrue result ↔ IsFullOver table.now store.now a.now }
{
    is_full(store, a) && values_are_known(table, &a.m)
}

// Returns whether the id has different names for canonical slots of its class, among them all slots that the class
// uses.
fn can_be_found<L: Language>(store: &Store<L>, a: &AppliedId) -> bool
    requires { Good store.now }
    ensures { IsTrue result ↔ IsFindable store.now (to_applied a.now) }
{
    if a.id.0 >= store.class_count() {
        return false;
    }
    if !keys_are_values(&a.m, store.names_of(a.id.0)) {
        return false;
    }
    store.has_found_names(a) && a.m.is_bijection()
}

/// Returns whether the id is valid: it has different known names for canonical slots of its class, among them all
/// slots that the class uses.
pub fn is_valid<L: Language>(store: &Store<L>, table: &SlotTable, a: &AppliedId) -> bool
    requires { Good store.now }
    ensures { IsTrue result ↔ IsIdOver table.now store.now a.now }
{
    can_be_found(store, a) && values_are_known(table, &a.m)
}

// Returns whether `find` can map each child of the e-node.
fn children_can_be_found<L: Language>(store: &Store<L>, node: &L) -> bool
    requires { Good store.now }
    ensures { IsTrue result ↔ All (IsFindable store.now) (child_ids (L.form node.now)) }
{
    for k in 0..node.applied_id_count() {
        if !can_be_found(store, node.applied_id(k)) {
            return false;
        }
    }
    true
}

/// Returns whether the e-node has fewer than 2^30 places, known slots, and children that `find` can map.
pub fn is_valid_node<L: Language>(store: &Store<L>, table: &SlotTable, node: &L) -> bool
    requires { Good store.now }
    ensures { IsTrue result ↔ IsNodeOver table.now store.now (L.form node.now) }
{
    node.slot_count() < PLACES
        && places_are_known(table, node)
        && children_can_be_found(store, node)
}

/// Returns whether each child of the e-node is full.
pub fn has_full_children<L: Language>(store: &Store<L>, node: &L) -> bool
    requires { Good store.now }
    ensures { IsTrue result ↔ All (IsFull (nodes_of store.now)) (child_ids (L.form node.now)) }
{
    for k in 0..node.applied_id_count() {
        if !is_full(store, node.applied_id(k)) {
            return false;
        }
    }
    true
}

// Adding.

// Returns the class that was made with an e-node of this shape, with the e-node's names put in. If there is none,
// makes a class, which is not filed yet.
fn made<L: Language>(
    store: &mut Store<L>,
    alloc: Global,
    table: &mut SlotTable,
    node: &L,
) -> Result<AppliedId, Error>
    requires good { Good store.old }
    requires fresh_slots { HasFreshSlots table.old store.old }
    requires children { All (IsFull (nodes_of store.old)) (child_ids (L.form node.now)) }
    ensures ok { IfOk result (λ a. Makes table.old table.new store.old store.new (L.form node.now) (to_applied a)) }
    ensures more { KnowsMore table.old table.new }
    ensures takes { MakesAtMost (length (L.form node.now).names) table.old table.new }
    ensures full { IsErrOf result Error.OutOfSlots → RunsOutForNode (L.form node.now) table.old table.new }
    ensures unknown { IsErrOf result Error.OutOfSlots → IsUnknownNode (nodes_of store.old) (L.form node.now) }
    ensures err { IfErr result IsShortage }
{
    let (shape, names) = node.weak_shape(alloc)?;
    if let Some(row) = store.row(&shape) {
        return class_of_row(alloc, row, &names);
    }
    let (slots, m) = fresh_names(alloc, table, &names)?;
    let id = Id(store.class_count());
    store.make_class(alloc, shape, slots)?;
    Ok(AppliedId { id, m })
}

// Returns the names with a fresh slot in place of each value, and the map from these slots to the values.
fn fresh_names(
    alloc: Global,
    table: &mut SlotTable,
    names: &SlotMap,
) -> Result<(SlotMap, SlotMap), Error>
    ensures keys { IfOk result (λ r. keys r.0 ≡ keys names.now) }
    ensures values { IfOk result (λ r. values r.0 ≡ fresh_slots table.old.fresh (length names.now)) }
    ensures map { IfOk result (λ r. r.1 ≡ between r.0 names.now) }
    ensures table { OnOk result (table.new.fresh ≡ table.old.fresh + length names.now) }
    ensures more { KnowsMore table.old table.new }
    ensures takes { MakesAtMost (length names.now) table.old table.new }
    ensures full { IsErrOf result Error.OutOfSlots → RunsOut (length names.now) table.old table.new }
    ensures err { IfErr result IsShortage }
{
    let mut slots = names.copy(alloc)?;
    renew_values(&mut slots, table)?;
    let m = map_between(alloc, &slots, names)?;
    Ok((slots, m))
}

/// Returns the class that was made with an e-node of this shape, with the e-node's names put in. If there is none,
/// adds a class, files it, and rebuilds.
pub fn add_syn<L: Language>(
    store: &mut Store<L>,
    nodes: &mut Hashcons<L>,
    alloc: Global,
    table: &mut SlotTable,
    node: &L,
) -> Result<AppliedId, Error>
    requires good { Good store.old }
    requires rests { RestsWith store.old nodes.old }
    requires fresh_slots { HasFreshSlots table.old store.old }
    requires children { All (IsFull (nodes_of store.old)) (child_ids (L.form node.now)) }
    ensures ok { IfOk result
        (λ a. Adds table.old table.new store.old nodes.old store.new nodes.new (L.form node.now) (to_applied a)) }
    ensures more { KnowsMore table.old table.new }
    ensures takes { MakesAtMost (length (L.form node.now).names) table.old table.new }
    ensures full { IsErrOf result Error.OutOfSlots
        → CanRunOutForNode (image_of store.old) (L.form node.now) table.old table.new }
    ensures unknown { IsErrOf result Error.OutOfSlots → IsUnknownNode (nodes_of store.old) (L.form node.now) }
    ensures err { IfErr result IsShortage }
{
    let answer = made(store, alloc, table, node)?;
    if nodes.class_count() == store.class_count() {
        return Ok(answer);
    }
    file_newest(store, nodes, alloc)?;
    compress_paths(store, alloc)?;
    Ok(answer)
}

/// Returns the id of the term. Its e-nodes are added from below, as `add_syn` does.
pub fn add_syn_expr<L: Language>(
    store: &mut Store<L>,
    nodes: &mut Hashcons<L>,
    alloc: Global,
    table: &mut SlotTable,
    term: &RecExpr<L>,
) -> Result<AppliedId, Error>
    requires good { Good store.old }
    requires rests { RestsWith store.old nodes.old }
    requires fresh_slots { HasFreshSlots table.old store.old }
    requires whole { IsWhole term.now.args }
    ensures ok { IfOk result
        (λ a. AddsTerm table.old table.new store.old nodes.old store.new nodes.new term.now (to_applied a)) }
    ensures more { KnowsMore table.old table.new }
    ensures takes { MakesAtMost (term_slots term.now) table.old table.new }
    ensures full { IsErrOf result Error.OutOfSlots
        → CanRunOutForTerm (image_of store.old) term.now table.old table.new }
    ensures unknown { IsErrOf result Error.OutOfSlots → IsUnknownTerm (image_of store.old) term.now }
    ensures err { IfErr result IsShortage }
{
    let mut left = flatten(alloc, term)?;
    let mut answers = Vec::new(alloc);
    while let Some(next) = left.pop() {
        let node = over_last(next, &mut answers);
        let answer = add_syn(store, nodes, alloc, table, &node)?;
        answers.push(answer)?;
    }
    match answers.pop() {
        Some(answer) => Ok(answer),
        None => unreachable!(),
    }
}

// Returns the class of a row, with these names for the numbers of the row's shape.
fn class_of_row(alloc: Global, row: &Row, names: &SlotMap) -> Result<AppliedId, Error>
    requires { length row.now.names ≡ length names.now }
    ensures ok { IfOk result (λ a. to_applied a ≡ (row.now.source.0, between row.now.names names.now)) }
    ensures err { IfErr result IsOutOfMemory }
{
    Ok(AppliedId {
        id: row.source,
        m: map_between(alloc, &row.names, names)?,
    })
}
