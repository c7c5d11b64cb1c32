//! Tests of which terms a graph can take in.
ghost use Rattle.std.specs.Prelude.{◌↔◌, ◌<◌, ◌≤◌, ◌+◌, length, map, IsTrue, All};
ghost use Rattle.slotted_theory.specs.Term.{term_size};
ghost use Rattle.slotted_nodes.specs.Form.{IsSmall};
ghost use Rattle.slotted_terms.specs.Valid.{IsValidTerm};
ghost use Rattle.slotted_operations.specs.Nodes.{IsChildPlace, IsKnownPlace, IsValidOver, HasKnownPlaces};
ghost use Rattle.slotted_operations.specs.SmallNodes.{HasSmallNodes, IsSmallValidTerm, IsTermOver, total_size};

use slotted_languages::Language;
use slotted_languages::shape::PLACES;
use slotted_slots::SlotTable;
use slotted_terms::expr::RecExpr;

// Returns whether the place is one of a child.
fn is_child_place<L: Language>(node: &L, i: usize) -> bool
    requires { IsSmall (L.form node.now) }
    ensures { IsTrue result ↔ IsChildPlace (L.form node.now).tree i }
{
    for k in 0..node.applied_id_count() {
        let place = node.applied_id_place(k);
        if place <= i && i < place + node.applied_id(k).m.len() {
            return true;
        }
    }
    false
}

// Returns whether the place is one of a child, or has a slot that the table knows.
fn is_known_place<L: Language>(table: &SlotTable, node: &L, i: usize) -> bool
    requires small { IsSmall (L.form node.now) }
    requires within { i < length (L.form node.now).names }
    ensures { IsTrue result ↔ IsKnownPlace table.now (L.form node.now) i }
{
    if is_child_place(node, i) {
        return true;
    }
    table.knows(node.slot(i))
}

// Returns whether the table knows the slots at the e-node's own places and binders. Children are not read.
fn own_places_are_known<L: Language>(table: &SlotTable, node: &L) -> bool
    requires { IsSmall (L.form node.now) }
    ensures { IsTrue result ↔ HasKnownPlaces table.now (L.form node.now) }
{
    for i in 0..node.slot_count() {
        if !is_known_place(table, node, i) {
            return false;
        }
    }
    true
}

// Returns whether the e-node has so many children, fewer than 2^30 places, and known slots at its own places.
fn is_node_over<L: Language>(table: &SlotTable, node: &L, count: usize) -> bool
    ensures { IsTrue result ↔ IsValidOver table.now (L.form node.now) count }
{
    if node.applied_id_count() != count || node.slot_count() >= PLACES {
        return false;
    }
    own_places_are_known(table, node)
}

/// Returns whether each e-node of the term has the right number of children, and own slots that the table knows.
///
/// The child ids inside the e-nodes are not read. An e-node with 2^30 places or more cannot be numbered, and is not
/// valid.
#[cycle(valid)]
pub fn is_valid_term<L: Language>(table: &SlotTable, term: &RecExpr<L>) -> bool
    ensures operator { 0 < term.now.op }
    ensures valid { IsTrue result → IsValidTerm table.now term.now }
    ensures exact { IsValidTerm table.now term.now → HasSmallNodes L.form term.now → IsTrue result }
{
    let mut left = Vec::new(*term.children.allocator());
    let mut next = term;
    loop {
        if !is_node_over(table, &next.node, next.children.len()) {
            return false;
        }
        if !push_or_ask_all(table, &next.children, &mut left) {
            return false;
        }
        match left.pop() {
            Some(other) => next = other,
            None => return true,
        }
    }
}

// Adds the term to those that are left. If memory for this is refused, the term is tested at once: only then does the
// test call itself.
#[cycle(valid)]
fn push_or_ask<'a, L: Language>(
    table: &SlotTable,
    term: &'a RecExpr<L>,
    left: &mut Vec<&'a RecExpr<L>>,
) -> bool
    ensures valid { IsTrue result → All (IsTermOver table.now) (map (λ t. t.now) left.new.items)
        → All (IsTermOver table.now) (map (λ t. t.now) left.old.items) × IsTermOver table.now term.now }
    ensures exact { All (IsSmallValidTerm L.form table.now) (map (λ t. t.now) left.old.items)
        → IsSmallValidTerm L.form table.now term.now
        → IsTrue result × All (IsSmallValidTerm L.form table.now) (map (λ t. t.now) left.new.items) }
    ensures light { total_size (map (λ t. t.now) left.new.items)
        ≤ total_size (map (λ t. t.now) left.old.items) + (1 + term_size term.now) }
{
    match left.push(term) {
        Ok(()) => true,
        Err(_) => is_valid_term(table, term),
    }
}

// Adds some terms to those that are left, in turn, as `push_or_ask` does.
#[cycle(valid)]
fn push_or_ask_all<'a, L: Language>(
    table: &SlotTable,
    terms: &'a [RecExpr<L>],
    left: &mut Vec<&'a RecExpr<L>>,
) -> bool
    ensures valid { IsTrue result → All (IsTermOver table.now) (map (λ t. t.now) left.new.items)
        → All (IsTermOver table.now) (map (λ t. t.now) left.old.items) × All (IsTermOver table.now) terms.now }
    ensures exact { All (IsSmallValidTerm L.form table.now) (map (λ t. t.now) left.old.items)
        → All (IsSmallValidTerm L.form table.now) terms.now
        → IsTrue result × All (IsSmallValidTerm L.form table.now) (map (λ t. t.now) left.new.items) }
    ensures light { total_size (map (λ t. t.now) left.new.items)
        ≤ total_size (map (λ t. t.now) left.old.items) + total_size terms.now }
{
    for term in terms {
        if !push_or_ask(table, term, left) {
            return false;
        }
    }
    true
}
