//! Adding by look-up, over ids that may omit names of redundant slots.
ghost use Rattle.std.specs.Prelude.{IfErr, IfOk, IsErrOf};
ghost use Rattle.slotted_slots.specs.Error.{IsShortage};
ghost use Rattle.slotted_slots.specs.Table.{KnowsMore, AllKnown};
ghost use Rattle.slotted_hashcons.specs.NormalNodes.{HasFindableChildren};
ghost use Rattle.slotted_proofs.specs.Equations.{to_applied};
ghost use Rattle.slotted_terms.specs.Valid.{IsValidTerm};
ghost use Rattle.slotted_classes.specs.Kept.{nodes_of};
ghost use Rattle.slotted_operations.specs.Adding.{RunsOutForFilled, slots_needed};
ghost use Rattle.slotted_operations.specs.Causes.{IsUnknownIfFull};
ghost use Rattle.slotted_operations.specs.Good.{AddsFilled, AddsFound, AddsFoundTerm, Good, HasFreshSlots, RestsWith, image_of};
ghost use Rattle.slotted_operations.specs.Good.{LacksForTermIn, RunsOutForUnknownIn, TakesForTermIn};
ghost use Rattle.slotted_operations.specs.Graph.{MakesAtMost};

use crate::adding::{add_syn, has_full_children};
use crate::stacks::over_last;
use slotted_classes::Store;
use slotted_hashcons::Hashcons;
use slotted_languages::Language;
use slotted_lookup::filling::fill_node;
use slotted_lookup::lookup::look_up;
use slotted_slots::{AppliedId, Error, SlotTable};
use slotted_terms::expr::RecExpr;
use slotted_terms::flat::flatten;
use std::alloc::Global;

// Fills the children of the e-node, and returns the class that was made with it, as `add_filled` does.
fn fill_and_add<L: Language>(
    store: &mut Store<L>,
    nodes: &mut Hashcons<L>,
    alloc: Global,
    table: &mut SlotTable,
    node: &L,
) -> Result<AppliedId, Error>
    requires good { Good store.old }
    requires rests { RestsWith store.old nodes.old }
    requires fresh_slots { HasFreshSlots table.old store.old }
    requires children { HasFindableChildren store.old (L.form node.now) }
    requires known { AllKnown table.old (L.form node.now).names }
    ensures ok { IfOk result
        (λ a. AddsFilled table.old table.new store.old nodes.old store.new nodes.new (L.form node.now) (to_applied a)) }
    ensures more { KnowsMore table.old table.new }
    ensures takes { MakesAtMost (slots_needed (image_of store.old) (L.form node.now)) table.old table.new }
    ensures full { IsErrOf result Error.OutOfSlots
        → RunsOutForFilled (image_of store.old) (L.form node.now) table.old table.new }
    ensures unknown { IsErrOf result Error.OutOfSlots → IsUnknownIfFull (nodes_of store.old) (L.form node.now) }
    ensures err { IfErr result IsShortage }
{
    let filled = fill_node(store, alloc, table, node)?;
    let answer = add_syn(store, nodes, alloc, table, &filled)?;
    Ok(answer)
}

/// Returns the class that was made with the e-node, whose children are filled first, with the e-node's names put in.
/// If there is none, adds a class. An e-node over full ids is not copied.
pub fn add_filled<L: Language>(
    store: &mut Store<L>,
    nodes: &mut Hashcons<L>,
    alloc: Global,
    table: &mut SlotTable,
    node: &L,
) -> Result<AppliedId, Error>
    requires good { Good store.old }
    requires rests { RestsWith store.old nodes.old }
    requires fresh_slots { HasFreshSlots table.old store.old }
    requires children { HasFindableChildren store.old (L.form node.now) }
    requires known { AllKnown table.old (L.form node.now).names }
    ensures ok { IfOk result
        (λ a. AddsFilled table.old table.new store.old nodes.old store.new nodes.new (L.form node.now) (to_applied a)) }
    ensures more { KnowsMore table.old table.new }
    ensures takes { MakesAtMost (slots_needed (image_of store.old) (L.form node.now)) table.old table.new }
    ensures full { IsErrOf result Error.OutOfSlots
        → RunsOutForFilled (image_of store.old) (L.form node.now) table.old table.new }
    ensures unknown { IsErrOf result Error.OutOfSlots → IsUnknownIfFull (nodes_of store.old) (L.form node.now) }
    ensures err { IfErr result IsShortage }
{
    if has_full_children(store, node) {
        return add_syn(store, nodes, alloc, table, node);
    }
    fill_and_add(store, nodes, alloc, table, node)
}

/// Returns what the e-node is looked up as. If there is no answer, adds a class of the e-node, whose children are
/// filled first.
pub fn add<L: Language>(
    store: &mut Store<L>,
    nodes: &mut Hashcons<L>,
    alloc: Global,
    table: &mut SlotTable,
    node: &L,
) -> Result<AppliedId, Error>
    requires good { Good store.old }
    requires rests { RestsWith store.old nodes.old }
    requires fresh_slots { HasFreshSlots table.old store.old }
    requires children { HasFindableChildren store.old (L.form node.now) }
    requires known { AllKnown table.old (L.form node.now).names }
    ensures ok { IfOk result
        (λ a. AddsFound table.old table.new store.old nodes.old store.new nodes.new (L.form node.now) (to_applied a)) }
    ensures more { KnowsMore table.old table.new }
    ensures takes { MakesAtMost (slots_needed (image_of store.old) (L.form node.now)) table.old table.new }
    ensures full { IsErrOf result Error.OutOfSlots
        → RunsOutForUnknownIn table.old table.new store.old nodes.old (L.form node.now) }
    ensures err { IfErr result IsShortage }
{
    if let Some(answer) = look_up(store, nodes, alloc, node)? {
        return Ok(answer);
    }
    add_filled(store, nodes, alloc, table, node)?;
    match look_up(store, nodes, alloc, node)? {
        Some(answer) => Ok(answer),
        None => unreachable!(),
    }
}

/// Returns what the term is looked up as, from its innermost e-nodes on. Adds a class for each e-node for which there
/// is no answer.
pub fn add_expr<L: Language>(
    store: &mut Store<L>,
    nodes: &mut Hashcons<L>,
    alloc: Global,
    table: &mut SlotTable,
    term: &RecExpr<L>,
) -> Result<AppliedId, Error>
    requires good { Good store.old }
    requires rests { RestsWith store.old nodes.old }
    requires fresh_slots { HasFreshSlots table.old store.old }
    requires valid { IsValidTerm table.old term.now }
    ensures ok { IfOk result
        (λ a. AddsFoundTerm table.old store.old nodes.old table.new store.new nodes.new term.now (to_applied a)) }
    ensures more { KnowsMore table.old table.new }
    ensures takes { TakesForTermIn term.now table.old store.old nodes.old table.new }
    ensures full { IsErrOf result Error.OutOfSlots → LacksForTermIn term.now table.old store.old nodes.old table.new }
    ensures err { IfErr result IsShortage }
{
    let mut left = flatten(alloc, term)?;
    let mut answers = Vec::new(alloc);
    while let Some(next) = left.pop() {
        let node = over_last(next, &mut answers);
        let answer = add(store, nodes, alloc, table, &node)?;
        answers.push(answer)?;
    }
    match answers.pop() {
        Some(answer) => Ok(answer),
        None => unreachable!(),
    }
}
