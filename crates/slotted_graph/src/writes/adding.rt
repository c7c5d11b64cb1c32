//! Adding e-nodes and terms, and carrying data along.
ghost use Rattle.std.specs.Prelude.{◌≡◌, IfErr, IfOk, IsErrOf, OnOk};
ghost use Rattle.slotted_slots.specs.Error.{IsShortage};
ghost use Rattle.slotted_slots.specs.Table.{KnowsMore, AllKnown};
ghost use Rattle.slotted_hashcons.specs.NormalNodes.{HasFindableChildren};
ghost use Rattle.slotted_proofs.specs.Equations.{to_applied};
ghost use Rattle.slotted_terms.specs.Valid.{IsValidTerm, IsWhole};
ghost use Rattle.slotted_classes.specs.Kept.{nodes_of};
ghost use Rattle.slotted_data.specs.Meaning.{by_bare_nodes};
ghost use Rattle.slotted_data.specs.Carrying.{Carried, DataRests, HasCarriedAll};
ghost use Rattle.slotted_operations.specs.Adding.{RunsOutForFilled, slots_needed};
ghost use Rattle.slotted_operations.specs.Causes.{CanRunOutForTerm, IsUnknownIfFull, IsUnknownTerm};
ghost use Rattle.slotted_operations.specs.Good.{AddsFilled, AddsFound, AddsFoundTerm, AddsTerm, Good, HasFreshSlots, RestsWith};
ghost use Rattle.slotted_operations.specs.Good.{LacksForTermIn, RunsOutForUnknownIn, TakesForTermIn, image_of};
ghost use Rattle.slotted_operations.specs.Graph.{MakesAtMost};
ghost use Rattle.slotted_operations.specs.Places.{term_slots};

use slotted_classes::Store;
use slotted_data::{Analysis, ClassData, carry};
use slotted_hashcons::Hashcons;
use slotted_languages::Language;
use slotted_operations::{adding, looking_up};
use slotted_slots::{AppliedId, Error, SlotTable};
use slotted_terms::expr::RecExpr;
use std::alloc::Global;

/// Returns the class that was made with the e-node, whose children are filled first, with the e-node's names put in. If
/// there is none, adds a class.
pub fn add_filled<L: Language, N: Analysis<L>>(
    store: &mut Store<L>,
    nodes: &mut Hashcons<L>,
    data: &mut ClassData<N::Data>,
    analysis: &N,
    alloc: Global,
    table: &mut SlotTable,
    node: &L,
) -> Result<AppliedId, Error>
    requires good { Good store.old }
    requires rests { RestsWith store.old nodes.old }
    requires fresh_slots { HasFreshSlots table.old store.old }
    requires children { HasFindableChildren store.old (L.form node.now) }
    requires known { AllKnown table.old (L.form node.now).names }
    requires since { DataRests (by_bare_nodes (N.meaning analysis.now)) store.old nodes.old «data».old }
    ensures ok { IfOk result
        (λ a. AddsFilled table.old table.new store.old nodes.old store.new nodes.new (L.form node.now) (to_applied a)) }
    ensures carried { OnOk result
        (Carried (by_bare_nodes (N.meaning analysis.now)) store.old nodes.old store.new nodes.new «data».old «data».new) }
    ensures still { OnOk result (HasCarriedAll store.new «data».old → «data».new ≡ «data».old) }
    ensures more { KnowsMore table.old table.new }
    ensures takes { MakesAtMost (slots_needed (image_of store.old) (L.form node.now)) table.old table.new }
    ensures full { IsErrOf result Error.OutOfSlots
        → RunsOutForFilled (image_of store.old) (L.form node.now) table.old table.new }
    ensures unknown { IsErrOf result Error.OutOfSlots → IsUnknownIfFull (nodes_of store.old) (L.form node.now) }
    ensures err { IfErr result IsShortage }
{
    let made = looking_up::add_filled(store, nodes, alloc, table, node)?;
    carry(store, nodes, data, analysis, alloc)?;
    Ok(made)
}

/// Returns what the e-node is looked up as. If there is no answer, adds a class of the e-node, whose children are
/// filled first.
pub fn add<L: Language, N: Analysis<L>>(
    store: &mut Store<L>,
    nodes: &mut Hashcons<L>,
    data: &mut ClassData<N::Data>,
    analysis: &N,
    alloc: Global,
    table: &mut SlotTable,
    node: &L,
) -> Result<AppliedId, Error>
    requires good { Good store.old }
    requires rests { RestsWith store.old nodes.old }
    requires fresh_slots { HasFreshSlots table.old store.old }
    requires children { HasFindableChildren store.old (L.form node.now) }
    requires known { AllKnown table.old (L.form node.now).names }
    requires since { DataRests (by_bare_nodes (N.meaning analysis.now)) store.old nodes.old «data».old }
    ensures ok { IfOk result
        (λ a. AddsFound table.old table.new store.old nodes.old store.new nodes.new (L.form node.now) (to_applied a)) }
    ensures carried { OnOk result
        (Carried (by_bare_nodes (N.meaning analysis.now)) store.old nodes.old store.new nodes.new «data».old «data».new) }
    ensures still { OnOk result (HasCarriedAll store.new «data».old → «data».new ≡ «data».old) }
    ensures more { KnowsMore table.old table.new }
    ensures takes { MakesAtMost (slots_needed (image_of store.old) (L.form node.now)) table.old table.new }
    ensures full { IsErrOf result Error.OutOfSlots
        → RunsOutForUnknownIn table.old table.new store.old nodes.old (L.form node.now) }
    ensures err { IfErr result IsShortage }
{
    let id = looking_up::add(store, nodes, alloc, table, node)?;
    carry(store, nodes, data, analysis, alloc)?;
    Ok(id)
}

/// Returns what the term is looked up as, from its innermost e-nodes on. Adds a class for each e-node for which there
/// is no answer.
pub fn add_expr<L: Language, N: Analysis<L>>(
    store: &mut Store<L>,
    nodes: &mut Hashcons<L>,
    data: &mut ClassData<N::Data>,
    analysis: &N,
    alloc: Global,
    table: &mut SlotTable,
    term: &RecExpr<L>,
) -> Result<AppliedId, Error>
    requires good { Good store.old }
    requires rests { RestsWith store.old nodes.old }
    requires fresh_slots { HasFreshSlots table.old store.old }
    requires valid { IsValidTerm table.old term.now }
    requires since { DataRests (by_bare_nodes (N.meaning analysis.now)) store.old nodes.old «data».old }
    ensures ok { IfOk result
        (λ a. AddsFoundTerm table.old store.old nodes.old table.new store.new nodes.new term.now (to_applied a)) }
    ensures carried { OnOk result
        (Carried (by_bare_nodes (N.meaning analysis.now)) store.old nodes.old store.new nodes.new «data».old «data».new) }
    ensures still { OnOk result (HasCarriedAll store.new «data».old → «data».new ≡ «data».old) }
    ensures more { KnowsMore table.old table.new }
    ensures takes { TakesForTermIn term.now table.old store.old nodes.old table.new }
    ensures full { IsErrOf result Error.OutOfSlots → LacksForTermIn term.now table.old store.old nodes.old table.new }
    ensures err { IfErr result IsShortage }
{
    let answer = looking_up::add_expr(store, nodes, alloc, table, term)?;
    carry(store, nodes, data, analysis, alloc)?;
    Ok(answer)
}

/// Returns the id of the term. Its e-nodes are added from below, as `add_syn` of `slotted_operations` does.
pub fn add_syn_expr<L: Language, N: Analysis<L>>(
    store: &mut Store<L>,
    nodes: &mut Hashcons<L>,
    data: &mut ClassData<N::Data>,
    analysis: &N,
    alloc: Global,
    table: &mut SlotTable,
    term: &RecExpr<L>,
) -> Result<AppliedId, Error>
    requires good { Good store.old }
    requires rests { RestsWith store.old nodes.old }
    requires fresh_slots { HasFreshSlots table.old store.old }
    requires whole { IsWhole term.now.args }
    requires since { DataRests (by_bare_nodes (N.meaning analysis.now)) store.old nodes.old «data».old }
    ensures ok { IfOk result
        (λ a. AddsTerm table.old table.new store.old nodes.old store.new nodes.new term.now (to_applied a)) }
    ensures carried { OnOk result
        (Carried (by_bare_nodes (N.meaning analysis.now)) store.old nodes.old store.new nodes.new «data».old «data».new) }
    ensures still { OnOk result (HasCarriedAll store.new «data».old → «data».new ≡ «data».old) }
    ensures more { KnowsMore table.old table.new }
    ensures takes { MakesAtMost (term_slots term.now) table.old table.new }
    ensures full { IsErrOf result Error.OutOfSlots
        → CanRunOutForTerm (image_of store.old) term.now table.old table.new }
    ensures unknown { IsErrOf result Error.OutOfSlots → IsUnknownTerm (image_of store.old) term.now }
    ensures err { IfErr result IsShortage }
{
    let answer = adding::add_syn_expr(store, nodes, alloc, table, term)?;
    carry(store, nodes, data, analysis, alloc)?;
    Ok(answer)
}
