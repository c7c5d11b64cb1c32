//! The filed e-nodes of a class: as a list with the names of an id, ascending by shape, and as a set over the class's
//! own slots.
ghost use Rattle.std.specs.Prelude.{◌≡◌, [], ◌∷◌, map, All, IfOk, IfErr, IsErrOf};
ghost use Rattle.std.specs.List.Sorted.{IsPermutation};
ghost use Rattle.slotted_slots.specs.Error.{IsOutOfMemory, IsShortage};
ghost use Rattle.slotted_slots.specs.Maps.{values};
ghost use Rattle.slotted_slots.specs.Table.{KnowsMore};
ghost use Rattle.slotted_languages.specs.Shape.{shape};
ghost use Rattle.slotted_model.specs.Correspondence.{AllDifferent};
ghost use Rattle.slotted_proofs.specs.Equations.{to_applied};
ghost use Rattle.slotted_hashcons.specs.Filed.{HasKey};
ghost use Rattle.slotted_hashcons.specs.FiledRows.{IsFiled};
ghost use Rattle.slotted_hashcons.specs.WellFiled.{IsWellFiled};
ghost use Rattle.slotted_classes.specs.Finding.{IsFindable};
ghost use Rattle.slotted_lookup.specs.Enodes.{AllKnownTo, AreFresh};
ghost use Rattle.slotted_lookup.specs.Reports.{class_sources};
ghost use Rattle.slotted_reports.specs.Nodes.{AreAppliedNodes, AreClassNodes, AreEnodes, AreNodesOf, Ascend, HasKeyOf, HasLargeKeyOf};
ghost use Rattle.slotted_reports.specs.Nodes.{IsAppliedNode, IsSourceOf, RunsOutForKeys, TakesForKeys, key_at};

use slotted_classes::Store;
use slotted_hashcons::Hashcons;
use slotted_languages::Language;
use slotted_lookup::enodes::{class_node, names_beside};
use slotted_lookup::reports::class_nodes;
use slotted_slots::{AppliedId, Error, SlotTable};
use std::alloc::Global;
use std::collections::HashSet;

// The order of sources.

// Returns the filed shape of each source, beside the source.
fn with_keys<'a, L: Language>(
    nodes: &'a Hashcons<L>,
    alloc: Global,
    sources: &[usize],
) -> Result<Vec<(&'a L, usize)>, Error>
    requires { All (IsFiled nodes.now.filed) sources.now }
    ensures sources { IfOk result (λ v. map (λ p. p.1) v.items ≡ sources.now) }
    ensures keys { IfOk result (λ v. All (HasKeyOf L.form nodes.now.filed) v.items) }
    ensures err { IfErr result IsOutOfMemory }
{
    let mut pairs = Vec::new(alloc);
    for i in 0..sources.len() {
        if let Some((key, _)) = nodes.node(sources[i]) {
            pairs.push((key, sources[i]))?;
        }
    }
    Ok(pairs)
}

// Returns the sources of such pairs.
fn sources_of<L: Language>(alloc: Global, pairs: &[(&L, usize)]) -> Result<Vec<usize>, Error>
    ensures ok { IfOk result (λ v. v.items ≡ map (λ p. p.1) pairs.now) }
    ensures err { IfErr result IsOutOfMemory }
{
    let mut sources = Vec::new(alloc);
    for i in 0..pairs.len() {
        sources.push(pairs[i].1)?;
    }
    Ok(sources)
}

// Returns the sources in ascending order of their filed shapes.
fn in_order<L: Language>(
    nodes: &Hashcons<L>,
    alloc: Global,
    sources: &[usize],
) -> Result<Vec<usize>, Error>
    requires { All (IsFiled nodes.now.filed) sources.now }
    ensures same { IfOk result (λ v. IsPermutation sources.now v.items) }
    ensures ascend { IfOk result (λ v. Ascend L.form L.cmp (map (key_at nodes.now.filed) v.items)) }
    ensures err { IfErr result IsOutOfMemory }
{
    let mut pairs = with_keys(nodes, alloc, sources)?;
    pairs.sort()?;
    let ordered = sources_of(alloc, &pairs)?;
    Ok(ordered)
}

// E-nodes with the names of an id.

// Returns the e-node that a source has filed, with the names of an id of its live class. Each other name is fresh.
fn filed_node<L: Language>(
    store: &Store<L>,
    nodes: &Hashcons<L>,
    alloc: Global,
    table: &mut SlotTable,
    source: usize,
    a: &AppliedId,
) -> Result<L, Error>
    requires good { IsWellFiled store.now nodes.now }
    requires quiet { nodes.now.waiting ≡ [] }
    requires source { IsSourceOf store.now nodes.now (to_applied a.now) source }
    requires findable { IsFindable store.now (to_applied a.now) }
    requires known { AllKnownTo table.old (values a.now.m) }
    ensures key { IfOk result (λ n. HasKey nodes.now.filed source (shape (L.form n)).0) }
    ensures ok { IfOk result
        (λ n. IsAppliedNode table.old table.new store.now nodes.now (to_applied a.now) (L.form n)) }
    ensures more { KnowsMore table.old table.new }
    ensures kept { table.new.names ≡ table.old.names }
    ensures takes { TakesForKeys nodes.now (source ∷ []) table.old table.new }
    ensures full { IsErrOf result Error.OutOfSlots → RunsOutForKeys nodes.now (source ∷ []) table.old table.new }
    ensures err { IfErr result IsShortage }
{
    match nodes.node(source) {
        Some((key, slots)) => {
            let names = names_beside(store, alloc, source, slots, a)?;
            let node = key.apply_slotmap_fresh(alloc, &names, table)?;
            let answer = node.refresh_private(alloc, table)?;
            Ok(answer)
        }
        None => unreachable!(),
    }
}

// Returns the e-node of each source, in turn.
fn filed_nodes<L: Language>(
    store: &Store<L>,
    nodes: &Hashcons<L>,
    alloc: Global,
    table: &mut SlotTable,
    sources: &[usize],
    a: &AppliedId,
) -> Result<Vec<L>, Error>
    requires good { IsWellFiled store.now nodes.now }
    requires quiet { nodes.now.waiting ≡ [] }
    requires sources { All (IsSourceOf store.now nodes.now (to_applied a.now)) sources.now }
    requires findable { IsFindable store.now (to_applied a.now) }
    requires known { AllKnownTo table.old (values a.now.m) }
    ensures ok { IfOk result
        (λ v. AreAppliedNodes L.form table.old table.new store.now nodes.now (to_applied a.now) sources.now v.items) }
    ensures more { KnowsMore table.old table.new }
    ensures kept { table.new.names ≡ table.old.names }
    ensures takes { TakesForKeys nodes.now sources.now table.old table.new }
    ensures full { IsErrOf result Error.OutOfSlots → RunsOutForKeys nodes.now sources.now table.old table.new }
    ensures err { IfErr result IsShortage }
{
    let mut answer = Vec::new(alloc);
    for i in 0..sources.len() {
        let node = filed_node(store, nodes, alloc, table, sources[i], a)?;
        answer.push(node)?;
    }
    Ok(answer)
}

/// Returns one e-node for each filed e-node of an id's class, with the names of the id, ascending by shape.
///
/// Redundant slots and binders get fresh names. A dead class has no filed e-nodes. Nothing may be pending.
pub fn enodes_applied<L: Language>(
    store: &Store<L>,
    nodes: &Hashcons<L>,
    alloc: Global,
    table: &mut SlotTable,
    a: &AppliedId,
) -> Result<Vec<L>, Error>
    requires good { IsWellFiled store.now nodes.now }
    requires quiet { nodes.now.waiting ≡ [] }
    requires findable { IsFindable store.now (to_applied a.now) }
    requires known { AllKnownTo table.old (values a.now.m) }
    ensures ok { IfOk result
        (λ v. AreEnodes L.form L.cmp table.old table.new store.now nodes.now (to_applied a.now) v.items) }
    ensures more { KnowsMore table.old table.new }
    ensures kept { table.new.names ≡ table.old.names }
    ensures takes { TakesForKeys nodes.now (class_sources store.now nodes.now a.now.id.0) table.old table.new }
    ensures full { IsErrOf result Error.OutOfSlots
        → RunsOutForKeys nodes.now (class_sources store.now nodes.now a.now.id.0) table.old table.new }
    ensures err { IfErr result IsShortage }
{
    let sources = class_nodes(store, nodes, alloc, a.id.0)?;
    let ordered = in_order(nodes, alloc, &sources)?;
    let answer = filed_nodes(store, nodes, alloc, table, &ordered, a)?;
    Ok(answer)
}

// E-nodes as a set.

// Returns the e-nodes of these sources, with the names of an id, as a set. No two of them have one shape.
fn node_set<L: Language>(
    store: &Store<L>,
    nodes: &Hashcons<L>,
    alloc: Global,
    sources: &[usize],
    a: &AppliedId,
) -> Result<HashSet<L>, Error>
    requires good { IsWellFiled store.now nodes.now }
    requires quiet { nodes.now.waiting ≡ [] }
    requires sources { All (IsSourceOf store.now nodes.now (to_applied a.now)) sources.now }
    requires different { AllDifferent sources.now }
    requires findable { IsFindable store.now (to_applied a.now) }
    requires fresh { AreFresh (values a.now.m) }
    ensures ok { IfOk result (λ s. AreClassNodes L.form store.now nodes.now (to_applied a.now) sources.now s.keys) }
    ensures full { IsErrOf result Error.OutOfSlots → HasLargeKeyOf nodes.now sources.now }
    ensures err { IfErr result IsShortage }
{
    let mut set = HashSet::new(alloc);
    for i in 0..sources.len() {
        let node = class_node(store, nodes, alloc, sources[i], a)?;
        set.insert(node)?;
    }
    Ok(set)
}

/// Returns the filed e-nodes of an id's class as a set, with the names of the id, which have to be fresh slots.
///
/// Redundant slots and binders keep their numbers, so that no slot table is needed. Nothing may be pending.
pub fn enodes<L: Language>(
    store: &Store<L>,
    nodes: &Hashcons<L>,
    alloc: Global,
    a: &AppliedId,
) -> Result<HashSet<L>, Error>
    requires good { IsWellFiled store.now nodes.now }
    requires quiet { nodes.now.waiting ≡ [] }
    requires findable { IsFindable store.now (to_applied a.now) }
    requires fresh { AreFresh (values a.now.m) }
    ensures ok { IfOk result (λ s. AreNodesOf L.form store.now nodes.now (to_applied a.now) s.keys) }
    ensures full { IsErrOf result Error.OutOfSlots
        → HasLargeKeyOf nodes.now (class_sources store.now nodes.now a.now.id.0) }
    ensures err { IfErr result IsShortage }
{
    let sources = class_nodes(store, nodes, alloc, a.id.0)?;
    let set = node_set(store, nodes, alloc, &sources, a)?;
    Ok(set)
}
