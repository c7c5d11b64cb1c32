//! Graphs as pictures.
ghost use Rattle.std.specs.Prelude.{◌≡◌, ◌<◌, ◌⊎◌, ◌↔◌, false, length, string_bytes, IsTrue, IfErr, IsErrOf, OnErr, OnOk};
ghost use Rattle.slotted_slots.specs.Error.{IsOutOfMemory, IsShortage};
ghost use Rattle.slotted_operations.specs.Graph.{MakesAtMost, OnlyTakesSlots};
ghost use Rattle.slotted_graph.specs.FiledNodes.{CanRunOutForDump, CanRunOutForEnodes, IsAppended, slots_for_dump, slots_for_enodes};

use crate::quoting::{push_quoted, push_slot};
use slotted_data::Analysis;
use slotted_graph::EGraph;
use slotted_languages::Language;
use slotted_slots::{AppliedId, Error, Id, Slot, SlotTable, SmallHashSet, SyntaxElem};
use std::alloc::Global;
use std::fmt::Write;

// Appends what a place of an e-node shows: a word, a slot, or a port for a child.
fn push_field(
    alloc: Global,
    out: &mut String,
    table: &SlotTable,
    element: &SyntaxElem,
    place: usize,
) -> Result<(), Error>
    ensures { IfErr result IsOutOfMemory }
{
    match element {
        SyntaxElem::String(word) => push_quoted(out, word),
        SyntaxElem::Slot(slot) => push_slot(alloc, out, table, *slot),
        SyntaxElem::AppliedId(_) => {
            write!(out, "<c{place}>")?;
            Ok(())
        }
    }
}

// Appends an e-node: a record with a field for each place.
fn push_node<L: Language>(
    alloc: Global,
    out: &mut String,
    table: &SlotTable,
    class: usize,
    index: usize,
    node: &L,
) -> Result<(), Error>
    ensures { IfErr result IsOutOfMemory }
{
    write!(out, "    n{class}_{index} [label=\"")?;
    let elements = node.to_syntax(alloc)?;
    for place in 0..elements.len() {
        if place > 0 {
            out.push('|')?;
        }
        push_field(alloc, out, table, &elements[place], place)?;
    }
    out.push_str("\"];\n")?;
    Ok(())
}

// Appends the names of a class's slots.
fn push_slots(
    alloc: Global,
    out: &mut String,
    table: &SlotTable,
    slots: &SmallHashSet<Slot>,
) -> Result<(), Error>
    ensures { IfErr result IsOutOfMemory }
{
    for slot in slots.as_slice() {
        out.push_str("\\ ")?;
        push_slot(alloc, out, table, *slot)?;
    }
    Ok(())
}

// Appends the cluster of a class: its slots and its e-nodes.
fn push_cluster<L: Language>(
    alloc: Global,
    out: &mut String,
    table: &SlotTable,
    class: usize,
    slots: &SmallHashSet<Slot>,
    nodes: &[L],
) -> Result<(), Error>
    ensures { IfErr result IsOutOfMemory }
{
    write!(out, "  subgraph cluster_{class} {{\n    label=\"id{class}")?;
    push_slots(alloc, out, table, slots)?;
    out.push_str("\";\n")?;
    for index in 0..nodes.len() {
        push_node(alloc, out, table, class, index, &nodes[index])?;
    }
    out.push_str("  }\n")?;
    Ok(())
}

// Appends the child's map: each slot of the child's class, with its name.
fn push_map(
    alloc: Global,
    out: &mut String,
    table: &SlotTable,
    child: &AppliedId,
) -> Result<(), Error>
    ensures { IfErr result IsOutOfMemory }
{
    for (slot, name) in child.m.iter() {
        out.push_str("\\ ")?;
        push_slot(alloc, out, table, slot)?;
        out.push('=')?;
        push_slot(alloc, out, table, name)?;
    }
    Ok(())
}

// Appends an edge to the class of a child, with the child's map. The edge ends at the cluster of the class, unless it
// comes from inside that cluster.
fn push_edge(
    alloc: Global,
    out: &mut String,
    table: &SlotTable,
    from: usize,
    child: &AppliedId,
) -> Result<(), Error>
    ensures { IfErr result IsOutOfMemory }
{
    let class = child.id.0;
    write!(out, " -> n{class}_0 [")?;
    if class != from {
        write!(out, "lhead=cluster_{class}, ")?;
    }
    out.push_str("label=\"")?;
    push_map(alloc, out, table, child)?;
    out.push_str("\"];\n")?;
    Ok(())
}

// Appends the edges of an e-node.
fn push_node_edges<L: Language>(
    alloc: Global,
    out: &mut String,
    table: &SlotTable,
    class: usize,
    index: usize,
    node: &L,
) -> Result<(), Error>
    ensures { IfErr result IsOutOfMemory }
{
    let elements = node.to_syntax(alloc)?;
    for place in 0..elements.len() {
        if let SyntaxElem::AppliedId(child) = &elements[place] {
            write!(out, "  n{class}_{index}:c{place}")?;
            push_edge(alloc, out, table, class, child)?;
        }
    }
    Ok(())
}

// Appends the edges of several e-nodes.
fn push_edges<L: Language>(
    alloc: Global,
    out: &mut String,
    table: &SlotTable,
    class: usize,
    nodes: &[L],
) -> Result<(), Error>
    ensures { IfErr result IsOutOfMemory }
{
    for index in 0..nodes.len() {
        push_node_edges(alloc, out, table, class, index, &nodes[index])?;
    }
    Ok(())
}

// Returns the e-nodes of a class, over the class's own slots.
fn own_nodes<L: Language, N: Analysis<L>>(graph: &mut EGraph<L, N>, id: Id) -> Result<Vec<L>, Error>
    requires well { graph.old.failed ≡ false }
    requires within { id.0 < length graph.old.image.canonical }
    ensures takes { OnlyTakesSlots graph.old graph.new }
    ensures count { MakesAtMost (slots_for_enodes graph.old id.0) graph.old.table graph.new.table }
    ensures full { IsErrOf result Error.OutOfSlots → CanRunOutForEnodes graph.old id.0 graph.new.table }
    ensures err { IfErr result IsShortage }
{
    let a = graph.mk_identity_applied_id(id)?;
    graph.enodes_applied(&a)
}

// Appends the cluster of a class, and its edges.
fn push_class<L: Language, N: Analysis<L>>(
    alloc: Global,
    out: &mut String,
    graph: &mut EGraph<L, N>,
    id: Id,
) -> Result<(), Error>
    requires well { graph.old.failed ≡ false }
    requires within { id.0 < length graph.old.image.canonical }
    ensures takes { OnlyTakesSlots graph.old graph.new }
    ensures count { MakesAtMost (slots_for_enodes graph.old id.0) graph.old.table graph.new.table }
    ensures full { IsErrOf result Error.OutOfSlots → CanRunOutForEnodes graph.old id.0 graph.new.table }
    ensures err { IfErr result IsShortage }
{
    let slots = graph.slots(id)?;
    let nodes = own_nodes(graph, id)?;
    push_cluster(alloc, out, graph.table(), id.0, &slots, &nodes)?;
    push_edges(alloc, out, graph.table(), id.0, &nodes)?;
    Ok(())
}

// Appends each live class.
fn push_classes<L: Language, N: Analysis<L>>(
    alloc: Global,
    out: &mut String,
    graph: &mut EGraph<L, N>,
) -> Result<(), Error>
    requires well { graph.old.failed ≡ false }
    ensures takes { OnlyTakesSlots graph.old graph.new }
    ensures count { MakesAtMost (slots_for_dump graph.old) graph.old.table graph.new.table }
    ensures full { IsErrOf result Error.OutOfSlots → CanRunOutForDump graph.old graph.new.table }
    ensures err { IfErr result IsShortage }
{
    for class in 0..graph.progress().number_of_classes {
        let id = Id(class);
        if graph.is_alive(id) {
            push_class(alloc, out, graph, id)?;
        }
    }
    Ok(())
}

/// Appends a picture of the graph, as text in the DOT language.
///
/// Each live class is a cluster with its slots, and each e-node a record. Each child is an edge to its class, labelled
/// by the slots of that class and their names. `dot -Tsvg` draws the picture. Since edges end at clusters, the layout
/// `dot` is needed.
pub fn graph_to_dot<L: Language, N: Analysis<L>>(
    alloc: Global,
    graph: &mut EGraph<L, N>,
    out: &mut String,
) -> Result<(), Error>
    // What stood in the text stays before the picture. If the call is refused, the text stays as it was.
    ensures appends { OnOk result (IsAppended (string_bytes out.old) (string_bytes out.new)) }
    ensures unchanged { OnErr result (string_bytes out.new ≡ string_bytes out.old) }

    // Only fresh slots are made, at most two for each place of all filed e-nodes. A refusal does not fail the graph.
    ensures takes { OnlyTakesSlots graph.old graph.new }
    ensures count { MakesAtMost (slots_for_dump graph.old) graph.old.table graph.new.table }
    ensures stays { IsTrue graph.old.failed → graph.new ≡ graph.old }

    ensures failed { IsErrOf result Error.Failed ↔ IsTrue graph.old.failed }
    ensures full { IsErrOf result Error.OutOfSlots → CanRunOutForDump graph.old graph.new.table }
    ensures only { IfErr result (λ e. (e ≡ Error.Failed) ⊎ IsShortage e) }
{
    if graph.is_failed() {
        return Err(Error::Failed);
    }
    let mut text = String::new(alloc);
    text.push_str("digraph egraph {\n  compound=true;\n  node [shape=record];\n")?;
    push_classes(alloc, &mut text, graph)?;
    text.push_str("}\n")?;
    out.push_str(&text)?;
    Ok(())
}
