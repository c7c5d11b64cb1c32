//! A graph as a text: for each live class its slots, its syntactic e-node, and its filed e-nodes.
ghost use Rattle.std.specs.Prelude.{◌≡◌, ◌<◌, [], length, string_bytes, All, IfOk, OnOk, OnErr, IfErr, IsErrOf};
ghost use Rattle.std.specs.List.{range_with_len};
ghost use Rattle.slotted_slots.specs.Error.{IsOutOfMemory, IsShortage};
ghost use Rattle.slotted_slots.specs.Table.{KnowsMore};
ghost use Rattle.slotted_nodes.specs.Form.{IsSmall};
ghost use Rattle.slotted_hashcons.specs.WellFiled.{IsWellFiled};
ghost use Rattle.slotted_lookup.specs.Reports.{class_sources};
ghost use Rattle.slotted_reports.specs.Nodes.{KnowsClassSlots, IsAppended};
ghost use Rattle.slotted_reports.specs.Nodes.{RunsOutForClasses, RunsOutForKeys, TakesForClasses, TakesForKeys};

use crate::nodes::enodes_applied;
use slotted_classes::Store;
use slotted_hashcons::Hashcons;
use slotted_languages::Language;
use slotted_lookup::reports;
use slotted_patterns::show::node_text;
use slotted_slots::{Error, Show, Slot, SlotTable, SmallHashSet};
use std::alloc::Global;
use std::fmt::Write;

// Returns the text of each child of an e-node.
fn child_texts<L: Language>(
    alloc: Global,
    table: &SlotTable,
    node: &L,
) -> Result<Vec<String>, Error>
    ensures { IfErr result IsOutOfMemory }
{
    let mut texts = Vec::new(alloc);
    for k in 0..node.applied_id_count() {
        let shown = node.applied_id(k).show(table);
        texts.push(format!(in alloc; "{shown}")?)?;
    }
    Ok(texts)
}

// Returns the text of an e-node, with applied ids for its children.
fn text_of<L: Language>(alloc: Global, table: &SlotTable, node: &L) -> Result<String, Error>
    ensures { IfErr result IsOutOfMemory }
{
    let children = child_texts(alloc, table, node)?;
    let elements = node.to_syntax(alloc)?;
    let text = node_text(alloc, &elements, &children, table)?;
    Ok(text)
}

// Appends the line of a class and its slots.
fn push_class(
    out: &mut String,
    table: &SlotTable,
    class: usize,
    slots: &SmallHashSet<Slot>,
) -> Result<(), Error>
    ensures { IfErr result IsOutOfMemory }
{
    write!(out, "\nid{class}(")?;
    let mut separator = "";
    for slot in slots.as_slice() {
        let shown = slot.show(table);
        write!(out, "{separator}{shown}")?;
        separator = ", ";
    }
    out.push_str("):\n")?;
    Ok(())
}

// Appends the line of a class's syntactic e-node.
fn push_canonical<L: Language>(
    alloc: Global,
    out: &mut String,
    table: &SlotTable,
    node: &L,
) -> Result<(), Error>
    ensures { IfErr result IsOutOfMemory }
{
    let text = text_of(alloc, table, node)?;
    write!(out, ">> {text}\n")?;
    Ok(())
}

// Returns the class that has filed an e-node, by its shape.
fn source_of<L: Language>(alloc: Global, nodes: &Hashcons<L>, node: &L) -> Result<usize, Error>
    requires { IsSmall (L.form node.now) }
    ensures { IfErr result IsOutOfMemory }
{
    let (key, _) = node.weak_shape(alloc)?;
    Ok(nodes.source_of(&key).unwrap_or(0))
}

// Appends the line of a filed e-node.
fn push_node<L: Language>(
    alloc: Global,
    out: &mut String,
    table: &SlotTable,
    nodes: &Hashcons<L>,
    node: &L,
) -> Result<(), Error>
    requires { IsSmall (L.form node.now) }
    ensures { IfErr result IsOutOfMemory }
{
    let source = source_of(alloc, nodes, node)?;
    let text = text_of(alloc, table, node)?;
    write!(out, " - {text}    [originally id{source}]\n")?;
    Ok(())
}

// Appends the lines of filed e-nodes.
fn push_nodes<L: Language>(
    alloc: Global,
    out: &mut String,
    table: &SlotTable,
    nodes: &Hashcons<L>,
    of_class: &[L],
) -> Result<(), Error>
    requires { All (λ n. IsSmall (L.form n)) of_class.now }
    ensures { IfErr result IsOutOfMemory }
{
    for i in 0..of_class.len() {
        push_node(alloc, out, table, nodes, &of_class[i])?;
    }
    Ok(())
}

// Returns the filed e-nodes of a class, over the class's own slots.
fn own_nodes<L: Language>(
    alloc: Global,
    store: &Store<L>,
    nodes: &Hashcons<L>,
    table: &mut SlotTable,
    class: usize,
) -> Result<Vec<L>, Error>
    requires good { IsWellFiled store.now nodes.now }
    requires quiet { nodes.now.waiting ≡ [] }
    requires known { KnowsClassSlots table.old store.now }
    requires within { class < length store.now.classes }
    ensures small { IfOk result (λ v. All (λ n. IsSmall (L.form n)) v.items) }
    ensures more { KnowsMore table.old table.new }
    ensures kept { table.new.names ≡ table.old.names }
    ensures takes { TakesForKeys nodes.now (class_sources store.now nodes.now class) table.old table.new }
    ensures full { IsErrOf result Error.OutOfSlots
        → RunsOutForKeys nodes.now (class_sources store.now nodes.now class) table.old table.new }
    ensures err { IfErr result IsShortage }
{
    let a = reports::mk_identity_applied_id(store, alloc, class)?;
    let answer = enodes_applied(store, nodes, alloc, table, &a)?;
    Ok(answer)
}

// Appends the lines of a class: its slots, its syntactic e-node and its filed e-nodes.
fn push_whole<L: Language>(
    alloc: Global,
    out: &mut String,
    store: &Store<L>,
    nodes: &Hashcons<L>,
    table: &mut SlotTable,
    class: usize,
) -> Result<(), Error>
    requires good { IsWellFiled store.now nodes.now }
    requires quiet { nodes.now.waiting ≡ [] }
    requires known { KnowsClassSlots table.old store.now }
    requires within { class < length store.now.classes }
    ensures more { KnowsMore table.old table.new }
    ensures kept { table.new.names ≡ table.old.names }
    ensures takes { TakesForKeys nodes.now (class_sources store.now nodes.now class) table.old table.new }
    ensures full { IsErrOf result Error.OutOfSlots
        → RunsOutForKeys nodes.now (class_sources store.now nodes.now class) table.old table.new }
    ensures err { IfErr result IsShortage }
{
    let slots = reports::slots_of(store, alloc, class)?;
    push_class(out, table, class, &slots)?;
    push_canonical(alloc, out, table, store.node_of(class))?;
    let of_class = own_nodes(alloc, store, nodes, table, class)?;
    push_nodes(alloc, out, table, nodes, &of_class)?;
    Ok(())
}

// Appends the lines of each live class.
fn push_live<L: Language>(
    alloc: Global,
    out: &mut String,
    store: &Store<L>,
    nodes: &Hashcons<L>,
    table: &mut SlotTable,
) -> Result<(), Error>
    requires good { IsWellFiled store.now nodes.now }
    requires quiet { nodes.now.waiting ≡ [] }
    requires known { KnowsClassSlots table.old store.now }
    ensures more { KnowsMore table.old table.new }
    ensures kept { table.new.names ≡ table.old.names }
    ensures takes { TakesForClasses store.now nodes.now
        (range_with_len 0 (length store.now.classes)) table.old table.new }
    ensures full { IsErrOf result Error.OutOfSlots
        → RunsOutForClasses store.now nodes.now (range_with_len 0 (length store.now.classes)) table.old table.new }
    ensures err { IfErr result IsShortage }
{
    out.push('\n')?;
    for class in 0..store.class_count() {
        if reports::is_alive(store, class) {
            push_whole(alloc, out, store, nodes, table, class)?;
        }
    }
    out.push('\n')?;
    Ok(())
}

/// Appends a text of all live classes, in ascending order. On an error the text stays as it was.
///
/// A line feed comes first and last. Each class has an empty line, a line with its number and slots, and a line `>> `
/// with its syntactic e-node. For each filed e-node follows a line ` - ` with the class that has filed it.
pub fn append_live<L: Language>(
    alloc: Global,
    out: &mut String,
    store: &Store<L>,
    nodes: &Hashcons<L>,
    table: &mut SlotTable,
) -> Result<(), Error>
    requires good { IsWellFiled store.now nodes.now }
    requires quiet { nodes.now.waiting ≡ [] }
    requires known { KnowsClassSlots table.old store.now }
    ensures appends { OnOk result (IsAppended (string_bytes out.old) (string_bytes out.new)) }
    ensures unchanged { OnErr result (string_bytes out.new ≡ string_bytes out.old) }
    ensures more { KnowsMore table.old table.new }
    ensures kept { table.new.names ≡ table.old.names }
    ensures takes { TakesForClasses store.now nodes.now
        (range_with_len 0 (length store.now.classes)) table.old table.new }
    ensures full { IsErrOf result Error.OutOfSlots
        → RunsOutForClasses store.now nodes.now (range_with_len 0 (length store.now.classes)) table.old table.new }
    ensures err { IfErr result IsShortage }
{
    let mut text = String::new(alloc);
    push_live(alloc, &mut text, store, nodes, table)?;
    out.push_str(&text)?;
    Ok(())
}
