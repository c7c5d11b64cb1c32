//! Filing a class that was just made.
ghost use Rattle.std.specs.Prelude.{IfErr, IsErrOf, OnOk};
ghost use Rattle.slotted_slots.specs.Error.{IsOutOfMemory, IsShortage};
ghost use Rattle.slotted_hashcons.specs.Filed.{IsNewKey};
ghost use Rattle.slotted_hashcons.specs.FoundNodes.{IsFoundNode};
ghost use Rattle.slotted_rebuilding.specs.Causes.{HasLargeClass};
ghost use Rattle.slotted_rebuilding.specs.NewClasses.{BeginsAdding, FilesNewest, HasNewest, IsUnfiled};
ghost use Rattle.slotted_rebuilding.specs.Turns.{SharesKey};

use crate::rebuilding::rebuild;
use crate::turning::collision;
use crate::uniting::unite;
use slotted_classes::Store;
use slotted_hashcons::covered::is_covered;
use slotted_hashcons::found::found_node;
use slotted_hashcons::{FoundNode, Hashcons};
use slotted_languages::Language;
use slotted_slots::{Error, SlotMap};
use std::alloc::Global;

// Unites the newest class with another one, for which the shape of its e-node is filed.
fn join<L: Language>(
    store: &mut Store<L>,
    nodes: &mut Hashcons<L>,
    alloc: Global,
    class: usize,
    names: &SlotMap,
    other: usize,
) -> Result<(), Error>
    requires newest { HasNewest store.old nodes.old class }
    requires shape { SharesKey store.old nodes.old class names.now other }
    ensures ok { OnOk result (BeginsAdding store.old nodes.old store.new nodes.new) }
    ensures full { IsErrOf result Error.OutOfSlots → HasLargeClass store.old }
    ensures err { IfErr result IsShortage }
{
    let p = collision(store, nodes, alloc, class, names, other)?;
    unite(store, nodes, alloc, p)
}

// Files the e-node of the newest class by its shape, which no class has filed. If the e-node lacks a slot of the
// class, the class is pending, so that it will be shrunk.
fn file<L: Language>(
    store: &Store<L>,
    nodes: &mut Hashcons<L>,
    class: usize,
    node: FoundNode<L>,
) -> Result<(), Error>
    requires newest { HasNewest store.now nodes.old class }
    requires node { IsFoundNode store.now class (L.form node.key) node.names }
    requires new_key { IsNewKey nodes.old.filed (L.form node.key) }
    ensures ok { OnOk result (BeginsAdding store.now nodes.old store.now nodes.new) }
    ensures err { IfErr result IsOutOfMemory }
{
    let covered = is_covered(store, class, &node.names);
    nodes.file(class, node.key, node.names)?;
    if covered {
        return Ok(());
    }
    nodes.wait(class)
}

// Unites the newest class with the one that has its e-node filed. If there is none, files the e-node.
fn join_or_file<L: Language>(
    store: &mut Store<L>,
    nodes: &mut Hashcons<L>,
    alloc: Global,
    class: usize,
) -> Result<(), Error>
    requires newest { HasNewest store.old nodes.old class }
    ensures ok { OnOk result (BeginsAdding store.old nodes.old store.new nodes.new) }
    ensures full { IsErrOf result Error.OutOfSlots → HasLargeClass store.old }
    ensures err { IfErr result IsShortage }
{
    let node = found_node(store, alloc, class)?;
    match nodes.source_of(&node.key) {
        Some(other) => join(store, nodes, alloc, class, &node.names, other),
        None => file(store, nodes, class, node),
    }
}

/// Files the newest class by its canonical e-node, so that it is looked up by that. If another class has that e-node
/// filed, unites the two instead. Then rebuilds.
pub fn file_newest<L: Language>(
    store: &mut Store<L>,
    nodes: &mut Hashcons<L>,
    alloc: Global,
) -> Result<(), Error>
    requires unfiled { IsUnfiled store.old nodes.old }
    ensures ok { OnOk result (FilesNewest store.old nodes.old store.new nodes.new) }
    ensures full { IsErrOf result Error.OutOfSlots → HasLargeClass store.old }
    ensures err { IfErr result IsShortage }
{
    let class = nodes.class_count();
    nodes.add_class(alloc)?;
    join_or_file(store, nodes, alloc, class)?;
    rebuild(store, nodes, alloc)?;
    Ok(())
}
