//! Shrinking: a class whose canonical e-node lacks one of its slots is united with itself, until the e-node has each.
ghost use Rattle.std.specs.Prelude.{◌≡◌, ◌<◌, length, IfOk, IfErr, IsErrOf, OnOk};
ghost use Rattle.slotted_slots.specs.Error.{IsShortage};
ghost use Rattle.slotted_hashcons.specs.FoundNodes.{HasFoundNode, IsFoundNode};
ghost use Rattle.slotted_hashcons.specs.Sides.{HaveOneShape};
ghost use Rattle.slotted_classes.specs.Kept.{rows_from};
ghost use Rattle.slotted_classes.specs.Stored.{Stored};
ghost use Rattle.slotted_rebuilding.specs.Causes.{HasLargeClass};
ghost use Rattle.slotted_hashcons.specs.WellFiled.{IsWellFiled};
ghost use Rattle.slotted_rebuilding.specs.Turns.{IsFirst, LacksSlot, NarrowsOnce, NarrowsTo, ProvesCongruence};

use crate::twins::congruence;
use crate::uniting::unite;
use slotted_classes::Store;
use slotted_hashcons::covered::is_covered;
use slotted_hashcons::found::refound_node;
use slotted_hashcons::sides::sides;
use slotted_hashcons::{FoundNode, Hashcons};
use slotted_languages::Language;
use slotted_proofs::ProvenEq;
use slotted_slots::{Error, SlotMap};
use std::alloc::Global;

/// Returns the proof that two classes are equal, since their canonical e-nodes have one shape. The two maps have the
/// slots for the numbers of the shape.
pub fn twin_proof<L: Language>(
    store: &mut Store<L>,
    alloc: Global,
    left: usize,
    names: &SlotMap,
    right: usize,
    others: &SlotMap,
) -> Result<ProvenEq, Error>
    requires good { Stored store.old }
    requires canonical { store.old.rows ≡ rows_from 0 store.old.classes }
    requires left { left < length store.old.classes }
    requires right { right < length store.old.classes }
    requires shape { HaveOneShape store.old left names.now right others.now }
    ensures ok { IfOk result (ProvesCongruence store.old store.new left right) }
    ensures full { IsErrOf result Error.OutOfSlots → HasLargeClass store.old }
    ensures err { IfErr result IsShortage }
{
    let equation = sides(store, alloc, left, names, right, others)?;
    congruence(store, alloc, &equation)
}

// Unites the class with itself by its e-node, which lacks a slot.
fn narrow<L: Language>(
    store: &mut Store<L>,
    nodes: &mut Hashcons<L>,
    alloc: Global,
    class: usize,
    names: &SlotMap,
) -> Result<(), Error>
    requires good { IsWellFiled store.old nodes.old }
    requires first { IsFirst nodes.old class }
    requires node { HasFoundNode store.old class names.now }
    requires lacks { LacksSlot store.old class }
    ensures ok { OnOk result (NarrowsOnce store.old nodes.old store.new nodes.new) }
    ensures full { IsErrOf result Error.OutOfSlots → HasLargeClass store.old }
    ensures err { IfErr result IsShortage }
{
    let p = twin_proof(store, alloc, class, names, class, names)?;
    unite(store, nodes, alloc, p)
}

// Returns the canonical e-node of the first pending class, made from what is filed for the class. Few unions came
// after that was filed.
fn refound<L: Language>(
    store: &Store<L>,
    nodes: &Hashcons<L>,
    alloc: Global,
    class: usize,
) -> Result<FoundNode<L>, Error>
    requires good { IsWellFiled store.now nodes.now }
    requires first { IsFirst nodes.now class }
    ensures ok { IfOk result (λ n. IsFoundNode store.now class (L.form n.key) n.names) }
    ensures full { IsErrOf result Error.OutOfSlots → HasLargeClass store.now }
    ensures err { IfErr result IsShortage }
{
    match nodes.node(class) {
        Some((key, names)) => refound_node(store, alloc, key, names),
        None => unreachable!(),
    }
}

/// Returns the canonical e-node of a class, once it has each slot that the class uses. As long as it lacks one, the
/// class loses that slot.
pub fn narrowed<L: Language>(
    store: &mut Store<L>,
    nodes: &mut Hashcons<L>,
    alloc: Global,
    class: usize,
) -> Result<FoundNode<L>, Error>
    requires good { IsWellFiled store.old nodes.old }
    requires first { IsFirst nodes.old class }
    ensures ok { IfOk result (λ n. NarrowsTo store.old nodes.old class store.new nodes.new (L.form n.key) n.names) }
    ensures full { IsErrOf result Error.OutOfSlots → HasLargeClass store.old }
    ensures err { IfErr result IsShortage }
{
    let node = refound(store, nodes, alloc, class)?;
    if is_covered(store, class, &node.names) {
        return Ok(node);
    }
    narrow(store, nodes, alloc, class, &node.names)?;
    narrowed(store, nodes, alloc, class)
}
