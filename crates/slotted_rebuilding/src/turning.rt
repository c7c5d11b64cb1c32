//! The turn of a pending class, whose e-node is filed anew.
ghost use Rattle.std.specs.Prelude.{◌≢◌, ◌<◌, length, IfOk, IfErr, IsErrOf, OnOk};
ghost use Rattle.slotted_slots.specs.Error.{IsShortage};
ghost use Rattle.slotted_rebuilding.specs.Causes.{HasLargeClass};
ghost use Rattle.slotted_hashcons.specs.WellFiled.{IsWellFiled};
ghost use Rattle.slotted_rebuilding.specs.Turns.{IsFirst, ProvesCongruence, SharesKey, TakesTurns};

use crate::narrowing::{narrowed, twin_proof};
use crate::uniting::unite;
use slotted_classes::Store;
use slotted_hashcons::Hashcons;
use slotted_languages::Language;
use slotted_proofs::ProvenEq;
use slotted_slots::{Error, SlotMap};
use std::alloc::Global;

/// Returns the proof that a class equals another one, for which the shape of its e-node is filed.
pub(crate) fn collision<L: Language>(
    store: &mut Store<L>,
    nodes: &Hashcons<L>,
    alloc: Global,
    class: usize,
    names: &SlotMap,
    other: usize,
) -> Result<ProvenEq, Error>
    requires good { IsWellFiled store.old nodes.now }
    requires within { class < length store.old.classes }
    requires shape { SharesKey store.old nodes.now class names.now other }
    ensures ok { IfOk result (ProvesCongruence store.old store.new class other) }
    ensures full { IsErrOf result Error.OutOfSlots → HasLargeClass store.old }
    ensures err { IfErr result IsShortage }
{
    match nodes.node(other) {
        Some((_, others)) => twin_proof(store, alloc, class, names, other, others),
        None => unreachable!(),
    }
}

// Unites the first pending class with another one, for which the shape of its e-node is filed. Its own e-node is filed
// no more, nor counted for the union.
fn collide<L: Language>(
    store: &mut Store<L>,
    nodes: &mut Hashcons<L>,
    alloc: Global,
    class: usize,
    names: &SlotMap,
    other: usize,
) -> Result<(), Error>
    requires good { IsWellFiled store.old nodes.old }
    requires first { IsFirst nodes.old class }
    requires shape { SharesKey store.old nodes.old class names.now other }
    requires different { other ≢ class }
    ensures ok { OnOk result (TakesTurns store.old nodes.old store.new nodes.new) }
    ensures full { IsErrOf result Error.OutOfSlots → HasLargeClass store.old }
    ensures err { IfErr result IsShortage }
{
    let owner = store.find_class(class);
    let p = collision(store, nodes, alloc, class, names, other)?;
    nodes.uncount(class, owner);
    unite(store, nodes, alloc, p)?;
    nodes.remove(class);
    Ok(())
}

/// Lets the first pending class take its turn: files its e-node as the present canonical one. If another class has
/// that e-node filed, unites the two instead.
pub fn take_turn<L: Language>(
    store: &mut Store<L>,
    nodes: &mut Hashcons<L>,
    alloc: Global,
    class: usize,
) -> Result<(), Error>
    requires good { IsWellFiled store.old nodes.old }
    requires first { IsFirst nodes.old class }
    ensures ok { OnOk result (TakesTurns store.old nodes.old store.new nodes.new) }
    ensures full { IsErrOf result Error.OutOfSlots → HasLargeClass store.old }
    ensures err { IfErr result IsShortage }
{
    let node = narrowed(store, nodes, alloc, class)?;
    let other = nodes.source_of(&node.key).unwrap_or(class);
    if other != class {
        return collide(store, nodes, alloc, class, &node.names, other);
    }
    nodes.refile(class, node.key, node.names)
}
