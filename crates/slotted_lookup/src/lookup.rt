//! The id of an e-node, by the shape of its canonical e-node.
ghost use Rattle.std.specs.Prelude.{◌≡◌, option_map, IfOk, IfErr, IsErrOf, IsTrue};
ghost use Rattle.slotted_slots.specs.Error.{IsOutOfMemory, IsShortage};
ghost use Rattle.slotted_languages.specs.NewNames.{IsTooLarge};
ghost use Rattle.slotted_languages.specs.NodeTerm.{nameless_node};
ghost use Rattle.slotted_model.specs.Normal.{normal};
ghost use Rattle.slotted_classes.specs.Finding.{HasFinds};
ghost use Rattle.slotted_classes.specs.Kept.{entries_of};
ghost use Rattle.slotted_hashcons.specs.NormalNodes.{HasFindableChildren};
ghost use Rattle.slotted_proofs.specs.Equations.{to_applied};
ghost use Rattle.slotted_hashcons.specs.WellFiled.{IsWellFiled};
ghost use Rattle.slotted_lookup.specs.LookUp.{HasNamesFor, IsNormalShape, found_named, looked_up};

use crate::finding::found_with;
use slotted_classes::Store;
use slotted_classes::names::map_between;
use slotted_hashcons::Hashcons;
use slotted_hashcons::normal::normal_of;
use slotted_languages::Language;
use slotted_slots::{AppliedId, Error, SlotMap};
use std::alloc::Global;

// Returns what `find` maps the class of a filed e-node to, with these names for the numbers of its shape. A pending
// class may use slots that its e-node lacks.
fn found_source<L: Language>(
    store: &Store<L>,
    nodes: &Hashcons<L>,
    alloc: Global,
    class: usize,
    names: &SlotMap,
) -> Result<AppliedId, Error>
    requires good { IsWellFiled store.now nodes.now }
    requires names { HasNamesFor nodes.now class names.now }
    ensures ok { IfOk result (λ a. to_applied a ≡ found_named store.now nodes.now class names.now) }
    ensures err { IfErr result IsOutOfMemory }
{
    match nodes.node(class) {
        Some((_, slots)) => {
            let named = map_between(alloc, slots, names)?;
            let found = found_with(store, alloc, class, &named)?;
            Ok(found)
        }
        None => unreachable!(),
    }
}

// Returns whether each child of an e-node is canonical. Takes no memory.
fn is_normal<L: Language>(store: &Store<L>, node: &L) -> bool
    requires good { HasFinds store.now }
    requires children { HasFindableChildren store.now (L.form node.now) }
    ensures { IsTrue result
        → normal (entries_of store.now) (nameless_node (L.form node.now)) ≡ nameless_node (L.form node.now) }
{
    for k in 0..node.applied_id_count() {
        if !store.is_canonical(node.applied_id(k)) {
            return false;
        }
    }
    true
}

// Returns the shape of the canonical e-node of an e-node, and its name for each number. An e-node that is canonical
// is not copied first.
fn normal_shape<L: Language>(
    store: &Store<L>,
    alloc: Global,
    node: &L,
) -> Result<(L, SlotMap), Error>
    requires good { HasFinds store.now }
    requires children { HasFindableChildren store.now (L.form node.now) }
    ensures ok { IfOk result (λ r. IsNormalShape store.now (L.form node.now) (L.form r.0) r.1) }
    ensures full { IsErrOf result Error.OutOfSlots → IsTooLarge (L.form node.now) }
    ensures err { IfErr result IsShortage }
{
    if is_normal(store, node) {
        let own = node.weak_shape(alloc)?;
        return Ok(own);
    }
    let normal = normal_of(store, alloc, node)?;
    let shape = normal.weak_shape(alloc)?;
    Ok(shape)
}

/// Returns the id of an e-node, or `None` if the hashcons has no equal one.
///
/// The e-node is looked up by the shape of its canonical e-node. The id is what `find` maps the class of that shape
/// to, with the e-node's names put in.
pub fn look_up<L: Language>(
    store: &Store<L>,
    nodes: &Hashcons<L>,
    alloc: Global,
    node: &L,
) -> Result<Option<AppliedId>, Error>
    requires good { IsWellFiled store.now nodes.now }
    requires children { HasFindableChildren store.now (L.form node.now) }
    ensures ok { IfOk result (λ o. option_map to_applied o ≡ looked_up store.now nodes.now (L.form node.now)) }
    ensures full { IsErrOf result Error.OutOfSlots → IsTooLarge (L.form node.now) }
    ensures err { IfErr result IsShortage }
{
    let (key, names) = normal_shape(store, alloc, node)?;
    match nodes.source_of(&key) {
        Some(class) => Ok(Some(found_source(store, nodes, alloc, class, &names)?)),
        None => Ok(None),
    }
}
