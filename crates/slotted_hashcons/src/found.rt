//! The canonical e-node of a class, by its shape.
ghost use Rattle.std.specs.Prelude.{◌<◌, ℕ, length, IfOk, IfErr, IsErrOf};
ghost use Rattle.slotted_slots.specs.Error.{IsShortage};
ghost use Rattle.slotted_languages.specs.NewNames.{IsTooLarge};
ghost use Rattle.slotted_classes.specs.Finding.{HasFinds};
ghost use Rattle.slotted_classes.specs.Kept.{node_at};
ghost use Rattle.slotted_hashcons.specs.FoundNodes.{FilesNode, IsFoundNode};
ghost use Rattle.slotted_hashcons.specs.NormalNodes.{HasFindableChildren};

use crate::normal::normal_of;
use slotted_classes::Store;
use slotted_languages::Language;
use slotted_slots::{Error, SlotMap};
use std::alloc::Global;

/// The shape of the canonical e-node of a class, and the canonical slot of the class for each number of the shape.
#[derive(Drop)]
pub struct FoundNode<L> {
    /// The shape.
    pub key: L,
    /// The canonical slot of the class for each number of the shape.
    pub names: SlotMap,
}

/// Returns the canonical e-node of a class, by its shape: the syntactic e-node over what `find` maps its children to.
pub fn found_node<L: Language>(
    store: &Store<L>,
    alloc: Global,
    class: usize,
) -> Result<FoundNode<L>, Error>
    requires good { HasFinds store.now }
    requires within { class < length store.now.classes }
    requires children { HasFindableChildren store.now (node_at store.now class) }
    ensures ok { IfOk result (λ n. IsFoundNode store.now class (L.form n.key) n.names) }
    ensures full { IsErrOf result Error.OutOfSlots → IsTooLarge (node_at store.now class) }
    ensures only { IfErr result IsShortage }
{
    let normal = normal_of(store, alloc, store.node_of(class))?;
    let (key, names) = normal.weak_shape(alloc)?;
    Ok(FoundNode { key, names })
}

/// Returns the canonical e-node of a class as `found_node` does, from what is filed for the class: a shape, and the
/// slot of the class for each number.
///
/// The shape may have been filed before later unions. Its children are nearer to their live classes than those of the
/// syntactic e-node.
pub fn refound_node<L: Language>(
    store: &Store<L>,
    alloc: Global,
    key: &L,
    names: &SlotMap,
) -> Result<FoundNode<L>, Error>
    requires good { HasFinds store.now }
    requires children { HasFindableChildren store.now (L.form key.now) }
    ensures ok { IfOk result
        (λ n. (i : ℕ) → FilesNode store.now i (L.form key.now) names.now → IsFoundNode store.now i (L.form n.key) n.names) }
    ensures full { IsErrOf result Error.OutOfSlots → IsTooLarge (L.form key.now) }
    ensures only { IfErr result IsShortage }
{
    let normal = normal_of(store, alloc, key)?;
    let (key, numbers) = normal.weak_shape(alloc)?;
    let names = numbers.compose_partial(alloc, names)?;
    Ok(FoundNode { key, names })
}
