//! Union by an entry, after which the e-nodes over each class that changed are pending.
ghost use Rattle.std.specs.Prelude.{◌≡◌, ◌<◌, length, IfErr, IsErrOf, OnOk};
ghost use Rattle.slotted_slots.specs.Error.{IsShortage};
ghost use Rattle.slotted_rebuilding.specs.Proving.{HasLargeSide};
ghost use Rattle.slotted_classes.specs.Stored.{Stored};
ghost use Rattle.slotted_rebuilding.specs.Uniting.{equation_in};
ghost use Rattle.slotted_rebuilding.specs.Filed.{UnitesFiled};

use crate::unions::uniting::{UnionStep, unite_once};
use slotted_classes::Store;
use slotted_hashcons::Hashcons;
use slotted_languages::Language;
use slotted_proofs::ProvenEq;
use slotted_slots::Error;
use std::alloc::Global;

/// Unites the live classes of the sides of an entry: what the entry says of them holds from now on, up to listed
/// symmetries.
///
/// The e-nodes over each class that dies or loses slots are pending from now on. Of two classes with as many
/// canonical slots the larger one is kept.
pub fn unite<L: Language>(
    store: &mut Store<L>,
    nodes: &mut Hashcons<L>,
    alloc: Global,
    p: ProvenEq,
) -> Result<(), Error>
    requires good { Stored store.old }
    requires within { p < length store.old.proofs }
    requires count { length nodes.old.filed ≡ length store.old.classes }
    ensures ok { OnOk result (UnitesFiled p store.old nodes.old store.new nodes.new) }
    ensures full { IsErrOf result Error.OutOfSlots → HasLargeSide store.old (equation_in store.old p) }
    ensures err { IfErr result IsShortage }
{
    match unite_once(store, alloc, p, nodes.sizes())? {
        UnionStep::Done => Ok(()),
        UnionStep::Linked(class) => {
            nodes.move_nodes(class, store.entry(class).id.0);
            nodes.touch(class)
        }
        UnionStep::Dropped(class) => {
            nodes.touch(class)?;
            unite(store, nodes, alloc, p)
        }
    }
}
