//! Listed symmetries that are not aligned are acted on, and the e-nodes over the classes that this changes are
//! pending.
ghost use Rattle.std.specs.Prelude.{IfErr, IsErrOf, OnOk};
ghost use Rattle.slotted_slots.specs.Error.{IsShortage};
ghost use Rattle.slotted_rebuilding.specs.Settling.{HasLargeUnaligned};
ghost use Rattle.slotted_hashcons.specs.WellFiled.{IsWellFiled};
ghost use Rattle.slotted_rebuilding.specs.Filed.{SettlesFiled};

use crate::unions::settling::next_unaligned;
use crate::uniting::unite;
use slotted_classes::Store;
use slotted_hashcons::Hashcons;
use slotted_languages::Language;
use slotted_slots::Error;
use std::alloc::Global;

/// Acts on listed symmetries that are not aligned, one after another, until each is aligned.
///
/// Does nothing if no slot became redundant since this was last so.
pub fn settle_all<L: Language>(
    store: &mut Store<L>,
    nodes: &mut Hashcons<L>,
    alloc: Global,
) -> Result<(), Error>
    requires good { IsWellFiled store.old nodes.old }
    ensures ok { OnOk result (SettlesFiled store.old nodes.old store.new nodes.new) }
    ensures full { IsErrOf result Error.OutOfSlots → HasLargeUnaligned store.old }
    ensures err { IfErr result IsShortage }
{
    if !store.is_dropped() {
        return Ok(());
    }
    let Some(p) = next_unaligned(store, alloc)? else {
        store.settle();
        return Ok(());
    };
    unite(store, nodes, alloc, p)?;
    settle_all(store, nodes, alloc)
}
