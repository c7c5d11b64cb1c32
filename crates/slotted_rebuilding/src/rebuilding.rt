//! Rebuilding: it goes on until nothing is pending and each listed symmetry is aligned.
ghost use Rattle.std.specs.Prelude.{IfOk, IfErr, IsErrOf};
ghost use Rattle.slotted_slots.specs.Error.{IsShortage};
ghost use Rattle.slotted_rebuilding.specs.Causes.{HasLargeClass};
ghost use Rattle.slotted_hashcons.specs.WellFiled.{IsWellFiled};
ghost use Rattle.slotted_rebuilding.specs.Turns.{Rebuilds, RebuildsAll};

use crate::settling::settle_all;
use crate::turning::take_turn;
use slotted_classes::Store;
use slotted_hashcons::Hashcons;
use slotted_languages::Language;
use slotted_slots::Error;
use std::alloc::Global;

// Lets each pending class take its turn, and acts on symmetries that are not aligned, until nothing is left to do.
// Returns the number of turns.
fn take_turns<L: Language>(
    store: &mut Store<L>,
    nodes: &mut Hashcons<L>,
    alloc: Global,
) -> Result<u64, Error>
    requires good { IsWellFiled store.old nodes.old }
    ensures ok { IfOk result (RebuildsAll store.old nodes.old store.new nodes.new) }
    ensures full { IsErrOf result Error.OutOfSlots → HasLargeClass store.old }
    ensures err { IfErr result IsShortage }
{
    let mut turns: u64 = 0;
    settle_all(store, nodes, alloc)?;
    while let Some(class) = nodes.front() {
        take_turn(store, nodes, alloc, class)?;
        settle_all(store, nodes, alloc)?;
        turns = turns.saturating_add(1);
    }
    Ok(turns)
}

/// Restores congruence: equal e-nodes are of one class from now on, up to listed symmetries.
///
/// Each pending class takes its turn, and symmetries that are not aligned are acted on. Returns the number of turns,
/// and notes it in the store.
pub fn rebuild<L: Language>(
    store: &mut Store<L>,
    nodes: &mut Hashcons<L>,
    alloc: Global,
) -> Result<u64, Error>
    requires good { IsWellFiled store.old nodes.old }
    ensures ok { IfOk result (Rebuilds store.old nodes.old store.new nodes.new) }
    ensures full { IsErrOf result Error.OutOfSlots → HasLargeClass store.old }
    ensures err { IfErr result IsShortage }
{
    let filed = nodes.len();
    let size = store.size();
    let turns = take_turns(store, nodes, alloc)?;
    store.note(filed, size, turns);
    Ok(turns)
}
