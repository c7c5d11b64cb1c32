//! A class dies and leads to another one, by an entry that pairs all slots of both.
ghost use Rattle.std.specs.Prelude.{◌≡◌, ◌≢◌, ◌<◌, length, IfOk, IfErr, OnOk};
ghost use Rattle.slotted_slots.specs.Error.{IsOutOfMemory};
ghost use Rattle.slotted_model.specs.Changes.{PairsAll};
ghost use Rattle.slotted_proofs.specs.Equations.{to_applied};
ghost use Rattle.slotted_classes.specs.StateOf.{state_of};
ghost use Rattle.slotted_classes.specs.Stored.{Stored};
ghost use Rattle.slotted_rebuilding.specs.Uniting.{HasLinked, IsOfLive, heir_in, equation_in};

use slotted_classes::Store;
use slotted_languages::Language;
use slotted_proofs::ProvenEq;
use slotted_slots::{AppliedId, Error};
use std::alloc::Global;

// Returns what the left class of an entry leads to once it is dead: the right class, with the slot of the left one
// that has the same name for each of its slots.
fn heir<L: Language>(store: &Store<L>, alloc: Global, q: ProvenEq) -> Result<AppliedId, Error>
    requires good { Stored store.now }
    requires within { q < length store.now.proofs }
    ensures ok { IfOk result (λ a. to_applied a ≡ heir_in store.now (equation_in store.now q)) }
    ensures err { IfErr result IsOutOfMemory }
{
    let equation = store.proofs().equ(q);
    let names = equation.l.m.inverse(alloc)?;
    Ok(AppliedId {
        id: equation.r.id,
        m: equation.r.m.compose_partial(alloc, &names)?,
    })
}

/// Links the left class of an entry to the right one. The left class is dead from now on.
pub fn link<L: Language>(store: &mut Store<L>, alloc: Global, q: ProvenEq) -> Result<(), Error>
    requires good { Stored store.old }
    requires within { q < length store.old.proofs }
    requires live { IsOfLive store.old (equation_in store.old q) }
    requires different { (equation_in store.old q).left ≢ (equation_in store.old q).right }
    requires pairs_all { PairsAll (state_of store.old) (equation_in store.old q) }
    ensures ok { OnOk result (HasLinked store.old store.new (equation_in store.old q) q) }
    ensures err { IfErr result IsOutOfMemory }
{
    let dead = store.proofs().equ(q).l.id.0;
    let heir = heir(store, alloc, q)?;
    store.set_link(dead, heir, q)
}
