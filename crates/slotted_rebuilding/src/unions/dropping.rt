//! Slots that become redundant: those that have no partner in what an entry says of two live classes.
ghost use Rattle.std.specs.Prelude.{◌≡◌, ◌<◌, ℕ, length, Contains, IfOk, IfErr, IfSome, IfNone, IsErrOf, OnOk};
ghost use Rattle.slotted_slots.specs.Error.{IsShortage};
ghost use Rattle.slotted_slots.specs.Maps.{keys, values};
ghost use Rattle.slotted_rebuilding.specs.Proving.{HasLargeSide};
ghost use Rattle.slotted_classes.specs.Stored.{Stored};
ghost use Rattle.slotted_rebuilding.specs.Uniting.{IsOfLive, IsLackedBy, PairsLeft, HasDropped, DropsLeft, equation_in};

use slotted_classes::Store;
use slotted_languages::Language;
use slotted_proofs::ProvenEq;
use slotted_slots::{Error, Slot, SlotMap};
use std::alloc::Global;

// Returns the first value of a map that is no key of the other map.
fn value_without_key(slots: &SlotMap, map: &SlotMap) -> Option<Slot>
    ensures some { IfSome result (λ s. Contains (values slots.now) s × ¬ Contains (keys map.now) s) }
    ensures none { IfNone result ((s : ℕ) → Contains (values slots.now) s → Contains (keys map.now) s) }
{
    for i in 0..slots.len() {
        let slot = slots.value_at(i);
        if !map.contains_key(slot) {
            return Some(slot);
        }
    }
    None
}

// Returns a slot of the left class of an entry that has no partner.
fn lacking_slot<L: Language>(store: &Store<L>, q: ProvenEq, pairs: &SlotMap) -> Option<Slot>
    requires good { Stored store.now }
    requires within { q < length store.now.proofs }
    requires live { IsOfLive store.now (equation_in store.now q) }
    requires pairs { pairs.now ≡ (equation_in store.now q).pairs }
    ensures some { IfSome result (IsLackedBy store.now (equation_in store.now q)) }
    ensures none { IfNone result (PairsLeft store.now (equation_in store.now q)) }
{
    let left = store.proofs().equ(q).l.id.0;
    value_without_key(&store.entry(left).m, pairs)
}

// Shrinks the left class of an entry to the slots with a partner, by what the entry says there and back.
fn drop_slots<L: Language>(
    store: &mut Store<L>,
    alloc: Global,
    q: ProvenEq,
    pairs: &SlotMap,
) -> Result<(), Error>
    requires good { Stored store.old }
    requires within { q < length store.old.proofs }
    requires live { IsOfLive store.old (equation_in store.old q) }
    requires pairs { pairs.now ≡ (equation_in store.old q).pairs }
    requires lacks { (s : ℕ) × IsLackedBy store.old (equation_in store.old q) s }
    ensures ok { OnOk result (HasDropped store.old store.new (equation_in store.old q)) }
    ensures full { IsErrOf result Error.OutOfSlots → HasLargeSide store.old (equation_in store.old q) }
    ensures err { IfErr result IsShortage }
{
    let left = store.proofs().equ(q).l.id.0;
    let slots = SlotMap::identity(alloc, &pairs.keys(alloc)?)?;
    let back = store.turn(alloc, q)?;
    let proof = store.chain(alloc, q, back)?;
    store.set_slots(left, slots, proof);
    Ok(())
}

/// Shrinks the left class of an entry to the slots with a partner. Returns false, and changes nothing, if all slots
/// have one.
pub fn drop_left<L: Language>(
    store: &mut Store<L>,
    alloc: Global,
    q: ProvenEq,
) -> Result<bool, Error>
    requires good { Stored store.old }
    requires within { q < length store.old.proofs }
    requires live { IsOfLive store.old (equation_in store.old q) }
    ensures ok { IfOk result (DropsLeft store.old store.new (equation_in store.old q)) }
    ensures full { IsErrOf result Error.OutOfSlots → HasLargeSide store.old (equation_in store.old q) }
    ensures err { IfErr result IsShortage }
{
    let pairs = store.proofs().equ(q).correspondence(alloc)?;
    if lacking_slot(store, q, &pairs).is_none() {
        return Ok(false);
    }
    drop_slots(store, alloc, q, &pairs)?;
    Ok(true)
}
