//! Listed symmetries that are not aligned: `find` leaves different sets of names on their two sides.
ghost use Rattle.std.specs.Prelude.{◌↔◌, Contains, IsTrue, IfErr, IfOk, IfSome, IfNone};
ghost use Rattle.slotted_slots.specs.Error.{IsOutOfMemory};
ghost use Rattle.slotted_model.specs.Rest.{IsAligned};
ghost use Rattle.slotted_classes.specs.Kept.{symmetry_entry};
ghost use Rattle.slotted_rebuilding.specs.Settling.{IsUnaligned, AreAligned};
ghost use Rattle.slotted_classes.specs.StateOf.{state_of, symmetry_of_entry};
ghost use Rattle.slotted_classes.specs.Stored.{Stored};

use slotted_classes::names::have_same_values;
use slotted_classes::{Store, Symmetry};
use slotted_languages::Language;
use slotted_proofs::ProvenEq;
use slotted_slots::Error;
use std::alloc::Global;

// Returns whether a listed symmetry is aligned: `find` leaves the same set of names on its two sides.
fn is_aligned<L: Language>(
    store: &Store<L>,
    alloc: Global,
    symmetry: &Symmetry,
) -> Result<bool, Error>
    requires good { Stored store.now }
    requires listed { Contains store.now.symmetries (symmetry_entry symmetry.now) }
    ensures ok { IfOk result
        (λ y. IsTrue y ↔ IsAligned (state_of store.now) (symmetry_of_entry (symmetry_entry symmetry.now))) }
    ensures err { IfErr result IsOutOfMemory }
{
    let left = store.found_id(alloc, &symmetry.equation.l)?;
    let right = store.found_id(alloc, &symmetry.equation.r)?;
    Ok(have_same_values(&left.m, &right.m))
}

/// Returns the proof of the first listed symmetry that is not aligned.
pub fn next_unaligned<L: Language>(
    store: &Store<L>,
    alloc: Global,
) -> Result<Option<ProvenEq>, Error>
    requires good { Stored store.now }
    ensures some { IfOk result (λ o. IfSome o (IsUnaligned store.now)) }
    ensures none { IfOk result (λ o. IfNone o (AreAligned store.now)) }
    ensures err { IfErr result IsOutOfMemory }
{
    for symmetry in store.symmetries() {
        if !is_aligned(store, alloc, symmetry)? {
            return Ok(Some(symmetry.proof));
        }
    }
    Ok(None)
}
