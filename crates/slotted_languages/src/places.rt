//! The names at the places of a node, from the left.
ghost use Rattle.std.specs.Prelude.{◌≡◌, ◌↔◌, ℕ, IfOk, IfErr, IsErrOf, IsOkUnless, IsTrue};
ghost use Rattle.slotted_slots.specs.Error.{IsOutOfMemory};
ghost use Rattle.slotted_slots.specs.Maps.{is_among};
ghost use Rattle.slotted_nodes.specs.Form.{IsSmall};
ghost use Rattle.slotted_languages.specs.Children.{HasNoBinder};
ghost use Rattle.slotted_languages.specs.NewNames.{IsTooLarge};
ghost use Rattle.slotted_languages.specs.NodeTerm.{free_names_of};
ghost use Rattle.slotted_languages.specs.Occurrences.{public_names, private_names};

use crate::language::Language;
use crate::shape::PLACES;
use slotted_slots::{Error, Slot, SmallHashSet};
use std::alloc::Global;

// Returns `OutOfSlots` if a node has too many places.
pub(crate) fn check_count<L: Language>(node: &L) -> Result<(), Error>
    ensures full { IsErrOf result Error.OutOfSlots ↔ IsTooLarge (L.form node.now) }
    ensures only { IsOkUnless result Error.OutOfSlots }
{
    if node.slot_count() >= PLACES {
        return Err(Error::OutOfSlots);
    }
    Ok(())
}

// Returns whether the node has a shape and binds nothing.
pub(crate) fn binds_nothing<L: Language>(node: &L) -> bool
    ensures small { IsTrue result → IsSmall (L.form node.now) }
    ensures none { IsTrue result → HasNoBinder (L.form node.now) }
{
    if PLACES <= node.slot_count() {
        return false;
    }
    for i in 0..node.slot_count() {
        if node.scope_end(i).is_some() {
            return false;
        }
    }
    true
}

// Returns the names at all places.
pub(crate) fn all_names<L: Language>(node: &L, alloc: Global) -> Result<Vec<Slot>, Error>
    requires small { IsSmall (L.form node.now) }
    ensures ok { IfOk result (λ v. v.items ≡ (L.form node.now).names) }
    ensures err { IfErr result IsOutOfMemory }
{
    let mut names = Vec::new(alloc);
    for i in 0..node.slot_count() {
        names.push(node.slot(i))?;
    }
    Ok(names)
}

// Returns the names at public places.
pub(crate) fn seen_names<L: Language>(node: &L, alloc: Global) -> Result<Vec<Slot>, Error>
    requires small { IsSmall (L.form node.now) }
    ensures ok { IfOk result (λ v. v.items ≡ public_names (L.form node.now)) }
    ensures free { IfOk result (λ v. v.items ≡ free_names_of (L.form node.now)) }
    ensures err { IfErr result IsOutOfMemory }
{
    let mut seen = Vec::new(alloc);
    for i in 0..node.slot_count() {
        if node.is_public(i) {
            seen.push(node.slot(i))?;
        }
    }
    Ok(seen)
}

// Returns the names at private places.
pub(crate) fn hidden_names<L: Language>(node: &L, alloc: Global) -> Result<Vec<Slot>, Error>
    requires small { IsSmall (L.form node.now) }
    ensures ok { IfOk result (λ v. v.items ≡ private_names (L.form node.now)) }
    ensures err { IfErr result IsOutOfMemory }
{
    let mut hidden = Vec::new(alloc);
    for i in 0..node.slot_count() {
        if !node.is_public(i) {
            hidden.push(node.slot(i))?;
        }
    }
    Ok(hidden)
}

// Returns the set of some names.
pub(crate) fn name_set(alloc: Global, names: &[Slot]) -> Result<SmallHashSet<Slot>, Error>
    ensures members { IfOk result (λ s. (x : ℕ) → is_among x s ≡ is_among x names.now) }
    ensures err { IfErr result IsOutOfMemory }
{
    let mut set = SmallHashSet::new(alloc);
    for name in names {
        set.insert(*name)?;
    }
    Ok(set)
}
