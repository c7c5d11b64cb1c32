//! Slot maps composed, joined, completed by fresh slots, and tested for being permutations.
ghost use Rattle.std.specs.Prelude.{◌≡◌, ℕ, [], ◌∷◌, length, IsTrue, ◌↔◌, is_some, IsSome, IfSome, IfOk, IfErr, OnErr, IsErrOf, IsOkUnless};
ghost use Rattle.std.specs.List.{list_all};
ghost use Rattle.slotted_slots.specs.Ascending.{IsAscending};
ghost use Rattle.slotted_slots.specs.Combining.{HaveTheSame, Agree, agrees_with, joined, HasEitherValue, both_values, TakesForLacked, LacksForLacked, TakesToComplete, LacksToComplete, IsFreshFrom, IsValueOrMade, IsNew, IsCompleted};
ghost use Rattle.slotted_slots.specs.Error.{IsOutOfMemory, IsShortage};
ghost use Rattle.slotted_slots.specs.Maps.{value_of, composed, is_among, keys, values, HasDifferentValues};
ghost use Rattle.slotted_slots.specs.Table.{KnowsMore, TakesAmong, TakesAtMost, LacksSlots, slot_limit};

use super::{SlotMap, has_value};
use crate::{Error, Slot, SlotTable, SmallHashSet};
use std::alloc::Global;

impl SlotMap {
    /// Returns the composition: this map first, then the other, whose keys must be this map's values.
    pub fn compose(&self, alloc: Global, other: &SlotMap) -> Result<SlotMap, Error>
        requires { HaveTheSame (values self.now) (keys other.now) }
        ensures ok { IfOk result (λ m. m ≡ composed self.now other.now) }
        ensures keys { IfOk result (λ m. keys m ≡ keys self.now) }
        ensures memory { IfErr result IsOutOfMemory }
    {
        self.compose_partial(alloc, other)
    }

    /// Returns the map with the pairs of both. No key may have two values.
    pub fn union(&self, alloc: Global, other: &SlotMap) -> Result<SlotMap, Error>
        requires { Agree self.now other.now }
        ensures ok { IfOk result (λ m. m ≡ joined self.now other.now) }
        ensures values { IfOk result (HasEitherValue self.now other.now) }
        ensures memory { IfErr result IsOutOfMemory }
    {
        let mut union = self.copy(alloc)?;
        for pair in other.pairs.iter() {
            union.insert(pair.0, pair.1)?;
        }
        Ok(union)
    }

    /// Returns the map with the pairs of both, or `None` if a key has two values.
    pub fn try_union(&self, alloc: Global, other: &SlotMap) -> Result<Option<SlotMap>, Error>
        ensures agree { IfOk result (λ both. IsSome both ↔ Agree self.now other.now) }
        ensures some { IfOk result (λ both. IfSome both (λ m. m ≡ joined self.now other.now)) }
        ensures memory { IfErr result IsOutOfMemory }
    {
        if self.agrees_with(other) {
            Ok(Some(self.union(alloc, other)?))
        } else {
            Ok(None)
        }
    }

    /// Returns the composition, this map first, and a fresh slot for each key whose value the other map lacks.
    ///
    /// Such a slot was never made before, and is no value of either map.
    pub fn compose_fresh(
        &self,
        alloc: Global,
        other: &SlotMap,
        table: &mut SlotTable,
    ) -> Result<SlotMap, Error>
        ensures completed { IfOk result (IsCompleted table.old table.new self.now other.now) }
        ensures injective { HasDifferentValues (composed self.now other.now) → IfOk result HasDifferentValues }

        // Only fresh slots are made. A slot that is known in addition is a value of one of the three maps.
        ensures taken { IfOk result (λ m. TakesAmong table.old table.new (values m) (both_values self.now other.now)) }

        // Even on an error, at most one slot is made for each value that the other map lacks.
        ensures count { TakesToComplete self.now other.now table.old table.new }
        ensures names { table.new.names ≡ table.old.names }
        ensures more { KnowsMore table.old table.new }
        ensures full { IsErrOf result Error.OutOfSlots → LacksToComplete self.now other.now table.old }
        ensures end { IsErrOf result Error.OutOfSlots → table.new.fresh ≡ slot_limit }
        ensures only { IfErr result IsShortage }
    {
        let mut pairs = Vec::new(alloc);
        for pair in self.pairs.iter() {
            let value = value_or_fresh(self.pairs.as_slice(), other, pair.1, table)?;
            pairs.push((pair.0, value))?;
        }
        Ok(SlotMap { pairs })
    }

    /// Returns a map to each slot of a set, from fresh slots that are not in the set.
    pub fn bijection_from_fresh_to(
        alloc: Global,
        set: &SmallHashSet<Slot>,
        table: &mut SlotTable,
    ) -> Result<SlotMap, Error>
        ensures values { IfOk result (λ m. values m ≡ set.now) }
        ensures made { IfOk result (λ m. (s : ℕ) → IsTrue (is_among s (keys m)) → IsNew table.old table.new set.now s) }

        // Only fresh slots are made. A slot that is known in addition is a key, or was in the set.
        ensures taken { IfOk result (λ m. TakesAmong table.old table.new (keys m) set.now) }

        // Even on an error, at most one slot is made for each slot of the set.
        ensures count { TakesAtMost (length set.now) set.now table.old table.new }
        ensures names { table.new.names ≡ table.old.names }
        ensures more { KnowsMore table.old table.new }
        ensures full { IsErrOf result Error.OutOfSlots → LacksSlots (length set.now) set.now table.old }
        ensures end { IsErrOf result Error.OutOfSlots → table.new.fresh ≡ slot_limit }
        ensures only { IfErr result IsShortage }
    {
        let mut pairs = Vec::new(alloc);
        for slot in set.as_slice() {
            let key = fresh_outside(set, table)?;
            pairs.push((key, *slot))?;
        }
        Ok(SlotMap { pairs })
    }

    /// Returns whether the keys and the values are one set. Takes no memory.
    pub fn is_perm(&self) -> bool
        ensures { IsTrue result ↔ HaveTheSame (keys self.now) (values self.now) }
    {
        self.each_value_is_key() && self.each_key_is_value()
    }

    // Returns whether each value is a key too.
    fn each_value_is_key(&self) -> bool
        ensures { result ≡ list_all (λ v. is_some (value_of self.now v)) (values self.now) }
    {
        for pair in self.pairs.iter() {
            if !self.contains_key(pair.1) {
                return false;
            }
        }
        true
    }

    // Returns whether each key is a value too.
    fn each_key_is_value(&self) -> bool
        ensures { result ≡ list_all (λ k. is_among k (values self.now)) (keys self.now) }
    {
        let pairs = self.pairs.as_slice();
        for pair in pairs {
            if !has_value(pairs, pair.0) {
                return false;
            }
        }
        true
    }

    // Returns whether no key has two values in the two maps.
    fn agrees_with(&self, other: &SlotMap) -> bool
        ensures value { result ≡ agrees_with self.now other.now }
        ensures ascending { IsAscending (keys self.now) }
    {
        for pair in self.pairs.iter() {
            if other.get(pair.0).unwrap_or(pair.1) != pair.1 {
                return false;
            }
        }
        true
    }
}

// Returns the value of a key in the second map. If there is none, returns a fresh slot that is no value of either.
fn value_or_fresh(
    first: &[(Slot, Slot)],
    second: &SlotMap,
    k: Slot,
    table: &mut SlotTable,
) -> Result<Slot, Error>
    ensures value { IfOk result (IsValueOrMade table.old table.new first.now second.now k) }
    ensures taken { IfOk result (λ s. TakesAmong table.old table.new (s ∷ []) (both_values first.now second.now)) }
    ensures count { TakesForLacked second.now (k ∷ []) (both_values first.now second.now) table.old table.new }
    ensures full { OnErr result (LacksForLacked second.now (k ∷ []) (both_values first.now second.now) table.old) }
    ensures end { OnErr result (table.new.fresh ≡ slot_limit) }
    ensures only { IsOkUnless result Error.OutOfSlots }
    ensures names { table.new.names ≡ table.old.names }
    ensures more { KnowsMore table.old table.new }
{
    match second.get(k) {
        Some(value) => Ok(value),
        None => fresh_apart(first, second.pairs.as_slice(), table),
    }
}

// Returns a fresh slot that is no value of either list.
fn fresh_apart(
    first: &[(Slot, Slot)],
    second: &[(Slot, Slot)],
    table: &mut SlotTable,
) -> Result<Slot, Error>
    ensures slot { IfOk result (IsFreshFrom table.old.fresh table.new.fresh (both_values first.now second.now)) }
    ensures taken { IfOk result (λ s. TakesAmong table.old table.new (s ∷ []) (both_values first.now second.now)) }
    ensures count { TakesAtMost 1 (both_values first.now second.now) table.old table.new }
    ensures full { OnErr result (LacksSlots 1 (both_values first.now second.now) table.old) }
    ensures end { OnErr result (table.new.fresh ≡ slot_limit) }
    ensures only { IsOkUnless result Error.OutOfSlots }
    ensures names { table.new.names ≡ table.old.names }
    ensures more { KnowsMore table.old table.new }
{
    loop {
        let slot = table.fresh()?;
        if !has_value(first, slot) && !has_value(second, slot) {
            return Ok(slot);
        }
    }
}

// Returns a fresh slot that is not in the set.
fn fresh_outside(set: &SmallHashSet<Slot>, table: &mut SlotTable) -> Result<Slot, Error>
    ensures slot { IfOk result (IsFreshFrom table.old.fresh table.new.fresh set.now) }
    ensures taken { IfOk result (λ s. TakesAmong table.old table.new (s ∷ []) set.now) }
    ensures count { TakesAtMost 1 set.now table.old table.new }
    ensures full { OnErr result (LacksSlots 1 set.now table.old) }
    ensures end { OnErr result (table.new.fresh ≡ slot_limit) }
    ensures only { IsOkUnless result Error.OutOfSlots }
    ensures names { table.new.names ≡ table.old.names }
    ensures more { KnowsMore table.old table.new }
{
    loop {
        let slot = table.fresh()?;
        if !set.contains(&slot) {
            return Ok(slot);
        }
    }
}
