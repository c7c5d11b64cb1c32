//! Ids of e-classes, and applied ids.
ghost use Rattle.std.specs.Prelude.{◌≡◌, ◌<◌, ◌++◌, ℕ, [], Some, length, codes, decimal, IsTrue, IfOk, IfErr, IsErrOf};
ghost use Rattle.std.specs.Ordering.{nat_cmp};
ghost use Rattle.slotted_slots.specs.Combining.{both_values, IsCompleted, TakesToComplete, LacksToComplete};
ghost use Rattle.slotted_slots.specs.Error.{IsOutOfMemory, IsShortage};
ghost use Rattle.slotted_slots.specs.Maps.{KnowsAll, is_among, all_differ, composed, keys, values, with_value_at};
ghost use Rattle.slotted_slots.specs.Sets.{set_of};
ghost use Rattle.slotted_slots.specs.Shown.{shown_applied};
ghost use Rattle.slotted_slots.specs.Table.{KnowsMore, TakesAmong, slot_limit};

use crate::{Error, Show, Slot, SlotMap, SlotTable, SmallHashSet};
use std::alloc::Global;
use std::fmt;

/// The number of an e-class.
#[derive(Clone, Copy, PartialEq, Eq, PartialOrd, Ord, Hash)]
pub struct Id(pub usize);

/// Prints `id5`.
impl fmt::Debug for Id {
    ghost debug_output = { λ id. Some (codes "id" ++ decimal id.0) };

    fn fmt<W: fmt::Write>(&self, f: &mut fmt::Formatter<W>) -> fmt::Result {
        let number = self.0;
        write!(f, "id{number}")
    }
}

/// An applied id: an e-class, and a map from its slots to names. No name stands twice.
///
/// The map may omit names of redundant slots.
#[derive(Drop, Debug, Clone, PartialEq, Eq, PartialOrd, Ord, Hash)]
pub struct AppliedId {
    /// The e-class.
    pub id: Id,
    /// The map from the slots of the class to names.
    pub m: SlotMap,
}

impl AppliedId {
    /// Returns the applied id of a class and a map from its slots to names. No name may stand twice.
    pub fn new(id: Id, m: SlotMap) -> AppliedId
        requires { IsTrue (all_differ (values m)) }
        ensures id { result.id ≡ id }
        ensures map { result.m ≡ m }
    {
        AppliedId { id, m }
    }

    /// Returns the set of the names.
    pub fn slots(&self, alloc: Global) -> Result<SmallHashSet<Slot>, Error>
        ensures ok { IfOk result (λ s. s ≡ set_of nat_cmp (values self.now.m)) }
        ensures members { IfOk result (λ s. (v : ℕ) → is_among v s ≡ is_among v (values self.now.m)) }
        ensures memory { IfErr result IsOutOfMemory }
    {
        self.m.values(alloc)
    }

    /// Returns the same class with each name sent through `m`, which must have all of them as keys and keep them apart.
    pub fn apply_slotmap(&self, alloc: Global, m: &SlotMap) -> Result<AppliedId, Error>
        requires known { KnowsAll m.now (values self.now.m) }
        requires apart { IsTrue (all_differ (values (composed self.now.m m.now))) }
        ensures id { IfOk result (λ a. a.id ≡ self.now.id) }
        ensures map { IfOk result (λ a. a.m ≡ composed self.now.m m.now) }
        ensures keys { IfOk result (λ a. keys a.m ≡ keys self.now.m) }
        ensures memory { IfErr result IsOutOfMemory }
    {
        Ok(AppliedId::new(self.id, self.m.compose_partial(alloc, m)?))
    }

    /// Returns the same class with each name sent through `m`, without the names that `m` lacks.
    ///
    /// `m` must keep those names apart that it has as keys.
    pub fn apply_slotmap_partial(&self, alloc: Global, m: &SlotMap) -> Result<AppliedId, Error>
        requires { IsTrue (all_differ (values (composed self.now.m m.now))) }
        ensures id { IfOk result (λ a. a.id ≡ self.now.id) }
        ensures map { IfOk result (λ a. a.m ≡ composed self.now.m m.now) }
        ensures memory { IfErr result IsOutOfMemory }
    {
        let sent = self.m.compose_partial(alloc, m)?;
        Ok(AppliedId::new(self.id, sent))
    }

    /// Returns the same class with each name sent through `m`, and a fresh slot for each name that `m` lacks.
    ///
    /// `m` must keep those names apart that it has as keys.
    pub fn apply_slotmap_fresh(
        &self,
        alloc: Global,
        m: &SlotMap,
        table: &mut SlotTable,
    ) -> Result<AppliedId, Error>
        requires { IsTrue (all_differ (values (composed self.now.m m.now))) }
        ensures id { IfOk result (λ a. a.id ≡ self.now.id) }
        ensures completed { IfOk result (λ a. IsCompleted table.old table.new self.now.m m.now a.m) }
        ensures injective { IfOk result (λ a. IsTrue (all_differ (values a.m))) }

        // Only fresh slots are made. A slot that is known in addition is a value of one of the three maps.
        ensures taken { IfOk result (λ a. TakesAmong table.old table.new (values a.m) (both_values self.now.m m.now)) }

        // Even on an error, at most one slot is made for each name that `m` lacks.
        ensures count { TakesToComplete self.now.m m.now table.old table.new }
        ensures names { table.new.names ≡ table.old.names }
        ensures more { KnowsMore table.old table.new }
        ensures full { IsErrOf result Error.OutOfSlots → LacksToComplete self.now.m m.now table.old }
        ensures end { IsErrOf result Error.OutOfSlots → table.new.fresh ≡ slot_limit }
        ensures only { IfErr result IsShortage }
    {
        let completed = self.m.compose_fresh(alloc, m, table)?;
        Ok(AppliedId::new(self.id, completed))
    }

    /// Replaces the name at a position in the order of the slots of the class.
    pub fn set_slot_at(&mut self, i: usize, s: Slot)
        requires { i < length self.old.m }
        ensures id { self.new.id ≡ self.old.id }
        ensures map { self.new.m ≡ with_value_at self.old.m i s }
    {
        self.m.set_value_at(i, s);
    }

    /// Returns the null id, class 0 with the empty map, which stands where a child is not read.
    pub fn null(alloc: Global) -> AppliedId
        ensures id { result.id.0 ≡ 0 }
        ensures map { result.m ≡ [] }
    {
        AppliedId {
            id: Id(0),
            m: SlotMap::new(alloc),
        }
    }

    /// Returns an applied id that equals this one.
    pub fn copy(&self, alloc: Global) -> Result<AppliedId, Error>
        ensures ok { IfOk result (λ c. c ≡ self.now) }
        ensures err { IfErr result IsOutOfMemory }
    {
        Ok(AppliedId {
            id: self.id,
            m: self.m.copy(alloc)?,
        })
    }
}

/// Prints `id5[$0 -> $3]`: the number and the map.
impl Show for AppliedId {
    ghost shown = { λ t a. Some (shown_applied t a.id.0 a.m) };

    fn write_shown<W: fmt::Write>(
        &self,
        table: &SlotTable,
        f: &mut fmt::Formatter<W>,
    ) -> fmt::Result {
        let number = self.id.0;
        let map = self.m.show(table);
        write!(f, "id{number}{map}")
    }
}
