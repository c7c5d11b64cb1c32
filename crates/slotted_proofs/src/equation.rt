//! Equations of applied ids.
ghost use Rattle.std.specs.Prelude.{◌≡◌, ◌++◌, ◌↔◌, IfOk, IfErr, IsErrOf};
ghost use Rattle.std.specs.Ordering.{nat_cmp};
ghost use Rattle.slotted_theory.specs.FiniteMaps.{IsInjectiveMap};
ghost use Rattle.slotted_slots.specs.Combining.{HaveTheSame, IsCompleted};
ghost use Rattle.slotted_slots.specs.Error.{IsOutOfMemory, IsShortage};
ghost use Rattle.slotted_slots.specs.Maps.{HasDifferentValues, KnowsAll, composed, doubled, values};
ghost use Rattle.slotted_slots.specs.Sets.{set_of};
ghost use Rattle.slotted_slots.specs.Table.{KnowsMore, slot_limit};
ghost use Rattle.slotted_model.specs.Applied.{keys};
ghost use Rattle.slotted_model.specs.Correspondence.{IsPartialInjection, same_names};
ghost use Rattle.slotted_proofs.specs.Equations.{to_applied, statement_of, partnered_statement, turned_statement, composite_statement, Meets, IsWritten, HaveManyNames, HasManyNames};
ghost use Rattle.slotted_proofs.specs.Fresh.{IsSentBy, IsSentOn, AreKnownOr, StaysInjective, TakesFor, TakesToSend, LacksToSend, names_of, side_names};

use crate::numbering::{is_short, number_sides, numbered, shared_names, shared_over};
use slotted_slots::{AppliedId, Error, Slot, SlotMap, SlotTable, SmallHashSet};
use std::alloc::Global;

mod showing;

/// An equation of two applied ids.
///
/// Equations are read up to renaming: an equation says which slots of the two classes have one name.
#[derive(Drop, Debug, Clone, PartialEq, Eq, Hash)]
pub struct Equation {
    /// The left side.
    pub l: AppliedId,
    /// The right side.
    pub r: AppliedId,
}

impl Equation {
    /// Returns an equation that equals this one.
    pub fn copy(&self, alloc: Global) -> Result<Equation, Error>
        ensures ok { IfOk result (λ e. e ≡ self.now) }
        ensures err { IfErr result IsOutOfMemory }
    {
        Ok(Equation {
            l: self.l.copy(alloc)?,
            r: self.r.copy(alloc)?,
        })
    }

    /// Returns the set of the names on both sides.
    pub fn slots(&self, alloc: Global) -> Result<SmallHashSet<Slot>, Error>
        ensures ok { IfOk result (λ s. s ≡ set_of nat_cmp (values self.now.l.m ++ values self.now.r.m)) }
        ensures members { IfOk result (λ s. HaveTheSame s (values self.now.l.m ++ values self.now.r.m)) }
        ensures err { IfErr result IsOutOfMemory }
    {
        let mut slots = self.l.slots(alloc)?;
        for i in 0..self.r.m.len() {
            slots.insert(self.r.m.value_at(i))?;
        }
        Ok(slots)
    }

    /// Returns the equation with each name sent through `m`, which must have all of them as keys and keep those of
    /// each side apart.
    pub fn apply_slotmap(&self, alloc: Global, m: &SlotMap) -> Result<Equation, Error>
        requires left_known { KnowsAll m.now (values self.now.l.m) }
        requires right_known { KnowsAll m.now (values self.now.r.m) }
        requires left_apart { HasDifferentValues (composed self.now.l.m m.now) }
        requires right_apart { HasDifferentValues (composed self.now.r.m m.now) }
        ensures left { IfOk result (λ e. to_applied e.l ≡ (self.now.l.id.0, composed self.now.l.m m.now)) }
        ensures right { IfOk result (λ e. to_applied e.r ≡ (self.now.r.id.0, composed self.now.r.m m.now)) }
        ensures err { IfErr result IsOutOfMemory }
    {
        self.over(alloc, m)
    }

    // Returns the map from each name of either side to itself.
    fn own_names(&self, alloc: Global) -> Result<SlotMap, Error>
        ensures ok { IfOk result (λ own. own ≡ doubled (names_of self.now)) }
        ensures err { IfErr result IsOutOfMemory }
    {
        let names = self.slots(alloc)?;
        SlotMap::identity(alloc, &names)
    }

    // Returns the map from each name of either side to what `m` has for it, or else to a fresh slot.
    fn sent_names(
        &self,
        alloc: Global,
        m: &SlotMap,
        table: &mut SlotTable,
    ) -> Result<SlotMap, Error>
        ensures completed { IfOk result (IsCompleted table.old table.new (doubled (names_of self.now)) m.now) }
        ensures taken { IfOk result (λ names. TakesFor table.old table.new self.now m.now (values names)) }
        ensures count { TakesToSend self.now m.now table.old table.new }
        ensures names { table.new.names ≡ table.old.names }
        ensures more { KnowsMore table.old table.new }
        ensures full { IsErrOf result Error.OutOfSlots → LacksToSend self.now m.now table.old }
        ensures end { IsErrOf result Error.OutOfSlots → table.new.fresh ≡ slot_limit }
        ensures only { IfErr result IsShortage }
    {
        let own = self.own_names(alloc)?;
        own.compose_fresh(alloc, m, table)
    }

    // Returns both sides with their names sent through a map.
    fn over(&self, alloc: Global, names: &SlotMap) -> Result<Equation, Error>
        ensures ok { IfOk result (IsSentBy names.now self.now) }
        ensures err { IfErr result IsOutOfMemory }
    {
        let left = self.l.m.compose_partial(alloc, names)?;
        let right = self.r.m.compose_partial(alloc, names)?;
        Ok(Equation {
            l: AppliedId {
                id: self.l.id,
                m: left,
            },
            r: AppliedId {
                id: self.r.id,
                m: right,
            },
        })
    }

    /// Returns the equation with each name sent through `m`, and a fresh slot for each name that `m` lacks.
    ///
    /// A name that stands on both sides gets one slot for both.
    pub fn apply_slotmap_fresh(
        &self,
        alloc: Global,
        m: &SlotMap,
        table: &mut SlotTable,
    ) -> Result<Equation, Error>
        ensures sent { IfOk result (IsSentOn table.old table.new m.now self.now) }
        ensures left_injective { StaysInjective self.now.l.m m.now → IfOk result (λ e. IsInjectiveMap e.l.m) }
        ensures right_injective { StaysInjective self.now.r.m m.now → IfOk result (λ e. IsInjectiveMap e.r.m) }
        ensures known { IfOk result (λ e. AreKnownOr table.new (values m.now) (side_names e)) }

        // Only fresh slots are made. A slot that is known in addition is a name of the result, of the equation or of
        // the map.
        ensures taken { IfOk result (λ e. TakesFor table.old table.new self.now m.now (side_names e)) }

        // Even on an error, at most one slot is made for each name that the map lacks.
        ensures count { TakesToSend self.now m.now table.old table.new }
        ensures names { table.new.names ≡ table.old.names }
        ensures more { KnowsMore table.old table.new }
        ensures full { IsErrOf result Error.OutOfSlots → LacksToSend self.now m.now table.old }
        ensures end { IsErrOf result Error.OutOfSlots → table.new.fresh ≡ slot_limit }
        ensures only { IfErr result IsShortage }
    {
        let names = self.sent_names(alloc, m, table)?;
        self.over(alloc, &names)
    }

    /// Returns the map from slots of the left class to the slots of the right class that have the same names.
    pub fn correspondence(&self, alloc: Global) -> Result<SlotMap, Error>
        requires { IsInjectiveMap self.now.r.m }
        ensures ok { IfOk result (λ m. m ≡ same_names self.now.l.m self.now.r.m) }
        ensures err { IfErr result IsOutOfMemory }
    {
        shared_names(alloc, &self.l.m, &self.r.m)
    }

    /// Returns the same equation with the names `$0`, `$1` and so on, in the order in which they first occur, left
    /// side first.
    pub fn numbered(&self, alloc: Global) -> Result<Equation, Error>
        requires left { IsInjectiveMap self.now.l.m }
        requires right { IsInjectiveMap self.now.r.m }
        ensures ok { IfOk result (IsWritten (statement_of self.now)) }
        ensures full { IsErrOf result Error.OutOfSlots ↔ HasManyNames self.now }
        ensures err { IfErr result IsShortage }
    {
        numbered(alloc, &self.l, &self.r)
    }

    /// Returns the equation turned round, with numbered names.
    pub fn turned(&self, alloc: Global) -> Result<Equation, Error>
        requires left { IsInjectiveMap self.now.l.m }
        requires right { IsInjectiveMap self.now.r.m }
        ensures ok { IfOk result (IsWritten (turned_statement (statement_of self.now))) }
        ensures full { IsErrOf result Error.OutOfSlots ↔ HasManyNames self.now }
        ensures err { IfErr result IsShortage }
    {
        numbered(alloc, &self.r, &self.l)
    }

    /// Returns the equation from the left side of this one to the right side of the other, with numbered names.
    ///
    /// Two slots share a name if and only if they share one with the same slot in the middle.
    pub fn composite(&self, alloc: Global, other: &Equation) -> Result<Equation, Error>
        requires left { IsInjectiveMap self.now.l.m }
        requires middle { IsInjectiveMap self.now.r.m }
        requires other_middle { IsInjectiveMap other.now.l.m }
        requires right { IsInjectiveMap other.now.r.m }
        requires meets { Meets (statement_of self.now) (statement_of other.now) }
        ensures ok { IfOk result (IsWritten (composite_statement (statement_of self.now) (statement_of other.now))) }
        ensures full { IsErrOf result Error.OutOfSlots ↔ HaveManyNames self.now.l.m other.now.r.m }
        ensures err { IfErr result IsShortage }
    {
        if !is_short(&self.l, &other.r) {
            return Err(Error::OutOfSlots);
        }
        prove_eq!(self.r.m.len(), other.l.m.len());
        let partners = shared_over(alloc, &other.r.m, &other.l.m, &self.r.m, &self.l.m)?;
        number_sides(alloc, &self.l, &other.r, &partners)
    }

    /// Returns the equation of two classes over the slots of two ids of them, with numbered names.
    ///
    /// A slot of the right class shares its name with its partner in the left class, and with no other slot.
    pub fn by_partners(
        alloc: Global,
        l: &AppliedId,
        r: &AppliedId,
        partners: &SlotMap,
    ) -> Result<Equation, Error>
        requires { IsPartialInjection (keys r.now.m) (keys l.now.m) partners.now }
        ensures ok { IfOk result (IsWritten (partnered_statement l.now r.now partners.now)) }
        ensures full { IsErrOf result Error.OutOfSlots ↔ HaveManyNames l.now.m r.now.m }
        ensures err { IfErr result IsShortage }
    {
        if !is_short(l, r) {
            return Err(Error::OutOfSlots);
        }
        number_sides(alloc, l, r, partners)
    }
}
