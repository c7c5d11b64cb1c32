//! `find`: the live class that an applied id belongs to, with the names that it keeps.
ghost use Rattle.std.specs.Prelude.{◌≡◌, ◌<◌, ◌↔◌, length, IsTrue, IfOk, IfErr};
ghost use Rattle.slotted_slots.specs.Error.{IsOutOfMemory};
ghost use Rattle.slotted_theory.specs.FiniteMaps.{value_of};
ghost use Rattle.slotted_model.specs.Classes.{canonical_slots};
ghost use Rattle.slotted_model.specs.Correspondence.{identity};
ghost use Rattle.slotted_model.specs.Find.{IsLive, find_class, find_map, find};
ghost use Rattle.slotted_classes.specs.Kept.{entries_of, nodes_of, rows_from};
ghost use Rattle.slotted_proofs.specs.Equations.{to_applied};
ghost use Rattle.slotted_classes.specs.Finding.{HasFinds, HasFoundName, HasFoundNames, IsFindable, FindAlike, LivesWithAll};

use crate::names::map_between;
use crate::store::Store;
use slotted_languages::Language;
use slotted_slots::{AppliedId, Error, Id, Slot, SlotMap};
use std::alloc::Global;

impl<L: Language> Store<L> {
    // Calls that take no memory.

    /// Returns the live class to which `find` maps a class.
    pub fn find_class(&self, id: usize) -> usize
        requires good { HasFinds self.now }
        requires within { id < length self.now.classes }
        ensures class { result ≡ find_class (entries_of self.now) id }
        ensures within { result < length self.now.classes }
        ensures live { IsLive (entries_of self.now) result }
    {
        let next = self.entry(id).id.0;
        if next == id {
            return id;
        }
        self.find_class(next)
    }

    /// Returns the slot of a class for which a slot of its live class stands.
    pub fn found_slot(&self, id: usize, slot: Slot) -> Option<Slot>
        requires good { HasFinds self.now }
        requires within { id < length self.now.classes }
        ensures { result ≡ value_of (find_map (entries_of self.now) id) slot }
    {
        let entry = self.entry(id);
        if entry.id.0 == id {
            return entry.m.get(slot);
        }
        match self.found_slot(entry.id.0, slot) {
            Some(next) => entry.m.get(next),
            None => None,
        }
    }

    // Returns the name that an id has for a slot of its live class.
    fn found_name(&self, a: &AppliedId, slot: Slot) -> Option<Slot>
        requires good { HasFinds self.now }
        requires findable { IsFindable self.now (to_applied a.now) }
        ensures { result ≡ value_of (find (entries_of self.now) (to_applied a.now)).1 slot }
    {
        match self.found_slot(a.id.0, slot) {
            Some(own) => a.m.get(own),
            None => None,
        }
    }

    // Returns whether two ids of one live class have the same names for its slots.
    fn have_same_names(&self, class: usize, a: &AppliedId, b: &AppliedId) -> bool
        requires good { HasFinds self.now }
        requires left { IsFindable self.now (to_applied a.now) }
        requires right { IsFindable self.now (to_applied b.now) }
        requires left_class { class ≡ find_class (entries_of self.now) a.now.id.0 }
        requires right_class { class ≡ find_class (entries_of self.now) b.now.id.0 }
        requires within { class < length self.now.classes }
        ensures { IsTrue result ↔ FindAlike (entries_of self.now) (to_applied a.now) (to_applied b.now) }
    {
        let slots = &self.entry(class).m;
        for i in 0..slots.len() {
            let slot = slots.value_at(i);
            if self.found_name(a, slot) != self.found_name(b, slot) {
                return false;
            }
        }
        true
    }

    /// Returns whether two valid ids are found equal: `find` maps them to one class with the same names. Takes no
    /// memory.
    pub fn eq(&self, a: &AppliedId, b: &AppliedId) -> bool
        requires good { HasFinds self.now }
        requires left { IsFindable self.now (to_applied a.now) }
        requires right { IsFindable self.now (to_applied b.now) }
        ensures { IsTrue result ↔ FindAlike (entries_of self.now) (to_applied a.now) (to_applied b.now) }
    {
        let class = self.find_class(a.id.0);
        if self.find_class(b.id.0) != class {
            return false;
        }
        self.have_same_names(class, a, b)
    }

    /// Returns whether the class of an id is live, and has as many slots left as the id has names. A valid id is
    /// canonical exactly then. Takes no memory.
    pub fn is_canonical(&self, a: &AppliedId) -> bool
        requires { a.now.id.0 < length self.now.classes }
        ensures { IsTrue result ↔ LivesWithAll self.now (to_applied a.now) }
    {
        let entry = self.entry(a.id.0);
        entry.id.0 == a.id.0 && entry.m.len() == a.m.len()
    }

    // Returns whether an id has a name for a slot of its live class.
    fn has_found_name(&self, a: &AppliedId, slot: Slot) -> bool
        requires good { HasFinds self.now }
        requires within { a.now.id.0 < length self.now.classes }
        ensures { IsTrue result ↔ HasFoundName self.now (to_applied a.now) slot }
    {
        match self.found_slot(a.id.0, slot) {
            Some(own) => a.m.contains_key(own),
            None => true,
        }
    }

    /// Returns whether an id has a name for each slot of its live class. Takes no memory.
    pub fn has_found_names(&self, a: &AppliedId) -> bool
        requires good { HasFinds self.now }
        requires within { a.now.id.0 < length self.now.classes }
        ensures { IsTrue result ↔ HasFoundNames self.now (to_applied a.now) }
    {
        let slots = &self.entry(self.find_class(a.id.0)).m;
        for i in 0..slots.len() {
            if !self.has_found_name(a, slots.value_at(i)) {
                return false;
            }
        }
        true
    }

    // Calls that take memory.

    /// Returns the map from the slots of its live class to the slots of a class for which they stand.
    pub fn found_map(&self, alloc: Global, id: usize) -> Result<SlotMap, Error>
        requires good { HasFinds self.now }
        requires within { id < length self.now.classes }
        ensures ok { IfOk result (λ m. m ≡ find_map (entries_of self.now) id) }
        ensures err { IfErr result IsOutOfMemory }
    {
        let entry = self.entry(id);
        if entry.id.0 == id {
            return entry.m.copy(alloc);
        }
        let map = self.found_map(alloc, entry.id.0)?;
        map.compose_partial(alloc, &entry.m)
    }

    /// Returns the class with each of its canonical slots as its name.
    pub fn own_id(&self, alloc: Global, class: usize) -> Result<AppliedId, Error>
        requires rows { self.now.rows ≡ rows_from 0 self.now.classes }
        requires within { class < length self.now.classes }
        ensures ok { IfOk result (λ a. to_applied a ≡ (class, identity (canonical_slots (nodes_of self.now) class))) }
        ensures err { IfErr result IsOutOfMemory }
    {
        let slots = self.names_of(class);
        Ok(AppliedId {
            id: Id(class),
            m: map_between(alloc, slots, slots)?,
        })
    }

    /// Returns what `find` maps a valid id to: its live class, with the names that it keeps.
    pub fn found_id(&self, alloc: Global, a: &AppliedId) -> Result<AppliedId, Error>
        requires good { HasFinds self.now }
        requires findable { IsFindable self.now (to_applied a.now) }
        ensures ok { IfOk result (λ b. to_applied b ≡ find (entries_of self.now) (to_applied a.now)) }
        ensures err { IfErr result IsOutOfMemory }
    {
        let map = self.found_map(alloc, a.id.0)?;
        Ok(AppliedId {
            id: Id(self.find_class(a.id.0)),
            m: map.compose_partial(alloc, &a.m)?,
        })
    }
}
