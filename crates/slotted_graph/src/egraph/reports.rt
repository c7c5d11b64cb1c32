//! Reports on the graph's classes, and slots of its table.
ghost use Rattle.std.specs.Prelude.{◌≡◌, ◌⊎◌, ◌↔◌, ◌+◌, ◌<◌, length, false, IsTrue, IfOk, IfErr, IsErrOf, OnErr, OnOk};
ghost use Rattle.slotted_lookup.specs.Reports.{live_ids};
ghost use Rattle.slotted_slots.specs.Error.{IsOutOfMemory};
ghost use Rattle.slotted_slots.specs.Naming.{IsNamingRefusal};
ghost use Rattle.slotted_slots.specs.Table.{IsNewName, PrintsWord, fresh_slot, gives, is_known, named_of, no_place, slot_limit, too_large, AllKnown};
ghost use Rattle.slotted_proofs.specs.Equations.{to_applied};
ghost use Rattle.slotted_operations.specs.Causes.{class_found};
ghost use Rattle.slotted_operations.specs.ValidIds.{IsValidId};
ghost use Rattle.slotted_operations.specs.Graph.{OnlyReads, OnlyTakesSlots};
ghost use Rattle.slotted_operations.specs.Image.{found_id};
ghost use Rattle.slotted_operations.specs.Reports.{HasClass, IsFoundFor, class_numbers, live_classes, names_slots, slots_used};
ghost use Rattle.slotted_graph.specs.Measure.{IsProgress, no_progress};

use super::EGraph;
use slotted_classes::Store;
use slotted_data::Analysis;
use slotted_languages::Language;
use slotted_lookup::{finding, reports};
use slotted_reports::{ProgressMeasure, measure};
use slotted_slots::{AppliedId, Error, Id, Slot, SmallHashSet};
use std::alloc::Global;

// Returns the live classes, ascending.
fn live_ids<L: Language>(store: &Store<L>, alloc: Global) -> Result<Vec<Id>, Error>
    ensures ok { IfOk result (λ v. class_numbers v.items ≡ live_ids store.now) }
    ensures err { IfErr result IsOutOfMemory }
{
    let mut ids = Vec::new(alloc);
    for class in 0..store.class_count() {
        if reports::is_alive(store, class) {
            ids.push(Id(class))?;
        }
    }
    Ok(ids)
}

impl<L: Language, N: Analysis<L>> EGraph<L, N> {
    /// Returns whether a number is that of a class. The answer is false in a failed graph. Takes no memory.
    pub fn is_valid_id(&self, id: Id) -> bool
        ensures { IsTrue result ↔ HasClass self.now id.0 }
    {
        !self.failed && id.0 < self.store.class_count()
    }

    /// Returns whether a number is that of a live class. The answer is false in a failed graph. Takes no memory.
    pub fn is_alive(&self, id: Id) -> bool
        ensures { IsTrue result ↔ (HasClass self.now id.0 × (class_found self.now.image id.0 ≡ id.0)) }
    {
        self.is_valid_id(id) && reports::is_alive(&self.store, id.0)
    }

    /// Returns what `find` maps an applied id to: a live class, with a name for just each slot that is not redundant.
    /// The id may omit names of redundant slots.
    pub fn find_applied_id(&self, a: &AppliedId) -> Result<AppliedId, Error>
        requires { IsTrue self.now.failed ⊎ IsValidId self.now (to_applied a.now) }
        ensures ok { IfOk result (λ b. to_applied b ≡ found_id self.now.image (to_applied a.now)) }

        // The answer is a canonical id. `eq` of the id and the answer is true.
        ensures found { IfOk result (λ b. IsFoundFor self.now (to_applied a.now) (to_applied b)) }

        ensures failed { IsErrOf result Error.Failed ↔ IsTrue self.now.failed }
        ensures only { IfErr result (λ e. (e ≡ Error.Failed) ⊎ (e ≡ Error.OutOfMemory)) }
    {
        if self.failed {
            return Err(Error::Failed);
        }
        finding::find_applied_id(&self.store, self.alloc, a)
    }

    /// Returns the live classes, ascending.
    pub fn ids(&self) -> Result<Vec<Id>, Error>
        ensures ok { IfOk result (λ v. class_numbers v.items ≡ live_classes self.now.image) }

        ensures failed { IsErrOf result Error.Failed ↔ IsTrue self.now.failed }
        ensures only { IfErr result (λ e. (e ≡ Error.Failed) ⊎ (e ≡ Error.OutOfMemory)) }
    {
        if self.failed {
            return Err(Error::Failed);
        }
        let ids = live_ids(&self.store, self.alloc)?;
        Ok(ids)
    }

    /// Returns the progress measure of the graph. Nothing is counted in a failed graph. Takes no memory.
    pub fn progress(&self) -> ProgressMeasure
        ensures measure { IsTrue self.now.failed ⊎ IsProgress self.now.image result }
        ensures failed { IsTrue self.now.failed → result ≡ no_progress }
    {
        if self.failed {
            return ProgressMeasure {
                number_of_classes: 0,
                number_of_live_classes: 0,
                sum_of_slots: 0,
                sum_of_symmetries: 0,
            };
        }
        measure::progress(&self.store)
    }

    /// Returns the slots of a class that are not redundant, ascending. The table knows them.
    pub fn slots(&self, id: Id) -> Result<SmallHashSet<Slot>, Error>
        requires { IsTrue self.now.failed ⊎ (id.0 < length self.now.image.canonical) }
        ensures ok { IfOk result (λ s. s ≡ slots_used self.now.image id.0) }
        ensures known { IfOk result (λ s. AllKnown self.now.table s) }

        ensures failed { IsErrOf result Error.Failed ↔ IsTrue self.now.failed }
        ensures only { IfErr result (λ e. (e ≡ Error.Failed) ⊎ (e ≡ Error.OutOfMemory)) }
    {
        if self.failed {
            return Err(Error::Failed);
        }
        reports::slots_of(&self.store, self.alloc, id.0)
    }

    /// Returns a class with each slot that is not redundant as its own name.
    pub fn mk_identity_applied_id(&self, id: Id) -> Result<AppliedId, Error>
        requires { IsTrue self.now.failed ⊎ (id.0 < length self.now.image.canonical) }
        ensures ok { IfOk result (λ a. to_applied a ≡ names_slots self.now.image id.0) }
        ensures valid { IfOk result (λ a. IsValidId self.now (to_applied a)) }

        ensures failed { IsErrOf result Error.Failed ↔ IsTrue self.now.failed }
        ensures only { IfErr result (λ e. (e ≡ Error.Failed) ⊎ (e ≡ Error.OutOfMemory)) }
    {
        if self.failed {
            return Err(Error::Failed);
        }
        let made = reports::mk_identity_applied_id(&self.store, self.alloc, id.0)?;
        Ok(made)
    }

    /// Returns a slot that the graph's table never made before. Takes no memory.
    pub fn fresh_slot(&mut self) -> Result<Slot, Error>
        ensures slot { IfOk result (λ s. s ≡ fresh_slot self.old.table.fresh) }
        ensures moved { OnOk result (self.new.table ≡ record self.old.table { fresh = self.old.table.fresh + 1 }) }

        // The slot was not known, and is known from now on. Only the table changes. An error does not fail the graph.
        ensures unused { IfOk result (λ s. is_known self.old.table s ≡ false) }
        ensures known { IfOk result (λ s. IsTrue (is_known self.new.table s)) }
        ensures takes { OnlyTakesSlots self.old self.new }
        ensures err { OnErr result (self.new ≡ self.old) }

        ensures failed { IsErrOf result Error.Failed ↔ IsTrue self.old.failed }
        ensures full { IsErrOf result Error.OutOfSlots
            ↔ ((self.old.failed ≡ false) × (self.old.table.fresh ≡ slot_limit)) }
        ensures only { IfErr result (λ e. (e ≡ Error.Failed) ⊎ (e ≡ Error.OutOfSlots)) }
    {
        if self.failed {
            return Err(Error::Failed);
        }
        self.table.fresh()
    }

    /// Returns the slot of the text after a `$` in the graph's table, as `SlotTable::named` reads it. Only a new name
    /// takes memory.
    pub fn named_slot(&mut self, s: &str) -> Result<Slot, Error>
        ensures slot { IfOk result (λ slot. named_of self.old.table s.now ≡ gives slot self.new.table) }

        // The slot is known from now on, and a name prints as it was given. Only the table changes. An error does not
        // fail the graph.
        ensures known { IfOk result (λ slot. IsTrue (is_known self.new.table slot)) }
        ensures shown { IfOk result (PrintsWord self.new.table s.now) }
        ensures reads { OnlyReads self.old self.new }
        ensures err { OnErr result (self.new ≡ self.old) }

        ensures failed { IsErrOf result Error.Failed ↔ IsTrue self.old.failed }
        ensures large { IsErrOf result Error.NumberTooLarge
            ↔ ((self.old.failed ≡ false) × (named_of self.old.table s.now ≡ too_large)) }
        ensures full { IsErrOf result Error.OutOfSlots
            ↔ ((self.old.failed ≡ false) × (named_of self.old.table s.now ≡ no_place)) }
        ensures memory { IsErrOf result Error.OutOfMemory → IsNewName self.old.table s.now }
        ensures only { IfErr result (λ e. (e ≡ Error.Failed) ⊎ IsNamingRefusal e) }
    {
        if self.failed {
            return Err(Error::Failed);
        }
        self.table.named(s)
    }
}
