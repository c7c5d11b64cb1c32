//! The analysis of a graph, and the data of its classes.
ghost use Rattle.std.specs.Prelude.{◌≡◌, ◌⊎◌, ◌↔◌, ◌<◌, false, length, IsTrue, IfErr, IfOk, IsErr, IsErrOf, OnOk};
ghost use Rattle.slotted_slots.specs.Error.{IsOutOfMemory, IsShortage};
ghost use Rattle.slotted_slots.specs.Table.{KnowsMore};
ghost use Rattle.slotted_operations.specs.Reports.{HasClass, class_numbers};
ghost use Rattle.slotted_operations.specs.LookUp.{HasSameClasses};
ghost use Rattle.slotted_graph.specs.Analysed.{AbsorbsMade, CountsPending, HasData, HasRounds, IsAnalysisOf, MergesData, SetsRounds, TakesPending};
ghost use Rattle.slotted_graph.specs.Rounds.{IsModified};
ghost use Rattle.slotted_graph.specs.Writing.{IfUnmodified};
ghost use Rattle.slotted_graph.specs.States.{IsGraph};

use super::EGraph;
use crate::edits::modify_in_rounds;
use slotted_data::{Analysis, merge_value, pending_count, take_pending};
use slotted_languages::Language;
use slotted_slots::{Error, Id};
use std::alloc::Global;

// Returns the ids of classes by their numbers.
fn ids_of(alloc: Global, classes: &[usize]) -> Result<Vec<Id>, Error>
    ensures ok { IfOk result (λ v. class_numbers v.items ≡ classes.now) }
    ensures err { IfErr result IsOutOfMemory }
{
    let mut ids = Vec::new(alloc);
    for class in classes {
        ids.push(Id(*class))?;
    }
    Ok(ids)
}

impl<L: Language, N: Analysis<L>> EGraph<L, N> {
    /// Returns the graph's analysis. Takes no memory.
    pub fn analysis(&self) -> &N
        ensures { IsAnalysisOf N.codes self.now result.now }
    {
        &self.analysis
    }

    /// Returns the data of the class that `find` maps a class to: the merge of what its e-nodes make, and of what was
    /// merged into it. Takes no memory.
    pub fn analysis_data(&self, id: Id) -> &N::Data
        requires { HasClass self.now id.0 }
        ensures value { HasData N.codes self.now id.0 result.now }

        // What any filed e-node makes of the data of its children is absorbed by the data of its class.
        ensures rests { AbsorbsMade N.codes N.meaning self.now }
    {
        self.data.value(self.store.find_class(id.0))
    }

    /// Merges a value as `merge_analysis_data` does, and modifies no class. Each class whose data has changed waits to
    /// be modified.
    pub fn merge_data_quietly(&mut self, id: Id, value: &N::Data) -> Result<(), Error>
        requires { IsTrue self.old.failed ⊎ (id.0 < length self.old.image.canonical) }

        // Data is only lowered, and merging the value again changes nothing.
        ensures merges { OnOk result (MergesData N.codes N.meaning self.old self.new id.0 value.now) }
        ensures same { OnOk result (HasSameClasses self.old self.new) }
        ensures table { self.new.table ≡ self.old.table }

        ensures stays { IsTrue self.old.failed → self.new ≡ self.old }
        ensures failed { IsErrOf result Error.Failed ↔ IsTrue self.old.failed }
        ensures fails { IsTrue self.new.failed ↔ IsErr result }
        ensures only { IfErr result (λ e. (e ≡ Error.Failed) ⊎ IsOutOfMemory e) }
    {
        if self.failed {
            return Err(Error::Failed);
        }
        self.failed = true;
        self.index.clear();
        merge_value(
            &self.store,
            &mut self.nodes,
            &mut self.data,
            &self.analysis,
            self.alloc,
            id.0,
            value,
        )?;
        self.failed = false;
        Ok(())
    }

    /// Returns how many live classes wait to be modified: those that were added, or whose data has changed. The answer
    /// is 0 if the analysis never modifies classes. Takes no memory.
    pub fn modify_pending(&self) -> usize
        ensures waits { IsTrue N.modifies → IsTrue self.now.failed ⊎ CountsPending N.codes self.now result }
        ensures none { N.modifies ≡ false → result ≡ 0 }
    {
        if !N::modifies() {
            return 0;
        }
        self.pending_classes()
    }

    /// Returns how many live classes were added, or have other data, since `take_pending`. Takes no memory.
    pub fn pending_classes(&self) -> usize
        ensures { IsTrue self.now.failed ⊎ CountsPending N.codes self.now result }
    {
        if self.failed {
            return 0;
        }
        pending_count(&self.store, &self.data)
    }

    /// Returns the live classes that wait to be modified, by ascending id. No class waits from then on.
    pub fn take_pending(&mut self) -> Result<Vec<Id>, Error>
        ensures taken { IfOk result (λ v. TakesPending N.codes self.old self.new (class_numbers v.items)) }
        ensures same { OnOk result (HasSameClasses self.old self.new) }
        ensures table { self.new.table ≡ self.old.table }

        // A graph that has not failed is rebuilt.
        ensures rests { IsTrue self.new.failed ⊎ IsGraph self.new }

        ensures stays { IsTrue self.old.failed → self.new ≡ self.old }
        ensures failed { IsErrOf result Error.Failed ↔ IsTrue self.old.failed }
        ensures fails { IsTrue self.new.failed ↔ IsErr result }
        ensures only { IfErr result (λ e. (e ≡ Error.Failed) ⊎ IsOutOfMemory e) }
    {
        if self.failed {
            return Err(Error::Failed);
        }
        self.failed = true;
        let taken = take_pending(&self.store, &mut self.data, self.alloc)?;
        let ids = ids_of(self.alloc, &taken)?;
        self.failed = false;
        Ok(ids)
    }

    /// Returns the limit of rounds of edits that a write makes at its end. Takes no memory.
    pub fn modify_rounds(&self) -> usize
        ensures { HasRounds N.codes self.now result }
    {
        self.rounds
    }

    /// Sets the limit of rounds of edits that a write makes at its end. A new graph has the limit 16. Takes no memory.
    pub fn set_modify_rounds(&mut self, rounds: usize)
        ensures { SetsRounds N.codes self.old self.new rounds }
    {
        self.rounds = rounds;
    }

    /// Modifies the classes that wait, in rounds, until none waits or the limit of rounds is reached. Returns whether
    /// the analysis asked for anything.
    ///
    /// Each write of the graph ends with this call, except those that end in `_quietly`. If the analysis never modifies
    /// classes, nothing is done.
    pub fn modify(&mut self) -> Result<bool, Error>
        ensures modified { IfOk result (IsModified N.codes N.meaning N.may_ask N.modifies self.old self.new) }

        // Slots that were known still are, also if the call is refused.
        ensures more { KnowsMore self.old.table self.new.table }
        ensures unmodified { IfUnmodified N.modifies (IfErr result (λ e. e ≡ Error.Failed)) }

        ensures stays { IsTrue self.old.failed → self.new ≡ self.old }
        ensures failed { IsErrOf result Error.Failed ↔ IsTrue self.old.failed }
        ensures fails { IsTrue self.new.failed ↔ IsErr result }
        ensures only { IfErr result (λ e. (e ≡ Error.Failed) ⊎ IsShortage e) }
    {
        if self.is_failed() {
            return Err(Error::Failed);
        }
        if !N::modifies() {
            return Ok(false);
        }
        let limit = self.modify_rounds();
        let alloc = self.alloc;
        modify_in_rounds(self, alloc, limit)
    }
}
