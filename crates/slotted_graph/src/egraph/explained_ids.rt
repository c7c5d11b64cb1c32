//! Explanations of two ids.
ghost use Rattle.std.specs.Prelude.{◌≡◌, ◌⊎◌, ◌↔◌, IsTrue, IfOk, IfErr, IsErr, IsErrOf};
ghost use Rattle.slotted_slots.specs.Error.{IsShortage};
ghost use Rattle.slotted_model.specs.ProofList.{equation_of};
ghost use Rattle.slotted_proofs.specs.Equations.{to_applied};
ghost use Rattle.slotted_operations.specs.Causes.{HasLargeClassOf};
ghost use Rattle.slotted_operations.specs.Explaining.{AddsTerms, KeepsClasses, StandsAt};
ghost use Rattle.slotted_operations.specs.Graph.{IsFullId};
ghost use Rattle.slotted_operations.specs.Image.{FoundAlike};
ghost use Rattle.slotted_graph.specs.States.{IsGraph};

use super::EGraph;
use slotted_data::Analysis;
use slotted_languages::Language;
use slotted_operations::explaining::explain_ids;
use slotted_proofs::ProvenEq;
use slotted_slots::{AppliedId, Error};

impl<L: Language, N: Analysis<L>> EGraph<L, N> {
    /// Returns the proof that two full ids are equal: the number of the entry of the proof list that says so.
    ///
    /// The ids stand in the entry as they are given, so that a checked step can go on from there. `NotEqual` does not
    /// fail the graph.
    pub fn explain_ids(&mut self, a: &AppliedId, b: &AppliedId) -> Result<ProvenEq, Error>
        requires left { IsTrue self.old.failed ⊎ IsFullId self.old (to_applied a.now) }
        requires right { IsTrue self.old.failed ⊎ IsFullId self.old (to_applied b.now) }

        // Ids that are equal by `eq` are explained. The answer is `NotEqual` if and only if they are not found equal.
        ensures explains { IfOk result (λ p. StandsAt self.new.image p (equation_of (to_applied a.now) (to_applied b.now))) }
        ensures alike { IfOk result (λ _. FoundAlike self.old.image (to_applied a.now) (to_applied b.now)) }
        ensures not_equal { IsErrOf result Error.NotEqual
            → ¬ FoundAlike self.old.image (to_applied a.now) (to_applied b.now) }

        // Entries of the proof list are all that is new, and they assert nothing.
        ensures kept { IsTrue self.new.failed ⊎ KeepsClasses self.old self.new }
        ensures adds { IsTrue self.new.failed ⊎ AddsTerms self.old.image self.new.image }

        // A graph that has not failed is rebuilt.
        ensures rests { IsTrue self.new.failed ⊎ IsGraph self.new }

        ensures stays { IsTrue self.old.failed → self.new ≡ self.old }
        ensures failed { IsErrOf result Error.Failed ↔ IsTrue self.old.failed }
        ensures fails { IsTrue self.new.failed ↔ (IsErr result × ¬ IsErrOf result Error.NotEqual) }
        ensures full { IsErrOf result Error.OutOfSlots
            → HasLargeClassOf self.old.image (to_applied a.now) (to_applied b.now) }
        ensures only { IfErr result (λ e. (e ≡ Error.Failed) ⊎ (e ≡ Error.NotEqual) ⊎ IsShortage e) }
    {
        if self.failed {
            return Err(Error::Failed);
        }
        self.failed = true;
        self.index.clear();
        let answer = explain_ids(&mut self.store, self.alloc, a, b)?;
        self.failed = false;
        match answer {
            Some(p) => Ok(p),
            None => Err(Error::NotEqual),
        }
    }
}
