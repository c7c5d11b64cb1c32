//! Uniting ids.
ghost use Rattle.std.specs.Prelude.{◌≡◌, ◌⊎◌, ◌↔◌, None, false, IsErr, IsErrOf, IsTrue, IfErr, IfOk, OnOk};
ghost use Rattle.slotted_slots.specs.Error.{IsShortage};
ghost use Rattle.slotted_slots.specs.Table.{KnowsMore};
ghost use Rattle.slotted_proofs.specs.Equations.{to_applied};
ghost use Rattle.slotted_classes.specs.Kept.{text_bytes};
ghost use Rattle.slotted_operations.specs.Causes.{HasLargeClassIn};
ghost use Rattle.slotted_operations.specs.Graph.{RecordsUnion};
ghost use Rattle.slotted_operations.specs.Image.{IsUnion, FoundAlike};
ghost use Rattle.slotted_operations.specs.ValidIds.{IsValidId};
ghost use Rattle.slotted_graph.specs.Analysed.{CarriesData};
ghost use Rattle.slotted_graph.specs.Counted.{CountsUnion};
ghost use Rattle.slotted_graph.specs.Extension.{ExtendsTo};
ghost use Rattle.slotted_graph.specs.Measure.{NeverRises};
ghost use Rattle.slotted_graph.specs.Writing.{IfUnmodified, UnitesAndModifies};

use crate::egraph::EGraph;
use slotted_data::Analysis;
use slotted_languages::Language;
use slotted_slots::{AppliedId, Error};

impl<L: Language, N: Analysis<L>> EGraph<L, N> {
    // Unites two ids, and modifies classes.
    fn unite_and_modify(
        &mut self,
        l: &AppliedId,
        r: &AppliedId,
        text: Option<String>,
    ) -> Result<bool, Error>
        requires left { IsTrue self.old.failed ⊎ IsValidId self.old (to_applied l.now) }
        requires right { IsTrue self.old.failed ⊎ IsValidId self.old (to_applied r.now) }
        ensures unites { IfOk result
            (UnitesAndModifies N.codes N.meaning N.may_ask N.modifies self.old self.new l.now r.now (text_bytes text)) }
        ensures more { KnowsMore self.old.table self.new.table }
        ensures stays { IsTrue self.old.failed → self.new ≡ self.old }
        ensures failed { IsErrOf result Error.Failed ↔ IsTrue self.old.failed }
        ensures fails { IsTrue self.new.failed ↔ IsErr result }
        ensures only { IfErr result (λ e. (e ≡ Error.Failed) ⊎ IsShortage e) }
    {
        let answer = self.union_quietly(l, r, text)?;
        self.modify()?;
        Ok(answer)
    }

    /// Unites two ids because the caller says that they are equal. Returns whether they were not found equal before.
    ///
    /// The ids may omit names of redundant slots. The asserted equation is that of any two full ids that fill them by
    /// different names.
    ///
    /// From then on `find` maps both ids to one class with one set of names. They are found equal unless a symmetry of
    /// that class is open. Slots that only one of the sides has are redundant then. Equal e-nodes over the ids are
    /// united too: what was asserted is closed under congruence again. Then classes are modified, as `modify` does.
    pub fn union(&mut self, l: &AppliedId, r: &AppliedId) -> Result<bool, Error>
        requires left { IsTrue self.old.failed ⊎ IsValidId self.old (to_applied l.now) }
        requires right { IsTrue self.old.failed ⊎ IsValidId self.old (to_applied r.now) }
        ensures unites { IfOk result
            (UnitesAndModifies N.codes N.meaning N.may_ask N.modifies self.old self.new l.now r.now None) }
        ensures answer { IfOk result (λ y. IsTrue y ↔ (¬ FoundAlike self.old.image (to_applied l.now) (to_applied r.now))) }
        ensures extends { OnOk result (ExtendsTo self.old self.new) }
        ensures more { KnowsMore self.old.table self.new.table }

        // If classes are never modified, this is the whole change.
        ensures union { IfUnmodified N.modifies (IfOk result (IsUnion self.old.image self.new.image (to_applied l.now) (to_applied r.now))) }
        ensures text { IfUnmodified N.modifies (OnOk result (RecordsUnion self.old self.new l.now r.now None)) }

        // If the answer is false, no e-node is filed anew. No class is added, and no more are live. If as many are live
        // as before, they have no more slots.
        ensures filed { IfUnmodified N.modifies (IfOk result (λ y. y ≡ false → self.new.filed ≡ self.old.filed)) }
        ensures counts { IfUnmodified N.modifies (OnOk result (NeverRises self.old.image self.new.image)) }

        // The rebuild found no more e-nodes than were filed, and no greater size than the graph had.
        ensures counted { IfUnmodified N.modifies (OnOk result (CountsUnion self.old self.new)) }
        ensures table { IfUnmodified N.modifies (self.new.table ≡ self.old.table) }
        ensures carries { IfUnmodified N.modifies (OnOk result (CarriesData N.codes N.meaning self.old self.new)) }
        ensures full { IfUnmodified N.modifies (IsErrOf result Error.OutOfSlots → HasLargeClassIn self.old.image) }

        ensures stays { IsTrue self.old.failed → self.new ≡ self.old }
        ensures failed { IsErrOf result Error.Failed ↔ IsTrue self.old.failed }
        ensures fails { IsTrue self.new.failed ↔ IsErr result }
        ensures only { IfErr result (λ e. (e ≡ Error.Failed) ⊎ IsShortage e) }
    {
        self.union_justified(l, r, None)
    }

    /// Unites two ids as `union` does, with a text that says why.
    pub fn union_justified(
        &mut self,
        l: &AppliedId,
        r: &AppliedId,
        text: Option<String>,
    ) -> Result<bool, Error>
        requires left { IsTrue self.old.failed ⊎ IsValidId self.old (to_applied l.now) }
        requires right { IsTrue self.old.failed ⊎ IsValidId self.old (to_applied r.now) }

        // The ids are united, and then classes are modified. If the equation was not proved before, it is a new entry,
        // asserted with the text.
        ensures unites { IfOk result
            (UnitesAndModifies N.codes N.meaning N.may_ask N.modifies self.old self.new l.now r.now (text_bytes text)) }

        // The answer is true if `eq` answered false before. What was there stays, and slots that were known still are
        // also if the union is refused.
        ensures answer { IfOk result (λ y. IsTrue y ↔ (¬ FoundAlike self.old.image (to_applied l.now) (to_applied r.now))) }
        ensures extends { OnOk result (ExtendsTo self.old self.new) }
        ensures more { KnowsMore self.old.table self.new.table }

        // If classes are never modified, this is the whole change.
        ensures union { IfUnmodified N.modifies (IfOk result (IsUnion self.old.image self.new.image (to_applied l.now) (to_applied r.now))) }
        ensures text { IfUnmodified N.modifies (OnOk result (RecordsUnion self.old self.new l.now r.now (text_bytes text))) }

        // If the answer is false, no e-node is filed anew. No class is added, and no more are live. If as many are live
        // as before, they have no more slots.
        ensures filed { IfUnmodified N.modifies (IfOk result (λ y. y ≡ false → self.new.filed ≡ self.old.filed)) }
        ensures counts { IfUnmodified N.modifies (OnOk result (NeverRises self.old.image self.new.image)) }

        // The rebuild found no more e-nodes than were filed, and no greater size than the graph had.
        ensures counted { IfUnmodified N.modifies (OnOk result (CountsUnion self.old self.new)) }
        ensures table { IfUnmodified N.modifies (self.new.table ≡ self.old.table) }
        ensures carries { IfUnmodified N.modifies (OnOk result (CarriesData N.codes N.meaning self.old self.new)) }
        ensures full { IfUnmodified N.modifies (IsErrOf result Error.OutOfSlots → HasLargeClassIn self.old.image) }

        ensures stays { IsTrue self.old.failed → self.new ≡ self.old }
        ensures failed { IsErrOf result Error.Failed ↔ IsTrue self.old.failed }
        ensures fails { IsTrue self.new.failed ↔ IsErr result }
        ensures only { IfErr result (λ e. (e ≡ Error.Failed) ⊎ IsShortage e) }
    {
        if N::modifies() {
            return self.unite_and_modify(l, r, text);
        }
        self.union_quietly(l, r, text)
    }
}
