//! Merging values into the data of classes.
ghost use Rattle.std.specs.Prelude.{◌≡◌, ◌⊎◌, ◌↔◌, ◌<◌, ◌∷◌, [], length, IsTrue, IfErr, IsErr, IsErrOf, OnOk};
ghost use Rattle.slotted_slots.specs.Error.{IsShortage};
ghost use Rattle.slotted_slots.specs.Table.{KnowsMore};
ghost use Rattle.slotted_operations.specs.LookUp.{HasSameClasses};
ghost use Rattle.slotted_graph.specs.Analysed.{AbsorbsValue, MergesData};
ghost use Rattle.slotted_graph.specs.Writing.{IfUnmodified, LeavesAskedWith, MergesAndModifies};

use crate::egraph::EGraph;
use slotted_data::Analysis;
use slotted_languages::Language;
use slotted_slots::{Error, Id};

impl<L: Language, N: Analysis<L>> EGraph<L, N> {
    /// Merges a value into the data of the class that `find` maps a class to. From there values go upwards. Then
    /// classes are modified, as `modify` does.
    pub fn merge_analysis_data(&mut self, id: Id, value: &N::Data) -> Result<(), Error>
        requires { IsTrue self.old.failed ⊎ (id.0 < length self.old.image.canonical) }

        // Data is only lowered, it comes from the value and from what was there, and merging the value again changes
        // nothing. Only what the analysis asks for is asserted.
        ensures modified { OnOk result
            (MergesAndModifies N.codes N.meaning N.may_ask N.modifies self.old self.new id.0 value.now) }
        ensures absorbs { OnOk result (AbsorbsValue N.codes N.meaning self.new id.0 value.now) }
        ensures leaves { OnOk result (LeavesAskedWith ((id.0, value.now) ∷ []) N.codes N.meaning N.may_ask self.old self.new) }
        ensures more { KnowsMore self.old.table self.new.table }

        // If classes are never modified, only data changes, and no slot is wanted.
        ensures merges { IfUnmodified N.modifies (OnOk result (MergesData N.codes N.meaning self.old self.new id.0 value.now)) }
        ensures same { IfUnmodified N.modifies (OnOk result (HasSameClasses self.old self.new)) }
        ensures full { IfUnmodified N.modifies (¬ IsErrOf result Error.OutOfSlots) }

        ensures stays { IsTrue self.old.failed → self.new ≡ self.old }
        ensures failed { IsErrOf result Error.Failed ↔ IsTrue self.old.failed }
        ensures fails { IsTrue self.new.failed ↔ IsErr result }
        ensures only { IfErr result (λ e. (e ≡ Error.Failed) ⊎ IsShortage e) }
    {
        self.merge_data_quietly(id, value)?;
        self.modify()?;
        Ok(())
    }
}
