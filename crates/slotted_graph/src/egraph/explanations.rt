//! Explanations of two terms.
ghost use Rattle.std.specs.Prelude.{◌≡◌, ◌⊎◌, ◌↔◌, ◌+◌, IsTrue, IfOk, IfErr, IsErr, IsErrOf};
ghost use Rattle.slotted_slots.specs.Error.{IsShortage};
ghost use Rattle.slotted_slots.specs.Table.{KnowsMore};
ghost use Rattle.slotted_terms.specs.Valid.{IsValidTerm};
ghost use Rattle.slotted_operations.specs.Explaining.{AddsTerms, Explains, FilesOnlyTerms, FindsApart, KeepsKnown, RunsOutForTerms};
ghost use Rattle.slotted_operations.specs.Graph.{MakesAtMost};
ghost use Rattle.slotted_operations.specs.Places.{term_slots};
ghost use Rattle.slotted_graph.specs.Analysed.{CarriesData};
ghost use Rattle.slotted_graph.specs.States.{IsGraph};

use super::EGraph;
use crate::writes::explaining;
use slotted_data::Analysis;
use slotted_languages::Language;
use slotted_proofs::ProvenEq;
use slotted_slots::Error;
use slotted_terms::expr::RecExpr;

impl<L: Language, N: Analysis<L>> EGraph<L, N> {
    /// Explains as `explain_equivalence` does, and modifies no class. New classes, and those whose data has changed,
    /// wait to be modified.
    pub fn explain_quietly(
        &mut self,
        left: &RecExpr<L>,
        right: &RecExpr<L>,
    ) -> Result<ProvenEq, Error>
        requires left { IsTrue self.old.failed ⊎ IsValidTerm self.old.table left.now }
        requires right { IsTrue self.old.failed ⊎ IsValidTerm self.old.table right.now }

        // Terms that are equal by `eq` are explained. The answer is `NotEqual` if and only if the ids of the terms are
        // not found equal.
        ensures explains { IfOk result (Explains self.new.image left.now right.now) }
        ensures not_equal { IsErrOf result Error.NotEqual → FindsApart self.new.image left.now right.now }

        // Nothing is asserted, and what was there stays. Ids that were found equal still are. `NotEqual` does not fail
        // the graph.
        ensures adds { IsTrue self.new.failed ⊎ AddsTerms self.old.image self.new.image }

        // A look-up of some subterm answers each new class. If both terms have ids, no class is added.
        ensures filed { IsTrue self.new.failed ⊎ FilesOnlyTerms self.old self.new left.now right.now }
        ensures kept { IsTrue self.new.failed ⊎ KeepsKnown self.old self.new left.now right.now }
        ensures more { KnowsMore self.old.table self.new.table }
        ensures takes { MakesAtMost (term_slots left.now + term_slots right.now) self.old.table self.new.table }
        ensures full { IsErrOf result Error.OutOfSlots
            → RunsOutForTerms self.old.image left.now right.now self.old.table self.new.table }

        // Data is only lowered. New classes, and those whose data has changed, wait to be modified.
        ensures carries { IsTrue self.new.failed ⊎ CarriesData N.codes N.meaning self.old self.new }

        // A graph that has not failed is rebuilt.
        ensures rests { IsTrue self.new.failed ⊎ IsGraph self.new }

        ensures stays { IsTrue self.old.failed → self.new ≡ self.old }
        ensures failed { IsErrOf result Error.Failed ↔ IsTrue self.old.failed }
        ensures fails { IsTrue self.new.failed ↔ (IsErr result × ¬ IsErrOf result Error.NotEqual) }
        ensures only { IfErr result (λ e. (e ≡ Error.Failed) ⊎ (e ≡ Error.NotEqual) ⊎ IsShortage e) }
    {
        if self.failed {
            return Err(Error::Failed);
        }
        self.failed = true;
        self.index.clear();
        let answer = explaining::explain(
            &mut self.store,
            &mut self.nodes,
            &mut self.data,
            &self.analysis,
            self.alloc,
            &mut self.table,
            left,
            right,
        )?;
        self.failed = false;
        match answer {
            Some(p) => Ok(p),
            None => Err(Error::NotEqual),
        }
    }
}
