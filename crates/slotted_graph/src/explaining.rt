//! Explanations of two terms.
ghost use Rattle.std.specs.Prelude.{◌≡◌, ◌⊎◌, ◌↔◌, ◌+◌, IsTrue, IfOk, IfErr, IsErr, IsErrOf};
ghost use Rattle.slotted_slots.specs.Error.{IsShortage};
ghost use Rattle.slotted_slots.specs.Table.{KnowsMore};
ghost use Rattle.slotted_terms.specs.Valid.{IsValidTerm};
ghost use Rattle.slotted_operations.specs.Explaining.{AddsTerms, Explains, FilesOnlyTerms, FindsApart, KeepsKnown, RunsOutForTerms};
ghost use Rattle.slotted_operations.specs.Graph.{MakesAtMost};
ghost use Rattle.slotted_operations.specs.Places.{term_slots};
ghost use Rattle.slotted_graph.specs.Analysed.{CarriesData};
ghost use Rattle.slotted_graph.specs.Writing.{ExplainsAndModifies, IfUnmodified, LeavesAsked};
ghost use Rattle.slotted_graph.specs.States.{IsGraph};

use crate::egraph::EGraph;
use slotted_data::Analysis;
use slotted_languages::Language;
use slotted_proofs::ProvenEq;
use slotted_slots::Error;
use slotted_terms::expr::RecExpr;

impl<L: Language, N: Analysis<L>> EGraph<L, N> {
    // Adds two terms, and modifies classes, before the terms are explained.
    fn explain_after_edits(
        &mut self,
        left: &RecExpr<L>,
        right: &RecExpr<L>,
    ) -> Result<ProvenEq, Error>
        requires left { IsTrue self.old.failed ⊎ IsValidTerm self.old.table left.now }
        requires right { IsTrue self.old.failed ⊎ IsValidTerm self.old.table right.now }
        ensures explains { IfOk result (Explains self.new.image left.now right.now) }
        ensures not_equal { IsErrOf result Error.NotEqual → FindsApart self.new.image left.now right.now }
        ensures leaves { IsTrue self.new.failed ⊎ LeavesAsked N.codes N.meaning N.may_ask self.old self.new }
        ensures modified { IsTrue self.new.failed
            ⊎ ExplainsAndModifies N.codes N.meaning N.may_ask N.modifies left.now right.now self.old self.new }
        ensures more { KnowsMore self.old.table self.new.table }
        // A graph that has not failed is rebuilt.
        ensures rests { IsTrue self.new.failed ⊎ IsGraph self.new }

        ensures stays { IsTrue self.old.failed → self.new ≡ self.old }
        ensures failed { IsErrOf result Error.Failed ↔ IsTrue self.old.failed }
        ensures fails { IsTrue self.new.failed ↔ (IsErr result × ¬ IsErrOf result Error.NotEqual) }
        ensures only { IfErr result (λ e. (e ≡ Error.Failed) ⊎ (e ≡ Error.NotEqual) ⊎ IsShortage e) }
    {
        self.add_syn_expr(left)?;
        self.add_syn_expr(right)?;
        self.explain_quietly(left, right)
    }

    /// Returns the proof that two terms are equal: the number of the entry of the proof list that says so of their ids.
    ///
    /// The terms are added first, and they stay if they are not found equal. Classes are modified before the terms are
    /// compared.
    pub fn explain_equivalence(
        &mut self,
        left: &RecExpr<L>,
        right: &RecExpr<L>,
    ) -> Result<ProvenEq, Error>
        requires left { IsTrue self.old.failed ⊎ IsValidTerm self.old.table left.now }
        requires right { IsTrue self.old.failed ⊎ IsValidTerm self.old.table right.now }

        // Terms that are equal by `eq` are explained. The answer is `NotEqual` if and only if the ids of the terms are
        // not found equal. `NotEqual` does not fail the graph. What was there stays, and only what the analysis asks
        // for is asserted.
        ensures explains { IfOk result (Explains self.new.image left.now right.now) }
        ensures not_equal { IsErrOf result Error.NotEqual → FindsApart self.new.image left.now right.now }
        ensures leaves { IsTrue self.new.failed ⊎ LeavesAsked N.codes N.meaning N.may_ask self.old self.new }

        // If classes are modified, each term is added with the edits that are asked then. Once both are added, nothing
        // is asked or asserted.
        ensures modified { IsTrue N.modifies → IsTrue self.new.failed
            ⊎ ExplainsAndModifies N.codes N.meaning N.may_ask N.modifies left.now right.now self.old self.new }
        ensures more { KnowsMore self.old.table self.new.table }

        // If classes are never modified, nothing is asserted, and ids that were found equal still are.
        ensures adds { IfUnmodified N.modifies (IsTrue self.new.failed ⊎ AddsTerms self.old.image self.new.image) }

        // If classes are never modified, a look-up of some subterm answers each new class. If both terms have ids, no
        // class is added.
        ensures filed { IfUnmodified N.modifies (IsTrue self.new.failed ⊎ FilesOnlyTerms self.old self.new left.now right.now) }
        ensures kept { IfUnmodified N.modifies (IsTrue self.new.failed ⊎ KeepsKnown self.old self.new left.now right.now) }
        ensures takes { IfUnmodified N.modifies
            (MakesAtMost (term_slots left.now + term_slots right.now) self.old.table self.new.table) }
        ensures full { IfUnmodified N.modifies (IsErrOf result Error.OutOfSlots
            → RunsOutForTerms self.old.image left.now right.now self.old.table self.new.table) }
        ensures carries { IfUnmodified N.modifies (IsTrue self.new.failed ⊎ CarriesData N.codes N.meaning self.old self.new) }

        // A graph that has not failed is rebuilt.
        ensures rests { IsTrue self.new.failed ⊎ IsGraph self.new }

        ensures stays { IsTrue self.old.failed → self.new ≡ self.old }
        ensures failed { IsErrOf result Error.Failed ↔ IsTrue self.old.failed }
        ensures fails { IsTrue self.new.failed ↔ (IsErr result × ¬ IsErrOf result Error.NotEqual) }
        ensures only { IfErr result (λ e. (e ≡ Error.Failed) ⊎ (e ≡ Error.NotEqual) ⊎ IsShortage e) }
    {
        if N::modifies() {
            return self.explain_after_edits(left, right);
        }
        self.explain_quietly(left, right)
    }
}
