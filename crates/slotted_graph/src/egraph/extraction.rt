//! Terms of least cost.
ghost use Rattle.std.specs.Prelude.{◌≡◌, ◌⊎◌, ◌↔◌, false, IsTrue, IfOk, IfErr, IsErrOf};
ghost use Rattle.slotted_slots.specs.Error.{IsShortage};
ghost use Rattle.slotted_slots.specs.Maps.{values};
ghost use Rattle.slotted_terms.specs.Valid.{IsValidTerm};
ghost use Rattle.slotted_costs.specs.Costs.{costs_by, MayRefuse};
ghost use Rattle.slotted_proofs.specs.Equations.{to_applied};
ghost use Rattle.slotted_operations.specs.Graph.{OnlyTakesSlots};
ghost use Rattle.slotted_operations.specs.ValidIds.{IsValidId};
ghost use Rattle.slotted_graph.specs.Terms.{IsFreshTerm};
ghost use Rattle.slotted_graph.specs.LeastTerms.{AreChosenOf, AreLeastOf, HasEachLiveClass, IsExtracted, IsMadeOf};
ghost use Rattle.slotted_graph.specs.LeastTerms.{LacksEntry, MakesForExtracted, RunsOutForExtracted};

use super::EGraph;
use crate::{LeastTerms, extracting, terms};
use slotted_costs::CostFunction;
use slotted_data::Analysis;
use slotted_languages::Language;
use slotted_slots::{AppliedId, Error};
use slotted_terms::expr::RecExpr;

impl<L: Language, N: Analysis<L>> EGraph<L, N> {
    /// Returns a filed e-node of least cost for each live class. Takes time for each filed e-node once, and for a turn
    /// of a heap.
    pub fn least_terms<F: CostFunction<L>>(
        &self,
        costs: &F,
    ) -> Result<LeastTerms<L, F::Cost>, Error>
        ensures least { IfOk result (λ t. AreLeastOf L.form self.now
            (costs_by F.Cost.cmp (F.node_cost costs.now)) t.entries.items) }
        ensures each { IfOk result (λ t. HasEachLiveClass self.now t.entries.items) }

        // Of several e-nodes of least cost, over children that all cost less, the first one by the order of the
        // language is chosen.
        ensures chosen { IfOk result (λ t. AreChosenOf L.form L.cmp self.now
            (costs_by F.Cost.cmp (F.node_cost costs.now)) t.entries.items) }

        ensures failed { IsErrOf result Error.Failed ↔ IsTrue self.now.failed }
        ensures only { IfErr result (λ e. (e ≡ Error.Failed) ⊎ MayRefuse F.refuses e) }
    {
        if self.failed {
            return Err(Error::Failed);
        }
        terms::least_terms(&self.store, &self.nodes, self.alloc, costs)
    }

    /// Returns the term that the chosen e-nodes make for an id.
    ///
    /// For each slot that the id has no name for, or that is redundant, a fresh name is put in. Binders are fresh. If
    /// the chosen e-nodes are those of an older graph, some term is returned.
    pub fn least_term<C: Drop>(
        &mut self,
        terms: &LeastTerms<L, C>,
        a: &AppliedId,
    ) -> Result<RecExpr<L>, Error>
        requires { IsTrue self.old.failed ⊎ IsValidId self.old (to_applied a.now) }
        ensures least { IfOk result (IsExtracted L.form self.old terms.now.entries.items (to_applied a.now)) }
        ensures made { IfOk result (IsMadeOf L.form self.old terms.now.entries.items (to_applied a.now)) }
        ensures valid { IfOk result (λ t. IsValidTerm self.new.table t) }

        // Each name in the term is one of the id's, or was unknown. Each binder was unknown.
        ensures fresh { IfOk result (IsFreshTerm self.old.table (values a.now.m)) }

        // Only fresh slots are made, at most two for each place of the term's e-nodes. An error does not fail the
        // graph.
        ensures takes { OnlyTakesSlots self.old self.new }
        ensures count { MakesForExtracted L.form terms.now.entries.items (to_applied a.now) self.old self.new }
        ensures stays { IsTrue self.old.failed → self.new ≡ self.old }

        ensures failed { IsErrOf result Error.Failed ↔ IsTrue self.old.failed }
        ensures unknown { IsErrOf result Error.UnknownClass
            ↔ ((self.old.failed ≡ false) × LacksEntry self.old terms.now.entries.items (to_applied a.now)) }
        ensures full { IsErrOf result Error.OutOfSlots
            → RunsOutForExtracted L.form terms.now.entries.items (to_applied a.now) self.old self.new }
        ensures only { IfErr result (λ e. (e ≡ Error.Failed) ⊎ ((e ≡ Error.UnknownClass) ⊎ IsShortage e)) }
    {
        if self.failed {
            return Err(Error::Failed);
        }
        extracting::extract(&self.store, self.alloc, &mut self.table, terms, a)
    }
}
