//! Extractors: the least costs of a graph's classes, and the terms that have these costs.
ghost use Rattle.std.specs.Prelude.{◌≡◌, ◌⊎◌, ◌↔◌, false, None, Some, option_map, IsTrue, IfOk, IfErr, IsErrOf};
ghost use Rattle.slotted_slots.specs.Error.{IsOutOfMemory, IsShortage};
ghost use Rattle.slotted_slots.specs.Maps.{values};
ghost use Rattle.slotted_terms.specs.Valid.{IsValidTerm};
ghost use Rattle.std.specs.Ordering.{nat_cmp};
ghost use Rattle.slotted_costs.specs.Costs.{costs_by, cost_of_term, MayRefuse};
ghost use Rattle.slotted_costs.specs.Size.{size_cost};
ghost use Rattle.slotted_proofs.specs.Equations.{to_applied};
ghost use Rattle.slotted_graph.specs.Graph.{OnlyTakesSlots};
ghost use Rattle.slotted_graph.specs.ValidIds.{IsValidId};
ghost use Rattle.slotted_graph.specs.Terms.{IsFreshTerm, entry_at};
ghost use Rattle.slotted_graph.specs.LeastTerms.{AreChosenOf, AreLeastOf, HasEachLiveClass, IsExtracted, IsLeastTerm};
ghost use Rattle.slotted_graph.specs.LeastTerms.{IsMadeOf, IsOfChosen, LacksEntry, MakesForExtracted, MakesForLeast};
ghost use Rattle.slotted_graph.specs.LeastTerms.{RunsOutForExtracted, RunsOutForLeast};

use slotted_costs::{AstSize, CostFunction};
use slotted_data::Analysis;
use slotted_graph::{EGraph, LeastTerms};
use slotted_languages::Language;
use slotted_slots::{AppliedId, Error};
use slotted_terms::expr::RecExpr;
use std::alloc::Global;

/// The least cost of each class of a graph, and an e-node that has it. An extractor speaks of the graph as it was when
/// the extractor was made.
///
/// Of several e-nodes of least cost whose children all cost less, it has the one whose shape is least by `Ord`. Nothing
/// is said of which one it has if each of them is over a child that costs as much.
#[derive(Drop)]
pub struct Extractor<L: Language, CF: CostFunction<L>> {
    pub costs: CF,
    pub terms: LeastTerms<L, CF::Cost>,
    alloc: Global,
}

impl<L: Language, CF: CostFunction<L>> Extractor<L, CF> {
    /// Returns the extractor of a graph by a cost function.
    pub fn new<N: Analysis<L>>(
        alloc: Global,
        eg: &mut EGraph<L, N>,
        costs: CF,
    ) -> Result<Self, Error>
        ensures costs { IfOk result (λ x. x.costs ≡ costs) }
        ensures least { IfOk result (λ x. AreLeastOf L.form eg.old
            (costs_by CF.Cost.cmp (CF.node_cost costs)) x.terms.entries.items) }
        ensures each { IfOk result (λ x. HasEachLiveClass eg.old x.terms.entries.items) }

        // Of several filed e-nodes of least cost whose children all cost less, the order of the language decides.
        ensures chosen { IfOk result (λ x. AreChosenOf L.form L.cmp eg.old
            (costs_by CF.Cost.cmp (CF.node_cost costs)) x.terms.entries.items) }

        ensures same { eg.new ≡ eg.old }
        ensures failed { IsErrOf result Error.Failed ↔ IsTrue eg.old.failed }
        ensures only { IfErr result (λ e. (e ≡ Error.Failed) ⊎ MayRefuse CF.refuses e) }
    {
        let terms = eg.least_terms(&costs)?;
        Ok(Extractor {
            costs,
            terms,
            alloc,
        })
    }

    /// Returns a term of least cost among those that the id represents. Redundant slots and binders get fresh slots.
    ///
    /// The error is `UnknownClass` if the class that `find` maps the id to was made after the extractor. If the graph
    /// has changed since, the answer may be any term.
    pub fn extract<N: Analysis<L>>(
        &self,
        i: &AppliedId,
        eg: &mut EGraph<L, N>,
    ) -> Result<RecExpr<L>, Error>
        requires { IsTrue eg.old.failed ⊎ IsValidId eg.old (to_applied i.now) }
        ensures least { IfOk result (IsExtracted L.form eg.old self.now.terms.entries.items (to_applied i.now)) }

        // At each class the term has the operator, the payloads and the children of the e-node that the extractor has.
        ensures made { IfOk result (IsMadeOf L.form eg.old self.now.terms.entries.items (to_applied i.now)) }

        ensures valid { IfOk result (λ t. IsValidTerm eg.new.table t) }

        // Each name of the term is one of the id's or was unknown, and each binder was unknown.
        ensures fresh { IfOk result (IsFreshTerm eg.old.table (values i.now.m)) }

        // Only fresh slots are made, at most two for each place of the term's e-nodes. A refusal does not fail the
        // graph.
        ensures takes { OnlyTakesSlots eg.old eg.new }
        ensures count { MakesForExtracted L.form self.now.terms.entries.items (to_applied i.now) eg.old eg.new }
        ensures stays { IsTrue eg.old.failed → eg.new ≡ eg.old }

        ensures failed { IsErrOf result Error.Failed ↔ IsTrue eg.old.failed }
        ensures unknown { IsErrOf result Error.UnknownClass
            ↔ ((eg.old.failed ≡ false) × LacksEntry eg.old self.now.terms.entries.items (to_applied i.now)) }
        ensures full { IsErrOf result Error.OutOfSlots
            → RunsOutForExtracted L.form self.now.terms.entries.items (to_applied i.now) eg.old eg.new }
        ensures only { IfErr result (λ e. (e ≡ Error.Failed) ⊎ ((e ≡ Error.UnknownClass) ⊎ IsShortage e)) }
    {
        eg.least_term(&self.terms, i)
    }

    /// Returns the least cost of the id's own class, whatever `find` maps the id to. If the class may be dead, hand in
    /// what `find_applied_id` returns. The error is `UnknownClass` if the class had no cost when the extractor was
    /// made.
    pub fn get_best_cost(&self, i: &AppliedId) -> Result<CF::Cost, Error>
        ensures cost { IfOk result
            (λ c. option_map (λ e. e.cost) (entry_at self.now.terms.entries.items i.now.id.0) ≡ Some c) }
        ensures unknown { IsErrOf result Error.UnknownClass
            ↔ (entry_at self.now.terms.entries.items i.now.id.0 ≡ None) }
        ensures only { IfErr result (λ e. (e ≡ Error.UnknownClass) ⊎ IsOutOfMemory e) }
    {
        match self.terms.get(i.id.0) {
            Some(entry) => self.costs.copy(self.alloc, &entry.cost),
            None => Err(Error::UnknownClass),
        }
    }
}

/// Returns a term of least cost that an id represents, by the default of a cost function.
pub fn extract<L: Language, N: Analysis<L>, CF: CostFunction<L> + Default>(
    alloc: Global,
    i: &AppliedId,
    eg: &mut EGraph<L, N>,
) -> Result<RecExpr<L>, Error>
    requires { IsTrue eg.old.failed ⊎ IsValidId eg.old (to_applied i.now) }
    ensures least { IfOk result (λ t. (k : CF) × CF.is_default k
        × IsLeastTerm eg.old (costs_by CF.Cost.cmp (CF.node_cost k)) (to_applied i.now) t
        × IsOfChosen L.form L.cmp eg.old (costs_by CF.Cost.cmp (CF.node_cost k)) (to_applied i.now) t) }
    ensures valid { IfOk result (λ t. IsValidTerm eg.new.table t) }
    ensures fresh { IfOk result (IsFreshTerm eg.old.table (values i.now.m)) }
    ensures takes { OnlyTakesSlots eg.old eg.new }
    ensures count { (eg.new ≡ eg.old) ⊎ ((k : CF) × CF.is_default k
        × MakesForLeast L.form (costs_by CF.Cost.cmp (CF.node_cost k)) (to_applied i.now) eg.old eg.new) }
    ensures stays { IsTrue eg.old.failed → eg.new ≡ eg.old }
    ensures failed { IsErrOf result Error.Failed ↔ IsTrue eg.old.failed }
    ensures full { IsErrOf result Error.OutOfSlots → MayRefuse CF.refuses Error.OutOfSlots ⊎ ((k : CF) × CF.is_default k
        × RunsOutForLeast L.form (costs_by CF.Cost.cmp (CF.node_cost k)) (to_applied i.now) eg.old eg.new) }
    ensures only { IfErr result (λ e. (e ≡ Error.Failed) ⊎ (IsShortage e ⊎ MayRefuse CF.refuses e)) }
{
    let extractor: Extractor<L, CF> = Extractor::new(alloc, eg, CF::default())?;
    extractor.extract(i, eg)
}

/// Returns the least cost of a term that an id represents, by a cost function, and a term that has it.
pub fn extract_by<L: Language, N: Analysis<L>, CF: CostFunction<L>>(
    alloc: Global,
    i: &AppliedId,
    eg: &mut EGraph<L, N>,
    costs: CF,
) -> Result<(CF::Cost, RecExpr<L>), Error>
    requires { IsTrue eg.old.failed ⊎ IsValidId eg.old (to_applied i.now) }
    ensures least { IfOk result
        (λ p. IsLeastTerm eg.old (costs_by CF.Cost.cmp (CF.node_cost costs)) (to_applied i.now) p.1) }
    ensures chosen { IfOk result
        (λ p. IsOfChosen L.form L.cmp eg.old (costs_by CF.Cost.cmp (CF.node_cost costs)) (to_applied i.now) p.1) }
    ensures cost { IfOk result (λ p. p.0 ≡ cost_of_term (costs_by CF.Cost.cmp (CF.node_cost costs)) p.1) }
    ensures valid { IfOk result (λ p. IsValidTerm eg.new.table p.1) }
    ensures fresh { IfOk result (λ p. IsFreshTerm eg.old.table (values i.now.m) p.1) }
    ensures takes { OnlyTakesSlots eg.old eg.new }
    ensures count { (eg.new ≡ eg.old)
        ⊎ MakesForLeast L.form (costs_by CF.Cost.cmp (CF.node_cost costs)) (to_applied i.now) eg.old eg.new }
    ensures stays { IsTrue eg.old.failed → eg.new ≡ eg.old }
    ensures failed { IsErrOf result Error.Failed ↔ IsTrue eg.old.failed }
    ensures full { IsErrOf result Error.OutOfSlots → MayRefuse CF.refuses Error.OutOfSlots
        ⊎ RunsOutForLeast L.form (costs_by CF.Cost.cmp (CF.node_cost costs)) (to_applied i.now) eg.old eg.new }
    ensures only { IfErr result (λ e. (e ≡ Error.Failed) ⊎ (IsShortage e ⊎ MayRefuse CF.refuses e)) }
{
    let extractor: Extractor<L, CF> = Extractor::new(alloc, eg, costs)?;
    let term = extractor.extract(i, eg)?;
    let cost = extractor.costs.cost_rec(alloc, &term)?;
    Ok((cost, term))
}

/// Returns a term of the fewest e-nodes that an id represents.
pub fn ast_size_extract<L: Language, N: Analysis<L>>(
    alloc: Global,
    i: &AppliedId,
    eg: &mut EGraph<L, N>,
) -> Result<RecExpr<L>, Error>
    requires { IsTrue eg.old.failed ⊎ IsValidId eg.old (to_applied i.now) }
    ensures least { IfOk result (IsLeastTerm eg.old (costs_by nat_cmp size_cost) (to_applied i.now)) }
    ensures chosen { IfOk result (IsOfChosen L.form L.cmp eg.old (costs_by nat_cmp size_cost) (to_applied i.now)) }
    ensures valid { IfOk result (λ t. IsValidTerm eg.new.table t) }
    ensures fresh { IfOk result (IsFreshTerm eg.old.table (values i.now.m)) }
    ensures takes { OnlyTakesSlots eg.old eg.new }
    ensures count { (eg.new ≡ eg.old)
        ⊎ MakesForLeast L.form (costs_by nat_cmp size_cost) (to_applied i.now) eg.old eg.new }
    ensures stays { IsTrue eg.old.failed → eg.new ≡ eg.old }
    ensures failed { IsErrOf result Error.Failed ↔ IsTrue eg.old.failed }
    ensures full { IsErrOf result Error.OutOfSlots
        → RunsOutForLeast L.form (costs_by nat_cmp size_cost) (to_applied i.now) eg.old eg.new }
    ensures only { IfErr result (λ e. (e ≡ Error.Failed) ⊎ IsShortage e) }
{
    let extractor: Extractor<L, AstSize> = Extractor::new(alloc, eg, AstSize)?;
    extractor.extract(i, eg)
}
