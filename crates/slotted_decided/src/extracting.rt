//! Extraction from a graph that is decided first.
ghost use Rattle.std.specs.Prelude.{◌≡◌, ◌⊎◌, ◌↔◌, IfErr, IfOk, IsErrOf, IsTrue};
ghost use Rattle.slotted_costs.specs.Costs.{MayRefuse, cost_of_term, costs_by};
ghost use Rattle.slotted_terms.specs.Valid.{IsValidTerm};
ghost use Rattle.slotted_proofs.specs.Equations.{to_applied};
ghost use Rattle.slotted_operations.specs.ValidIds.{IsValidId};
ghost use Rattle.slotted_graph.specs.Analysed.{LowersData};
ghost use Rattle.slotted_deciding.specs.Steps.{CanRefuse, GoesTo};
ghost use Rattle.slotted_decided.specs.Extracted.{IsLeastDecided};

use slotted_costs::CostFunction;
use slotted_data::Analysis;
use slotted_deciding::decide;
use slotted_extract::extract_by;
use slotted_graph::EGraph;
use slotted_languages::Language;
use slotted_slots::{AppliedId, Error};
use slotted_terms::expr::RecExpr;
use std::alloc::Global;

/// A term of least cost.
#[derive(Drop)]
pub struct LeastTerm<L: Language, C> {
    /// What the term costs.
    pub cost: C,
    /// The term.
    pub term: RecExpr<L>,
    /// Whether the graph is decided, so that no equal term costs less.
    pub is_decided: bool,
}

/// Decides a graph, and returns a term of least cost that an id represents, by a cost function.
///
/// If the graph is decided, no term that is equal to the id by what was asserted costs less, whether the term was added
/// or not. At most `limit` e-nodes are added.
pub fn extract_decided<L: Language, N: Analysis<L>, CF: CostFunction<L>>(
    alloc: Global,
    i: &AppliedId,
    graph: &mut EGraph<L, N>,
    costs: CF,
    limit: usize,
) -> Result<LeastTerm<L, CF::Cost>, Error>
    requires { IsTrue graph.old.failed ⊎ IsValidId graph.old (to_applied i.now) }
    ensures least { IfOk result (λ t. IsLeastDecided (costs_by CF.Cost.cmp (CF.node_cost costs)) graph.old graph.new
        (to_applied i.now) t.term t.is_decided) }
    ensures cost { IfOk result (λ t. t.cost ≡ cost_of_term (costs_by CF.Cost.cmp (CF.node_cost costs)) t.term) }

    // What was there stays, and nothing is asserted. Data of the analysis only goes down.
    ensures goes { IsTrue graph.new.failed ⊎ GoesTo graph.old graph.new }
    ensures lowers { IsTrue graph.new.failed ⊎ LowersData N.codes N.meaning graph.old graph.new }

    ensures valid { IfOk result (λ t. IsValidTerm graph.new.table t.term) }
    ensures stays { IsTrue graph.old.failed → graph.new ≡ graph.old }
    ensures failed { IsErrOf result Error.Failed ↔ IsTrue graph.old.failed }
    ensures only { IfErr result (λ e. (e ≡ Error.Failed) ⊎ CanRefuse e ⊎ MayRefuse CF.refuses e) }
{
    let is_decided = decide(alloc, graph, limit)?;
    let (cost, term) = extract_by(alloc, i, graph, costs)?;
    Ok(LeastTerm {
        cost,
        term,
        is_decided,
    })
}
