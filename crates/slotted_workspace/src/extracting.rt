//! Terms of least cost, as texts.
ghost use Rattle.std.specs.Prelude.{◌≡◌, ◌⊎◌, Some, IfOk, IfErr, IsTrue};
ghost use Rattle.slotted_costs.specs.Costs.{costs_by};
ghost use Rattle.slotted_operations.specs.Graph.{IsFullId, id_of_term};
ghost use Rattle.slotted_graph.specs.Extension.{ExtendsTo};
ghost use Rattle.slotted_model.specs.Classes.{term_of};
ghost use Rattle.slotted_proofs.specs.Equations.{to_applied};
ghost use Rattle.slotted_theory.specs.Nameless.{nameless};
ghost use Rattle.slotted_workspace.specs.Asked.{ExtractsBy, ExtractByRefused};
ghost use Rattle.slotted_workspace.specs.Decided.{ExtractDecidedRefused, ExtractsDecided};
ghost use Rattle.slotted_workspace.specs.Keeping.{IsKept};

use crate::kept::Kept;
use slotted_costs::CostFunction;
use slotted_decided::{extract_by, extract_decided};
use slotted_explain::EGraph;
use slotted_slots::Error;
use slotted_terms::expr::printing::Printable;
use std::alloc::Global;

/// An extracted term: its cost, and its text.
#[derive(Drop, Debug)]
pub struct Extracted<T> {
    pub cost: T,
    pub text: String,
}

/// Returns a term of least cost that is equal to a kept term.
pub(crate) fn cheapest<L: Printable, C: CostFunction<L>>(
    alloc: Global,
    graph: &mut EGraph<L>,
    kept: &Kept<L>,
    costs: C,
) -> Result<Extracted<C::Cost>, Error>
    requires { IsTrue graph.old.failed ⊎ IsKept graph.old kept.now }
    ensures ok { IfOk result (λ x. ExtractsBy L.form L.written (costs_by C.Cost.cmp (C.node_cost costs))
        graph.old graph.new kept.now.term x.cost x.text) }
    ensures err { IfErr result (ExtractByRefused L.form (costs_by C.Cost.cmp (C.node_cost costs)) C.refuses
        graph.old graph.new kept.now.term) }
    ensures extends { IsTrue graph.new.failed ⊎ ExtendsTo graph.old graph.new }
    ensures stays { IsTrue graph.old.failed → graph.new ≡ graph.old }
{
    let (cost, term) = extract_by(alloc, &kept.id, graph, costs)?;
    let text = term.text(alloc, graph.table())?;
    Ok(Extracted { cost, text })
}

/// A term of least cost of a graph that was decided first.
#[derive(Drop, Debug)]
pub struct LeastText<T> {
    /// What the term costs.
    pub cost: T,
    /// The term's text.
    pub text: String,
    /// Whether the graph is decided, so that no equal term costs less.
    pub is_decided: bool,
}

/// Decides the graph, and returns a term of least cost that is equal to a kept term.
pub(crate) fn least_of_all<L: Printable, C: CostFunction<L>>(
    alloc: Global,
    graph: &mut EGraph<L>,
    kept: &Kept<L>,
    costs: C,
    limit: usize,
) -> Result<LeastText<C::Cost>, Error>
    requires { IsTrue graph.old.failed ⊎ IsKept graph.old kept.now }
    ensures ok { IfOk result (ExtractsDecided L.written (costs_by C.Cost.cmp (C.node_cost costs))
        graph.old graph.new kept.now.term) }
    ensures err { IfErr result (ExtractDecidedRefused C.refuses graph.old graph.new) }
    ensures extends { IsTrue graph.new.failed ⊎ ExtendsTo graph.old graph.new }
    ensures stays { IsTrue graph.old.failed → graph.new ≡ graph.old }
{
    let least = extract_decided(alloc, &kept.id, graph, costs, limit)?;
    let text = least.term.text(alloc, graph.table())?;
    Ok(LeastText {
        cost: least.cost,
        text,
        is_decided: least.is_decided,
    })
}
