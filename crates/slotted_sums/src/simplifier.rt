//! The simplifier: a cheapest term that is equal by the rules.
ghost use Rattle.std.specs.Prelude.{◌≡◌, ◌⊎◌, All, IfOk, IfErr, IsTrue, string_bytes};
ghost use Rattle.slotted_graph.specs.Extension.{ExtendsTo};
ghost use Rattle.slotted_graph.specs.ValidIds.{IsValidId};
ghost use Rattle.slotted_graph.specs.Writing.{LeavesAsked};
ghost use Rattle.slotted_costs.specs.Costs.{costs_by, cost_of_term, MayRefuse};
ghost use Rattle.slotted_proofs.specs.Equations.{to_applied};
ghost use Rattle.slotted_theory.specs.Term.{Term};
ghost use Rattle.slotted_rules.specs.Applying.{AreModified, AreRefusedBy};
ghost use Rattle.slotted_rules.specs.Counting.{RefusesRule};
ghost use Rattle.slotted_rules.specs.Written.{CanBeSearched};
ghost use Rattle.slotted_rules.specs.Seen.{parts_of};
ghost use Rattle.slotted_sums.specs.Simplifying.{FindsLeast, Gives, GiveRefused, LeastRefused, RunsRules, Simplifies};
ghost use Rattle.slotted_sums.specs.Simplifying.{SimplifyRefused};

use slotted_costs::CostFunction;
use slotted_data::Analysis;
use slotted_extract::extract_by;
use slotted_graph::EGraph;
use slotted_languages::Language;
use slotted_rules::{Clock, Cond, NoHook, Rewrite, Runner};
use slotted_slots::{AppliedId, Error};
use slotted_terms::expr::printing::Printable;
use std::alloc::Global;
use std::convert::Infallible;

/// A runner that has no hook, and keeps nothing of its turns.
pub type Simplifier<L, N, K> = Runner<L, N, (), Infallible, NoHook, K>;

/// A cheapest term, what it costs, and what the given one costs.
#[derive(Drop)]
pub struct Simplified<T> {
    pub before: T,
    pub after: T,
    pub text: String,
}

// Adds the term of a text. Returns its id, and what it costs.
fn give<L: Language, N: Analysis<L>, C: CostFunction<L>>(
    alloc: Global,
    graph: &mut EGraph<L, N>,
    text: &str,
    costs: &C,
) -> Result<(AppliedId, C::Cost), Error>
    ensures ok { IfOk result (λ x. (t : Term) × Gives L.read (LeavesAsked N.codes N.meaning N.may_ask)
        graph.old graph.new text.now t (to_applied x.0)
        × (x.1 ≡ cost_of_term (costs_by C.Cost.cmp (C.node_cost costs.now)) t)) }
    ensures err { IfErr result (GiveRefused L.read C.refuses graph.old text.now) }
    ensures extends { IsTrue graph.new.failed ⊎ ExtendsTo graph.old graph.new }
{
    let term = graph.parse_expr(text)?;
    let cost = costs.cost_rec(alloc, &term)?;
    let id = graph.add_syn_expr(&term)?;
    Ok((id, cost))
}

// Returns what a cheapest term that an id represents costs, and its text.
fn least<L: Printable, N: Analysis<L>, C: CostFunction<L>>(
    alloc: Global,
    graph: &mut EGraph<L, N>,
    id: &AppliedId,
    costs: C,
) -> Result<(C::Cost, String), Error>
    requires { IsTrue graph.old.failed ⊎ IsValidId graph.old (to_applied id.now) }
    ensures ok { IfOk result (λ x. FindsLeast L.written (costs_by C.Cost.cmp (C.node_cost costs))
        graph.old graph.new (to_applied id.now) x.0 (string_bytes x.1)) }
    ensures err { IfErr result (LeastRefused C.refuses graph.old) }
    ensures extends { ExtendsTo graph.old graph.new }
{
    let (cost, term) = extract_by(alloc, id, graph, costs)?;
    let text = term.text(alloc, graph.table())?;
    Ok((cost, text))
}

/// Adds the term of a text, runs the rules until the runner stops, and returns a cheapest term that is equal.
///
/// The term that it returns costs least among all that are equal in the graph then.
pub fn simplify<L: Printable, N: Analysis<L>, K: Clock, Q: Cond<L, N>, C: CostFunction<L>>(
    alloc: Global,
    runner: &mut Simplifier<L, N, K>,
    rules: &[Rewrite<L, Q>],
    text: &str,
    costs: C,
) -> Result<Simplified<C::Cost>, Error>
    requires { IsTrue runner.old.egraph.failed ⊎ All (CanBeSearched L.form runner.old.egraph.table) rules.now }
    ensures ok { IfOk result (Simplifies L.read L.written (costs_by C.Cost.cmp (C.node_cost costs))
        (LeavesAsked N.codes N.meaning N.may_ask)
        (RunsRules L.form Q.answers (AreModified N.codes N.meaning N.may_ask N.modifies) rules.now K.tells)
        (parts_of runner.old) (parts_of runner.new) text.now) }
    ensures err { IfErr result (SimplifyRefused L.read C.refuses (AreRefusedBy (RefusesRule L.form Q.refuses) rules.now)
        runner.old.egraph text.now) }
    ensures extends { IsTrue runner.new.egraph.failed ⊎ ExtendsTo runner.old.egraph runner.new.egraph }
{
    let (id, before) = give(alloc, &mut runner.egraph, text, &costs)?;
    runner.run(rules)?;
    let (after, text) = least(alloc, &mut runner.egraph, &id, costs)?;
    Ok(Simplified {
        before,
        after,
        text,
    })
}
