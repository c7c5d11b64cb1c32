//! The planner: a cheapest query that is equal by the rules.
ghost use Rattle.std.specs.Prelude.{◌≡◌, ◌⊎◌, All, IfOk, IfErr, IsTrue, string_bytes};
ghost use Rattle.slotted_graph.specs.Extension.{ExtendsTo};
ghost use Rattle.slotted_graph.specs.ValidIds.{IsValidId};
ghost use Rattle.slotted_graph.specs.Writing.{LeavesAsked};
ghost use Rattle.slotted_costs.specs.Costs.{costs_by, cost_of_term};
ghost use Rattle.slotted_proofs.specs.Equations.{to_applied};
ghost use Rattle.slotted_theory.specs.Term.{Term};
ghost use Rattle.slotted_rules.specs.Applying.{AreModified, AreRefusedBy};
ghost use Rattle.slotted_rules.specs.Counting.{RefusesRule};
ghost use Rattle.slotted_rules.specs.Written.{CanBeSearched};
ghost use Rattle.slotted_rules.specs.Seen.{parts_of};
ghost use Rattle.slotted_queries.specs.Planning.{FindsLeast, FindsPlan, Gives, GiveRefused, LeastRefused, PlanRefused, RunsRules};

use slotted_costs::CostFunction;
use slotted_data::Analysis;
use slotted_extract::extract_by;
use slotted_graph::EGraph;
use slotted_languages::Language;
use slotted_rules::{Clock, Cond, Hook, HookStop, Rewrite, Runner};
use slotted_slots::{AppliedId, Error};
use slotted_terms::expr::printing::Printable;
use std::alloc::Global;

/// The cause that a planner's effort is spent.
#[derive(Drop, Clone)]
pub struct Spent;

/// The hook that stops a run past a number of asserted equations.
#[derive(Drop)]
pub struct Effort {
    pub equations: usize,
}

impl<L: Language, N: Analysis<L>> Hook<L, N, Spent> for Effort {
    ghost use Rattle.slotted_queries.specs.Planning.{leaves_within};

    ghost leaves = { leaves_within };

    ghost refuses = { λ e. ⊥ };

    ghost gives_up = { λ h g n i k e. ⊥ };

    ghost never_failed = { λ r. r };

    fn call(
        &mut self,
        alloc: Global,
        graph: &mut EGraph<L, N>,
        iterations: usize,
    ) -> Result<(), HookStop<Spent>> {
        if graph.asserted().len() <= self.equations {
            return Ok(());
        }
        Err(HookStop::Stop(Spent))
    }
}

/// A runner with a limit of effort, which keeps nothing of its turns.
pub type Planner<L, N, K> = Runner<L, N, (), Spent, Effort, K>;

/// A cheapest query, what it costs, and what the given one costs.
#[derive(Drop)]
pub struct Plan<T> {
    pub before: T,
    pub after: T,
    pub text: String,
}

// Adds the query of a text. Returns its id, and what it costs.
fn give<L: Language, N: Analysis<L>, C: CostFunction<L>>(
    alloc: Global,
    graph: &mut EGraph<L, N>,
    text: &str,
    costs: &C,
) -> Result<(AppliedId, C::Cost), Error>
    ensures ok { IfOk result (λ x. (t : Term) × Gives L.read (LeavesAsked N.codes N.meaning N.may_ask)
        graph.old graph.new text.now t (to_applied x.0)
        × (x.1 ≡ cost_of_term (costs_by C.Cost.cmp (C.node_cost costs.now)) t)) }
    ensures err { IfErr result (GiveRefused L.read C.refuses graph.old text.now) }
    ensures extends { IsTrue graph.new.failed ⊎ ExtendsTo graph.old graph.new }
{
    let term = graph.parse_expr(text)?;
    let cost = costs.cost_rec(alloc, &term)?;
    let id = graph.add_syn_expr(&term)?;
    Ok((id, cost))
}

// Returns what a cheapest query that an id represents costs, and its text.
fn least<L: Printable, N: Analysis<L>, C: CostFunction<L>>(
    alloc: Global,
    graph: &mut EGraph<L, N>,
    id: &AppliedId,
    costs: C,
) -> Result<(C::Cost, String), Error>
    requires { IsTrue graph.old.failed ⊎ IsValidId graph.old (to_applied id.now) }
    ensures ok { IfOk result (λ x. FindsLeast L.written (costs_by C.Cost.cmp (C.node_cost costs))
        graph.old graph.new (to_applied id.now) x.0 (string_bytes x.1)) }
    ensures err { IfErr result (LeastRefused C.refuses graph.old) }
    ensures extends { ExtendsTo graph.old graph.new }
{
    let (cost, term) = extract_by(alloc, id, graph, costs)?;
    let text = term.text(alloc, graph.table())?;
    Ok((cost, text))
}

/// Adds the query of a text, runs the rules until the planner stops, and returns a cheapest query that is equal.
///
/// The query that it returns costs least among all that are equal in the graph then.
pub fn find_plan<L: Printable, N: Analysis<L>, K: Clock, Q: Cond<L, N>, C: CostFunction<L>>(
    alloc: Global,
    planner: &mut Planner<L, N, K>,
    rules: &[Rewrite<L, Q>],
    text: &str,
    costs: C,
) -> Result<Plan<C::Cost>, Error>
    requires { IsTrue planner.old.egraph.failed ⊎ All (CanBeSearched L.form planner.old.egraph.table) rules.now }
    ensures ok { IfOk result (FindsPlan L.read L.written (costs_by C.Cost.cmp (C.node_cost costs))
        (LeavesAsked N.codes N.meaning N.may_ask)
        (RunsRules L.form Q.answers (AreModified N.codes N.meaning N.may_ask N.modifies) rules.now K.tells)
        (parts_of planner.old) (parts_of planner.new) text.now) }
    ensures err { IfErr result (PlanRefused L.read C.refuses (AreRefusedBy (RefusesRule L.form Q.refuses) rules.now)
        planner.old.egraph text.now) }
    ensures extends { IsTrue planner.new.egraph.failed ⊎ ExtendsTo planner.old.egraph planner.new.egraph }
{
    let (id, before) = give(alloc, &mut planner.egraph, text, &costs)?;
    planner.run(rules)?;
    let (after, text) = least(alloc, &mut planner.egraph, &id, costs)?;
    Ok(Plan {
        before,
        after,
        text,
    })
}
