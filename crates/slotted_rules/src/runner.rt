//! Runners: a graph, a hook, a clock, limits, and the turns so far.
ghost use Rattle.std.specs.Prelude.{◌≡◌, ◌↔◌, ◌⊎◌, IsTrue, IsOk, IsErrOf, IfOk, IfErr, OnOk};
ghost use Rattle.slotted_slots.specs.Error.{IsShortage};
ghost use Rattle.slotted_terms.specs.Valid.{IsValidTerm};
ghost use Rattle.slotted_graph.specs.Analysed.{CarriesData, new_graph};
ghost use Rattle.slotted_rules.specs.Seen.{AddsId, AddsRoot, new_parts, parts_of, with_other_hook};

use crate::clock::Clock;
use crate::hook::{Hook, NoHook};
use crate::iteration::{Iteration, IterationData};
use crate::limits::RunnerLimits;
use crate::report::StopReason;
use slotted_data::Analysis;
use slotted_graph::EGraph;
use slotted_languages::Language;
use slotted_slots::{AppliedId, Error, SlotTable};
use slotted_terms::expr::RecExpr;
use std::alloc::Global;
use std::mem::replace;

/// Applies rules to its graph in turns, until its hook, a limit or saturation stops the run.
///
/// A new runner has limits of 30 turns, 10,000 filed e-nodes and 60,000,000,000 nanoseconds.
#[derive(Drop)]
pub struct Runner<L: Language, N: Analysis<L>, D, T, H, K> {
    /// The graph.
    pub egraph: EGraph<L, N>,
    /// What is stored of each turn, in order.
    pub iterations: Vec<Iteration<D>>,
    /// The ids of the terms that `with_expr` added, in order.
    pub roots: Vec<AppliedId>,
    /// Why the runner has stopped, if it has.
    pub stop_reason: Option<StopReason<T>>,
    /// The limits.
    pub limits: RunnerLimits,
    pub(crate) hook: H,
    pub(crate) clock: K,
    pub(crate) alloc: Global,
}

impl<L: Language, N: Analysis<L>, D: IterationData<L, N>, T: Drop, K: Clock> Runner<
    L,
    N,
    D,
    T,
    NoHook,
    K,
> {
    /// Returns a runner over a graph without classes, without a hook, and with the usual limits. Takes no memory.
    pub fn new(alloc: Global, table: SlotTable, analysis: N, clock: K) -> Result<Self, Error>
        ensures answers { IsOk result }
        ensures parts { IfOk result (λ r. let p = parts_of r in p ≡ new_parts (new_graph N.codes analysis table) clock p.hook) }
    {
        Ok(Runner {
            egraph: EGraph::new(alloc, table, analysis)?,
            iterations: Vec::new(alloc),
            roots: Vec::new(alloc),
            stop_reason: None,
            limits: RunnerLimits::usual(),
            hook: NoHook,
            clock,
            alloc,
        })
    }
}

// Adds a term, and appends its id.
fn add_root<L: Language, N: Analysis<L>>(
    graph: &mut EGraph<L, N>,
    roots: &mut Vec<AppliedId>,
    term: &RecExpr<L>,
) -> Result<(), Error>
    requires { IsTrue graph.old.failed ⊎ IsValidTerm graph.old.table term.now }
    ensures ok { OnOk result (AddsId term.now graph.old graph.new roots.old.items roots.new.items) }
    ensures carries { OnOk result (CarriesData N.codes N.meaning graph.old graph.new) }
    ensures failed { IsErrOf result Error.Failed ↔ IsTrue graph.old.failed }
    ensures only { IfErr result (λ e. (e ≡ Error.Failed) ⊎ IsShortage e) }
{
    let id = graph.add_expr_quietly(term)?;
    roots.push(id)?;
    Ok(())
}

impl<
    L: Language,
    N: Analysis<L>,
    D: IterationData<L, N>,
    T: Drop,
    H: Hook<L, N, T>,
    K: Clock,
> Runner<L, N, D, T, H, K> {
    /// Replaces the runner's hook.
    pub fn with_hook<J: Hook<L, N, T>>(self, hook: J) -> Runner<L, N, D, T, J, K>
        ensures { parts_of result ≡ with_other_hook hook (parts_of self) }
    {
        let Runner {
            egraph,
            iterations,
            roots,
            stop_reason,
            limits,
            hook: _,
            clock,
            alloc,
        } = self;
        Runner {
            egraph,
            iterations,
            roots,
            stop_reason,
            limits,
            hook,
            clock,
            alloc,
        }
    }

    /// Adds a term, as `EGraph::add_expr_quietly` does, and appends its id to the roots. New classes are modified at
    /// the end of the first turn. A refusal gives up the runner.
    pub fn with_expr(mut self, term: &RecExpr<L>) -> Result<Self, Error>
        requires { IsTrue self.egraph.failed ⊎ IsValidTerm self.egraph.table term.now }
        ensures ok { IfOk result (λ r. AddsRoot term.now (parts_of self) (parts_of r)) }
        ensures carries { IfOk result (λ r. CarriesData N.codes N.meaning self.egraph r.egraph) }
        ensures failed { IsErrOf result Error.Failed ↔ IsTrue self.egraph.failed }
        ensures only { IfErr result (λ e. (e ≡ Error.Failed) ⊎ IsShortage e) }
    {
        add_root(&mut self.egraph, &mut self.roots, term)?;
        Ok(self)
    }

    /// Replaces the runner's graph. The roots stay.
    pub fn with_egraph(mut self, egraph: EGraph<L, N>) -> Self
        ensures { let p = parts_of self in parts_of result ≡ record p { graph = egraph } }
    {
        let former = replace(&mut self.egraph, egraph);
        let _ = former.into_table();
        self
    }

    /// Sets the number of filed e-nodes past which the runner stops.
    pub fn with_node_limit(mut self, node_limit: usize) -> Self
        ensures { let p = parts_of self in parts_of result
            ≡ record p { limits = record p.limits { nodes = node_limit } } }
    {
        self.limits.nodes = node_limit;
        self
    }

    /// Sets the number of stored turns past which the runner stops.
    pub fn with_iter_limit(mut self, iter_limit: usize) -> Self
        ensures { let p = parts_of self in parts_of result
            ≡ record p { limits = record p.limits { iterations = iter_limit } } }
    {
        self.limits.iterations = iter_limit;
        self
    }

    /// Sets the time past which the runner stops, in nanoseconds.
    pub fn with_time_limit(mut self, nanoseconds: u64) -> Self
        ensures { let p = parts_of self in parts_of result
            ≡ record p { limits = record p.limits { time = nanoseconds } } }
    {
        self.limits.time = nanoseconds;
        self
    }

    /// Returns the table of slots of the runner's graph, and drops the runner.
    pub fn into_table(self) -> SlotTable
        ensures { result ≡ self.egraph.table }
    {
        self.egraph.into_table()
    }

    /// Lets a runner that has stopped go on: the next `run` takes turns again. What it has stored stays, so its limits
    /// count the turns that it has taken, and the time since the first of them.
    pub fn resume(&mut self)
        ensures { let p = parts_of self.old in parts_of self.new ≡ record p { stop_reason = None } }
    {
        self.stop_reason = None;
    }
}
