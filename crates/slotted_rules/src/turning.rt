//! Turns of a runner.
ghost use Rattle.std.specs.Prelude.{◌≡◌, ◌⊎◌, false, not, length, option_map, None, All, IsTrue, IsErrAnd, IfOk, IfErr, OnErr};
ghost use Rattle.slotted_slots.specs.Error.{IsShortage};
ghost use Rattle.slotted_model_rules.specs.Runners.{runner_stop};
ghost use Rattle.slotted_graph.specs.Analysed.{LowersData};
ghost use Rattle.slotted_graph.specs.Extension.{ExtendsTo};
ghost use Rattle.slotted_rules.specs.Applying.{AreModified, RefusesRules};
ghost use Rattle.slotted_rules.specs.RunLoops.{GivesReason, HasTurned, ReadsClock};
ghost use Rattle.slotted_rules.specs.Runs.{MayRefuse};
ghost use Rattle.slotted_rules.specs.Seen.{iteration_of, limits_of, parts_of, stop_of};
ghost use Rattle.slotted_rules.specs.Turning.{Calls, RefusesTurn, RulesOnce, measures};

use crate::RewriteT;
use crate::calling::apply_and_call;
use crate::clock::Clock;
use crate::hook::Hook;
use crate::iteration::{Iteration, IterationData};
use crate::limits::RunnerLimits;
use crate::report::StopReason;
use crate::runner::Runner;
use slotted_data::Analysis;
use slotted_languages::Language;
use slotted_slots::Error;

// What is stored of a turn, and why the turn stops the run, if it does.
#[derive(Drop)]
pub(crate) struct Turn<D, T> {
    pub(crate) kept: Iteration<D>,
    pub(crate) stop: Option<StopReason<T>>,
}

// Returns the first limit that is passed, or else saturation.
fn limit_met<T>(
    limits: &RunnerLimits,
    stored: usize,
    nodes: usize,
    elapsed: u64,
    changed: bool,
) -> Option<StopReason<T>>
    ensures { option_map stop_of result ≡ runner_stop (limits_of limits.now) None stored nodes elapsed (not changed) }
{
    if stored > limits.iterations {
        Some(StopReason::IterationLimit)
    } else if nodes > limits.nodes {
        Some(StopReason::NodeLimit)
    } else if elapsed > limits.time {
        Some(StopReason::TimeLimit)
    } else if !changed {
        Some(StopReason::Saturated)
    } else {
        None
    }
}

// Returns why a turn stops the run, if it does: its hook, or else a limit or saturation. The clock is read unless the
// hook stops the run.
fn reason<T: Drop, K: Clock>(
    stop: Option<T>,
    clock: &mut K,
    limits: &RunnerLimits,
    start: u64,
    stored: usize,
    nodes: usize,
    changed: bool,
) -> Option<StopReason<T>>
    ensures { GivesReason K.tells (limits_of limits.now) start stored nodes (not changed) stop
        clock.old clock.new (option_map stop_of result) }
{
    match stop {
        Some(reason) => Some(StopReason::Other(reason)),
        None => {
            let elapsed = clock.now().saturating_sub(start);
            limit_met(limits, stored, nodes, elapsed, changed)
        }
    }
}

impl<
    L: Language,
    N: Analysis<L>,
    D: IterationData<L, N>,
    T: Drop,
    H: Hook<L, N, T>,
    K: Clock,
> Runner<L, N, D, T, H, K> {
    // Takes a turn, and stores nothing.
    pub(crate) fn turn<Q: RewriteT<L, N>>(
        &mut self,
        rules: &[Q],
        start: u64,
    ) -> Result<Turn<D, T>, Error>
        requires well { self.old.egraph.failed ≡ false }
        requires valid { All (λ r. Q.valid r self.old.egraph) rules.now }
        ensures ok { IfOk result
            (HasTurned K.tells
            (RulesOnce Q.searches Q.applies (AreModified N.codes N.meaning N.may_ask N.modifies) rules.now)
            (Calls H.leaves) (measures D.made)
            start (length self.old.iterations.items) (parts_of self.old) (parts_of self.new)) }
        ensures rest { let q = parts_of self.new in q
            ≡ record (parts_of self.old) { graph = q.graph; hook = q.hook; clock = q.clock } }
        ensures refused { IfErr result
            (RefusesTurn (RefusesRules Q.searches Q.gives_up Q.applies Q.breaks_off rules.now)
            (RulesOnce Q.searches Q.applies (AreModified N.codes N.meaning N.may_ask N.modifies) rules.now)
            H.gives_up (Calls H.leaves) D.refuses
            (self.old.egraph, self.old.hook) (length self.old.iterations.items) (self.new.egraph, self.new.hook)) }
        ensures clock { OnErr result (ReadsClock K.tells self.old.clock self.new.clock) }
        ensures extends { IsTrue self.new.egraph.failed ⊎ ExtendsTo self.old.egraph self.new.egraph }
        ensures lowers { IsTrue self.new.egraph.failed ⊎ LowersData N.codes N.meaning self.old.egraph self.new.egraph }
        ensures fails { IsTrue self.new.egraph.failed → IsErrAnd result IsShortage }
        ensures err { IfErr result (λ e. IsShortage e ⊎ MayRefuse Q.refuses rules.now H.refuses D.refuses e) }
    {
        let stored = self.iterations.len();
        let called = apply_and_call(self.alloc, &mut self.egraph, rules, &mut self.hook, stored)?;
        let num_nodes = self.egraph.total_number_of_nodes();
        let changed = called.changed;
        let stop = reason(
            called.stop,
            &mut self.clock,
            &self.limits,
            start,
            stored,
            num_nodes,
            changed,
        );
        let made = D::make(self.alloc, &self.egraph, stored)?;
        let finish_time = Some(self.clock.now());
        Ok(Turn {
            kept: Iteration {
                made,
                num_nodes,
                finish_time,
            },
            stop,
        })
    }
}
