//! Runners take turns until one stops them.
ghost use Rattle.std.specs.Prelude.{◌≡◌, ◌⊎◌, false, None, All, IsTrue, IsErrAnd, IsSome, IfErr, OnOk, map};
ghost use Rattle.slotted_slots.specs.Error.{IsShortage};
ghost use Rattle.slotted_model_rules.specs.Runners.{last_finish, time_between};
ghost use Rattle.slotted_graph.specs.Analysed.{LowersData};
ghost use Rattle.slotted_graph.specs.Extension.{ExtendsTo};
ghost use Rattle.slotted_rules.specs.Applying.{AreModified, RefusesRules};
ghost use Rattle.slotted_rules.specs.RunLoops.{HasRefused, HasStopped, HasTaken, IsBegun};
ghost use Rattle.slotted_rules.specs.Runs.{HasRefusedTurn, MayRefuse};
ghost use Rattle.slotted_rules.specs.Seen.{iteration_of, limits_of, parts_of, start_of};
ghost use Rattle.slotted_rules.specs.Turning.{Calls, RefusesTurn, RulesOnce, measures};

use crate::RewriteT;
use crate::clock::Clock;
use crate::hook::Hook;
use crate::iteration::{Iteration, IterationData};
use crate::runner::Runner;
use slotted_data::Analysis;
use slotted_languages::Language;
use slotted_slots::Error;

// Returns the end of the last turn, if there is one.
fn last_end<D>(iterations: &Vec<Iteration<D>>) -> Option<u64>
    ensures { result ≡ last_finish (map iteration_of iterations.now.items) }
{
    match iterations.last() {
        Some(iteration) => iteration.finish_time,
        None => None,
    }
}

impl<
    L: Language,
    N: Analysis<L>,
    D: IterationData<L, N>,
    T: Drop,
    H: Hook<L, N, T>,
    K: Clock,
> Runner<L, N, D, T, H, K> {
    // Returns the reading before the first turn. If there is none yet, the clock is read.
    fn begin(&mut self) -> u64
        ensures { IsBegun K.tells (parts_of self.old) (parts_of self.new) result }
    {
        match self.limits.start {
            Some(start) => start,
            None => {
                let start = self.clock.now();
                self.limits.start = Some(start);
                start
            }
        }
    }

    // Returns the time from the start to the end of the last turn.
    pub(crate) fn total_time(&self) -> u64
        ensures { result
            ≡ time_between (start_of self.now.limits) (last_finish (map iteration_of self.now.iterations.items)) }
    {
        match (self.limits.start, last_end(&self.iterations)) {
            (Some(start), Some(end)) => end.saturating_sub(start),
            _ => 0,
        }
    }

    // Takes turns, and stores them, until one stops the run.
    fn take_turns<Q: RewriteT<L, N>>(&mut self, rules: &[Q], start: u64) -> Result<(), Error>
        requires well { self.old.egraph.failed ≡ false }
        requires valid { All (λ r. Q.valid r self.old.egraph) rules.now }
        requires goes_on { self.old.stop_reason ≡ None }
        ensures ok { OnOk result
            (HasTaken K.tells
            (RulesOnce Q.searches Q.applies (AreModified N.codes N.meaning N.may_ask N.modifies) rules.now)
            (Calls H.leaves) (measures D.made)
            (limits_of self.old.limits) start (parts_of self.old) (parts_of self.new)) }
        ensures stopped { OnOk result (IsSome self.new.stop_reason) }
        ensures refused { IfErr result
            (HasRefused K.tells
            (RulesOnce Q.searches Q.applies (AreModified N.codes N.meaning N.may_ask N.modifies) rules.now)
            (Calls H.leaves) (measures D.made)
            (limits_of self.old.limits) start
            (RefusesTurn (RefusesRules Q.searches Q.gives_up Q.applies Q.breaks_off rules.now)
            (RulesOnce Q.searches Q.applies (AreModified N.codes N.meaning N.may_ask N.modifies) rules.now)
            H.gives_up (Calls H.leaves) D.refuses)
            (parts_of self.old) (parts_of self.new)) }
        ensures extends { IsTrue self.new.egraph.failed ⊎ ExtendsTo self.old.egraph self.new.egraph }
        ensures lowers { IsTrue self.new.egraph.failed ⊎ LowersData N.codes N.meaning self.old.egraph self.new.egraph }
        ensures fails { IsTrue self.new.egraph.failed → IsErrAnd result IsShortage }
        ensures err { IfErr result (λ e. IsShortage e ⊎ MayRefuse Q.refuses rules.now H.refuses D.refuses e) }
    {
        while self.stop_reason.is_none() {
            let turn = self.turn(rules, start)?;
            self.iterations.push(turn.kept)?;
            self.stop_reason = turn.stop;
        }
        Ok(())
    }

    // Takes turns until one stops the run, unless the runner has stopped already.
    pub(crate) fn stop<Q: RewriteT<L, N>>(&mut self, rules: &[Q]) -> Result<(), Error>
        requires well { self.old.egraph.failed ≡ false }
        requires valid { All (λ r. Q.valid r self.old.egraph) rules.now }
        ensures ok { OnOk result
            (HasStopped K.tells
            (RulesOnce Q.searches Q.applies (AreModified N.codes N.meaning N.may_ask N.modifies) rules.now)
            (Calls H.leaves) (measures D.made)
            (parts_of self.old) (parts_of self.new)) }
        ensures again { IsSome self.old.stop_reason → self.new ≡ self.old }
        ensures refused { IfErr result
            (HasRefusedTurn K.tells
            (RulesOnce Q.searches Q.applies (AreModified N.codes N.meaning N.may_ask N.modifies) rules.now)
            (Calls H.leaves) (measures D.made)
            (RefusesTurn (RefusesRules Q.searches Q.gives_up Q.applies Q.breaks_off rules.now)
            (RulesOnce Q.searches Q.applies (AreModified N.codes N.meaning N.may_ask N.modifies) rules.now)
            H.gives_up (Calls H.leaves) D.refuses)
            (parts_of self.old) (parts_of self.new)) }
        ensures extends { IsTrue self.new.egraph.failed ⊎ ExtendsTo self.old.egraph self.new.egraph }
        ensures lowers { IsTrue self.new.egraph.failed ⊎ LowersData N.codes N.meaning self.old.egraph self.new.egraph }
        ensures fails { IsTrue self.new.egraph.failed → IsErrAnd result IsShortage }
        ensures err { IfErr result (λ e. IsShortage e ⊎ MayRefuse Q.refuses rules.now H.refuses D.refuses e) }
    {
        if self.stop_reason.is_some() {
            return Ok(());
        }
        let start = self.begin();
        self.take_turns(rules, start)
    }
}
