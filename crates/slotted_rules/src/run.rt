//! Runs of runners.
ghost use Rattle.std.specs.Prelude.{◌≡◌, ◌↔◌, ◌⊎◌, false, All, IsTrue, IsErrAnd, IsErrOf, IsSome, IfOk, IfErr, OnOk};
ghost use Rattle.slotted_slots.specs.Error.{IsShortage};
ghost use Rattle.slotted_graph.specs.Analysed.{LowersData};
ghost use Rattle.slotted_graph.specs.Extension.{ExtendsTo};
ghost use Rattle.slotted_rules.specs.Applying.{AreModified, RefusesRules};
ghost use Rattle.slotted_rules.specs.RunLoops.{IsRefusedWithin};
ghost use Rattle.slotted_rules.specs.Runs.{HasReported, IsRefused, MayRefuse};
ghost use Rattle.slotted_rules.specs.Seen.{parts_of};
ghost use Rattle.slotted_rules.specs.Turning.{Calls, RefusesTurn, RulesOnce, measures};

use crate::RewriteT;
use crate::clock::Clock;
use crate::failing::fail_if_short;
use crate::hook::Hook;
use crate::iteration::IterationData;
use crate::report::Report;
use crate::runner::Runner;
use slotted_data::Analysis;
use slotted_languages::Language;
use slotted_slots::Error;

impl<
    L: Language,
    N: Analysis<L>,
    D: IterationData<L, N>,
    T: Clone,
    H: Hook<L, N, T>,
    K: Clock,
> Runner<L, N, D, T, H, K> {
    // Takes turns until one stops the run, and returns a report.
    fn answer<Q: RewriteT<L, N>>(&mut self, rules: &[Q]) -> Result<Report<T>, Error>
        requires well { self.old.egraph.failed ≡ false }
        requires valid { All (λ r. Q.valid r self.old.egraph) rules.now }
        ensures ok { IfOk result
            (HasReported K.tells
            (RulesOnce Q.searches Q.applies (AreModified N.codes N.meaning N.may_ask N.modifies) rules.now)
            (Calls H.leaves) (measures D.made)
            T.is_clone (parts_of self.old) (parts_of self.new)) }
        ensures again { IsSome self.old.stop_reason → self.new ≡ self.old }
        ensures refused { IfErr result
            (IsRefusedWithin K.tells
            (RulesOnce Q.searches Q.applies (AreModified N.codes N.meaning N.may_ask N.modifies) rules.now)
            (Calls H.leaves) (measures D.made)
            (RefusesTurn (RefusesRules Q.searches Q.gives_up Q.applies Q.breaks_off rules.now)
            (RulesOnce Q.searches Q.applies (AreModified N.codes N.meaning N.may_ask N.modifies) rules.now)
            H.gives_up (Calls H.leaves) D.refuses)
            (parts_of self.old) (parts_of self.new)) }
        ensures extends { IsTrue self.new.egraph.failed ⊎ ExtendsTo self.old.egraph self.new.egraph }
        ensures lowers { IsTrue self.new.egraph.failed ⊎ LowersData N.codes N.meaning self.old.egraph self.new.egraph }
        ensures fails { IsTrue self.new.egraph.failed → IsErrAnd result IsShortage }
        ensures err { IfErr result (λ e. IsShortage e ⊎ MayRefuse Q.refuses rules.now H.refuses D.refuses e) }
    {
        self.stop(rules)?;
        self.report()
    }

    /// Takes turns until one stops the run, and returns a report. A runner that has stopped reports again, and nothing
    /// changes.
    ///
    /// A turn applies the rules once, modifies classes, as `apply_rewrites` does, and calls the hook. It stops the run
    /// for the first of these causes that holds: the hook's own, more stored turns than the limit, more filed e-nodes,
    /// more time, and saturation. A graph is saturated if the rules and the edits of classes left its progress measure
    /// as it was. What a refused turn did to the graph stays, but the turn is not stored.
    pub fn run<Q: RewriteT<L, N>>(&mut self, rules: &[Q]) -> Result<Report<T>, Error>
        requires { IsTrue self.old.egraph.failed ⊎ All (λ r. Q.valid r self.old.egraph) rules.now }
        ensures ok { IfOk result
            (HasReported K.tells
            (RulesOnce Q.searches Q.applies (AreModified N.codes N.meaning N.may_ask N.modifies) rules.now)
            (Calls H.leaves) (measures D.made)
            T.is_clone (parts_of self.old) (parts_of self.new)) }
        ensures again { IsSome self.old.stop_reason → OnOk result (self.new ≡ self.old) }

        // A refused turn is told, with what it did. The turns before it are stored.
        ensures refused { IfErr result (λ e. IsTrue self.old.egraph.failed
            ⊎ IsRefused K.tells
            (RulesOnce Q.searches Q.applies (AreModified N.codes N.meaning N.may_ask N.modifies) rules.now)
            (Calls H.leaves) (measures D.made)
            (RefusesTurn (RefusesRules Q.searches Q.gives_up Q.applies Q.breaks_off rules.now)
            (RulesOnce Q.searches Q.applies (AreModified N.codes N.meaning N.may_ask N.modifies) rules.now)
            H.gives_up (Calls H.leaves) D.refuses)
            (parts_of self.old) (parts_of self.new) e) }

        // What was there stays, even if a turn is refused. Data is only lowered, and the limit of rounds stays.
        ensures extends { IsTrue self.new.egraph.failed ⊎ ExtendsTo self.old.egraph self.new.egraph }
        ensures lowers { IsTrue self.new.egraph.failed ⊎ LowersData N.codes N.meaning self.old.egraph self.new.egraph }
        ensures stays { IsTrue self.old.egraph.failed → self.new ≡ self.old }
        ensures failed { IsErrOf result Error.Failed ↔ IsTrue self.old.egraph.failed }
        ensures fails { IsTrue self.new.egraph.failed
            ↔ IsErrAnd result (λ e. (e ≡ Error.Failed) ⊎ IsShortage e) }
        ensures err { IfErr result
            (λ e. (e ≡ Error.Failed) ⊎ IsShortage e ⊎ MayRefuse Q.refuses rules.now H.refuses D.refuses e) }
    {
        if self.egraph.is_failed() {
            return Err(Error::Failed);
        }
        let outcome = self.answer(rules);
        fail_if_short(&mut self.egraph, outcome)
    }
}
