//! Hooks, which are called in each turn of a run.
ghost use Rattle.std.specs.Prelude.{◌≡◌, ◌⊎◌, false, None, IsTrue, IsErrAnd, IfErr, OnOk};
ghost use Rattle.slotted_slots.specs.Error.{IsShortage};
ghost use Rattle.slotted_graph.specs.Analysed.{LowersData};
ghost use Rattle.slotted_graph.specs.Extension.{ExtendsTo};
ghost use Rattle.slotted_rules.specs.Hooks.{IsHookRefusal, LeavesRefused, StopsRun};

use slotted_data::Analysis;
use slotted_graph::EGraph;
use slotted_languages::Language;
use slotted_slots::Error;
use std::alloc::Global;

/// Why a hook ends a run.
#[derive(Drop, Debug)]
pub enum HookStop<T> {
    /// The run stops after this turn, for this reason.
    Stop(T),
    /// The turn is refused.
    Refused(Error),
}

/// What is called in each turn of a run, after the rules were applied and classes were modified.
///
/// A hook may change the graph, which it only extends. Data only goes down, and the limit of rounds stays. If the graph
/// fails in a hook, its error says that memory or slots ran out.
pub trait Hook<L: Language, N: Analysis<L>, T>: Drop {
    ghost use Rattle.std.specs.Prelude.{ℕ, Option};
    ghost use Rattle.slotted_operations.specs.Graph.{Graph};
    ghost use Rattle.slotted_slots.specs.declared.error.Error.{Error};
    ghost use Rattle.slotted_slots.specs.declared.error.Error.TheVariants.{Failed};

    // What a call, with the number of turns before, leaves of the hook and of the graph, and why it stops the run, if
    // it does.
    ghost leaves: { Self → Graph → ℕ → Self → Graph → Option T → Type 0 };

    // The errors that the hook may return beside shortages.
    ghost refuses: { Error → Type 0 };

    // What a call that is refused leaves of the hook and of the graph, unless memory or slots ran out.
    ghost gives_up: { Self → Graph → ℕ → Self → Graph → Error → Type 0 } = { λ _ _ _ _ _ _. Unit {0} };

    /// Does what the hook is for, after the rules of a turn. `iterations` is the number of turns before. The graph has
    /// not failed.
    fn call(
        &mut self,
        alloc: Global,
        graph: &mut EGraph<L, N>,
        iterations: usize,
    ) -> Result<(), HookStop<T>>
        requires { graph.old.failed ≡ false }
        ensures ok { OnOk result (leaves self.old graph.old iterations self.new graph.new None) }
        ensures stop { IfErr result
            (StopsRun (leaves self.old graph.old iterations self.new graph.new) refuses) }
        ensures left { IfErr result (LeavesRefused (gives_up self.old graph.old iterations self.new graph.new)) }
        ensures extends { IsTrue graph.new.failed ⊎ ExtendsTo graph.old graph.new }
        ensures lowers { IsTrue graph.new.failed ⊎ LowersData N.codes N.meaning graph.old graph.new }
        ensures fails { IsTrue graph.new.failed → IsErrAnd result (IsHookRefusal IsShortage) };

    ghost never_failed: { ¬ refuses Failed };
}

/// The hook that does nothing.
#[derive(Drop, Debug)]
pub struct NoHook;

impl<L: Language, N: Analysis<L>, T> Hook<L, N, T> for NoHook {
    ghost leaves = { λ h g n i k stop. (k ≡ g) × (stop ≡ None) };

    ghost refuses = { λ e. ⊥ };

    ghost gives_up = { λ h g n i k e. ⊥ };

    ghost never_failed = { λ r. r };

    fn call(
        &mut self,
        alloc: Global,
        graph: &mut EGraph<L, N>,
        iterations: usize,
    ) -> Result<(), HookStop<T>> {
        Ok(())
    }
}
