//! Runs of the rules of a workspace.
ghost use Rattle.std.specs.Prelude.{◌≡◌, ◌⊎◌, All, IsTrue};
ghost use Rattle.slotted_graph.specs.Extension.{ExtendsTo};
ghost use Rattle.slotted_rules.specs.Written.{CanBeSearched};
ghost use Rattle.slotted_workspace.specs.Runs.{RunAnswers};
ghost use Rattle.slotted_workspace.specs.Saturating as saturating;

use crate::sparing::RuleCondition;
use slotted_data::Analysis;
use slotted_explain::EGraph;
use slotted_languages::Language;
use slotted_rules::{Clock, Hook, HookStop, Report, Rewrite, StopReason, run_eqsat};
use slotted_slots::Error;
use std::alloc::Global;

/// The limits of a run: how many turns it takes, and past how many filed e-nodes it stops.
#[derive(Clone, Copy, Debug)]
pub struct Limits {
    pub turns: usize,
    pub nodes: usize,
}

impl Limits {
    /// Returns the usual limits: 30 turns and 10,000 e-nodes.
    pub fn usual() -> Limits
        ensures { result ≡ record { turns = 30; nodes = 10000 } }
    {
        Limits {
            turns: 30,
            nodes: 10_000,
        }
    }
}

/// A clock that stands still, so that no limit of time is passed.
#[derive(Drop, Debug)]
pub(crate) struct NoClock;

impl Clock for NoClock {
    ghost use Rattle.slotted_workspace.specs.Runs.{TellsZero};

    ghost tells = { TellsZero };

    fn now(&mut self) -> u64 {
        0
    }
}

/// The hook that stops a run past a number of filed e-nodes.
#[derive(Drop, Debug)]
pub(crate) struct NodeLimit {
    nodes: usize,
}

impl<L: Language, N: Analysis<L>> Hook<L, N, String> for NodeLimit {
    ghost use Rattle.slotted_workspace.specs.Runs.{StopsPast};

    ghost leaves = { λ h g n i k stop. StopsPast h.nodes g k stop × (i ≡ h) };

    ghost refuses = { λ e. ⊥ };

    ghost gives_up = { λ h g n i k e. ⊥ };

    ghost never_failed = { λ r. r };

    fn call(
        &mut self,
        alloc: Global,
        graph: &mut EGraph<L, N>,
        iterations: usize,
    ) -> Result<(), HookStop<String>> {
        if graph.total_number_of_nodes() <= self.nodes {
            return Ok(());
        }
        match String::from_str(alloc, "NodeLimit") {
            Ok(reason) => Err(HookStop::Stop(reason)),
            Err(_) => Err(HookStop::Refused(Error::OutOfMemory)),
        }
    }
}

/// Runs rules over a graph.
pub(crate) fn run_rules<L: Language>(
    alloc: Global,
    graph: &mut EGraph<L>,
    rules: &[Rewrite<L, RuleCondition<L>>],
    limits: Limits,
) -> Result<Report, Error>
    requires { IsTrue graph.old.failed ⊎ All (CanBeSearched L.form graph.old.table) rules.now }
    ensures answers { RunAnswers L.form rules.now limits.turns limits.nodes graph.old graph.new result }
    ensures extends { IsTrue graph.new.failed ⊎ ExtendsTo graph.old graph.new }
    ensures stays { IsTrue graph.old.failed → graph.new ≡ graph.old }
{
    let mut hook = NodeLimit {
        nodes: limits.nodes,
    };
    let mut clock = NoClock;
    run_eqsat(
        alloc,
        graph,
        rules,
        limits.turns,
        u64::MAX,
        &mut hook,
        &mut clock,
    )
}

/// Returns whether a run that stopped for this reason has ended saturated.
pub(crate) fn is_saturated(reason: &StopReason) -> bool
    ensures { result ≡ saturating.is_saturated reason.now }
{
    match reason {
        StopReason::Saturated => true,
        _ => false,
    }
}
