//! Turns of rules, each followed by a decision.
ghost use Rattle.std.specs.Prelude.{◌≡◌, ◌≢◌, ◌⊎◌, ◌↔◌, ◌<◌, false, length, All, IfErr, IfOk, IsErr, IsErrOf, IsTrue, Some};
ghost use Rattle.slotted_slots.specs.Error.{IsShortage};
ghost use Rattle.slotted_graph.specs.Analysed.{LowersData};
ghost use Rattle.slotted_graph.specs.Extension.{ExtendsTo};
ghost use Rattle.slotted_deciding.specs.Equality.{IsDecidedGraph};
ghost use Rattle.slotted_rules.specs.Applying.{AreModified, AreRefusedBy};
ghost use Rattle.slotted_rules.specs.Counting.{RefusesRule};
ghost use Rattle.slotted_rules.specs.Written.{CanBeSearched};
ghost use Rattle.slotted_deciding.specs.Steps.{CanRefuse};
ghost use Rattle.slotted_decided.specs.Turns.{HasRunDecided, IsDecidedTurn, IsStillTurn};

use slotted_data::Analysis;
use slotted_deciding::decide;
use slotted_graph::EGraph;
use slotted_languages::Language;
use slotted_rules::{Cond, Rewrite, TurnCounts, apply_counted};
use slotted_slots::Error;
use std::alloc::Global;

/// The limits of a run that decides.
#[derive(Clone, Copy, Debug)]
pub struct DecidedLimits {
    /// How many turns the run takes at most.
    pub turns: usize,
    /// Past how many filed e-nodes the run stops.
    pub nodes: usize,
    /// How many e-nodes a decision adds at most.
    pub variants: usize,
}

impl DecidedLimits {
    /// Returns the usual limits: 30 turns, 10,000 filed e-nodes, and 1,000 e-nodes that a decision adds.
    pub fn usual() -> DecidedLimits
        ensures { result ≡ record { turns = 30; nodes = 10000; variants = 1000 } }
    {
        DecidedLimits {
            turns: 30,
            nodes: 10_000,
            variants: 1_000,
        }
    }
}

/// Why a run that decides has stopped.
#[derive(Clone, Copy, Debug, PartialEq, Eq)]
pub enum DecidedStop {
    /// The last turn changed nothing: no class, and no symmetry.
    Saturated,
    /// The limit of turns was reached.
    TurnLimit,
    /// The graph has more e-nodes than the limit says.
    NodeLimit,
    /// A decision met its limit, so the graph is not decided.
    Undecided,
}

/// What a run that decides did.
#[derive(Drop)]
pub struct DecidedRun {
    /// What each rule did in each turn.
    pub turns: Vec<TurnCounts>,
    /// Why the run stopped.
    pub stop: DecidedStop,
}

// What the rules did in a turn, and why the turn stops the run, if it does.
#[derive(Drop)]
struct Taken {
    counts: TurnCounts,
    stop: Option<DecidedStop>,
}

// Returns whether a turn changed nothing: neither the progress measure, nor how many symmetries are listed.
fn is_still(changed: bool, before: usize, after: usize) -> bool
    ensures { IsTrue result → (changed ≡ false) × (after ≡ before) }
{
    !changed && after == before
}

// Returns why a turn stops the run, if it does.
fn stop_of(is_decided: bool, is_still: bool, nodes: usize, limit: usize) -> Option<DecidedStop>
    ensures undecided { result ≢ Some DecidedStop.Undecided → IsTrue is_decided }
    ensures still { result ≡ Some DecidedStop.Saturated → IsTrue is_still }
    ensures turns { result ≢ Some DecidedStop.TurnLimit }
    ensures nodes { result ≡ Some DecidedStop.NodeLimit → limit < nodes }
{
    if !is_decided {
        Some(DecidedStop::Undecided)
    } else if is_still {
        Some(DecidedStop::Saturated)
    } else if nodes > limit {
        Some(DecidedStop::NodeLimit)
    } else {
        None
    }
}

// Applies the rules once, and decides the graph.
fn take_turn<L: Language, N: Analysis<L>, C: Cond<L, N>>(
    alloc: Global,
    graph: &mut EGraph<L, N>,
    rules: &[Rewrite<L, C>],
    limits: DecidedLimits,
) -> Result<Taken, Error>
    requires well { graph.old.failed ≡ false }
    requires valid { All (CanBeSearched L.form graph.old.table) rules.now }
    ensures turn { IfOk result (λ t. IsDecidedTurn L.form C.answers rules.now
        (AreModified N.codes N.meaning N.may_ask N.modifies) graph.old t.counts graph.new) }
    ensures decided { IfOk result (λ t. t.stop ≢ Some DecidedStop.Undecided → IsDecidedGraph graph.new) }
    ensures still { IfOk result (λ t. t.stop ≡ Some DecidedStop.Saturated → IsStillTurn L.form C.answers rules.now
        (AreModified N.codes N.meaning N.may_ask N.modifies) graph.old t.counts graph.new) }
    ensures turns { IfOk result (λ t. t.stop ≢ Some DecidedStop.TurnLimit) }
    ensures nodes { IfOk result (λ t. t.stop ≡ Some DecidedStop.NodeLimit → limits.nodes < length graph.new.filed) }
    ensures extends { IsTrue graph.new.failed ⊎ ExtendsTo graph.old graph.new }
    ensures lowers { IsTrue graph.new.failed ⊎ LowersData N.codes N.meaning graph.old graph.new }
    ensures fails { IsTrue graph.new.failed → IsErr result }
    ensures err { IfErr result (λ e. CanRefuse e ⊎ AreRefusedBy (RefusesRule L.form C.refuses) rules.now e) }
{
    let before = graph.symmetries_met().len();
    let counts = apply_counted(alloc, graph, rules)?;
    let still = is_still(counts.changed, before, graph.symmetries_met().len());
    let is_decided = decide(alloc, graph, limits.variants)?;
    let nodes = graph.total_number_of_nodes();
    Ok(Taken {
        counts,
        stop: stop_of(is_decided, still, nodes, limits.nodes),
    })
}

// Takes turns until one stops the run, over a graph that is decided.
fn take_turns<L: Language, N: Analysis<L>, C: Cond<L, N>>(
    alloc: Global,
    graph: &mut EGraph<L, N>,
    rules: &[Rewrite<L, C>],
    limits: DecidedLimits,
) -> Result<DecidedRun, Error>
    requires well { graph.old.failed ≡ false }
    requires valid { All (CanBeSearched L.form graph.old.table) rules.now }
    requires decided { IsDecidedGraph graph.old }
    ensures run { IfOk result (HasRunDecided L.form C.answers rules.now
        (AreModified N.codes N.meaning N.may_ask N.modifies) limits graph.old graph.new) }
    ensures extends { IsTrue graph.new.failed ⊎ ExtendsTo graph.old graph.new }
    ensures lowers { IsTrue graph.new.failed ⊎ LowersData N.codes N.meaning graph.old graph.new }
    ensures fails { IsTrue graph.new.failed → IsErr result }
    ensures err { IfErr result (λ e. CanRefuse e ⊎ AreRefusedBy (RefusesRule L.form C.refuses) rules.now e) }
{
    let mut turns = Vec::new(alloc);
    while turns.len() < limits.turns {
        let taken = take_turn(alloc, graph, rules, limits)?;
        turns.push(taken.counts)?;
        match taken.stop {
            Some(stop) => return Ok(DecidedRun { turns, stop }),
            None => {}
        }
    }
    Ok(DecidedRun {
        turns,
        stop: DecidedStop::TurnLimit,
    })
}

/// Decides the graph, and applies the rules until a turn changes nothing or a limit is passed. After each turn the graph
/// is decided. Returns what each rule did in each turn, and why the run stopped.
///
/// A turn changes something if the progress measure changes, or if it lists a symmetry. A turn ends with edits of
/// classes, as `apply_counted` does, and then the graph is decided. What was applied before a refusal stays.
pub fn run_decided<L: Language, N: Analysis<L>, C: Cond<L, N>>(
    alloc: Global,
    graph: &mut EGraph<L, N>,
    rules: &[Rewrite<L, C>],
    limits: DecidedLimits,
) -> Result<DecidedRun, Error>
    requires { IsTrue graph.old.failed ⊎ All (CanBeSearched L.form graph.old.table) rules.now }

    // What is asserted comes from matches of the rules, or from edits. Unless a decision met its limit, the graph is
    // decided. A limit stops the run only once it is reached. If the run is saturated, the last turn changed nothing, and each match that its searches found has
    // instances of both sides that are equal up to symmetries, unless its condition is no.
    ensures run { IfOk result (HasRunDecided L.form C.answers rules.now
        (AreModified N.codes N.meaning N.may_ask N.modifies) limits graph.old graph.new) }

    // What was there stays, even if a turn is refused, and data of the analysis only goes down.
    ensures extends { IsTrue graph.new.failed ⊎ ExtendsTo graph.old graph.new }
    ensures lowers { IsTrue graph.new.failed ⊎ LowersData N.codes N.meaning graph.old graph.new }
    ensures stays { IsTrue graph.old.failed → graph.new ≡ graph.old }
    ensures failed { IsErrOf result Error.Failed ↔ IsTrue graph.old.failed }
    ensures fails { IsTrue graph.new.failed → IsErr result }
    ensures err { IfErr result (λ e. (e ≡ Error.Failed) ⊎ CanRefuse e
        ⊎ AreRefusedBy (RefusesRule L.form C.refuses) rules.now e) }
{
    if !decide(alloc, graph, limits.variants)? {
        return Ok(DecidedRun {
            turns: Vec::new(alloc),
            stop: DecidedStop::Undecided,
        });
    }
    take_turns(alloc, graph, rules, limits)
}
