//! Runs over a graph without a runner.
ghost use Rattle.std.specs.Prelude.{◌≡◌, ◌↔◌, ◌⊎◌, ◌*◌, false, not, option_map, None, All, IsTrue, IsErrAnd, IsErrOf, IfOk, IfErr};
ghost use Rattle.std.specs.Prelude.{OnErr};
ghost use Rattle.slotted_slots.specs.Error.{IsShortage};
ghost use Rattle.slotted_graph.specs.Analysed.{LowersData};
ghost use Rattle.slotted_graph.specs.Extension.{ExtendsTo};
ghost use Rattle.slotted_rules.specs.Applying.{AreModified, AreRefusedBy, RefusesRules};
ghost use Rattle.slotted_model_rules.specs.Runners.{eqsat_stop};
ghost use Rattle.slotted_rules.specs.Eqsat.{GivesEqsatReason, HasBroken, HasEnded, HasEqsatReported, HasRefusedEqsat};
ghost use Rattle.slotted_rules.specs.Eqsat.{IsEqsatTurn};
ghost use Rattle.slotted_rules.specs.RunLoops.{ReadsClock};
ghost use Rattle.slotted_rules.specs.Seen.{stop_of};
ghost use Rattle.slotted_rules.specs.Turning.{Calls, RefusesTurn, RulesOnce};

use crate::RewriteT;
use crate::calling::apply_and_call;
use crate::clock::Clock;
use crate::failing::fail_if_short;
use crate::hook::Hook;
use crate::report::{Report, StopReason};
use slotted_data::Analysis;
use slotted_graph::EGraph;
use slotted_languages::Language;
use slotted_slots::Error;
use std::alloc::Global;

// The limits of a run, and its first reading.
#[derive(Clone, Copy)]
struct Bounds {
    iterations: usize,
    seconds: u64,
    start: u64,
}

// Returns saturation, or else the limit that is reached: of turns, or of time. The clock is read for the latter alone.
fn bound_met<T, K: Clock>(
    clock: &mut K,
    bounds: Bounds,
    counted: usize,
    changed: bool,
) -> Option<StopReason<T>>
    ensures { GivesEqsatReason K.tells bounds.iterations bounds.seconds bounds.start counted (not changed) None
        clock.old clock.new (option_map stop_of result) }
{
    if !changed {
        return Some(StopReason::Saturated);
    }
    if counted >= bounds.iterations {
        return Some(StopReason::IterationLimit);
    }
    let elapsed = clock.now().saturating_sub(bounds.start);
    if elapsed / 1_000_000_000 >= bounds.seconds {
        return Some(StopReason::TimeLimit);
    }
    None
}

// Returns why a turn stops the run, if it does: its hook, or else saturation or a limit.
fn reason<T, K: Clock>(
    stop: Option<T>,
    clock: &mut K,
    bounds: Bounds,
    counted: usize,
    changed: bool,
) -> Option<StopReason<T>>
    ensures { GivesEqsatReason K.tells bounds.iterations bounds.seconds bounds.start counted (not changed) stop
        clock.old clock.new (option_map stop_of result) }
{
    match stop {
        Some(reason) => Some(StopReason::Other(reason)),
        None => bound_met(clock, bounds, counted, changed),
    }
}

// Takes a turn. Returns why the turn stops the run, if it does.
fn take_turn<L: Language, N: Analysis<L>, T: Drop, H: Hook<L, N, T>, K: Clock, Q: RewriteT<L, N>>(
    alloc: Global,
    graph: &mut EGraph<L, N>,
    rules: &[Q],
    bounds: Bounds,
    hook: &mut H,
    clock: &mut K,
    counted: usize,
) -> Result<Option<StopReason<T>>, Error>
    requires well { graph.old.failed ≡ false }
    requires valid { All (λ r. Q.valid r graph.old) rules.now }
    ensures ok { IfOk result (λ stop. IsEqsatTurn
        K.tells
        (RulesOnce Q.searches Q.applies (AreModified N.codes N.meaning N.may_ask N.modifies) rules.now)
        (Calls H.leaves) bounds.iterations bounds.seconds bounds.start
        counted (graph.old, hook.old) clock.old (graph.new, hook.new) clock.new (option_map stop_of stop)) }
    ensures refused { IfErr result
        (RefusesTurn (RefusesRules Q.searches Q.gives_up Q.applies Q.breaks_off rules.now)
        (RulesOnce Q.searches Q.applies (AreModified N.codes N.meaning N.may_ask N.modifies) rules.now)
        H.gives_up (Calls H.leaves) (λ _. ⊥) (graph.old, hook.old) counted (graph.new, hook.new)) }
    ensures clock { OnErr result (clock.new ≡ clock.old) }
    ensures extends { IsTrue graph.new.failed ⊎ ExtendsTo graph.old graph.new }
    ensures lowers { IsTrue graph.new.failed ⊎ LowersData N.codes N.meaning graph.old graph.new }
    ensures fails { IsTrue graph.new.failed → IsErrAnd result IsShortage }
    ensures err { IfErr result (λ e. IsShortage e ⊎ AreRefusedBy Q.refuses rules.now e ⊎ H.refuses e) }
{
    let called = apply_and_call(alloc, graph, rules, hook, counted)?;
    Ok(reason(called.stop, clock, bounds, counted, called.changed))
}

// Why a run has ended, and how many turns were counted.
#[derive(Drop)]
struct Ended<T> {
    counted: usize,
    reason: StopReason<T>,
}

// Takes turns until one stops the run. That turn is not counted.
fn take_turns<L: Language, N: Analysis<L>, T: Drop, H: Hook<L, N, T>, K: Clock, Q: RewriteT<L, N>>(
    alloc: Global,
    graph: &mut EGraph<L, N>,
    rules: &[Q],
    bounds: Bounds,
    hook: &mut H,
    clock: &mut K,
) -> Result<Ended<T>, Error>
    requires well { graph.old.failed ≡ false }
    requires valid { All (λ r. Q.valid r graph.old) rules.now }
    ensures ok { IfOk result (λ e. HasEnded
        K.tells
        (RulesOnce Q.searches Q.applies (AreModified N.codes N.meaning N.may_ask N.modifies) rules.now)
        (Calls H.leaves) bounds.iterations bounds.seconds bounds.start
        (graph.old, hook.old) clock.old (graph.new, hook.new) clock.new e.counted (stop_of e.reason)) }
    ensures refused { IfErr result (HasBroken
        K.tells
        (RulesOnce Q.searches Q.applies (AreModified N.codes N.meaning N.may_ask N.modifies) rules.now)
        (Calls H.leaves) bounds.iterations bounds.seconds
        (RefusesTurn (RefusesRules Q.searches Q.gives_up Q.applies Q.breaks_off rules.now)
        (RulesOnce Q.searches Q.applies (AreModified N.codes N.meaning N.may_ask N.modifies) rules.now)
        H.gives_up (Calls H.leaves) (λ _. ⊥))
        bounds.start
        (graph.old, hook.old) clock.old (graph.new, hook.new) clock.new) }
    ensures extends { IsTrue graph.new.failed ⊎ ExtendsTo graph.old graph.new }
    ensures lowers { IsTrue graph.new.failed ⊎ LowersData N.codes N.meaning graph.old graph.new }
    ensures fails { IsTrue graph.new.failed → IsErrAnd result IsShortage }
    ensures err { IfErr result (λ e. IsShortage e ⊎ AreRefusedBy Q.refuses rules.now e ⊎ H.refuses e) }
{
    let mut counted = 0;
    loop {
        if let Some(reason) = take_turn(alloc, graph, rules, bounds, hook, clock, counted)? {
            return Ok(Ended { counted, reason });
        }
        counted += 1;
    }
}

/// Takes turns until one stops the run, and returns a report.
///
/// A turn applies the rules once, modifies classes, as `apply_rewrites` does, and calls the hook. It stops the run for
/// the first of these causes that holds: the hook's own, saturation, as many counted turns as the limit, and as many
/// whole seconds. A turn that stops the run is not counted.
pub fn run_eqsat<L: Language, N: Analysis<L>, H: Hook<L, N, String>, K: Clock, Q: RewriteT<L, N>>(
    alloc: Global,
    graph: &mut EGraph<L, N>,
    rules: &[Q],
    iter_limit: usize,
    time_limit_seconds: u64,
    hook: &mut H,
    clock: &mut K,
) -> Result<Report, Error>
    requires { IsTrue graph.old.failed ⊎ All (λ r. Q.valid r graph.old) rules.now }
    ensures ok { IfOk result (HasEqsatReported
        K.tells
        (RulesOnce Q.searches Q.applies (AreModified N.codes N.meaning N.may_ask N.modifies) rules.now)
        (Calls H.leaves) iter_limit time_limit_seconds
        (graph.old, hook.old) clock.old (graph.new, hook.new) clock.new) }

    // A refused turn is told, with what it did, and the turns before it.
    ensures refused { IfErr result (λ e. IsTrue graph.old.failed ⊎ HasRefusedEqsat
        K.tells
        (RulesOnce Q.searches Q.applies (AreModified N.codes N.meaning N.may_ask N.modifies) rules.now)
        (Calls H.leaves) iter_limit time_limit_seconds
        (RefusesTurn (RefusesRules Q.searches Q.gives_up Q.applies Q.breaks_off rules.now)
        (RulesOnce Q.searches Q.applies (AreModified N.codes N.meaning N.may_ask N.modifies) rules.now)
        H.gives_up (Calls H.leaves) (λ _. ⊥))
        (graph.old, hook.old) clock.old (graph.new, hook.new) clock.new e) }

    // What was there stays, even if a turn is refused. Data is only lowered, and the limit of rounds stays.
    ensures extends { IsTrue graph.new.failed ⊎ ExtendsTo graph.old graph.new }
    ensures lowers { IsTrue graph.new.failed ⊎ LowersData N.codes N.meaning graph.old graph.new }
    ensures stays { IsTrue graph.old.failed
        → (graph.new ≡ graph.old) × (hook.new ≡ hook.old) × (clock.new ≡ clock.old) }
    ensures failed { IsErrOf result Error.Failed ↔ IsTrue graph.old.failed }
    ensures fails { IsTrue graph.new.failed ↔ IsErrAnd result (λ e. (e ≡ Error.Failed) ⊎ IsShortage e) }
    ensures err { IfErr result
        (λ e. (e ≡ Error.Failed) ⊎ IsShortage e ⊎ AreRefusedBy Q.refuses rules.now e ⊎ H.refuses e) }
{
    if graph.is_failed() {
        return Err(Error::Failed);
    }
    let bounds = Bounds {
        iterations: iter_limit,
        seconds: time_limit_seconds,
        start: clock.now(),
    };
    let outcome = take_turns(alloc, graph, rules, bounds, hook, clock);
    let ended = fail_if_short(graph, outcome)?;
    Ok(Report {
        iterations: ended.counted,
        stop_reason: ended.reason,
        egraph_nodes: graph.total_number_of_nodes(),
        egraph_classes: graph.progress().number_of_live_classes,
        total_time: clock.now().saturating_sub(bounds.start),
    })
}
