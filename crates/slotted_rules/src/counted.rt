//! Runs that tell what each rule did in each turn.
ghost use Rattle.std.specs.Prelude.{◌≡◌, ◌↔◌, ◌⊎◌, false, All, IsTrue, IsErrAnd, IsErrOf, IfOk, IfErr};
ghost use Rattle.slotted_slots.specs.Error.{IsShortage};
ghost use Rattle.slotted_graph.specs.Analysed.{LowersData};
ghost use Rattle.slotted_graph.specs.Extension.{ExtendsTo};
ghost use Rattle.slotted_rules.specs.Applying.{AreModified, AreRefusedBy};
ghost use Rattle.slotted_rules.specs.Counting.{RefusesRule};
ghost use Rattle.slotted_rules.specs.Written.{CanBeSearched};
ghost use Rattle.slotted_rules.specs.Counted.{BreaksTurns, TakesTurns};

use crate::failing::fail_if_short;
use crate::{Cond, Rewrite, TurnCounts, apply_counted};
use slotted_data::Analysis;
use slotted_graph::EGraph;
use slotted_languages::Language;
use slotted_slots::Error;
use std::alloc::Global;

// Takes turns until one leaves the progress measure as it was, or the limit is reached. Keeps what the rules did in
// each turn.
fn take_counted<L: Language, N: Analysis<L>, C: Cond<L, N>>(
    alloc: Global,
    graph: &mut EGraph<L, N>,
    rules: &[Rewrite<L, C>],
    turn_limit: usize,
) -> Result<Vec<TurnCounts>, Error>
    requires well { graph.old.failed ≡ false }
    requires valid { All (CanBeSearched L.form graph.old.table) rules.now }
    ensures turns { IfOk result (λ turns. TakesTurns L.form C.answers rules.now
        (AreModified N.codes N.meaning N.may_ask N.modifies) turn_limit graph.old turns.items graph.new) }
    ensures extends { IsTrue graph.new.failed ⊎ ExtendsTo graph.old graph.new }
    ensures lowers { IsTrue graph.new.failed ⊎ LowersData N.codes N.meaning graph.old graph.new }
    ensures fails { IsTrue graph.new.failed → IsErrAnd result IsShortage }
    ensures refused { IfErr result (λ e. IsShortage e ⊎ BreaksTurns L.form C.answers C.refuses rules.now
        (AreModified N.codes N.meaning N.may_ask N.modifies) turn_limit graph.old graph.new e) }
    ensures err { IfErr result (λ e. IsShortage e ⊎ AreRefusedBy (RefusesRule L.form C.refuses) rules.now e) }
{
    let mut turns = Vec::new(alloc);
    while turns.len() < turn_limit {
        let turn = apply_counted(alloc, graph, rules)?;
        let changed = turn.changed;
        turns.push(turn)?;
        if !changed {
            return Ok(turns);
        }
    }
    Ok(turns)
}

/// Applies the rules until a turn leaves the progress measure as it was, or the limit of turns is reached. Returns what
/// each rule did in each turn.
///
/// Each turn ends with edits of classes, as `apply_counted` does. The rules have saturated the graph if the last turn
/// did not change it. What was applied before a refusal stays.
pub fn run_counted<L: Language, N: Analysis<L>, C: Cond<L, N>>(
    alloc: Global,
    graph: &mut EGraph<L, N>,
    rules: &[Rewrite<L, C>],
    turn_limit: usize,
) -> Result<Vec<TurnCounts>, Error>
    requires { IsTrue graph.old.failed ⊎ All (CanBeSearched L.form graph.old.table) rules.now }
    ensures turns { IfOk result (λ turns. TakesTurns L.form C.answers rules.now
        (AreModified N.codes N.meaning N.may_ask N.modifies) turn_limit graph.old turns.items graph.new) }

    // What was there stays, even if a turn is refused. Data is only lowered, and the limit of rounds stays.
    ensures extends { IsTrue graph.new.failed ⊎ ExtendsTo graph.old graph.new }
    ensures lowers { IsTrue graph.new.failed ⊎ LowersData N.codes N.meaning graph.old graph.new }

    // A refused rule is told, with what its turn did before it, and the turns before.
    ensures refused { IfErr result (λ e. IsTrue graph.new.failed ⊎ BreaksTurns L.form C.answers C.refuses rules.now
        (AreModified N.codes N.meaning N.may_ask N.modifies) turn_limit graph.old graph.new e) }
    ensures stays { IsTrue graph.old.failed → graph.new ≡ graph.old }
    ensures failed { IsErrOf result Error.Failed ↔ IsTrue graph.old.failed }
    ensures fails { IsTrue graph.new.failed ↔ IsErrAnd result (λ e. (e ≡ Error.Failed) ⊎ IsShortage e) }
    ensures err { IfErr result (λ e. (e ≡ Error.Failed) ⊎ IsShortage e
        ⊎ AreRefusedBy (RefusesRule L.form C.refuses) rules.now e) }
{
    if graph.is_failed() {
        return Err(Error::Failed);
    }
    let taken = take_counted(alloc, graph, rules, turn_limit);
    fail_if_short(graph, taken)
}
