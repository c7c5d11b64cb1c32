//! Rules applied to a graph, with counts of what each of them found and changed.
ghost use Rattle.std.specs.Prelude.{◌≡◌, ◌↔◌, ◌⊎◌, [], false, length, All, IsTrue, IsErrAnd, IsErrOf, IfOk, IfErr, OnOk};
ghost use Rattle.slotted_slots.specs.Error.{IsShortage};
ghost use Rattle.slotted_patterns.specs.View.{tree_of};
ghost use Rattle.slotted_graph.specs.Analysed.{LowersData};
ghost use Rattle.slotted_graph.specs.Extension.{ExtendsTo};
ghost use Rattle.slotted_graph.specs.Writing.{IfUnmodified};
ghost use Rattle.slotted_rules.specs.Applying.{AreModified, AreRefusedBy, CanApplyAll, HasProgressed, StopsApplying};
ghost use Rattle.slotted_rules.specs.Counting.{AppliesCounted, AppliesRule, BreaksRule, CanApplyRule, CountsAndModifies};
ghost use Rattle.slotted_rules.specs.Counting.{CountsRules, RefusesCounted, RefusesRule, UnitesRule};
ghost use Rattle.slotted_rules.specs.Rewriting.{CanBeApplied};
ghost use Rattle.slotted_rules.specs.Written.{CanBeSearched};

use crate::applying::search_all;
use crate::condition::Cond;
use crate::failing::fail_if_short;
use crate::modifying::modify_classes;
use crate::rewrite::Rewrite;
use crate::written::apply_matches;
use slotted_data::Analysis;
use slotted_graph::EGraph;
use slotted_languages::Language;
use slotted_matching::Matches;
use slotted_slots::Error;
use std::alloc::Global;
use std::collections::VecDeque;

/// What a rule did when the rules were applied once.
#[derive(Drop, Debug, Clone, Copy, PartialEq, Eq)]
pub struct RuleCounts {
    /// The number of matches that the search found.
    pub found: usize,
    /// The number of matches whose instances were not found equal before they were united.
    pub united: usize,
}

/// What the rules did when they were applied once.
#[derive(Drop, Debug)]
pub struct TurnCounts {
    /// Whether the graph's progress measure changed.
    pub changed: bool,
    /// What each rule did, in order.
    pub rules: Vec<RuleCounts>,
}

// Applies a rule to what it found, and counts.
fn count_one<L: Language, N: Analysis<L>, C: Cond<L, N>>(
    alloc: Global,
    graph: &mut EGraph<L, N>,
    rule: &Rewrite<L, C>,
    found: Matches,
) -> Result<RuleCounts, Error>
    requires well { graph.old.failed ≡ false }
    requires valid { CanBeSearched L.form graph.old.table rule.now }
    requires found { CanBeApplied (tree_of L.form rule.now.left) found graph.old }
    ensures ok { IfOk result (λ k. (k.found ≡ length found) × UnitesRule L.form C.answers rule.now (found, k.united) graph.old graph.new) }
    ensures extends { IsTrue graph.new.failed ⊎ ExtendsTo graph.old graph.new }
    ensures lowers { IsTrue graph.new.failed ⊎ LowersData N.codes N.meaning graph.old graph.new }
    ensures fails { IsTrue graph.new.failed → IsErrAnd result (λ e. (e ≡ Error.Failed) ⊎ IsShortage e) }
    ensures failed { IsErrOf result Error.Failed ↔ IsTrue graph.old.failed }
    ensures left { IfErr result (λ e. IsTrue graph.new.failed
        ⊎ BreaksRule L.form C.answers C.refuses rule.now found graph.old graph.new e) }
    ensures err { IfErr result (λ e. (e ≡ Error.Failed) ⊎ IsShortage e ⊎ RefusesRule L.form C.refuses rule.now e) }
{
    let united = apply_matches(alloc, graph, rule, &found)?;
    Ok(RuleCounts {
        found: found.len(),
        united,
    })
}

// Applies each rule to what it found, in order, and counts.
fn count_all<L: Language, N: Analysis<L>, C: Cond<L, N>>(
    alloc: Global,
    graph: &mut EGraph<L, N>,
    rules: &[Rewrite<L, C>],
    found: VecDeque<Matches>,
    counts: &mut Vec<RuleCounts>,
) -> Result<(), Error>
    requires well { graph.old.failed ≡ false }
    requires valid { All (CanBeSearched L.form graph.old.table) rules.now }
    requires can { CanApplyAll (CanApplyRule L.form) rules.now found.items graph.old }
    requires none { counts.old.items ≡ [] }
    ensures ok { OnOk result (AppliesCounted L.form C.answers rules.now found.items graph.old counts.new.items graph.new) }
    ensures extends { IsTrue graph.new.failed ⊎ ExtendsTo graph.old graph.new }
    ensures lowers { IsTrue graph.new.failed ⊎ LowersData N.codes N.meaning graph.old graph.new }
    ensures fails { IsTrue graph.new.failed → IsErrAnd result IsShortage }
    ensures refused { IfErr result (λ e. IsShortage e ⊎ StopsApplying (AppliesRule L.form C.answers)
        (BreaksRule L.form C.answers C.refuses) rules.now found.items graph.old graph.new e) }
    ensures err { IfErr result (λ e. IsShortage e ⊎ AreRefusedBy (RefusesRule L.form C.refuses) rules.now e) }
{
    let mut left = found;
    for rule in rules {
        match left.pop_front() {
            Some(next) => counts.push(count_one(alloc, graph, rule, next)?)?,
            None => unreachable!(),
        }
    }
    Ok(())
}

// Searches with all rules, then applies each, and counts.
fn search_and_count<L: Language, N: Analysis<L>, C: Cond<L, N>>(
    alloc: Global,
    graph: &mut EGraph<L, N>,
    rules: &[Rewrite<L, C>],
) -> Result<Vec<RuleCounts>, Error>
    requires well { graph.old.failed ≡ false }
    requires valid { All (CanBeSearched L.form graph.old.table) rules.now }
    ensures counts { IfOk result (λ v. CountsRules L.form C.answers rules.now graph.old v.items graph.new) }
    ensures extends { IsTrue graph.new.failed ⊎ ExtendsTo graph.old graph.new }
    ensures lowers { IsTrue graph.new.failed ⊎ LowersData N.codes N.meaning graph.old graph.new }
    ensures fails { IsTrue graph.new.failed → IsErrAnd result IsShortage }
    ensures refused { IfErr result
        (λ e. IsShortage e ⊎ RefusesCounted L.form C.answers C.refuses rules.now graph.old graph.new e) }
    ensures err { IfErr result (λ e. IsShortage e ⊎ AreRefusedBy (RefusesRule L.form C.refuses) rules.now e) }
{
    let found = search_all(alloc, graph, rules)?;
    let mut counts = Vec::new(alloc);
    count_all(alloc, graph, rules, found, &mut counts)?;
    Ok(counts)
}

// Searches with all rules, applies each, counts, and then modifies classes.
fn count_and_modify<L: Language, N: Analysis<L>, C: Cond<L, N>>(
    alloc: Global,
    graph: &mut EGraph<L, N>,
    rules: &[Rewrite<L, C>],
) -> Result<Vec<RuleCounts>, Error>
    requires well { graph.old.failed ≡ false }
    requires valid { All (CanBeSearched L.form graph.old.table) rules.now }
    ensures modified { IfOk result (λ v. CountsAndModifies L.form C.answers rules.now
        (AreModified N.codes N.meaning N.may_ask N.modifies) graph.old v.items graph.new) }
    ensures extends { IsTrue graph.new.failed ⊎ ExtendsTo graph.old graph.new }
    ensures lowers { IsTrue graph.new.failed ⊎ LowersData N.codes N.meaning graph.old graph.new }
    ensures fails { IsTrue graph.new.failed → IsErrAnd result IsShortage }
    ensures refused { IfErr result
        (λ e. IsShortage e ⊎ RefusesCounted L.form C.answers C.refuses rules.now graph.old graph.new e) }
    ensures err { IfErr result (λ e. IsShortage e ⊎ AreRefusedBy (RefusesRule L.form C.refuses) rules.now e) }
{
    let counts = search_and_count(alloc, graph, rules)?;
    modify_classes(graph)?;
    Ok(counts)
}

// Applies the rules once, counts, and modifies classes, over a graph that has not failed.
fn count_turn<L: Language, N: Analysis<L>, C: Cond<L, N>>(
    alloc: Global,
    graph: &mut EGraph<L, N>,
    rules: &[Rewrite<L, C>],
) -> Result<TurnCounts, Error>
    requires well { graph.old.failed ≡ false }
    requires valid { All (CanBeSearched L.form graph.old.table) rules.now }
    ensures modified { IfOk result (λ t. CountsAndModifies L.form C.answers rules.now
        (AreModified N.codes N.meaning N.may_ask N.modifies) graph.old t.rules.items graph.new) }
    ensures changed { IfOk result (λ t. IsTrue t.changed ↔ HasProgressed graph.old.image graph.new.image) }
    ensures extends { IsTrue graph.new.failed ⊎ ExtendsTo graph.old graph.new }
    ensures lowers { IsTrue graph.new.failed ⊎ LowersData N.codes N.meaning graph.old graph.new }
    ensures fails { IsTrue graph.new.failed → IsErrAnd result IsShortage }
    ensures refused { IfErr result
        (λ e. IsShortage e ⊎ RefusesCounted L.form C.answers C.refuses rules.now graph.old graph.new e) }
    ensures err { IfErr result (λ e. IsShortage e ⊎ AreRefusedBy (RefusesRule L.form C.refuses) rules.now e) }
{
    let before = graph.progress();
    let counts = count_and_modify(alloc, graph, rules)?;
    Ok(TurnCounts {
        changed: graph.progress() != before,
        rules: counts,
    })
}

/// Searches with all rules, then applies each in order to what its search found, and then modifies classes, as
/// `apply_rewrites` does. Returns what each rule found and changed.
///
/// A match counts as united if the instances of both sides were not found equal just before. E-nodes that an instance
/// adds are not counted, nor is what edits of classes change. What was applied before a refusal stays. After the refusal
/// of a rule no class is modified.
pub fn apply_counted<L: Language, N: Analysis<L>, C: Cond<L, N>>(
    alloc: Global,
    graph: &mut EGraph<L, N>,
    rules: &[Rewrite<L, C>],
) -> Result<TurnCounts, Error>
    requires { IsTrue graph.old.failed ⊎ All (CanBeSearched L.form graph.old.table) rules.now }
    ensures modified { IfOk result (λ t. CountsAndModifies L.form C.answers rules.now
        (AreModified N.codes N.meaning N.may_ask N.modifies) graph.old t.rules.items graph.new) }

    // If classes are never modified, the rules alone lead to the new graph.
    ensures counts { IfUnmodified N.modifies
        (IfOk result (λ t. CountsRules L.form C.answers rules.now graph.old t.rules.items graph.new)) }
    ensures changed { IfOk result (λ t. IsTrue t.changed ↔ HasProgressed graph.old.image graph.new.image) }

    // What was there stays, even if a rule is refused. Data is only lowered, and the limit of rounds stays.
    ensures extends { IsTrue graph.new.failed ⊎ ExtendsTo graph.old graph.new }
    ensures lowers { IsTrue graph.new.failed ⊎ LowersData N.codes N.meaning graph.old graph.new }

    // A refused rule is told, with what was done before it. Then no class is modified.
    ensures refused { IfErr result (λ e. IsTrue graph.new.failed
        ⊎ RefusesCounted L.form C.answers C.refuses rules.now graph.old graph.new e) }
    ensures stays { IsTrue graph.old.failed → graph.new ≡ graph.old }
    ensures failed { IsErrOf result Error.Failed ↔ IsTrue graph.old.failed }
    ensures fails { IsTrue graph.new.failed ↔ IsErrAnd result (λ e. (e ≡ Error.Failed) ⊎ IsShortage e) }
    ensures err { IfErr result (λ e. (e ≡ Error.Failed) ⊎ IsShortage e
        ⊎ AreRefusedBy (RefusesRule L.form C.refuses) rules.now e) }
{
    if graph.is_failed() {
        return Err(Error::Failed);
    }
    let turn = count_turn(alloc, graph, rules);
    fail_if_short(graph, turn)
}
