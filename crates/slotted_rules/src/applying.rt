//! Rules applied to a graph: all are searched for, then each is applied, and then classes are modified.
ghost use Rattle.std.specs.Prelude.{◌≡◌, ◌↔◌, ◌⊎◌, false, All, length, IsTrue, IsErrAnd, IsErrOf, IfOk, IfErr, OnOk};
ghost use Rattle.slotted_slots.specs.Error.{IsShortage};
ghost use Rattle.slotted_model_rules.specs.Runners.{AppliesAll, AppliesRules, SearchesAll};
ghost use Rattle.slotted_graph.specs.Analysed.{LowersData};
ghost use Rattle.slotted_graph.specs.Extension.{ExtendsTo};
ghost use Rattle.slotted_graph.specs.Writing.{IfUnmodified};
ghost use Rattle.slotted_rules.specs.Applying.{AreModified, AreRefusedBy, CanApplyAll, HasProgressed, RefusesRules};
ghost use Rattle.slotted_rules.specs.Applying.{StopsApplying, StopsSearching, ThenModifies};

use crate::failing::fail_if_short;
use crate::modifying::modify_classes;
use crate::rule::RewriteT;
use slotted_data::Analysis;
use slotted_graph::EGraph;
use slotted_languages::Language;
use slotted_slots::Error;
use std::alloc::Global;
use std::collections::VecDeque;

/// Returns whether each rule can be handed to calls on this graph. Takes no memory.
pub fn are_valid<L: Language, N: Analysis<L>, R: RewriteT<L, N>>(
    graph: &EGraph<L, N>,
    rules: &[R],
) -> bool
    ensures valid { IsTrue result → IsTrue graph.now.failed ⊎ All (λ r. R.valid r graph.now) rules.now }
    ensures exact { All (λ r. R.passes r graph.now) rules.now → IsTrue result }
{
    for rule in rules {
        if !rule.is_valid(graph) {
            return false;
        }
    }
    true
}

// Returns what each rule found, in order.
pub(crate) fn search_all<L: Language, N: Analysis<L>, R: RewriteT<L, N>>(
    alloc: Global,
    graph: &mut EGraph<L, N>,
    rules: &[R],
) -> Result<VecDeque<R::Found>, Error>
    requires well { graph.old.failed ≡ false }
    requires valid { All (λ r. R.valid r graph.old) rules.now }
    ensures ok { IfOk result (λ f. SearchesAll R.searches rules.now graph.old f.items graph.new) }
    ensures can { IfOk result (λ f. CanApplyAll R.can_apply rules.now f.items graph.new) }
    ensures extends { IsTrue graph.new.failed ⊎ ExtendsTo graph.old graph.new }
    ensures lowers { IsTrue graph.new.failed ⊎ LowersData N.codes N.meaning graph.old graph.new }
    ensures fails { IsTrue graph.new.failed → IsErrAnd result IsShortage }
    ensures refused { IfErr result
        (λ e. IsShortage e ⊎ StopsSearching R.searches R.gives_up rules.now graph.old graph.new e) }
    ensures err { IfErr result (λ e. IsShortage e ⊎ AreRefusedBy R.refuses rules.now e) }
{
    let mut found = VecDeque::new(alloc);
    for rule in rules {
        found.push_back(rule.search(alloc, graph)?)?;
    }
    Ok(found)
}

// Applies each rule to what it found, in order.
fn apply_all<L: Language, N: Analysis<L>, R: RewriteT<L, N>>(
    alloc: Global,
    graph: &mut EGraph<L, N>,
    rules: &[R],
    found: VecDeque<R::Found>,
) -> Result<(), Error>
    requires well { graph.old.failed ≡ false }
    requires valid { All (λ r. R.valid r graph.old) rules.now }
    requires can { CanApplyAll R.can_apply rules.now found.items graph.old }
    ensures ok { OnOk result (AppliesAll R.applies rules.now found.items graph.old graph.new) }
    ensures extends { IsTrue graph.new.failed ⊎ ExtendsTo graph.old graph.new }
    ensures lowers { IsTrue graph.new.failed ⊎ LowersData N.codes N.meaning graph.old graph.new }
    ensures fails { IsTrue graph.new.failed → IsErrAnd result IsShortage }
    ensures refused { IfErr result (λ e. IsShortage e
        ⊎ StopsApplying R.applies R.breaks_off rules.now found.items graph.old graph.new e) }
    ensures err { IfErr result (λ e. IsShortage e ⊎ AreRefusedBy R.refuses rules.now e) }
{
    let mut left = found;
    for rule in rules {
        match left.pop_front() {
            Some(next) => rule.apply(alloc, next, graph)?,
            None => unreachable!(),
        }
    }
    Ok(())
}

// Searches with all rules, then applies each.
fn search_and_apply<L: Language, N: Analysis<L>, R: RewriteT<L, N>>(
    alloc: Global,
    graph: &mut EGraph<L, N>,
    rules: &[R],
) -> Result<(), Error>
    requires well { graph.old.failed ≡ false }
    requires valid { All (λ r. R.valid r graph.old) rules.now }
    ensures rules { OnOk result (AppliesRules R.searches R.applies rules.now graph.old graph.new) }
    ensures extends { IsTrue graph.new.failed ⊎ ExtendsTo graph.old graph.new }
    ensures lowers { IsTrue graph.new.failed ⊎ LowersData N.codes N.meaning graph.old graph.new }
    ensures fails { IsTrue graph.new.failed → IsErrAnd result IsShortage }
    ensures refused { IfErr result (λ e. IsShortage e
        ⊎ RefusesRules R.searches R.gives_up R.applies R.breaks_off rules.now graph.old graph.new e) }
    ensures err { IfErr result (λ e. IsShortage e ⊎ AreRefusedBy R.refuses rules.now e) }
{
    let found = search_all(alloc, graph, rules)?;
    apply_all(alloc, graph, rules, found)
}

// Searches with all rules, applies each, and then modifies classes.
fn apply_and_modify<L: Language, N: Analysis<L>, R: RewriteT<L, N>>(
    alloc: Global,
    graph: &mut EGraph<L, N>,
    rules: &[R],
) -> Result<(), Error>
    requires well { graph.old.failed ≡ false }
    requires valid { All (λ r. R.valid r graph.old) rules.now }
    ensures modified { OnOk result (ThenModifies (AppliesRules R.searches R.applies rules.now)
        (AreModified N.codes N.meaning N.may_ask N.modifies) graph.old graph.new) }
    ensures extends { IsTrue graph.new.failed ⊎ ExtendsTo graph.old graph.new }
    ensures lowers { IsTrue graph.new.failed ⊎ LowersData N.codes N.meaning graph.old graph.new }
    ensures fails { IsTrue graph.new.failed → IsErrAnd result IsShortage }
    ensures refused { IfErr result (λ e. IsShortage e
        ⊎ RefusesRules R.searches R.gives_up R.applies R.breaks_off rules.now graph.old graph.new e) }
    ensures err { IfErr result (λ e. IsShortage e ⊎ AreRefusedBy R.refuses rules.now e) }
{
    search_and_apply(alloc, graph, rules)?;
    modify_classes(graph)
}

/// Searches with all rules, then applies each in order to what its search found, and then modifies classes, as
/// `EGraph::modify` does. Returns whether the graph's progress measure changed over all of this.
///
/// What was applied before a refusal stays. After the refusal of a rule no class is modified.
pub fn apply_rewrites<L: Language, N: Analysis<L>, R: RewriteT<L, N>>(
    alloc: Global,
    graph: &mut EGraph<L, N>,
    rules: &[R],
) -> Result<bool, Error>
    requires { IsTrue graph.old.failed ⊎ All (λ r. R.valid r graph.old) rules.now }
    ensures modified { OnOk result (ThenModifies (AppliesRules R.searches R.applies rules.now)
        (AreModified N.codes N.meaning N.may_ask N.modifies) graph.old graph.new) }

    // If classes are never modified, the rules alone lead to the new graph.
    ensures rules { IfUnmodified N.modifies
        (OnOk result (AppliesRules R.searches R.applies rules.now graph.old graph.new)) }
    ensures changed { IfOk result (λ y. IsTrue y ↔ HasProgressed graph.old.image graph.new.image) }

    // What was there stays, even if a rule is refused. Data is only lowered, and the limit of rounds stays.
    ensures extends { IsTrue graph.new.failed ⊎ ExtendsTo graph.old graph.new }
    ensures lowers { IsTrue graph.new.failed ⊎ LowersData N.codes N.meaning graph.old graph.new }

    // A refused rule is told, with what was done before it. Then no class is modified.
    ensures refused { IfErr result (λ e. IsTrue graph.new.failed
        ⊎ RefusesRules R.searches R.gives_up R.applies R.breaks_off rules.now graph.old graph.new e) }
    ensures stays { IsTrue graph.old.failed → graph.new ≡ graph.old }
    ensures failed { IsErrOf result Error.Failed ↔ IsTrue graph.old.failed }
    ensures fails { IsTrue graph.new.failed ↔ IsErrAnd result (λ e. (e ≡ Error.Failed) ⊎ IsShortage e) }
    ensures err { IfErr result (λ e. (e ≡ Error.Failed) ⊎ IsShortage e ⊎ AreRefusedBy R.refuses rules.now e) }
{
    if graph.is_failed() {
        return Err(Error::Failed);
    }
    let before = graph.progress();
    let applied = apply_and_modify(alloc, graph, rules);
    fail_if_short(graph, applied)?;
    Ok(graph.progress() != before)
}
