//! Finding a pattern at the classes of a graph.
ghost use Rattle.std.specs.Prelude.{◌≡◌, ◌⊎◌, ◌<◌, length, IsSome, IfSome, IsErrOf, IfOk, IfErr, false};
ghost use Rattle.slotted_slots.specs.Error.{IsShortage};
ghost use Rattle.slotted_slots.specs.Table.{KnowsMore};
ghost use Rattle.slotted_model.specs.Find.{IsLive};
ghost use Rattle.slotted_model.specs.Rest.{AtRest};
ghost use Rattle.slotted_classes.specs.Kept.{entries_of};
ghost use Rattle.slotted_patterns.specs.Known.{HasKnownNames};
ghost use Rattle.slotted_patterns.specs.View.{tree_of};
ghost use Rattle.slotted_classes.specs.Finding.{HasFinds};
ghost use Rattle.slotted_hashcons.specs.FiledRows.{Rows};
ghost use Rattle.slotted_hashcons.specs.WellFiled.{IsWellFiled, state_in};
ghost use Rattle.slotted_rule_patterns.specs.PatternCode.{pattern_in};
ghost use Rattle.slotted_rule_patterns.specs.Variables.{has_substitution};
ghost use Rattle.slotted_lookup.specs.Filling.{MakesAtMost};
ghost use Rattle.slotted_matching.specs.Found.{AreValidFound, Finds, HaveFreshNames, HaveVariables, IsIndexFor};
ghost use Rattle.slotted_matching.specs.Found.{FindsAt, IsFound, IsFoundAt, RunsOutFor, TakesFor, name_count};
ghost use Rattle.slotted_matching.specs.Compiled.{HasWideNode};
ghost use Rattle.slotted_matching.specs.Indexed.{HasWideKey, IsIndexed};

use crate::answers::answers_with_slots;
use crate::cache::IndexCache;
use crate::compile::compile;
use crate::index::Indexed;
use crate::matches::Matches;
use slotted_classes::Store;
use slotted_hashcons::Hashcons;
use slotted_languages::Language;
use slotted_match_machine::{search, search_class};
use slotted_patterns::Pattern;
use slotted_slots::{Error, SlotTable};
use std::alloc::Global;

/// Returns what is found for a pattern at the live classes of an index, one class after another.
///
/// A name of a value that stands for no slot of the pattern is a fresh slot, which all values of the answer share.
pub fn find_indexed<L: Language>(
    alloc: Global,
    table: &mut SlotTable,
    store: &Store<L>,
    indexed: &Indexed<L>,
    pattern: &Pattern<L>,
) -> Result<Matches, Error>
    requires links { HasFinds store.now }
    requires index { (r : Rows) × IsIndexFor store.now r indexed.now.skeletons indexed.now.index }
    requires known { HasKnownNames table.old (tree_of L.form pattern.now) }
    requires whole { IsSome (pattern_in (tree_of L.form pattern.now)) }
    requires plain { has_substitution (tree_of L.form pattern.now) ≡ false }

    // This holds over any filed e-nodes that the index is made of.
    ensures finds { (r : Rows) → IsIndexFor store.now r indexed.now.skeletons indexed.now.index
        → IfOk result (Finds store.now r (tree_of L.form pattern.now)) }
    ensures valid { (r : Rows) → IsIndexFor store.now r indexed.now.skeletons indexed.now.index
        → IfOk result (AreValidFound table.new store.now r) }
    ensures variables { IfOk result (HaveVariables (tree_of L.form pattern.now)) }

    // Only fresh slots are made, at most as many as the values have names.
    ensures fresh { IfOk result (HaveFreshNames table.old (tree_of L.form pattern.now)) }
    ensures count { IfOk result (λ found. MakesAtMost (name_count found) table.old table.new) }
    ensures takes { (r : Rows) → IsIndexFor store.now r indexed.now.skeletons indexed.now.index
        → (table.new ≡ table.old) ⊎ TakesFor (tree_of L.form pattern.now) (IsFound store.now r) table.old table.new }
    ensures names { table.new.names ≡ table.old.names }
    ensures more { KnowsMore table.old table.new }

    // They run out if fewer are left, or if a node of the pattern has too many places for a skeleton.
    ensures full { (r : Rows) → IsIndexFor store.now r indexed.now.skeletons indexed.now.index
        → IsErrOf result Error.OutOfSlots → HasWideNode (tree_of L.form pattern.now)
        ⊎ RunsOutFor (tree_of L.form pattern.now) (IsFound store.now r) table.old table.new }
    ensures err { IfErr result IsShortage }
{
    let program = compile(alloc, pattern, &indexed.skeletons)?;
    let answers = search(alloc, &indexed.index, &program.steps)?;
    answers_with_slots(alloc, table, store, &program, &answers)
}

/// Returns what is found for a pattern at one live class of an index.
///
/// A name of a value that stands for no slot of the pattern is a fresh slot, which all values of the answer share.
pub fn find_indexed_at<L: Language>(
    alloc: Global,
    table: &mut SlotTable,
    store: &Store<L>,
    indexed: &Indexed<L>,
    pattern: &Pattern<L>,
    class: usize,
) -> Result<Matches, Error>
    requires links { HasFinds store.now }
    requires index { (r : Rows) × IsIndexFor store.now r indexed.now.skeletons indexed.now.index }
    requires in_range { class < length store.now.classes }
    requires lives { IsLive (entries_of store.now) class }
    requires known { HasKnownNames table.old (tree_of L.form pattern.now) }
    requires whole { IsSome (pattern_in (tree_of L.form pattern.now)) }
    requires plain { has_substitution (tree_of L.form pattern.now) ≡ false }

    // This holds over any filed e-nodes that the index is made of.
    ensures finds { (r : Rows) → IsIndexFor store.now r indexed.now.skeletons indexed.now.index
        → IfOk result (FindsAt store.now r class (tree_of L.form pattern.now)) }
    ensures valid { (r : Rows) → IsIndexFor store.now r indexed.now.skeletons indexed.now.index
        → IfOk result (AreValidFound table.new store.now r) }
    ensures variables { IfOk result (HaveVariables (tree_of L.form pattern.now)) }

    // Only fresh slots are made, at most as many as the values have names.
    ensures fresh { IfOk result (HaveFreshNames table.old (tree_of L.form pattern.now)) }
    ensures count { IfOk result (λ found. MakesAtMost (name_count found) table.old table.new) }
    ensures takes { (r : Rows) → IsIndexFor store.now r indexed.now.skeletons indexed.now.index
        → (table.new ≡ table.old) ⊎ TakesFor (tree_of L.form pattern.now) (IsFoundAt store.now r class) table.old table.new }
    ensures names { table.new.names ≡ table.old.names }
    ensures more { KnowsMore table.old table.new }

    // They run out if fewer are left, or if a node of the pattern has too many places for a skeleton.
    ensures full { (r : Rows) → IsIndexFor store.now r indexed.now.skeletons indexed.now.index
        → IsErrOf result Error.OutOfSlots → HasWideNode (tree_of L.form pattern.now)
        ⊎ RunsOutFor (tree_of L.form pattern.now) (IsFoundAt store.now r class) table.old table.new }
    ensures err { IfErr result IsShortage }
{
    let program = compile(alloc, pattern, &indexed.skeletons)?;
    let answers = search_class(alloc, &indexed.index, &program.steps, class)?;
    answers_with_slots(alloc, table, store, &program, &answers)
}

/// Returns what is found for a pattern at the live classes, one class after another. Makes the index of the filed
/// e-nodes if there is none.
///
/// A name of a value that stands for no slot of the pattern is a fresh slot, which all values of the answer share.
pub fn find_matches<L: Language>(
    alloc: Global,
    table: &mut SlotTable,
    store: &Store<L>,
    nodes: &Hashcons<L>,
    cache: &mut IndexCache<L>,
    pattern: &Pattern<L>,
) -> Result<Matches, Error>
    requires good { IsWellFiled store.now nodes.now }
    requires links { HasFinds store.now }
    requires rests { AtRest (state_in store.now nodes.now) }
    requires index { IfSome cache.old.indexed (λ x. IsIndexed store.now nodes.now x.skeletons x.index) }
    requires known { HasKnownNames table.old (tree_of L.form pattern.now) }
    requires whole { IsSome (pattern_in (tree_of L.form pattern.now)) }
    requires plain { has_substitution (tree_of L.form pattern.now) ≡ false }
    ensures finds { IfOk result (Finds store.now nodes.now (tree_of L.form pattern.now)) }
    ensures valid { IfOk result (AreValidFound table.new store.now nodes.now) }
    ensures variables { IfOk result (HaveVariables (tree_of L.form pattern.now)) }
    ensures index { IfSome cache.new.indexed (λ x. IsIndexed store.now nodes.now x.skeletons x.index) }

    // Only fresh slots are made, at most as many as the values have names.
    ensures fresh { IfOk result (HaveFreshNames table.old (tree_of L.form pattern.now)) }
    ensures count { IfOk result (λ found. MakesAtMost (name_count found) table.old table.new) }
    ensures takes { (table.new ≡ table.old)
        ⊎ TakesFor (tree_of L.form pattern.now) (IsFound store.now nodes.now) table.old table.new }
    ensures names { table.new.names ≡ table.old.names }
    ensures more { KnowsMore table.old table.new }

    // They run out if fewer are left, or if a filed e-node or a node of the pattern has too many places for a
    // skeleton.
    ensures full { IsErrOf result Error.OutOfSlots → HasWideKey nodes.now ⊎ (HasWideNode (tree_of L.form pattern.now)
        ⊎ RunsOutFor (tree_of L.form pattern.now) (IsFound store.now nodes.now) table.old table.new) }
    ensures err { IfErr result IsShortage }
{
    cache.fill(alloc, store, nodes)?;
    match &cache.indexed {
        Some(indexed) => find_indexed(alloc, table, store, indexed, pattern),
        None => unreachable!(),
    }
}

/// Returns what is found for a pattern at one live class. Makes the index of the filed e-nodes if there is none.
///
/// A name of a value that stands for no slot of the pattern is a fresh slot, which all values of the answer share.
pub fn find_matches_at<L: Language>(
    alloc: Global,
    table: &mut SlotTable,
    store: &Store<L>,
    nodes: &Hashcons<L>,
    cache: &mut IndexCache<L>,
    pattern: &Pattern<L>,
    class: usize,
) -> Result<Matches, Error>
    requires good { IsWellFiled store.now nodes.now }
    requires links { HasFinds store.now }
    requires rests { AtRest (state_in store.now nodes.now) }
    requires index { IfSome cache.old.indexed (λ x. IsIndexed store.now nodes.now x.skeletons x.index) }
    requires in_range { class < length store.now.classes }
    requires lives { IsLive (entries_of store.now) class }
    requires known { HasKnownNames table.old (tree_of L.form pattern.now) }
    requires whole { IsSome (pattern_in (tree_of L.form pattern.now)) }
    requires plain { has_substitution (tree_of L.form pattern.now) ≡ false }
    ensures finds { IfOk result (FindsAt store.now nodes.now class (tree_of L.form pattern.now)) }
    ensures valid { IfOk result (AreValidFound table.new store.now nodes.now) }
    ensures variables { IfOk result (HaveVariables (tree_of L.form pattern.now)) }
    ensures index { IfSome cache.new.indexed (λ x. IsIndexed store.now nodes.now x.skeletons x.index) }

    // Only fresh slots are made, at most as many as the values have names.
    ensures fresh { IfOk result (HaveFreshNames table.old (tree_of L.form pattern.now)) }
    ensures count { IfOk result (λ found. MakesAtMost (name_count found) table.old table.new) }
    ensures takes { (table.new ≡ table.old)
        ⊎ TakesFor (tree_of L.form pattern.now) (IsFoundAt store.now nodes.now class) table.old table.new }
    ensures names { table.new.names ≡ table.old.names }
    ensures more { KnowsMore table.old table.new }

    // They run out if fewer are left, or if a filed e-node or a node of the pattern has too many places for a
    // skeleton.
    ensures full { IsErrOf result Error.OutOfSlots → HasWideKey nodes.now ⊎ (HasWideNode (tree_of L.form pattern.now)
        ⊎ RunsOutFor (tree_of L.form pattern.now) (IsFoundAt store.now nodes.now class) table.old table.new) }
    ensures err { IfErr result IsShortage }
{
    cache.fill(alloc, store, nodes)?;
    match &cache.indexed {
        Some(indexed) => find_indexed_at(alloc, table, store, indexed, pattern, class),
        None => unreachable!(),
    }
}
