//! Uniting instances of two patterns.
ghost use Rattle.std.specs.Prelude.{◌≡◌, ◌⊎◌, ◌↔◌, false, map, None, IsSome, IsTrue, IsErrAnd, IsErrOf, IfErr, IfOk, OnOk};
ghost use Rattle.slotted_slots.specs.Error.{IsShortage};
ghost use Rattle.slotted_patterns.specs.Known.{HasKnownNames};
ghost use Rattle.slotted_patterns.specs.Subpatterns.{subpatterns};
ghost use Rattle.slotted_patterns.specs.View.{tree_of};
ghost use Rattle.slotted_graph.specs.Extension.{ExtendsTo};
ghost use Rattle.slotted_graph.specs.Image.{text_bytes};
ghost use Rattle.slotted_graph.specs.States.{IsGraph};
ghost use Rattle.slotted_rule_patterns.specs.PatternCode.{pattern_in};
ghost use Rattle.slotted_rule_patterns.specs.Values.{values_of};
ghost use Rattle.slotted_rules.specs.Carried.{CarriesAlong};
ghost use Rattle.slotted_rules.specs.Filled.{AreFullValues};
ghost use Rattle.slotted_rules.specs.Instances.{AreValidValues, HasValues};
ghost use Rattle.slotted_rules.specs.Refusals.{AreMissing, HavePassed, IsEitherNotWhole, IsFailedOrShort};
ghost use Rattle.slotted_rules.specs.Refusals.{IsRefusedBefore, RefusesInstances};
ghost use Rattle.slotted_rules.specs.Uniting.{UnitesInstances};

use crate::failing::fail_if_short;
use crate::filling::{are_full, full_values};
use crate::listed::Listed;
use crate::refusals::check_values;
use crate::stored::build_stored_listed;
use slotted_data::Analysis;
use slotted_graph::EGraph;
use slotted_languages::Language;
use slotted_patterns::Pattern;
use slotted_rule_patterns::Subst;
use slotted_rule_patterns::inside::subpatterns;
use slotted_rule_patterns::pattern::is_whole;
use slotted_slots::Error;
use std::alloc::Global;

// Checks that each variable of both patterns has a value.
fn check_both<L: Language>(
    alloc: Global,
    a: &Pattern<L>,
    b: &Pattern<L>,
    subst: &Subst,
) -> Result<(), Error>
    ensures left { OnOk result (HasValues (values_of subst.now) (tree_of L.form a.now)) }
    ensures right { OnOk result (HasValues (values_of subst.now) (tree_of L.form b.now)) }
    ensures err { IfErr result (λ e. IsShortage e
        ⊎ AreMissing (values_of subst.now) (tree_of L.form a.now) (tree_of L.form b.now) e) }
{
    check_values(alloc, a, subst)?;
    check_values(alloc, b, subst)
}

// Unites both instances over values that omit no name.
fn unite_full<L: Language, N: Analysis<L>>(
    alloc: Global,
    graph: &mut EGraph<L, N>,
    a: &Listed<L>,
    b: &Listed<L>,
    subst: &Subst,
    text: Option<String>,
) -> Result<bool, Error>
    requires graph { IsGraph graph.old }
    requires listed_left { map (λ p. tree_of L.form p.now) a.now.inside.now
        ≡ subpatterns (tree_of L.form a.now.pattern.now) }
    requires listed_right { map (λ p. tree_of L.form p.now) b.now.inside.now
        ≡ subpatterns (tree_of L.form b.now.pattern.now) }
    requires left { HasKnownNames graph.old.table (tree_of L.form a.now.pattern.now) }
    requires right { HasKnownNames graph.old.table (tree_of L.form b.now.pattern.now) }
    requires full { AreFullValues graph.old (values_of subst.now) }
    requires whole_left { IsSome (pattern_in (tree_of L.form a.now.pattern.now)) }
    requires whole_right { IsSome (pattern_in (tree_of L.form b.now.pattern.now)) }
    requires given_left { HasValues (values_of subst.now) (tree_of L.form a.now.pattern.now) }
    requires given_right { HasValues (values_of subst.now) (tree_of L.form b.now.pattern.now) }
    ensures unites { IfOk result (UnitesInstances graph.old graph.new (values_of subst.now)
        (tree_of L.form a.now.pattern.now) (tree_of L.form b.now.pattern.now) (text_bytes text)) }
    ensures well { OnOk result (graph.new.failed ≡ false) }
    ensures carries { IsTrue graph.new.failed ⊎ CarriesAlong N.codes N.meaning graph.old graph.new }
    ensures only { IfErr result IsShortage }
{
    let method = graph.subst_method();
    let left = build_stored_listed(alloc, graph, method, a, subst)?;
    let right = build_stored_listed(alloc, graph, method, b, subst)?;
    graph.union_quietly(&left, &right, text)
}

// Unites both instances, which are built over the same filled values.
fn fill_and_unite<L: Language, N: Analysis<L>>(
    alloc: Global,
    graph: &mut EGraph<L, N>,
    a: &Listed<L>,
    b: &Listed<L>,
    subst: &Subst,
    text: Option<String>,
) -> Result<bool, Error>
    requires graph { IsGraph graph.old }
    requires listed_left { map (λ p. tree_of L.form p.now) a.now.inside.now
        ≡ subpatterns (tree_of L.form a.now.pattern.now) }
    requires listed_right { map (λ p. tree_of L.form p.now) b.now.inside.now
        ≡ subpatterns (tree_of L.form b.now.pattern.now) }
    requires left { HasKnownNames graph.old.table (tree_of L.form a.now.pattern.now) }
    requires right { HasKnownNames graph.old.table (tree_of L.form b.now.pattern.now) }
    requires values { AreValidValues graph.old (values_of subst.now) }
    requires whole_left { IsSome (pattern_in (tree_of L.form a.now.pattern.now)) }
    requires whole_right { IsSome (pattern_in (tree_of L.form b.now.pattern.now)) }
    requires given_left { HasValues (values_of subst.now) (tree_of L.form a.now.pattern.now) }
    requires given_right { HasValues (values_of subst.now) (tree_of L.form b.now.pattern.now) }
    ensures unites { IfOk result (UnitesInstances graph.old graph.new (values_of subst.now)
        (tree_of L.form a.now.pattern.now) (tree_of L.form b.now.pattern.now) (text_bytes text)) }
    ensures well { OnOk result (graph.new.failed ≡ false) }
    ensures carries { IsTrue graph.new.failed ⊎ CarriesAlong N.codes N.meaning graph.old graph.new }
    ensures only { IfErr result IsShortage }
{
    let filled = full_values(alloc, graph, subst)?;
    let method = graph.subst_method();
    let left = build_stored_listed(alloc, graph, method, a, &filled)?;
    let right = build_stored_listed(alloc, graph, method, b, &filled)?;
    graph.union_quietly(&left, &right, text)
}

// Unites both instances, from the lists of the patterns in them. Values are copied only if one of them omits a name.
fn unite_listed<L: Language, N: Analysis<L>>(
    alloc: Global,
    graph: &mut EGraph<L, N>,
    a: &Listed<L>,
    b: &Listed<L>,
    subst: &Subst,
    text: Option<String>,
) -> Result<bool, Error>
    requires graph { IsGraph graph.old }
    requires listed_left { map (λ p. tree_of L.form p.now) a.now.inside.now
        ≡ subpatterns (tree_of L.form a.now.pattern.now) }
    requires listed_right { map (λ p. tree_of L.form p.now) b.now.inside.now
        ≡ subpatterns (tree_of L.form b.now.pattern.now) }
    requires left { HasKnownNames graph.old.table (tree_of L.form a.now.pattern.now) }
    requires right { HasKnownNames graph.old.table (tree_of L.form b.now.pattern.now) }
    requires values { AreValidValues graph.old (values_of subst.now) }
    requires whole_left { IsSome (pattern_in (tree_of L.form a.now.pattern.now)) }
    requires whole_right { IsSome (pattern_in (tree_of L.form b.now.pattern.now)) }
    requires given_left { HasValues (values_of subst.now) (tree_of L.form a.now.pattern.now) }
    requires given_right { HasValues (values_of subst.now) (tree_of L.form b.now.pattern.now) }
    ensures unites { IfOk result (UnitesInstances graph.old graph.new (values_of subst.now)
        (tree_of L.form a.now.pattern.now) (tree_of L.form b.now.pattern.now) (text_bytes text)) }
    ensures well { OnOk result (graph.new.failed ≡ false) }
    ensures carries { IsTrue graph.new.failed ⊎ CarriesAlong N.codes N.meaning graph.old graph.new }
    ensures only { IfErr result IsShortage }
{
    if are_full(graph, subst) {
        return unite_full(alloc, graph, a, b, subst, text);
    }
    fill_and_unite(alloc, graph, a, b, subst, text)
}

// Unites both instances, as `unite_listed` does.
fn unite<L: Language, N: Analysis<L>>(
    alloc: Global,
    graph: &mut EGraph<L, N>,
    a: &Pattern<L>,
    b: &Pattern<L>,
    subst: &Subst,
    text: Option<String>,
) -> Result<bool, Error>
    requires graph { IsGraph graph.old }
    requires left { HasKnownNames graph.old.table (tree_of L.form a.now) }
    requires right { HasKnownNames graph.old.table (tree_of L.form b.now) }
    requires values { AreValidValues graph.old (values_of subst.now) }
    requires whole_left { IsSome (pattern_in (tree_of L.form a.now)) }
    requires whole_right { IsSome (pattern_in (tree_of L.form b.now)) }
    requires given_left { HasValues (values_of subst.now) (tree_of L.form a.now) }
    requires given_right { HasValues (values_of subst.now) (tree_of L.form b.now) }
    ensures unites { IfOk result (UnitesInstances graph.old graph.new (values_of subst.now)
        (tree_of L.form a.now) (tree_of L.form b.now) (text_bytes text)) }
    ensures well { OnOk result (graph.new.failed ≡ false) }
    ensures carries { IsTrue graph.new.failed ⊎ CarriesAlong N.codes N.meaning graph.old graph.new }
    ensures only { IfErr result IsShortage }
{
    let in_a = subpatterns(alloc, a)?;
    let in_b = subpatterns(alloc, b)?;
    let a = Listed {
        pattern: a,
        inside: &in_a,
    };
    let b = Listed {
        pattern: b,
        inside: &in_b,
    };
    unite_listed(alloc, graph, &a, &b, subst, text)
}

/// Asserts that instances of both patterns are equal, as `union_tested` does, from the lists of the patterns in them.
pub(crate) fn union_listed<L: Language, N: Analysis<L>>(
    alloc: Global,
    graph: &mut EGraph<L, N>,
    a: &Listed<L>,
    b: &Listed<L>,
    subst: &Subst,
    text: Option<String>,
) -> Result<bool, Error>
    requires graph { IsGraph graph.old }
    requires listed_left { map (λ p. tree_of L.form p.now) a.now.inside.now
        ≡ subpatterns (tree_of L.form a.now.pattern.now) }
    requires listed_right { map (λ p. tree_of L.form p.now) b.now.inside.now
        ≡ subpatterns (tree_of L.form b.now.pattern.now) }
    requires left { HasKnownNames graph.old.table (tree_of L.form a.now.pattern.now) }
    requires right { HasKnownNames graph.old.table (tree_of L.form b.now.pattern.now) }
    requires values { AreValidValues graph.old (values_of subst.now) }
    requires tested { HavePassed (values_of subst.now) (tree_of L.form a.now.pattern.now)
        (tree_of L.form b.now.pattern.now) }
    ensures unites { IfOk result (UnitesInstances graph.old graph.new (values_of subst.now)
        (tree_of L.form a.now.pattern.now) (tree_of L.form b.now.pattern.now) (text_bytes text)) }
    ensures extends { IsTrue graph.new.failed ⊎ ExtendsTo graph.old graph.new }
    ensures carries { IsTrue graph.new.failed ⊎ CarriesAlong N.codes N.meaning graph.old graph.new }
    ensures fails { IsTrue graph.new.failed ↔ IsErrAnd result IsShortage }
    ensures only { IfErr result IsShortage }
{
    let answer = unite_listed(alloc, graph, a, b, subst, text);
    fail_if_short(graph, answer)
}

/// Asserts that instances of both patterns are equal, as `union_instantiations` does, and tests neither pattern.
///
/// A caller that unites many instances of the same patterns tests these once: they are whole, and each variable has a
/// value.
pub fn union_tested<L: Language, N: Analysis<L>>(
    alloc: Global,
    graph: &mut EGraph<L, N>,
    a: &Pattern<L>,
    b: &Pattern<L>,
    subst: &Subst,
    text: Option<String>,
) -> Result<bool, Error>
    requires graph { IsGraph graph.old }
    requires left { HasKnownNames graph.old.table (tree_of L.form a.now) }
    requires right { HasKnownNames graph.old.table (tree_of L.form b.now) }
    requires values { AreValidValues graph.old (values_of subst.now) }
    requires tested { HavePassed (values_of subst.now) (tree_of L.form a.now) (tree_of L.form b.now) }
    ensures unites { IfOk result (UnitesInstances graph.old graph.new (values_of subst.now)
        (tree_of L.form a.now) (tree_of L.form b.now) (text_bytes text)) }
    ensures extends { IsTrue graph.new.failed ⊎ ExtendsTo graph.old graph.new }
    ensures carries { IsTrue graph.new.failed ⊎ CarriesAlong N.codes N.meaning graph.old graph.new }
    ensures fails { IsTrue graph.new.failed ↔ IsErrAnd result IsShortage }
    ensures only { IfErr result IsShortage }
{
    let answer = unite(alloc, graph, a, b, subst, text);
    fail_if_short(graph, answer)
}

// Unites both instances, if each variable has a value.
fn test_and_unite<L: Language, N: Analysis<L>>(
    alloc: Global,
    graph: &mut EGraph<L, N>,
    a: &Pattern<L>,
    b: &Pattern<L>,
    subst: &Subst,
    text: Option<String>,
) -> Result<bool, Error>
    requires graph { IsGraph graph.old }
    requires left { HasKnownNames graph.old.table (tree_of L.form a.now) }
    requires right { HasKnownNames graph.old.table (tree_of L.form b.now) }
    requires values { AreValidValues graph.old (values_of subst.now) }
    requires whole_left { IsSome (pattern_in (tree_of L.form a.now)) }
    requires whole_right { IsSome (pattern_in (tree_of L.form b.now)) }
    ensures unites { IfOk result (UnitesInstances graph.old graph.new (values_of subst.now)
        (tree_of L.form a.now) (tree_of L.form b.now) (text_bytes text)) }
    ensures well { OnOk result (graph.new.failed ≡ false) }
    ensures left { OnOk result (HasValues (values_of subst.now) (tree_of L.form a.now)) }
    ensures right { OnOk result (HasValues (values_of subst.now) (tree_of L.form b.now)) }
    ensures carries { IsTrue graph.new.failed ⊎ CarriesAlong N.codes N.meaning graph.old graph.new }
    ensures err { IfErr result (λ e. IsShortage e
        ⊎ (AreMissing (values_of subst.now) (tree_of L.form a.now) (tree_of L.form b.now) e × (graph.new ≡ graph.old))) }
{
    check_both(alloc, a, b, subst)?;
    unite(alloc, graph, a, b, subst, text)
}

/// Asserts that instances of both patterns are equal, which are built as `pattern_subst` builds them. Returns true if
/// they were not found equal before.
///
/// Their equation is a new entry of the proof list with the text, unless it was proved already. No class is modified:
/// new classes, and those whose data has changed, wait for `EGraph::modify`.
pub fn union_instantiations<L: Language, N: Analysis<L>>(
    alloc: Global,
    graph: &mut EGraph<L, N>,
    a: &Pattern<L>,
    b: &Pattern<L>,
    subst: &Subst,
    text: Option<String>,
) -> Result<bool, Error>
    requires left { IsTrue graph.old.failed ⊎ HasKnownNames graph.old.table (tree_of L.form a.now) }
    requires right { IsTrue graph.old.failed ⊎ HasKnownNames graph.old.table (tree_of L.form b.now) }
    requires values { IsTrue graph.old.failed ⊎ AreValidValues graph.old (values_of subst.now) }

    // It follows that an entry is an equation of instances of both patterns, and that each new asserted entry is this
    // one (`united-equation`).
    ensures unites { IfOk result (UnitesInstances graph.old graph.new (values_of subst.now)
        (tree_of L.form a.now) (tree_of L.form b.now) (text_bytes text)) }
    ensures extends { IsTrue graph.new.failed ⊎ ExtendsTo graph.old graph.new }

    // Data is only lowered. New classes, and those whose data has changed, wait to be modified.
    ensures carries { IsTrue graph.new.failed ⊎ CarriesAlong N.codes N.meaning graph.old graph.new }

    // Both patterns are tested before anything is added: first that they are whole, and then their variables from the
    // left.
    ensures tested { OnOk result (HavePassed (values_of subst.now) (tree_of L.form a.now) (tree_of L.form b.now)) }
    ensures whole { IsErrOf result Error.NotATerm ↔ ((graph.old.failed ≡ false)
        × IsEitherNotWhole (tree_of L.form a.now) (tree_of L.form b.now)) }
    ensures unchanged { IsErrAnd result IsRefusedBefore → graph.new ≡ graph.old }

    ensures stays { IsTrue graph.old.failed → graph.new ≡ graph.old }
    ensures failed { IsErrOf result Error.Failed ↔ IsTrue graph.old.failed }
    ensures fails { IsTrue graph.new.failed ↔ IsErrAnd result IsFailedOrShort }
    ensures only { IfErr result
        (RefusesInstances (values_of subst.now) (tree_of L.form a.now) (tree_of L.form b.now)) }
{
    if graph.is_failed() {
        return Err(Error::Failed);
    }
    if !is_whole(a) || !is_whole(b) {
        return Err(Error::NotATerm);
    }
    let answer = test_and_unite(alloc, graph, a, b, subst, text);
    fail_if_short(graph, answer)
}
