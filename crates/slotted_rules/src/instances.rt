//! Instances of patterns, for callers of a graph.
ghost use Rattle.std.specs.Prelude.{◌≡◌, ◌⊎◌, ◌↔◌, false, None, IsSome, IsTrue, IsErrAnd, IsErrOf, IfErr, IfOk};
ghost use Rattle.std.specs.Prelude.{OnErr, OnOk};
ghost use Rattle.slotted_slots.specs.Error.{IsShortage};
ghost use Rattle.slotted_proofs.specs.Equations.{to_applied};
ghost use Rattle.slotted_patterns.specs.Known.{HasKnownNames};
ghost use Rattle.slotted_patterns.specs.View.{tree_of};
ghost use Rattle.slotted_graph.specs.Extension.{ExtendsTo};
ghost use Rattle.slotted_graph.specs.States.{IsGraph};
ghost use Rattle.slotted_graph.specs.ValidIds.{IsValidId};
ghost use Rattle.slotted_rule_patterns.specs.PatternCode.{pattern_in};
ghost use Rattle.slotted_rule_patterns.specs.Values.{values_of};
ghost use Rattle.slotted_rule_patterns.specs.Variables.{first_missing};
ghost use Rattle.slotted_rules.specs.Carried.{CarriesAlong};
ghost use Rattle.slotted_rules.specs.Instances.{AreValidValues, HasValues, InstantiatesKnown};
ghost use Rattle.slotted_rules.specs.Refusals.{IsFailedOrShort, IsMissing, IsRefusedBefore, PassesTests};
ghost use Rattle.slotted_rules.specs.Refusals.{RefusesInstance, RefusesMissing};

use crate::failing::fail_if_short;
use crate::refusals::check_values;
use crate::stored::build_stored;
use slotted_data::Analysis;
use slotted_graph::EGraph;
use slotted_languages::Language;
use slotted_patterns::Pattern;
use slotted_rule_patterns::Subst;
use slotted_rule_patterns::pattern::is_whole;
use slotted_slots::{AppliedId, Error};
use std::alloc::Global;

// Builds the instance of a whole pattern, if each variable has a value.
fn instance<L: Language, N: Analysis<L>>(
    alloc: Global,
    graph: &mut EGraph<L, N>,
    pattern: &Pattern<L>,
    subst: &Subst,
) -> Result<AppliedId, Error>
    requires graph { IsGraph graph.old }
    requires known { HasKnownNames graph.old.table (tree_of L.form pattern.now) }
    requires values { AreValidValues graph.old (values_of subst.now) }
    requires whole { IsSome (pattern_in (tree_of L.form pattern.now)) }
    ensures ok { IfOk result (λ a. InstantiatesKnown graph.old graph.new (values_of subst.now)
        (tree_of L.form pattern.now) (to_applied a)) }
    ensures given { OnOk result (HasValues (values_of subst.now) (tree_of L.form pattern.now)) }
    ensures carries { IsTrue graph.new.failed ⊎ CarriesAlong N.codes N.meaning graph.old graph.new }
    ensures missing { IsSome (first_missing (tree_of L.form pattern.now) (values_of subst.now))
        → RefusesMissing (values_of subst.now) (tree_of L.form pattern.now) result × (graph.new ≡ graph.old) }
    ensures err { IfErr result (λ e. IsShortage e
        ⊎ (IsMissing (values_of subst.now) (tree_of L.form pattern.now) e × (graph.new ≡ graph.old))) }
{
    check_values(alloc, pattern, subst)?;
    let method = graph.subst_method();
    build_stored(alloc, graph, method, pattern, subst)
}

/// Returns the id of an instance of the pattern, in which the ids of the substitution stand for the variables.
///
/// For `b[x := t]` the graph's method of substitution chooses a term for `b`. In this term `t` replaces each topmost
/// part that is alpha-equal to the canonical term of `x`, and nothing is captured.
///
/// An e-node of the instance is added as a syntactic e-node. The answer for a variable is its value, as it was handed
/// in. No class is modified: new classes wait for `EGraph::modify`.
pub fn pattern_subst<L: Language, N: Analysis<L>>(
    alloc: Global,
    graph: &mut EGraph<L, N>,
    pattern: &Pattern<L>,
    subst: &Subst,
) -> Result<AppliedId, Error>
    requires known { IsTrue graph.old.failed ⊎ HasKnownNames graph.old.table (tree_of L.form pattern.now) }
    requires values { IsTrue graph.old.failed ⊎ AreValidValues graph.old (values_of subst.now) }

    // If the pattern is a variable, the answer is its value; else a full id whose term is an instance. Nothing is
    // asserted.
    ensures instance { IfOk result (λ a. InstantiatesKnown graph.old graph.new (values_of subst.now)
        (tree_of L.form pattern.now) (to_applied a)) }
    ensures valid { IfOk result (λ a. IsValidId graph.new (to_applied a)) }
    ensures extends { IsTrue graph.new.failed ⊎ ExtendsTo graph.old graph.new }

    // Data is only lowered. New classes, and those whose data has changed, wait to be modified.
    ensures carries { IsTrue graph.new.failed ⊎ CarriesAlong N.codes N.meaning graph.old graph.new }

    // The pattern is tested before anything is added: first that it is whole, and then its variables from the left.
    ensures tested { OnOk result (PassesTests (values_of subst.now) (tree_of L.form pattern.now)) }
    ensures whole { IsErrOf result Error.NotATerm
        ↔ ((graph.old.failed ≡ false) × (pattern_in (tree_of L.form pattern.now) ≡ None)) }
    ensures missing { graph.old.failed ≡ false → IsSome (pattern_in (tree_of L.form pattern.now))
        → IsSome (first_missing (tree_of L.form pattern.now) (values_of subst.now))
        → RefusesMissing (values_of subst.now) (tree_of L.form pattern.now) result
        × (IsTrue graph.new.failed ⊎ (graph.new ≡ graph.old)) }
    ensures unchanged { IsErrAnd result IsRefusedBefore → graph.new ≡ graph.old }

    ensures stays { IsTrue graph.old.failed → graph.new ≡ graph.old }
    ensures failed { IsErrOf result Error.Failed ↔ IsTrue graph.old.failed }
    ensures fails { IsTrue graph.new.failed ↔ IsErrAnd result IsFailedOrShort }
    ensures only { IfErr result (RefusesInstance (values_of subst.now) (tree_of L.form pattern.now)) }
{
    if graph.is_failed() {
        return Err(Error::Failed);
    }
    if !is_whole(pattern) {
        return Err(Error::NotATerm);
    }
    let answer = instance(alloc, graph, pattern, subst);
    fail_if_short(graph, answer)
}
