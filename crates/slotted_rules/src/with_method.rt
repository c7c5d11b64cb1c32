//! Instances of patterns by a method of the caller's own.
ghost use Rattle.std.specs.Prelude.{◌≡◌, ◌⊎◌, ◌↔◌, false, None, IsErr, IsSome, IsTrue, IsErrAnd, IsErrOf, IfErr};
ghost use Rattle.std.specs.Prelude.{IfOk, OnErr, OnOk};
ghost use Rattle.slotted_slots.specs.Error.{IsShortage};
ghost use Rattle.slotted_proofs.specs.Equations.{to_applied};
ghost use Rattle.slotted_patterns.specs.Known.{HasKnownNames};
ghost use Rattle.slotted_patterns.specs.View.{tree_of};
ghost use Rattle.slotted_graph.specs.Extension.{ExtendsTo};
ghost use Rattle.slotted_graph.specs.States.{IsGraph};
ghost use Rattle.slotted_graph.specs.ValidIds.{IsValidId};
ghost use Rattle.slotted_rule_patterns.specs.PatternCode.{pattern_in};
ghost use Rattle.slotted_rule_patterns.specs.Values.{values_of};
ghost use Rattle.slotted_rule_patterns.specs.Variables.{first_missing};
ghost use Rattle.slotted_rules.specs.Building.{Grows};
ghost use Rattle.slotted_rules.specs.Carried.{CarriesIf};
ghost use Rattle.slotted_rules.specs.Instances.{AreValidValues, HasValues, Instantiates, IsAnswerFor};
ghost use Rattle.slotted_rules.specs.Methods.{AsksMethod, IsKnownMethod};
ghost use Rattle.slotted_rules.specs.Refusals.{IsFailedOrShort, IsMissing, PassesTests, RefusesInstance};
ghost use Rattle.slotted_rules.specs.Refusals.{RefusesMissing, RefusesTerm};

use crate::building::build;
use crate::failing::fail_if_short;
use crate::method::OwnSubst;
use crate::refusals::check_values;
use slotted_data::Analysis;
use slotted_graph::EGraph;
use slotted_languages::Language;
use slotted_patterns::Pattern;
use slotted_rule_patterns::Subst;
use slotted_rule_patterns::pattern::is_whole;
use slotted_slots::{AppliedId, Error};
use std::alloc::Global;

// Builds the instance of a whole pattern, if each variable has a value.
fn instance_by<L: Language, N: Analysis<L>, M: OwnSubst<L, N>>(
    alloc: Global,
    graph: &mut EGraph<L, N>,
    pattern: &Pattern<L>,
    subst: &Subst,
    method: &mut M,
) -> Result<AppliedId, Error>
    requires graph { IsGraph graph.old }
    requires known { HasKnownNames graph.old.table (tree_of L.form pattern.now) }
    requires values { AreValidValues graph.old (values_of subst.now) }
    requires whole { IsSome (pattern_in (tree_of L.form pattern.now)) }
    ensures ok { IfOk result (λ a. Instantiates M.method graph.old graph.new (values_of subst.now)
        (tree_of L.form pattern.now) (to_applied a)) }
    ensures given { OnOk result (HasValues (values_of subst.now) (tree_of L.form pattern.now)) }
    ensures asks { OnOk result (AsksMethod M.substitutes method.old graph.old method.new graph.new) }
    ensures err { OnErr result (IsTrue graph.new.failed ⊎ Grows graph.old graph.new) }
    ensures missing { IsSome (first_missing (tree_of L.form pattern.now) (values_of subst.now))
        → RefusesMissing (values_of subst.now) (tree_of L.form pattern.now) result × (graph.new ≡ graph.old) }
    ensures carries { IsTrue graph.new.failed
        ⊎ CarriesIf (IsKnownMethod M.method) N.codes N.meaning graph.old graph.new }
    ensures fails { IsTrue graph.new.failed → IsErrAnd result IsShortage }
    ensures only { IfErr result (λ e. IsShortage e
        ⊎ (IsMissing (values_of subst.now) (tree_of L.form pattern.now) e ⊎ M.refuses e)) }
{
    check_values(alloc, pattern, subst)?;
    build(alloc, graph, method, pattern, subst)
}

/// Returns the id of an instance of the pattern, as `pattern_subst` does, but by the caller's method for each `b[x :=
/// t]`. Nothing else asserts or modifies anything.
pub fn subst_with<L: Language, N: Analysis<L>, M: OwnSubst<L, N>>(
    alloc: Global,
    graph: &mut EGraph<L, N>,
    pattern: &Pattern<L>,
    subst: &Subst,
    method: &mut M,
) -> Result<AppliedId, Error>
    requires known { IsTrue graph.old.failed ⊎ HasKnownNames graph.old.table (tree_of L.form pattern.now) }
    requires values { IsTrue graph.old.failed ⊎ AreValidValues graph.old (values_of subst.now) }
    ensures valid { IfOk result (λ a. IsValidId graph.new (to_applied a)) }
    ensures instance { IfOk result (λ a. IsKnownMethod M.method
        → IsAnswerFor M.method graph.old graph.new (values_of subst.now) (tree_of L.form pattern.now) (to_applied a)) }
    ensures extends { IsTrue graph.new.failed ⊎ ExtendsTo graph.old graph.new }

    // All that is asserted, the method asserts when it is asked.
    ensures asks { OnOk result (AsksMethod M.substitutes method.old graph.old method.new graph.new) }

    // Data is only lowered. If the method is known, new classes, and those whose data has changed, wait to be modified.
    ensures carries { IsTrue graph.new.failed
        ⊎ CarriesIf (IsKnownMethod M.method) N.codes N.meaning graph.old graph.new }

    // The pattern is tested before anything is added, and before the method is asked.
    ensures tested { OnOk result (PassesTests (values_of subst.now) (tree_of L.form pattern.now)) }
    ensures whole { graph.old.failed ≡ false → pattern_in (tree_of L.form pattern.now) ≡ None
        → IsErrOf result Error.NotATerm × (graph.new ≡ graph.old) }
    ensures missing { graph.old.failed ≡ false → IsSome (pattern_in (tree_of L.form pattern.now))
        → IsSome (first_missing (tree_of L.form pattern.now) (values_of subst.now))
        → RefusesMissing (values_of subst.now) (tree_of L.form pattern.now) result
        × (IsTrue graph.new.failed ⊎ (graph.new ≡ graph.old)) }
    ensures not_a_term { IsErrOf result Error.NotATerm
        → RefusesTerm M.refuses (values_of subst.now) (tree_of L.form pattern.now) }

    ensures stays { IsTrue graph.old.failed → graph.new ≡ graph.old }
    ensures failed { IsErrOf result Error.Failed ↔ IsTrue graph.old.failed }
    ensures fails { IsTrue graph.new.failed ↔ IsErrAnd result IsFailedOrShort }
    ensures only { IfErr result (λ e. RefusesInstance (values_of subst.now) (tree_of L.form pattern.now) e ⊎ M.refuses e) }
{
    if graph.is_failed() {
        return Err(Error::Failed);
    }
    if !is_whole(pattern) {
        return Err(Error::NotATerm);
    }
    let answer = instance_by(alloc, graph, pattern, subst, method);
    fail_if_short(graph, answer)
}
