//! Building instances of patterns, from the bottom, e-node by e-node.
ghost use Rattle.std.specs.Prelude.{◌≡◌, ◌≤◌, ◌⊎◌, All, length, map, IsErrAnd, IsSome, IsTrue, IfOk, IfErr, OnErr};
ghost use Rattle.std.specs.Prelude.{OnOk};
ghost use Rattle.slotted_slots.specs.Error.{IsShortage};
ghost use Rattle.slotted_proofs.specs.Equations.{to_applied};
ghost use Rattle.slotted_patterns.specs.Known.{HasKnownNames};
ghost use Rattle.slotted_patterns.specs.Subpatterns.{parts, subpatterns};
ghost use Rattle.slotted_patterns.specs.View.{tree_of};
ghost use Rattle.slotted_graph.specs.States.{IsGraph};
ghost use Rattle.slotted_graph.specs.ValidIds.{IsValidId};
ghost use Rattle.slotted_rule_patterns.specs.PatternCode.{pattern_in};
ghost use Rattle.slotted_rule_patterns.specs.Values.{values_of};
ghost use Rattle.slotted_rules.specs.Building.{Grows};
ghost use Rattle.slotted_rules.specs.Carried.{CarriesIf};
ghost use Rattle.slotted_rules.specs.Instances.{AreValidValues, HasValues, Instantiates};
ghost use Rattle.slotted_rules.specs.Methods.{AsksMethod, IsKnownMethod};
ghost use Rattle.slotted_rules.specs.Putting.{PutsIn};
ghost use Rattle.slotted_rules.specs.Stacked.{BuildsOver, IsReady, PutsLast};

use crate::adding::add_node;
use crate::listed::Listed;
use crate::method::OwnSubst;
use crate::over::over_last;
use slotted_data::Analysis;
use slotted_graph::EGraph;
use slotted_languages::Language;
use slotted_patterns::Pattern;
use slotted_rule_patterns::Subst;
use slotted_rule_patterns::inside::subpatterns;
use slotted_rule_patterns::subst::value;
use slotted_slots::{AppliedId, Error};
use std::alloc::Global;

// Returns what the method answers for `b[x := t]`. Each id gets fresh slots for the names that it omits.
fn put_in<L: Language, N: Analysis<L>, M: OwnSubst<L, N>>(
    alloc: Global,
    graph: &mut EGraph<L, N>,
    method: &mut M,
    b: &AppliedId,
    x: &AppliedId,
    t: &AppliedId,
) -> Result<AppliedId, Error>
    requires graph { IsGraph graph.old }
    requires body { IsValidId graph.old (to_applied b.now) }
    requires part { IsValidId graph.old (to_applied x.now) }
    requires value { IsValidId graph.old (to_applied t.now) }
    ensures ok { IfOk result
        (λ a. PutsIn M.method graph.old graph.new (to_applied b.now) (to_applied x.now) (to_applied t.now) (to_applied a)) }
    ensures asks { OnOk result (AsksMethod M.substitutes method.old graph.old method.new graph.new) }
    ensures err { OnErr result (IsTrue graph.new.failed ⊎ Grows graph.old graph.new) }
    ensures carries { IsTrue graph.new.failed
        ⊎ CarriesIf (IsKnownMethod M.method) N.codes N.meaning graph.old graph.new }
    ensures fails { IsTrue graph.new.failed → IsErrAnd result IsShortage }
    ensures only { IfErr result (λ e. IsShortage e ⊎ M.refuses e) }
{
    let b = graph.full_id(b)?;
    let x = graph.full_id(x)?;
    let t = graph.full_id(t)?;
    method.subst(alloc, b, x, t, graph)
}

// Returns what the method answers for the last three ids of the list, which are taken from it.
fn put_last<L: Language, N: Analysis<L>, M: OwnSubst<L, N>>(
    alloc: Global,
    graph: &mut EGraph<L, N>,
    method: &mut M,
    ids: &mut Vec<AppliedId>,
) -> Result<AppliedId, Error>
    requires graph { IsGraph graph.old }
    requires enough { 3 ≤ length ids.old.items }
    requires valid { All (IsValidId graph.old) (map to_applied ids.old.items) }
    ensures ok { IfOk result (λ a. PutsLast M.method graph.old graph.new
        (map to_applied ids.old.items) (map to_applied ids.new.items) (to_applied a)) }
    ensures asks { OnOk result (AsksMethod M.substitutes method.old graph.old method.new graph.new) }
    ensures err { OnErr result (IsTrue graph.new.failed ⊎ Grows graph.old graph.new) }
    ensures carries { IsTrue graph.new.failed
        ⊎ CarriesIf (IsKnownMethod M.method) N.codes N.meaning graph.old graph.new }
    ensures fails { IsTrue graph.new.failed → IsErrAnd result IsShortage }
    ensures only { IfErr result (λ e. IsShortage e ⊎ M.refuses e) }
{
    match (ids.pop(), ids.pop(), ids.pop()) {
        (Some(value), Some(part), Some(body)) => put_in(alloc, graph, method, &body, &part, &value),
        _ => unreachable!(),
    }
}

// Returns the id of an instance of the pattern over those of its parts. These are the last ids of the list, and are
// taken from it.
fn build_over<L: Language, N: Analysis<L>, M: OwnSubst<L, N>>(
    alloc: Global,
    graph: &mut EGraph<L, N>,
    method: &mut M,
    pattern: &Pattern<L>,
    subst: &Subst,
    ids: &mut Vec<AppliedId>,
) -> Result<AppliedId, Error>
    requires graph { IsGraph graph.old }
    requires ready { IsReady graph.old.table (values_of subst.now) (tree_of L.form pattern.now) }
    requires values { AreValidValues graph.old (values_of subst.now) }
    requires enough { length (parts (tree_of L.form pattern.now)) ≤ length ids.old.items }
    requires valid { All (IsValidId graph.old) (map to_applied ids.old.items) }
    ensures ok { IfOk result (λ a. BuildsOver M.method graph.old graph.new (values_of subst.now) (tree_of L.form pattern.now)
        (map to_applied ids.old.items) (map to_applied ids.new.items) (to_applied a)) }
    ensures asks { OnOk result (AsksMethod M.substitutes method.old graph.old method.new graph.new) }
    ensures err { OnErr result (IsTrue graph.new.failed ⊎ Grows graph.old graph.new) }
    ensures carries { IsTrue graph.new.failed
        ⊎ CarriesIf (IsKnownMethod M.method) N.codes N.meaning graph.old graph.new }
    ensures fails { IsTrue graph.new.failed → IsErrAnd result IsShortage }
    ensures only { IfErr result (λ e. IsShortage e ⊎ M.refuses e) }
{
    match pattern {
        Pattern::ENode(node, _) => {
            let node = node.copy(alloc)?;
            let over = over_last(node, ids);
            add_node(graph, over)
        }
        Pattern::PVar(name) => match value(subst, name.as_str()) {
            Some(id) => id.copy(alloc),
            None => unreachable!(),
        },
        Pattern::Subst(_, _, _) => put_last(alloc, graph, method, ids),
    }
}

/// Returns the id of an instance of the pattern, as `build` does, from the list of the patterns in it.
pub(crate) fn build_listed<L: Language, N: Analysis<L>, M: OwnSubst<L, N>>(
    alloc: Global,
    graph: &mut EGraph<L, N>,
    method: &mut M,
    listed: &Listed<L>,
    subst: &Subst,
) -> Result<AppliedId, Error>
    requires graph { IsGraph graph.old }
    requires listed { map (λ p. tree_of L.form p.now) listed.now.inside.now
        ≡ subpatterns (tree_of L.form listed.now.pattern.now) }
    requires known { HasKnownNames graph.old.table (tree_of L.form listed.now.pattern.now) }
    requires values { AreValidValues graph.old (values_of subst.now) }
    requires whole { IsSome (pattern_in (tree_of L.form listed.now.pattern.now)) }
    requires given { HasValues (values_of subst.now) (tree_of L.form listed.now.pattern.now) }
    ensures ok { IfOk result (λ a. Instantiates M.method graph.old graph.new (values_of subst.now)
        (tree_of L.form listed.now.pattern.now) (to_applied a)) }
    ensures asks { OnOk result (AsksMethod M.substitutes method.old graph.old method.new graph.new) }
    ensures err { OnErr result (IsTrue graph.new.failed ⊎ Grows graph.old graph.new) }
    ensures carries { IsTrue graph.new.failed
        ⊎ CarriesIf (IsKnownMethod M.method) N.codes N.meaning graph.old graph.new }
    ensures fails { IsTrue graph.new.failed → IsErrAnd result IsShortage }
    ensures only { IfErr result (λ e. IsShortage e ⊎ M.refuses e) }
{
    let inside = listed.inside;
    let mut ids = Vec::new(alloc);
    let mut left = inside.len();
    while left > 0 {
        left -= 1;
        let id = build_over(alloc, graph, method, inside[left], subst, &mut ids)?;
        if left == 0 {
            return Ok(id);
        }
        ids.push(id)?;
    }
    unreachable!()
}

/// Returns the id of an instance of the pattern. A variable gives its value, an e-node its class over the answers for
/// the child patterns, and `b[x := t]` what the method answers.
pub(crate) fn build<L: Language, N: Analysis<L>, M: OwnSubst<L, N>>(
    alloc: Global,
    graph: &mut EGraph<L, N>,
    method: &mut M,
    pattern: &Pattern<L>,
    subst: &Subst,
) -> Result<AppliedId, Error>
    requires graph { IsGraph graph.old }
    requires known { HasKnownNames graph.old.table (tree_of L.form pattern.now) }
    requires values { AreValidValues graph.old (values_of subst.now) }
    requires whole { IsSome (pattern_in (tree_of L.form pattern.now)) }
    requires given { HasValues (values_of subst.now) (tree_of L.form pattern.now) }
    ensures ok { IfOk result (λ a. Instantiates M.method graph.old graph.new (values_of subst.now)
        (tree_of L.form pattern.now) (to_applied a)) }
    ensures asks { OnOk result (AsksMethod M.substitutes method.old graph.old method.new graph.new) }
    ensures err { OnErr result (IsTrue graph.new.failed ⊎ Grows graph.old graph.new) }
    ensures carries { IsTrue graph.new.failed
        ⊎ CarriesIf (IsKnownMethod M.method) N.codes N.meaning graph.old graph.new }
    ensures fails { IsTrue graph.new.failed → IsErrAnd result IsShortage }
    ensures only { IfErr result (λ e. IsShortage e ⊎ M.refuses e) }
{
    let inside = subpatterns(alloc, pattern)?;
    let listed = Listed {
        pattern,
        inside: &inside,
    };
    build_listed(alloc, graph, method, &listed, subst)
}
