//! Substitution over ids, for callers of a graph.
ghost use Rattle.std.specs.Prelude.{◌≡◌, ◌⊎◌, ◌↔◌, IsTrue, IsErr, IsErrOf, IfErr, IfOk, OnOk};
ghost use Rattle.slotted_slots.specs.Error.{IsShortage};
ghost use Rattle.slotted_proofs.specs.Equations.{to_applied};
ghost use Rattle.slotted_graph.specs.Extension.{ExtendsTo};
ghost use Rattle.slotted_graph.specs.Graph.{IsFullId};
ghost use Rattle.slotted_rules.specs.Building.{AssertsNothing};
ghost use Rattle.slotted_rules.specs.Carried.{CarriesAlong};
ghost use Rattle.slotted_rules.specs.Substituting.{StandsForReplaced};

use crate::failing::fail_if_short;
use crate::substitution::replaced;
use slotted_data::Analysis;
use slotted_graph::EGraph;
use slotted_languages::Language;
use slotted_slots::{AppliedId, Error};
use std::alloc::Global;

/// Returns the id of `b[x := t]`, for three full ids. Its canonical term is that of `b`, in which the canonical term of
/// `t` replaces each topmost part that is alpha-equal to the canonical term of `x`.
///
/// Nothing is captured, and what is put in is not searched again. No class is modified: new classes wait for
/// `EGraph::modify`.
pub fn subst_ids<L: Language, N: Analysis<L>>(
    alloc: Global,
    graph: &mut EGraph<L, N>,
    b: &AppliedId,
    x: &AppliedId,
    t: &AppliedId,
) -> Result<AppliedId, Error>
    requires body { IsTrue graph.old.failed ⊎ IsFullId graph.old (to_applied b.now) }
    requires part { IsTrue graph.old.failed ⊎ IsFullId graph.old (to_applied x.now) }
    requires value { IsTrue graph.old.failed ⊎ IsFullId graph.old (to_applied t.now) }
    ensures full { IfOk result (λ a. IsFullId graph.new (to_applied a)) }
    ensures term { IfOk result (λ a. StandsForReplaced graph.new (to_applied x.now) (to_applied t.now)
        (to_applied b.now) (to_applied a)) }
    ensures extends { IsTrue graph.new.failed ⊎ ExtendsTo graph.old graph.new }
    ensures carries { IsTrue graph.new.failed ⊎ CarriesAlong N.codes N.meaning graph.old graph.new }
    ensures asserts { OnOk result (AssertsNothing graph.old graph.new) }
    ensures stays { IsTrue graph.old.failed → graph.new ≡ graph.old }
    ensures failed { IsErrOf result Error.Failed ↔ IsTrue graph.old.failed }
    ensures fails { IsTrue graph.new.failed ↔ IsErr result }
    ensures only { IfErr result (λ e. (e ≡ Error.Failed) ⊎ IsShortage e) }
{
    if graph.is_failed() {
        return Err(Error::Failed);
    }
    let answer = replaced(alloc, graph, b, x, t);
    fail_if_short(graph, answer)
}
