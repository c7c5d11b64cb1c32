//! Adding one more e-node to a graph.
ghost use Rattle.std.specs.Prelude.{All, ◌⊎◌, IsTrue, IfOk, IfErr, OnOk, OnErr};
ghost use Rattle.slotted_slots.specs.Error.{IsShortage};
ghost use Rattle.slotted_slots.specs.Table.{AllKnown};
ghost use Rattle.slotted_proofs.specs.Equations.{to_applied};
ghost use Rattle.slotted_graph.specs.Adding.{AddsSyn};
ghost use Rattle.slotted_graph.specs.Graph.{IsFullId};
ghost use Rattle.slotted_graph.specs.Nodes.{child_ids};
ghost use Rattle.slotted_graph.specs.States.{IsGraph};
ghost use Rattle.slotted_graph.specs.ValidIds.{IsValidId};
ghost use Rattle.slotted_rules.specs.Building.{Builds};
ghost use Rattle.slotted_rules.specs.Carried.{CarriesAlong};

use slotted_data::Analysis;
use slotted_graph::EGraph;
use slotted_languages::Language;
use slotted_languages::shape::PLACES;
use slotted_slots::{AppliedId, Error};

/// Adds an e-node as a syntactic e-node, and returns its full id. An e-node of 2^30 places or more is refused.
pub(crate) fn add_node<L: Language, N: Analysis<L>>(
    graph: &mut EGraph<L, N>,
    node: L,
) -> Result<AppliedId, Error>
    requires graph { IsGraph graph.old }
    requires known { AllKnown graph.old.table (L.form node).names }
    requires children { All (IsValidId graph.old) (child_ids (L.form node)) }
    ensures full { IfOk result (λ a. IsFullId graph.new (to_applied a)) }
    ensures syn { IfOk result (λ a. AddsSyn graph.old graph.new (L.form node) (to_applied a)) }
    ensures builds { OnOk result (Builds graph.old graph.new) }
    ensures err { OnErr result (IsTrue graph.new.failed ⊎ Builds graph.old graph.new) }
    ensures carries { IsTrue graph.new.failed ⊎ CarriesAlong N.codes N.meaning graph.old graph.new }
    ensures only { IfErr result IsShortage }
{
    if node.slot_count() >= PLACES {
        return Err(Error::OutOfSlots);
    }
    let answer = graph.add_syn_quietly(&node)?;
    Ok(answer)
}
