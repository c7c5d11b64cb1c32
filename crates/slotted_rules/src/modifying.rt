//! Classes are modified once all rules were applied.
ghost use Rattle.std.specs.Prelude.{◌≡◌, ◌⊎◌, false, IsTrue, IsErrAnd, IfErr, OnOk};
ghost use Rattle.slotted_slots.specs.Error.{IsShortage};
ghost use Rattle.slotted_graph.specs.Analysed.{LowersData};
ghost use Rattle.slotted_graph.specs.Extension.{ExtendsTo};
ghost use Rattle.slotted_rules.specs.Applying.{AreModified};

use slotted_data::Analysis;
use slotted_graph::EGraph;
use slotted_languages::Language;
use slotted_slots::Error;

/// Modifies the classes that wait, as `EGraph::modify` does. The graph has not failed.
pub(crate) fn modify_classes<L: Language, N: Analysis<L>>(
    graph: &mut EGraph<L, N>,
) -> Result<(), Error>
    requires { graph.old.failed ≡ false }
    ensures modified { OnOk result (AreModified N.codes N.meaning N.may_ask N.modifies graph.old graph.new) }
    ensures extends { IsTrue graph.new.failed ⊎ ExtendsTo graph.old graph.new }
    ensures lowers { IsTrue graph.new.failed ⊎ LowersData N.codes N.meaning graph.old graph.new }
    ensures fails { IsTrue graph.new.failed → IsErrAnd result IsShortage }
    ensures err { IfErr result IsShortage }
{
    graph.modify()?;
    Ok(())
}
