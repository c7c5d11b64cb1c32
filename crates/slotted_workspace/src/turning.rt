//! Turns of the rules of a workspace, one at a time.
ghost use Rattle.std.specs.Prelude.{◌≡◌, ◌⊎◌, All, IfOk, IfErr, IsTrue};
ghost use Rattle.slotted_graph.specs.Extension.{ExtendsTo};
ghost use Rattle.slotted_rules.specs.Written.{CanBeSearched};
ghost use Rattle.slotted_workspace.specs.Turns.{TakesTurn, TurnRefused};

use crate::sparing::RuleCondition;
use slotted_explain::EGraph;
use slotted_languages::Language;
use slotted_rules::{Rewrite, TurnCounts, apply_counted};
use slotted_slots::Error;
use std::alloc::Global;

/// Applies rules once, and returns what each of them found and united.
pub(crate) fn take_turn<L: Language>(
    alloc: Global,
    graph: &mut EGraph<L>,
    rules: &[Rewrite<L, RuleCondition<L>>],
) -> Result<TurnCounts, Error>
    requires { IsTrue graph.old.failed ⊎ All (CanBeSearched L.form graph.old.table) rules.now }
    ensures ok { IfOk result (TakesTurn L.form rules.now graph.old graph.new) }
    ensures err { IfErr result (TurnRefused L.form rules.now graph.old graph.new) }
    ensures extends { IsTrue graph.new.failed ⊎ ExtendsTo graph.old graph.new }
    ensures stays { IsTrue graph.old.failed → graph.new ≡ graph.old }
{
    apply_counted(alloc, graph, rules)
}
