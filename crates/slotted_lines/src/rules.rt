//! The rules of a session.
ghost use Rattle.std.specs.Prelude.{◌≡◌, IfOk, IfErr, IsErr, IsOk, IsTrue};
ghost use Rattle.slotted_slots.specs.Table.{KnowsMore};
ghost use Rattle.slotted_rules.specs.Written.{CanBeSearched};
ghost use Rattle.slotted_lines.specs.AnsweredIn.{IsRuleRead, IsRuleRefused, RuleAnswers};
ghost use Rattle.slotted_lines.specs.States.{AreSearchable, state_of};

use crate::session::Session;
use slotted_graph::EGraph;
use slotted_languages::Language;
use slotted_rules::{Always, Rewrite};
use slotted_slots::Error;
use std::alloc::Global;

// Returns the rule of three texts. Both sides are read over the graph's table, the left one first.
fn read_rule<L: Language>(
    alloc: Global,
    graph: &mut EGraph<L>,
    name: &str,
    left: &str,
    right: &str,
) -> Result<Rewrite<L, Always>, Error>
    ensures ok { IfOk result (IsRuleRead L.form L.read graph.old graph.new name.now left.now right.now) }
    ensures searched { IfOk result (CanBeSearched L.form graph.new.table) }
    ensures err { IfErr result (IsRuleRefused L.form L.read graph.old graph.new left.now right.now) }
    ensures more { KnowsMore graph.old.table graph.new.table }
    ensures failed { graph.new.failed ≡ graph.old.failed }
{
    let searched = graph.parse_pattern(left)?;
    let made = graph.parse_pattern(right)?;
    Rewrite::from_patterns(alloc, name, searched, made, Always)
}

// Keeps the rule of three texts.
pub(crate) fn add_rule<L: Language>(
    alloc: Global,
    session: &mut Session<L>,
    name: &str,
    left: &str,
    right: &str,
) -> Result<(), Error>
    requires { AreSearchable L.form (state_of session.old) }
    ensures answers { RuleAnswers L.form L.read (state_of session.old) (state_of session.new)
        name.now left.now right.now result }
    ensures valid { AreSearchable L.form (state_of session.new) }
{
    let rule = read_rule(alloc, &mut session.graph, name, left, right)?;
    session.rules.push(rule)?;
    Ok(())
}
