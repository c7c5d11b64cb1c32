//! Reading of texts: terms, which are added, and rules.
ghost use Rattle.std.specs.Prelude.{◌≡◌, ◌⊎◌, IfOk, IfErr, IsTrue};
ghost use Rattle.slotted_slots.specs.Table.{KnowsMore};
ghost use Rattle.slotted_graph.specs.Extension.{ExtendsTo};
ghost use Rattle.slotted_proofs.specs.Equations.{to_applied};
ghost use Rattle.slotted_rules.specs.Written.{CanBeSearched};
ghost use Rattle.slotted_terms.specs.Valid.{IsValidTerm};
ghost use Rattle.slotted_workspace.specs.Asked.{AddsKept, AddRefused, PatternRefused, ReadsKept, ReadsPattern, ReadsRule, RuleRefused};
ghost use Rattle.slotted_workspace.specs.Spaces.{rule_of};

use crate::kept::Kept;
use crate::sparing::{RuleCondition, kept_rule};
use slotted_explain::EGraph;
use slotted_languages::Language;
use slotted_patterns::Pattern;
use slotted_rules::{CondTree, Rewrite};
use slotted_slots::Error;
use std::alloc::Global;

/// Adds the term of a text by syntactic e-nodes, so that the id stands for just this term.
pub(crate) fn read_term<L: Language>(graph: &mut EGraph<L>, text: &str) -> Result<Kept<L>, Error>
    ensures ok { IfOk result (λ k. AddsKept L.read graph.old graph.new text.now k.term (to_applied k.id)) }
    ensures valid { IfOk result (λ k. IsValidTerm graph.new.table k.term) }
    ensures err { IfErr result (AddRefused L.read graph.old graph.new text.now) }
    ensures extends { IsTrue graph.new.failed ⊎ ExtendsTo graph.old graph.new }
    ensures stays { IsTrue graph.old.failed → graph.new ≡ graph.old }
{
    let term = graph.parse_expr(text)?;
    let id = graph.add_syn_expr(&term)?;
    Ok(Kept { id, term })
}

/// Returns the pattern of a text.
pub(crate) fn read_pattern<L: Language>(
    graph: &mut EGraph<L>,
    text: &str,
) -> Result<Pattern<L>, Error>
    ensures ok { IfOk result (ReadsPattern L.form L.read graph.old graph.new text.now) }
    ensures err { IfErr result (PatternRefused L.form L.read graph.old graph.new text.now) }
    ensures extends { IsTrue graph.new.failed ⊎ ExtendsTo graph.old graph.new }
    ensures stays { IsTrue graph.old.failed → graph.new ≡ graph.old }
{
    graph.parse_pattern(text)
}

/// Returns the rule of two texts. Both are read over the graph's table, the left one first.
pub(crate) fn read_rule<L: Language>(
    alloc: Global,
    graph: &mut EGraph<L>,
    name: &str,
    left: &str,
    right: &str,
    condition: CondTree,
) -> Result<Rewrite<L, CondTree>, Error>
    ensures ok { IfOk result
        (ReadsRule L.form L.read graph.old graph.new name.now left.now right.now condition) }
    ensures searched { IfOk result (CanBeSearched L.form graph.new.table) }
    ensures err { IfErr result (RuleRefused L.form L.read graph.old graph.new left.now right.now condition) }
    ensures extends { IsTrue graph.new.failed ⊎ ExtendsTo graph.old graph.new }
    ensures stays { IsTrue graph.old.failed → graph.new ≡ graph.old }
{
    let searched = graph.parse_pattern(left)?;
    let made = graph.parse_pattern(right)?;
    Rewrite::from_patterns(alloc, name, searched, made, condition)
}

/// Returns the rule of two texts as a workspace keeps it, which is sparing if that is asked for.
pub(crate) fn read_kept<L: Language>(
    alloc: Global,
    graph: &mut EGraph<L>,
    name: &str,
    left: &str,
    right: &str,
    condition: CondTree,
    is_sparing: bool,
) -> Result<Rewrite<L, RuleCondition<L>>, Error>
    ensures ok { IfOk result (λ r. ReadsKept L.form L.read is_sparing graph.old graph.new
        name.now left.now right.now condition (rule_of L.form r)) }
    ensures searched { IfOk result (CanBeSearched L.form graph.new.table) }
    ensures err { IfErr result (RuleRefused L.form L.read graph.old graph.new left.now right.now condition) }
    ensures extends { IsTrue graph.new.failed ⊎ ExtendsTo graph.old graph.new }
    ensures stays { IsTrue graph.old.failed → graph.new ≡ graph.old }
{
    let rule = read_rule(alloc, graph, name, left, right, condition)?;
    kept_rule(alloc, rule, is_sparing)
}
