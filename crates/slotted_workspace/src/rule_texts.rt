//! Rules that are read from one text, with conditions, and in both directions.
ghost use Rattle.std.specs.Prelude.{◌≡◌, ◌⊎◌, All, map, IfOk, IfErr, IsTrue};
ghost use Rattle.slotted_slots.specs.Error.{IsOutOfMemory};
ghost use Rattle.slotted_operations.specs.Graph.{OnlyReads};
ghost use Rattle.slotted_graph.specs.Extension.{ExtendsTo};
ghost use Rattle.slotted_rule_texts.specs.Told.{told_condition, told_rule};
ghost use Rattle.slotted_rules.specs.Written.{CanBeSearched};
ghost use Rattle.slotted_workspace.specs.RuleTexts.{AsksAll, ConditionalRefused, ConditionRefused, IsBothOf, ReadsCondition};
ghost use Rattle.slotted_workspace.specs.RuleTexts.{ReadsConditional, ReadsRules, ReadsText, RulesRefused, TextRefused, name_back};
ghost use Rattle.slotted_workspace.specs.Spaces.{rule_of};

use crate::error::WorkspaceError;
use crate::reading::read_rule;
use crate::sparing::{RuleCondition, kept_rule};
use slotted_explain::EGraph;
use slotted_languages::Language;
use slotted_rule_texts::{RuleText, SlotCondition};
use slotted_rules::{CondTree, Rewrite, slot_free_in};
use slotted_slots::Error;
use std::alloc::Global;

// Returns the condition that one of a rule's text asks for.
fn condition_for<L: Language>(
    alloc: Global,
    graph: &mut EGraph<L>,
    asked: &SlotCondition,
) -> Result<CondTree, Error>
    ensures ok { IfOk result (ReadsCondition graph.old graph.new (told_condition asked.now)) }
    ensures reads { OnlyReads graph.old graph.new }
    ensures stays { IsTrue graph.old.failed → graph.new ≡ graph.old }
    ensures err { IfErr result (ConditionRefused graph.old graph.new) }
{
    let slot = graph.named_slot(asked.slot)?;
    let lacks = CondTree::SlotFreeIn(slot_free_in(alloc, slot, asked.variable)?);
    if !asked.occurs {
        return Ok(lacks);
    }
    Ok(CondTree::Not(Box::new(alloc, lacks)?))
}

// Returns the condition that two conditions hold.
fn both_of(alloc: Global, first: CondTree, second: CondTree) -> Result<CondTree, Error>
    ensures ok { IfOk result (IsBothOf first second) }
    ensures err { IfErr result IsOutOfMemory }
{
    let first = Box::new(alloc, first)?;
    let second = Box::new(alloc, second)?;
    Ok(CondTree::And(first, second))
}

// Returns the condition that all of the conditions of a rule's text hold.
fn conditions_for<L: Language>(
    alloc: Global,
    graph: &mut EGraph<L>,
    asked: &[SlotCondition],
) -> Result<CondTree, Error>
    ensures ok { IfOk result (λ x. AsksAll graph.old.table x (map told_condition asked.now) graph.new.table) }
    ensures reads { OnlyReads graph.old graph.new }
    ensures stays { IsTrue graph.old.failed → graph.new ≡ graph.old }
    ensures err { IfErr result (ConditionRefused graph.old graph.new) }
{
    let mut all = CondTree::Always;
    for condition in asked {
        let next = condition_for(alloc, graph, condition)?;
        all = both_of(alloc, all, next)?;
    }
    Ok(all)
}

// Returns the rule of two texts and conditions.
fn read_conditional<L: Language>(
    alloc: Global,
    graph: &mut EGraph<L>,
    name: &str,
    left: &str,
    right: &str,
    asked: &[SlotCondition],
) -> Result<Rewrite<L, CondTree>, Error>
    ensures ok { IfOk result (ReadsConditional L.form L.read graph.old graph.new
        name.now left.now right.now (map told_condition asked.now)) }
    ensures searched { IfOk result (CanBeSearched L.form graph.new.table) }
    ensures err { IfErr result (ConditionalRefused L.form L.read graph.old graph.new
        left.now right.now (map told_condition asked.now)) }
    ensures extends { IsTrue graph.new.failed ⊎ ExtendsTo graph.old graph.new }
    ensures stays { IsTrue graph.old.failed → graph.new ≡ graph.old }
{
    let condition = conditions_for(alloc, graph, asked)?;
    read_rule(alloc, graph, name, left, right, condition)
}

// Returns the rule of a text that goes from right to left.
fn read_back<L: Language>(
    alloc: Global,
    graph: &mut EGraph<L>,
    asked: &RuleText,
) -> Result<Rewrite<L, CondTree>, Error>
    ensures ok { IfOk result (ReadsConditional L.form L.read graph.old graph.new (name_back asked.now.name.now)
        asked.now.right.now asked.now.left.now (map told_condition asked.now.conditions.items)) }
    ensures searched { IfOk result (CanBeSearched L.form graph.new.table) }
    ensures err { IfErr result (λ e. ConditionalRefused L.form L.read graph.old graph.new asked.now.right.now
        asked.now.left.now (map told_condition asked.now.conditions.items) e
        ⊎ ((graph.new ≡ graph.old) × (e ≡ Error.OutOfMemory))) }
    ensures extends { IsTrue graph.new.failed ⊎ ExtendsTo graph.old graph.new }
    ensures stays { IsTrue graph.old.failed → graph.new ≡ graph.old }
{
    let mut name = String::from_str(alloc, asked.name)?;
    name.push('<')?;
    read_conditional(
        alloc,
        graph,
        name.as_str(),
        asked.right,
        asked.left,
        &asked.conditions,
    )
}

// Returns the rules that a rule's text asks for, as a workspace keeps them.
fn read_rules<L: Language>(
    alloc: Global,
    graph: &mut EGraph<L>,
    asked: &RuleText,
    is_sparing: bool,
) -> Result<Vec<Rewrite<L, RuleCondition<L>>>, Error>
    ensures ok { IfOk result (λ v. ReadsRules L.form L.read is_sparing graph.old graph.new
        (told_rule asked.now) (map (rule_of L.form) v.items)) }
    ensures searched { IfOk result (λ v. All (CanBeSearched L.form graph.new.table) v.items) }
    ensures err { IfErr result (RulesRefused L.form L.read graph.old graph.new (told_rule asked.now)) }
    ensures extends { IsTrue graph.new.failed ⊎ ExtendsTo graph.old graph.new }
    ensures stays { IsTrue graph.old.failed → graph.new ≡ graph.old }
{
    let first = read_conditional(
        alloc,
        graph,
        asked.name,
        asked.left,
        asked.right,
        &asked.conditions,
    )?;
    let mut rules = Vec::new(alloc);
    rules.push(kept_rule(alloc, first, is_sparing)?)?;
    if !asked.both {
        return Ok(rules);
    }
    let back = read_back(alloc, graph, asked)?;
    rules.push(kept_rule(alloc, back, is_sparing)?)?;
    Ok(rules)
}

/// Returns the rules that a text asks for, as a workspace keeps them: one, or two if it goes both ways.
pub(crate) fn rules_of_text<L: Language>(
    alloc: Global,
    graph: &mut EGraph<L>,
    text: &str,
    is_sparing: bool,
) -> Result<Vec<Rewrite<L, RuleCondition<L>>>, WorkspaceError>
    ensures ok { IfOk result (λ v. ReadsText L.form L.read is_sparing graph.old graph.new
        text.now (map (rule_of L.form) v.items)) }
    ensures searched { IfOk result (λ v. All (CanBeSearched L.form graph.new.table) v.items) }
    ensures err { IfErr result (TextRefused L.form L.read graph.old graph.new text.now) }
    ensures extends { IsTrue graph.new.failed ⊎ ExtendsTo graph.old graph.new }
    ensures stays { IsTrue graph.old.failed → graph.new ≡ graph.old }
{
    match RuleText::read(alloc, text) {
        Ok(asked) => Ok(read_rules(alloc, graph, &asked, is_sparing)?),
        Err(error) => Err(WorkspaceError::RuleText(error)),
    }
}
