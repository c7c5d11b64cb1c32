//! The reading of a rule's text.
ghost use Rattle.std.specs.Prelude.{◌≡◌, [], Some, None, Option, map, option_map, MatchOption, IfOk, IfErr};
ghost use Rattle.slotted_rule_texts.specs.Asked.{named_condition, condition_asked, conditions_asked, sides_asked, rule_by, conditional_or, named_asked, rule_asked};
ghost use Rattle.slotted_rule_texts.specs.Told.{told_condition, Tells, IsRefused, AreRefused};

use crate::name::is_name;
use crate::{RuleText, RuleTextError, SlotCondition};
use std::alloc::Global;

// Returns the condition of two names, if they are names.
fn named_condition<'a>(slot: &'a str, variable: &'a str, occurs: bool) -> Option<SlotCondition<'a>>
    ensures { option_map told_condition result ≡ named_condition slot.now variable.now occurs }
{
    if is_name(slot) && is_name(variable) {
        Some(SlotCondition {
            slot,
            variable,
            occurs,
        })
    } else {
        None
    }
}

// Returns the condition of a text behind its `$`.
fn read_condition(text: &str) -> Option<SlotCondition<'_>>
    ensures { option_map told_condition result ≡ condition_asked text.now }
{
    if let Some((slot, variable)) = text.split_once(" not in ?") {
        return named_condition(slot, variable, false);
    }
    match text.split_once(" in ?") {
        Some((slot, variable)) => named_condition(slot, variable, true),
        None => None,
    }
}

// Returns the conditions of a text behind its first `$`.
fn read_conditions(alloc: Global, text: &str) -> Result<Vec<SlotCondition<'_>>, RuleTextError>
    ensures ok { IfOk result (λ v. conditions_asked text.now ≡ Some (map told_condition v.items)) }
    ensures err { IfErr result (AreRefused (conditions_asked text.now)) }
{
    let mut conditions = Vec::new(alloc);
    for part in text.split(" and $") {
        match read_condition(part) {
            Some(condition) => conditions.push(condition)?,
            None => return Err(RuleTextError::NoCondition),
        }
    }
    Ok(conditions)
}

// Returns the rule of a name and a text of two sides.
fn read_sides<'a>(
    alloc: Global,
    name: &'a str,
    sides: &'a str,
) -> Result<RuleText<'a>, RuleTextError>
    ensures ok { IfOk result (Tells (rule_by name.now (sides_asked sides.now) (Some []))) }
    ensures err { IfErr result (λ e. (e ≡ RuleTextError.NoSign) × (sides_asked sides.now ≡ None)) }
{
    let conditions = Vec::new(alloc);
    if let Some((left, right)) = sides.split_once(" <=> ") {
        return Ok(RuleText {
            name,
            left,
            right,
            both: true,
            conditions,
        });
    }
    match sides.split_once(" => ") {
        Some((left, right)) => Ok(RuleText {
            name,
            left,
            right,
            both: false,
            conditions,
        }),
        None => Err(RuleTextError::NoSign),
    }
}

// Returns the rule of a name, a text of two sides, and a text of conditions behind its first `$`.
fn read_conditional<'a>(
    alloc: Global,
    name: &'a str,
    sides: &'a str,
    asked: &'a str,
) -> Result<RuleText<'a>, RuleTextError>
    ensures ok { IfOk result (Tells (rule_by name.now (sides_asked sides.now) (conditions_asked asked.now))) }
    ensures err { IfErr result (IsRefused (rule_by name.now (sides_asked sides.now) (conditions_asked asked.now))) }
{
    let mut rule = read_sides(alloc, name, sides)?;
    rule.conditions = read_conditions(alloc, asked)?;
    Ok(rule)
}

// Returns the rule of a name and the text behind it.
fn read_named<'a>(
    alloc: Global,
    name: &'a str,
    rest: &'a str,
) -> Result<RuleText<'a>, RuleTextError>
    ensures ok { IfOk result (Tells (named_asked name.now rest.now)) }
    ensures err { IfErr result (IsRefused (named_asked name.now rest.now)) }
{
    if name.is_empty() {
        return Err(RuleTextError::NoName);
    }
    match rest.split_once(" if $") {
        Some((sides, asked)) => read_conditional(alloc, name, sides, asked),
        None => read_sides(alloc, name, rest),
    }
}

impl<'a> RuleText<'a> {
    /// Returns the parts of a rule's text. The error names the first part from the left that is wrong.
    ///
    /// The name ends at the first `: `, and the conditions begin at the first ` if $`. Between the sides ` <=> ` is
    /// looked for first, and then ` => `. A sign has a space on both sides, so `(=> a b)` is a term. No white space is
    /// dropped.
    pub fn read(alloc: Global, text: &'a str) -> Result<RuleText<'a>, RuleTextError>
        ensures ok { IfOk result (Tells (rule_asked text.now)) }
        ensures err { IfErr result (IsRefused (rule_asked text.now)) }
    {
        match text.split_once(": ") {
            Some((name, rest)) => read_named(alloc, name, rest),
            None => Err(RuleTextError::NoName),
        }
    }
}
