//! The rules of a session.
use crate::binders::{lost_binder, occurrences};
use crate::shell::{RuleLine, Shell};
use crate::trouble::Trouble;
use slotted_patterns::Pattern;
use slotted_rule_texts::{RuleText, SlotCondition};
use slotted_slots::{Error, Show, Slot};
use slotted_symbols::SymbolLang;
use std::alloc::Global;

// Returns what is told of a variable that may hold a slot which nothing binds behind the arrow.
fn told_lost(
    shell: &Shell,
    left: &Pattern<SymbolLang>,
    right: &Pattern<SymbolLang>,
    conditions: &[SlotCondition],
    slots: &[Slot],
) -> Result<Option<String>, Error> {
    let alloc = shell.alloc;
    let around = occurrences(alloc, left)?;
    let behind = occurrences(alloc, right)?;
    let lost = lost_binder(&around, &behind, conditions, slots);
    match lost {
        Some((i, slot)) => {
            let variable = around.get(i).map_or("", |o| o.variable);
            let slot = slot.show(shell.workspace.graph().table());
            Ok(Some(format!(in alloc;
                "?{variable} may have {slot}, which is not bound behind the arrow; ` if {slot} not in ?{variable}` excludes that"
            )?))
        }
        None => Ok(None),
    }
}

// Returns the lines of a rule, which a session shows. A rule that goes both ways has two.
fn lines_of(alloc: Global, asked: &RuleText, text: &str) -> Result<Vec<RuleLine>, Error> {
    let mut lines = Vec::new(alloc);
    lines.push(RuleLine {
        name: String::from_str(alloc, asked.name)?,
        text: String::from_str(alloc, text)?,
        found: 0,
        united: 0,
    })?;
    if asked.both {
        let name = asked.name;
        lines.push(RuleLine {
            name: format!(in alloc; "{name}<")?,
            text: String::new(alloc),
            found: 0,
            united: 0,
        })?;
    }
    Ok(lines)
}

// Returns the slots of the conditions of a rule, in order, if a side has what they ask for.
fn slots_on(
    shell: &mut Shell,
    side: &str,
    pattern: &Pattern<SymbolLang>,
    conditions: &[SlotCondition],
) -> Result<Vec<Slot>, Trouble> {
    let mut slots = Vec::new(shell.alloc);
    for condition in conditions {
        slots.push(shell.slot_of(side, pattern, condition)?)?;
    }
    Ok(slots)
}

// Tests one direction of a rule. Returns a warning, or `None`.
fn test_way(
    shell: &mut Shell,
    side: &str,
    left: &Pattern<SymbolLang>,
    right: &Pattern<SymbolLang>,
    conditions: &[SlotCondition],
) -> Result<Option<String>, Trouble> {
    let slots = slots_on(shell, side, left, conditions)?;
    match told_lost(shell, left, right, conditions, &slots) {
        Ok(warning) => Ok(warning),
        Err(error) => Err(Trouble::of_text(shell.alloc, &error, side)),
    }
}

// Tests both sides of a rule, and its conditions. Returns a warning, or `None`.
fn tested(shell: &mut Shell, asked: &RuleText) -> Result<Option<String>, Trouble> {
    let left = shell.checked(asked.left)?;
    let right = shell.checked(asked.right)?;
    let warning = test_way(shell, "left", &left, &right, &asked.conditions)?;
    if !asked.both {
        return Ok(warning);
    }
    let back = test_way(shell, "right", &right, &left, &asked.conditions)?;
    Ok(warning.or(back))
}

/// Keeps the rule of a text. Returns `ok`, and a warning if a variable may take a slot out of its scope.
pub fn keep_rule(shell: &mut Shell, text: &str) -> Result<String, Trouble> {
    let alloc = shell.alloc;
    let asked = match RuleText::read(alloc, text) {
        Ok(asked) => asked,
        Err(error) => return Err(Trouble::of_rule(alloc, &error)),
    };
    let warning = tested(shell, &asked)?;
    let lines = match lines_of(alloc, &asked, text) {
        Ok(lines) => lines,
        Err(error) => return Err(Trouble::of_text(alloc, &error, text)),
    };
    shell.rules.reserve(2)?;
    if let Err(error) = shell.workspace.rule_text(text) {
        return Err(Trouble::of_call(alloc, &error, text));
    }
    for line in lines {
        shell.rules.push(line)?;
    }
    match warning {
        Some(warning) => Ok(format!(in alloc; "ok, but {warning}")?),
        None => Ok(String::from_str(alloc, "ok")?),
    }
}
