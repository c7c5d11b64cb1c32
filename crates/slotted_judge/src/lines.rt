//! The lines of a certificate that say something, by their parts.
use crate::reader::Reader;
use crate::reading::{Names, read_tokens, renumber, renumber_puts};
use crate::words::Words;
use slotted_certificates::claims::Claim;
use slotted_certificates::given::Assertion;
use slotted_certificates::instances::instance;
use slotted_certificates::rules::{Condition, Rule};
use slotted_certificates::tokens::Token;
use slotted_check::steps::Equation;
use std::alloc::{AllocError, Global};

// Returns the parts of the two terms that are next, with a sign between them.
fn read_sides(
    alloc: Global,
    reader: &mut Reader,
    operators: &mut Words,
    names: &mut Names,
    sign: &str,
) -> Result<Option<(Vec<Token>, Vec<Token>)>, AllocError> {
    let Some(left) = read_tokens(alloc, reader, operators, names)? else {
        return Ok(None);
    };
    reader.skip_spaces();
    if !reader.take(sign) {
        return Ok(None);
    }
    match read_tokens(alloc, reader, operators, names)? {
        Some(right) => Ok(Some((left, right))),
        None => Ok(None),
    }
}

/// Returns the equation that is next, with a sign between its sides, if there is one.
pub fn read_equation(
    alloc: Global,
    reader: &mut Reader,
    operators: &mut Words,
    binders: &[usize],
    sign: &str,
) -> Result<Option<Equation>, AllocError> {
    let mut names = Names::new(alloc);
    let Some((left, right)) = read_sides(alloc, reader, operators, &mut names, sign)? else {
        return Ok(None);
    };
    let Some(left) = instance(alloc, binders, &left, &[])? else {
        return Ok(None);
    };
    match instance(alloc, binders, &right, &[])? {
        Some(right) => Ok(Some(Equation { left, right })),
        None => Ok(None),
    }
}

/// Returns the assertion of a name and of the text of its sides.
pub fn read_assertion(
    alloc: Global,
    name: Option<&str>,
    sides: &str,
    operators: &mut Words,
) -> Result<Option<Assertion>, AllocError> {
    let mut reader = Reader::new(sides);
    let mut names = Names::new(alloc);
    let sign = if name.is_some() { "=" } else { "==" };
    let Some((left, right)) = read_sides(alloc, &mut reader, operators, &mut names, sign)? else {
        return Ok(None);
    };
    let name = match name {
        Some(name) => Some(String::from_str(alloc, name)?),
        None => None,
    };
    let slots = names.slots.texts;
    Ok(Some(Assertion {
        name,
        slots,
        left,
        right,
    }))
}

/// Returns the claim of a text of two sides.
pub fn read_claim(
    alloc: Global,
    asks: bool,
    sides: &str,
    operators: &mut Words,
) -> Result<Option<Claim>, AllocError> {
    let mut reader = Reader::new(sides);
    let mut names = Names::new(alloc);
    let sign = if asks { "=" } else { "==" };
    let Some((left, right)) = read_sides(alloc, &mut reader, operators, &mut names, sign)? else {
        return Ok(None);
    };
    let slots = names.slots.texts;
    Ok(Some(Claim {
        asks,
        slots,
        left,
        right,
    }))
}

// Returns the condition that is next.
fn read_condition(
    alloc: Global,
    reader: &mut Reader,
    names: &mut Names,
) -> Result<Option<Condition>, AllocError> {
    if !reader.take("$") {
        return Ok(None);
    }
    let slot = names.slots.number(alloc, reader.word())?;
    let is_free = !reader.take(" not");
    if !reader.take(" in ?") {
        return Ok(None);
    }
    let variable = names.variables.number(alloc, reader.word())?;
    Ok(Some(Condition {
        slot,
        variable,
        is_free,
    }))
}

// Returns the conditions behind a rule, if what is left is conditions or nothing.
fn read_conditions(
    alloc: Global,
    reader: &mut Reader,
    names: &mut Names,
) -> Result<Option<Vec<Condition>>, AllocError> {
    let mut conditions = Vec::new(alloc);
    let mut before = "if ";
    for _ in 0..usize::MAX {
        if reader.is_done() {
            return Ok(Some(conditions));
        }
        if !reader.take(before) {
            return Ok(None);
        }
        match read_condition(alloc, reader, names)? {
            Some(condition) => conditions.push(condition)?,
            None => return Ok(None),
        }
        before = "and ";
    }
    Ok(None)
}

// Returns the rule of a name, its sides, its conditions, and the names of its line.
fn made_rule(
    alloc: Global,
    name: &str,
    goes_back: bool,
    sides: (Vec<Token>, Vec<Token>),
    conditions: Vec<Condition>,
    names: Names,
) -> Result<Rule, AllocError> {
    let count = names.variables.texts.len();
    let left = renumber(alloc, &sides.0, count)?;
    let right = renumber(alloc, &sides.1, count)?;
    let puts = renumber_puts(alloc, &names.puts, count)?;
    let name = String::from_str(alloc, name)?;
    let Names {
        slots,
        variables,
        ..
    } = names;
    Ok(Rule {
        name,
        goes_back,
        slots: slots.into_texts(),
        variables: variables.into_texts(),
        left,
        right,
        puts,
        conditions,
    })
}

/// Returns the rule that a text behind `rule ` is.
pub fn read_rule(
    alloc: Global,
    text: &str,
    operators: &mut Words,
) -> Result<Option<Rule>, AllocError> {
    let Some((name, sides)) = text.split_once(": ") else {
        return Ok(None);
    };
    let mut reader = Reader::new(sides);
    let mut names = Names::new(alloc);
    let goes_back = sides.contains(" <=> ");
    let sign = if goes_back { "<=>" } else { "=>" };
    let Some(sides) = read_sides(alloc, &mut reader, operators, &mut names, sign)? else {
        return Ok(None);
    };
    match read_conditions(alloc, &mut reader, &mut names)? {
        Some(conditions) => Ok(Some(made_rule(alloc, name, goes_back, sides, conditions, names)?)),
        None => Ok(None),
    }
}
