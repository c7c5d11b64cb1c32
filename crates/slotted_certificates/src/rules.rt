//! Rules of a certificate, and their instances.
ghost use Rattle.std.specs.Prelude.{◌≡◌, ◌++◌, ◌+◌, ◌<◌, ◌∷◌, ℕ, suc, Bool, true, false, List, [], map, slice_get, string_bytes, codes, length, if◌then◌else◌, IfOk, IfSome, IsTrue};
ghost use Rattle.slotted_check.specs.Rows.{down};
ghost use Rattle.slotted_certificates.specs.Free.{free_in_row};
ghost use Rattle.slotted_certificates.specs.Given.{AreDifferent, IsSidesText};
ghost use Rattle.slotted_certificates.specs.Meaning.{AreTermRows};
ghost use Rattle.slotted_certificates.specs.Puts.{AreTexts, AreValues};
ghost use Rattle.slotted_certificates.specs.Rules.{AddsCondition, AreWords, InstanceRows, IsRuleOf, before_condition, EachHolds, Holds, IsRuleText, condition_text, conditions_text, occurrence_text, rule_sign, variable_texts};
ghost use Rattle.slotted_certificates.specs.Texts.{Adds, words, words_of};

use crate::given::{are_different, differ, sides, sides_text};
use crate::instances::{are_terms, is_done, value_at};
use crate::puts::{Put, add_texts, add_values, copied};
use crate::spelling::{Spelling, is_word, push_text, push_value_text, push_word};
use crate::tokens::Token;
use slotted_check::pieces::Piece;
use slotted_check::steps::Equation;
use std::alloc::{AllocError, Global};

/// That a slot is free in the value of a variable, or is not.
#[derive(Clone, Copy)]
pub struct Condition {
    /// The number of the slot.
    pub slot: usize,
    /// The number of the variable.
    pub variable: usize,
    /// Whether the slot has to be free there.
    pub is_free: bool,
}

// Returns whether a piece is a name, and else what the name is numbered as behind the piece. There is none if the number
// is too large.
fn meets(piece: Piece, name: usize) -> Option<(bool, usize)>
    ensures { IfSome result (λ m. (rest : List Piece)
        → free_in_row name (piece ∷ rest) ≡ (if m.0 then true else free_in_row m.1 rest)) }
{
    match piece {
        Piece::Name(other) => Some((other == name, name)),
        Piece::Scope => match name.checked_add(1) {
            Some(next) => Some((false, next)),
            None => None,
        },
        Piece::Leave => Some((false, name.saturating_sub(1))),
        Piece::Head(_) => Some((false, name)),
        Piece::Close => Some((false, name)),
    }
}

// Looks for a name at the front of a row. Returns whether it is there, and else what it is behind the first piece, and
// what stands there.
fn look<'a>(row: &'a [Piece], name: usize) -> Option<(bool, usize, &'a [Piece])>
    ensures found { IfSome result (λ m. free_in_row name row.now ≡ (if m.0 then true else free_in_row m.1 m.2.now)) }
    ensures shorter { IfSome result (λ m. length m.2.now < length row.now) }
{
    if row.is_empty() {
        return None;
    }
    match meets(row[0], name) {
        Some((is_found, next)) => Some((is_found, next, &row[1..])),
        None => None,
    }
}

// Returns whether a name is free in the term of a row. There is no answer if a number is too large.
fn is_free(term: &[Piece], name: usize) -> Option<bool>
    ensures { IfSome result (λ b. b ≡ free_in_row name term.now) }
{
    let mut name = name;
    let mut rest = term;
    while !rest.is_empty() {
        match look(rest, name) {
            Some((is_found, next, behind)) => {
                if is_found {
                    return Some(true);
                }
                name = next;
                rest = behind;
            }
            None => return None,
        }
    }
    Some(false)
}

// Returns whether two answers are one.
fn agree(one: bool, two: bool) -> bool
    ensures { IsTrue result → one ≡ two }
{
    one == two
}

// Returns whether values, which are terms, meet a condition.
fn is_met(condition: &Condition, values: &[Vec<Piece>]) -> bool
    requires { AreTermRows (map (λ r. r.items) values.now) }
    ensures { IsTrue result → Holds (map (λ r. r.items) values.now) condition.now }
{
    match value_at(values, condition.variable) {
        Some(value) => match is_free(value, condition.slot) {
            Some(found) => agree(found, condition.is_free),
            None => false,
        },
        None => false,
    }
}

// Returns the conditions behind the first one, if values, which are terms, meet that.
fn behind_met<'a>(conditions: &'a [Condition], values: &[Vec<Piece>]) -> Option<&'a [Condition]>
    requires { AreTermRows (map (λ r. r.items) values.now) }
    ensures met { IfSome result (λ rest. EachHolds (map (λ r. r.items) values.now) rest.now
        → EachHolds (map (λ r. r.items) values.now) conditions.now) }
    ensures shorter { IfSome result (λ rest. length rest.now < length conditions.now) }
{
    if conditions.is_empty() || !is_met(&conditions[0], values) {
        return None;
    }
    Some(&conditions[1..])
}

// Returns whether values, which are terms, meet all conditions.
fn are_met(conditions: &[Condition], values: &[Vec<Piece>]) -> bool
    requires { AreTermRows (map (λ r. r.items) values.now) }
    ensures { IsTrue result → EachHolds (map (λ r. r.items) values.now) conditions.now }
{
    let mut rest = conditions;
    while !rest.is_empty() {
        match behind_met(rest, values) {
            Some(behind) => rest = behind,
            None => return false,
        }
    }
    true
}

// Returns the text of a variable.
fn variable_text(alloc: Global, variable: &str) -> Result<String, AllocError>
    ensures { IfOk result (λ s. string_bytes s ≡ codes "?" ++ variable.now) }
{
    let mut text = String::from_str(alloc, "?")?;
    text.push_str(variable)?;
    Ok(text)
}

// Appends the text of the first variable, if that is a word. Returns the variables behind it.
fn push_variable<'a>(
    alloc: Global,
    texts: &mut Vec<String>,
    variables: &'a [String],
) -> Result<Option<&'a [String]>, AllocError>
    ensures texts { IfOk result (λ o. IfSome o (λ rest. map string_bytes texts.new.items
        ++ variable_texts (map string_bytes rest.now)
        ≡ map string_bytes texts.old.items ++ variable_texts (map string_bytes variables.now))) }
    ensures words { IfOk result (λ o. IfSome o (λ rest. AreWords (map string_bytes rest.now)
        → AreWords (map string_bytes variables.now))) }
    ensures shorter { IfOk result (λ o. IfSome o (λ rest. length rest.now < length variables.now)) }
{
    if variables.is_empty() || !is_word(variables[0].as_str()) {
        return Ok(None);
    }
    texts.push(variable_text(alloc, variables[0].as_str())?)?;
    Ok(Some(&variables[1..]))
}

// Returns the texts of variables, if all are words.
fn texts_of_variables(
    alloc: Global,
    variables: &[String],
) -> Result<Option<Vec<String>>, AllocError>
    ensures texts { IfOk result (λ o. IfSome o
        (λ v. map string_bytes v.items ≡ variable_texts (map string_bytes variables.now))) }
    ensures words { IfOk result (λ o. IfSome o (λ v. AreWords (map string_bytes variables.now))) }
{
    let mut texts = Vec::new(alloc);
    let mut rest = variables;
    while !rest.is_empty() {
        match push_variable(alloc, &mut texts, rest)? {
            Some(behind) => rest = behind,
            None => return Ok(None),
        }
    }
    Ok(Some(texts))
}

// Appends the text of a condition. Returns false if a word is lacking.
fn push_condition(
    out: &mut String,
    words: &Spelling,
    condition: &Condition,
) -> Result<bool, AllocError>
    ensures { IfOk result (λ b. IsTrue b → Adds (condition_text (words_of words.now) condition.now)
        (string_bytes out.old) (string_bytes out.new)) }
{
    if !push_word(out, " $", words.slots, condition.slot)? {
        return Ok(false);
    }
    out.push_str(if condition.is_free {
        " in "
    } else {
        " not in "
    })?;
    push_value_text(out, words.values, condition.variable)
}

// Returns what stands in front of a condition.
fn word_before(is_first: bool) -> &'static str
    ensures { result.now ≡ before_condition is_first }
{
    if is_first { " if" } else { " and" }
}

// Appends the text of the first condition that is left. Returns the conditions behind it.
fn push_first_condition<'b>(
    out: &mut String,
    words: &Spelling,
    is_first: bool,
    conditions: &'b [Condition],
) -> Result<Option<&'b [Condition]>, AllocError>
    ensures added { IfOk result (λ o. IfSome o (λ rest. AddsCondition (words_of words.now) (before_condition is_first)
        conditions.now rest.now (string_bytes out.old) (string_bytes out.new))) }
    ensures shorter { IfOk result (λ o. IfSome o (λ rest. length rest.now < length conditions.now)) }
{
    if conditions.is_empty() {
        return Ok(None);
    }
    out.push_str(word_before(is_first))?;
    if !push_condition(out, words, &conditions[0])? {
        return Ok(None);
    }
    Ok(Some(&conditions[1..]))
}

// Appends the text of conditions, with ` if` in front of the first one and ` and` in front of the others.
fn push_conditions(
    out: &mut String,
    words: &Spelling,
    conditions: &[Condition],
) -> Result<bool, AllocError>
    ensures { IfOk result (λ b. IsTrue b → Adds (conditions_text (words_of words.now) true conditions.now)
        (string_bytes out.old) (string_bytes out.new)) }
{
    let mut is_first = true;
    let mut rest = conditions;
    while !is_done(rest) {
        match push_first_condition(out, words, is_first, rest)? {
            Some(behind) => rest = behind,
            None => return Ok(false),
        }
        is_first = false;
    }
    Ok(true)
}

/// A rule, by the parts of its line.
#[derive(Drop)]
pub struct Rule {
    /// The name of the rule.
    pub name: String,
    /// Whether the rule goes both ways.
    pub goes_back: bool,
    /// The words of the slots and of the variables of the line.
    pub slots: Vec<String>,
    pub variables: Vec<String>,
    /// The sides.
    pub left: Vec<Token>,
    pub right: Vec<Token>,
    /// The substitutions in the sides, each of which is numbered behind the variables and those before it.
    pub puts: Vec<Put>,
    /// The conditions, all of which have to hold.
    pub conditions: Vec<Condition>,
}

// Returns what a rule begins with.
fn rule_opening(alloc: Global, name: &str) -> Result<String, AllocError>
    ensures { IfOk result (λ s. string_bytes s ≡ codes "rule " ++ (name.now ++ codes ":")) }
{
    let mut text = String::from_str(alloc, "rule ")?;
    text.push_str(name)?;
    text.push_str(":")?;
    Ok(text)
}

// Returns the sign between the sides of a rule.
fn sign_of(goes_back: bool) -> &'static str
    ensures { result.now ≡ rule_sign goes_back }
{
    if goes_back { " <=>" } else { " =>" }
}

// Returns the text of a rule, but for its conditions.
fn rule_sides_text(
    alloc: Global,
    words: &Spelling,
    rule: &Rule,
) -> Result<Option<String>, AllocError>
    ensures { IfOk result (λ o. IfSome o (λ s. IsSidesText (words_of words.now)
        (codes "rule " ++ (string_bytes rule.now.name ++ codes ":")) rule.now.left.items
        (rule_sign rule.now.goes_back) rule.now.right.items (string_bytes s))) }
{
    let opening = rule_opening(alloc, rule.name.as_str())?;
    let sign = sign_of(rule.goes_back);
    sides_text(
        alloc,
        words,
        opening.as_str(),
        &rule.left,
        sign,
        &rule.right,
    )
}

// Returns whether a line is the text of a rule.
fn is_rule_text(
    alloc: Global,
    words: &Spelling,
    line: &str,
    rule: &Rule,
) -> Result<bool, AllocError>
    ensures { IfOk result (λ b. IsTrue b → IsRuleText (words_of words.now) (string_bytes rule.now.name)
        rule.now.goes_back rule.now.left.items rule.now.right.items rule.now.conditions.items line.now) }
{
    match rule_sides_text(alloc, words, rule)? {
        Some(text) => {
            let mut text = text;
            if !push_conditions(&mut text, words, &rule.conditions)? {
                return Ok(false);
            }
            Ok(!differ(text.as_str(), line))
        }
        None => Ok(false),
    }
}

// Returns the texts of the variables and of the substitutions of a rule.
fn texts_of_values(
    alloc: Global,
    operators: &[String],
    rule: &Rule,
) -> Result<Option<Vec<String>>, AllocError>
    ensures texts { IfOk result (λ o. IfSome o (λ v. AreTexts (map string_bytes operators.now)
        (map string_bytes rule.now.slots.items) (variable_texts (map string_bytes rule.now.variables.items))
        rule.now.puts.items (map string_bytes v.items))) }
    ensures words { IfOk result (λ o. IfSome o (λ v. AreWords (map string_bytes rule.now.variables.items))) }
{
    match texts_of_variables(alloc, &rule.variables)? {
        Some(texts) => {
            let mut texts = texts;
            if !add_texts(alloc, operators, &rule.slots, &mut texts, &rule.puts)? {
                return Ok(None);
            }
            Ok(Some(texts))
        }
        None => Ok(None),
    }
}

// Returns whether a line is the text of a rule, and no two of its slots or variables have one word.
fn is_rule_of(
    alloc: Global,
    operators: &[String],
    line: &str,
    rule: &Rule,
) -> Result<bool, AllocError>
    ensures { IfOk result (λ b. IsTrue b → IsRuleOf (map string_bytes operators.now)
        (map string_bytes rule.now.slots.items) (map string_bytes rule.now.variables.items) rule.now.puts.items
        (string_bytes rule.now.name) rule.now.goes_back rule.now.left.items rule.now.right.items
        rule.now.conditions.items line.now) }
{
    if !are_different(&rule.slots) || !are_different(&rule.variables) {
        return Ok(false);
    }
    match texts_of_values(alloc, operators, rule)? {
        Some(texts) => {
            let words = Spelling {
                operators,
                slots: &rule.slots,
                values: &texts,
            };
            is_rule_text(alloc, &words, line, rule)
        }
        None => Ok(false),
    }
}

// Returns values of variables, and behind them those of a rule's substitutions.
fn all_values(
    alloc: Global,
    binders: &[usize],
    rule: &Rule,
    values: &[Vec<Piece>],
) -> Result<Option<Vec<Vec<Piece>>>, AllocError>
    ensures { IfOk result (λ o. IfSome o (λ all. AreValues binders.now (map (λ v. v.items) values.now)
        rule.now.puts.items (map (λ v. v.items) all.items))) }
{
    let mut all = copied(alloc, values)?;
    if !add_values(alloc, binders, &mut all, &rule.puts)? {
        return Ok(None);
    }
    Ok(Some(all))
}

// Returns whether there is a value for each variable of a rule.
fn has_as_many(rule: &Rule, values: &[Vec<Piece>]) -> bool
    ensures { IsTrue result → length (map (λ v. v.items) values.now)
        ≡ length (map string_bytes rule.now.variables.items) }
{
    values.len() == rule.variables.len()
}

// Returns whether there is a value for each variable of a rule, all of them are terms, and meet its conditions.
fn are_values_of(alloc: Global, rule: &Rule, values: &[Vec<Piece>]) -> Result<bool, AllocError>
    ensures many { IfOk result (λ b. IsTrue b → length (map (λ v. v.items) values.now)
        ≡ length (map string_bytes rule.now.variables.items)) }
    ensures hold { IfOk result (λ b. IsTrue b → EachHolds (map (λ v. v.items) values.now) rule.now.conditions.items) }
{
    if !has_as_many(rule, values) || !are_terms(alloc, values)? {
        return Ok(false);
    }
    Ok(are_met(&rule.conditions, values))
}

/// Returns the equation between the instances of a rule's sides, with values in the places of its variables. There is
/// none if the line is not the text of the rule, two words are one, a condition does not hold, an instance or a value is
/// no term, or a number is too large.
pub fn rule_instance(
    alloc: Global,
    operators: &[String],
    binders: &[usize],
    line: &str,
    rule: &Rule,
    values: &[Vec<Piece>],
) -> Result<Option<Equation>, AllocError>
    ensures { IfOk result (λ o. IfSome o
        (λ e. InstanceRows (map string_bytes operators.now) binders.now line.now rule.now.goes_back e)) }
{
    if !is_rule_of(alloc, operators, line, rule)? || !are_values_of(alloc, rule, values)? {
        return Ok(None);
    }
    match all_values(alloc, binders, rule, values)? {
        Some(all) => sides(alloc, binders, &rule.left, &rule.right, &all),
        None => Ok(None),
    }
}
