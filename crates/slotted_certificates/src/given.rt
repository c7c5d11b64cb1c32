//! Equations that lines of a certificate give.
ghost use Rattle.std.specs.Prelude.{◌≡◌, ◌≢◌, ◌<◌, ◌++◌, length, ℕ, List, [], Contains, false, map, option_map, string_bytes, IfOk, IfSome, IsTrue};
ghost use Rattle.slotted_certificates.specs.Given.{AreDifferent, AssertsRows, IsSidesText, assertion_opening, assertion_sign};
ghost use Rattle.slotted_certificates.specs.Meaning.{IsInstance};
ghost use Rattle.slotted_certificates.specs.Texts.{words, words_of};

use crate::instances::instance;
use crate::spelling::{Spelling, push_text};
use crate::tokens::Token;
use slotted_check::pieces::Piece;
use slotted_check::steps::Equation;
use std::alloc::{AllocError, Global};

// Returns whether two texts differ.
pub(crate) fn differ(one: &str, two: &str) -> bool
    ensures yes { IsTrue result → one.now ≢ two.now }
    ensures no { result ≡ false → one.now ≡ two.now }
{
    one != two
}

// Returns the words behind the first one, if that is not this word.
fn behind_other<'a>(words: &'a [String], word: &str) -> Option<&'a [String]>
    ensures other { IfSome result (λ rest. ¬ Contains (map string_bytes rest.now) word.now
        → ¬ Contains (map string_bytes words.now) word.now) }
    ensures shorter { IfSome result (λ rest. length rest.now < length words.now) }
{
    if words.is_empty() || !differ(words[0].as_str(), word) {
        return None;
    }
    Some(&words[1..])
}

// Returns whether a word is none of some words.
fn is_new(words: &[String], word: &str) -> bool
    ensures { IsTrue result → ¬ Contains (map string_bytes words.now) word.now }
{
    let mut rest = words;
    while !rest.is_empty() {
        match behind_other(rest, word) {
            Some(behind) => rest = behind,
            None => return false,
        }
    }
    true
}

// Returns the words behind the first one, if that is none of them.
fn behind_new<'a>(words: &'a [String]) -> Option<&'a [String]>
    ensures { IfSome result (λ rest. AreDifferent (map string_bytes rest.now) → AreDifferent (map string_bytes words.now)) }
{
    if words.is_empty() || !is_new(&words[1..], words[0].as_str()) {
        return None;
    }
    Some(&words[1..])
}

// Returns whether no two words are one.
pub(crate) fn are_different(words: &[String]) -> bool
    ensures { IsTrue result → AreDifferent (map string_bytes words.now) }
{
    let mut rest = words;
    for _ in 0..words.len() {
        match behind_new(rest) {
            Some(behind) => rest = behind,
            None => return false,
        }
    }
    rest.is_empty()
}

// Returns a text, two sides and a sign between them as one text. There is none if a word is lacking.
pub(crate) fn sides_text(
    alloc: Global,
    words: &Spelling,
    opening: &str,
    left: &[Token],
    sign: &str,
    right: &[Token],
) -> Result<Option<String>, AllocError>
    ensures { IfOk result (λ o. IfSome o (λ s. IsSidesText (words_of words.now) opening.now left.now sign.now right.now (string_bytes s))) }
{
    let mut text = String::from_str(alloc, opening)?;
    if !push_text(&mut text, words, left)? {
        return Ok(None);
    }
    text.push_str(sign)?;
    if !push_text(&mut text, words, right)? {
        return Ok(None);
    }
    Ok(Some(text))
}

// Returns the equation of two sides, with values in the places of variables, if both are terms.
pub(crate) fn sides(
    alloc: Global,
    binders: &[usize],
    left: &[Token],
    right: &[Token],
    values: &[Vec<Piece>],
) -> Result<Option<Equation>, AllocError>
    ensures left { IfOk result (λ o. IfSome o
        (λ e. IsInstance binders.now (map (λ r. r.items) values.now) left.now e.left.items)) }
    ensures right { IfOk result (λ o. IfSome o
        (λ e. IsInstance binders.now (map (λ r. r.items) values.now) right.now e.right.items)) }
{
    let Some(left) = instance(alloc, binders, left, values)? else {
        return Ok(None);
    };
    match instance(alloc, binders, right, values)? {
        Some(right) => Ok(Some(Equation { left, right })),
        None => Ok(None),
    }
}

// Returns what an assertion begins with.
fn opening(alloc: Global, name: &Option<String>) -> Result<String, AllocError>
    ensures { IfOk result (λ s. string_bytes s ≡ assertion_opening (option_map string_bytes name.now)) }
{
    match name {
        Some(name) => {
            let mut text = String::from_str(alloc, "assert ")?;
            text.push_str(name)?;
            text.push_str(":")?;
            Ok(text)
        }
        None => String::from_str(alloc, "union"),
    }
}

// Returns the sign between the sides of an assertion.
fn sign(name: &Option<String>) -> &'static str
    ensures { result.now ≡ assertion_sign (option_map string_bytes name.now) }
{
    match name {
        Some(_) => " =",
        None => " ==",
    }
}

/// An assertion, by the parts of its line.
#[derive(Drop)]
pub struct Assertion {
    /// The name of the assertion, if it has one.
    pub name: Option<String>,
    /// The words of the slots of the line.
    pub slots: Vec<String>,
    /// The sides.
    pub left: Vec<Token>,
    pub right: Vec<Token>,
}

// Returns whether a line is made of these parts.
pub(crate) fn is_sides_text(
    alloc: Global,
    words: &Spelling,
    opening: &str,
    left: &[Token],
    sign: &str,
    right: &[Token],
    line: &str,
) -> Result<bool, AllocError>
    ensures { IfOk result (λ b. IsTrue b
        → IsSidesText (words_of words.now) opening.now left.now sign.now right.now line.now) }
{
    match sides_text(alloc, words, opening, left, sign, right)? {
        Some(text) => Ok(!differ(text.as_str(), line)),
        None => Ok(false),
    }
}

// Returns whether a line is the text of an assertion.
fn is_text_of(
    alloc: Global,
    operators: &[String],
    line: &str,
    assertion: &Assertion,
) -> Result<bool, AllocError>
    ensures { IfOk result (λ b. IsTrue b → IsSidesText
        (words (map string_bytes operators.now) (map string_bytes assertion.now.slots.items) [])
        (assertion_opening (option_map string_bytes assertion.now.name)) assertion.now.left.items
        (assertion_sign (option_map string_bytes assertion.now.name)) assertion.now.right.items line.now) }
{
    let opening = opening(alloc, &assertion.name)?;
    let sign = sign(&assertion.name);
    let words = Spelling {
        operators,
        slots: &assertion.slots,
        values: &[],
    };
    is_sides_text(
        alloc,
        &words,
        opening.as_str(),
        &assertion.left,
        sign,
        &assertion.right,
        line,
    )
}

/// Returns the equation that a line asserts. There is none if the line is not the text of the assertion, two slots have
/// one word, a side is no term, or a number is too large.
pub fn asserted(
    alloc: Global,
    operators: &[String],
    binders: &[usize],
    line: &str,
    assertion: &Assertion,
) -> Result<Option<Equation>, AllocError>
    ensures { IfOk result (λ o. IfSome o
        (λ e. AssertsRows (map string_bytes operators.now) binders.now line.now e)) }
{
    if !are_different(&assertion.slots) || !is_text_of(alloc, operators, line, assertion)? {
        return Ok(None);
    }
    sides(alloc, binders, &assertion.left, &assertion.right, &[])
}
