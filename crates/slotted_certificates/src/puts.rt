//! Substitutions in the sides of rules.
ghost use Rattle.std.specs.Prelude.{◌≡◌, ◌<◌, ◌++◌, ◌∷◌, ℕ, List, [], None, length, map, string_bytes, IfOk, IfSome, IsTrue};
ghost use Rattle.slotted_theory.specs.Nameless.{DTerm};
ghost use Rattle.slotted_check.specs.declared.pieces.Piece.{Piece};
ghost use Rattle.slotted_check.specs.Rows.{row, IsPlain};
ghost use Rattle.slotted_certificates.specs.Meaning.{IsInstance};
ghost use Rattle.slotted_certificates.specs.Puts.{AddsText, AddsValue, AreTexts, AreValues, IsPut, body_and_part_text, put_text};
ghost use Rattle.slotted_certificates.specs.Texts.{Adds, words_of};

use crate::instances::{instance, is_done};
use crate::spelling::{Spelling, push_bare_text, push_text};
use crate::substitution::substituted;
use crate::tokens::Token;
use slotted_check::pieces::Piece;
use std::alloc::{AllocError, Global};

/// A substitution `body[part := value]`, for which a value stands in the parts of the text around it.
#[derive(Drop)]
pub struct Put {
    pub body: Vec<Token>,
    pub part: Vec<Token>,
    pub value: Vec<Token>,
}

// Appends the text of what a substitution is made in, and of what is replaced.
fn push_body_and_part(out: &mut String, words: &Spelling, put: &Put) -> Result<bool, AllocError>
    ensures { IfOk result (λ b. IsTrue b → Adds (body_and_part_text (words_of words.now) put.now)
        (string_bytes out.old) (string_bytes out.new)) }
{
    if !push_bare_text(out, words, &put.body)? {
        return Ok(false);
    }
    out.push_str("[")?;
    push_bare_text(out, words, &put.part)
}

// Appends the text of a substitution. Returns false if a word is lacking.
fn push_put(out: &mut String, words: &Spelling, put: &Put) -> Result<bool, AllocError>
    ensures { IfOk result (λ b. IsTrue b → Adds (put_text (words_of words.now) put.now)
        (string_bytes out.old) (string_bytes out.new)) }
{
    if !push_body_and_part(out, words, put)? {
        return Ok(false);
    }
    out.push_str(" :=")?;
    if !push_text(out, words, &put.value)? {
        return Ok(false);
    }
    out.push_str("]")?;
    Ok(true)
}

// Adds the text of a substitution to the texts of the values before it. Returns false if a word is lacking.
fn add_text(
    alloc: Global,
    operators: &[String],
    slots: &[String],
    texts: &mut Vec<String>,
    put: &Put,
) -> Result<bool, AllocError>
    ensures { IfOk result (λ b. IsTrue b → AddsText (map string_bytes operators.now) (map string_bytes slots.now)
        (map string_bytes texts.old.items) put.now (map string_bytes texts.new.items)) }
{
    let mut text = String::new(alloc);
    let words = Spelling {
        operators,
        slots,
        values: texts,
    };
    if !push_put(&mut text, &words, put)? {
        return Ok(false);
    }
    texts.push(text)?;
    Ok(true)
}

// Adds the text of the first substitution, and returns the others.
fn add_first_text<'a>(
    alloc: Global,
    operators: &[String],
    slots: &[String],
    texts: &mut Vec<String>,
    puts: &'a [Put],
) -> Result<Option<&'a [Put]>, AllocError>
    ensures added { IfOk result (λ o. IfSome o (λ rest. (all : List (List ℕ))
        → AreTexts (map string_bytes operators.now) (map string_bytes slots.now) (map string_bytes texts.new.items) rest.now all
        → AreTexts (map string_bytes operators.now) (map string_bytes slots.now) (map string_bytes texts.old.items) puts.now all)) }
    ensures shorter { IfOk result (λ o. IfSome o (λ rest. length rest.now < length puts.now)) }
{
    if puts.is_empty() || !add_text(alloc, operators, slots, texts, &puts[0])? {
        return Ok(None);
    }
    Ok(Some(&puts[1..]))
}

/// Adds the texts of substitutions to the texts of the values before them. Returns false if a word is lacking.
pub(crate) fn add_texts(
    alloc: Global,
    operators: &[String],
    slots: &[String],
    texts: &mut Vec<String>,
    puts: &[Put],
) -> Result<bool, AllocError>
    ensures { IfOk result (λ b. IsTrue b → AreTexts (map string_bytes operators.now) (map string_bytes slots.now)
        (map string_bytes texts.old.items) puts.now (map string_bytes texts.new.items)) }
{
    let mut rest = puts;
    while !is_done(rest) {
        match add_first_text(alloc, operators, slots, texts, rest)? {
            Some(behind) => rest = behind,
            None => return Ok(false),
        }
    }
    Ok(true)
}

// Returns the row of what a substitution is. There is none if a part is no term, or a number is too large.
fn put_row(
    alloc: Global,
    binders: &[usize],
    values: &[Vec<Piece>],
    put: &Put,
) -> Result<Option<Vec<Piece>>, AllocError>
    ensures { IfOk result (λ o. IfSome o
        (λ r. IsPut binders.now (map (λ v. v.items) values.now) put.now r.items)) }
{
    let Some(body) = instance(alloc, binders, &put.body, values)? else {
        return Ok(None);
    };
    let Some(part) = instance(alloc, binders, &put.part, values)? else {
        return Ok(None);
    };
    match instance(alloc, binders, &put.value, values)? {
        Some(value) => substituted(alloc, &body, &part, &value),
        None => Ok(None),
    }
}

// Adds the value of a substitution to the values before it. Returns false if there is none.
fn add_value(
    alloc: Global,
    binders: &[usize],
    values: &mut Vec<Vec<Piece>>,
    put: &Put,
) -> Result<bool, AllocError>
    ensures { IfOk result (λ b. IsTrue b → AddsValue binders.now (map (λ v. v.items) values.old.items) put.now
        (map (λ v. v.items) values.new.items)) }
{
    match put_row(alloc, binders, values, put)? {
        Some(row) => {
            values.push(row)?;
            Ok(true)
        }
        None => Ok(false),
    }
}

// Adds the value of the first substitution, and returns the others.
fn add_first_value<'a>(
    alloc: Global,
    binders: &[usize],
    values: &mut Vec<Vec<Piece>>,
    puts: &'a [Put],
) -> Result<Option<&'a [Put]>, AllocError>
    ensures added { IfOk result (λ o. IfSome o (λ rest. (all : List (List Piece))
        → AreValues binders.now (map (λ v. v.items) values.new.items) rest.now all
        → AreValues binders.now (map (λ v. v.items) values.old.items) puts.now all)) }
    ensures shorter { IfOk result (λ o. IfSome o (λ rest. length rest.now < length puts.now)) }
{
    if puts.is_empty() || !add_value(alloc, binders, values, &puts[0])? {
        return Ok(None);
    }
    Ok(Some(&puts[1..]))
}

/// Adds the values of substitutions to the values before them. Returns false if one is no term, or a number is too large.
pub(crate) fn add_values(
    alloc: Global,
    binders: &[usize],
    values: &mut Vec<Vec<Piece>>,
    puts: &[Put],
) -> Result<bool, AllocError>
    ensures { IfOk result (λ b. IsTrue b → AreValues binders.now (map (λ v. v.items) values.old.items) puts.now
        (map (λ v. v.items) values.new.items)) }
{
    let mut rest = puts;
    while !is_done(rest) {
        match add_first_value(alloc, binders, values, rest)? {
            Some(behind) => rest = behind,
            None => return Ok(false),
        }
    }
    Ok(true)
}

/// Returns a copy of rows.
pub(crate) fn copied(alloc: Global, rows: &[Vec<Piece>]) -> Result<Vec<Vec<Piece>>, AllocError>
    ensures { IfOk result (λ v. map (λ r. r.items) v.items ≡ map (λ r. r.items) rows.now) }
{
    let mut made = Vec::new(alloc);
    let mut rest = rows;
    while !is_done(rest) {
        match push_copy(alloc, &mut made, rest)? {
            Some(behind) => rest = behind,
            None => return Ok(made),
        }
    }
    Ok(made)
}

// Returns a copy of a row.
fn copy_of(alloc: Global, row: &[Piece]) -> Result<Vec<Piece>, AllocError>
    ensures { IfOk result (λ v. v.items ≡ row.now) }
{
    let mut copy = Vec::new(alloc);
    copy.extend_from_slice(row)?;
    Ok(copy)
}

// Appends a copy of the first row, and returns the rows behind it.
fn push_copy<'a>(
    alloc: Global,
    made: &mut Vec<Vec<Piece>>,
    rows: &'a [Vec<Piece>],
) -> Result<Option<&'a [Vec<Piece>]>, AllocError>
    ensures some { IfOk result (λ o. IfSome o (λ rest. map (λ r. r.items) made.new.items ++ map (λ r. r.items) rest.now
        ≡ map (λ r. r.items) made.old.items ++ map (λ r. r.items) rows.now)) }
    ensures none { IfOk result (λ o. (o ≡ None) → (rows.now ≡ []) × (made.new.items ≡ made.old.items)) }
    ensures shorter { IfOk result (λ o. IfSome o (λ rest. length rest.now < length rows.now)) }
{
    if rows.is_empty() {
        return Ok(None);
    }
    made.push(copy_of(alloc, &rows[0])?)?;
    Ok(Some(&rows[1..]))
}
