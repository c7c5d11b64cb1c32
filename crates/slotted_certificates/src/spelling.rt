//! The texts of terms and patterns, made of their parts.
ghost use Rattle.std.specs.Prelude.{◌≡◌, Some, map, slice_get, string_bytes, codes, IfOk, IfSome, IsTrue};
ghost use Rattle.slotted_certificates.specs.Texts.{Adds, AddsFirst, bare_text, bare_text_of, blank_before, words_of, are_of_word, is_of_word, is_word, spelled, text_of, token_text};

use crate::instances::{first_of, is_done};
use crate::tokens::Token;
use std::alloc::AllocError;

// Returns whether a byte may stand in a word.
fn is_of_word(byte: u8) -> bool
    ensures { result ≡ is_of_word byte }
{
    !(byte == b' '
        || byte == b'\t'
        || byte == b'\n'
        || byte == b'\r'
        || byte == b'('
        || byte == b')'
        || byte == b'['
        || byte == b']')
}

// Returns whether all bytes may stand in a word.
fn are_of_word(bytes: &[u8]) -> bool
    ensures { result ≡ are_of_word bytes.now }
{
    let mut rest = bytes;
    while !rest.is_empty() {
        if !is_of_word(rest[0]) {
            return false;
        }
        rest = &rest[1..];
    }
    true
}

/// Returns whether a text is a word: not empty, without blanks, tabs, line ends and brackets, and with no `$` or `?` in
/// front.
pub fn is_word(text: &str) -> bool
    ensures { result ≡ is_word text.now }
{
    let bytes = text.as_bytes();
    if bytes.is_empty() {
        return false;
    }
    bytes[0] != b'$' && bytes[0] != b'?' && are_of_word(bytes)
}

// Returns the word of a number.
fn word_at<'a>(words: &'a [String], number: usize) -> Option<&'a str>
    ensures { IfSome result (λ t. slice_get (map string_bytes words.now) number ≡ Some t.now) }
{
    if number < words.len() {
        return Some(words[number].as_str());
    }
    None
}

// Appends a text, and the word of a number behind it. Returns false if there is no such word.
pub(crate) fn push_word(
    out: &mut String,
    before: &str,
    words: &[String],
    number: usize,
) -> Result<bool, AllocError>
    ensures { IfOk result (λ b. IsTrue b → Adds (spelled before.now (slice_get (map string_bytes words.now) number))
        (string_bytes out.old) (string_bytes out.new)) }
{
    match word_at(words, number) {
        Some(word) => {
            if !is_word(word) {
                return Ok(false);
            }
            out.push_str(before)?;
            out.push_str(word)?;
            Ok(true)
        }
        None => Ok(false),
    }
}

/// The words by which the parts of a text are spelled.
#[derive(Clone, Copy)]
pub struct Spelling<'a> {
    /// The words of operators.
    pub operators: &'a [String],
    /// The words of slots, without `$`.
    pub slots: &'a [String],
    /// The texts of values.
    pub values: &'a [String],
}

// Appends the text of a value. Returns false if it has none.
pub(crate) fn push_value_text(
    out: &mut String,
    values: &[String],
    number: usize,
) -> Result<bool, AllocError>
    ensures { IfOk result (λ b. IsTrue b → Adds (slice_get (map string_bytes values.now) number)
        (string_bytes out.old) (string_bytes out.new)) }
{
    match word_at(values, number) {
        Some(text) => {
            out.push_str(text)?;
            Ok(true)
        }
        None => Ok(false),
    }
}

// Appends a closing bracket.
fn push_close(out: &mut String) -> Result<bool, AllocError>
    ensures { IfOk result (λ b. IsTrue b → Adds (Some (codes ")")) (string_bytes out.old) (string_bytes out.new)) }
{
    out.push_str(")")?;
    Ok(true)
}

// Appends the text of a part, without a blank in front. Returns false if it has none.
fn push_bare(out: &mut String, words: &Spelling, token: Token) -> Result<bool, AllocError>
    ensures { IfOk result (λ b. IsTrue b → Adds (bare_text (words_of words.now) token)
        (string_bytes out.old) (string_bytes out.new)) }
{
    match token {
        Token::Leaf(operator) => push_word(out, "", words.operators, operator),
        Token::Bracket(operator) => push_word(out, "(", words.operators, operator),
        Token::Close => push_close(out),
        Token::Slot(slot) => push_word(out, "$", words.slots, slot),
        Token::Value(number) => push_value_text(out, words.values, number),
    }
}

// Returns the blank in front of a part, if there is one.
fn blank_before(token: Token) -> &'static str
    ensures { result.now ≡ blank_before token }
{
    match token {
        Token::Close => "",
        _ => " ",
    }
}

// Appends the text of a part. Returns false if it has none.
fn push_token(out: &mut String, words: &Spelling, token: Token) -> Result<bool, AllocError>
    ensures { IfOk result (λ b. IsTrue b → Adds (token_text (words_of words.now) token)
        (string_bytes out.old) (string_bytes out.new)) }
{
    out.push_str(blank_before(token))?;
    push_bare(out, words, token)
}

// Appends the text of the first part, and returns what stands behind the part.
fn push_first<'b>(
    out: &mut String,
    words: &Spelling,
    tokens: &'b [Token],
) -> Result<Option<&'b [Token]>, AllocError>
    ensures added { IfOk result (λ o. IfSome o (λ rest. AddsFirst (words_of words.now) tokens.now rest.now
        (string_bytes out.old) (string_bytes out.new))) }
{
    if tokens.is_empty() || !push_token(out, words, tokens[0])? {
        return Ok(None);
    }
    Ok(Some(&tokens[1..]))
}

/// Appends the text of parts, with a blank in front of each but a closing bracket. Returns false if a word is lacking.
pub fn push_text(out: &mut String, words: &Spelling, tokens: &[Token]) -> Result<bool, AllocError>
    ensures { IfOk result (λ b. IsTrue b → Adds (text_of (words_of words.now) tokens.now)
        (string_bytes out.old) (string_bytes out.new)) }
{
    let mut rest = tokens;
    while !is_done(rest) {
        match push_first(out, words, rest)? {
            Some(behind) => rest = behind,
            None => return Ok(false),
        }
    }
    Ok(true)
}

/// Appends the text of parts, without a blank in front of the first one. Returns false if there are none, or a word is
/// lacking.
pub(crate) fn push_bare_text(
    out: &mut String,
    words: &Spelling,
    tokens: &[Token],
) -> Result<bool, AllocError>
    ensures { IfOk result (λ b. IsTrue b → Adds (bare_text_of (words_of words.now) tokens.now)
        (string_bytes out.old) (string_bytes out.new)) }
{
    match first_of(tokens) {
        Some((token, behind)) => {
            if !push_bare(out, words, token)? {
                return Ok(false);
            }
            push_text(out, words, behind)
        }
        None => Ok(false),
    }
}
