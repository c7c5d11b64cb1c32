//! The tokens of a text.
ghost use Rattle.std.specs.Prelude.{◌≡◌, ◌<◌, ◌≤◌, ℕ, ◌∷◌, [], false, true, drop, map, option_map, encode_utf8_all, string_bytes, IfOk, IfErr, IfSome, OnErr, MatchOption};
ghost use Rattle.std.specs.Str.{chars, IsUtf8};
ghost use Rattle.slotted_slots.specs.Error.{IsOutOfMemory};
ghost use Rattle.slotted_slots.specs.Syntax.{lexeme_of};
ghost use Rattle.slotted_patterns.specs.LentTokens.{BeginsWithChar, lexeme};
ghost use Rattle.slotted_slots.specs.Table.{Table, KnowsMore};
ghost use Rattle.slotted_patterns.specs.Outcome.{Refuses};
ghost use Rattle.slotted_patterns.specs.Tokens.{bracket_of, is_of_run, is_colon_equals, run, after_run, after_white_space, variable_token, slot_token, sign_or_word, next_token, nothing, token, refused, HasTokens, HasBadToken};

use slotted_slots::{Error, ParseError, SlotTable, Token};
use std::alloc::Global;

/// A token whose word is lent by the text in which it stands.
#[derive(Drop)]
pub enum LentToken<'a> {
    /// An operator or a payload.
    Word(&'a str),
    /// The name of a variable, without its `?`.
    Variable(&'a str),
    /// A token that is no word.
    Other(Token),
}

impl<'a> LentToken<'a> {
    /// Returns the token with a text of its own.
    fn owned(&self, alloc: Global) -> Result<Token, Error>
        ensures ok { IfOk result (λ t. lexeme_of t ≡ lexeme self.now) }
        ensures memory { IfErr result IsOutOfMemory }
    {
        match self {
            LentToken::Word(word) => Ok(Token::Ident(String::from_str(alloc, word)?)),
            LentToken::Variable(name) => Ok(Token::PVar(String::from_str(alloc, name)?)),
            LentToken::Other(token) => token.copy(alloc),
        }
    }
}

fn bracket_of(c: char) -> Option<Token>
    ensures { option_map lexeme_of result ≡ bracket_of c }
{
    match c {
        '(' => Some(Token::LParen),
        ')' => Some(Token::RParen),
        '[' => Some(Token::LBracket),
        ']' => Some(Token::RBracket),
        _ => None,
    }
}

fn is_of_run(c: char) -> bool
    ensures { result ≡ is_of_run c }
{
    !(c.is_whitespace() || bracket_of(c).is_some())
}

// Returns the first character of a text, and what follows.
fn first_char(text: &str) -> Option<(char, &str)>
    ensures { MatchOption result (chars text.now ≡ []) (λ p. BeginsWithChar text.now p.0 p.1.now) }
{
    let mut left = text.chars();
    let first = left.next()?;
    Some((first, left.as_str()))
}

// Returns the text without the white space at its front.
fn skip_white_space(text: &str) -> &str
    ensures { chars result.now ≡ after_white_space (chars text.now) }
{
    let mut left = text;
    while let Some((first, after)) = first_char(left) {
        if !first.is_whitespace() {
            return left;
        }
        left = after;
    }
    left
}

// Returns what stands before the first character that is of no run, and what follows.
fn split_run(text: &str) -> (&str, &str)
    ensures run { result.0.now ≡ encode_utf8_all (run (chars text.now)) }
    ensures rest { chars result.1.now ≡ after_run (chars text.now) }
    ensures bytes { result.1.now ≡ encode_utf8_all (after_run (chars text.now)) }
    ensures utf8 { IsUtf8 result.1.now }
{
    let mut left = text;
    while let Some((first, after)) = first_char(left) {
        if !is_of_run(first) {
            break;
        }
        left = after;
    }
    text.split_at(text.len() - left.len())
}

/// Returns the token of a variable after its `?`, and what follows.
fn variable_token<'a>(alloc: Global, text: &'a str) -> Result<(LentToken<'a>, &'a str), Error>
    ensures ok { IfOk result
        (λ p. (t : Table) → variable_token t (run (chars text.now)) (after_run (chars text.now)) ≡ token (lexeme p.0) (chars p.1.now) t) }
    ensures none { IfErr result (Refuses
        (λ o. (t : Table) → variable_token t (run (chars text.now)) (after_run (chars text.now)) ≡ refused o)) }
    ensures utf8 { IfOk result (λ p. IsUtf8 p.1.now) }
{
    let (name, rest) = split_run(text);
    if name.is_empty() {
        let rest = String::from_str(alloc, rest)?;
        return Err(Error::Parse(ParseError::TokenState(rest)));
    }
    Ok((LentToken::Variable(name), rest))
}

/// Returns the token of a slot after its `$`, and what follows.
fn slot_token<'a>(
    alloc: Global,
    text: &'a str,
    table: &mut SlotTable,
) -> Result<(LentToken<'a>, &'a str), Error>
    ensures ok { IfOk result
        (λ p. slot_token table.old (run (chars text.now)) (after_run (chars text.now)) ≡ token (lexeme p.0) (chars p.1.now) table.new) }
    ensures none { IfErr result (Refuses
        (λ o. slot_token table.old (run (chars text.now)) (after_run (chars text.now)) ≡ refused o)) }
    ensures utf8 { IfOk result (λ p. IsUtf8 p.1.now) }
    ensures err { OnErr result (table.new ≡ table.old) }
    ensures more { KnowsMore table.old table.new }
{
    let (name, rest) = split_run(text);
    if name.is_empty() {
        let rest = String::from_str(alloc, rest)?;
        return Err(Error::Parse(ParseError::TokenState(rest)));
    }
    let slot = table.named(name)?;
    Ok((LentToken::Other(Token::Slot(slot)), rest))
}

// Returns what follows a `:=` that begins with `first` and goes on with `rest`.
fn after_colon_equals(first: char, rest: &str) -> Option<&str>
    ensures { MatchOption result (is_colon_equals first (chars rest.now) ≡ false)
        (λ after. (is_colon_equals first (chars rest.now) ≡ true) × (chars after.now ≡ drop 1 (chars rest.now)) × IsUtf8 after.now) }
{
    if first != ':' {
        return None;
    }
    let (second, after) = first_char(rest)?;
    if second != '=' {
        return None;
    }
    Some(after)
}

/// Returns the token that begins with `first` and goes on with `rest`. `first` is neither white space nor a bracket.
#[tactic(auto, unfolding(crate::specs::Tokens::sign_or_word))]
fn sign_or_word<'a>(
    alloc: Global,
    text: &'a str,
    first: char,
    rest: &'a str,
    table: &mut SlotTable,
) -> Result<(LentToken<'a>, &'a str), Error>
    requires { chars text.now ≡ first ∷ chars rest.now }
    ensures ok { IfOk result
        (λ p. sign_or_word table.old first (chars rest.now) ≡ token (lexeme p.0) (chars p.1.now) table.new) }
    ensures none { IfErr result (Refuses (λ o. sign_or_word table.old first (chars rest.now) ≡ refused o)) }
    ensures utf8 { IfOk result (λ p. IsUtf8 p.1.now) }
    ensures err { OnErr result (table.new ≡ table.old) }
    ensures more { KnowsMore table.old table.new }
{
    if let Some(after) = after_colon_equals(first, rest) {
        return Ok((LentToken::Other(Token::ColonEquals), after));
    }
    if first == '?' {
        return variable_token(alloc, rest);
    }
    if first == '$' {
        return slot_token(alloc, rest, table);
    }
    let (word, rest) = split_run(text);
    Ok((LentToken::Word(word), rest))
}

/// Returns the token at the front of a text with what follows it, or `None` if only white space is left.
#[tactic(auto, unfolding(crate::specs::Tokens::next_token))]
fn next_token<'a>(
    alloc: Global,
    text: &'a str,
    table: &mut SlotTable,
) -> Result<Option<(LentToken<'a>, &'a str)>, Error>
    ensures ok { IfOk result (λ found. MatchOption found
        ((next_token table.old (chars text.now) ≡ nothing) × (table.new ≡ table.old))
        (λ p. next_token table.old (chars text.now) ≡ token (lexeme p.0) (chars p.1.now) table.new)) }
    ensures none { IfErr result (Refuses (λ o. next_token table.old (chars text.now) ≡ refused o)) }
    ensures utf8 { IfOk result (λ found. IfSome found (λ p. IsUtf8 p.1.now)) }
    ensures err { OnErr result (table.new ≡ table.old) }
    ensures more { KnowsMore table.old table.new }
{
    let text = skip_white_space(text);
    let Some((first, rest)) = first_char(text) else {
        return Ok(None);
    };
    if let Some(bracket) = bracket_of(first) {
        return Ok(Some((LentToken::Other(bracket), rest)));
    }
    let found = sign_or_word(alloc, text, first, rest, table)?;
    Ok(Some(found))
}

/// Returns the tokens of a text. On an error the table keeps the names that stand before the token.
pub fn tokenize<'a>(
    alloc: Global,
    text: &'a str,
    table: &mut SlotTable,
) -> Result<Vec<LentToken<'a>>, Error>
    ensures ok { IfOk result (λ tokens. HasTokens table.old (chars text.now) (map lexeme tokens.items) table.new) }
    ensures none { IfErr result (Refuses (λ o. HasBadToken table.old (chars text.now) o table.new)) }
    ensures more { KnowsMore table.old table.new }
{
    let mut tokens = Vec::with_capacity(alloc, text.len() / 2)?;
    let mut rest = text;
    while let Some((token, after)) = next_token(alloc, rest, table)? {
        tokens.push(token)?;
        rest = after;
    }
    Ok(tokens)
}

/// Returns the tokens with texts of their own.
pub fn owned_tokens(alloc: Global, tokens: &[LentToken<'_>]) -> Result<Vec<Token>, Error>
    ensures ok { IfOk result (λ v. map lexeme_of v.items ≡ map lexeme tokens.now) }
    ensures memory { IfErr result IsOutOfMemory }
{
    let mut owned = Vec::with_capacity(alloc, tokens.len())?;
    for token in tokens {
        owned.push(token.owned(alloc)?)?;
    }
    Ok(owned)
}
