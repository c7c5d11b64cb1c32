//! Tokens of a text, syntax elements of a node, and the errors of parsing.
ghost use Rattle.std.specs.Prelude.{◌≡◌, IfOk, IfErr};
ghost use Rattle.slotted_slots.specs.Error.{IsOutOfMemory};
ghost use Rattle.slotted_slots.specs.Syntax.{lexeme_of, element_of};

use crate::{AppliedId, Error, Slot};
use std::alloc::Global;

/// A token of a text.
#[derive(Clone, Debug, Drop, PartialEq, Eq)]
pub enum Token {
    /// A slot: `$42`, `$f3` or `$x`.
    Slot(Slot),
    /// An operator or a payload.
    Ident(String),
    /// The name of a variable, without its `?`.
    PVar(String),
    /// `:=`
    ColonEquals,
    /// `(`
    LParen,
    /// `)`
    RParen,
    /// `[`
    LBracket,
    /// `]`
    RBracket,
}

impl Token {
    /// Returns a token with the same text or slot.
    pub fn copy(&self, alloc: Global) -> Result<Token, Error>
        ensures ok { IfOk result (λ t. lexeme_of t ≡ lexeme_of self.now) }
        ensures memory { IfErr result IsOutOfMemory }
    {
        match self {
            Token::Slot(slot) => Ok(Token::Slot(*slot)),
            Token::Ident(text) => Ok(Token::Ident(String::from_str(alloc, text.as_str())?)),
            Token::PVar(text) => Ok(Token::PVar(String::from_str(alloc, text.as_str())?)),
            Token::ColonEquals => Ok(Token::ColonEquals),
            Token::LParen => Ok(Token::LParen),
            Token::RParen => Ok(Token::RParen),
            Token::LBracket => Ok(Token::LBracket),
            Token::RBracket => Ok(Token::RBracket),
        }
    }
}

/// An element of a node's syntax.
#[derive(Clone, Debug, Drop, PartialEq, Eq)]
pub enum SyntaxElem {
    /// An operator or a payload.
    String(String),
    /// A child.
    AppliedId(AppliedId),
    /// A slot of the node itself, or a binder.
    Slot(Slot),
}

impl SyntaxElem {
    /// Returns an element with the same text, child or slot.
    pub fn copy(&self, alloc: Global) -> Result<SyntaxElem, Error>
        ensures ok { IfOk result (λ e. element_of e ≡ element_of self.now) }
        ensures memory { IfErr result IsOutOfMemory }
    {
        match self {
            SyntaxElem::String(text) => Ok(SyntaxElem::String(String::from_str(
                alloc,
                text.as_str(),
            )?)),
            SyntaxElem::AppliedId(child) => Ok(SyntaxElem::AppliedId(child.copy(alloc)?)),
            SyntaxElem::Slot(slot) => Ok(SyntaxElem::Slot(*slot)),
        }
    }
}

/// The way in which a text is outside the grammar, with what was left of the text.
#[derive(Debug, Drop, PartialEq, Eq)]
pub enum ParseError {
    /// No name follows a sign. Carries the text after the sign.
    TokenState(String),
    /// A pattern or an operator was expected. Carries the tokens that remain.
    ParseState(Vec<Token>),
    /// The text goes on after its pattern. Carries the tokens that remain.
    RemainingRest(Vec<Token>),
    /// The language has no node with these elements.
    FromSyntaxFailed(Vec<SyntaxElem>),
    /// A `:=` was expected. Carries the tokens that remain.
    ExpectedColonEquals(Vec<Token>),
    /// A `]` was expected. Carries the tokens that remain.
    ExpectedRBracket(Vec<Token>),
}
