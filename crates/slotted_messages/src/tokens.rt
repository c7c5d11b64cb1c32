//! Tokens and elements of a node's syntax, as text. Slots have no names here, since these stand in a table.

use slotted_slots::{SyntaxElem, Token};
use std::fmt;

/// Tokens, as text.
#[derive(Clone, Copy)]
pub(crate) struct Tokens<'a>(pub(crate) &'a [Token]);

/// Elements of a node's syntax, as text. A child is written `_`.
#[derive(Clone, Copy)]
pub(crate) struct Elements<'a>(pub(crate) &'a [SyntaxElem]);

// Returns whether no space stands behind a token.
fn opens(token: &Token) -> bool {
    matches!(token, Token::LParen | Token::LBracket)
}

// Returns whether no space stands in front of a token.
fn closes(token: &Token) -> bool {
    matches!(token, Token::RParen | Token::LBracket | Token::RBracket)
}

fn write_token<W: fmt::Write>(f: &mut fmt::Formatter<W>, token: &Token) -> fmt::Result {
    match token {
        Token::Slot(_) => f.write_str("$.."),
        Token::Ident(text) => write!(f, "{text}"),
        Token::PVar(name) => write!(f, "?{name}"),
        Token::ColonEquals => f.write_str(":="),
        Token::LParen => f.write_str("("),
        Token::RParen => f.write_str(")"),
        Token::LBracket => f.write_str("["),
        Token::RBracket => f.write_str("]"),
    }
}

impl<'a> fmt::Display for Tokens<'a> {
    fn fmt<W: fmt::Write>(&self, f: &mut fmt::Formatter<W>) -> fmt::Result {
        let mut tight = true;
        for token in self.0 {
            if !tight && !closes(token) {
                f.write_str(" ")?;
            }
            write_token(f, token)?;
            tight = opens(token);
        }
        Ok(())
    }
}

fn write_element<W: fmt::Write>(f: &mut fmt::Formatter<W>, element: &SyntaxElem) -> fmt::Result {
    match element {
        SyntaxElem::String(text) => write!(f, "{text}"),
        SyntaxElem::AppliedId(_) => f.write_str("_"),
        SyntaxElem::Slot(_) => f.write_str("$.."),
    }
}

fn write_elements<W: fmt::Write>(
    f: &mut fmt::Formatter<W>,
    elements: &[SyntaxElem],
) -> fmt::Result {
    let mut first = true;
    for element in elements {
        if !first {
            f.write_str(" ")?;
        }
        write_element(f, element)?;
        first = false;
    }
    Ok(())
}

impl<'a> fmt::Display for Elements<'a> {
    fn fmt<W: fmt::Write>(&self, f: &mut fmt::Formatter<W>) -> fmt::Result {
        if self.0.len() == 1 {
            return write_elements(f, self.0);
        }
        f.write_str("(")?;
        write_elements(f, self.0)?;
        f.write_str(")")
    }
}
