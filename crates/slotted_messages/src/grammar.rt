//! Messages of texts outside the grammar.

use crate::place::Place;
use crate::runs::{only_column, open_bracket};
use crate::tokens::Elements;
use slotted_slots::{ParseError, SyntaxElem, Token};
use std::fmt;

// Returns the column of the sign behind which no name stands, from what follows the sign.
fn sign_column(text: &str, rest: &str) -> usize {
    text.chars().count().saturating_sub(rest.chars().count())
}

fn write_no_name<W: fmt::Write>(
    f: &mut fmt::Formatter<W>,
    text: Option<&str>,
    rest: &str,
) -> fmt::Result {
    let Some(text) = text else {
        return f.write_str("a name is missing behind `?` or `$`");
    };
    let column = sign_column(text, rest);
    match text.chars().nth(column.saturating_sub(1)) {
        Some(sign) => write!(f, "a name is missing behind `{sign}` at {column} of {text}"),
        None => write!(f, "a name is missing behind a sign in {text}"),
    }
}

// What is wanted where a text ends too early.
fn wanted_at_end(text: &str) -> &'static str {
    if text.trim_end().ends_with('(') {
        return "an operator is wanted";
    }
    match open_bracket(text) {
        Some('(') => "`)` is missing",
        _ => "a pattern is wanted",
    }
}

fn write_no_pattern<W: fmt::Write>(
    f: &mut fmt::Formatter<W>,
    text: Option<&str>,
    rest: &[Token],
) -> fmt::Result {
    let place = Place::of_rest(text, rest);
    match text {
        Some(text) if rest.is_empty() => {
            let wanted = wanted_at_end(text);
            write!(f, "{wanted}{place}")
        }
        _ => write!(f, "an operator or a pattern is wanted{place}"),
    }
}

fn write_no_node<W: fmt::Write>(
    f: &mut fmt::Formatter<W>,
    text: Option<&str>,
    elements: &[SyntaxElem],
) -> fmt::Result {
    let column = match (text, elements.first()) {
        (Some(text), Some(SyntaxElem::String(word))) => only_column(text, word.as_str()),
        _ => None,
    };
    let place = Place::of_column(text, column);
    let node = Elements(elements);
    write!(f, "the language has no e-node `{node}`{place}")
}

/// Writes why a text is outside the grammar.
pub(crate) fn write_parse_error<W: fmt::Write>(
    f: &mut fmt::Formatter<W>,
    text: Option<&str>,
    error: &ParseError,
) -> fmt::Result {
    match error {
        ParseError::TokenState(rest) => write_no_name(f, text, rest.as_str()),
        ParseError::ParseState(rest) => write_no_pattern(f, text, rest),
        ParseError::FromSyntaxFailed(elements) => write_no_node(f, text, elements),
        ParseError::RemainingRest(rest) => {
            let place = Place::of_rest(text, rest);
            write!(f, "the text goes on after its pattern{place}")
        }
        ParseError::ExpectedColonEquals(rest) => {
            let place = Place::of_rest(text, rest);
            write!(f, "`:=` is wanted{place}")
        }
        ParseError::ExpectedRBracket(rest) => {
            let place = Place::of_rest(text, rest);
            write!(f, "`]` is wanted{place}")
        }
    }
}
