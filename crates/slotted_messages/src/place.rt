//! Places in a text that was read.

use crate::columns::{token_column, token_count};
use crate::tokens::Tokens;
use slotted_slots::Token;
use std::fmt;

/// A place in a text, as a message ends with it.
#[derive(Clone, Copy)]
pub(crate) enum Place<'a> {
    /// A column of a text, in characters from 1.
    Column(usize, &'a str),
    /// The end of a text.
    End(&'a str),
    /// Somewhere in a text.
    Inside(&'a str),
    /// The place in front of these tokens, of a text that is not known.
    Before(Tokens<'a>),
    /// The end of a text that is not known.
    UnknownEnd,
    /// A place of which nothing is known.
    Unknown,
}

impl<'a> Place<'a> {
    /// Returns the place in front of the tokens that remain of a text.
    pub(crate) fn of_rest(text: Option<&'a str>, rest: &'a [Token]) -> Place<'a> {
        match text {
            Some(text) => Place::of_known_rest(text, rest),
            None if rest.is_empty() => Place::UnknownEnd,
            None => Place::Before(Tokens(rest)),
        }
    }

    // Returns the place in front of the tokens that remain of this text.
    fn of_known_rest(text: &'a str, rest: &'a [Token]) -> Place<'a> {
        match token_column(text, token_count(text).saturating_sub(rest.len())) {
            Some(column) => Place::Column(column, text),
            None => Place::End(text),
        }
    }

    /// Returns a column of a text if both are known.
    pub(crate) fn of_column(text: Option<&'a str>, column: Option<usize>) -> Place<'a> {
        match (text, column) {
            (Some(text), Some(column)) => Place::Column(column, text),
            (Some(text), None) => Place::Inside(text),
            (None, _) => Place::Unknown,
        }
    }
}

impl<'a> fmt::Display for Place<'a> {
    fn fmt<W: fmt::Write>(&self, f: &mut fmt::Formatter<W>) -> fmt::Result {
        match self {
            Place::Column(column, text) => write!(f, " at {column} of {text}"),
            Place::End(text) if text.trim().is_empty() => f.write_str(" in an empty text"),
            Place::End(text) => write!(f, " at the end of {text}"),
            Place::Inside(text) => write!(f, " in {text}"),
            Place::Before(tokens) => write!(f, " in front of `{tokens}`"),
            Place::UnknownEnd => f.write_str(" at the end of the text"),
            Place::Unknown => Ok(()),
        }
    }
}
