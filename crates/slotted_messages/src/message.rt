//! Errors as text.

use crate::grammar::write_parse_error;
use crate::runs::{first_substitution, first_variable};
use slotted_slots::Error;
use std::fmt;

/// An error as text, with the place in the text that was read, if that text is known.
///
/// Places are columns in characters from 1.
#[derive(Clone, Copy)]
pub struct Message<'a> {
    error: &'a Error,
    text: Option<&'a str>,
}

impl<'a> Message<'a> {
    /// Returns the message of an error of which no text is known.
    pub fn of(error: &'a Error) -> Message<'a> {
        Message { error, text: None }
    }

    /// Returns the message of an error that a call returned which read this text.
    pub fn of_text(error: &'a Error, text: &'a str) -> Message<'a> {
        Message {
            error,
            text: Some(text),
        }
    }
}

// Writes why a text writes no term.
fn write_no_term<W: fmt::Write>(f: &mut fmt::Formatter<W>, text: &str) -> fmt::Result {
    if let Some(variable) = first_variable(text) {
        let column = variable.column;
        let name = variable.text;
        return write!(f, "{name} at {column} of {text}: a term has no variables");
    }
    match first_substitution(text) {
        Some(column) => write!(
            f,
            "a substitution stands where a term is needed, at {column} of {text}"
        ),
        None => write!(f, "the text is no term: {text}"),
    }
}

// Writes that a name is lacking. A rule's condition names a slot by its sign alone.
fn write_missing<W: fmt::Write>(f: &mut fmt::Formatter<W>, name: &str) -> fmt::Result {
    if name == "$" {
        return f.write_str("the condition names a slot that the left side lacks");
    }
    write!(f, "the variable ?{name} has no value")
}

impl<'a> fmt::Display for Message<'a> {
    fn fmt<W: fmt::Write>(&self, f: &mut fmt::Formatter<W>) -> fmt::Result {
        match self.error {
            Error::Parse(error) => write_parse_error(f, self.text, error),
            Error::NotATerm => match self.text {
                Some(text) => write_no_term(f, text),
                None => f.write_str("a variable or a substitution stands where a term is needed"),
            },
            Error::MissingVariable(name) => write_missing(f, name.as_str()),
            other => write!(f, "{other}"),
        }
    }
}
