//! Errors, and copies of tokens and elements of syntax.
use crate::reading::element;
use slotted_slots::{Error, ParseError, SlotTable, Token};
use std::alloc::Global;

// Returns the error of a name.
fn error(alloc: Global, name: &str) -> Error {
    match name {
        "OutOfMemory" => Error::OutOfMemory,
        "OutOfSlots" => Error::OutOfSlots,
        "Failed" => Error::Failed,
        "Parse" => Error::Parse(ParseError::TokenState(String::new(alloc))),
        "NotATerm" => Error::NotATerm,
        "SubstInSearch" => Error::SubstInSearch,
        "MissingVariable" => Error::MissingVariable(String::new(alloc)),
        "NotEqual" => Error::NotEqual,
        "BadStep" => Error::BadStep,
        "UnknownClass" => Error::UnknownClass,
        _ => Error::NumberTooLarge,
    }
}

// Writes the number and the name of the error of a name.
pub(crate) fn write_error(alloc: Global, name: &str, text: &mut String) -> Result<(), Error> {
    let error = error(alloc, name);
    let (number, name) = (error.number(), error.name());
    Ok(write!(text, "{number} {name}")?)
}

// Returns whether the clone of a value equals it.
pub(crate) fn is_cloned<T: Clone + PartialEq + Drop>(value: &T) -> Result<bool, Error> {
    Ok(value.clone()? == *value)
}

// Returns whether the copy and the clone of the token of a text equal the token.
fn is_copied_token(alloc: Global, text: &str) -> Result<bool, Error> {
    let token = Token::Ident(String::from_str(alloc, text)?);
    Ok(token.copy(alloc)? == token && is_cloned(&token)?)
}

// Returns whether the copy and the clone of the element of a text equal the element.
fn is_copied_element(alloc: Global, text: &str, table: &mut SlotTable) -> Result<bool, Error> {
    let element = element(alloc, table, text)?;
    Ok(element.copy(alloc)? == element && is_cloned(&element)?)
}

// Returns whether the copies and the clones of the token and the element of a text equal these.
pub(crate) fn are_copied(alloc: Global, text: &str, table: &mut SlotTable) -> Result<bool, Error> {
    Ok(is_copied_element(alloc, text, table)? && is_copied_token(alloc, text)?)
}
