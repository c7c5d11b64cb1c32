//! The errors of the library.
ghost use Rattle.std.specs.Prelude.{◌≡◌};
ghost use Rattle.slotted_slots.specs.declared.error.Error.TheVariants.{OutOfMemory};
ghost use Rattle.slotted_slots.specs.Error.{number_of, name_of};

use crate::ParseError;
use std::alloc::{AllocError, AllocFailed};
use thiserror::Error;

/// The error that a call returns. The cases stand in the order of their numbers.
#[derive(Debug, Drop, Error)]
pub enum Error {
    /// Memory was refused.
    #[error("out of memory")]
    OutOfMemory,
    /// The table has no fresh slot or no place for a name left, or a node has too many places to be numbered.
    #[error("out of slots")]
    OutOfSlots,
    /// An earlier write of the graph ran out of memory or of slots.
    #[error("the graph has failed")]
    Failed,
    /// The text is outside the grammar.
    #[error("the text is outside the grammar: {0:?}")]
    Parse(ParseError),
    /// A variable, a substitution or a wrong number of child patterns stands where a term is needed.
    #[error("not a term")]
    NotATerm,
    /// A pattern to match holds a substitution.
    #[error("a pattern to match holds a substitution")]
    SubstInSearch,
    /// The variable of this name has no value in the substitution.
    #[error("the variable {0} has no value")]
    MissingVariable(String),
    /// The terms to explain are not equal.
    #[error("the terms are not equal")]
    NotEqual,
    /// The proof step does not prove its equation.
    #[error("the proof step does not fit its equation")]
    BadStep,
    /// The table of an extractor has no entry for the class.
    #[error("the extractor lacks the class")]
    UnknownClass,
    /// The number of a slot is 2^30 or more.
    #[error("the number of a slot is too large")]
    NumberTooLarge,
}

impl Error {
    /// Returns the number of the case, from 1 on.
    pub fn number(&self) -> u8
        ensures { result ≡ number_of self.now }
    {
        match self {
            Error::OutOfMemory => 1,
            Error::OutOfSlots => 2,
            Error::Failed => 3,
            Error::Parse(_) => 4,
            Error::NotATerm => 5,
            Error::SubstInSearch => 6,
            Error::MissingVariable(_) => 7,
            Error::NotEqual => 8,
            Error::BadStep => 9,
            Error::UnknownClass => 10,
            Error::NumberTooLarge => 11,
        }
    }

    /// Returns the name of the case, without what the case carries.
    pub fn name(&self) -> &'static str
        ensures { result.now ≡ name_of self.now }
    {
        match self {
            Error::OutOfMemory => "OutOfMemory",
            Error::OutOfSlots => "OutOfSlots",
            Error::Failed => "Failed",
            Error::Parse(_) => "Parse",
            Error::NotATerm => "NotATerm",
            Error::SubstInSearch => "SubstInSearch",
            Error::MissingVariable(_) => "MissingVariable",
            Error::NotEqual => "NotEqual",
            Error::BadStep => "BadStep",
            Error::UnknownClass => "UnknownClass",
            Error::NumberTooLarge => "NumberTooLarge",
        }
    }
}

impl From<AllocError> for Error {
    ghost from_gives = { λ _ e. e ≡ OutOfMemory };

    fn from(_e: AllocError) -> Error {
        Error::OutOfMemory
    }
}

impl<T: Drop> From<AllocFailed<T>> for Error {
    ghost from_gives = { λ _ e. e ≡ OutOfMemory };

    fn from(_e: AllocFailed<T>) -> Error {
        Error::OutOfMemory
    }
}
