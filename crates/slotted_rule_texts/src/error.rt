//! Why a text is no rule.
ghost use Rattle.std.specs.Prelude.{◌≡◌};
ghost use Rattle.slotted_rule_texts.specs.declared.error.RuleTextError.TheVariants.{OutOfMemory};

use std::alloc::{AllocError, AllocFailed};
use thiserror::Error;

/// The part of a text that makes it no rule.
#[derive(Debug, Drop, Error)]
pub enum RuleTextError {
    /// Memory was refused.
    #[error("out of memory")]
    OutOfMemory,
    /// No name with `: ` behind it stands in front.
    #[error("a rule begins with its name, as in `NAME: L => R`")]
    NoName,
    /// Neither ` => ` nor ` <=> ` stands behind the name.
    #[error("a rule has ` => ` or ` <=> ` between its sides, as in `NAME: L => R`")]
    NoSign,
    /// What follows ` if $`, or a later ` and $`, is no condition.
    #[error("a condition is `$x not in ?v` or `$x in ?v`, with ` and ` in front of the next")]
    NoCondition,
}

impl From<AllocError> for RuleTextError {
    ghost from_gives = { λ _ e. e ≡ OutOfMemory };

    fn from(_e: AllocError) -> RuleTextError {
        RuleTextError::OutOfMemory
    }
}

impl<T: Drop> From<AllocFailed<T>> for RuleTextError {
    ghost from_gives = { λ _ e. e ≡ OutOfMemory };

    fn from(_e: AllocFailed<T>) -> RuleTextError {
        RuleTextError::OutOfMemory
    }
}
