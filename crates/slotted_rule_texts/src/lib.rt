//! Texts of rules, as `NAME: L => R` or `NAME: L <=> R` with conditions behind. This crate knows no graph and no
//! language.
#![tactic(auto)]

mod error;
mod name;
mod reading;
mod rule_text;

pub use error::RuleTextError;
pub use rule_text::{RuleText, SlotCondition};
