//! Patterns over any language, and the texts that write them.
#![tactic(auto)]

mod grammar;
pub mod layout;
pub mod parse;
pub mod pattern;
pub mod read_again;
pub mod show;
pub mod tokens;

pub use pattern::Pattern;
