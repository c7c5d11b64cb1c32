//! Errors as text for people: what was read, what was expected, and the place. This crate knows no graph.
#![tactic(auto)]

mod columns;
mod grammar;
mod message;
mod place;
mod runs;
mod tokens;

pub use columns::{token_column, token_count, word_column};
pub use message::Message;
