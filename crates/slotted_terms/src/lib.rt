//! Terms over any language: expressions, their alpha-equality, and the texts that write them.
#![tactic(auto)]

pub mod expr;
pub mod flat;
pub mod parse;
pub mod patterns;
pub mod read_again;
mod reader;

pub use expr::RecExpr;
pub use patterns::{pattern_to_re, re_to_pattern};
