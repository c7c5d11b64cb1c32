//! Patterns of any language as rules see them: their variables, and the values of these.
#![tactic(auto)]

pub mod inside;
pub mod pattern;
pub mod subst;

pub use subst::Subst;
