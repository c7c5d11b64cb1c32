//! Substitution without capture, instances of patterns, matching, rules and runs: the mathematics of rewriting, over
//! the abstract graph.
//!
//! The definitions stand in `specs`. The crate has no program: its functions prove the laws.
#![tactic(auto)]

pub mod matcher;
pub mod pattern;
pub mod rule;
pub mod runner;
pub mod substitution;
