//! Questions of tests: words by which tests ask a graph, and their answers as texts. Crates of tests read the rows of
//! their tables with them.
//!
//! No test stands here, so that this crate is proved once. Questions on printed proofs stand in a crate of tests.
#![tactic(auto)]

mod found;
pub mod graphs;
mod ids;
mod nodes;
mod reported;
pub mod rows;
pub mod steps;
mod terms;
mod words;
