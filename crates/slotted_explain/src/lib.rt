//! Proofs as texts. The crate hands on `slotted_graph`, whose proofs are printed.
#![tactic(auto)]

mod explanation;
mod flat;
mod flat_terms;
mod print;
mod steps;

pub use explanation::Explanation;
pub use slotted_graph::{Check, EGraph, LeastTerms, ProgressMeasure, Symmetry};
