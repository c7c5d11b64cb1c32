//! Pictures of graphs and of proofs, in the DOT language of Graphviz.
#![tactic(auto)]

pub mod graphs;
pub mod proof_trees;
pub(crate) mod quoting;

pub use graphs::graph_to_dot;
pub use proof_trees::proof_to_dot;
