//! An independent checker of printed proofs. It knows terms, alpha-equality and renaming, and nothing of e-graphs.
#![tactic(auto)]

pub mod following;
pub mod pieces;
pub mod renaming;
pub mod steps;
pub mod terms;
