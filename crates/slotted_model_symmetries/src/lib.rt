//! Symmetries, decided: in a graph in which each e-node is looked up with a symmetry applied at any child, ids are
//! equal up to symmetries if and only if their terms are derivably equal.
//!
//! The definitions stand in `specs`. The crate has no program: its functions prove the laws.
#![tactic(auto)]

pub mod deciding;
pub mod group;
