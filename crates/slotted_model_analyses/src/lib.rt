//! Analyses: data for each class of the abstract graph, which goes along with its changes and is merged upwards.
//!
//! The definitions stand in `specs`. The crate has no program: its functions prove the laws.
#![tactic(auto)]

pub mod carry;
pub mod data;
pub mod edit;
pub mod rebuild;
pub mod write;
