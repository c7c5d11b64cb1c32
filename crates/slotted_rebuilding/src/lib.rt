//! Unions, and rebuilding: pending classes take their turns, until equal e-nodes are of one class.
#![tactic(auto)]

pub mod named;
pub mod narrowing;
pub mod newest;
pub mod rebuilding;
pub mod settling;
pub mod turning;
pub mod twins;
pub mod unions;
pub mod uniting;
