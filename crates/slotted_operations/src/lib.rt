//! The operations of a graph, as functions over its parts. `EGraph` of `slotted_graph` calls them.
//!
//! They test ids, e-nodes and terms, add, unite and explain, give syntactic e-nodes and canonical terms, and check
//! steps.
#![tactic(auto)]

pub mod adding;
pub mod checking;
pub mod explaining;
pub mod looking_up;
pub mod names;
mod sides;
mod stacks;
pub mod syn;
pub mod terms;
pub mod uniting;
