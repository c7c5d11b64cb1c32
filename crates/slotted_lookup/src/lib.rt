//! Look-up: an e-node is looked up by its canonical e-node, over ids that may omit names of redundant slots.
#![tactic(auto)]

pub mod enodes;
pub mod filling;
pub mod finding;
pub mod lookup;
pub mod reports;
