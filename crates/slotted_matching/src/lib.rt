//! E-matching: patterns are matched against the classes of a graph.
//!
//! An index has the filed e-nodes as rows of numbers. Patterns become programs of the machine, and its answers get
//! slots for numbers.
#![tactic(auto)]

pub mod answers;
pub mod cache;
pub mod compile;
pub mod find;
pub mod index;
pub mod matches;
pub(crate) mod naming;
pub(crate) mod rows;
pub mod skeletons;

pub use cache::IndexCache;
pub use compile::Program;
pub use index::Indexed;
pub use matches::Matches;
pub use skeletons::Skeletons;
