//! The e-classes of a graph: its lists, which one call writes at a time, and `find`.
//!
//! A class *leads to* the class to which it was linked by a union. `find` follows these links to the live class at
//! the end. Nothing here decides what is equal: the crates above do, and keep the graph sound.
#![tactic(auto)]

pub mod counts;
pub mod finding;
pub mod names;
pub mod store;

pub use counts::RebuildCount;
pub use store::{Row, Store, Symmetry};
