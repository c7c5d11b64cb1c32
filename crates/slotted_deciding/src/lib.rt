//! Graphs that decide symmetries.
//!
//! Where a class equals itself with its slots in another order, a graph lacks what follows for e-nodes over this class.
//! To decide the graph is to add each such e-node, with one child twisted by a symmetry, and to unite it with the
//! e-node that it equals.
#![tactic(auto)]

pub mod asking;
pub mod deciding;
pub mod equality;
pub(crate) mod failing;
pub mod grouping;
pub mod groups;
pub mod least;
pub mod proving;
pub mod settling;
pub(crate) mod stepping;
pub mod uniting;
pub(crate) mod walking;

pub use asking::{Explained, Verdict, decided_eq, decided_explain};
pub use deciding::decide;
pub use equality::is_equal_up_to_symmetries;
pub use least::least_id;
pub use proving::prove;
