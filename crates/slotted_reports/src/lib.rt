//! Reports on a graph: its progress, the filed e-nodes of a class, a text of all classes, and a check of what is
//! stored.
#![tactic(auto)]

pub mod checking;
pub mod dumping;
pub mod measure;
pub mod nodes;

pub use measure::ProgressMeasure;
