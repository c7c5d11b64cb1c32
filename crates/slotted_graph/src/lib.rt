//! E-graphs of terms with binders.
//!
//! Alpha-equal terms that are added get equal ids. If two ids are united, all e-nodes that are equal then are united
//! too. Each equality is proved, by entries that a union makes or by steps that a caller asks for.
#![tactic(auto)]

pub mod adding;
pub mod edits;
pub mod egraph;
pub mod entry;
pub mod explaining;
pub mod extracting;
pub mod merging;
pub mod method;
pub mod terms;
pub mod uniting;
mod writes;

pub use edits::{make_edit, modify_class, modify_in_rounds, modify_once};
pub use egraph::steps::Check;
pub use egraph::{EGraph, totals_rise};
pub use entry::TermEntry;
pub use method::SubstMethod;
pub use slotted_classes::Symmetry;
pub use slotted_reports::ProgressMeasure;
pub use terms::LeastTerms;
