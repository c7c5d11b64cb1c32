//! Analyses of a language, the data that they keep of classes, and how it is carried along after a graph was rebuilt.
//!
//! [`Analysis`] tells what an analysis says, and what it has to keep. The unit type is an analysis that keeps nothing.
//!
//! [`carry`] gives data to new classes, and merges the data of dead ones into that of the classes that `find` maps them
//! to. Then values go upwards until nothing changes. [`merge_value`] does so for a value of the caller.
#![tactic(auto)]

pub mod analysis;
pub(crate) mod burying;
pub mod carrying;
pub mod class_data;
pub mod counts;
pub mod edit;
pub(crate) mod lowering;
pub(crate) mod making;
pub mod pending;
pub(crate) mod users;

pub use analysis::{Analysis, analyses_merge};
pub use carrying::{carry, merge_value};
pub use class_data::ClassData;
pub use counts::{last_rebuild, rebuild_totals};
pub use edit::Edit;
pub use pending::{pending_count, take_pending};
