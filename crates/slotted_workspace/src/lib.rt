//! Workspaces: a graph with its rules and terms, whose calls need no proof of their caller.
//!
//! Terms are named by handles. A handle that does not belong to the workspace is refused, so no call has a condition.
#![tactic(auto)]

pub mod deciding;
pub(crate) mod drawing;
pub mod error;
pub(crate) mod explaining;
pub(crate) mod extracting;
pub mod handle;
pub(crate) mod kept;
pub mod numbers;
pub(crate) mod reading;
pub(crate) mod rule_texts;
pub(crate) mod running;
pub(crate) mod searching;
pub mod sparing;
pub(crate) mod turning;
pub(crate) mod uniting;
pub mod workspace;

pub use deciding::ExplainedText;
pub use error::WorkspaceError;
pub use extracting::{Extracted, LeastText};
pub use handle::Handle;
pub use numbers::WorkspaceNumbers;
pub use running::Limits;
pub use sparing::RuleCondition;
pub use workspace::{SymmetryCount, Workspace};
