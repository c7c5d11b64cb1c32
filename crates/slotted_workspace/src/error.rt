//! Errors of a workspace.
ghost use Rattle.std.specs.Prelude.{◌≡◌};
ghost use Rattle.slotted_workspace.specs.declared.error.WorkspaceError.TheVariants.{Graph};
ghost use Rattle.slotted_slots.specs.declared.error.Error.TheVariants.{OutOfMemory};

use slotted_messages::Message;
use slotted_rule_texts::RuleTextError;
use slotted_slots::Error as GraphError;
use std::alloc::{AllocError, AllocFailed};
use thiserror::Error;

/// The error of a call of a workspace.
#[derive(Debug, Drop, Error)]
pub enum WorkspaceError {
    /// The handle belongs to another workspace, or is too large.
    #[error("the handle is none of this workspace")]
    UnknownHandle,
    /// The text is none of a rule.
    #[error("{0}")]
    RuleText(RuleTextError),
    /// The graph returned this error.
    #[error("{message}", message = Message::of(.0))]
    Graph(GraphError),
}

impl From<GraphError> for WorkspaceError {
    ghost from_gives = { λ x e. e ≡ Graph x };

    fn from(error: GraphError) -> WorkspaceError {
        WorkspaceError::Graph(error)
    }
}

impl From<AllocError> for WorkspaceError {
    ghost from_gives = { λ _ e. e ≡ Graph OutOfMemory };

    fn from(_e: AllocError) -> WorkspaceError {
        WorkspaceError::Graph(GraphError::OutOfMemory)
    }
}

impl<T: Drop> From<AllocFailed<T>> for WorkspaceError {
    ghost from_gives = { λ _ e. e ≡ Graph OutOfMemory };

    fn from(_e: AllocFailed<T>) -> WorkspaceError {
        WorkspaceError::Graph(GraphError::OutOfMemory)
    }
}
