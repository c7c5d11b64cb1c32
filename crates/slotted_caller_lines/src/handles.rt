//! Handles of a workspace, and handles that are refused.
use slotted_small::Small;
use slotted_workspace::{Handle, Workspace, WorkspaceError};
use std::alloc::Global;

// Returns whether a handle was refused.
fn is_unknown<T: Drop>(outcome: Result<T, WorkspaceError>) -> bool {
    matches!(outcome, Err(WorkspaceError::UnknownHandle))
}

// Returns whether handles count the terms, and those of other workspaces are refused.
fn are_told_apart(workspace: &mut Workspace<Small>) -> Result<bool, WorkspaceError> {
    let first = workspace.add("(app a b)")?;
    let second = workspace.add("(app a b)")?;
    let counted = first.index == 0
        && second
            == Handle {
                workspace: 7,
                index: 1,
            };
    let foreign = Handle {
        workspace: 8,
        index: 0,
    };
    let large = Handle {
        workspace: 7,
        index: 2,
    };
    Ok(
        counted
            && workspace.eq(first, second)?
            && is_unknown(workspace.eq(first, foreign))
            && is_unknown(workspace.union(large, first))
            && is_unknown(workspace.extract(foreign)),
    )
}

/// Returns whether handles of a new workspace are told apart from others.
pub fn are_checked(alloc: Global) -> Result<bool, WorkspaceError> {
    let mut workspace: Workspace<Small> = Workspace::with_number(alloc, 7)?;
    let answer = are_told_apart(&mut workspace);
    let _ = workspace.into_table();
    answer
}
