//! Names for the terms of a workspace.

/// A term of a workspace, by the number of the workspace and the number of terms that were added before.
#[derive(Clone, Copy, Debug, PartialEq, Eq, Hash)]
pub struct Handle {
    pub workspace: u64,
    pub index: usize,
}
