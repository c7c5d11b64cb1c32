//! The terms of a workspace.
ghost use Rattle.std.specs.Prelude.{◌≡◌, ◌⊎◌, None, Some, IfOk, IfErr};
ghost use Rattle.slotted_workspace.specs.Keeping.{found_in};

use crate::error::WorkspaceError;
use crate::handle::Handle;
use slotted_languages::Language;
use slotted_slots::AppliedId;
use slotted_terms::expr::RecExpr;

/// A term that was added, with its id.
#[derive(Drop)]
pub(crate) struct Kept<L: Language> {
    pub(crate) id: AppliedId,
    pub(crate) term: RecExpr<L>,
}

/// Returns what a handle stands for, in the workspace with this number.
pub(crate) fn kept_at<L: Language>(
    kept: &[Kept<L>],
    number: u64,
    handle: Handle,
) -> Result<&Kept<L>, WorkspaceError>
    ensures ok { IfOk result (λ k. found_in kept.now number handle ≡ Some k.now) }
    ensures err { IfErr result (λ e. (e ≡ WorkspaceError.UnknownHandle) × (found_in kept.now number handle ≡ None)) }
{
    if handle.workspace != number || handle.index >= kept.len() {
        return Err(WorkspaceError::UnknownHandle);
    }
    Ok(&kept[handle.index])
}

/// Returns what two handles stand for, in the workspace with this number.
pub(crate) fn both_at<L: Language>(
    kept: &[Kept<L>],
    number: u64,
    left: Handle,
    right: Handle,
) -> Result<(&Kept<L>, &Kept<L>), WorkspaceError>
    ensures left { IfOk result (λ p. found_in kept.now number left ≡ Some p.0.now) }
    ensures right { IfOk result (λ p. found_in kept.now number right ≡ Some p.1.now) }
    ensures err { IfErr result (λ e. (e ≡ WorkspaceError.UnknownHandle)
        × ((found_in kept.now number left ≡ None) ⊎ (found_in kept.now number right ≡ None))) }
{
    let first = kept_at(kept, number, left)?;
    let second = kept_at(kept, number, right)?;
    Ok((first, second))
}
