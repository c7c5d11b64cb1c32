//! Graphs that decide symmetries.

ghost use Rattle.slotted_model_symmetries.specs.DecidingClaims.{DecidingLaws};

/// Proves the laws of ids that are equal up to symmetries.
///
/// Two ids are equal up to symmetries if a chain of symmetries leads from what the one finds to what the other finds.
/// In every rebuilt graph, such ids have derivably equal terms, whatever names fill redundant slots.
///
/// A graph is decided if each filed e-node with one child twisted is looked up as the e-node is, up to symmetries.
/// Then each e-node over children that are equal up to symmetries is looked up so. Any two ids of derivably equal
/// terms are equal up to symmetries, and each term that is equal to a represented one is looked up.
///
/// As a graph goes on, what was looked up stays so. So only twists that are new have to be tried again.
pub fn deciding_laws_hold()
    ensures { DecidingLaws }
{}
