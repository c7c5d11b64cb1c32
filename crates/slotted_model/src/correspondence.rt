//! Correspondences: what an equation between two classes says of their slots, read up to renaming.

ghost use Rattle.slotted_model.specs.CorrespondenceClaims.{CorrespondenceLaws};

/// Proves the laws of correspondences.
///
/// Two equations over the same slots match if and only if they have one correspondence, and each partial injection is
/// one.
///
/// A transitive step can be made if and only if there are names for its middle, and a test decides whether there are.
///
/// The form with names numbered from 0, in the order in which they first occur, is a function of the correspondence
/// and determines it.
pub fn correspondence_laws_hold()
    ensures { CorrespondenceLaws }
{}
