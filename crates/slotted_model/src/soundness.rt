//! Soundness: ids that are found equal stand for derivably equal terms, by proofs that are kept.

ghost use Rattle.slotted_model.specs.SoundnessClaims.{SoundnessLaws};

/// Proves the laws of `find`, of proof lists and of the steps of a union.
///
/// `find` ends at a live class, keeps only names that are used, and moves with names.
///
/// Each entry of a proof list holds if the explicit ones do. Two ids that are found equal are joined by one step over
/// kept proofs. So they stand for terms that are derivable from the asserted list, whatever names fill them.
///
/// New classes, new entries, links of two classes and redundant slots keep all this, and keep equal what was found
/// equal. A union makes its two sides found equal.
///
/// Two e-nodes of one normal form are equal by a step of congruence over children that are found equal.
pub fn soundness_laws_hold()
    ensures { SoundnessLaws }
{}
