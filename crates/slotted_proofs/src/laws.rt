//! How a graph that enters equations keeps its proof list proved.

ghost use Rattle.slotted_proofs.specs.Claims.{ProofListLaws};
ghost use Rattle.slotted_proofs.specs.StepClaims.{StepLaws};

/// Proves the laws of entering.
///
/// Full ids may be asserted to be equal, each class equals itself, each entry can be turned round, and entries that
/// meet can be put together.
///
/// A list into which such a statement is entered stays proved, and storage stays sound. The entered statement stands
/// at the returned number. Nothing is asserted but by explicit entries.
pub fn proof_list_laws_hold()
    ensures { ProofListLaws }
{}

/// Proves the laws of steps that fit.
///
/// Two equations match if and only if they state the same. What a step that fits enters, over full ids of a graph, is
/// proved. So a list into which steps are entered stays proved.
///
/// The explicit entries that get a line in the proof of an entry are the explicit leaves of its tree. Their numbers
/// are among those of all explicit entries.
pub fn step_laws_hold()
    ensures { StepLaws }
{}
