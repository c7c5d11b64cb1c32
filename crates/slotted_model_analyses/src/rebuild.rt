//! Rebuilding with data: what e-nodes make is merged upwards, until nothing changes.

ghost use Rattle.slotted_theory.specs.Nameless.{DTerm};
ghost use Rattle.slotted_model_analyses.specs.RunClaims.{RunLaws};

/// The nodes of which a caller's analysis speaks. Any relation serves.
pub trait Known {
    ghost is_known: { DTerm → Type 0 };
}

/// Proves the laws of rebuilding with data.
///
/// The graphs of a run with data are those of a run without it. Data goes along with each of its steps, and only ever
/// goes down.
///
/// What is not pending absorbs what its e-node makes of its children's data. So in a rebuilt graph all data does.
///
/// A run has no more turns, those for data alone included, than the size with the heights of all data allows. Each
/// run leads to a rebuilt graph.
pub fn run_laws_hold<D, P: Known>()
    ensures { RunLaws D P.is_known }
{}
