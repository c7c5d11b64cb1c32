//! Data that is carried along once a graph is rebuilt, and not with each of its changes.

ghost use Rattle.slotted_model_analyses.specs.CarryClaims.{CarryLaws};

use crate::rebuild::Known;

/// Proves the laws of data that is carried along.
///
/// Take two rebuilt graphs, of which the newer goes on from the older, whatever was done between them. Let what each
/// class had be absorbed by what its class has now, and let the rows over classes with other data be pending. Then
/// the data is right but for what is pending.
///
/// Data that goes along with each step of a write is a case of this.
pub fn carry_laws_hold<D, P: Known>()
    ensures { CarryLaws D P.is_known }
{}
