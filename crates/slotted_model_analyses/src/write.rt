//! Writes with data: each leads from one rebuilt graph to another.

ghost use Rattle.slotted_model_analyses.specs.WriteClaims.{WriteLaws};

use crate::rebuild::Known;

/// Proves the laws of writes with data.
///
/// A value that is merged into the data of a class stays there: merging it again changes nothing, and leaves the
/// graph as it was.
///
/// A new class absorbs what its e-node makes of its children's data. If two classes become one, the data of that
/// class absorbs what both had.
pub fn write_laws_hold<D, P: Known>()
    ensures { WriteLaws D P.is_known }
{}
