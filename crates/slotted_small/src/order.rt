//! The order of the nodes of `Small`.
ghost use Rattle.std.specs.Prelude.{◌≡◌};
ghost use Rattle.slotted_small.specs.SmallOrder.{small_cmp};

use crate::small::Small;

/// Proves how nodes are ordered: by their variants, as these are written, and nodes of one variant by their fields
/// from the left.
///
/// Slots, numbers and the classes of ids are compared by value, and words by their bytes.
pub fn small_is_ordered()
    ensures { (a b : Small) → ⟦<Small as Ord>⟧.cmp a b ≡ small_cmp a b }
{}
