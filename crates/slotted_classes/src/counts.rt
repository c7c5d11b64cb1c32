//! What the last rebuild of a graph did.

/// The last rebuild: how many e-nodes were filed and which size it found, which size it left, and how many turns it
/// took.
///
/// A turn is one e-node taken from the pending list. The size of a graph is the number of its live classes and of
/// their slots.
#[derive(Clone, Copy, Debug, PartialEq, Eq, Drop)]
pub struct RebuildCount {
    /// The number of e-nodes in the hashcons before the rebuild.
    pub nodes: usize,
    /// The size before the rebuild.
    pub size_before: u128,
    /// The size after the rebuild.
    pub size_after: u128,
    /// The number of turns.
    pub turns: u64,
}
