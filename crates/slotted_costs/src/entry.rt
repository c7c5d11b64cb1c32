//! The entries of a table of costs.
use slotted_slots::SlotMap;

/// The entry of a class: its cost, and a filed e-node of that cost.
#[derive(Drop)]
pub struct CostEntry<L, C> {
    /// The class.
    pub class: usize,
    /// The cost of the class.
    pub cost: C,
    /// The shape of the e-node.
    pub node: L,
    /// The source of the e-node.
    pub source: usize,
    /// The slot of the source for each number of the shape.
    pub names: SlotMap,
}
