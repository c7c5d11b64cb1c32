//! The e-nodes that terms of least cost are made of.
use slotted_slots::SlotMap;

/// The e-node of least cost of a class.
#[derive(Drop)]
pub struct TermEntry<L, C> {
    /// The cost of the class.
    pub cost: C,
    /// The number of classes that got their e-nodes before.
    pub rank: usize,
    /// The shape of the e-node.
    pub node: L,
    /// The slot of the class for each number of the shape that stands for one.
    pub names: SlotMap,
}
