//! The hashcons of a graph, and canonical e-nodes.
//!
//! The hashcons holds the e-node that is *filed* for each class: its shape, when it was last made canonical. The class
//! whose syntactic e-node a filed one was made of is its *source*. A class is *pending* if its e-node waits to be
//! filed anew.
//!
//! The usages say which sources stand over a class, and the sizes how large each class is. In a canonical e-node each
//! child is what `find` maps it to. Making one writes nothing.
#![tactic(auto)]

pub mod class_names;
pub mod covered;
pub mod found;
pub mod hashcons;
pub mod index;
pub mod keys;
pub mod normal;
pub mod sides;
pub mod sizes;
pub mod usages;
pub mod worklist;

pub use found::FoundNode;
pub use hashcons::Hashcons;
pub use index::NodeIndex;
pub use sizes::Sizes;
pub use usages::Usages;
pub use worklist::Worklist;
