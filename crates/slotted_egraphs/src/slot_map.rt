//! What goes through a slot map.

pub use slotted_slots::slot_map::{IntoIter, Iter, ValuesImmut};
