//! Union by an entry of the proof list.
//!
//! Slots without a partner become redundant. Of two classes one dies and leads to the other. What an entry says of
//! one class, with its slots in another order, is listed as a symmetry. Paths that were walked are compressed.

pub mod dropping;
pub mod linking;
pub mod listing;
pub mod proving;
pub mod settling;
pub mod shortening;
pub mod uniting;
