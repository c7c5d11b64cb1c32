//! Short maps for callers who bring the order of their keys. Nothing else of the library needs them.
#![tactic(auto)]

pub mod small_map;

pub use small_map::SmallHashMap;
