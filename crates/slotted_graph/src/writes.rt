//! The writes of a graph over its parts, each followed by carrying data along. So no data is pending when a write has
//! ended.
//!
//! Each write has the clauses of the operation of the same name in `slotted_operations`, and says what the data has
//! become.

pub mod adding;
pub mod explaining;
pub mod uniting;
