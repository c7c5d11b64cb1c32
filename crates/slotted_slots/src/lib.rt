//! Slots and their table, slot maps, small sets, ids and applied ids, tokens, and the errors of the library.
#![tactic(auto)]

pub mod error;
pub mod laws;
pub mod parse;
pub mod slot;
pub mod slot_map;
pub mod small;
pub mod types;

pub use error::Error;
pub use parse::{ParseError, SyntaxElem, Token};
pub use slot::{Show, Shown, Slot, SlotTable};
pub use slot_map::SlotMap;
pub use small::SmallHashSet;
pub use types::{AppliedId, Id};
