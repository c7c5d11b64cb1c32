//! Two terms side by side: the place where they differ, marked in the texts of both.
#![tactic(auto)]

mod around;
mod differing;
pub mod marking;
pub mod naming;

pub use marking::{Marked, mark_change, texts_of_change};
pub use naming::named_like;
