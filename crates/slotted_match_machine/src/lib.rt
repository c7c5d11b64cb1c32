//! The matcher as a machine over numbers. A pattern is a list of steps, and filed e-nodes are rows of numbers. No
//! slot and no language is named.
//!
//! A name is a number here. An answer says what stands for the slots of a pattern, and which class and names each
//! variable stands for. [`search`] answers at all live classes, and [`search_class`] at one. The machine visits rows
//! depth first, and copies nothing but answers.
#![tactic(auto)]

pub mod answer;
pub mod index;
pub mod laws;
pub(crate) mod machine;
pub(crate) mod names;
pub(crate) mod pairing;
pub mod program;
pub(crate) mod run;
pub mod searching;
pub(crate) mod view;

pub use answer::{Answer, Occurrence};
pub use index::{ClassRows, IndexChild, IndexRow, RowIndex};
pub use program::{Source, Step};
pub use searching::{search, search_class};
