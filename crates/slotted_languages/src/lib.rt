//! Languages: shapes, renaming and refreshing of nodes.
//!
//! A language is a type of nodes, mostly an enum with one variant for each operator. `slotted_nodes` says what a node
//! is, by its places and its children, and how a language is written by hand against [`LanguageChildren`].
//! [`Language`] adds the number of the operator, and gives all calls on whole nodes. `Small` in `slotted_small` is a
//! language.
//!
//! A crate that uses languages imports from here: what `slotted_nodes` has for that is exported again.
#![tactic(auto)]

pub(crate) mod fresh;
pub mod language;
pub mod outline;
pub(crate) mod places;
pub mod renaming;
pub mod shape;

pub use language::Language;
pub use shape::shapes_decide;
pub use slotted_nodes::{Bind, LanguageChildren, ReadBack, Symbol, pair};
