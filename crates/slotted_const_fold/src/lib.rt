//! A worked analysis: constant folding over the language of `slotted_small`.
#![tactic(auto)]

pub mod const_fold;

pub use const_fold::{ConstFold, Fold};
