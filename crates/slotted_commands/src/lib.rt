//! The commands that ask a graph, over any language: what a line asks, and its answer.
#![tactic(auto)]

mod answer;
mod command;
mod explanation;
mod extraction;
pub mod session;

pub use answer::Answer;
pub use command::Command;
