//! The language [`Small`] of the programs and of the tests, and the laws of its patterns and terms.
#![tactic(auto)]

pub mod order;
pub mod read_again;
pub mod small;

pub use small::Small;
