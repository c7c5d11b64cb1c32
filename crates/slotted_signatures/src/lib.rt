//! Which operators there are and what arguments they take, as examples declare it while a program runs.
#![tactic(auto)]

pub mod kind;
pub mod misuse;
pub mod reading;
pub mod signature;
pub mod signatures;

pub use kind::Kind;
pub use misuse::{Fault, Misuse};
pub use signature::Signature;
pub use signatures::Signatures;
