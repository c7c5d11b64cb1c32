//! What the text of a certificate says: terms, assertions, and instances of rules.
#![tactic(auto)]

pub mod claims;
pub mod distinct;
pub mod frames;
pub mod given;
pub mod instances;
pub mod puts;
pub mod rules;
pub mod scopes;
pub mod spelling;
pub mod substitution;
pub mod tokens;
