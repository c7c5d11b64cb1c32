//! Costs by operator, for the language [`SymbolLang`](slotted_symbols::SymbolLang).
#![tactic(auto)]

pub mod weights;

pub use weights::OperatorWeights;
