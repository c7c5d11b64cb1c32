//! The language [`SymbolLang`], whose operators need no declaration: an e-node is a word and its arguments.
#![tactic(auto)]

pub mod argument;
pub(crate) mod arguments;
pub mod list;
pub mod order;
pub mod read_again;
pub mod symbol_lang;

pub use argument::Argument;
pub use list::Arguments;
pub use symbol_lang::SymbolLang;
