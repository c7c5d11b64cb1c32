//! Extraction: a term of least cost, by any cost function that keeps its laws.
#![tactic(auto)]

pub mod extractor;

pub use extractor::{Extractor, ast_size_extract, extract, extract_by};
pub use slotted_costs::{AstSize, CostFunction};
