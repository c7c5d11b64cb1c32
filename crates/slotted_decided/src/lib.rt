//! Runs and extraction over graphs that are decided.
//!
//! A rule may make a class equal itself with its slots in another order, as commutativity does. A run that decides the
//! graph after each turn finds the matches that need such a symmetry. In a decided graph no equal term costs less than
//! an extracted one.
#![tactic(auto)]

pub mod extracting;
pub mod running;

pub use extracting::{LeastTerm, extract_decided};
pub use running::{DecidedLimits, DecidedRun, DecidedStop, run_decided};
pub use slotted_deciding::{
    Explained, Verdict, decide, decided_eq, decided_explain, is_equal_up_to_symmetries, prove,
};
pub use slotted_extract::{
    AstSize, CostFunction, Extractor, ast_size_extract, extract, extract_by,
};
