//! Equations of applied ids, and the proof list.
#![tactic(auto)]

pub mod equation;
pub mod laws;
pub mod lines;
pub mod list;
mod numbering;
pub mod proof;
pub mod reasons;
pub mod steps;

pub use equation::Equation;
pub use lines::ProofLines;
pub use list::ProofList;
pub use numbering::shared_names;
pub use proof::{
    CongruenceProof, ExplicitProof, Proof, ProvenEq, ProvenEqRaw, ReflexivityProof, SymmetryProof,
    TransitivityProof,
};
