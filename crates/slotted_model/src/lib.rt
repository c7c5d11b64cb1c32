//! The abstract graph: classes by their syntactic e-nodes, the terms that applied ids stand for, and the id that
//! stands for a term.
//!
//! The definitions stand in `specs`. The crate has no program: its functions prove the laws.
#![tactic(auto)]

ghost use Rattle.slotted_model.specs.Claims.{Laws};

pub mod completeness;
pub mod correspondence;
pub mod extraction;
pub mod rest;
pub mod soundness;

/// Proves the laws that show the definitions to mean what they say.
///
/// A full id stands for one term, which has the id's names, moves with them, and tells the id apart from all others.
///
/// A tree is looked up if and only if some full id stands for it. A new class changes nothing of what was there.
///
/// If an id omits names, it does not matter by which names it is filled, as long as they are new.
pub fn laws_hold()
    ensures { Laws }
{}
