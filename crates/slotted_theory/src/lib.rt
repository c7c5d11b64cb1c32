//! Terms with names and binders, what is derivable from equations between them, and finite maps of names.
//!
//! The definitions stand in `specs`. The crate has no program: its one function proves their laws.
#![tactic(auto)]

ghost use Rattle.slotted_theory.specs.Claims.{Laws};

/// Proves the laws that show the definitions to mean what they say.
///
/// What is derivable from equations between terms is what is equal over terms without bound names. From no equation
/// that is alpha-equality alone, and more equations derive more.
///
/// Alpha-equality is the usual one. Renaming, shapes, fresh bound names and finite maps go with it as they should.
pub fn laws_hold()
    ensures { Laws }
{}
