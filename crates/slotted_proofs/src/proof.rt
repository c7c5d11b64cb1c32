//! The steps by which equations are proved.
ghost use Rattle.std.specs.Prelude.{◌≡◌, IfOk, IfErr, option_map, string_bytes};
ghost use Rattle.slotted_slots.specs.Error.{IsOutOfMemory};
ghost use Rattle.slotted_proofs.specs.Entries.{step_of, text_of, is_explicit};

use crate::equation::Equation;
use slotted_slots::Error;
use std::alloc::Global;
use std::marker::Model;

/// The number of an entry of a proof list, seen as that number.
#[derive(Clone, Copy, Debug, PartialEq, Eq, PartialOrd, Ord, Hash)]
pub struct ProvenEq(usize);

impl Model for ProvenEq {
    ghost use Rattle.std.specs.Prelude.{ℕ};

    ghost Value = { ℕ };

    ghost view = { λ p. p.0 };

    ghost inverse = { λ n. record { 0 = n } };
}

impl ProvenEq {
    // Returns the entry of this number.
    pub(crate) const fn at(number: usize) -> ProvenEq
        ensures { result ≡ number }
    {
        ProvenEq(number)
    }

    /// Returns the number, from 0 on.
    pub const fn number(self) -> usize
        ensures { result ≡ self }
    {
        self.0
    }
}

/// The step of an equation that was asserted, with a text or without one.
#[derive(Clone, Debug, Drop)]
pub struct ExplicitProof(pub Option<String>);

/// The step of an equation whose sides are equal.
#[derive(Clone, Copy, Debug)]
pub struct ReflexivityProof;

/// The step that turns the equation of its part round.
#[derive(Clone, Copy, Debug)]
pub struct SymmetryProof(pub ProvenEq);

/// The step that puts the equations of its two parts together, one after the other.
#[derive(Clone, Copy, Debug)]
pub struct TransitivityProof(pub ProvenEq, pub ProvenEq);

/// The step of congruence: the e-nodes of the two sides agree, with a part for each child.
#[derive(Clone, Debug, Drop)]
pub struct CongruenceProof(pub Vec<ProvenEq>);

/// The step by which an equation was proved.
#[derive(Clone, Debug, Drop)]
pub enum Proof {
    Explicit(ExplicitProof),
    Reflexivity(ReflexivityProof),
    Symmetry(SymmetryProof),
    Transitivity(TransitivityProof),
    Congruence(CongruenceProof),
}

impl ExplicitProof {
    /// Returns a proof with the same text.
    pub fn copy(&self, alloc: Global) -> Result<ExplicitProof, Error>
        ensures ok { IfOk result (λ c. option_map string_bytes c.0 ≡ option_map string_bytes self.now.0) }
        ensures err { IfErr result IsOutOfMemory }
    {
        match &self.0 {
            Some(text) => Ok(ExplicitProof(Some(String::from_str(alloc, text.as_str())?))),
            None => Ok(ExplicitProof(None)),
        }
    }
}

impl CongruenceProof {
    /// Returns a proof with the same parts.
    pub fn copy(&self, alloc: Global) -> Result<CongruenceProof, Error>
        ensures ok { IfOk result (λ c. c.0.items ≡ self.now.0.items) }
        ensures err { IfErr result IsOutOfMemory }
    {
        Ok(CongruenceProof(Vec::from_slice(alloc, &self.0)?))
    }
}

impl Proof {
    /// Returns whether the equation was asserted.
    pub const fn is_explicit(&self) -> bool
        ensures { result ≡ is_explicit (step_of self.now) }
    {
        matches!(self, Proof::Explicit(_))
    }

    /// Returns a proof by the same step, with the same text.
    pub fn copy(&self, alloc: Global) -> Result<Proof, Error>
        ensures step { IfOk result (λ c. step_of c ≡ step_of self.now) }
        ensures text { IfOk result (λ c. text_of c ≡ text_of self.now) }
        ensures err { IfErr result IsOutOfMemory }
    {
        match self {
            Proof::Explicit(proof) => Ok(Proof::Explicit(proof.copy(alloc)?)),
            Proof::Reflexivity(proof) => Ok(Proof::Reflexivity(*proof)),
            Proof::Symmetry(proof) => Ok(Proof::Symmetry(*proof)),
            Proof::Transitivity(proof) => Ok(Proof::Transitivity(*proof)),
            Proof::Congruence(proof) => Ok(Proof::Congruence(proof.copy(alloc)?)),
        }
    }
}

/// An entry of a proof list by itself, compared and hashed by its equation.
#[derive(Clone, Debug, Drop)]
#[derive_where(PartialEq, Eq, Hash)]
pub struct ProvenEqRaw {
    /// The equation.
    pub equ: Equation,
    /// The step by which the equation was proved.
    #[derive_where(skip(EqHashOrd))]
    pub proof: Proof,
}

impl ProvenEqRaw {
    // Returns an entry with copies of an equation and of a proof.
    pub(crate) fn of(alloc: Global, equ: &Equation, proof: &Proof) -> Result<ProvenEqRaw, Error>
        ensures equation { IfOk result (λ c. c.equ ≡ equ.now) }
        ensures step { IfOk result (λ c. step_of c.proof ≡ step_of proof.now) }
        ensures text { IfOk result (λ c. text_of c.proof ≡ text_of proof.now) }
        ensures err { IfErr result IsOutOfMemory }
    {
        let equ = equ.copy(alloc)?;
        let proof = proof.copy(alloc)?;
        Ok(ProvenEqRaw { equ, proof })
    }

    /// Returns an entry with the same equation, by the same step, with the same text.
    pub fn copy(&self, alloc: Global) -> Result<ProvenEqRaw, Error>
        ensures equation { IfOk result (λ c. c.equ ≡ self.now.equ) }
        ensures step { IfOk result (λ c. step_of c.proof ≡ step_of self.now.proof) }
        ensures text { IfOk result (λ c. text_of c.proof ≡ text_of self.now.proof) }
        ensures err { IfErr result IsOutOfMemory }
    {
        ProvenEqRaw::of(alloc, &self.equ, &self.proof)
    }
}
