//! The proof list: numbered equations, each with the step that proves it.
ghost use Rattle.std.specs.Prelude.{◌≡◌, ◌<◌, ◌≤◌, ◌↔◌, ◌++◌, ◌∷◌, ℕ, [], false, length, IsTrue, IfSome, IfNone, IfOk, IfErr, OnOk, OnErr, IsErrOf, option_map, string_bytes};
ghost use Rattle.indexmap.specs.IndexMap.{insert_entry};
ghost use Rattle.slotted_theory.specs.FiniteMaps.{IsInjectiveMap};
ghost use Rattle.slotted_slots.specs.Error.{IsOutOfMemory, IsShortage};
ghost use Rattle.slotted_slots.specs.Table.{slot_limit};
ghost use Rattle.slotted_model.specs.Applied.{keys};
ghost use Rattle.slotted_proofs.specs.Equations.{statement_of, Meets, IsWritten, HaveManyNames, HasManySlots};
ghost use Rattle.slotted_proofs.specs.Entries.{proven_at, statement_at, step_of, text_of, proven_of, entries_of, is_explicit, explicit_numbers, Stands, IsNew, Enters, assertion, equality_entry, reflexive_entry, turned_entry, composite_entry};

use crate::equation::Equation;
use crate::numbering::{numbered, numbered_itself};
use crate::proof::{
    ExplicitProof, Proof, ProvenEq, ProvenEqRaw, ReflexivityProof, SymmetryProof, TransitivityProof,
};
use indexmap::IndexMap;
use slotted_slots::{AppliedId, Error};
use std::alloc::Global;
use std::hash::Hash;
use std::marker::Model;

/// The proof list: the proved equations, each once, in the order in which they were entered.
///
/// The list is seen as its entries. An entry has its equation up to renaming, the slots of its two classes, its step,
/// and the text of an asserted one. The equations that the list holds have numbered names.
#[derive(Drop)]
pub struct ProofList {
    entries: IndexMap<Equation, Proof>,
    asserted: Vec<ProvenEq>,
}

impl Model for ProofList {
    ghost use Rattle.std.specs.Prelude.{List, map};
    ghost use Rattle.slotted_proofs.specs.Entries.{Proven, proven_of};
    ghost use Rattle.slotted_proofs.specs.Stored.{AreWritten, IsListed};

    ghost Value = { List Proven };

    ghost view = { λ s. map (λ e. proven_of e.0 e.1) s.entries.entries };

    ghost invariant = { λ s. AreWritten s.entries.entries × IsListed s.entries.entries s.asserted.items };
}

impl ProofList {
    /// Returns the list without entries. Takes no memory.
    pub fn new(alloc: Global) -> ProofList
        ensures { result ≡ [] }
    {
        ProofList {
            entries: IndexMap::new(alloc),
            asserted: Vec::new(alloc),
        }
    }

    /// Returns the number of entries.
    pub fn len(&self) -> usize
        ensures { result ≡ length self.now }
    {
        self.entries.len()
    }

    /// Returns whether there are no entries.
    pub fn is_empty(&self) -> bool
        ensures { IsTrue result ↔ (self.now ≡ []) }
    {
        self.entries.is_empty()
    }

    /// Returns whether the number is that of an entry.
    pub fn is_valid(&self, p: ProvenEq) -> bool
        ensures { IsTrue result ↔ (p < length self.now) }
    {
        p.number() < self.len()
    }

    /// Returns the equation of an entry, with numbered names.
    pub fn equ(&self, p: ProvenEq) -> &Equation
        requires { p < length self.now }
        ensures { IsWritten (statement_at self.now p) result.now }
    {
        match self.entries.get_index(p.number()) {
            Some((equation, _)) => equation,
            None => unreachable!(),
        }
    }

    /// Returns the step by which an entry was proved.
    pub fn proof(&self, p: ProvenEq) -> &Proof
        requires { p < length self.now }
        ensures step { step_of result.now ≡ (proven_at self.now p).step }
        ensures text { text_of result.now ≡ (proven_at self.now p).text }
    {
        match self.entries.get_index(p.number()) {
            Some((_, proof)) => proof,
            None => unreachable!(),
        }
    }

    /// Returns a copy of an entry.
    pub fn entry(&self, alloc: Global, p: ProvenEq) -> Result<ProvenEqRaw, Error>
        requires { p < length self.now }
        ensures equation { IfOk result (λ x. IsWritten (statement_at self.now p) x.equ) }
        ensures step { IfOk result (λ x. step_of x.proof ≡ (proven_at self.now p).step) }
        ensures text { IfOk result (λ x. text_of x.proof ≡ (proven_at self.now p).text) }
        ensures err { IfErr result IsOutOfMemory }
    {
        ProvenEqRaw::of(alloc, self.equ(p), self.proof(p))
    }

    /// Returns the number of the entry with this equation, whose names are numbered.
    pub fn number_of(&self, equation: &Equation) -> Option<ProvenEq>
        requires { IsWritten (statement_of equation.now) equation.now }
        ensures found { IfSome result (Stands self.now (statement_of equation.now)) }
        ensures absent { IfNone result (IsNew self.now (statement_of equation.now)) }
    {
        match self.entries.get_index_of(equation) {
            Some(number) => Some(ProvenEq::at(number)),
            None => None,
        }
    }

    /// Returns the number of the entry with this equation, whose names are numbered. Enters it with this proof if
    /// there is none.
    ///
    /// The caller sees to it that the proof proves the equation.
    pub fn enter(&mut self, equation: Equation, proof: Proof) -> Result<ProvenEq, Error>
        requires { IsWritten (statement_of equation) equation }
        ensures ok { IfOk result (Enters self.old self.new (proven_of equation proof)) }
        ensures memory { IfErr result IsOutOfMemory }
        ensures err { OnErr result (self.new ≡ self.old) }
    {
        if let Some(number) = self.number_of(&equation) {
            drop(proof);
            drop(equation);
            return Ok(number);
        }
        if proof.is_explicit() {
            return self.push_asserted(equation, proof);
        }
        let last = ProvenEq::at(self.len());
        put(&mut self.entries, equation, proof)?;
        Ok(last)
    }

    // Adds a new equation, which is asserted, at the end.
    fn push_asserted(&mut self, equation: Equation, proof: Proof) -> Result<ProvenEq, Error>
        requires written { IsWritten (statement_of equation) equation }
        requires new { IsNew self.old (statement_of equation) }
        requires step { IsTrue (is_explicit (step_of proof)) }
        ensures ok { OnOk result (self.new ≡ self.old ++ proven_of equation proof ∷ []) }
        ensures number { IfOk result (λ p. p ≡ length self.old) }
        ensures memory { IfErr result IsOutOfMemory }
        ensures err { OnErr result (self.new ≡ self.old) }
    {
        let last = ProvenEq::at(self.len());
        self.asserted.reserve(1)?;
        put(&mut self.entries, equation, proof)?;
        self.asserted.push_reserved(last);
        Ok(last)
    }

    /// Returns the numbers of the asserted entries, in the order in which they were entered.
    pub fn asserted(&self) -> &[ProvenEq]
        ensures { result.now ≡ explicit_numbers (entries_of self.now) }
    {
        &self.asserted
    }

    /// Returns the number of the entry that two applied ids are equal. Enters it with this proof if there is none.
    ///
    /// The caller sees to it that the proof proves the equation.
    pub fn enter_equality(
        &mut self,
        alloc: Global,
        l: &AppliedId,
        r: &AppliedId,
        proof: Proof,
    ) -> Result<ProvenEq, Error>
        requires left { IsInjectiveMap l.now.m }
        requires right { IsInjectiveMap r.now.m }
        ensures ok { IfOk result (Enters self.old self.new (equality_entry l.now r.now proof)) }
        ensures full { IsErrOf result Error.OutOfSlots ↔ HaveManyNames l.now.m r.now.m }
        ensures only { IfErr result IsShortage }
        ensures err { OnErr result (self.new ≡ self.old) }
    {
        let equation = numbered(alloc, l, r)?;
        self.enter(equation, proof)
    }

    // The steps. Each returns the number at which its equation stands from now on, and enters it if it is new.

    /// Enters that two applied ids are equal because the caller says so, with a text or without one.
    pub fn enter_explicit(
        &mut self,
        alloc: Global,
        l: &AppliedId,
        r: &AppliedId,
        text: Option<String>,
    ) -> Result<ProvenEq, Error>
        requires left { IsInjectiveMap l.now.m }
        requires right { IsInjectiveMap r.now.m }
        ensures ok { IfOk result (Enters self.old self.new (assertion l.now r.now (option_map string_bytes text))) }
        ensures full { IsErrOf result Error.OutOfSlots ↔ HaveManyNames l.now.m r.now.m }
        ensures only { IfErr result IsShortage }
        ensures err { OnErr result (self.new ≡ self.old) }
    {
        self.enter_equality(alloc, l, r, Proof::Explicit(ExplicitProof(text)))
    }

    /// Enters that an applied id equals itself.
    pub fn enter_reflexive(&mut self, alloc: Global, a: &AppliedId) -> Result<ProvenEq, Error>
        requires { IsInjectiveMap a.now.m }
        ensures ok { IfOk result (Enters self.old self.new (reflexive_entry a.now.id.0 (keys a.now.m))) }
        ensures full { IsErrOf result Error.OutOfSlots ↔ (slot_limit ≤ length a.now.m) }
        ensures only { IfErr result IsShortage }
        ensures err { OnErr result (self.new ≡ self.old) }
    {
        let equation = numbered_itself(alloc, a)?;
        self.enter(equation, Proof::Reflexivity(ReflexivityProof))
    }

    /// Enters the equation of an entry, turned round.
    pub fn enter_symmetric(&mut self, alloc: Global, p: ProvenEq) -> Result<ProvenEq, Error>
        requires { p < length self.old }
        ensures ok { IfOk result (Enters self.old self.new (turned_entry self.old p)) }
        ensures full { IsErrOf result Error.OutOfSlots ↔ HasManySlots (statement_at self.old p) }
        ensures only { IfErr result IsShortage }
        ensures err { OnErr result (self.new ≡ self.old) }
    {
        let equation = self.equ(p).turned(alloc)?;
        self.enter(equation, Proof::Symmetry(SymmetryProof(p)))
    }

    /// Enters the equations of two entries, put together one after the other.
    ///
    /// Two slots share a name if and only if they share one with the same slot in the middle.
    pub fn enter_transitive(
        &mut self,
        alloc: Global,
        p: ProvenEq,
        q: ProvenEq,
    ) -> Result<ProvenEq, Error>
        requires first { p < length self.old }
        requires second { q < length self.old }
        requires meets { Meets (statement_at self.old p) (statement_at self.old q) }
        ensures ok { IfOk result (Enters self.old self.new (composite_entry self.old p q)) }
        ensures full { IsErrOf result Error.OutOfSlots ↔ HasManySlots (composite_entry self.old p q).statement }
        ensures only { IfErr result IsShortage }
        ensures err { OnErr result (self.new ≡ self.old) }
    {
        let equation = self.equ(p).composite(alloc, self.equ(q))?;
        self.enter(equation, Proof::Transitivity(TransitivityProof(p, q)))
    }
}

// Puts a value at a key, and drops the value that was there.
fn put<K: Eq + Hash + Drop, V: Drop>(
    map: &mut IndexMap<K, V>,
    key: K,
    value: V,
) -> Result<(), Error>
    ensures ok { OnOk result (map.new.entries ≡ insert_entry K.eq map.old.entries key value) }
    ensures memory { IfErr result IsOutOfMemory }
    ensures err { OnErr result (map.new.entries ≡ map.old.entries) }
{
    map.insert(key, value)?;
    Ok(())
}
