//! The order of lines in which a proof is printed.
ghost use Rattle.std.specs.Prelude.{All, ◌↔◌, ◌≡◌, ◌∷◌, ◌++◌, ◌<◌, [], length, position, slice_get, nat_eq, Some, false, IsTrue, IfOk, IfErr, OnOk};
ghost use Rattle.slotted_slots.specs.Error.{IsOutOfMemory};
ghost use Rattle.slotted_proofs.specs.Lines.{Lines as LinesOf, PartsAreEarlier, TakesTurn, first_new, has_line, parts_at};

use crate::list::ProofList;
use crate::proof::{Proof, ProvenEq};
use indexmap::IndexSet;
use slotted_slots::Error;
use std::alloc::Global;
use std::marker::Model;

/// The entries of a printed proof in the order of their lines. Parts come first, and each entry has one line.
#[derive(Drop)]
pub struct ProofLines {
    entries: IndexSet<ProvenEq>,
}

impl Model for ProofLines {
    ghost use Rattle.std.specs.Prelude.{List, ℕ};

    ghost Value = { List ℕ };

    ghost view = { λ s. s.entries.keys };
}

impl ProofLines {
    fn new(alloc: Global) -> ProofLines
        ensures { result ≡ [] }
    {
        ProofLines {
            entries: IndexSet::new(alloc),
        }
    }

    /// Returns the number of lines.
    pub fn len(&self) -> usize
        ensures { result ≡ length self.now }
    {
        self.entries.len()
    }

    /// Returns whether there are no lines.
    pub fn is_empty(&self) -> bool
        ensures { IsTrue result ↔ (self.now ≡ []) }
    {
        self.entries.len() == 0
    }

    /// Returns whether the entry has a line.
    pub fn has(&self, p: ProvenEq) -> bool
        ensures { result ≡ has_line self.now p }
    {
        self.entries.contains(&p)
    }

    /// Returns the number of an entry's line, from 0 on.
    pub fn line_of(&self, p: ProvenEq) -> Option<usize>
        ensures { result ≡ position (nat_eq p) self.now }
    {
        self.entries.get_index_of(&p)
    }

    /// Returns the entry of a line.
    pub fn get(&self, i: usize) -> Option<ProvenEq>
        ensures { result ≡ slice_get self.now i }
    {
        match self.entries.get_index(i) {
            Some(p) => Some(*p),
            None => None,
        }
    }

    // Gives the entry the next line.
    fn push(&mut self, p: ProvenEq) -> Result<(), Error>
        requires { has_line self.old p ≡ false }
        ensures ok { OnOk result (self.new ≡ self.old ++ p ∷ []) }
        ensures err { IfErr result IsOutOfMemory }
    {
        self.entries.insert(p)?;
        Ok(())
    }

    // Returns the first of some entries that has no line.
    fn first_new(&self, parts: &[ProvenEq]) -> Option<ProvenEq>
        ensures { result ≡ first_new self.now parts.now }
    {
        for part in parts {
            if !self.has(*part) {
                return Some(*part);
            }
        }
        None
    }
}

impl ProofList {
    // Returns the first part of an entry that has no line.
    fn first_part(&self, lines: &ProofLines, p: ProvenEq) -> Option<ProvenEq>
        requires { p < length self.now }
        ensures { result ≡ first_new lines.now (parts_at self.now p) }
    {
        match self.proof(p) {
            Proof::Explicit(_) => None,
            Proof::Reflexivity(_) => None,
            Proof::Symmetry(proof) => lines.first_new(&[proof.0]),
            Proof::Transitivity(proof) => lines.first_new(&[proof.0, proof.1]),
            Proof::Congruence(proof) => lines.first_new(&proof.0),
        }
    }

    // Returns whether the parts of an entry stand at earlier numbers.
    fn stands_on_earlier(&self, p: ProvenEq) -> bool
        requires { p < length self.now }
        ensures { IsTrue result ↔ All (λ q. q < p) (parts_at self.now p) }
    {
        match self.proof(p) {
            Proof::Explicit(_) => true,
            Proof::Reflexivity(_) => true,
            Proof::Symmetry(proof) => are_before(&[proof.0], p),
            Proof::Transitivity(proof) => are_before(&[proof.0, proof.1], p),
            Proof::Congruence(proof) => are_before(&proof.0, p),
        }
    }

    /// Returns whether the parts of each entry stand at earlier numbers.
    ///
    /// They do in a list into which only proved steps were entered.
    pub fn has_earlier_parts(&self) -> bool
        ensures { IsTrue result ↔ PartsAreEarlier self.now }
    {
        for i in 0..self.len() {
            if !self.stands_on_earlier(ProvenEq::at(i)) {
                return false;
            }
        }
        true
    }

    // Gives the entry from the top of a stack its line, or puts it back below its first part that has none.
    fn take_turn(
        &self,
        lines: &mut ProofLines,
        stack: &mut Vec<ProvenEq>,
        top: ProvenEq,
    ) -> Result<(), Error>
        requires within { top < length self.now }
        requires new { has_line lines.old top ≡ false }
        ensures ok { OnOk result (TakesTurn self.now top lines.old lines.new stack.old.items stack.new.items) }
        ensures err { IfErr result IsOutOfMemory }
    {
        match self.first_part(lines, top) {
            Some(part) => {
                stack.push(top)?;
                stack.push(part)?;
                Ok(())
            }
            None => lines.push(top),
        }
    }

    /// Returns the lines of an entry's proof: one for each entry that it stands on, parts first.
    ///
    /// The order is depth first, from the first part that has no line yet.
    pub fn lines(&self, alloc: Global, p: ProvenEq) -> Result<ProofLines, Error>
        requires within { p < length self.now }
        requires earlier { PartsAreEarlier self.now }
        ensures ok { IfOk result (λ lines. LinesOf self.now [] (p ∷ []) lines) }
        ensures err { IfErr result IsOutOfMemory }
    {
        let mut stack = Vec::new(alloc);
        stack.push(p)?;
        let mut lines = ProofLines::new(alloc);
        while let Some(top) = stack.pop() {
            self.take_turn(&mut lines, &mut stack, top)?;
        }
        Ok(lines)
    }
}

// Returns whether all entries stand before the one.
fn are_before(parts: &[ProvenEq], p: ProvenEq) -> bool
    ensures { IsTrue result ↔ All (λ q. q < p) parts.now }
{
    for part in parts {
        if part.number() >= p.number() {
            return false;
        }
    }
    true
}
