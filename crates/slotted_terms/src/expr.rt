//! Terms of a language as trees of nodes.
ghost use Rattle.std.specs.Prelude.{◌≡◌, ◌<◌, length, IfOk, IfErr, MatchResult};
ghost use Rattle.slotted_slots.specs.Error.{IsOutOfMemory};
ghost use Rattle.slotted_languages.specs.Filled.{term_of};
ghost use Rattle.slotted_outlines.specs.Seen.{AreTerms};

use crate::flat::{assemble_term, flatten};
use slotted_languages::language::Language;
use slotted_slots::Error;
use std::alloc::{AllocError, Global};
use std::marker::Model;

mod alpha;
mod debugging;
pub mod printing;

/// A term: a node, and the terms that stand in the places of its children. The child ids inside `node` are ignored.
pub struct RecExpr<L: Language> {
    pub node: L,
    pub children: Vec<RecExpr<L>>,
}

impl<L: Language> Model for RecExpr<L> {
    ghost use Rattle.slotted_theory.specs.Term.{Term, term_code, term_size};

    ghost Value = { Term };

    ghost coded = { term_code };

    ghost use Rattle.slotted_languages.specs.Filled.{term_of, children_smaller};
    ghost use Rattle.std.proofs.Common.{arith};

    ghost view = { λ e. term_of (L.form e.node) e.children.items };

    ghost size = { term_size };

    ghost size_decreases = { λ e h. omega (arith, children_smaller (L.form e.node) e.children.items) };
}

// The terms below are dropped in turn, so a deep term needs no deep stack.
impl<L: Language> Drop for RecExpr<L> {
    fn drop(self) {
        let RecExpr { node: _, children } = self;
        let mut left = children;
        while let Some(next) = left.pop() {
            let mut below = next.into_parts().1;
            let _ = left.append(&mut below);
        }
    }
}

impl<L: Language> RecExpr<L> {
    /// Returns the node and the terms under it, of which the term is made.
    pub fn into_parts(self) -> (L, Vec<RecExpr<L>>)
        ensures { term_of (L.form result.0) result.1.items ≡ self }
    {
        let RecExpr { node, children } = self;
        (node, children)
    }

    // Returns the operator of the term, which is one more than the node's: no term is a hole.
    fn operator(&self) -> u64
        ensures op { result ≡ self.now.op }
        ensures positive { 0 < result }
    {
        u64::from(self.node.operator()) + 1
    }

    /// Returns a term that equals this one.
    pub fn copy(&self, alloc: Global) -> Result<RecExpr<L>, Error>
        ensures ok { IfOk result (λ c. c ≡ self.now) }
        ensures err { IfErr result IsOutOfMemory }
    {
        let nodes = flatten(alloc, self)?;
        let copy = assemble_term(alloc, nodes)?;
        Ok(copy)
    }
}

impl<L: Language> Clone for RecExpr<L> {
    ghost is_clone = { λ e c. c ≡ e };

    fn clone(&self) -> Result<Self, AllocError>
        ensures cases { MatchResult result (λ c. c ≡ self.now) (λ _. ¬ ⊥) }
    {
        match self.copy(*self.children.allocator()) {
            Ok(copy) => Ok(copy),
            Err(_) => Err(AllocError),
        }
    }
}

// Returns how many terms stand in the row. Each of them has an operator.
fn term_count<L: Language>(row: &[RecExpr<L>]) -> usize
    ensures count { result ≡ length row.now }
    ensures terms { AreTerms row.now }
{
    let mut count = 0;
    for term in row {
        if term.operator() > 0 {
            count += 1;
        }
    }
    count
}
