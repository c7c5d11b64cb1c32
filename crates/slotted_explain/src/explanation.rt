//! The explanation of an equation: an entry of a graph's proof list.
ghost use Rattle.std.specs.Prelude.{◌≡◌, ◌⊎◌, ◌↔◌, ◌<◌, ℕ, length, string_bytes, IsTrue, IfOk, IfErr, IsErrOf};
ghost use Rattle.slotted_slots.specs.Error.{IsShortage};
ghost use Rattle.slotted_proofs.specs.Entries.{proven_at, statement_at, step_of, text_of};
ghost use Rattle.slotted_proofs.specs.Equations.{IsWritten};
ghost use Rattle.slotted_graph.specs.Graph.{OnlyTakesSlots};
ghost use Rattle.slotted_explain.specs.Printed.{IsProofText, MakesForProof, ProofRunsOut};
ghost use Rattle.slotted_explain.specs.Chain.{ChainRunsOut, MakesForChain};

use crate::flat::{ChainForm, chain_text};
use crate::print::lines_text;
use crate::steps::flat_steps;
use slotted_data::Analysis;
use slotted_graph::EGraph;
use slotted_languages::Language;
use slotted_proofs::{Equation, Proof, ProvenEq, ProvenEqRaw};
use slotted_slots::Error;
use slotted_terms::expr::printing::Printable;
use std::alloc::Global;

/// An entry of a graph's proof list: the equation that it proves, and how. `EGraph::is_valid_proof` has to hold of the
/// entry in each call.
pub trait Explanation {
    // The number of the entry in the list.
    ghost number: { Self → ℕ };

    /// Returns the equation, with numbered names.
    fn equ<L: Language, N: Analysis<L>>(self, graph: &EGraph<L, N>) -> &Equation
        requires { number self < length graph.now.image.entries }
        ensures { IsWritten (statement_at graph.now.image.stored (number self)) result.now };

    /// Returns the step by which the equation was proved.
    fn proof<L: Language, N: Analysis<L>>(self, graph: &EGraph<L, N>) -> &Proof
        requires { number self < length graph.now.image.entries }
        ensures step { step_of result.now ≡ (proven_at graph.now.image.stored (number self)).step }
        ensures text { text_of result.now ≡ (proven_at graph.now.image.stored (number self)).text };

    /// Returns a copy of the entry.
    fn entry<L: Language, N: Analysis<L>>(
        self,
        alloc: Global,
        graph: &EGraph<L, N>,
    ) -> Result<ProvenEqRaw, Error>
        requires { IsTrue graph.now.failed ⊎ (number self < length graph.now.image.entries) }
        ensures equation { IfOk result (λ x. IsWritten (statement_at graph.now.image.stored (number self)) x.equ) }
        ensures step { IfOk result (λ x. step_of x.proof ≡ (proven_at graph.now.image.stored (number self)).step) }
        ensures text { IfOk result (λ x. text_of x.proof ≡ (proven_at graph.now.image.stored (number self)).text) }
        ensures failed { IsErrOf result Error.Failed ↔ IsTrue graph.now.failed }
        ensures only { IfErr result (λ e. (e ≡ Error.Failed) ⊎ (e ≡ Error.OutOfMemory)) };

    /// Returns the proof as lines: one for each entry that the proof uses, each once, parts first, numbered from 0.
    ///
    /// A line is `i: l = r by X`, and ends with a line feed. The sides are canonical terms. X is the debug form of the
    /// optional text, or a step: `refl`, `symmetry(a)`, `transitivity(a, b)` or `congruence(a, b)`. The numbers in a
    /// step are those of the lines of its parts.
    fn to_string<L: Printable, N: Analysis<L>>(
        self,
        alloc: Global,
        graph: &mut EGraph<L, N>,
    ) -> Result<String, Error>
        requires { IsTrue graph.old.failed ⊎ (number self < length graph.old.image.entries) }
        ensures text { IfOk result (λ s. IsProofText L.written graph.old graph.new (number self) (string_bytes s)) }

        // Only fresh slots are made, no more than the sides of the lines have binders. An error does not fail the
        // graph.
        ensures takes { OnlyTakesSlots graph.old graph.new }
        ensures stays { IsTrue graph.old.failed → graph.new ≡ graph.old }
        ensures count { MakesForProof graph.old graph.new (number self) }

        ensures failed { IsErrOf result Error.Failed ↔ IsTrue graph.old.failed }
        ensures full { IsErrOf result Error.OutOfSlots → ProofRunsOut graph.old graph.new (number self) }
        ensures only { IfErr result (λ e. (e ≡ Error.Failed) ⊎ IsShortage e) };

    /// Returns the proof as a chain of terms. The canonical term of the left side comes first. For each assertion that
    /// the proof uses, in the order of use, a line feed follows, and the whole term after that step.
    ///
    /// In each of these terms the subterm that was put in is written `(Rewrite=> J T)`. If the assertion is used from
    /// right to left, it is written `(Rewrite<= J T)`. J is the text of the assertion, or `-` if it has none.
    ///
    /// The names are those of the left side's term. A name that only the other side of an assertion has is kept. If the
    /// term has that name already, a number is written for it.
    fn to_flat_string<L: Printable, N: Analysis<L>>(
        self,
        alloc: Global,
        graph: &mut EGraph<L, N>,
    ) -> Result<String, Error>
        requires { IsTrue graph.old.failed ⊎ (number self < length graph.old.image.entries) }

        // Only fresh slots are made, no more than the terms of the chain have binders. An error does not fail the
        // graph.
        ensures takes { OnlyTakesSlots graph.old graph.new }
        ensures stays { IsTrue graph.old.failed → graph.new ≡ graph.old }
        ensures count { MakesForChain graph.old graph.new (number self) }

        ensures failed { IsErrOf result Error.Failed ↔ IsTrue graph.old.failed }
        ensures full { IsErrOf result Error.OutOfSlots → ChainRunsOut graph.old graph.new (number self) }
        ensures only { IfErr result (λ e. (e ≡ Error.Failed) ⊎ IsShortage e) };

    /// Returns the proof as a chain of terms for people. For each assertion that the proof uses, in the order of use, it
    /// has the whole term before that step, `  = by J`, and the whole term after it, each in a line of its own. A proof
    /// that uses none has the term alone.
    ///
    /// In both terms the smallest place that the step changes stands between `[` and `]`, as slotted_changes marks it. A
    /// term whose line stands already is not written again. J is the text of the assertion, or `-` if it has none, with
    /// `, backwards` if it is used from right to left. The terms are those of `to_flat_string`. Bound names stay from
    /// line to line as far as the terms have the same e-nodes, as by `named_like` of slotted_changes.
    fn to_marked_string<L: Printable, N: Analysis<L>>(
        self,
        alloc: Global,
        graph: &mut EGraph<L, N>,
    ) -> Result<String, Error>
        requires { IsTrue graph.old.failed ⊎ (number self < length graph.old.image.entries) }

        // Only fresh slots are made, no more than the terms of the chain have binders. An error does not fail the
        // graph.
        ensures takes { OnlyTakesSlots graph.old graph.new }
        ensures stays { IsTrue graph.old.failed → graph.new ≡ graph.old }
        ensures count { MakesForChain graph.old graph.new (number self) }

        ensures failed { IsErrOf result Error.Failed ↔ IsTrue graph.old.failed }
        ensures full { IsErrOf result Error.OutOfSlots → ChainRunsOut graph.old graph.new (number self) }
        ensures only { IfErr result (λ e. (e ≡ Error.Failed) ⊎ IsShortage e) };
}

impl Explanation for ProvenEq {
    ghost number = { λ p. p };

    fn equ<L: Language, N: Analysis<L>>(self, graph: &EGraph<L, N>) -> &Equation {
        graph.proofs().equ(self)
    }

    fn proof<L: Language, N: Analysis<L>>(self, graph: &EGraph<L, N>) -> &Proof {
        graph.proofs().proof(self)
    }

    fn entry<L: Language, N: Analysis<L>>(
        self,
        alloc: Global,
        graph: &EGraph<L, N>,
    ) -> Result<ProvenEqRaw, Error> {
        if graph.is_failed() {
            return Err(Error::Failed);
        }
        graph.proofs().entry(alloc, self)
    }

    fn to_string<L: Printable, N: Analysis<L>>(
        self,
        alloc: Global,
        graph: &mut EGraph<L, N>,
    ) -> Result<String, Error> {
        if graph.is_failed() {
            return Err(Error::Failed);
        }
        let lines = graph.proofs().lines(alloc, self)?;
        let text = lines_text(alloc, graph, &lines)?;
        Ok(text)
    }

    fn to_flat_string<L: Printable, N: Analysis<L>>(
        self,
        alloc: Global,
        graph: &mut EGraph<L, N>,
    ) -> Result<String, Error> {
        if graph.is_failed() {
            return Err(Error::Failed);
        }
        let steps = flat_steps(alloc, graph.proofs(), self)?;
        let text = chain_text(alloc, graph, self, &steps, ChainForm::Flat)?;
        Ok(text)
    }

    fn to_marked_string<L: Printable, N: Analysis<L>>(
        self,
        alloc: Global,
        graph: &mut EGraph<L, N>,
    ) -> Result<String, Error> {
        if graph.is_failed() {
            return Err(Error::Failed);
        }
        let steps = flat_steps(alloc, graph.proofs(), self)?;
        let text = chain_text(alloc, graph, self, &steps, ChainForm::Marked)?;
        Ok(text)
    }
}
