//! Proof steps, each accepted if and only if it is right.
ghost use Rattle.std.specs.Prelude.{◌≡◌, ◌⊎◌, ◌↔◌, IsTrue, IfOk, OnErr, IfErr, IsErrOf};
ghost use Rattle.slotted_model.specs.ProofList.{Step, reflexive, symmetric, transitive, congruent};
ghost use Rattle.slotted_proofs.specs.Steps.{IsRefusal};
ghost use Rattle.slotted_operations.specs.Checks.{Fits, CanRunOut, Accepts, IsDerivable, FollowsFromEntry, entry_by};
ghost use Rattle.slotted_graph.specs.States.{IsGraph};

use crate::egraph::EGraph;
use slotted_data::Analysis;
use slotted_languages::Language;
use slotted_operations::checking;
use slotted_proofs::{
    CongruenceProof, Equation, ProvenEq, ReflexivityProof, SymmetryProof, TransitivityProof,
};
use slotted_slots::Error;

/// A step by which an equation is proved.
pub trait Check {
    // The step of the model.
    ghost step: { Self → Step };

    /// Returns the number of the equation, which this step enters if it is not there yet.
    ///
    /// Any equation may be given, and any numbers in the step. `BadStep` if the step does not prove the equation over
    /// the entries of this graph. `BadStep`, too, if a side is not a full id of this graph. An error changes nothing.
    fn check<L: Language, N: Analysis<L>>(
        &self,
        equation: &Equation,
        graph: &mut EGraph<L, N>,
    ) -> Result<ProvenEq, Error>
        ensures fits { IfOk result (λ _. Fits graph.old.image equation.now (step self.now)) }
        ensures refused { IsErrOf result Error.BadStep → ¬ Fits graph.old.image equation.now (step self.now) }

        // What stands at the returned number follows from what was asserted.
        ensures accepted { IfOk result (Accepts graph.old graph.new (entry_by equation.now (step self.now))) }
        ensures derivable { IfOk result (λ _. IsDerivable graph.old.image equation.now) }

        // The equation follows from the asserted leaves of its own tree alone.
        ensures leaves { IfOk result (FollowsFromEntry graph.new.image equation.now) }

        // A graph that has not failed is rebuilt.
        ensures rests { IsTrue graph.new.failed ⊎ IsGraph graph.new }

        ensures err { OnErr result (graph.new ≡ graph.old) }
        ensures failed { IsErrOf result Error.Failed ↔ IsTrue graph.old.failed }
        ensures full { IsErrOf result Error.OutOfSlots → CanRunOut graph.old.image equation.now (step self.now) }
        ensures only { IfErr result (λ e. (e ≡ Error.Failed) ⊎ IsRefusal e) };
}

impl Check for ReflexivityProof {
    ghost step = { λ _. reflexive };

    fn check<L: Language, N: Analysis<L>>(
        &self,
        equation: &Equation,
        graph: &mut EGraph<L, N>,
    ) -> Result<ProvenEq, Error> {
        if graph.failed {
            return Err(Error::Failed);
        }
        graph.index.clear();
        checking::check_reflexive(&mut graph.store, graph.alloc, equation)
    }
}

impl Check for SymmetryProof {
    ghost step = { λ s. symmetric s.0 };

    fn check<L: Language, N: Analysis<L>>(
        &self,
        equation: &Equation,
        graph: &mut EGraph<L, N>,
    ) -> Result<ProvenEq, Error> {
        if graph.failed {
            return Err(Error::Failed);
        }
        graph.index.clear();
        checking::check_symmetric(&mut graph.store, graph.alloc, equation, self.0)
    }
}

impl Check for TransitivityProof {
    ghost step = { λ s. transitive s.0 s.1 };

    fn check<L: Language, N: Analysis<L>>(
        &self,
        equation: &Equation,
        graph: &mut EGraph<L, N>,
    ) -> Result<ProvenEq, Error> {
        if graph.failed {
            return Err(Error::Failed);
        }
        graph.index.clear();
        checking::check_transitive(&mut graph.store, graph.alloc, equation, self.0, self.1)
    }
}

impl Check for CongruenceProof {
    ghost step = { λ s. congruent s.0.items };

    fn check<L: Language, N: Analysis<L>>(
        &self,
        equation: &Equation,
        graph: &mut EGraph<L, N>,
    ) -> Result<ProvenEq, Error> {
        if graph.failed {
            return Err(Error::Failed);
        }
        let copy = self.copy(graph.alloc)?;
        graph.index.clear();
        checking::check_congruent(&mut graph.store, graph.alloc, equation, copy.0)
    }
}
