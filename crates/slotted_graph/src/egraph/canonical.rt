//! Syntactic e-nodes, canonical terms, and the entries of the proof list.
ghost use Rattle.std.specs.Prelude.{All, ◌≡◌, ◌⊎◌, ◌↔◌, ◌<◌, length, IsTrue, IfOk, IfErr, IsErrOf};
ghost use Rattle.slotted_slots.specs.Error.{IsShortage};
ghost use Rattle.slotted_terms.specs.Valid.{IsValidTerm};
ghost use Rattle.slotted_proofs.specs.Entries.{entries_of};
ghost use Rattle.slotted_proofs.specs.Equations.{to_applied};
ghost use Rattle.slotted_proofs.specs.Lines.{PartsAreEarlier};
ghost use Rattle.slotted_proofs.specs.Proving.{IsProved};
ghost use Rattle.slotted_operations.specs.ValidIds.{IsValidId, IsValidNode};
ghost use Rattle.slotted_operations.specs.Graph.{OnlyTakesSlots};
ghost use Rattle.slotted_operations.specs.Leaves.{EntriesFollow};
ghost use Rattle.slotted_operations.specs.Nodes.{child_ids};
ghost use Rattle.slotted_model.specs.Classes.{IsFull};
ghost use Rattle.slotted_operations.specs.Syn.{IsNodeOfFilling, IsNodeWhereFull, IsTermOfFilling, IsTermWhereFull};
ghost use Rattle.slotted_operations.specs.Syn.{MakesForNodeOf, MakesForTermOf, RunsOutForNodeOf, RunsOutForTermOf};

use super::EGraph;
use slotted_data::Analysis;
use slotted_languages::Language;
use slotted_operations::syn;
use slotted_proofs::{ProofList, ProvenEq};
use slotted_slots::{AppliedId, Error};
use slotted_terms::expr::RecExpr;

impl<L: Language, N: Analysis<L>> EGraph<L, N> {
    /// Returns the syntactic e-node of an id, with the id's names put in. For each name that the id omits, a fresh one
    /// is put in. Binders that would meet one of these get fresh names.
    pub fn get_syn_node(&mut self, a: &AppliedId) -> Result<L, Error>
        requires { IsTrue self.old.failed ⊎ IsValidId self.old (to_applied a.now) }
        ensures filled { IfOk result (λ n. IsNodeOfFilling self.old self.new (to_applied a.now) (L.form n)) }
        ensures node { IfOk result (λ n. IsNodeWhereFull self.old.image.canonical (to_applied a.now) (L.form n)) }
        ensures valid { IfOk result (λ n. IsValidNode self.new (L.form n)) }
        ensures children { IfOk result (λ n. All (IsFull self.new.image.canonical) (child_ids (L.form n))) }

        // Only fresh slots are made, no more than the id omits names and the e-node has binders. An error does not fail
        // the graph.
        ensures takes { OnlyTakesSlots self.old self.new }
        ensures count { MakesForNodeOf self.old self.new (to_applied a.now) }
        ensures stays { IsTrue self.old.failed → self.new ≡ self.old }

        ensures failed { IsErrOf result Error.Failed ↔ IsTrue self.old.failed }
        ensures full { IsErrOf result Error.OutOfSlots → RunsOutForNodeOf self.old self.new (to_applied a.now) }
        ensures only { IfErr result (λ e. (e ≡ Error.Failed) ⊎ IsShortage e) }
    {
        if self.failed {
            return Err(Error::Failed);
        }
        syn::syn_node_of(&self.store, self.alloc, &mut self.table, a)
    }

    /// Returns the canonical term of an id: the syntactic e-node of its class, over the terms of the e-node's children.
    ///
    /// For each name that the id omits, a fresh one is put in. The child ids inside the term's e-nodes are null.
    pub fn get_syn_expr(&mut self, a: &AppliedId) -> Result<RecExpr<L>, Error>
        requires { IsTrue self.old.failed ⊎ IsValidId self.old (to_applied a.now) }
        ensures filled { IfOk result (λ t. IsTermOfFilling self.old self.new (to_applied a.now) t) }
        ensures term { IfOk result (λ t. IsTermWhereFull self.old.image.canonical (to_applied a.now) t) }
        ensures valid { IfOk result (λ t. IsValidTerm self.new.table t) }

        // Only fresh slots are made, no more than the id omits names and the term has binders. An error does not fail
        // the graph.
        ensures takes { OnlyTakesSlots self.old self.new }
        ensures count { MakesForTermOf self.old self.new (to_applied a.now) }
        ensures stays { IsTrue self.old.failed → self.new ≡ self.old }

        ensures failed { IsErrOf result Error.Failed ↔ IsTrue self.old.failed }
        ensures full { IsErrOf result Error.OutOfSlots → RunsOutForTermOf self.old self.new (to_applied a.now) }
        ensures only { IfErr result (λ e. (e ≡ Error.Failed) ⊎ IsShortage e) }
    {
        if self.failed {
            return Err(Error::Failed);
        }
        syn::syn_expr_of(&self.store, self.alloc, &mut self.table, a)
    }

    /// Returns the proved equations, with their steps and texts.
    pub fn proofs(&self) -> &ProofList
        ensures list { result.now ≡ self.now.image.stored }
        ensures entries { self.now.image.entries ≡ entries_of self.now.image.stored }

        // In each graph that has not failed, steps prove their equations over earlier entries. Equations are over all
        // slots of their classes.
        ensures proved { IsTrue self.now.failed ⊎ IsProved self.now.image.canonical self.now.image.stored }
        ensures earlier { IsTrue self.now.failed ⊎ PartsAreEarlier self.now.image.stored }

        // What an entry says follows from the asserted leaves of its tree.
        ensures leaves { IsTrue self.now.failed ⊎ EntriesFollow self.now.image }
    {
        self.store.proofs()
    }

    /// Returns whether the number is that of a proved equation. Takes no memory.
    pub fn is_valid_proof(&self, p: ProvenEq) -> bool
        ensures { IsTrue result ↔ (p < length self.now.image.entries) }
    {
        p.number() < self.proof_count()
    }
}
