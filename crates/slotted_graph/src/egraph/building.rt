//! Ids and e-nodes from which an instance of a pattern is built.
ghost use Rattle.std.specs.Prelude.{All, ◌≡◌, ◌⊎◌, ◌↔◌, IsTrue, IfOk, IfErr, IsErrOf};
ghost use Rattle.slotted_slots.specs.Error.{IsShortage};
ghost use Rattle.slotted_model.specs.Classes.{IsFull};
ghost use Rattle.slotted_proofs.specs.Equations.{to_applied};
ghost use Rattle.slotted_operations.specs.Canonical.{IsNodeOf};
ghost use Rattle.slotted_operations.specs.Graph.{IsFullId, MakesAtMost, OnlyTakesSlots, RunsOut};
ghost use Rattle.slotted_operations.specs.Nodes.{child_ids};
ghost use Rattle.slotted_operations.specs.Syn.{FillsFresh, HasUnknownBinders, MakesForFreshNode, RunsOutForFreshNode, names_lacking};
ghost use Rattle.slotted_operations.specs.ValidIds.{IsValidId, IsValidNode};

use super::EGraph;
use slotted_data::Analysis;
use slotted_languages::Language;
use slotted_lookup::filling::fill_id;
use slotted_operations::syn;
use slotted_slots::{AppliedId, Error};

impl<L: Language, N: Analysis<L>> EGraph<L, N> {
    /// Returns the id with a fresh slot for each name that it omits. A full id is returned as it is.
    pub fn full_id(&mut self, a: &AppliedId) -> Result<AppliedId, Error>
        requires { IsTrue self.old.failed ⊎ IsValidId self.old (to_applied a.now) }
        ensures id { IfOk result (λ b. IsFullId self.new (to_applied b)) }
        ensures fills { IfOk result
            (λ b. FillsFresh self.old.image self.old.table self.new.table (to_applied a.now) (to_applied b)) }
        ensures same { IfOk result
            (λ b. IsFull self.old.image.canonical (to_applied a.now) → to_applied b ≡ to_applied a.now) }

        // Only fresh slots are made, one for each name that the id omits. An error does not fail the graph.
        ensures takes { OnlyTakesSlots self.old self.new }
        ensures count { MakesAtMost (names_lacking self.old.image.canonical (to_applied a.now)) self.old.table self.new.table }
        ensures stays { IsTrue self.old.failed → self.new ≡ self.old }

        ensures failed { IsErrOf result Error.Failed ↔ IsTrue self.old.failed }
        ensures full { IsErrOf result Error.OutOfSlots
            → RunsOut (names_lacking self.old.image.canonical (to_applied a.now)) self.old.table self.new.table }
        ensures only { IfErr result (λ e. (e ≡ Error.Failed) ⊎ IsShortage e) }
    {
        if self.failed {
            return Err(Error::Failed);
        }
        fill_id(&self.store, self.alloc, &mut self.table, a)
    }

    /// Returns the syntactic e-node of a full id, with a fresh slot for each binder. So no binder has the name of a
    /// slot that was known, and what is put below a binder is not captured.
    pub fn fresh_node(&mut self, a: &AppliedId) -> Result<L, Error>
        requires { IsTrue self.old.failed ⊎ IsFullId self.old (to_applied a.now) }
        ensures node { IfOk result (λ n. IsNodeOf self.old.image.canonical (to_applied a.now) (L.form n)) }
        ensures fresh { IfOk result (λ n. HasUnknownBinders self.old.table (L.form n)) }
        ensures valid { IfOk result (λ n. IsValidNode self.new (L.form n)) }
        ensures children { IfOk result (λ n. All (IsFull self.new.image.canonical) (child_ids (L.form n))) }

        // Only fresh slots are made, at most two for each binder. An error does not fail the graph.
        ensures takes { OnlyTakesSlots self.old self.new }
        ensures count { MakesForFreshNode self.old self.new (to_applied a.now) }
        ensures stays { IsTrue self.old.failed → self.new ≡ self.old }

        ensures failed { IsErrOf result Error.Failed ↔ IsTrue self.old.failed }
        ensures full { IsErrOf result Error.OutOfSlots → RunsOutForFreshNode self.old self.new (to_applied a.now) }
        ensures only { IfErr result (λ e. (e ≡ Error.Failed) ⊎ IsShortage e) }
    {
        if self.failed {
            return Err(Error::Failed);
        }
        syn::fresh_node(&self.store, self.alloc, &mut self.table, a)
    }
}
