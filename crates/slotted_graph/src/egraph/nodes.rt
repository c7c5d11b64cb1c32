//! Reports on the filed e-nodes of the graph.
ghost use Rattle.std.specs.Prelude.{◌≡◌, ◌⊎◌, ◌↔◌, ◌<◌, length, All, IsTrue, IfOk, IfErr, IsErrOf};
ghost use Rattle.slotted_slots.specs.Error.{IsShortage};
ghost use Rattle.slotted_slots.specs.Maps.{values};
ghost use Rattle.slotted_proofs.specs.Equations.{to_applied};
ghost use Rattle.slotted_operations.specs.ValidIds.{IsValidId};
ghost use Rattle.slotted_operations.specs.Graph.{MakesAtMost, OnlyTakesSlots};
ghost use Rattle.slotted_operations.specs.Reports.{names_slots};
ghost use Rattle.slotted_graph.specs.FiledNodes.{AscendByShape, CanRunOutForEnodes, HasEachNode, HasFreshNames};
ghost use Rattle.slotted_graph.specs.FiledNodes.{HasLargeRow, HasLargeRowOf, HasOwnNames, IsEnode, IsNoneIfDead, slots_for_enodes};

use super::EGraph;
use slotted_data::Analysis;
use slotted_languages::Language;
use slotted_lookup::reports;
use slotted_reports::{checking, nodes};
use slotted_slots::{AppliedId, Error, Id};
use std::collections::HashSet;

impl<L: Language, N: Analysis<L>> EGraph<L, N> {
    /// Returns the number of filed e-nodes, also of a failed graph. Takes no memory.
    pub fn total_number_of_nodes(&self) -> usize
        ensures { result ≡ length self.now.filed }
    {
        reports::filed_count(&self.nodes)
    }

    /// Returns the filed e-nodes of the class of an id, with the id's names, ascending by their shapes.
    ///
    /// For each slot that the id has no name for, or that is redundant, a fresh one is put in. Binders are fresh. A
    /// dead class has no filed e-nodes.
    pub fn enodes_applied(&mut self, a: &AppliedId) -> Result<Vec<L>, Error>
        requires { IsTrue self.old.failed ⊎ IsValidId self.old (to_applied a.now) }
        ensures each { IfOk result (λ v. HasEachNode L.form self.old a.now.id.0 v.items) }
        ensures dead { IfOk result (λ v. IsNoneIfDead self.old a.now.id.0 v.items) }
        ensures ascend { IfOk result (λ v. AscendByShape L.form L.cmp v.items) }

        // Each e-node is valid, and is looked up as what `find` maps the id to. The table knew no binder's name, and no
        // free one but the names of the id.
        ensures nodes { IfOk result (λ v. All (λ n. IsEnode self.new (to_applied a.now) (L.form n)) v.items) }
        ensures fresh { IfOk result (λ v. All (λ n. HasFreshNames self.old.table (values a.now.m) (L.form n)) v.items) }

        // Only fresh slots are made, at most two for each place of these e-nodes. An error does not fail the graph.
        ensures takes { OnlyTakesSlots self.old self.new }
        ensures count { MakesAtMost (slots_for_enodes self.old a.now.id.0) self.old.table self.new.table }
        ensures stays { IsTrue self.old.failed → self.new ≡ self.old }

        ensures failed { IsErrOf result Error.Failed ↔ IsTrue self.old.failed }
        ensures full { IsErrOf result Error.OutOfSlots → CanRunOutForEnodes self.old a.now.id.0 self.new.table }
        ensures only { IfErr result (λ e. (e ≡ Error.Failed) ⊎ IsShortage e) }
    {
        if self.failed {
            return Err(Error::Failed);
        }
        nodes::enodes_applied(&self.store, &self.nodes, self.alloc, &mut self.table, a)
    }

    /// Returns the filed e-nodes of a class, over the slots that are not redundant.
    ///
    /// A number stands for each redundant slot, and for each binder. A dead class has no filed e-nodes.
    pub fn enodes(&self, id: Id) -> Result<HashSet<L>, Error>
        requires { IsTrue self.now.failed ⊎ (id.0 < length self.now.image.canonical) }
        ensures each { IfOk result (λ s. HasEachNode L.form self.now id.0 s.keys) }
        ensures dead { IfOk result (λ s. IsNoneIfDead self.now id.0 s.keys) }

        // Each e-node is valid, and is looked up as what `find` maps the class to, with its slots as names.
        ensures nodes { IfOk result
            (λ s. All (λ n. IsEnode self.now (names_slots self.now.image id.0) (L.form n)) s.keys) }
        ensures names { IfOk result (λ s. All (λ n. HasOwnNames self.now.image id.0 (L.form n)) s.keys) }

        ensures failed { IsErrOf result Error.Failed ↔ IsTrue self.now.failed }
        ensures full { IsErrOf result Error.OutOfSlots → HasLargeRowOf self.now id.0 }
        ensures only { IfErr result (λ e. (e ≡ Error.Failed) ⊎ IsShortage e) }
    {
        if self.failed {
            return Err(Error::Failed);
        }
        let class = reports::mk_identity_applied_id(&self.store, self.alloc, id.0)?;
        nodes::enodes(&self.store, &self.nodes, self.alloc, &class)
    }

    /// Returns whether what is kept of filed e-nodes is consistent: `find` maps each class to a live one, and each
    /// filed e-node is kept by its own shape, once. The answer is true in every graph that has not failed.
    pub fn check(&self) -> Result<bool, Error>
        ensures yes { IfOk result (λ y. IsTrue y) }
        ensures failed { IsErrOf result Error.Failed ↔ IsTrue self.now.failed }
        ensures full { IsErrOf result Error.OutOfSlots → HasLargeRow self.now }
        ensures only { IfErr result (λ e. (e ≡ Error.Failed) ⊎ IsShortage e) }
    {
        if self.failed {
            return Err(Error::Failed);
        }
        checking::check(&self.store, &self.nodes, self.alloc)
    }
}
