//! Adding e-nodes and terms without modifying classes, and looking up e-nodes.
//!
//! By canonical e-nodes, equal e-nodes get one id. By syntactic e-nodes, each term is kept as it was given.
ghost use Rattle.std.specs.Prelude.{◌≡◌, ◌⊎◌, ◌↔◌, Some, option_map, IsErr, IsErrOf, IsSome, IsTrue, IfErr, IfOk, IfSome, OnOk};
ghost use Rattle.slotted_slots.specs.Error.{IsShortage};
ghost use Rattle.slotted_slots.specs.Table.{KnowsMore};
ghost use Rattle.slotted_theory.specs.Nameless.{nameless};
ghost use Rattle.slotted_model.specs.Classes.{term_of};
ghost use Rattle.slotted_model.specs.Growth.{Extends};
ghost use Rattle.slotted_proofs.specs.Equations.{to_applied};
ghost use Rattle.slotted_terms.specs.Valid.{IsValidTerm};
ghost use Rattle.slotted_operations.specs.Adding.{AddsSyn, IsEqualToNode, RunsOutForFilled, slots_needed, term_nodes};
ghost use Rattle.slotted_operations.specs.AddingTerms.{AddsNodes, FilesOnlyLookedUp, IsEqualToTerm, LacksForTerm, TakesForTerm};
ghost use Rattle.slotted_operations.specs.Causes.{CanRunOutForTerm, IsUnknownIfFull, IsUnknownTerm};
ghost use Rattle.slotted_operations.specs.ValidIds.{IsValidNode};
ghost use Rattle.slotted_operations.specs.Graph.{FilesOnlySubterms, IsFullId, MakesAtMost, id_of_term};
ghost use Rattle.slotted_operations.specs.Image.{AddsClasses};
ghost use Rattle.slotted_operations.specs.LookUp.{IsOneGraph, KeepsLookUps, MakesClassFor, RunsOutForUnknown, look_up, look_up_term};
ghost use Rattle.slotted_operations.specs.Places.{term_slots};
ghost use Rattle.slotted_operations.specs.Reports.{IsFound};
ghost use Rattle.slotted_graph.specs.Analysed.{CarriesData};
ghost use Rattle.slotted_graph.specs.States.{IsGraph};

use super::EGraph;
use crate::writes::adding;
use slotted_data::Analysis;
use slotted_languages::Language;
use slotted_lookup::lookup::look_up;
use slotted_slots::{AppliedId, Error};
use slotted_terms::expr::RecExpr;

impl<L: Language, N: Analysis<L>> EGraph<L, N> {
    /// Returns the id of an e-node: what `find` answers for the class of the filed e-node, with the e-node's names put
    /// in.
    ///
    /// Children may omit names of redundant slots. E-nodes whose children are found equal in turn have one id.
    pub fn lookup(&self, node: &L) -> Result<Option<AppliedId>, Error>
        requires { IsTrue self.now.failed ⊎ IsValidNode self.now (L.form node.now) }
        ensures id { IfOk result (λ o. option_map to_applied o ≡ look_up self.now (L.form node.now)) }

        // The answer is a canonical id, equal to the e-node by what was asserted.
        ensures found { IfOk result (λ o. IfSome o (λ a. IsFound self.now (to_applied a))) }
        ensures equal { IfOk result
            (λ o. IfSome o (λ a. IsEqualToNode self.now.image (to_applied a) (L.form node.now))) }

        ensures failed { IsErrOf result Error.Failed ↔ IsTrue self.now.failed }
        ensures only { IfErr result (λ e. (e ≡ Error.Failed) ⊎ (e ≡ Error.OutOfMemory)) }
    {
        if self.failed {
            return Err(Error::Failed);
        }
        look_up(&self.store, &self.nodes, self.alloc, node)
    }

    /// Adds an e-node as `add` does, and modifies no class. New classes, and those whose data has changed, wait to be
    /// modified.
    pub fn add_quietly(&mut self, node: &L) -> Result<AppliedId, Error>
        requires { IsTrue self.old.failed ⊎ IsValidNode self.old (L.form node.now) }

        // The answer is a canonical id, equal to the e-node by what was asserted. From now on a look-up answers it.
        ensures id { IfOk result (λ a. look_up self.new (L.form node.now) ≡ Some (to_applied a)) }
        ensures found { IfOk result (λ a. IsFound self.new (to_applied a)) }
        ensures equal { IfOk result (λ a. IsEqualToNode self.new.image (to_applied a) (L.form node.now)) }

        // A class is added only if there was no answer, and no other class is added. What was there stays: what `find`
        // maps ids to, and what was looked up.
        ensures kept { OnOk result (IsSome (look_up self.old (L.form node.now)) → IsOneGraph self.old self.new) }
        ensures made { IfOk result (λ a. MakesClassFor self.old self.new (L.form node.now) (to_applied a)) }
        ensures answers { OnOk result (KeepsLookUps self.old self.new) }
        ensures extends { OnOk result (Extends self.old.image.canonical self.new.image.canonical) }
        ensures adds { OnOk result (AddsClasses self.old.image self.new.image) }

        // If a class is added, fresh slots are made for its names, and for those that children omit.
        ensures more { KnowsMore self.old.table self.new.table }
        ensures takes { MakesAtMost (slots_needed self.old.image (L.form node.now)) self.old.table self.new.table }
        ensures full { IsErrOf result Error.OutOfSlots → RunsOutForUnknown self.old self.new (L.form node.now) }

        // Data is only lowered. New classes, and those whose data has changed, wait to be modified.
        ensures carries { OnOk result (CarriesData N.codes N.meaning self.old self.new) }

        // A graph that has not failed is rebuilt.
        ensures rests { IsTrue self.new.failed ⊎ IsGraph self.new }

        // A failed graph stays as it is.
        ensures stays { IsTrue self.old.failed → self.new ≡ self.old }
        ensures failed { IsErrOf result Error.Failed ↔ IsTrue self.old.failed }
        ensures fails { IsTrue self.new.failed ↔ IsErr result }
        ensures only { IfErr result (λ e. (e ≡ Error.Failed) ⊎ IsShortage e) }
    {
        if self.failed {
            return Err(Error::Failed);
        }
        self.failed = true;
        self.index.clear();
        let id = adding::add(
            &mut self.store,
            &mut self.nodes,
            &mut self.data,
            &self.analysis,
            self.alloc,
            &mut self.table,
            node,
        )?;
        self.failed = false;
        Ok(id)
    }

    /// Adds an e-node as `add_syn` does, and modifies no class. New classes, and those whose data has changed, wait to
    /// be modified.
    pub fn add_syn_quietly(&mut self, node: &L) -> Result<AppliedId, Error>
        requires { IsTrue self.old.failed ⊎ IsValidNode self.old (L.form node.now) }

        // The answer is a full id, and stands for the e-node over what its children stand for.
        ensures valid { IfOk result (λ a. IsFullId self.new (to_applied a)) }
        ensures syn { IfOk result (λ a. AddsSyn self.old self.new (L.form node.now) (to_applied a)) }

        // What was there stays.
        ensures extends { OnOk result (Extends self.old.image.canonical self.new.image.canonical) }
        ensures adds { OnOk result (AddsClasses self.old.image self.new.image) }

        // If a class is added, fresh slots are made for its names, and for those that children omit.
        ensures more { KnowsMore self.old.table self.new.table }
        ensures takes { MakesAtMost (slots_needed self.old.image (L.form node.now)) self.old.table self.new.table }
        ensures full { IsErrOf result Error.OutOfSlots
            → RunsOutForFilled self.old.image (L.form node.now) self.old.table self.new.table }
        ensures unknown { IsErrOf result Error.OutOfSlots → IsUnknownIfFull self.old.image.canonical (L.form node.now) }

        // Data is only lowered. New classes, and those whose data has changed, wait to be modified.
        ensures carries { OnOk result (CarriesData N.codes N.meaning self.old self.new) }

        // A graph that has not failed is rebuilt.
        ensures rests { IsTrue self.new.failed ⊎ IsGraph self.new }

        // A failed graph stays as it is.
        ensures stays { IsTrue self.old.failed → self.new ≡ self.old }
        ensures failed { IsErrOf result Error.Failed ↔ IsTrue self.old.failed }
        ensures fails { IsTrue self.new.failed ↔ IsErr result }
        ensures only { IfErr result (λ e. (e ≡ Error.Failed) ⊎ IsShortage e) }
    {
        if self.failed {
            return Err(Error::Failed);
        }
        self.failed = true;
        self.index.clear();
        let made = adding::add_filled(
            &mut self.store,
            &mut self.nodes,
            &mut self.data,
            &self.analysis,
            self.alloc,
            &mut self.table,
            node,
        )?;
        self.failed = false;
        Ok(made)
    }

    /// Adds a term as `add_expr` does, and modifies no class. New classes, and those whose data has changed, wait to be
    /// modified.
    pub fn add_expr_quietly(&mut self, term: &RecExpr<L>) -> Result<AppliedId, Error>
        requires { IsTrue self.old.failed ⊎ IsValidTerm self.old.table term.now }

        // The answer is a canonical id, equal to the term by what was asserted. From now on a look-up of the term
        // answers it.
        ensures id { IfOk result (λ a. look_up_term self.new term.now ≡ Some (to_applied a)) }
        ensures found { IfOk result (λ a. IsFound self.new (to_applied a)) }
        ensures equal { IfOk result (λ a. IsEqualToTerm self.new.image (to_applied a) term.now) }

        // If a look-up of the term has an answer, nothing changes. If not, the term's e-nodes are added from below. A
        // look-up of some subterm answers each new class. What `find` maps ids to stays, and so does what was looked
        // up.
        ensures kept { OnOk result (IsSome (look_up_term self.old term.now) → IsOneGraph self.old self.new) }
        ensures nodes { OnOk result (AddsNodes term.now self.old (term_nodes term.now) self.new) }
        ensures filed { OnOk result (FilesOnlyLookedUp self.old self.new term.now) }
        ensures answers { OnOk result (KeepsLookUps self.old self.new) }
        ensures extends { OnOk result (Extends self.old.image.canonical self.new.image.canonical) }
        ensures adds { OnOk result (AddsClasses self.old.image self.new.image) }

        // If classes are added, fresh slots are made for their names, and for those that children omit.
        ensures more { KnowsMore self.old.table self.new.table }
        ensures takes { IsTrue self.old.failed ⊎ TakesForTerm term.now self.old self.new.table }
        ensures full { IsErrOf result Error.OutOfSlots → LacksForTerm term.now self.old self.new.table }

        // Data is only lowered. New classes, and those whose data has changed, wait to be modified.
        ensures carries { OnOk result (CarriesData N.codes N.meaning self.old self.new) }

        // A graph that has not failed is rebuilt.
        ensures rests { IsTrue self.new.failed ⊎ IsGraph self.new }

        // A failed graph stays as it is.
        ensures stays { IsTrue self.old.failed → self.new ≡ self.old }
        ensures failed { IsErrOf result Error.Failed ↔ IsTrue self.old.failed }
        ensures fails { IsTrue self.new.failed ↔ IsErr result }
        ensures only { IfErr result (λ e. (e ≡ Error.Failed) ⊎ IsShortage e) }
    {
        if self.failed {
            return Err(Error::Failed);
        }
        self.failed = true;
        self.index.clear();
        let answer = adding::add_expr(
            &mut self.store,
            &mut self.nodes,
            &mut self.data,
            &self.analysis,
            self.alloc,
            &mut self.table,
            term,
        )?;
        self.failed = false;
        Ok(answer)
    }

    /// Adds a term as `add_syn_expr` does, and modifies no class. New classes, and those whose data has changed, wait
    /// to be modified.
    pub fn add_syn_expr_quietly(&mut self, term: &RecExpr<L>) -> Result<AppliedId, Error>
        requires { IsTrue self.old.failed ⊎ IsValidTerm self.old.table term.now }

        // The answer is valid, and stands for the term. From now on a look-up of the term answers it.
        ensures valid { IfOk result (λ a. IsFullId self.new (to_applied a)) }
        ensures term { IfOk result (λ a. term_of self.new.image.canonical (to_applied a) ≡ nameless term.now) }
        ensures found { IfOk result (λ a. id_of_term self.new term.now ≡ Some (to_applied a)) }

        // If the term has an id, nothing changes. A look-up of some subterm answers each new class, and what was there
        // stays.
        ensures kept { OnOk result (IsSome (id_of_term self.old term.now) → IsOneGraph self.old self.new) }
        ensures filed { OnOk result (FilesOnlySubterms self.old self.new term.now) }
        ensures extends { OnOk result (Extends self.old.image.canonical self.new.image.canonical) }
        ensures adds { OnOk result (AddsClasses self.old.image self.new.image) }

        // If classes are added, fresh slots are made for their names.
        ensures more { KnowsMore self.old.table self.new.table }
        ensures takes { MakesAtMost (term_slots term.now) self.old.table self.new.table }
        ensures full { IsErrOf result Error.OutOfSlots
            → CanRunOutForTerm self.old.image term.now self.old.table self.new.table }
        ensures unknown { IsErrOf result Error.OutOfSlots → IsUnknownTerm self.old.image term.now }

        // Data is only lowered. New classes, and those whose data has changed, wait to be modified.
        ensures carries { OnOk result (CarriesData N.codes N.meaning self.old self.new) }

        // A graph that has not failed is rebuilt.
        ensures rests { IsTrue self.new.failed ⊎ IsGraph self.new }

        // A failed graph stays as it is.
        ensures stays { IsTrue self.old.failed → self.new ≡ self.old }
        ensures failed { IsErrOf result Error.Failed ↔ IsTrue self.old.failed }
        ensures fails { IsTrue self.new.failed ↔ IsErr result }
        ensures only { IfErr result (λ e. (e ≡ Error.Failed) ⊎ IsShortage e) }
    {
        if self.failed {
            return Err(Error::Failed);
        }
        self.failed = true;
        self.index.clear();
        let answer = adding::add_syn_expr(
            &mut self.store,
            &mut self.nodes,
            &mut self.data,
            &self.analysis,
            self.alloc,
            &mut self.table,
            term,
        )?;
        self.failed = false;
        Ok(answer)
    }
}
