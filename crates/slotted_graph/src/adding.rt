//! Adding e-nodes and terms: by canonical e-nodes, which gives equal e-nodes one id, or by syntactic e-nodes, which
//! keeps each term as it was given.
ghost use Rattle.std.specs.Prelude.{◌≡◌, ◌⊎◌, ◌↔◌, Some, IsErr, IsErrOf, IsSome, IsTrue, IfErr, IfOk, OnOk};
ghost use Rattle.slotted_slots.specs.Error.{IsShortage};
ghost use Rattle.slotted_slots.specs.Table.{KnowsMore};
ghost use Rattle.slotted_theory.specs.Nameless.{nameless};
ghost use Rattle.slotted_model.specs.Classes.{term_of};
ghost use Rattle.slotted_model.specs.Growth.{Extends};
ghost use Rattle.slotted_proofs.specs.Equations.{to_applied};
ghost use Rattle.slotted_terms.specs.Valid.{IsValidTerm};
ghost use Rattle.slotted_operations.specs.Adding.{AddsSyn, IsEqualToNode, RunsOutForFilled, slots_needed, term_nodes};
ghost use Rattle.slotted_operations.specs.AddingTerms.{AddsNodes, FilesOnlyLookedUp, IsEqualToTerm, LacksForTerm, TakesForTerm};
ghost use Rattle.slotted_operations.specs.Causes.{CanRunOutForTerm, IsUnknownIfFull, IsUnknownTerm};
ghost use Rattle.slotted_operations.specs.ValidIds.{IsValidNode};
ghost use Rattle.slotted_operations.specs.Graph.{FilesOnlySubterms, IsFullId, MakesAtMost, id_of_term};
ghost use Rattle.slotted_operations.specs.Image.{AddsClasses};
ghost use Rattle.slotted_operations.specs.LookUp.{IsOneGraph, KeepsLookUps, MakesClassFor, RunsOutForUnknown, look_up, look_up_term};
ghost use Rattle.slotted_operations.specs.Places.{term_slots};
ghost use Rattle.slotted_operations.specs.Reports.{IsFound};
ghost use Rattle.slotted_graph.specs.Analysed.{CarriesData};
ghost use Rattle.slotted_graph.specs.Writing.{AddsAndModifies, AddsSynBefore, IfUnmodified, LeavesAsked};
ghost use Rattle.slotted_graph.specs.Writing.{MakesForNode, MakesForSynNode, MakesForSynTerm, MakesForTerm};

use crate::egraph::EGraph;
use slotted_data::Analysis;
use slotted_languages::Language;
use slotted_slots::{AppliedId, Error};
use slotted_terms::expr::RecExpr;

impl<L: Language, N: Analysis<L>> EGraph<L, N> {
    // Adds an e-node, and modifies classes. An edit may change what the e-node is looked up as, so the e-node is added
    // again after edits.
    fn add_and_modify(&mut self, node: &L) -> Result<AppliedId, Error>
        requires { IsTrue self.old.failed ⊎ IsValidNode self.old (L.form node.now) }
        ensures id { IfOk result (λ a. look_up self.new (L.form node.now) ≡ Some (to_applied a)) }
        ensures found { IfOk result (λ a. IsFound self.new (to_applied a)) }
        ensures equal { IfOk result (λ a. IsEqualToNode self.new.image (to_applied a) (L.form node.now)) }
        ensures adds { OnOk result (AddsAndModifies N.codes N.meaning N.may_ask N.modifies (MakesForNode (L.form node.now)) self.old self.new) }
        ensures more { KnowsMore self.old.table self.new.table }
        ensures stays { IsTrue self.old.failed → self.new ≡ self.old }
        ensures failed { IsErrOf result Error.Failed ↔ IsTrue self.old.failed }
        ensures fails { IsTrue self.new.failed ↔ IsErr result }
        ensures only { IfErr result (λ e. (e ≡ Error.Failed) ⊎ IsShortage e) }
    {
        let id = self.add_quietly(node)?;
        if self.pending_classes() == 0 {
            return Ok(id);
        }
        self.modify()?;
        self.add_quietly(node)
    }

    /// Returns what an e-node is looked up as. If there is no answer, adds a class of the e-node, whose slots are
    /// fresh. Names that its children omit are filled in first, by fresh slots.
    ///
    /// Then classes are modified, as `modify` does.
    pub fn add(&mut self, node: L) -> Result<AppliedId, Error>
        requires { IsTrue self.old.failed ⊎ IsValidNode self.old (L.form node) }

        // The answer is a canonical id, equal to the e-node by what was asserted. From now on a look-up answers it.
        ensures id { IfOk result (λ a. look_up self.new (L.form node) ≡ Some (to_applied a)) }
        ensures found { IfOk result (λ a. IsFound self.new (to_applied a)) }
        ensures equal { IfOk result (λ a. IsEqualToNode self.new.image (to_applied a) (L.form node)) }

        // What was there stays, and only what the analysis asks for is asserted.
        ensures leaves { OnOk result (LeavesAsked N.codes N.meaning N.may_ask self.old self.new) }
        ensures modified { OnOk result (AddsAndModifies N.codes N.meaning N.may_ask N.modifies (MakesForNode (L.form node)) self.old self.new) }
        ensures extends { OnOk result (Extends self.old.image.canonical self.new.image.canonical) }
        ensures more { KnowsMore self.old.table self.new.table }

        // If classes are never modified, a class is added only if there was no answer, and no other class is added.
        // What `find` maps ids to stays, and so does what was looked up.
        ensures kept { IfUnmodified N.modifies (OnOk result (IsSome (look_up self.old (L.form node)) → IsOneGraph self.old self.new)) }
        ensures made { IfUnmodified N.modifies (IfOk result (λ a. MakesClassFor self.old self.new (L.form node) (to_applied a))) }
        ensures answers { IfUnmodified N.modifies (OnOk result (KeepsLookUps self.old self.new)) }
        ensures adds { IfUnmodified N.modifies (OnOk result (AddsClasses self.old.image self.new.image)) }

        // If classes are never modified, and a class is added, fresh slots are made for its names, and for those that
        // children omit.
        ensures takes { IfUnmodified N.modifies (MakesAtMost (slots_needed self.old.image (L.form node)) self.old.table self.new.table) }
        ensures full { IfUnmodified N.modifies (IsErrOf result Error.OutOfSlots → RunsOutForUnknown self.old self.new (L.form node)) }
        ensures carries { IfUnmodified N.modifies (OnOk result (CarriesData N.codes N.meaning self.old self.new)) }

        // A failed graph stays as it is.
        ensures stays { IsTrue self.old.failed → self.new ≡ self.old }
        ensures failed { IsErrOf result Error.Failed ↔ IsTrue self.old.failed }
        ensures fails { IsTrue self.new.failed ↔ IsErr result }
        ensures only { IfErr result (λ e. (e ≡ Error.Failed) ⊎ IsShortage e) }
    {
        if N::modifies() {
            return self.add_and_modify(&node);
        }
        self.add_quietly(&node)
    }

    // Adds an e-node by syntactic e-nodes, and modifies classes.
    fn add_syn_and_modify(&mut self, node: &L) -> Result<AppliedId, Error>
        requires { IsTrue self.old.failed ⊎ IsValidNode self.old (L.form node.now) }
        ensures valid { IfOk result (λ a. IsFullId self.new (to_applied a)) }
        ensures stands { IfOk result (λ a. AddsSynBefore self.old self.new (L.form node.now) (to_applied a)) }
        ensures adds { OnOk result (AddsAndModifies N.codes N.meaning N.may_ask N.modifies (MakesForSynNode (L.form node.now)) self.old self.new) }
        ensures more { KnowsMore self.old.table self.new.table }
        ensures stays { IsTrue self.old.failed → self.new ≡ self.old }
        ensures failed { IsErrOf result Error.Failed ↔ IsTrue self.old.failed }
        ensures fails { IsTrue self.new.failed ↔ IsErr result }
        ensures only { IfErr result (λ e. (e ≡ Error.Failed) ⊎ IsShortage e) }
    {
        let id = self.add_syn_quietly(node)?;
        self.modify()?;
        Ok(id)
    }

    /// Returns the class that was made with an e-node, with the e-node's names put in. If there is none, adds a class,
    /// whose slots are fresh. The new class is united with the class that has an equal e-node, if there is one. Names
    /// that children omit are filled in first, by fresh slots.
    ///
    /// Then classes are modified, as `modify` does.
    pub fn add_syn(&mut self, node: L) -> Result<AppliedId, Error>
        requires { IsTrue self.old.failed ⊎ IsValidNode self.old (L.form node) }

        // The answer is a full id, and stands for the e-node over what its children stand for.
        ensures valid { IfOk result (λ a. IsFullId self.new (to_applied a)) }
        ensures stands { IfOk result (λ a. AddsSynBefore self.old self.new (L.form node) (to_applied a)) }

        // What was there stays, and only what the analysis asks for is asserted.
        ensures leaves { OnOk result (LeavesAsked N.codes N.meaning N.may_ask self.old self.new) }
        ensures modified { OnOk result (AddsAndModifies N.codes N.meaning N.may_ask N.modifies (MakesForSynNode (L.form node)) self.old self.new) }
        ensures extends { OnOk result (Extends self.old.image.canonical self.new.image.canonical) }
        ensures more { KnowsMore self.old.table self.new.table }

        // If classes are never modified, and a class is added, fresh slots are made for its names, and for those that
        // children omit.
        ensures syn { IfUnmodified N.modifies (IfOk result (λ a. AddsSyn self.old self.new (L.form node) (to_applied a))) }
        ensures adds { IfUnmodified N.modifies (OnOk result (AddsClasses self.old.image self.new.image)) }
        ensures takes { IfUnmodified N.modifies (MakesAtMost (slots_needed self.old.image (L.form node)) self.old.table self.new.table) }
        ensures full { IfUnmodified N.modifies (IsErrOf result Error.OutOfSlots
            → RunsOutForFilled self.old.image (L.form node) self.old.table self.new.table) }
        ensures unknown { IfUnmodified N.modifies (IsErrOf result Error.OutOfSlots
            → IsUnknownIfFull self.old.image.canonical (L.form node)) }
        ensures carries { IfUnmodified N.modifies (OnOk result (CarriesData N.codes N.meaning self.old self.new)) }

        // A failed graph stays as it is.
        ensures stays { IsTrue self.old.failed → self.new ≡ self.old }
        ensures failed { IsErrOf result Error.Failed ↔ IsTrue self.old.failed }
        ensures fails { IsTrue self.new.failed ↔ IsErr result }
        ensures only { IfErr result (λ e. (e ≡ Error.Failed) ⊎ IsShortage e) }
    {
        if N::modifies() {
            return self.add_syn_and_modify(&node);
        }
        self.add_syn_quietly(&node)
    }

    // Adds a term, and modifies classes. An edit may change what the term is looked up as, so the term is added again
    // after edits.
    fn add_expr_and_modify(&mut self, term: &RecExpr<L>) -> Result<AppliedId, Error>
        requires { IsTrue self.old.failed ⊎ IsValidTerm self.old.table term.now }
        ensures id { IfOk result (λ a. look_up_term self.new term.now ≡ Some (to_applied a)) }
        ensures found { IfOk result (λ a. IsFound self.new (to_applied a)) }
        ensures equal { IfOk result (λ a. IsEqualToTerm self.new.image (to_applied a) term.now) }
        ensures adds { OnOk result (AddsAndModifies N.codes N.meaning N.may_ask N.modifies (MakesForTerm term.now) self.old self.new) }
        ensures more { KnowsMore self.old.table self.new.table }
        ensures stays { IsTrue self.old.failed → self.new ≡ self.old }
        ensures failed { IsErrOf result Error.Failed ↔ IsTrue self.old.failed }
        ensures fails { IsTrue self.new.failed ↔ IsErr result }
        ensures only { IfErr result (λ e. (e ≡ Error.Failed) ⊎ IsShortage e) }
    {
        let id = self.add_expr_quietly(term)?;
        if self.pending_classes() == 0 {
            return Ok(id);
        }
        self.modify()?;
        self.add_expr_quietly(term)
    }

    /// Returns what a term is looked up as, from its innermost e-nodes on. Adds a class for each e-node for which there
    /// is no answer, as `add` does.
    ///
    /// Then classes are modified, as `modify` does.
    pub fn add_expr(&mut self, term: &RecExpr<L>) -> Result<AppliedId, Error>
        requires { IsTrue self.old.failed ⊎ IsValidTerm self.old.table term.now }

        // The answer is a canonical id, equal to the term by what was asserted. From now on a look-up of the term
        // answers it.
        ensures id { IfOk result (λ a. look_up_term self.new term.now ≡ Some (to_applied a)) }
        ensures found { IfOk result (λ a. IsFound self.new (to_applied a)) }
        ensures equal { IfOk result (λ a. IsEqualToTerm self.new.image (to_applied a) term.now) }

        // What was there stays, and only what the analysis asks for is asserted.
        ensures leaves { OnOk result (LeavesAsked N.codes N.meaning N.may_ask self.old self.new) }
        ensures modified { OnOk result (AddsAndModifies N.codes N.meaning N.may_ask N.modifies (MakesForTerm term.now) self.old self.new) }
        ensures extends { OnOk result (Extends self.old.image.canonical self.new.image.canonical) }
        ensures more { KnowsMore self.old.table self.new.table }

        // If classes are never modified, and a look-up of the term has an answer, nothing changes. If not, the term's
        // e-nodes are added from below. A look-up of some subterm answers each new class. What `find` maps ids to
        // stays, and so does what was looked up.
        ensures kept { IfUnmodified N.modifies (OnOk result (IsSome (look_up_term self.old term.now) → IsOneGraph self.old self.new)) }
        ensures nodes { IfUnmodified N.modifies (OnOk result (AddsNodes term.now self.old (term_nodes term.now) self.new)) }
        ensures filed { IfUnmodified N.modifies (OnOk result (FilesOnlyLookedUp self.old self.new term.now)) }
        ensures answers { IfUnmodified N.modifies (OnOk result (KeepsLookUps self.old self.new)) }
        ensures adds { IfUnmodified N.modifies (OnOk result (AddsClasses self.old.image self.new.image)) }

        // If classes are never modified, and classes are added, fresh slots are made for their names, and for those
        // that children omit.
        ensures takes { IfUnmodified N.modifies (IsTrue self.old.failed ⊎ TakesForTerm term.now self.old self.new.table) }
        ensures full { IfUnmodified N.modifies (IsErrOf result Error.OutOfSlots → LacksForTerm term.now self.old self.new.table) }
        ensures carries { IfUnmodified N.modifies (OnOk result (CarriesData N.codes N.meaning self.old self.new)) }

        // A failed graph stays as it is.
        ensures stays { IsTrue self.old.failed → self.new ≡ self.old }
        ensures failed { IsErrOf result Error.Failed ↔ IsTrue self.old.failed }
        ensures fails { IsTrue self.new.failed ↔ IsErr result }
        ensures only { IfErr result (λ e. (e ≡ Error.Failed) ⊎ IsShortage e) }
    {
        if N::modifies() {
            return self.add_expr_and_modify(term);
        }
        self.add_expr_quietly(term)
    }

    // Adds a term by syntactic e-nodes, and modifies classes.
    fn add_syn_expr_and_modify(&mut self, term: &RecExpr<L>) -> Result<AppliedId, Error>
        requires { IsTrue self.old.failed ⊎ IsValidTerm self.old.table term.now }
        ensures valid { IfOk result (λ a. IsFullId self.new (to_applied a)) }
        ensures term { IfOk result (λ a. term_of self.new.image.canonical (to_applied a) ≡ nameless term.now) }
        ensures found { IfOk result (λ a. id_of_term self.new term.now ≡ Some (to_applied a)) }
        ensures adds { OnOk result (AddsAndModifies N.codes N.meaning N.may_ask N.modifies (MakesForSynTerm term.now) self.old self.new) }
        ensures more { KnowsMore self.old.table self.new.table }
        ensures stays { IsTrue self.old.failed → self.new ≡ self.old }
        ensures failed { IsErrOf result Error.Failed ↔ IsTrue self.old.failed }
        ensures fails { IsTrue self.new.failed ↔ IsErr result }
        ensures only { IfErr result (λ e. (e ≡ Error.Failed) ⊎ IsShortage e) }
    {
        let id = self.add_syn_expr_quietly(term)?;
        self.modify()?;
        Ok(id)
    }

    /// Returns the id whose canonical term is this term: from below, the class that was made with each e-node. If there
    /// is none, adds a class.
    ///
    /// Then classes are modified, as `modify` does.
    pub fn add_syn_expr(&mut self, term: &RecExpr<L>) -> Result<AppliedId, Error>
        requires { IsTrue self.old.failed ⊎ IsValidTerm self.old.table term.now }

        // The answer is valid, and stands for the term. From now on a look-up of the term answers it.
        ensures valid { IfOk result (λ a. IsFullId self.new (to_applied a)) }
        ensures term { IfOk result (λ a. term_of self.new.image.canonical (to_applied a) ≡ nameless term.now) }
        ensures found { IfOk result (λ a. id_of_term self.new term.now ≡ Some (to_applied a)) }

        // What was there stays, and only what the analysis asks for is asserted.
        ensures leaves { OnOk result (LeavesAsked N.codes N.meaning N.may_ask self.old self.new) }
        ensures modified { OnOk result (AddsAndModifies N.codes N.meaning N.may_ask N.modifies (MakesForSynTerm term.now) self.old self.new) }
        ensures extends { OnOk result (Extends self.old.image.canonical self.new.image.canonical) }
        ensures more { KnowsMore self.old.table self.new.table }

        // If classes are never modified, and the term has an id, nothing changes. A look-up of some subterm answers
        // each new class.
        ensures kept { IfUnmodified N.modifies (OnOk result (IsSome (id_of_term self.old term.now) → IsOneGraph self.old self.new)) }
        ensures filed { IfUnmodified N.modifies (OnOk result (FilesOnlySubterms self.old self.new term.now)) }
        ensures adds { IfUnmodified N.modifies (OnOk result (AddsClasses self.old.image self.new.image)) }

        // If classes are never modified, and classes are added, fresh slots are made for their names.
        ensures takes { IfUnmodified N.modifies (MakesAtMost (term_slots term.now) self.old.table self.new.table) }
        ensures full { IfUnmodified N.modifies (IsErrOf result Error.OutOfSlots
            → CanRunOutForTerm self.old.image term.now self.old.table self.new.table) }
        ensures unknown { IfUnmodified N.modifies (IsErrOf result Error.OutOfSlots → IsUnknownTerm self.old.image term.now) }
        ensures carries { IfUnmodified N.modifies (OnOk result (CarriesData N.codes N.meaning self.old self.new)) }

        // A failed graph stays as it is.
        ensures stays { IsTrue self.old.failed → self.new ≡ self.old }
        ensures failed { IsErrOf result Error.Failed ↔ IsTrue self.old.failed }
        ensures fails { IsTrue self.new.failed ↔ IsErr result }
        ensures only { IfErr result (λ e. (e ≡ Error.Failed) ⊎ IsShortage e) }
    {
        if N::modifies() {
            return self.add_syn_expr_and_modify(term);
        }
        self.add_syn_expr_quietly(term)
    }
}
