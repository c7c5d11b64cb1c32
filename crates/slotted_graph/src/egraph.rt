//! The graph that callers use. A failed graph refuses every later call.
ghost use Rattle.std.specs.Prelude.{◌≡◌, ◌<◌, ◌↔◌, ◌⊎◌, length, true, false, IsTrue, IsOk, IfOk, IfErr, OnOk};
ghost use Rattle.std.specs.Prelude.{IsErr, IsErrOf, IsOkUnless, IsSome, IfSome, None, Some, [], map, option_map};
ghost use Rattle.slotted_slots.specs.Error.{IsShortage};
ghost use Rattle.slotted_slots.specs.Table.{KnowsMore};
ghost use Rattle.slotted_theory.specs.Nameless.{nameless};
ghost use Rattle.slotted_model.specs.Growth.{Extends};
ghost use Rattle.slotted_model.specs.Classes.{Canonical, term_of};
ghost use Rattle.slotted_model.specs.ProofList.{Proved};
ghost use Rattle.slotted_proofs.specs.Entries.{explicit_numbers};
ghost use Rattle.slotted_terms.specs.Valid.{IsValidTerm};
ghost use Rattle.slotted_graph.specs.Analysed.{CarriesData, new_graph};
ghost use Rattle.slotted_graph.specs.Counted.{CountsUnion};
ghost use Rattle.slotted_graph.specs.Measure.{NeverRises};
ghost use Rattle.slotted_graph.specs.States.{IsGraph};
ghost use Rattle.slotted_operations.specs.Image.{no_classes, FoundAlike, SaysEqual, SaysDerivable, SaysTerms};
ghost use Rattle.slotted_operations.specs.Image.{AddsClasses, IsUnion, AreSymmetries, AreListedOnce, CountsOpen};
ghost use Rattle.slotted_classes.specs.Kept.{text_bytes, symmetry_entry};
ghost use Rattle.slotted_operations.specs.Affected.{AreRepresented, IsYesIfDerivable, IsYesIfEqual};
ghost use Rattle.slotted_operations.specs.ValidIds.{IsValidId, IsValidNode, SaysFillingsEqual, LackNothing, HaveValidSides};
ghost use Rattle.slotted_operations.specs.Causes.{HasLargeClassIn};
ghost use Rattle.slotted_operations.specs.Graph.{IsFullId, OnlyReads, RecordsUnion};
ghost use Rattle.slotted_operations.specs.LookUp.{AreLookedUp};
ghost use Rattle.slotted_proofs.specs.Equations.{to_applied};
ghost use Rattle.slotted_operations.specs.Reads.{AnswersTerm, NodesAreRead};
ghost use Rattle.slotted_operations.specs.SmallNodes.{IsSmallValidTerm};

pub mod steps;

use crate::method::SubstMethod;
use crate::writes::uniting;
use slotted_classes::{Store, Symmetry};
use slotted_data::{Analysis, ClassData};
use slotted_hashcons::Hashcons;
use slotted_languages::Language;
use slotted_matching::IndexCache;
use slotted_operations::adding::{is_full_id, is_valid, is_valid_node};
use slotted_operations::terms::is_valid_term;
use slotted_operations::uniting::open_symmetries;
use slotted_proofs::ProvenEq;
use slotted_slots::{AppliedId, Error, SlotTable};
use slotted_terms::expr::RecExpr;
use std::alloc::Global;
use std::marker::Model;

mod adding_quietly;
mod analysed;
mod building;
mod canonical;
mod counts;
mod dump;
mod explained_ids;
mod explanations;
mod extraction;
mod matching;
mod nodes;
mod patterns;
mod reports;

pub use counts::totals_rise;

// The limit of rounds of edits at the end of a write, unless the caller sets another.
const USUAL_ROUNDS: usize = 16;

/// A graph of terms with binders, up to alpha-equality.
///
/// Each class has the e-node that it was made with, its syntactic e-node, over slots of its own and over earlier
/// classes. An applied id is a class with names for its slots, at least for all that are not redundant. A full id
/// stands for its canonical term. This is the syntactic e-node with the names put in, over the canonical terms of its
/// children.
///
/// A graph fails if a call that changes it runs out of memory or slots. From then on each call that answers a `Result`
/// answers `Failed`. The table can still be taken out.
#[derive(Drop)]
pub struct EGraph<L: Language, N: Analysis<L> = ()> {
    failed: bool,
    store: Store<L>,
    nodes: Hashcons<L>,
    // The filed e-nodes that a search goes through. Each call that may change classes or filed e-nodes clears the
    // index.
    index: IndexCache<L>,
    table: SlotTable,
    // The data of each class. Nothing is left to carry when the graph is rebuilt.
    data: ClassData<N::Data>,
    analysis: N,
    // The limit of rounds of edits at the end of a write.
    rounds: usize,
    method: SubstMethod,
    alloc: Global,
}

impl<L: Language, N: Analysis<L>> Model for EGraph<L, N> {
    ghost use Rattle.std.specs.Prelude.{IfSome, IsTrue, ◌⊎◌};
    ghost use Rattle.slotted_operations.specs.Graph.{Graph, graph_code};
    ghost use Rattle.slotted_data.specs.Meaning.{by_bare_nodes};
    ghost use Rattle.slotted_data.specs.Carrying.{DataRests};
    ghost use Rattle.slotted_data.specs.Part.{part_by};
    ghost use Rattle.slotted_operations.specs.Good.{Good, RestsWith, HasFreshSlots, graph_of};
    ghost use Rattle.slotted_hashcons.specs.FiledRows.{rows_in};
    ghost use Rattle.slotted_matching.specs.Indexed.{IsIndexed};

    ghost Value = { Graph };

    ghost coded = { graph_code };

    ghost view = { λ s. graph_of s.failed s.table s.store (rows_in s.nodes.filed) (part_by N.codes s.analysis s.rounds s.«data») };

    ghost invariant = { λ s. IsTrue s.failed ⊎ (Good s.store × HasFreshSlots s.table s.store × RestsWith s.store s.nodes
        × IfSome s.index.indexed (λ x. IsIndexed s.store s.nodes x.skeletons x.index)
        × DataRests (by_bare_nodes (N.meaning s.analysis)) s.store s.nodes s.«data») };
}

impl<L: Language, N: Analysis<L>> EGraph<L, N> {
    /// Returns the graph without classes, over a table of slots. Its substitutions look into canonical terms. Takes no
    /// memory.
    pub fn new(alloc: Global, table: SlotTable, analysis: N) -> Result<Self, Error>
        ensures answers { IsOk result }
        ensures failed { IfOk result (λ g. g.failed ≡ false) }
        ensures table { IfOk result (λ g. g.table ≡ table) }
        ensures image { IfOk result (λ g. g.image ≡ no_classes) }
        ensures filed { IfOk result (λ g. g.filed ≡ []) }
        ensures empty { IfOk result (λ g. g ≡ new_graph N.codes analysis table) }
    {
        Self::with_subst_method(alloc, table, analysis, SubstMethod::SynExpr)
    }

    /// Returns the graph without classes whose substitutions look into the terms that the method says. Takes no memory.
    pub fn with_subst_method(
        alloc: Global,
        table: SlotTable,
        analysis: N,
        method: SubstMethod,
    ) -> Result<Self, Error>
        ensures answers { IsOk result }
        ensures failed { IfOk result (λ g. g.failed ≡ false) }
        ensures table { IfOk result (λ g. g.table ≡ table) }
        ensures image { IfOk result (λ g. g.image ≡ no_classes) }
        ensures filed { IfOk result (λ g. g.filed ≡ []) }
        ensures empty { IfOk result (λ g. g ≡ new_graph N.codes analysis table) }
    {
        Ok(EGraph {
            failed: false,
            store: Store::new(alloc),
            nodes: Hashcons::new(alloc),
            index: IndexCache::new(),
            table,
            data: ClassData::new(alloc),
            analysis,
            rounds: USUAL_ROUNDS,
            method,
            alloc,
        })
    }

    /// Returns which terms the graph's substitutions look into. Takes no memory.
    pub fn subst_method(&self) -> SubstMethod {
        self.method
    }

    /// Makes the graph a failed one, for a write of a crate above that runs out of memory or slots. Takes no memory.
    pub fn fail(&mut self)
        ensures { self.new ≡ record self.old { failed = true } }
    {
        self.failed = true;
    }

    /// Returns the graph's table of slots.
    pub fn table(&self) -> &SlotTable
        ensures { result.now ≡ self.now.table }
    {
        &self.table
    }

    /// Returns the graph's table of slots, and drops the graph, which may have failed.
    pub fn into_table(self) -> SlotTable
        ensures { result ≡ self.table }
    {
        self.table
    }

    /// Returns whether a call that changes the graph ran out of memory or slots.
    pub fn is_failed(&self) -> bool
        ensures failed { result ≡ self.now.failed }
        ensures canonical { IsTrue self.now.failed ⊎ Canonical self.now.image.canonical }

        // In each graph that has not failed, a step proves each entry of the proof list over earlier entries, or the
        // entry is asserted. No equation stands twice.
        ensures proved { IsTrue self.now.failed ⊎ Proved self.now.image.canonical self.now.image.entries }

        // In each graph that has not failed, a look-up answers the syntactic e-node of each class, by an id that is
        // found equal to the class.
        ensures nodes { IsTrue self.now.failed ⊎ AreLookedUp self.now }

        // In each graph that has not failed, an id represents its canonical term if no open symmetry affects its class.
        ensures terms { IsTrue self.now.failed ⊎ AreRepresented self.now }

        // Each graph that has not failed has a rebuilt state of the model.
        ensures rests { IsTrue self.now.failed ⊎ IsGraph self.now }
    {
        self.failed
    }

    /// Returns whether an applied id is of this graph: its class is, and it has different known names for slots of the
    /// class, among them all that are not redundant.
    ///
    /// A valid id stays valid. No id is valid in a failed graph. Takes no memory.
    pub fn is_valid(&self, a: &AppliedId) -> bool
        ensures { IsTrue result ↔ ((self.now.failed ≡ false) × IsValidId self.now (to_applied a.now)) }
    {
        !self.failed && is_valid(&self.store, &self.table, a)
    }

    /// Returns whether an applied id is valid, and has a name for each slot of its class, redundant ones included. No
    /// id is full in a failed graph. Takes no memory.
    pub fn is_full(&self, a: &AppliedId) -> bool
        ensures { IsTrue result ↔ ((self.now.failed ≡ false) × IsFullId self.now (to_applied a.now)) }
    {
        !self.failed && is_full_id(&self.store, &self.table, a)
    }

    /// Returns whether an e-node is over this graph: its slots are known, its children are valid, and it has fewer than
    /// 2^30 places. No e-node is valid in a failed graph. Takes no memory.
    pub fn is_valid_node(&self, node: &L) -> bool
        ensures { IsTrue result ↔ ((self.now.failed ≡ false) × IsValidNode self.now (L.form node.now)) }
    {
        !self.failed && is_valid_node(&self.store, &self.table, node)
    }

    /// Returns whether a term can be added: each e-node has the right number of children, and own slots that the table
    /// knows.
    ///
    /// The child ids inside the e-nodes are not read. An e-node with 2^30 places or more cannot be numbered, and a term
    /// with one is not valid. No term is valid in a failed graph. If memory for a list is refused, no answer changes.
    pub fn is_valid_expr(&self, term: &RecExpr<L>) -> bool
        ensures failed { IsTrue result → self.now.failed ≡ false }
        ensures valid { IsTrue result → IsValidTerm self.now.table term.now }

        // No term shows the ids inside its e-nodes. So true is promised if no e-node that could stand in the term is
        // too large.
        ensures exact { self.now.failed ≡ false → IsSmallValidTerm L.form self.now.table term.now → IsTrue result }
    {
        !self.failed && is_valid_term(&self.table, term)
    }

    /// Returns whether two ids are found equal: `find` maps them to the same class with the same names. The ids may
    /// omit names of redundant slots. Takes no memory.
    ///
    /// If the answer is true, the ids are equal by what was asserted. If it is false, they are not, unless open
    /// symmetries affect the classes of both. An open symmetry is one of `symmetries_met` to whose two sides `eq`
    /// answers false. It affects its class, and each class with an e-node over an affected one.
    pub fn eq(&self, a: &AppliedId, b: &AppliedId) -> Result<bool, Error>
        requires left { IsTrue self.now.failed ⊎ IsValidId self.now (to_applied a.now) }
        requires right { IsTrue self.now.failed ⊎ IsValidId self.now (to_applied b.now) }
        ensures found { IfOk result (λ y. IsTrue y ↔ FoundAlike self.now.image (to_applied a.now) (to_applied b.now)) }

        // If the answer is true, the ids are derivably equal, whatever names are filled in for those that they omit. If
        // nothing was asserted, ids omit none, and the answer is whether the canonical terms are equal.
        ensures filled { IfOk result (SaysFillingsEqual self.now.image (to_applied a.now) (to_applied b.now)) }
        ensures whole { OnOk result (LackNothing self.now.image (to_applied a.now) (to_applied b.now)) }
        ensures equal { IfOk result (SaysEqual self.now.image (to_applied a.now) (to_applied b.now)) }
        ensures derivable { IfOk result (SaysDerivable self.now.image (to_applied a.now) (to_applied b.now)) }
        ensures terms { IfOk result (SaysTerms self.now.image (to_applied a.now) (to_applied b.now)) }

        // The answer is true if what the ids stand for is derivably equal for some names that are filled in, unless
        // open symmetries affect both. That holds through terms that were never added, and under binders.
        ensures complete { IfOk result (IsYesIfDerivable self.now.image (to_applied a.now) (to_applied b.now)) }
        ensures complete_equal { IfOk result (IsYesIfEqual self.now.image (to_applied a.now) (to_applied b.now)) }

        ensures failed { IsErrOf result Error.Failed ↔ IsTrue self.now.failed }
        ensures only { IsOkUnless result Error.Failed }
    {
        if self.failed {
            return Err(Error::Failed);
        }
        Ok(self.store.eq(a, b))
    }

    /// Returns the term that a text writes, as `RecExpr::parse` reads it. Each slot's name is looked up or kept in the
    /// graph's table.
    ///
    /// A text that is refused does not fail the graph. The names that were read before the error stay in the table.
    pub fn parse_expr(&mut self, text: &str) -> Result<RecExpr<L>, Error>
        // The answer is that of the text over the graph's table, and the term can be added.
        ensures answer { AnswersTerm L.read self.old self.new text.now result }
        ensures valid { IfOk result (λ t. IsValidTerm self.new.table t) }

        // The term was read as a pattern of e-nodes of the language. So what it prints reads as itself
        // (`each_term_reads_as_itself`).
        ensures nodes { IfOk result (NodesAreRead L.form L.read self.old self.new text.now) }

        // Only the table changes. On a failed graph nothing changes.
        ensures reads { OnlyReads self.old self.new }
        ensures stays { IsTrue self.old.failed → self.new ≡ self.old }

        ensures failed { IsErrOf result Error.Failed ↔ IsTrue self.old.failed }
    {
        if self.failed {
            return Err(Error::Failed);
        }
        RecExpr::parse(self.alloc, text, &mut self.table)
    }

    /// Unites two ids as `union_justified` does, and modifies no class. New classes, and those whose data has changed,
    /// wait to be modified.
    pub fn union_quietly(
        &mut self,
        l: &AppliedId,
        r: &AppliedId,
        text: Option<String>,
    ) -> Result<bool, Error>
        requires left { IsTrue self.old.failed ⊎ IsValidId self.old (to_applied l.now) }
        requires right { IsTrue self.old.failed ⊎ IsValidId self.old (to_applied r.now) }

        // The answer is true if `eq` answered false before. The equation stands in the proof list then, and what was
        // there stays.
        ensures union { IfOk result (IsUnion self.old.image self.new.image (to_applied l.now) (to_applied r.now)) }

        // If the equation was not proved before, it is a new entry, asserted with the text.
        ensures text { OnOk result (RecordsUnion self.old self.new l.now r.now (text_bytes text)) }

        // If the answer is false, no e-node is filed anew. No class is added, and no more are live. If as many are live
        // as before, they have no more slots.
        ensures filed { IfOk result (λ y. y ≡ false → self.new.filed ≡ self.old.filed) }
        ensures counts { OnOk result (NeverRises self.old.image self.new.image) }

        // The rebuild found no more e-nodes than were filed, and no greater size than the graph had.
        ensures counted { OnOk result (CountsUnion self.old self.new) }
        ensures table { self.new.table ≡ self.old.table }
        ensures carries { OnOk result (CarriesData N.codes N.meaning self.old self.new) }

        // A graph that has not failed is rebuilt.
        ensures rests { IsTrue self.new.failed ⊎ IsGraph self.new }

        ensures stays { IsTrue self.old.failed → self.new ≡ self.old }
        ensures failed { IsErrOf result Error.Failed ↔ IsTrue self.old.failed }
        ensures fails { IsTrue self.new.failed ↔ IsErr result }
        ensures full { IsErrOf result Error.OutOfSlots → HasLargeClassIn self.old.image }
        ensures only { IfErr result (λ e. (e ≡ Error.Failed) ⊎ IsShortage e) }
    {
        if self.failed {
            return Err(Error::Failed);
        }
        self.failed = true;
        self.index.clear();
        let answer = uniting::union(
            &mut self.store,
            &mut self.nodes,
            &mut self.data,
            &self.analysis,
            self.alloc,
            l,
            r,
            text,
        )?;
        self.failed = false;
        Ok(answer)
    }

    /// Returns the symmetries that unions met, in the order in which they were met. Each says that a class equals
    /// itself with its slots in another order. A symmetry is open until its two sides are found equal.
    pub fn symmetries_met(&self) -> &[Symmetry]
        ensures list { map symmetry_entry result.now ≡ self.now.image.symmetries }
        ensures each { IsTrue self.now.failed ⊎ AreSymmetries self.now.image }
        ensures once { IsTrue self.now.failed ⊎ AreListedOnce self.now.image }

        // So `eq` can be asked of the two sides of each symmetry.
        ensures sides { IsTrue self.now.failed ⊎ HaveValidSides self.now }
    {
        self.store.symmetries()
    }

    /// Returns how many of the symmetries that unions met are open. Takes no memory.
    pub fn open_symmetries(&self) -> Result<usize, Error>
        ensures count { IfOk result (CountsOpen self.now.image self.now.image.symmetries) }
        ensures failed { IsErrOf result Error.Failed ↔ IsTrue self.now.failed }
        ensures only { IsOkUnless result Error.Failed }
    {
        if self.failed {
            return Err(Error::Failed);
        }
        Ok(open_symmetries(&self.store))
    }

    /// Returns the numbers of the asserted equations, in the order in which they were entered.
    pub fn asserted(&self) -> &[ProvenEq]
        ensures { result.now ≡ explicit_numbers self.now.image.entries }
    {
        self.store.asserted()
    }

    /// Returns the number of proved equations.
    pub fn proof_count(&self) -> usize
        ensures { result ≡ length self.now.image.entries }
    {
        self.store.proof_count()
    }
}
