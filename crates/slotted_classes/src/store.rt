//! The lists of a graph: its e-classes, their syntactic e-nodes by shape, the listed symmetries and the proved
//! equations. There is a call for each single write.
ghost use Rattle.std.specs.Prelude.{◌≡◌, ◌≢◌, ◌+◌, ◌≤◌, ◌<◌, length, map, IfOk, IfErr, OnOk, OnErr, IsErrOf, None, All, ◌⊎◌};
ghost use Rattle.std.specs.Prelude.{option_map, ◌↔◌, suc, ◌^◌};
ghost use Rattle.slotted_theory.specs.FiniteMaps.{IsInjectiveMap};
ghost use Rattle.slotted_slots.specs.Error.{IsOutOfMemory, IsShortage};
ghost use Rattle.slotted_slots.specs.Table.{slot_limit};
ghost use Rattle.slotted_nodes.specs.Form.{IsSmall};
ghost use Rattle.slotted_model.specs.Find.{IsLive};
ghost use Rattle.slotted_model.specs.ProofList.{reflexive, symmetric, transitive, congruent};
ghost use Rattle.slotted_proofs.specs.Equations.{to_applied, Meets, HasManyNames};
ghost use Rattle.slotted_proofs.specs.Entries.{statement_at, explicit_numbers, turned_entry, composite_entry};
ghost use Rattle.slotted_proofs.specs.Steps.{IsReflexiveStep, IsSymmetricStep, IsTransitiveStep, AreEntries};
ghost use Rattle.slotted_proofs.specs.Steps.{HasInjectiveSides, IsLarge, IsRefusal};
ghost use Rattle.slotted_classes.specs.Kept.{MakesClass, EntersIn, EntersAsserted, EntersBy, HasManySlots, text_bytes};
ghost use Rattle.slotted_classes.specs.Kept.{nothing, node_at, find_at, names_at, entries_of, proofs_of, found, symmetry_entry};
ghost use Rattle.slotted_classes.specs.Counts.{last_count, noted};
ghost use Rattle.slotted_classes.specs.Kept.{ListsDead, size_of, with_counts};
ghost use Rattle.slotted_classes.specs.Kept.{with_class, with_linked, with_shortcut, with_fewer, with_listed, with_settled};

use crate::counts::RebuildCount;
use crate::names::{map_between, put_at_places};
use indexmap::IndexMap;
use slotted_languages::Language;
use slotted_proofs::{Equation, ProofList, ProvenEq};
use slotted_slots::{AppliedId, Error, Id, SlotMap};
use std::alloc::Global;
use std::marker::Model;
use std::mem;

/// An e-class.
///
/// A class has an entry: the class that it leads to, with a slot of its own for each slot of that, and the proof of
/// this. A live class leads to itself. A class also has its syntactic e-node, over its own slots, and the moment of
/// its link.
///
/// Beside them stands an entry of the proof list that no clause speaks of: the one that was last found to say what
/// `find` maps the class to. The fields that `find` and its proofs read stand together.
#[derive(Drop)]
pub struct Class<L> {
    find: AppliedId,
    proof: ProvenEq,
    last_proof: ProvenEq,
    node: L,
    died: usize,
}

/// A row: the source class of an e-node, and the slot of that class for each number of the e-node's shape.
#[derive(Drop)]
pub struct Row {
    /// The class whose syntactic e-node this is.
    pub source: Id,
    /// The slot of the class for each number of the shape.
    pub names: SlotMap,
}

/// A symmetry that was met: a class equals itself with the slots that it had then in another order, by a proof.
#[derive(Drop)]
pub struct Symmetry {
    /// The equation of the class with itself.
    pub equation: Equation,
    /// The proof of the equation.
    pub proof: ProvenEq,
}

/// The lists of a graph.
///
/// They are the classes by their ids, their syntactic e-nodes by shape, the symmetries in the order in which they
/// were met, and the proved equations. A flag says whether a slot became redundant since all symmetries were found
/// aligned.
///
/// Beside them stand the number of links, the classes that died, in order, the size of the graph, and counts of
/// rebuilds. No clause speaks of one list: the classes whose finds were proved step by step since paths were compressed
/// last.
#[derive(Drop)]
pub struct Store<L: Language> {
    classes: Vec<Class<L>>,
    rows: IndexMap<L, Row>,
    symmetries: Vec<Symmetry>,
    dropped: bool,
    proofs: ProofList,
    moment: usize,
    deaths: Vec<usize>,
    walked: Vec<usize>,
    size: u128,
    count: RebuildCount,
    total_turns: u64,
    total_bound: u128,
}

impl<L: Language> Model for Store<L> {
    ghost use Rattle.std.specs.Prelude.{map};
    ghost use Rattle.slotted_classes.specs.Kept.{Kept, IsCounted, class_entry, row_entry, symmetry_entry, kept_code};
    ghost use Rattle.slotted_classes.specs.Counts.{counts_of};

    ghost Value = { Kept };

    ghost coded = { kept_code };

    ghost view = { λ c. record {
      classes = map (class_entry L.form) c.classes.items;
      rows = map (row_entry L.form) c.rows.entries;
      symmetries = map symmetry_entry c.symmetries.items;
      dropped = c.dropped;
      proofs = c.proofs;
      moment = c.moment;
      deaths = c.deaths.items;
      counts = counts_of c.count c.total_turns c.total_bound;
    } };

    ghost invariant = { λ c. IsCounted c.moment c.size c.deaths.items (map (class_entry L.form) c.classes.items) };
}

// Returns the size of a live class: one for itself, and one for each of its slots.
fn map_size(slots: &SlotMap) -> u128
    ensures value { result ≡ suc (length slots.now) }
    ensures bound { result ≤ 2 ^ 64 }
{
    slots.len() as u128 + 1
}

impl<L: Language> Store<L> {
    /// Returns the lists of a graph without classes.
    pub fn new(alloc: Global) -> Self
        ensures { result ≡ nothing }
    {
        Store {
            classes: Vec::new(alloc),
            rows: IndexMap::new(alloc),
            symmetries: Vec::new(alloc),
            dropped: false,
            proofs: ProofList::new(alloc),
            moment: 0,
            deaths: Vec::new(alloc),
            walked: Vec::new(alloc),
            size: 0,
            count: RebuildCount {
                nodes: 0,
                size_before: 0,
                size_after: 0,
                turns: 0,
            },
            total_turns: 0,
            total_bound: 0,
        }
    }

    // Reads and single writes, each with an exact contract.

    /// Returns the number of classes, dead ones included.
    pub fn class_count(&self) -> usize
        ensures { result ≡ length self.now.classes }
    {
        self.classes.len()
    }

    /// Returns the syntactic e-node of a class.
    pub fn node_of(&self, id: usize) -> &L
        requires { id < length self.now.classes }
        ensures { L.form result.now ≡ node_at self.now id }
    {
        &self.classes[id].node
    }

    /// Returns the class that a class leads to, with a slot of its own for each slot of that.
    pub fn entry(&self, id: usize) -> &AppliedId
        requires { id < length self.now.classes }
        ensures { to_applied result.now ≡ ((find_at self.now id).class, (find_at self.now id).pairs) }
    {
        &self.classes[id].find
    }

    /// Returns the proof of what a class leads to.
    pub fn proof_of(&self, id: usize) -> ProvenEq
        requires { id < length self.now.classes }
        ensures { result ≡ (find_at self.now id).proof }
    {
        self.classes[id].proof
    }

    /// Returns the entry of the proof list that was kept beside a class. The caller checks whether it says what
    /// `find` maps the class to now.
    pub fn last_proof(&self, id: usize) -> ProvenEq
        requires { id < length self.now.classes }
    {
        self.classes[id].last_proof
    }

    /// Keeps an entry of the proof list beside a class.
    pub fn set_last_proof(&mut self, id: usize, p: ProvenEq)
        requires { id < length self.old.classes }
        ensures { self.new ≡ self.old }
    {
        self.classes[id].last_proof = p;
    }

    /// Returns the row of a shape.
    pub fn row(&self, shape: &L) -> Option<&Row>
        ensures { option_map (λ r. (r.now.source.0, r.now.names)) result ≡ found self.now.rows (L.form shape.now) }
    {
        self.rows.get(shape)
    }

    /// Returns the slots of the class of a row, one for each number of the shape. The rows stand in the order of the
    /// class ids.
    pub fn names_of(&self, id: usize) -> &SlotMap
        requires { id < length self.now.rows }
        ensures { result.now ≡ names_at self.now id }
    {
        match self.rows.get_index(id) {
            Some((_, row)) => &row.names,
            None => unreachable!(),
        }
    }

    /// Returns the listed symmetries, in the order in which they were met.
    pub fn symmetries(&self) -> &[Symmetry]
        ensures { map symmetry_entry result.now ≡ self.now.symmetries }
    {
        &self.symmetries
    }

    /// Returns whether a slot became redundant since all symmetries were found aligned.
    pub fn is_dropped(&self) -> bool
        ensures { result ≡ self.now.dropped }
    {
        self.dropped
    }

    // Adds a class, and the row of its syntactic e-node.
    fn file(&mut self, shape: L, row: Row, class: Class<L>) -> Result<(), Error>
        requires absent { found self.old.rows (L.form shape) ≡ None }
        requires live { class.find.id.0 ≡ length self.old.classes }
        ensures ok { OnOk result (self.new ≡ with_class L.form self.old shape row class) }
        ensures err { IfErr result IsOutOfMemory }
    {
        let more = map_size(&class.find.m);
        self.rows.insert(shape, row)?;
        self.classes.push(class)?;
        self.size += more;
        Ok(())
    }

    /// Enters that two ids are equal because the caller says so, and returns the number of the equation.
    pub fn assert_equal(
        &mut self,
        alloc: Global,
        l: &AppliedId,
        r: &AppliedId,
        text: Option<String>,
    ) -> Result<ProvenEq, Error>
        requires left { IsInjectiveMap l.now.m }
        requires right { IsInjectiveMap r.now.m }
        ensures ok { IfOk result (EntersAsserted self.old self.new l.now r.now (text_bytes text)) }
        ensures full { IsErrOf result Error.OutOfSlots → slot_limit ≤ length l.now.m + length r.now.m }
        ensures err { IfErr result IsShortage }
    {
        self.proofs.enter_explicit(alloc, l, r, text)
    }

    /// Enters the equation of a proof, turned round.
    pub fn turn(&mut self, alloc: Global, p: ProvenEq) -> Result<ProvenEq, Error>
        requires { p < length self.old.proofs }
        ensures ok { IfOk result (EntersIn self.old self.new (turned_entry self.old.proofs p)) }
        ensures full { IsErrOf result Error.OutOfSlots → HasManySlots self.old p p }
        ensures err { IfErr result IsShortage }
    {
        self.proofs.enter_symmetric(alloc, p)
    }

    /// Enters the equations of two proofs, put together one after the other.
    pub fn chain(&mut self, alloc: Global, p: ProvenEq, q: ProvenEq) -> Result<ProvenEq, Error>
        requires first { p < length self.old.proofs }
        requires second { q < length self.old.proofs }
        requires meets { Meets (statement_at self.old.proofs p) (statement_at self.old.proofs q) }
        ensures ok { IfOk result (EntersIn self.old self.new (composite_entry self.old.proofs p q)) }
        ensures full { IsErrOf result Error.OutOfSlots → HasManySlots self.old p q }
        ensures err { IfErr result IsShortage }
    {
        self.proofs.enter_transitive(alloc, p, q)
    }

    /// Links a live class to another one, with a slot of its own for each slot of that, by this proof. The class is
    /// dead from now on.
    pub fn set_link(&mut self, dead: usize, find: AppliedId, proof: ProvenEq) -> Result<(), Error>
        requires within { dead < length self.old.classes }
        requires live { IsLive (entries_of self.old) dead }
        requires different { find.id.0 ≢ dead }
        ensures ok { OnOk result (self.new ≡ with_linked self.old dead find.id.0 find.m proof) }
        ensures err { IfErr result IsOutOfMemory }
    {
        self.deaths.push(dead)?;
        let moment = self.moment;
        let class = &mut self.classes[dead];
        let less = map_size(&class.find.m);
        class.find = find;
        class.proof = proof;
        class.died = moment;
        self.moment = moment + 1;
        self.size -= less;
        Ok(())
    }

    /// Makes a dead class lead at once to the class that it finds, by this proof. The moment of its death stays.
    pub fn set_shortcut(&mut self, dead: usize, find: AppliedId, proof: ProvenEq)
        requires within { dead < length self.old.classes }
        requires dead { ¬ IsLive (entries_of self.old) dead }
        requires different { find.id.0 ≢ dead }
        ensures { self.new ≡ with_shortcut self.old dead find.id.0 find.m proof }
    {
        let entry = &mut self.classes[dead];
        entry.find = find;
        entry.proof = proof;
    }

    /// Notes that the find of a class was proved step by step. `take_walked` hands these classes out.
    pub fn note_walk(&mut self, id: usize) -> Result<(), Error>
        ensures same { self.new ≡ self.old }
        ensures err { IfErr result IsOutOfMemory }
    {
        self.walked.push(id)?;
        Ok(())
    }

    /// Returns the classes that `note_walk` noted, in order, and forgets them.
    pub fn take_walked(&mut self, alloc: Global) -> Vec<usize>
        ensures { self.new ≡ self.old }
    {
        mem::replace(&mut self.walked, Vec::new(alloc))
    }

    /// Returns the classes that died, in order.
    pub fn deaths(&self) -> &[usize]
        ensures list { result.now ≡ self.now.deaths }
        ensures just { ListsDead self.now.deaths (entries_of self.now) }
    {
        &self.deaths
    }

    /// Returns the size of the graph: the number of its live classes and of their slots.
    pub fn size(&self) -> u128
        ensures { result ≡ size_of self.now }
    {
        self.size
    }

    /// Notes what a rebuild did: the number of filed e-nodes and the size that it found, and its turns. The size that
    /// it left is the present one.
    pub fn note(&mut self, nodes: usize, size_before: u128, turns: u64)
        ensures { self.new ≡ with_counts self.old (noted self.old.counts nodes size_before (size_of self.old) turns) }
    {
        let fall = size_before.saturating_sub(self.size);
        let bound = (nodes as u128).saturating_mul(fall.saturating_add(1));
        self.count = RebuildCount {
            nodes,
            size_before,
            size_after: self.size,
            turns,
        };
        self.total_turns = self.total_turns.saturating_add(turns);
        self.total_bound = self.total_bound.saturating_add(bound);
    }

    /// Returns what the last rebuild did.
    pub fn last_rebuild(&self) -> RebuildCount
        ensures { result ≡ last_count self.now.counts }
    {
        self.count
    }

    /// Returns how many turns all rebuilds took, and how many their bounds allow. A sum that would be too large stays
    /// at the largest number.
    pub fn rebuild_totals(&self) -> (u64, u128)
        ensures { result ≡ (self.now.counts.total_turns, self.now.counts.total_bound) }
    {
        (self.total_turns, self.total_bound)
    }

    /// Returns the proof list.
    pub fn proofs(&self) -> &ProofList
        ensures { result.now ≡ self.now.proofs }
    {
        &self.proofs
    }

    /// Returns the number of proved equations.
    pub fn proof_count(&self) -> usize
        ensures { result ≡ length self.now.proofs }
    {
        self.proofs.len()
    }

    /// Returns the numbers of the asserted equations, in order.
    pub fn asserted(&self) -> &[ProvenEq]
        ensures { result.now ≡ explicit_numbers (proofs_of self.now) }
    {
        self.proofs.asserted()
    }

    /// Adds a class for a shape, with these slots for its numbers, and the entry that the class equals itself.
    pub fn make_class(&mut self, alloc: Global, shape: L, slots: SlotMap) -> Result<(), Error>
        requires few { IsSmall (L.form shape) }
        requires absent { found self.old.rows (L.form shape) ≡ None }
        requires different { IsInjectiveMap slots }
        ensures ok { OnOk result (MakesClass self.old self.new (L.form shape) slots) }
        ensures full { IsErrOf result Error.OutOfSlots → slot_limit ≤ length slots }
        ensures err { IfErr result IsShortage }
    {
        let id = Id(self.class_count());
        let find = AppliedId {
            id,
            m: map_between(alloc, &slots, &slots)?,
        };
        let proof = self.proofs.enter_reflexive(alloc, &find)?;
        let mut node = shape.copy(alloc)?;
        put_at_places(&mut node, &slots);
        let row = Row {
            source: id,
            names: slots,
        };
        let class = Class {
            node,
            find,
            proof,
            died: 0,
            last_proof: proof,
        };
        self.file(shape, row, class)?;
        Ok(())
    }

    /// Shrinks a live class to fewer slots, by this proof.
    pub fn set_slots(&mut self, live: usize, slots: SlotMap, proof: ProvenEq)
        requires within { live < length self.old.classes }
        requires live { IsLive (entries_of self.old) live }
        ensures { self.new ≡ with_fewer self.old live slots proof }
    {
        let more = map_size(&slots);
        let class = &mut self.classes[live];
        let less = map_size(&class.find.m);
        class.find = AppliedId {
            id: Id(live),
            m: slots,
        };
        class.proof = proof;
        class.died = 0;
        self.dropped = true;
        self.size = self.size - less + more;
    }

    /// Lists a symmetry.
    pub fn list(&mut self, symmetry: Symmetry) -> Result<(), Error>
        ensures ok { OnOk result (self.new ≡ with_listed self.old (symmetry_entry symmetry)) }
        ensures err { IfErr result IsOutOfMemory }
    {
        self.symmetries.push(symmetry)?;
        Ok(())
    }

    /// Notes that all symmetries are aligned.
    pub fn settle(&mut self)
        ensures { self.new ≡ with_settled self.old }
    {
        self.dropped = false;
    }

    // Steps that a caller asks for. Each changes the proof list alone, and changes nothing on an error.

    /// Enters the equation if both of its sides are equal, and returns its number.
    pub fn prove_reflexive(&mut self, alloc: Global, equation: &Equation) -> Result<ProvenEq, Error>
        requires left { IsInjectiveMap equation.now.l.m }
        requires right { IsInjectiveMap equation.now.r.m }
        ensures fits { IfOk result (λ _. IsReflexiveStep equation.now) }
        ensures ok { IfOk result (EntersBy self.old self.new equation.now reflexive) }
        ensures refused { IsErrOf result Error.BadStep → ¬ IsReflexiveStep equation.now }
        ensures full { IsErrOf result Error.OutOfSlots → slot_limit ≤ length equation.now.l.m }
        ensures only { IfErr result IsRefusal }
        ensures err { OnErr result (self.new ≡ self.old) }
    {
        self.proofs.prove_reflexive(alloc, equation)
    }

    /// Enters the equation if that of the part, turned round, matches it, and returns its number.
    pub fn prove_symmetric(
        &mut self,
        alloc: Global,
        equation: &Equation,
        p: ProvenEq,
    ) -> Result<ProvenEq, Error>
        requires left { IsInjectiveMap equation.now.l.m }
        requires right { IsInjectiveMap equation.now.r.m }
        ensures fits { IfOk result (λ _. IsSymmetricStep self.old.proofs equation.now p) }
        ensures ok { IfOk result (EntersBy self.old self.new equation.now (symmetric p)) }
        ensures refused { IsErrOf result Error.BadStep → ¬ IsSymmetricStep self.old.proofs equation.now p }
        ensures full { IsErrOf result Error.OutOfSlots ↔ HasManyNames equation.now }
        ensures only { IfErr result IsRefusal }
        ensures err { OnErr result (self.new ≡ self.old) }
    {
        self.proofs.prove_symmetric(alloc, equation, p)
    }

    /// Enters the equation if those of the two parts, one after the other, give it by some names for the middle.
    /// Returns its number.
    pub fn prove_transitive(
        &mut self,
        alloc: Global,
        equation: &Equation,
        p: ProvenEq,
        q: ProvenEq,
    ) -> Result<ProvenEq, Error>
        requires left { IsInjectiveMap equation.now.l.m }
        requires right { IsInjectiveMap equation.now.r.m }
        ensures fits { IfOk result (λ _. IsTransitiveStep self.old.proofs equation.now p q) }
        ensures ok { IfOk result (EntersBy self.old self.new equation.now (transitive p q)) }
        ensures refused { IsErrOf result Error.BadStep → ¬ IsTransitiveStep self.old.proofs equation.now p q }
        ensures full { IsErrOf result Error.OutOfSlots → HasManyNames equation.now }
        ensures only { IfErr result IsRefusal }
        ensures err { OnErr result (self.new ≡ self.old) }
    {
        self.proofs.prove_transitive(alloc, equation, p, q)
    }

    /// Enters the equation if the equation of each part matches that of the children there, and returns its number.
    pub fn prove_congruent(
        &mut self,
        alloc: Global,
        equation: &Equation,
        children: &[Equation],
        parts: Vec<ProvenEq>,
    ) -> Result<ProvenEq, Error>
        requires left { IsInjectiveMap equation.now.l.m }
        requires right { IsInjectiveMap equation.now.r.m }
        requires children { All HasInjectiveSides children.now }
        ensures fits { IfOk result (λ _. AreEntries self.old.proofs parts.items children.now) }
        ensures ok { IfOk result (EntersBy self.old self.new equation.now (congruent parts.items)) }
        ensures refused { IsErrOf result Error.BadStep → ¬ AreEntries self.old.proofs parts.items children.now }
        ensures full { IsErrOf result Error.OutOfSlots → HasManyNames equation.now ⊎ IsLarge children.now }
        ensures only { IfErr result IsRefusal }
        ensures err { OnErr result (self.new ≡ self.old) }
    {
        self.proofs
            .prove_congruent(alloc, equation, children, parts)
    }
}
