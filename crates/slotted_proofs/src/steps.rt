//! Steps that callers ask for. An equation is entered by a step only if the step fits it.
ghost use Rattle.std.specs.Prelude.{All, ◌≡◌, ◌⊎◌, ◌≤◌, ◌↔◌, length, IsTrue, IfOk, IfErr, OnErr, IsErrOf};
ghost use Rattle.slotted_theory.specs.FiniteMaps.{IsInjectiveMap};
ghost use Rattle.slotted_slots.specs.Error.{IsOutOfMemory, IsShortage};
ghost use Rattle.slotted_slots.specs.Table.{slot_limit};
ghost use Rattle.slotted_model.specs.Applied.{keys};
ghost use Rattle.slotted_model.specs.ProofList.{congruent, reflexive, symmetric, transitive};
ghost use Rattle.slotted_proofs.specs.Equations.{to_applied, statement_of, IsWritten, HaveManyNames, HasManyNames};
ghost use Rattle.slotted_proofs.specs.Entries.{Stands};
ghost use Rattle.slotted_proofs.specs.Steps.{AreAsked, IsAsked, AreEntries, AreFull, HasInjectiveSides, IsLarge, HalvesGoOver, HalvesJoin, PairsJoin, IsEntry, IsOver, IsSideOver, IsReflexiveStep, IsSymmetricStep, IsTransitiveStep, FitsReflexive, FitsSymmetric, FitsTransitive, IsRefusal, EntersStep, known_pairs, reached_pairs};

use crate::equation::Equation;
use crate::list::ProofList;
use crate::numbering::{numbered, numbered_itself, sent_along, shared_names, shared_over};
use crate::proof::{
    CongruenceProof, Proof, ProvenEq, ReflexivityProof, SymmetryProof, TransitivityProof,
};
use slotted_slots::{AppliedId, Error, Slot, SlotMap, SmallHashSet};
use std::alloc::Global;

// Joining two halves.

// Returns whether two maps have the same slots.
fn have_same_slots(a: &SlotMap, b: &SlotMap) -> bool
    ensures { IsTrue result ↔ (keys a.now ≡ keys b.now) }
{
    let mut others = b.iter();
    for (slot, _) in a.iter() {
        match others.next() {
            Some((other, _)) if other == slot => {}
            _ => return false,
        }
    }
    others.next().is_none()
}

// Returns whether two applied ids are of one class, over the same slots.
fn have_one_class(a: &AppliedId, b: &AppliedId) -> bool
    ensures { IsTrue result ↔ ((a.now.id.0 ≡ b.now.id.0) × (keys a.now.m ≡ keys b.now.m)) }
{
    a.id.0 == b.id.0 && have_same_slots(&a.m, &b.m)
}

// Returns whether the halves begin, meet and end at the classes of the equation.
fn goes_over(whole: &Equation, first: &Equation, second: &Equation) -> bool
    ensures { IsTrue result ↔ HalvesGoOver whole.now first.now second.now }
{
    have_one_class(&whole.l, &first.l)
        && have_one_class(&first.r, &second.l)
        && have_one_class(&whole.r, &second.r)
}

// Returns what the asked pairs say of the slots that the first half knows.
fn known_pairs(alloc: Global, first: &Equation, asked: &SlotMap) -> Result<SlotMap, Error>
    requires left { IsInjectiveMap first.now.l.m }
    requires right { IsInjectiveMap first.now.r.m }
    ensures ok { IfOk result (λ m. m ≡ known_pairs first.now asked.now) }
    ensures err { IfErr result IsOutOfMemory }
{
    let known = shared_over(alloc, &first.l.m, &first.r.m, &first.r.m, &first.l.m)?;
    known.compose_partial(alloc, asked)
}

// Returns what the asked pairs say of the slots that the second half reaches.
fn reached_pairs(alloc: Global, asked: &SlotMap, second: &Equation) -> Result<SlotMap, Error>
    requires left { IsInjectiveMap second.now.l.m }
    requires right { IsInjectiveMap second.now.r.m }
    ensures ok { IfOk result (λ m. m ≡ reached_pairs asked.now second.now) }
    ensures err { IfErr result IsOutOfMemory }
{
    let reached = sent_along(alloc, asked, &second.r.m, &second.l.m)?;
    sent_along(alloc, &reached, &second.l.m, &second.r.m)
}

// Returns whether these pairs are what the asked ones say of the slots that the first half knows.
fn are_known(
    alloc: Global,
    over: &SlotMap,
    first: &Equation,
    asked: &SlotMap,
) -> Result<bool, Error>
    requires left { IsInjectiveMap first.now.l.m }
    requires right { IsInjectiveMap first.now.r.m }
    ensures ok { IfOk result (λ yes. IsTrue yes ↔ (over.now ≡ known_pairs first.now asked.now)) }
    ensures err { IfErr result IsOutOfMemory }
{
    let known = known_pairs(alloc, first, asked)?;
    Ok(*over == known)
}

// Returns whether these pairs are what the asked ones say of the slots that the second half reaches.
fn are_reached(
    alloc: Global,
    over: &SlotMap,
    asked: &SlotMap,
    second: &Equation,
) -> Result<bool, Error>
    requires left { IsInjectiveMap second.now.l.m }
    requires right { IsInjectiveMap second.now.r.m }
    ensures ok { IfOk result (λ yes. IsTrue yes ↔ (over.now ≡ reached_pairs asked.now second.now)) }
    ensures err { IfErr result IsOutOfMemory }
{
    let reached = reached_pairs(alloc, asked, second)?;
    Ok(*over == reached)
}

// Returns whether these pairs are what the asked ones say, both of the first half and of the second.
fn are_asked(
    alloc: Global,
    over: &SlotMap,
    first: &Equation,
    second: &Equation,
    asked: &SlotMap,
) -> Result<bool, Error>
    requires first { HasInjectiveSides first.now }
    requires second { HasInjectiveSides second.now }
    ensures ok { IfOk result (λ yes. IsTrue yes ↔ IsAsked over.now first.now second.now asked.now) }
    ensures err { IfErr result IsOutOfMemory }
{
    if !are_known(alloc, over, first, asked)? {
        return Ok(false);
    }
    are_reached(alloc, over, asked, second)
}

// Returns whether the two halves, one after the other, say what the asked pairs say of the slots that either half
// knows.
fn joins_as(
    alloc: Global,
    first: &Equation,
    second: &Equation,
    asked: &SlotMap,
) -> Result<bool, Error>
    requires first { HasInjectiveSides first.now }
    requires second { HasInjectiveSides second.now }
    ensures ok { IfOk result (λ yes. IsTrue yes ↔ AreAsked first.now second.now asked.now) }
    ensures err { IfErr result IsOutOfMemory }
{
    let over = shared_over(alloc, &first.l.m, &first.r.m, &second.l.m, &second.r.m)?;
    are_asked(alloc, &over, first, second, asked)
}

// Returns whether the halves give the equation by some choice of names for the middle.
fn can_join(
    alloc: Global,
    whole: &Equation,
    first: &Equation,
    second: &Equation,
) -> Result<bool, Error>
    requires whole { HasInjectiveSides whole.now }
    requires first { AreFull first.now }
    requires second { AreFull second.now }
    requires over { HalvesGoOver whole.now first.now second.now }
    ensures ok { IfOk result (λ yes. IsTrue yes ↔ PairsJoin whole.now first.now second.now) }
    ensures err { IfErr result IsOutOfMemory }
{
    let asked = shared_names(alloc, &whole.l.m, &whole.r.m)?;
    joins_as(alloc, first, second, &asked)
}

// Returns whether the halves give the equation.
fn is_joined(
    alloc: Global,
    whole: &Equation,
    first: &Equation,
    second: &Equation,
) -> Result<bool, Error>
    requires whole { HasInjectiveSides whole.now }
    requires first { AreFull first.now }
    requires second { AreFull second.now }
    ensures ok { IfOk result (λ yes. IsTrue yes ↔ HalvesJoin whole.now first.now second.now) }
    ensures err { IfErr result IsOutOfMemory }
{
    if !goes_over(whole, first, second) {
        return Ok(false);
    }
    can_join(alloc, whole, first, second)
}

// Equations over the slots of their classes.

// Returns whether a map has these slots.
fn has_slots(map: &SlotMap, slots: &SmallHashSet<Slot>) -> bool
    ensures { IsTrue result ↔ (keys map.now ≡ slots.now) }
{
    let mut pairs = map.iter();
    for asked in slots.as_slice() {
        match pairs.next() {
            Some((slot, _)) if slot == *asked => {}
            _ => return false,
        }
    }
    pairs.next().is_none()
}

// Returns whether a side is over these slots of its class, with different names.
fn is_side_over(side: &AppliedId, slots: &SmallHashSet<Slot>) -> bool
    ensures { IsTrue result ↔ IsSideOver (to_applied side.now) slots.now }
{
    side.m.is_bijection() && has_slots(&side.m, slots)
}

// Returns whether both sides of an equation are over these slots of their classes, with different names.
fn is_over(equation: &Equation, left: &SmallHashSet<Slot>, right: &SmallHashSet<Slot>) -> bool
    ensures { IsTrue result ↔ IsOver equation.now left.now right.now }
{
    is_side_over(&equation.l, left) && is_side_over(&equation.r, right)
}

impl ProofList {
    // Returns whether the entry with this number has this equation, whose names are numbered.
    fn has_at(&self, p: ProvenEq, equation: &Equation) -> bool
        requires { IsWritten (statement_of equation.now) equation.now }
        ensures { IsTrue result ↔ Stands self.now (statement_of equation.now) p }
    {
        self.is_valid(p) && *self.equ(p) == *equation
    }

    /// Returns whether the entry with this number says, up to renaming, that two applied ids are equal.
    pub fn is_entry(
        &self,
        alloc: Global,
        p: ProvenEq,
        l: &AppliedId,
        r: &AppliedId,
    ) -> Result<bool, Error>
        requires left { IsInjectiveMap l.now.m }
        requires right { IsInjectiveMap r.now.m }
        ensures ok { IfOk result (λ yes. IsTrue yes ↔ IsEntry self.now p (to_applied l.now) (to_applied r.now)) }
        ensures full { IsErrOf result Error.OutOfSlots ↔ HaveManyNames l.now.m r.now.m }
        ensures err { IfErr result IsShortage }
    {
        let asked = numbered(alloc, l, r)?;
        Ok(self.has_at(p, &asked))
    }

    // The steps. Each enters its equation only if the step fits it.

    /// Enters the equation if both of its sides are equal, and returns its number.
    pub fn prove_reflexive(&mut self, alloc: Global, equation: &Equation) -> Result<ProvenEq, Error>
        requires left { IsInjectiveMap equation.now.l.m }
        requires right { IsInjectiveMap equation.now.r.m }
        ensures fits { IfOk result (λ _. IsReflexiveStep equation.now) }
        ensures ok { IfOk result (EntersStep self.old self.new equation.now reflexive) }
        ensures refused { IsErrOf result Error.BadStep → ¬ IsReflexiveStep equation.now }
        ensures full { IsErrOf result Error.OutOfSlots → slot_limit ≤ length equation.now.l.m }
        ensures only { IfErr result IsRefusal }
        ensures err { OnErr result (self.new ≡ self.old) }
    {
        if equation.l != equation.r {
            return Err(Error::BadStep);
        }
        let asked = numbered_itself(alloc, &equation.l)?;
        self.enter(asked, Proof::Reflexivity(ReflexivityProof))
    }

    /// Enters the equation if that of the part, turned round, matches it, and returns its number.
    pub fn prove_symmetric(
        &mut self,
        alloc: Global,
        equation: &Equation,
        p: ProvenEq,
    ) -> Result<ProvenEq, Error>
        requires left { IsInjectiveMap equation.now.l.m }
        requires right { IsInjectiveMap equation.now.r.m }
        ensures fits { IfOk result (λ _. IsSymmetricStep self.old equation.now p) }
        ensures ok { IfOk result (EntersStep self.old self.new equation.now (symmetric p)) }
        ensures refused { IsErrOf result Error.BadStep → ¬ IsSymmetricStep self.old equation.now p }
        ensures full { IsErrOf result Error.OutOfSlots ↔ HasManyNames equation.now }
        ensures only { IfErr result IsRefusal }
        ensures err { OnErr result (self.new ≡ self.old) }
    {
        if !self.is_entry(alloc, p, &equation.r, &equation.l)? {
            return Err(Error::BadStep);
        }
        let proof = Proof::Symmetry(SymmetryProof(p));
        self.enter_equality(alloc, &equation.l, &equation.r, proof)
    }

    /// Enters the equation if those of the two parts, one after the other, give it by some names for the middle.
    /// Returns its number.
    pub fn prove_transitive(
        &mut self,
        alloc: Global,
        equation: &Equation,
        p: ProvenEq,
        q: ProvenEq,
    ) -> Result<ProvenEq, Error>
        requires left { IsInjectiveMap equation.now.l.m }
        requires right { IsInjectiveMap equation.now.r.m }
        ensures fits { IfOk result (λ _. IsTransitiveStep self.old equation.now p q) }
        ensures ok { IfOk result (EntersStep self.old self.new equation.now (transitive p q)) }
        ensures refused { IsErrOf result Error.BadStep → ¬ IsTransitiveStep self.old equation.now p q }
        ensures full { IsErrOf result Error.OutOfSlots → HasManyNames equation.now }
        ensures only { IfErr result IsRefusal }
        ensures err { OnErr result (self.new ≡ self.old) }
    {
        if !self.is_valid(p) || !self.is_valid(q) {
            return Err(Error::BadStep);
        }
        if !is_joined(alloc, equation, self.equ(p), self.equ(q))? {
            return Err(Error::BadStep);
        }
        let proof = Proof::Transitivity(TransitivityProof(p, q));
        self.enter_equality(alloc, &equation.l, &equation.r, proof)
    }

    // Returns whether each part says, up to renaming, what the equation of its children says.
    fn are_entries(
        &self,
        alloc: Global,
        parts: &[ProvenEq],
        children: &[Equation],
    ) -> Result<bool, Error>
        requires { All HasInjectiveSides children.now }
        ensures ok { IfOk result (λ yes. IsTrue yes ↔ AreEntries self.now parts.now children.now) }
        ensures full { IsErrOf result Error.OutOfSlots → IsLarge children.now }
        ensures err { IfErr result IsShortage }
    {
        if parts.len() != children.len() {
            return Ok(false);
        }
        for k in 0..parts.len() {
            let child = &children[k];
            if !self.is_entry(alloc, parts[k], &child.l, &child.r)? {
                return Ok(false);
            }
        }
        Ok(true)
    }

    /// Enters the equation of two e-nodes that agree, if each part says, up to renaming, what the equation of its
    /// children says. Returns its number.
    ///
    /// The children's equations are those of the two e-nodes with the names of the sides put in.
    pub fn prove_congruent(
        &mut self,
        alloc: Global,
        equation: &Equation,
        children: &[Equation],
        parts: Vec<ProvenEq>,
    ) -> Result<ProvenEq, Error>
        requires left { IsInjectiveMap equation.now.l.m }
        requires right { IsInjectiveMap equation.now.r.m }
        requires children { All HasInjectiveSides children.now }
        ensures fits { IfOk result (λ _. AreEntries self.old parts.items children.now) }
        ensures ok { IfOk result (EntersStep self.old self.new equation.now (congruent parts.items)) }
        ensures refused { IsErrOf result Error.BadStep → ¬ AreEntries self.old parts.items children.now }
        ensures full { IsErrOf result Error.OutOfSlots → HasManyNames equation.now ⊎ IsLarge children.now }
        ensures only { IfErr result IsRefusal }
        ensures err { OnErr result (self.new ≡ self.old) }
    {
        if !self.are_entries(alloc, &parts, children)? {
            return Err(Error::BadStep);
        }
        let proof = Proof::Congruence(CongruenceProof(parts));
        self.enter_equality(alloc, &equation.l, &equation.r, proof)
    }

    // The same steps, which also check that the equation is over the slots of its two classes.

    /// Enters the equation if it is over these slots of its classes, with different names on each side, and if both
    /// sides are equal.
    pub fn check_reflexive(
        &mut self,
        alloc: Global,
        equation: &Equation,
        left: &SmallHashSet<Slot>,
        right: &SmallHashSet<Slot>,
    ) -> Result<ProvenEq, Error>
        ensures fits { IfOk result (λ _. FitsReflexive equation.now left.now right.now) }
        ensures ok { IfOk result (EntersStep self.old self.new equation.now reflexive) }
        ensures refused { IsErrOf result Error.BadStep → ¬ FitsReflexive equation.now left.now right.now }
        ensures full { IsErrOf result Error.OutOfSlots → slot_limit ≤ length equation.now.l.m }
        ensures only { IfErr result IsRefusal }
        ensures err { OnErr result (self.new ≡ self.old) }
    {
        if !is_over(equation, left, right) {
            return Err(Error::BadStep);
        }
        self.prove_reflexive(alloc, equation)
    }

    /// Enters the equation if it is over these slots of its classes, with different names on each side, and if that
    /// of the part, turned round, matches it.
    pub fn check_symmetric(
        &mut self,
        alloc: Global,
        equation: &Equation,
        left: &SmallHashSet<Slot>,
        right: &SmallHashSet<Slot>,
        p: ProvenEq,
    ) -> Result<ProvenEq, Error>
        ensures fits { IfOk result (λ _. FitsSymmetric self.old equation.now left.now right.now p) }
        ensures ok { IfOk result (EntersStep self.old self.new equation.now (symmetric p)) }
        ensures refused { IsErrOf result Error.BadStep → ¬ FitsSymmetric self.old equation.now left.now right.now p }
        ensures full { IsErrOf result Error.OutOfSlots → HasManyNames equation.now }
        ensures only { IfErr result IsRefusal }
        ensures err { OnErr result (self.new ≡ self.old) }
    {
        if !is_over(equation, left, right) {
            return Err(Error::BadStep);
        }
        self.prove_symmetric(alloc, equation, p)
    }

    /// Enters the equation if it is over these slots of its classes, with different names on each side, and if the
    /// parts give it.
    ///
    /// The parts give it if their equations, one after the other, are this equation by some names for the middle.
    pub fn check_transitive(
        &mut self,
        alloc: Global,
        equation: &Equation,
        left: &SmallHashSet<Slot>,
        right: &SmallHashSet<Slot>,
        p: ProvenEq,
        q: ProvenEq,
    ) -> Result<ProvenEq, Error>
        ensures fits { IfOk result (λ _. FitsTransitive self.old equation.now left.now right.now p q) }
        ensures ok { IfOk result (EntersStep self.old self.new equation.now (transitive p q)) }
        ensures refused { IsErrOf result Error.BadStep → ¬ FitsTransitive self.old equation.now left.now right.now p q }
        ensures full { IsErrOf result Error.OutOfSlots → HasManyNames equation.now }
        ensures only { IfErr result IsRefusal }
        ensures err { OnErr result (self.new ≡ self.old) }
    {
        if !is_over(equation, left, right) {
            return Err(Error::BadStep);
        }
        self.prove_transitive(alloc, equation, p, q)
    }
}
