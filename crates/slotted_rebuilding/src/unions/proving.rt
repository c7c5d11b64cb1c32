//! Proofs of what `find` does to a class, of what an entry says of the live classes of its sides, and of ids that are
//! found equal.
ghost use Rattle.std.specs.Prelude.{◌≡◌, ◌<◌, length, IsTrue, IfOk, IfErr, IsErrOf};
ghost use Rattle.slotted_slots.specs.Error.{IsOutOfMemory, IsShortage};
ghost use Rattle.slotted_model.specs.Classes.{IsFull, canonical_slots};
ghost use Rattle.slotted_proofs.specs.Equations.{to_applied};
ghost use Rattle.slotted_classes.specs.Finding.{FindAlike};
ghost use Rattle.slotted_classes.specs.Kept.{nodes_of, entries_of};
ghost use Rattle.slotted_rebuilding.specs.Proving.{FindsByEntry, FindsWhole, ProvesFind, ProvesBack, ProvesHalf, ProvesFound, ProvesEqual};
ghost use Rattle.slotted_rebuilding.specs.Proving.{HasLargeClassOf, HasLargeSide};
ghost use Rattle.slotted_classes.specs.Stored.{Stored};
ghost use Rattle.slotted_rebuilding.specs.Uniting.{equation_in};

use slotted_classes::Store;
use slotted_languages::Language;
use slotted_proofs::{Equation, ProvenEq};
use slotted_slots::{AppliedId, Error};
use std::alloc::Global;

// Returns whether the class that a class leads to is live, and has as many slots left as the entry has pairs. Then
// `find` does to the class what its entry says.
fn leads_to_whole<L: Language>(store: &Store<L>, id: usize) -> bool
    requires good { Stored store.now }
    requires within { id < length store.now.classes }
    ensures { IsTrue result → FindsByEntry store.now id }
{
    let entry = store.entry(id);
    let next = store.entry(entry.id.0);
    next.id.0 == entry.id.0 && next.m.len() == entry.m.len()
}

// Returns whether the class of a full id is live, with all its slots. Then the id is canonical.
fn is_whole<L: Language>(store: &Store<L>, a: &AppliedId) -> bool
    requires good { Stored store.now }
    requires within { a.now.id.0 < length store.now.classes }
    requires full { length a.now.m ≡ length (canonical_slots (nodes_of store.now) a.now.id.0) }
    ensures { IsTrue result → FindsWhole store.now a.now.id.0 }
{
    store.is_canonical(a)
}

// Returns whether an entry says what `find` does to a class: its right side is canonical, and `find` maps its left
// side, an id of the class, to it. Takes no memory.
fn says_find<L: Language>(store: &Store<L>, id: usize, p: ProvenEq) -> bool
    requires good { Stored store.now }
    ensures { IsTrue result → ProvesFind store.now store.now id p }
{
    let list = store.proofs();
    if !list.is_valid(p) {
        return false;
    }
    let equation = list.equ(p);
    if equation.l.id.0 != id || !is_whole(store, &equation.r) {
        return false;
    }
    store.eq(&equation.l, &equation.r)
}

/// Returns the proof of what `find` does to a class. For a live class this is the proof of its own entry.
///
/// The proof that was given last is given again if it still holds. A class whose `find` has to be proved step by step is
/// noted, so that its path is compressed at the end of the write.
pub fn find_proof<L: Language>(
    store: &mut Store<L>,
    alloc: Global,
    id: usize,
) -> Result<ProvenEq, Error>
    requires good { Stored store.old }
    requires within { id < length store.old.classes }
    ensures ok { IfOk result (ProvesFind store.old store.new id) }
    ensures full { IsErrOf result Error.OutOfSlots → HasLargeClassOf store.old id id }
    ensures err { IfErr result IsShortage }
{
    let next = store.entry(id).id.0;
    let proof = store.proof_of(id);
    if next == id {
        return Ok(proof);
    }
    if leads_to_whole(store, id) {
        return Ok(proof);
    }
    let last = store.last_proof(id);
    if says_find(store, id, last) {
        return Ok(last);
    }
    let rest = find_proof(store, alloc, next)?;
    let answer = store.chain(alloc, proof, rest)?;
    store.set_last_proof(id, answer);
    store.note_walk(id)?;
    Ok(answer)
}

/// Returns the proof of what `find` does to a class, turned round.
pub fn back_proof<L: Language>(
    store: &mut Store<L>,
    alloc: Global,
    id: usize,
) -> Result<ProvenEq, Error>
    requires good { Stored store.old }
    requires within { id < length store.old.classes }
    ensures ok { IfOk result (ProvesBack store.old store.new id) }
    ensures full { IsErrOf result Error.OutOfSlots → HasLargeClassOf store.old id id }
    ensures err { IfErr result IsShortage }
{
    let proof = find_proof(store, alloc, id)?;
    let answer = store.turn(alloc, proof)?;
    Ok(answer)
}

// Returns the proof of what an entry says of the live class of its left side, and of its right class.
fn half_proof<L: Language>(
    store: &mut Store<L>,
    alloc: Global,
    p: ProvenEq,
) -> Result<ProvenEq, Error>
    requires good { Stored store.old }
    requires within { p < length store.old.proofs }
    ensures ok { IfOk result (ProvesHalf store.old store.new p) }
    ensures full { IsErrOf result Error.OutOfSlots → HasLargeSide store.old (equation_in store.old p) }
    ensures err { IfErr result IsShortage }
{
    let side = &store.proofs().equ(p).l;
    let left = side.id.0;
    if is_whole(store, side) {
        return Ok(p);
    }
    let back = back_proof(store, alloc, left)?;
    let answer = store.chain(alloc, back, p)?;
    Ok(answer)
}

/// Returns the proof of what an entry says of the live classes of its sides. Enters nothing for a side that is
/// canonical.
pub fn found_proof<L: Language>(
    store: &mut Store<L>,
    alloc: Global,
    p: ProvenEq,
) -> Result<ProvenEq, Error>
    requires good { Stored store.old }
    requires within { p < length store.old.proofs }
    ensures ok { IfOk result (ProvesFound store.old store.new p) }
    ensures full { IsErrOf result Error.OutOfSlots → HasLargeSide store.old (equation_in store.old p) }
    ensures err { IfErr result IsShortage }
{
    let half = half_proof(store, alloc, p)?;
    let side = &store.proofs().equ(p).r;
    let right = side.id.0;
    if is_whole(store, side) {
        return Ok(half);
    }
    let onward = find_proof(store, alloc, right)?;
    store.chain(alloc, half, onward)
}

// Returns the equation of two ids.
fn equation_between(alloc: Global, a: &AppliedId, b: &AppliedId) -> Result<Equation, Error>
    ensures left { IfOk result (λ e. e.l ≡ a.now) }
    ensures right { IfOk result (λ e. e.r ≡ b.now) }
    ensures err { IfErr result IsOutOfMemory }
{
    Ok(Equation {
        l: a.copy(alloc)?,
        r: b.copy(alloc)?,
    })
}

/// Returns the bridge of two full ids that are found equal: the proof that they are equal.
///
/// The bridge goes from the one to what `find` maps both to, and back from there to the other.
pub fn bridge<L: Language>(
    store: &mut Store<L>,
    alloc: Global,
    a: &AppliedId,
    b: &AppliedId,
) -> Result<ProvenEq, Error>
    requires good { Stored store.old }
    requires left { IsFull (nodes_of store.old) (to_applied a.now) }
    requires right { IsFull (nodes_of store.old) (to_applied b.now) }
    requires alike { FindAlike (entries_of store.old) (to_applied a.now) (to_applied b.now) }
    ensures ok { IfOk result (ProvesEqual store.old store.new (to_applied a.now) (to_applied b.now)) }
    ensures full { IsErrOf result Error.OutOfSlots → HasLargeClassOf store.old a.now.id.0 b.now.id.0 }
    ensures err { IfErr result IsShortage }
{
    let back = back_proof(store, alloc, b.id.0)?;
    let onward = find_proof(store, alloc, a.id.0)?;
    let equation = equation_between(alloc, a, b)?;
    store.prove_transitive(alloc, &equation, onward, back)
}
