//! The union of two classes by an entry of the proof list, one step at a time.
ghost use Rattle.std.specs.Prelude.{◌≡◌, ◌↔◌, ◌<◌, length, IsTrue, IfErr, IsErrOf, IfOk, ◌≢◌};
ghost use Rattle.slotted_slots.specs.Error.{IsShortage};
ghost use Rattle.slotted_model.specs.Changes.{PairsAll, found_entry};
ghost use Rattle.slotted_classes.specs.Kept.{find_at};
ghost use Rattle.slotted_rebuilding.specs.Proving.{HasLargeSide};
ghost use Rattle.slotted_classes.specs.StateOf.{state_of};
ghost use Rattle.slotted_classes.specs.Stored.{Stored};
ghost use Rattle.slotted_rebuilding.specs.Uniting.{ActsOn, DropsSide, LinksEither, SaysNothing, StepsBy, IsOfLive, equation_in};

use crate::unions::dropping::drop_left;
use crate::unions::linking::link;
use crate::unions::listing::list_once;
use crate::unions::proving::found_proof;
use slotted_classes::Store;
use slotted_languages::Language;
use slotted_proofs::ProvenEq;
use slotted_slots::Error;
use std::alloc::Global;

/// The outcome of one step of a union.
#[derive(Clone, Copy)]
pub enum UnionStep {
    /// Nothing is left to do, and no class has changed.
    Done,
    /// This class lost slots, and the union goes on.
    Dropped(usize),
    /// This class died, and the union is done.
    Linked(usize),
}

/// Returns whether the two sides of an entry are found equal. Takes no memory.
pub fn sides_find_alike<L: Language>(store: &Store<L>, p: ProvenEq) -> bool
    requires good { Stored store.now }
    requires within { p < length store.now.proofs }
    ensures { IsTrue result ↔ SaysNothing store.now (found_entry (state_of store.now) p) }
{
    let equation = store.proofs().equ(p);
    store.eq(&equation.l, &equation.r)
}

// Returns whether two classes have as many slots left. If so, and if each slot of the one has a partner, each slot of
// the other has one.
fn have_as_many<L: Language>(store: &Store<L>, left: usize, right: usize) -> bool
    requires left { left < length store.now.classes }
    requires right { right < length store.now.classes }
    ensures { IsTrue result → length (find_at store.now left).pairs ≡ length (find_at store.now right).pairs }
{
    store.entry(left).m.len() == store.entry(right).m.len()
}

// Shrinks the left class of an entry, or else the left class of the entry turned round, to the slots with a partner.
// Returns the class that lost slots.
fn drop_either<L: Language>(
    store: &mut Store<L>,
    alloc: Global,
    q: ProvenEq,
) -> Result<Option<usize>, Error>
    requires good { Stored store.old }
    requires within { q < length store.old.proofs }
    requires live { IsOfLive store.old (equation_in store.old q) }
    ensures ok { IfOk result (DropsSide store.old store.new (equation_in store.old q)) }
    ensures full { IsErrOf result Error.OutOfSlots → HasLargeSide store.old (equation_in store.old q) }
    ensures err { IfErr result IsShortage }
{
    let equation = store.proofs().equ(q);
    let (left, right) = (equation.l.id.0, equation.r.id.0);
    if drop_left(store, alloc, q)? {
        return Ok(Some(left));
    }
    if have_as_many(store, left, right) {
        return Ok(None);
    }
    let turned = store.turn(alloc, q)?;
    if drop_left(store, alloc, turned)? {
        return Ok(Some(right));
    }
    Ok(None)
}

// Returns the size of a class.
fn size_of(sizes: &[u32], class: usize) -> u32 {
    sizes.get(class).copied().unwrap_or(0)
}

// Returns whether the left class of an entry is the one that dies. That is the class with more canonical slots, and
// of two with as many the smaller one. If both have one size, it is the left one.
fn left_dies<L: Language>(store: &Store<L>, q: ProvenEq, sizes: &[u32]) -> bool
    requires { q < length store.now.proofs }
{
    let equation = store.proofs().equ(q);
    let (left, right) = (equation.l.m.len(), equation.r.m.len());
    if left != right {
        return left > right;
    }
    size_of(sizes, equation.l.id.0) <= size_of(sizes, equation.r.id.0)
}

// Links one of the two classes of an entry to the other. Returns the one that died.
fn link_either<L: Language>(
    store: &mut Store<L>,
    alloc: Global,
    q: ProvenEq,
    sizes: &[u32],
) -> Result<usize, Error>
    requires good { Stored store.old }
    requires within { q < length store.old.proofs }
    requires live { IsOfLive store.old (equation_in store.old q) }
    requires different { (equation_in store.old q).left ≢ (equation_in store.old q).right }
    requires pairs_all { PairsAll (state_of store.old) (equation_in store.old q) }
    ensures ok { IfOk result (LinksEither store.old store.new (equation_in store.old q)) }
    ensures full { IsErrOf result Error.OutOfSlots → HasLargeSide store.old (equation_in store.old q) }
    ensures err { IfErr result IsShortage }
{
    let equation = store.proofs().equ(q);
    let (left, right) = (equation.l.id.0, equation.r.id.0);
    if left_dies(store, q, sizes) {
        link(store, alloc, q)?;
        return Ok(left);
    }
    let turned = store.turn(alloc, q)?;
    link(store, alloc, turned)?;
    Ok(right)
}

// Acts on what an entry says of two live classes, each slot of which has a partner.
fn act_on<L: Language>(
    store: &mut Store<L>,
    alloc: Global,
    q: ProvenEq,
    sizes: &[u32],
) -> Result<UnionStep, Error>
    requires good { Stored store.old }
    requires within { q < length store.old.proofs }
    requires live { IsOfLive store.old (equation_in store.old q) }
    requires pairs_all { PairsAll (state_of store.old) (equation_in store.old q) }
    requires moves { ¬ SaysNothing store.old (equation_in store.old q) }
    ensures ok { IfOk result (ActsOn store.old store.new (equation_in store.old q) q) }
    ensures full { IsErrOf result Error.OutOfSlots → HasLargeSide store.old (equation_in store.old q) }
    ensures err { IfErr result IsShortage }
{
    let equation = store.proofs().equ(q);
    if equation.l.id.0 == equation.r.id.0 {
        list_once(store, alloc, q)?;
        return Ok(UnionStep::Done);
    }
    let dead = link_either(store, alloc, q, sizes)?;
    Ok(UnionStep::Linked(dead))
}

/// Takes one step of a union by an entry, and returns what the step did.
///
/// If a class changes, the caller makes the e-nodes over this class pending before the next step. The sizes of
/// classes decide which of two with as many canonical slots is kept: no clause speaks of that.
pub fn unite_once<L: Language>(
    store: &mut Store<L>,
    alloc: Global,
    p: ProvenEq,
    sizes: &[u32],
) -> Result<UnionStep, Error>
    requires good { Stored store.old }
    requires within { p < length store.old.proofs }
    ensures ok { IfOk result (StepsBy p store.old store.new) }
    ensures full { IsErrOf result Error.OutOfSlots → HasLargeSide store.old (equation_in store.old p) }
    ensures err { IfErr result IsShortage }
{
    if sides_find_alike(store, p) {
        return Ok(UnionStep::Done);
    }
    let q = found_proof(store, alloc, p)?;
    if let Some(class) = drop_either(store, alloc, q)? {
        return Ok(UnionStep::Dropped(class));
    }
    act_on(store, alloc, q, sizes)
}
