//! How a term is made of entries. Frames on a list stand for the e-nodes whose children are not all made, so nothing
//! recurses.
ghost use Rattle.std.specs.Prelude.{◌≡◌, ◌<◌, ◌≤◌, ◌⊎◌, ◌↔◌, [], None, length, true, false, IsSome, IfOk, IfErr, IsErrOf, OnOk};
ghost use Rattle.slotted_slots.specs.Error.{IsOutOfMemory, IsShortage};
ghost use Rattle.slotted_slots.specs.Maps.{values};
ghost use Rattle.slotted_slots.specs.Table.{KnowsMore, Table};
ghost use Rattle.slotted_nodes.specs.Form.{children};
ghost use Rattle.slotted_languages.specs.Filled.{term_of};
ghost use Rattle.slotted_terms.specs.Valid.{IsValidTerm};
ghost use Rattle.slotted_proofs.specs.Equations.{to_applied};
ghost use Rattle.slotted_model.specs.Find.{find, find_class};
ghost use Rattle.slotted_classes.specs.Finding.{HasFinds, IsFindable};
ghost use Rattle.slotted_classes.specs.Kept.{entries_of};
ghost use Rattle.slotted_lookup.specs.Enodes.{AllKnownTo};
ghost use Rattle.slotted_lookup.specs.Filling.{MakesAtMost};
ghost use Rattle.slotted_reports.specs.Nodes.{HasFreshNames};
ghost use Rattle.slotted_graph.specs.Terms.{IsFreshTerm, IsMade, IsNamedBy, RunsOutWith, entry_at, slots_at, slots_for, slots_of};
ghost use Rattle.slotted_graph.specs.Frames.{IsClosing, IsFrameFor, IsFreshFrame, IsKnownFrame, IsKnownStack};
ghost use Rattle.slotted_graph.specs.Frames.{IsLessWork, IsStack, KeepsFresh, KeepsGoal, MakesLeft, MakesSlots};
ghost use Rattle.slotted_graph.specs.Frames.{RunsOutForKey, RunsOutLeft, has_all};

use crate::entry::TermEntry;
use crate::terms::LeastTerms;
use slotted_classes::Store;
use slotted_languages::Language;
use slotted_operations::syn::forget_children;
use slotted_slots::{AppliedId, Error, SlotTable};
use slotted_terms::expr::RecExpr;
use std::alloc::Global;
use std::mem;

/// An e-node with the terms of its first children.
#[derive(Drop)]
pub(crate) struct Frame<L: Language> {
    pub node: L,
    pub children: Vec<RecExpr<L>>,
}

/// The frame whose children are being made, and the frames that wait for it, from the root on.
#[derive(Drop)]
pub(crate) struct Stack<L: Language> {
    pub waiting: Vec<Frame<L>>,
    pub current: Frame<L>,
}

// Returns the e-node of an entry with the names of an id of its class. What stands for no slot of the id gets a fresh
// name, and so does each binder.
fn named_node<L: Language, C: Drop>(
    entry: &TermEntry<L, C>,
    alloc: Global,
    table: &mut SlotTable,
    a: &AppliedId,
) -> Result<L, Error>
    requires names { (t : Table) → AllKnownTo t (L.form entry.now.node).names }
    requires known { AllKnownTo table.old (values a.now.m) }
    ensures named { IfOk result (λ n. IsNamedBy entry.now.names (L.form entry.now.node) (to_applied a.now) (L.form n)) }
    ensures known { IfOk result (λ n. AllKnownTo table.new (L.form n).names) }
    ensures fresh { IfOk result (λ n. HasFreshNames table.old (values a.now.m) (L.form n)) }
    ensures count { MakesAtMost (slots_of L.form entry.now) table.old table.new }
    ensures more { KnowsMore table.old table.new }
    ensures full { IsErrOf result Error.OutOfSlots → RunsOutForKey (L.form entry.now.node) table.old table.new }
    ensures err { IfErr result IsShortage }
{
    let names = entry.names.compose_partial(alloc, &a.m)?;
    let node = entry.node.apply_slotmap_fresh(alloc, &names, table)?;
    let answer = node.refresh_private(alloc, table)?;
    Ok(answer)
}

// Returns the frame of an id, without children.
fn frame_for<L: Language, C: Drop>(
    terms: &LeastTerms<L, C>,
    alloc: Global,
    table: &mut SlotTable,
    a: &AppliedId,
) -> Result<Frame<L>, Error>
    requires there { IsSome (entry_at terms.now.entries.items a.now.id.0) }
    requires known { AllKnownTo table.old (values a.now.m) }
    ensures frame { IfOk result (IsFrameFor L.form terms.now.entries.items (to_applied a.now)) }
    ensures bare { IfOk result (λ f. f.children.items ≡ []) }
    ensures known { IfOk result (IsKnownFrame L.form table.new) }
    ensures fresh { IfOk result (IsFreshFrame L.form table.old (values a.now.m)) }
    ensures count { MakesAtMost (slots_at L.form (entry_at terms.now.entries.items a.now.id.0)) table.old table.new }
    ensures more { KnowsMore table.old table.new }
    ensures full { IsErrOf result Error.OutOfSlots → RunsOutWith L.form terms.now.entries.items
        (slots_at L.form (entry_at terms.now.entries.items a.now.id.0)) table.old table.new }
    ensures err { IfErr result IsShortage }
{
    let Some(entry) = terms.get(a.id.0) else {
        unreachable!()
    };
    let node = named_node(entry, alloc, table, a)?;
    let children = Vec::new(alloc);
    Ok(Frame { node, children })
}

// Returns whether a frame has the terms of all its children.
fn has_all_children<L: Language>(frame: &Frame<L>) -> bool
    ensures { result ≡ has_all L.form frame.now }
{
    frame.children.len() >= frame.node.applied_id_count()
}

// Returns the term of a frame that has all its children.
fn close<L: Language>(alloc: Global, frame: Frame<L>) -> RecExpr<L>
    requires { length frame.children.items ≡ length (children (L.form frame.node).tree) }
    ensures { result ≡ term_of (L.form frame.node) frame.children.items }
{
    let Frame { mut node, children } = frame;
    forget_children(alloc, &mut node);
    RecExpr { node, children }
}

// Makes the frame of the next child the current one.
fn go_down<L: Language, C: Drop>(
    stack: &mut Stack<L>,
    terms: &LeastTerms<L, C>,
    alloc: Global,
    table: &mut SlotTable,
) -> Result<(), Error>
    requires stack { IsStack L.form terms.now.entries.items stack.old }
    requires known { IsKnownStack L.form table.old stack.old }
    requires left { has_all L.form stack.old.current ≡ false }
    ensures stack { OnOk result (KeepsGoal L.form terms.now.entries.items stack.old stack.new) }
    ensures known { OnOk result (IsKnownStack L.form table.new stack.new) }
    ensures work { OnOk result (IsLessWork L.form terms.now.entries.items stack.old stack.new) }
    ensures fresh { OnOk result (KeepsFresh L.form table.old stack.old stack.new) }
    ensures made { OnOk result (MakesSlots L.form terms.now.entries.items table.old table.new stack.old stack.new) }
    ensures count { MakesLeft L.form terms.now.entries.items table.old table.new stack.old }
    ensures more { KnowsMore table.old table.new }
    ensures full { IsErrOf result Error.OutOfSlots
        → RunsOutLeft L.form terms.now.entries.items table.old table.new stack.old }
    ensures err { IfErr result IsShortage }
{
    let next = stack.current.children.len();
    let child = stack.current.node.applied_id(next).copy(alloc)?;
    let frame = frame_for(terms, alloc, table, &child)?;
    let waiting = mem::replace(&mut stack.current, frame);
    stack.waiting.push(waiting)?;
    Ok(())
}

// Goes to the next child, or hands the term of the current frame to the frame that waits for it. Returns whether either
// was possible.
fn step<L: Language, C: Drop>(
    stack: &mut Stack<L>,
    terms: &LeastTerms<L, C>,
    alloc: Global,
    table: &mut SlotTable,
) -> Result<bool, Error>
    requires stack { IsStack L.form terms.now.entries.items stack.old }
    requires known { IsKnownStack L.form table.old stack.old }
    ensures stack { OnOk result (KeepsGoal L.form terms.now.entries.items stack.old stack.new) }
    ensures known { OnOk result (IsKnownStack L.form table.new stack.new) }
    ensures work { IfOk result (λ more. more ≡ true → IsLessWork L.form terms.now.entries.items stack.old stack.new) }
    ensures end { IfOk result (λ more. more ≡ false → IsClosing L.form stack.new) }
    ensures fresh { OnOk result (KeepsFresh L.form table.old stack.old stack.new) }
    ensures made { OnOk result (MakesSlots L.form terms.now.entries.items table.old table.new stack.old stack.new) }
    ensures count { MakesLeft L.form terms.now.entries.items table.old table.new stack.old }
    ensures more { KnowsMore table.old table.new }
    ensures full { IsErrOf result Error.OutOfSlots
        → RunsOutLeft L.form terms.now.entries.items table.old table.new stack.old }
    ensures err { IfErr result IsShortage }
{
    if !has_all_children(&stack.current) {
        go_down(stack, terms, alloc, table)?;
        return Ok(true);
    }
    let Some(frame) = stack.waiting.pop() else {
        return Ok(false);
    };
    let done = mem::replace(&mut stack.current, frame);
    let term = close(alloc, done);
    stack.current.children.push(term)?;
    Ok(true)
}

/// Returns the term that the entries make for an id of a class with an entry, with the names of the id. What stands for
/// no name of the id gets a fresh name, and so does each binder.
pub fn term_for<L: Language, C: Drop>(
    terms: &LeastTerms<L, C>,
    alloc: Global,
    table: &mut SlotTable,
    a: &AppliedId,
) -> Result<RecExpr<L>, Error>
    requires there { IsSome (entry_at terms.now.entries.items a.now.id.0) }
    requires known { AllKnownTo table.old (values a.now.m) }
    ensures made { IfOk result (IsMade L.form terms.now.entries.items (to_applied a.now)) }
    ensures valid { IfOk result (IsValidTerm table.new) }

    // Each name is one of the id's or fresh, and binders are fresh.
    ensures fresh { IfOk result (IsFreshTerm table.old (values a.now.m)) }
    ensures count { MakesAtMost (slots_for L.form terms.now.entries.items a.now.id.0) table.old table.new }
    ensures more { KnowsMore table.old table.new }
    ensures full { IsErrOf result Error.OutOfSlots → RunsOutWith L.form terms.now.entries.items
        (slots_for L.form terms.now.entries.items a.now.id.0) table.old table.new }
    ensures err { IfErr result IsShortage }
{
    let current = frame_for(terms, alloc, table, a)?;
    let waiting = Vec::new(alloc);
    let mut stack = Stack { waiting, current };
    while step(&mut stack, terms, alloc, table)? {}
    Ok(close(alloc, stack.current))
}

/// Returns the term that the entries make for what a valid id finds. The error is `UnknownClass` exactly if the found
/// class has no entry.
pub fn extract<L: Language, C: Drop>(
    store: &Store<L>,
    alloc: Global,
    table: &mut SlotTable,
    terms: &LeastTerms<L, C>,
    a: &AppliedId,
) -> Result<RecExpr<L>, Error>
    requires good { HasFinds store.now }
    requires findable { IsFindable store.now (to_applied a.now) }
    requires known { AllKnownTo table.old (values a.now.m) }
    ensures made { IfOk result
        (IsMade L.form terms.now.entries.items (find (entries_of store.now) (to_applied a.now))) }
    ensures valid { IfOk result (IsValidTerm table.new) }
    ensures fresh { IfOk result (IsFreshTerm table.old (values a.now.m)) }
    ensures count { MakesAtMost
        (slots_for L.form terms.now.entries.items (find_class (entries_of store.now) a.now.id.0)) table.old table.new }
    ensures more { KnowsMore table.old table.new }
    ensures unknown { IsErrOf result Error.UnknownClass
        ↔ (entry_at terms.now.entries.items (find_class (entries_of store.now) a.now.id.0) ≡ None) }
    ensures full { IsErrOf result Error.OutOfSlots → RunsOutWith L.form terms.now.entries.items
        (slots_for L.form terms.now.entries.items (find_class (entries_of store.now) a.now.id.0)) table.old table.new }
    ensures only { IfErr result (λ e. (e ≡ Error.UnknownClass) ⊎ IsShortage e) }
{
    if terms.get(store.find_class(a.id.0)).is_none() {
        return Err(Error::UnknownClass);
    }
    let found = store.found_id(alloc, a)?;
    term_for(terms, alloc, table, &found)
}
