//! The texts of two terms, with the place marked at which they differ.
ghost use Rattle.std.specs.Prelude.{◌≡◌, ◌⊎◌, ◌<◌, ◌++◌, [], ◌∷◌, length, string_bytes, IfOk, IfErr, IfSome, IfNone, IsErrOf, OnOk};
ghost use Rattle.slotted_slots.specs.Error.{IsOutOfMemory, IsShortage};
ghost use Rattle.slotted_theory.specs.Nameless.{Alpha};
ghost use Rattle.slotted_terms.specs.LargeNodes.{HasLargeNode};
ghost use Rattle.slotted_terms.specs.Shown.{term_text};
ghost use Rattle.slotted_changes.specs.Changes.{AreLevels, MarksChange, ShowsChange, in_marks, nth};
ghost use Rattle.slotted_changes.specs.Steps.{IsPlace, SurroundsPlace, level, levels_of};

use crate::around::{Step, around};
use crate::differing::differing_child;
use crate::naming::named_like;
use slotted_languages::Language;
use slotted_slots::{Error, SlotTable};
use slotted_terms::RecExpr;
use slotted_terms::expr::printing::Printable;
use std::alloc::Global;

/// The texts of two terms, in which one place is marked.
#[derive(Drop)]
pub struct Marked {
    /// The text of the first term.
    pub first: String,
    /// The text of the second term, with the bound names of the first one outside the marks.
    pub second: String,
}

// Where two terms differ: the steps down to it, the uppermost first, and what stands there.
#[derive(Drop)]
struct Place<'a, L: Language> {
    steps: Vec<Step<'a, L>>,
    from: &'a RecExpr<L>,
    to: &'a RecExpr<L>,
}

// Returns the child at a place.
fn child_at<'a, L: Language>(children: &'a [RecExpr<L>], k: usize) -> &'a RecExpr<L>
    requires { k < length children.now }
    ensures { result.now ≡ nth children.now k }
{
    &children[k]
}

// Adds a step from a node to one of its children.
fn push_step<'a, L: Language>(
    steps: &mut Vec<Step<'a, L>>,
    node: &'a L,
    children: &'a [RecExpr<L>],
    at: usize,
) -> Result<(), Error>
    ensures ok { OnOk result (levels_of L.form steps.new.items
        ≡ levels_of L.form steps.old.items ++ level (L.form node.now) children.now at ∷ []) }
    ensures err { IfErr result IsOutOfMemory }
{
    steps.push(Step { node, children, at })?;
    Ok(())
}

// Returns the smallest place at which two terms differ.
fn changed_place<'a, L: Language>(
    alloc: Global,
    one: &'a RecExpr<L>,
    two: &'a RecExpr<L>,
) -> Result<Place<'a, L>, Error>
    requires { ¬ Alpha one.now two.now }
    ensures ok { IfOk result (IsPlace L.form one.now two.now) }
    ensures slots { IsErrOf result Error.OutOfSlots → HasLargeNode one.now ⊎ HasLargeNode two.now }
    ensures err { IfErr result IsShortage }
{
    let mut steps = Vec::new(alloc);
    let mut from = one;
    let mut to = two;
    while let Some(k) = differing_child(
        alloc,
        &from.node,
        &from.children,
        &to.node,
        &to.children,
    )? {
        push_step(&mut steps, &from.node, &from.children, k)?;
        from = child_at(&from.children, k);
        to = child_at(&to.children, k);
    }
    Ok(Place { steps, from, to })
}

// Returns the text of a term between the marks.
fn text_in_marks<L: Printable>(
    alloc: Global,
    term: &RecExpr<L>,
    table: &SlotTable,
) -> Result<String, Error>
    ensures ok { IfOk result (λ s. string_bytes s ≡ in_marks (term_text L.written table.now term.now)) }
    ensures err { IfErr result IsOutOfMemory }
{
    let text = term.text(alloc, table)?;
    Ok(format!(in alloc; "[{text}]")?)
}

// Returns the texts of the terms around a place, which is marked.
fn marked_at<L: Printable>(
    alloc: Global,
    place: Place<L>,
    table: &SlotTable,
) -> Result<Marked, Error>
    requires { AreLevels (levels_of L.form place.steps.items) }
    ensures ok { IfOk result (SurroundsPlace L.form L.written table.now place.entry) }
    ensures err { IfErr result IsOutOfMemory }
{
    let Place {
        mut steps,
        from,
        to,
    } = place;
    let first = text_in_marks(alloc, from, table)?;
    let second = text_in_marks(alloc, to, table)?;
    let mut texts = Marked { first, second };
    while let Some(step) = steps.pop() {
        texts = around(alloc, &step, texts, table)?;
    }
    Ok(texts)
}

/// Returns the texts of two terms, with the smallest place at which they differ between `[` and `]`, or `None` if they
/// are alpha-equal.
///
/// The second term is given the bound names of the first one, as by `named_like`. Above the place both terms have the
/// same nodes then, with the same names, and of the children of each node one alone differs. What stands outside the
/// marks is the same in both texts. Without the marks they are the texts of the first term, and of the second one up to
/// bound names.
pub fn mark_change<L: Printable>(
    alloc: Global,
    one: &RecExpr<L>,
    two: &RecExpr<L>,
    table: &SlotTable,
) -> Result<Option<Marked>, Error>
    ensures some { IfOk result (λ o. IfSome o (λ m. MarksChange L.written table.now one.now two.now
        (string_bytes m.first) (string_bytes m.second))) }
    ensures none { IfOk result (λ o. IfNone o (Alpha one.now two.now)) }
    ensures slots { IsErrOf result Error.OutOfSlots → HasLargeNode one.now ⊎ HasLargeNode two.now }
    ensures err { IfErr result IsShortage }
{
    if one.alpha_eq(alloc, two)? {
        return Ok(None);
    }
    let named = named_like(alloc, one, two)?;
    let place = changed_place(alloc, one, &named)?;
    let texts = marked_at(alloc, place, table)?;
    Ok(Some(texts))
}

// Returns the texts of two terms without marks.
fn plain_texts<L: Printable>(
    alloc: Global,
    one: &RecExpr<L>,
    two: &RecExpr<L>,
    table: &SlotTable,
) -> Result<Marked, Error>
    ensures first { IfOk result (λ m. string_bytes m.first ≡ term_text L.written table.now one.now) }
    ensures second { IfOk result (λ m. string_bytes m.second ≡ term_text L.written table.now two.now) }
    ensures err { IfErr result IsOutOfMemory }
{
    let first = one.text(alloc, table)?;
    let second = two.text(alloc, table)?;
    Ok(Marked { first, second })
}

/// Returns the texts of two terms, with the place marked at which they differ, as `mark_change` does. If they are
/// alpha-equal, or if a node is too large to be compared, nothing is marked.
pub fn texts_of_change<L: Printable>(
    alloc: Global,
    one: &RecExpr<L>,
    two: &RecExpr<L>,
    table: &SlotTable,
) -> Result<Marked, Error>
    ensures ok { IfOk result (λ m. ShowsChange L.written table.now one.now two.now
        (string_bytes m.first) (string_bytes m.second)) }
    ensures err { IfErr result IsOutOfMemory }
{
    match mark_change(alloc, one, two, table) {
        Ok(Some(texts)) => Ok(texts),
        Ok(None) | Err(Error::OutOfSlots) => plain_texts(alloc, one, two, table),
        Err(error) => Err(error),
    }
}
