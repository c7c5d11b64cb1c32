//! The equation that a union asserts: that of its two ids, whatever names are filled in for those that they omit.
ghost use Rattle.std.specs.Prelude.{◌↔◌, IsTrue, IfErr, IfOk, IsErrOf};
ghost use Rattle.slotted_theory.specs.FiniteMaps.{IsInjectiveMap};
ghost use Rattle.slotted_slots.specs.Error.{IsShortage};
ghost use Rattle.slotted_model.specs.Applied.{keys};
ghost use Rattle.slotted_model.specs.Classes.{IsFull};
ghost use Rattle.slotted_model.specs.Correspondence.{IsPartialInjection, same_names};
ghost use Rattle.slotted_proofs.specs.Equations.{HaveManyNames, IsWritten, partnered_statement, to_applied};
ghost use Rattle.slotted_classes.specs.Finding.{IsFindable};
ghost use Rattle.slotted_classes.specs.Kept.{nodes_of, text_bytes};
ghost use Rattle.slotted_operations.specs.Causes.{HasLargeClassIn};
ghost use Rattle.slotted_operations.specs.Good.{Good, image_of};
ghost use Rattle.slotted_operations.specs.Sides.{AreSidesOf, EntersFilled};

use slotted_classes::Store;
use slotted_languages::Language;
use slotted_proofs::{Equation, ProvenEq, shared_names};
use slotted_slots::{AppliedId, Error, SlotMap};
use std::alloc::Global;

// Returns whether an id has a name for each canonical slot of its class.
fn has_all_names<L: Language>(store: &Store<L>, a: &AppliedId) -> bool
    requires good { Good store.now }
    requires findable { IsFindable store.now (to_applied a.now) }
    ensures { IsTrue result ↔ IsFull (nodes_of store.now) (to_applied a.now) }
{
    a.m.len() == store.names_of(a.id.0).len()
}

// Returns whether each of two ids has a name for each canonical slot of its class.
fn have_all_names<L: Language>(store: &Store<L>, l: &AppliedId, r: &AppliedId) -> bool
    requires good { Good store.now }
    requires left { IsFindable store.now (to_applied l.now) }
    requires right { IsFindable store.now (to_applied r.now) }
    ensures left { IsTrue result → IsFull (nodes_of store.now) (to_applied l.now) }
    ensures right { IsTrue result → IsFull (nodes_of store.now) (to_applied r.now) }
{
    has_all_names(store, l) && has_all_names(store, r)
}

// Returns the equation over the slots of two ids in which those slots share a name that have one name in two maps.
fn equation_over(
    alloc: Global,
    left: &AppliedId,
    right: &AppliedId,
    l: &SlotMap,
    r: &SlotMap,
) -> Result<Equation, Error>
    requires different { IsInjectiveMap l.now }
    requires partners { IsPartialInjection (keys right.now.m) (keys left.now.m) (same_names r.now l.now) }
    ensures ok { IfOk result (IsWritten (partnered_statement left.now right.now (same_names r.now l.now))) }
    ensures full { IsErrOf result Error.OutOfSlots → HaveManyNames left.now.m right.now.m }
    ensures err { IfErr result IsShortage }
{
    let partners = shared_names(alloc, r, l)?;
    let equation = Equation::by_partners(alloc, left, right, &partners)?;
    Ok(equation)
}

// Returns the equation of the classes of two ids over all their canonical slots. Two slots share a name if the ids
// have one name for both.
fn class_equation<L: Language>(
    store: &Store<L>,
    alloc: Global,
    l: &AppliedId,
    r: &AppliedId,
) -> Result<Equation, Error>
    requires good { Good store.now }
    requires left { IsFindable store.now (to_applied l.now) }
    requires right { IsFindable store.now (to_applied r.now) }
    ensures ok { IfOk result (AreSidesOf (nodes_of store.now) (to_applied l.now) (to_applied r.now)) }
    ensures full { IsErrOf result Error.OutOfSlots → HasLargeClassIn (image_of store.now) }
    ensures err { IfErr result IsShortage }
{
    let left = store.own_id(alloc, l.id.0)?;
    let right = store.own_id(alloc, r.id.0)?;
    let equation = equation_over(alloc, &left, &right, &l.m, &r.m)?;
    Ok(equation)
}

// Enters that two ids are equal, one of which omits a name, by the equation of their classes.
fn assert_classes<L: Language>(
    store: &mut Store<L>,
    alloc: Global,
    l: &AppliedId,
    r: &AppliedId,
    text: Option<String>,
) -> Result<ProvenEq, Error>
    requires good { Good store.old }
    requires left { IsFindable store.old (to_applied l.now) }
    requires right { IsFindable store.old (to_applied r.now) }
    ensures ok { IfOk result
        (EntersFilled store.old store.new (to_applied l.now) (to_applied r.now) (text_bytes text)) }
    ensures full { IsErrOf result Error.OutOfSlots → HasLargeClassIn (image_of store.old) }
    ensures err { IfErr result IsShortage }
{
    let equation = class_equation(store, alloc, l, r)?;
    let p = store.assert_equal(alloc, &equation.l, &equation.r, text)?;
    Ok(p)
}

/// Enters that two ids are equal because the caller says so.
///
/// The equation is that of any two full ids that fill them by different names. All such ids have one equation, and
/// need not be made.
pub(crate) fn assert_sides<L: Language>(
    store: &mut Store<L>,
    alloc: Global,
    l: &AppliedId,
    r: &AppliedId,
    text: Option<String>,
) -> Result<ProvenEq, Error>
    requires good { Good store.old }
    requires left { IsFindable store.old (to_applied l.now) }
    requires right { IsFindable store.old (to_applied r.now) }
    ensures ok { IfOk result
        (EntersFilled store.old store.new (to_applied l.now) (to_applied r.now) (text_bytes text)) }
    ensures full { IsErrOf result Error.OutOfSlots → HasLargeClassIn (image_of store.old) }
    ensures err { IfErr result IsShortage }
{
    if have_all_names(store, l, r) {
        store.assert_equal(alloc, l, r, text)
    } else {
        assert_classes(store, alloc, l, r, text)
    }
}
