//! Two fields of one node, read as one list of places and one list of children: first those of `a`, then those of `b`.
//!
//! These are the calls of [`LanguageChildren`] for a variant with two fields. What has three fields pairs the first
//! with a struct of the other two.
ghost use Rattle.std.specs.Prelude.{◌≡◌, ◌↔◌, ◌<◌, IsSome, IfSome, length, slice_index};
ghost use Rattle.slotted_slots.specs.Maps.{keys, values};
ghost use Rattle.slotted_nodes.specs.Form.{IsPlace, counted, counted_end, children, child_id, child_keys};
ghost use Rattle.slotted_nodes.specs.Form.{child_names, child_place, join_form, scopes, scope_end_of, with_name};
ghost use Rattle.slotted_nodes.specs.Form.{with_applied};

use crate::children::LanguageChildren;
use slotted_slots::{AppliedId, Slot};

/// Returns the number of places, or the largest `usize` if there are more.
pub fn slot_count<A: LanguageChildren, B: LanguageChildren>(a: &A, b: &B) -> usize
    ensures { result ≡ counted (length (join_form (A.form a.now) (B.form b.now)).names) }
{
    a.slot_count().saturating_add(b.slot_count())
}

/// Returns the name at a place.
pub fn slot<A: LanguageChildren, B: LanguageChildren>(a: &A, b: &B, i: usize) -> Slot
    requires { IsPlace (join_form (A.form a.now) (B.form b.now)) i }
    ensures { result ≡ slice_index (join_form (A.form a.now) (B.form b.now)).names i }
{
    let n = a.slot_count();
    if i < n { a.slot(i) } else { b.slot(i - n) }
}

/// Replaces the name at a place.
pub fn set_slot<A: LanguageChildren, B: LanguageChildren>(a: &mut A, b: &mut B, i: usize, s: Slot)
    requires { IsPlace (join_form (A.form a.old) (B.form b.old)) i }
    ensures { join_form (A.form a.new) (B.form b.new) ≡ with_name (join_form (A.form a.old) (B.form b.old)) i s }
{
    let n = a.slot_count();
    if i < n {
        a.set_slot(i, s);
    } else {
        b.set_slot(i - n, s);
    }
}

/// Returns the place after the scope of a binder, or `None` if the place is no binder.
///
/// If the place is above the largest `usize`, that number is returned.
pub fn scope_end<A: LanguageChildren, B: LanguageChildren>(a: &A, b: &B, i: usize) -> Option<usize>
    requires { IsPlace (join_form (A.form a.now) (B.form b.now)) i }
    ensures { result ≡ counted_end (scope_end_of (scopes (join_form (A.form a.now) (B.form b.now)).tree) i) }
{
    let n = a.slot_count();
    if i < n {
        a.scope_end(i)
    } else {
        match b.scope_end(i - n) {
            Some(end) => Some(end.saturating_add(n)),
            None => None,
        }
    }
}

/// Returns the number of children.
pub fn applied_id_count<A: LanguageChildren, B: LanguageChildren>(a: &A, b: &B) -> usize
    ensures { result ≡ length (children (join_form (A.form a.now) (B.form b.now)).tree) }
{
    a.applied_id_count() + b.applied_id_count()
}

/// Returns a child, or `None` past the last one.
pub fn get_applied_id<'a, A: LanguageChildren, B: LanguageChildren>(
    a: &'a A,
    b: &'a B,
    k: usize,
) -> Option<&'a AppliedId>
    ensures some { IsSome result ↔ (k < length (children (join_form (A.form a.now) (B.form b.now)).tree)) }
    ensures id { IfSome result (λ x. x.now.id.0 ≡ child_id (join_form (A.form a.now) (B.form b.now)) k) }
    ensures keys { IfSome result (λ x. keys x.now.m ≡ child_keys (join_form (A.form a.now) (B.form b.now)) k) }
    ensures names { IfSome result (λ x. values x.now.m ≡ child_names (join_form (A.form a.now) (B.form b.now)) k) }
{
    let n = a.applied_id_count();
    if k < n {
        a.get_applied_id(k)
    } else {
        b.get_applied_id(k - n)
    }
}

/// Returns the first place of a child. If the place is above the largest `usize`, that number is returned.
pub fn applied_id_place<A: LanguageChildren, B: LanguageChildren>(a: &A, b: &B, k: usize) -> usize
    requires { k < length (children (join_form (A.form a.now) (B.form b.now)).tree) }
    ensures { result ≡ counted (child_place (join_form (A.form a.now) (B.form b.now)).tree k) }
{
    let n = a.applied_id_count();
    if k < n {
        a.applied_id_place(k)
    } else {
        b.applied_id_place(k - n).saturating_add(a.slot_count())
    }
}

/// Replaces a child.
pub fn set_applied_id<A: LanguageChildren, B: LanguageChildren>(
    a: &mut A,
    b: &mut B,
    k: usize,
    x: AppliedId,
)
    requires { k < length (children (join_form (A.form a.old) (B.form b.old)).tree) }
    ensures { join_form (A.form a.new) (B.form b.new) ≡ with_applied (join_form (A.form a.old) (B.form b.old)) k x }
{
    let n = a.applied_id_count();
    if k < n {
        a.set_applied_id(k, x);
    } else {
        b.set_applied_id(k - n, x);
    }
}
