//! Places and children of a list of arguments, from the left.
ghost use Rattle.std.specs.Prelude.{◌≡◌, ◌↔◌, ◌<◌, ◌≤◌, ℕ, length, map, slice_index, slice_set, MatchOption, IsSome, IfSome, IfOk, IfErr, OnOk, option_map, ◌++◌};
ghost use Rattle.slotted_slots.specs.Error.{IsOutOfMemory};
ghost use Rattle.slotted_slots.specs.Syntax.{element_of};
ghost use Rattle.slotted_slots.specs.Table.{slot_limit};
ghost use Rattle.slotted_nodes.specs.Form.{counted, counted_end, scopes, scope_end_of, child_place};
ghost use Rattle.slotted_nodes.specs.ReadFrom.{slots_of, applied_count};
ghost use Rattle.slotted_symbols.specs.Arguments.{element, elements, places, to_child, tree_of, read_arguments};
ghost use Rattle.slotted_symbols.specs.Places.{IsAtPlace, IsChildAt, HasName, HasChild, HasOtherChild};

use crate::argument::Argument;
use slotted_languages::shape::PLACES;
use slotted_slots::{AppliedId, Error, Slot, SyntaxElem};
use std::alloc::Global;

// Returns the number of places of an argument.
fn width(argument: &Argument) -> usize
    ensures { result ≡ places (element argument.now) }
{
    match argument {
        Argument::Slot(_) => 1,
        Argument::Child(a) => a.m.len(),
    }
}

/// Returns the number of places. If there are more than the largest `usize`, that number is returned.
pub(crate) fn place_count(arguments: &[Argument]) -> usize
    ensures { result ≡ counted (length (slots_of (elements arguments.now))) }
{
    let mut count = 0usize;
    for argument in arguments {
        count = count.saturating_add(width(argument));
    }
    count
}

// Returns which argument has a place, and which of that argument's own places it is.
fn locate(arguments: &[Argument], i: usize) -> (usize, usize)
    requires { i < length (slots_of (elements arguments.now)) }
    ensures { IsAtPlace arguments.now i result.0 result.1 }
{
    let mut left = i;
    for k in 0..arguments.len() {
        let width = width(&arguments[k]);
        if left < width {
            return (k, left);
        }
        left -= width;
    }
    unreachable!()
}

/// Returns the name at a place.
pub(crate) fn name_at(arguments: &[Argument], i: usize) -> Slot
    requires { i < length (slots_of (elements arguments.now)) }
    ensures { result ≡ slice_index (slots_of (elements arguments.now)) i }
{
    let (k, j) = locate(arguments, i);
    match &arguments[k] {
        Argument::Slot(x) => *x,
        Argument::Child(a) => a.m.value_at(j),
    }
}

/// Replaces the name at a place.
pub(crate) fn set_name_at(arguments: &mut [Argument], i: usize, s: Slot)
    requires { i < length (slots_of (elements arguments.old)) }
    ensures { HasName (elements arguments.old) i s (elements arguments.new) }
{
    let (k, j) = locate(arguments, i);
    match &mut arguments[k] {
        Argument::Slot(x) => *x = s,
        Argument::Child(a) => a.m.set_value_at(j, s),
    }
}

// Returns the number of places up to the end of the first child, or `None` if there is no child. If there are more than
// the largest `usize`, that number is returned.
fn places_to_child(arguments: &[Argument]) -> Option<usize>
    ensures { result ≡ counted_end (to_child (elements arguments.now)) }
{
    for k in 0..arguments.len() {
        if let Argument::Child(a) = &arguments[k] {
            return Some(k.saturating_add(a.m.len()));
        }
    }
    None
}

/// Returns the place after the scope of a binder, or `None` if the place is no binder.
pub(crate) fn scope_end(arguments: &[Argument], i: usize) -> Option<usize>
    requires { i < length (slots_of (elements arguments.now)) }
    ensures { result ≡ counted_end (scope_end_of (scopes (tree_of (elements arguments.now))) i) }
{
    let (k, _) = locate(arguments, i);
    match &arguments[k] {
        Argument::Slot(_) => match places_to_child(&arguments[k + 1..]) {
            Some(count) => Some(count.saturating_add(1).saturating_add(i)),
            None => None,
        },
        Argument::Child(_) => None,
    }
}

/// Returns the number of children.
pub(crate) fn child_count(arguments: &[Argument]) -> usize
    requires { length arguments.now < slot_limit }
    ensures { result ≡ applied_count (elements arguments.now) }
{
    let mut count = 0usize;
    for argument in arguments {
        match argument {
            Argument::Slot(_) => {}
            Argument::Child(_) => count += 1,
        }
    }
    count
}

// Returns which argument is the child with this number, or `None` past the last one.
fn child_index(arguments: &[Argument], k: usize) -> Option<usize>
    ensures { MatchOption result (applied_count (elements arguments.now) ≤ k) (IsChildAt arguments.now k) }
{
    let mut left = k;
    for n in 0..arguments.len() {
        match &arguments[n] {
            Argument::Slot(_) => {}
            Argument::Child(_) => {
                if left == 0 {
                    return Some(n);
                }
                left -= 1;
            }
        }
    }
    None
}

/// Returns a child, or `None` past the last one.
pub(crate) fn child_at(arguments: &[Argument], k: usize) -> Option<&AppliedId>
    ensures some { IsSome result ↔ (k < applied_count (elements arguments.now)) }
    ensures child { IfSome result (λ a. HasChild (elements arguments.now) k a.now) }
{
    let n = child_index(arguments, k)?;
    match &arguments[n] {
        Argument::Slot(_) => None,
        Argument::Child(a) => Some(a),
    }
}

/// Returns the first place of a child. If the place is above the largest `usize`, that number is returned.
pub(crate) fn child_place(arguments: &[Argument], k: usize) -> usize
    requires { k < applied_count (elements arguments.now) }
    ensures { result ≡ counted (child_place (tree_of (elements arguments.now)) k) }
{
    match child_index(arguments, k) {
        Some(n) => place_count(&arguments[..n]),
        None => unreachable!(),
    }
}

/// Replaces a child.
pub(crate) fn set_child_at(arguments: &mut [Argument], k: usize, a: AppliedId)
    requires { k < applied_count (elements arguments.old) }
    ensures { HasOtherChild (elements arguments.old) k a (elements arguments.new) }
{
    match child_index(arguments, k) {
        Some(n) => arguments[n] = Argument::Child(a),
        None => unreachable!(),
    }
}

/// Returns the arguments that are written as these elements, or `None` if a text is among them or if they are 2^30 or
/// more.
pub(crate) fn read_arguments(
    alloc: Global,
    syntax: &[SyntaxElem],
) -> Result<Option<Vec<Argument>>, Error>
    ensures ok { IfOk result
        (λ o. option_map (λ v. elements v.items) o ≡ read_arguments (map element_of syntax.now)) }
    ensures err { IfErr result IsOutOfMemory }
{
    if syntax.len() >= PLACES {
        return Ok(None);
    }
    let mut arguments = Vec::with_capacity(alloc, syntax.len())?;
    for element in syntax {
        match element {
            SyntaxElem::String(_) => return Ok(None),
            SyntaxElem::Slot(x) => arguments.push(Argument::Slot(*x))?,
            SyntaxElem::AppliedId(a) => arguments.push(Argument::Child(a.copy(alloc)?))?,
        }
    }
    Ok(Some(arguments))
}

/// Appends what the arguments are written as.
pub(crate) fn write_arguments(
    alloc: Global,
    arguments: &[Argument],
    written: &mut Vec<SyntaxElem>,
) -> Result<(), Error>
    ensures ok { OnOk result (map element_of written.new.items ≡ map element_of written.old.items ++ elements arguments.now) }
    ensures err { IfErr result IsOutOfMemory }
{
    for argument in arguments {
        match argument {
            Argument::Slot(x) => written.push(SyntaxElem::Slot(*x))?,
            Argument::Child(a) => written.push(SyntaxElem::AppliedId(a.copy(alloc)?))?,
        }
    }
    Ok(())
}
