//! The parts of a node: slots, children, and binders over a part.
ghost use Rattle.std.specs.Prelude.{◌≡◌, ◌↔◌, ◌<◌, ℕ, List, [], ◌∷◌, length, map, slice_index, Option, Some, None};
ghost use Rattle.std.specs.Prelude.{option_map, IsTrue, IsSome, IfSome, IfOk, IfErr, refl};
ghost use Rattle.std.proofs.Common.{lit<};
ghost use Rattle.slotted_slots.specs.Error.{IsOutOfMemory};
ghost use Rattle.slotted_slots.specs.Maps.{keys, values};
ghost use Rattle.slotted_slots.specs.Table.{slot_limit};
ghost use Rattle.slotted_slots.specs.Syntax.{Element, element_of, applied, name};
ghost use Rattle.slotted_nodes.specs.Form.{Form, IsPlace, counted, counted_end, children, child_id, child_keys};
ghost use Rattle.slotted_nodes.specs.Form.{child_names, child_place, scopes, scope_end_of, with_name, with_applied};
ghost use Rattle.slotted_nodes.specs.Form.{slot_form, child_form, bind_form};
ghost use Rattle.slotted_nodes.specs.Equal.{applied_id_same, child_form_fits, bind_form_fits, bind_form_few};
ghost use Rattle.slotted_nodes.specs.Equal.{bind_same, slot_same};
ghost use Rattle.slotted_nodes.specs.Public.{IsPublic, is_public};
ghost use Rattle.slotted_nodes.specs.ReadFrom.{IsReadFrom, slot_faithful, child_faithful, bind_faithful};
ghost use Rattle.slotted_nodes.specs.Written.{read_slot, read_child, read_bind};

use slotted_slots::{AppliedId, Error, Slot, SyntaxElem};
use std::alloc::Global;
use std::fmt::Debug;
use std::hash::Hash;

/// A part of a node, or a whole node, read by its places.
///
/// The *places* are the positions of slots, from the left. A slot is one place. A child has one place for each value
/// of its map, in key order. A binder is a place before those under it.
///
/// The *children* are the applied ids, from the left. Places and children are counted from 0, and a call that takes a
/// place needs it to be below `slot_count`.
///
/// The `form` is what a part is, apart from how it is stored: an operator, its payloads, the tree of its arguments
/// without names, and the names at its places. Each call says what it reads of the form, or which form it leaves.
///
/// So a call that writes a place or a child changes nothing else. Scopes nest or lie apart, hold whole children, and
/// do not depend on names.
pub trait LanguageChildren: Debug + Clone + Hash + Eq + Drop {
    // The form of a part.
    ghost form: { Self → Form };

    // The elements that a part is written as.
    ghost shown: { Self → List Element };

    // The form that a list of elements writes.
    ghost read: { List Element → Option Form };

    /// Returns a part that equals this one.
    fn copy(&self, alloc: Global) -> Result<Self, Error>
        ensures ok { IfOk result (λ c. c ≡ self.now) }
        ensures err { IfErr result IsOutOfMemory };

    /// Returns the number of places, or the largest `usize` if there are more.
    fn slot_count(&self) -> usize
        ensures { result ≡ counted (length (form self.now).names) };

    /// Returns the name at a place.
    fn slot(&self, i: usize) -> Slot
        requires { IsPlace (form self.now) i }
        ensures { result ≡ slice_index (form self.now).names i };

    /// Replaces the name at a place.
    fn set_slot(&mut self, i: usize, s: Slot)
        requires { IsPlace (form self.old) i }
        ensures { form self.new ≡ with_name (form self.old) i s };

    /// Returns the place after the scope of a binder, or `None` if the place is no binder.
    ///
    /// The scope begins right after the binder. If its end is above the largest `usize`, that number is returned.
    fn scope_end(&self, i: usize) -> Option<usize>
        requires { IsPlace (form self.now) i }
        ensures { result ≡ counted_end (scope_end_of (scopes (form self.now).tree) i) };

    /// Returns the number of children.
    fn applied_id_count(&self) -> usize
        ensures { result ≡ length (children (form self.now).tree) };

    /// Returns a child, or `None` past the last one.
    fn get_applied_id(&self, k: usize) -> Option<&AppliedId>
        ensures some { IsSome result ↔ (k < length (children (form self.now).tree)) }
        ensures id { IfSome result (λ a. a.now.id.0 ≡ child_id (form self.now) k) }
        ensures keys { IfSome result (λ a. keys a.now.m ≡ child_keys (form self.now) k) }
        ensures names { IfSome result (λ a. values a.now.m ≡ child_names (form self.now) k) };

    /// Returns the first place of a child. If the child has no places, this is the place that its first one would
    /// have.
    ///
    /// If the place is above the largest `usize`, that number is returned.
    fn applied_id_place(&self, k: usize) -> usize
        requires { k < length (children (form self.now).tree) }
        ensures { result ≡ counted (child_place (form self.now).tree k) };

    /// Replaces a child.
    fn set_applied_id(&mut self, k: usize, a: AppliedId)
        requires { k < length (children (form self.old).tree) }
        ensures { form self.new ≡ with_applied (form self.old) k a };

    /// Returns the syntax: texts, slots and children as they are written, from the left.
    fn to_syntax(&self, alloc: Global) -> Result<Vec<SyntaxElem>, Error>
        ensures ok { IfOk result (λ v. map element_of v.items ≡ shown self.now) }
        ensures err { IfErr result IsOutOfMemory };

    /// Returns the part that these elements write, or `None` if they write none.
    fn from_syntax(alloc: Global, elements: &[SyntaxElem]) -> Result<Option<Self>, Error>
        ensures ok { IfOk result (λ o. option_map form o ≡ read (map element_of elements.now)) }
        ensures err { IfErr result IsOutOfMemory };

    /// Returns a child.
    final fn applied_id(&self, k: usize) -> &AppliedId
        requires { k < length (children (form self.now).tree) }
        ensures id { result.now.id.0 ≡ child_id (form self.now) k }
        ensures keys { keys result.now.m ≡ child_keys (form self.now) k }
        ensures names { values result.now.m ≡ child_names (form self.now) k }
    {
        self.get_applied_id(k).unwrap()
    }

    /// Returns whether a place is public: it is no binder, and no binder that scopes it has its name.
    final fn is_public(&self, i: usize) -> bool
        requires { IsPlace (form self.now) i }
        ensures test { result ≡ is_public (form self.now) i }
        ensures means { IsTrue result ↔ IsPublic (form self.now) i }
    {
        if self.scope_end(i).is_some() {
            return false;
        }
        let name = self.slot(i);
        for j in 0..i {
            if let Some(end) = self.scope_end(j)
                && i < end
                && self.slot(j) == name
            {
                return false;
            }
        }
        true
    }

    // A part has as many names as its tree has places.
    ghost fits: { (a : Self) → length (form a).names ≡ length (scopes (form a).tree) };

    // The children can be counted.
    ghost few: { (a : Self) → length (children (form a).tree) < slot_limit };

    // Two parts are equal if and only if operator, payloads, places and children are.
    ghost same: { (a b : Self) → IsTrue (Self.eq a b) ↔ form a ≡ form b };

    // A part that is read has the slots and the children of its elements, and no others.
    ghost faithful: { (es : List Element) → IfSome (read es) (IsReadFrom es) };
}

impl LanguageChildren for Slot {
    ghost form = { slot_form };

    ghost shown = { λ x. name x ∷ [] };

    ghost read = { read_slot };

    ghost fits = { λ _. refl };

    ghost few = { λ _. lit< tt };

    ghost same = { slot_same };

    ghost faithful = { slot_faithful };

    fn copy(&self, alloc: Global) -> Result<Self, Error> {
        Ok(*self)
    }

    fn slot_count(&self) -> usize {
        1
    }

    fn slot(&self, i: usize) -> Slot {
        *self
    }

    fn set_slot(&mut self, i: usize, s: Slot) {
        *self = s;
    }

    fn scope_end(&self, i: usize) -> Option<usize> {
        None
    }

    fn applied_id_count(&self) -> usize {
        0
    }

    fn get_applied_id(&self, k: usize) -> Option<&AppliedId> {
        None
    }

    // A slot has no children, so calls that write or place one need no condition.
    fn applied_id_place(&self, k: usize) -> usize
        ensures { result ≡ 0 }
    {
        0
    }

    fn set_applied_id(&mut self, k: usize, a: AppliedId)
        ensures { self.new ≡ self.old }
    {}

    fn to_syntax(&self, alloc: Global) -> Result<Vec<SyntaxElem>, Error> {
        Ok(vec![in alloc; SyntaxElem::Slot(*self)]?)
    }

    fn from_syntax(alloc: Global, elements: &[SyntaxElem]) -> Result<Option<Self>, Error> {
        match elements {
            [SyntaxElem::Slot(slot)] => Ok(Some(*slot)),
            _ => Ok(None),
        }
    }
}

impl LanguageChildren for AppliedId {
    ghost form = { λ a. child_form a.id.0 a.m };

    ghost shown = { λ a. applied a.id.0 a.m ∷ [] };

    ghost read = { read_child };

    ghost fits = { λ a. child_form_fits a.m };

    ghost few = { λ _. lit< tt };

    ghost same = { applied_id_same };

    ghost faithful = { child_faithful };

    fn copy(&self, alloc: Global) -> Result<Self, Error> {
        AppliedId::copy(self, alloc)
    }

    fn slot_count(&self) -> usize {
        self.m.len()
    }

    fn slot(&self, i: usize) -> Slot {
        self.m.value_at(i)
    }

    fn set_slot(&mut self, i: usize, s: Slot) {
        self.m.set_value_at(i, s);
    }

    fn scope_end(&self, i: usize) -> Option<usize> {
        None
    }

    fn applied_id_count(&self) -> usize {
        1
    }

    fn get_applied_id(&self, k: usize) -> Option<&AppliedId> {
        if k == 0 { Some(self) } else { None }
    }

    fn applied_id_place(&self, k: usize) -> usize {
        0
    }

    fn set_applied_id(&mut self, k: usize, a: AppliedId) {
        *self = a;
    }

    fn to_syntax(&self, alloc: Global) -> Result<Vec<SyntaxElem>, Error> {
        Ok(vec![in alloc; SyntaxElem::AppliedId(self.copy(alloc)?)]?)
    }

    fn from_syntax(alloc: Global, elements: &[SyntaxElem]) -> Result<Option<Self>, Error> {
        match elements {
            [SyntaxElem::AppliedId(child)] => Ok(Some(child.copy(alloc)?)),
            _ => Ok(None),
        }
    }
}

/// A binder and the part under it: `slot` is bound in `elem`.
///
/// The first place is the binder, and its scope is all that `elem` has. A binder is written as the slot, then the
/// element.
#[derive(Drop, Debug, Clone, PartialEq, Eq, PartialOrd, Ord, Hash)]
pub struct Bind<T> {
    /// The bound slot.
    pub slot: Slot,
    /// The part under the binder.
    pub elem: T,
}

impl<T: LanguageChildren> LanguageChildren for Bind<T> {
    ghost form = { λ b. bind_form b.slot (T.form b.elem) };

    ghost shown = { λ b. name b.slot ∷ T.shown b.elem };

    ghost read = { read_bind T.read };

    ghost fits = { λ b. bind_form_fits b.slot (T.form b.elem) (T.fits b.elem) };

    ghost few = { λ b. bind_form_few b.slot (T.form b.elem) (T.few b.elem) };

    ghost same = { λ a b. bind_same (T.eq a.elem b.elem) a.slot b.slot
        (T.form a.elem) (T.form b.elem) (T.same a.elem b.elem) };

    ghost faithful = { bind_faithful T.read T.faithful };

    fn copy(&self, alloc: Global) -> Result<Self, Error> {
        Ok(Bind {
            slot: self.slot,
            elem: self.elem.copy(alloc)?,
        })
    }

    fn slot_count(&self) -> usize {
        self.elem.slot_count().saturating_add(1)
    }

    fn slot(&self, i: usize) -> Slot {
        if i == 0 {
            self.slot
        } else {
            self.elem.slot(i - 1)
        }
    }

    fn set_slot(&mut self, i: usize, s: Slot) {
        if i == 0 {
            self.slot = s;
        } else {
            self.elem.set_slot(i - 1, s);
        }
    }

    fn scope_end(&self, i: usize) -> Option<usize> {
        if i == 0 {
            Some(self.elem.slot_count().saturating_add(1))
        } else {
            match self.elem.scope_end(i - 1) {
                Some(end) => Some(end.saturating_add(1)),
                None => None,
            }
        }
    }

    fn applied_id_count(&self) -> usize {
        self.elem.applied_id_count()
    }

    fn get_applied_id(&self, k: usize) -> Option<&AppliedId> {
        self.elem.get_applied_id(k)
    }

    fn applied_id_place(&self, k: usize) -> usize {
        self.elem.applied_id_place(k).saturating_add(1)
    }

    fn set_applied_id(&mut self, k: usize, a: AppliedId) {
        self.elem.set_applied_id(k, a);
    }

    fn to_syntax(&self, alloc: Global) -> Result<Vec<SyntaxElem>, Error> {
        let mut elements = vec![in alloc; SyntaxElem::Slot(self.slot)]?;
        elements.append(&mut self.elem.to_syntax(alloc)?)?;
        Ok(elements)
    }

    fn from_syntax(alloc: Global, elements: &[SyntaxElem]) -> Result<Option<Self>, Error> {
        let [SyntaxElem::Slot(slot), rest @ ..] = elements else {
            return Ok(None);
        };
        match T::from_syntax(alloc, rest)? {
            Some(elem) => Ok(Some(Bind { slot: *slot, elem })),
            None => Ok(None),
        }
    }
}
