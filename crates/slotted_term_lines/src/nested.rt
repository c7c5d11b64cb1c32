//! A language whose scopes end at different places, as those of no operator of `Small` do. It is neither written nor
//! read: its nodes are made from their elements in order.
ghost use Rattle.std.specs.Prelude.{[], None};
ghost use Rattle.std.proofs.Common.{lit<};
ghost use Rattle.slotted_nodes.specs.Equal.{bind_form_fits, bind_same};
ghost use Rattle.slotted_nodes.specs.Form.{bind_form};
ghost use Rattle.slotted_term_lines.specs.Nested.{tail_fits, tail_form, tail_same};

use slotted_languages::{Bind, Language, LanguageChildren, pair};
use slotted_slots::{AppliedId, Error, Slot, SyntaxElem};
use std::alloc::Global;

// A binder over a child, and a slot after the scope.
#[derive(Drop, Debug, Clone, PartialEq, Eq, PartialOrd, Ord, Hash)]
pub(crate) struct Tail(Bind<AppliedId>, Slot);

impl LanguageChildren for Tail {
    ghost form = { λ t. tail_form t.0.slot t.0.elem t.1 };

    ghost shown = { λ _. [] };

    ghost read = { λ _. None };

    ghost fits = { λ t. tail_fits t.0.slot t.0.elem t.1 };

    ghost few = { λ _. lit< tt };

    // No elements are read as such a node.
    ghost faithful = { λ _. tt };

    ghost same = { λ a b. tail_same a.0.slot a.0.elem a.1 b.0.slot b.0.elem b.1 };

    fn copy(&self, alloc: Global) -> Result<Self, Error> {
        Ok(Tail(self.0.copy(alloc)?, self.1))
    }

    fn slot_count(&self) -> usize {
        pair::slot_count(&self.0, &self.1)
    }

    fn slot(&self, i: usize) -> Slot {
        pair::slot(&self.0, &self.1, i)
    }

    fn set_slot(&mut self, i: usize, s: Slot) {
        pair::set_slot(&mut self.0, &mut self.1, i, s);
    }

    fn scope_end(&self, i: usize) -> Option<usize> {
        pair::scope_end(&self.0, &self.1, i)
    }

    fn applied_id_count(&self) -> usize {
        pair::applied_id_count(&self.0, &self.1)
    }

    fn get_applied_id(&self, k: usize) -> Option<&AppliedId> {
        pair::get_applied_id(&self.0, &self.1, k)
    }

    fn applied_id_place(&self, k: usize) -> usize {
        pair::applied_id_place(&self.0, &self.1, k)
    }

    fn set_applied_id(&mut self, k: usize, a: AppliedId) {
        pair::set_applied_id(&mut self.0, &mut self.1, k, a);
    }

    fn to_syntax(&self, alloc: Global) -> Result<Vec<SyntaxElem>, Error> {
        Ok(Vec::new(alloc))
    }

    fn from_syntax(_alloc: Global, _elements: &[SyntaxElem]) -> Result<Option<Self>, Error> {
        Ok(None)
    }
}

// A binder over a binder and a slot: its scope has the last slot, which the inner scope has not.
#[derive(Drop, Debug, Clone, PartialEq, Eq, PartialOrd, Ord, Hash)]
pub(crate) struct Outer(Bind<Tail>);

impl LanguageChildren for Outer {
    ghost form = { λ t. bind_form t.0.slot (⟦<Tail as LanguageChildren>⟧.form t.0.elem) };

    ghost shown = { λ _. [] };

    ghost read = { λ _. None };

    ghost fits = { λ t. bind_form_fits t.0.slot (⟦<Tail as LanguageChildren>⟧.form t.0.elem)
        (tail_fits t.0.elem.0.slot t.0.elem.0.elem t.0.elem.1) };

    ghost few = { λ _. lit< tt };

    ghost faithful = { λ _. tt };

    ghost same = { λ a b. bind_same (⟦<Tail as PartialEq>⟧.eq a.0.elem b.0.elem) a.0.slot b.0.slot
        (⟦<Tail as LanguageChildren>⟧.form a.0.elem) (⟦<Tail as LanguageChildren>⟧.form b.0.elem)
        (tail_same a.0.elem.0.slot a.0.elem.0.elem a.0.elem.1 b.0.elem.0.slot b.0.elem.0.elem b.0.elem.1) };

    fn copy(&self, alloc: Global) -> Result<Self, Error> {
        Ok(Outer(self.0.copy(alloc)?))
    }

    fn slot_count(&self) -> usize {
        self.0.slot_count()
    }

    fn slot(&self, i: usize) -> Slot {
        self.0.slot(i)
    }

    fn set_slot(&mut self, i: usize, s: Slot) {
        self.0.set_slot(i, s);
    }

    fn scope_end(&self, i: usize) -> Option<usize> {
        self.0.scope_end(i)
    }

    fn applied_id_count(&self) -> usize {
        self.0.applied_id_count()
    }

    fn get_applied_id(&self, k: usize) -> Option<&AppliedId> {
        self.0.get_applied_id(k)
    }

    fn applied_id_place(&self, k: usize) -> usize {
        self.0.applied_id_place(k)
    }

    fn set_applied_id(&mut self, k: usize, a: AppliedId) {
        self.0.set_applied_id(k, a);
    }

    fn to_syntax(&self, alloc: Global) -> Result<Vec<SyntaxElem>, Error> {
        Ok(Vec::new(alloc))
    }

    fn from_syntax(_alloc: Global, _elements: &[SyntaxElem]) -> Result<Option<Self>, Error> {
        Ok(None)
    }
}

impl Language for Outer {
    fn operator(&self) -> u32 {
        0
    }
}

// Returns a binder over a child, and a slot, of these elements.
fn tail_of(alloc: Global, elements: &[SyntaxElem]) -> Result<Tail, Error> {
    match elements {
        [
            SyntaxElem::Slot(slot),
            SyntaxElem::AppliedId(child),
            SyntaxElem::Slot(last),
        ] => {
            let (slot, elem) = (*slot, child.copy(alloc)?);
            Ok(Tail(Bind { slot, elem }, *last))
        }
        _ => Err(Error::NotATerm),
    }
}

// Returns a binder over a binder and a slot, of these elements.
pub(crate) fn make_outer(alloc: Global, elements: &[SyntaxElem]) -> Result<Outer, Error> {
    match elements {
        [SyntaxElem::Slot(slot), rest @ ..] => {
            let (slot, elem) = (*slot, tail_of(alloc, rest)?);
            Ok(Outer(Bind { slot, elem }))
        }
        _ => Err(Error::NotATerm),
    }
}
