//! Truth values as payloads.
//!
//! A payload has neither places nor children, so calls about one need no condition.
ghost use Rattle.std.specs.Prelude.{◌≡◌, [], ◌∷◌, None, option_map, refl};
ghost use Rattle.std.proofs.Common.{lit<};
ghost use Rattle.slotted_slots.specs.Syntax.{text};
ghost use Rattle.slotted_nodes.specs.ReadFrom.{text_faithful};
ghost use Rattle.slotted_nodes.specs.TextLaws.{bool_same, bool_parses};
ghost use Rattle.slotted_nodes.specs.Texts.{bool_form, bool_word, bool_text, reads_bool};
ghost use Rattle.slotted_nodes.specs.Written.{read_text};

use crate::children::LanguageChildren;
use crate::payload::texts::{Payload, read, write};
use slotted_slots::{AppliedId, Error, Slot, SyntaxElem};
use std::alloc::Global;

impl Payload for bool {
    ghost written = { bool_text };

    ghost reads = { reads_bool };

    ghost prints = { λ _. refl };

    ghost parses = { λ bs r _ h. bool_parses bs r h };
}

impl LanguageChildren for bool {
    ghost form = { bool_form };

    ghost shown = { λ p. text (bool_text p) ∷ [] };

    ghost read = { λ es. option_map bool_form (read_text reads_bool es) };

    ghost fits = { λ _. refl };

    ghost few = { λ _. lit< tt };

    ghost same = { bool_same };

    ghost faithful = { text_faithful bool_word reads_bool };

    fn copy(&self, alloc: Global) -> Result<Self, Error> {
        Ok(*self)
    }

    fn slot_count(&self) -> usize {
        0
    }

    fn slot(&self, i: usize) -> Slot
        ensures { result ≡ 0 }
    {
        Slot::numeric_at(0)
    }

    fn set_slot(&mut self, i: usize, s: Slot)
        ensures { self.new ≡ self.old }
    {}

    fn scope_end(&self, i: usize) -> Option<usize>
        ensures { result ≡ None }
    {
        None
    }

    fn applied_id_count(&self) -> usize {
        0
    }

    fn get_applied_id(&self, k: usize) -> Option<&AppliedId> {
        None
    }

    fn applied_id_place(&self, k: usize) -> usize
        ensures { result ≡ 0 }
    {
        0
    }

    fn set_applied_id(&mut self, k: usize, a: AppliedId)
        ensures { self.new ≡ self.old }
    {}

    fn to_syntax(&self, alloc: Global) -> Result<Vec<SyntaxElem>, Error> {
        write(alloc, *self)
    }

    fn from_syntax(alloc: Global, elements: &[SyntaxElem]) -> Result<Option<Self>, Error> {
        Ok(read(elements))
    }
}
