//! Signed numbers as payloads.
//!
//! A payload has neither places nor children, so calls about one need no condition.
ghost use Rattle.std.specs.Prelude.{◌≡◌, [], ◌∷◌, None, option_map, refl};
ghost use Rattle.std.specs.Fmt.{signed_decimal};
ghost use Rattle.std.specs.Int.{w8, w16, w32, w64, w128};
ghost use Rattle.std.proofs.Common.{lit<};
ghost use Rattle.slotted_slots.specs.Syntax.{text};
ghost use Rattle.slotted_nodes.specs.ReadFrom.{text_faithful};
ghost use Rattle.slotted_nodes.specs.TextLaws.{signed_same, signed_parses};
ghost use Rattle.slotted_nodes.specs.Texts.{signed_form, signed_word, reads_signed};
ghost use Rattle.slotted_nodes.specs.Written.{read_text};

use crate::children::LanguageChildren;
use crate::payload::texts::{Payload, read, write};
use slotted_slots::{AppliedId, Error, Slot, SyntaxElem};
use std::alloc::Global;

impl Payload for i8 {
    ghost written = { signed_decimal };

    ghost reads = { reads_signed 7 };

    ghost prints = { λ _. refl };

    ghost parses = { λ bs r _ h. signed_parses w8 bs r h.0 };
}

impl LanguageChildren for i8 {
    ghost form = { signed_form };

    ghost shown = { λ p. text (signed_decimal p) ∷ [] };

    ghost read = { λ es. option_map signed_form (read_text (reads_signed 7) es) };

    ghost fits = { λ _. refl };

    ghost few = { λ _. lit< tt };

    ghost same = { signed_same };

    ghost faithful = { text_faithful signed_word (reads_signed 7) };

    fn copy(&self, alloc: Global) -> Result<Self, Error> {
        Ok(*self)
    }

    fn slot_count(&self) -> usize {
        0
    }

    fn slot(&self, i: usize) -> Slot
        ensures { result ≡ 0 }
    {
        Slot::numeric_at(0)
    }

    fn set_slot(&mut self, i: usize, s: Slot)
        ensures { self.new ≡ self.old }
    {}

    fn scope_end(&self, i: usize) -> Option<usize>
        ensures { result ≡ None }
    {
        None
    }

    fn applied_id_count(&self) -> usize {
        0
    }

    fn get_applied_id(&self, k: usize) -> Option<&AppliedId> {
        None
    }

    fn applied_id_place(&self, k: usize) -> usize
        ensures { result ≡ 0 }
    {
        0
    }

    fn set_applied_id(&mut self, k: usize, a: AppliedId)
        ensures { self.new ≡ self.old }
    {}

    fn to_syntax(&self, alloc: Global) -> Result<Vec<SyntaxElem>, Error> {
        write(alloc, *self)
    }

    fn from_syntax(alloc: Global, elements: &[SyntaxElem]) -> Result<Option<Self>, Error> {
        Ok(read(elements))
    }
}

impl Payload for i16 {
    ghost written = { signed_decimal };

    ghost reads = { reads_signed 15 };

    ghost prints = { λ _. refl };

    ghost parses = { λ bs r _ h. signed_parses w16 bs r h.0 };
}

impl LanguageChildren for i16 {
    ghost form = { signed_form };

    ghost shown = { λ p. text (signed_decimal p) ∷ [] };

    ghost read = { λ es. option_map signed_form (read_text (reads_signed 15) es) };

    ghost fits = { λ _. refl };

    ghost few = { λ _. lit< tt };

    ghost same = { signed_same };

    ghost faithful = { text_faithful signed_word (reads_signed 15) };

    fn copy(&self, alloc: Global) -> Result<Self, Error> {
        Ok(*self)
    }

    fn slot_count(&self) -> usize {
        0
    }

    fn slot(&self, i: usize) -> Slot
        ensures { result ≡ 0 }
    {
        Slot::numeric_at(0)
    }

    fn set_slot(&mut self, i: usize, s: Slot)
        ensures { self.new ≡ self.old }
    {}

    fn scope_end(&self, i: usize) -> Option<usize>
        ensures { result ≡ None }
    {
        None
    }

    fn applied_id_count(&self) -> usize {
        0
    }

    fn get_applied_id(&self, k: usize) -> Option<&AppliedId> {
        None
    }

    fn applied_id_place(&self, k: usize) -> usize
        ensures { result ≡ 0 }
    {
        0
    }

    fn set_applied_id(&mut self, k: usize, a: AppliedId)
        ensures { self.new ≡ self.old }
    {}

    fn to_syntax(&self, alloc: Global) -> Result<Vec<SyntaxElem>, Error> {
        write(alloc, *self)
    }

    fn from_syntax(alloc: Global, elements: &[SyntaxElem]) -> Result<Option<Self>, Error> {
        Ok(read(elements))
    }
}

impl Payload for i32 {
    ghost written = { signed_decimal };

    ghost reads = { reads_signed 31 };

    ghost prints = { λ _. refl };

    ghost parses = { λ bs r _ h. signed_parses w32 bs r h.0 };
}

impl LanguageChildren for i32 {
    ghost form = { signed_form };

    ghost shown = { λ p. text (signed_decimal p) ∷ [] };

    ghost read = { λ es. option_map signed_form (read_text (reads_signed 31) es) };

    ghost fits = { λ _. refl };

    ghost few = { λ _. lit< tt };

    ghost same = { signed_same };

    ghost faithful = { text_faithful signed_word (reads_signed 31) };

    fn copy(&self, alloc: Global) -> Result<Self, Error> {
        Ok(*self)
    }

    fn slot_count(&self) -> usize {
        0
    }

    fn slot(&self, i: usize) -> Slot
        ensures { result ≡ 0 }
    {
        Slot::numeric_at(0)
    }

    fn set_slot(&mut self, i: usize, s: Slot)
        ensures { self.new ≡ self.old }
    {}

    fn scope_end(&self, i: usize) -> Option<usize>
        ensures { result ≡ None }
    {
        None
    }

    fn applied_id_count(&self) -> usize {
        0
    }

    fn get_applied_id(&self, k: usize) -> Option<&AppliedId> {
        None
    }

    fn applied_id_place(&self, k: usize) -> usize
        ensures { result ≡ 0 }
    {
        0
    }

    fn set_applied_id(&mut self, k: usize, a: AppliedId)
        ensures { self.new ≡ self.old }
    {}

    fn to_syntax(&self, alloc: Global) -> Result<Vec<SyntaxElem>, Error> {
        write(alloc, *self)
    }

    fn from_syntax(alloc: Global, elements: &[SyntaxElem]) -> Result<Option<Self>, Error> {
        Ok(read(elements))
    }
}

impl Payload for i64 {
    ghost written = { signed_decimal };

    ghost reads = { reads_signed 63 };

    ghost prints = { λ _. refl };

    ghost parses = { λ bs r _ h. signed_parses w64 bs r h.0 };
}

impl LanguageChildren for i64 {
    ghost form = { signed_form };

    ghost shown = { λ p. text (signed_decimal p) ∷ [] };

    ghost read = { λ es. option_map signed_form (read_text (reads_signed 63) es) };

    ghost fits = { λ _. refl };

    ghost few = { λ _. lit< tt };

    ghost same = { signed_same };

    ghost faithful = { text_faithful signed_word (reads_signed 63) };

    fn copy(&self, alloc: Global) -> Result<Self, Error> {
        Ok(*self)
    }

    fn slot_count(&self) -> usize {
        0
    }

    fn slot(&self, i: usize) -> Slot
        ensures { result ≡ 0 }
    {
        Slot::numeric_at(0)
    }

    fn set_slot(&mut self, i: usize, s: Slot)
        ensures { self.new ≡ self.old }
    {}

    fn scope_end(&self, i: usize) -> Option<usize>
        ensures { result ≡ None }
    {
        None
    }

    fn applied_id_count(&self) -> usize {
        0
    }

    fn get_applied_id(&self, k: usize) -> Option<&AppliedId> {
        None
    }

    fn applied_id_place(&self, k: usize) -> usize
        ensures { result ≡ 0 }
    {
        0
    }

    fn set_applied_id(&mut self, k: usize, a: AppliedId)
        ensures { self.new ≡ self.old }
    {}

    fn to_syntax(&self, alloc: Global) -> Result<Vec<SyntaxElem>, Error> {
        write(alloc, *self)
    }

    fn from_syntax(alloc: Global, elements: &[SyntaxElem]) -> Result<Option<Self>, Error> {
        Ok(read(elements))
    }
}

impl Payload for i128 {
    ghost written = { signed_decimal };

    ghost reads = { reads_signed 127 };

    ghost prints = { λ _. refl };

    ghost parses = { λ bs r _ h. signed_parses w128 bs r h.0 };
}

impl LanguageChildren for i128 {
    ghost form = { signed_form };

    ghost shown = { λ p. text (signed_decimal p) ∷ [] };

    ghost read = { λ es. option_map signed_form (read_text (reads_signed 127) es) };

    ghost fits = { λ _. refl };

    ghost few = { λ _. lit< tt };

    ghost same = { signed_same };

    ghost faithful = { text_faithful signed_word (reads_signed 127) };

    fn copy(&self, alloc: Global) -> Result<Self, Error> {
        Ok(*self)
    }

    fn slot_count(&self) -> usize {
        0
    }

    fn slot(&self, i: usize) -> Slot
        ensures { result ≡ 0 }
    {
        Slot::numeric_at(0)
    }

    fn set_slot(&mut self, i: usize, s: Slot)
        ensures { self.new ≡ self.old }
    {}

    fn scope_end(&self, i: usize) -> Option<usize>
        ensures { result ≡ None }
    {
        None
    }

    fn applied_id_count(&self) -> usize {
        0
    }

    fn get_applied_id(&self, k: usize) -> Option<&AppliedId> {
        None
    }

    fn applied_id_place(&self, k: usize) -> usize
        ensures { result ≡ 0 }
    {
        0
    }

    fn set_applied_id(&mut self, k: usize, a: AppliedId)
        ensures { self.new ≡ self.old }
    {}

    fn to_syntax(&self, alloc: Global) -> Result<Vec<SyntaxElem>, Error> {
        write(alloc, *self)
    }

    fn from_syntax(alloc: Global, elements: &[SyntaxElem]) -> Result<Option<Self>, Error> {
        Ok(read(elements))
    }
}

impl Payload for isize {
    ghost written = { signed_decimal };

    ghost reads = { reads_signed 63 };

    ghost prints = { λ _. refl };

    ghost parses = { λ bs r _ h. signed_parses w64 bs r h.0 };
}

impl LanguageChildren for isize {
    ghost form = { signed_form };

    ghost shown = { λ p. text (signed_decimal p) ∷ [] };

    ghost read = { λ es. option_map signed_form (read_text (reads_signed 63) es) };

    ghost fits = { λ _. refl };

    ghost few = { λ _. lit< tt };

    ghost same = { signed_same };

    ghost faithful = { text_faithful signed_word (reads_signed 63) };

    fn copy(&self, alloc: Global) -> Result<Self, Error> {
        Ok(*self)
    }

    fn slot_count(&self) -> usize {
        0
    }

    fn slot(&self, i: usize) -> Slot
        ensures { result ≡ 0 }
    {
        Slot::numeric_at(0)
    }

    fn set_slot(&mut self, i: usize, s: Slot)
        ensures { self.new ≡ self.old }
    {}

    fn scope_end(&self, i: usize) -> Option<usize>
        ensures { result ≡ None }
    {
        None
    }

    fn applied_id_count(&self) -> usize {
        0
    }

    fn get_applied_id(&self, k: usize) -> Option<&AppliedId> {
        None
    }

    fn applied_id_place(&self, k: usize) -> usize
        ensures { result ≡ 0 }
    {
        0
    }

    fn set_applied_id(&mut self, k: usize, a: AppliedId)
        ensures { self.new ≡ self.old }
    {}

    fn to_syntax(&self, alloc: Global) -> Result<Vec<SyntaxElem>, Error> {
        write(alloc, *self)
    }

    fn from_syntax(alloc: Global, elements: &[SyntaxElem]) -> Result<Option<Self>, Error> {
        Ok(read(elements))
    }
}
