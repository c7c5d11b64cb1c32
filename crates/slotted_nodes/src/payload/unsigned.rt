//! Unsigned numbers as payloads.
//!
//! A payload has neither places nor children, so calls about one need no condition.
ghost use Rattle.std.specs.Prelude.{◌≡◌, [], ◌∷◌, None, decimal, option_map, refl};
ghost use Rattle.std.proofs.Common.{lit<};
ghost use Rattle.slotted_slots.proofs.NamingLaws.{reads_u32-parses};
ghost use Rattle.slotted_slots.specs.Syntax.{text};
ghost use Rattle.slotted_slots.specs.Table.{reads_u32};
ghost use Rattle.slotted_nodes.specs.ReadFrom.{text_faithful};
ghost use Rattle.slotted_nodes.specs.TextLaws.{number_same, unsigned_parses};
ghost use Rattle.slotted_nodes.specs.Texts.{number_form, reads_unsigned};
ghost use Rattle.slotted_nodes.specs.Written.{read_text};

use crate::children::LanguageChildren;
use crate::payload::texts::{Payload, read, write};
use slotted_slots::{AppliedId, Error, Slot, SyntaxElem};
use std::alloc::Global;

impl Payload for u8 {
    ghost written = { decimal };

    ghost reads = { reads_unsigned 8 };

    ghost prints = { λ _. refl };

    ghost parses = { λ bs r _ h. unsigned_parses 8 bs r h.0 };
}

impl LanguageChildren for u8 {
    ghost form = { number_form };

    ghost shown = { λ p. text (decimal p) ∷ [] };

    ghost read = { λ es. option_map number_form (read_text (reads_unsigned 8) es) };

    ghost fits = { λ _. refl };

    ghost few = { λ _. lit< tt };

    ghost same = { number_same };

    ghost faithful = { text_faithful (λ n. n ∷ []) (reads_unsigned 8) };

    fn copy(&self, alloc: Global) -> Result<Self, Error> {
        Ok(*self)
    }

    fn slot_count(&self) -> usize {
        0
    }

    fn slot(&self, i: usize) -> Slot
        ensures { result ≡ 0 }
    {
        Slot::numeric_at(0)
    }

    fn set_slot(&mut self, i: usize, s: Slot)
        ensures { self.new ≡ self.old }
    {}

    fn scope_end(&self, i: usize) -> Option<usize>
        ensures { result ≡ None }
    {
        None
    }

    fn applied_id_count(&self) -> usize {
        0
    }

    fn get_applied_id(&self, k: usize) -> Option<&AppliedId> {
        None
    }

    fn applied_id_place(&self, k: usize) -> usize
        ensures { result ≡ 0 }
    {
        0
    }

    fn set_applied_id(&mut self, k: usize, a: AppliedId)
        ensures { self.new ≡ self.old }
    {}

    fn to_syntax(&self, alloc: Global) -> Result<Vec<SyntaxElem>, Error> {
        write(alloc, *self)
    }

    fn from_syntax(alloc: Global, elements: &[SyntaxElem]) -> Result<Option<Self>, Error> {
        Ok(read(elements))
    }
}

impl Payload for u16 {
    ghost written = { decimal };

    ghost reads = { reads_unsigned 16 };

    ghost prints = { λ _. refl };

    ghost parses = { λ bs r _ h. unsigned_parses 16 bs r h.0 };
}

impl LanguageChildren for u16 {
    ghost form = { number_form };

    ghost shown = { λ p. text (decimal p) ∷ [] };

    ghost read = { λ es. option_map number_form (read_text (reads_unsigned 16) es) };

    ghost fits = { λ _. refl };

    ghost few = { λ _. lit< tt };

    ghost same = { number_same };

    ghost faithful = { text_faithful (λ n. n ∷ []) (reads_unsigned 16) };

    fn copy(&self, alloc: Global) -> Result<Self, Error> {
        Ok(*self)
    }

    fn slot_count(&self) -> usize {
        0
    }

    fn slot(&self, i: usize) -> Slot
        ensures { result ≡ 0 }
    {
        Slot::numeric_at(0)
    }

    fn set_slot(&mut self, i: usize, s: Slot)
        ensures { self.new ≡ self.old }
    {}

    fn scope_end(&self, i: usize) -> Option<usize>
        ensures { result ≡ None }
    {
        None
    }

    fn applied_id_count(&self) -> usize {
        0
    }

    fn get_applied_id(&self, k: usize) -> Option<&AppliedId> {
        None
    }

    fn applied_id_place(&self, k: usize) -> usize
        ensures { result ≡ 0 }
    {
        0
    }

    fn set_applied_id(&mut self, k: usize, a: AppliedId)
        ensures { self.new ≡ self.old }
    {}

    fn to_syntax(&self, alloc: Global) -> Result<Vec<SyntaxElem>, Error> {
        write(alloc, *self)
    }

    fn from_syntax(alloc: Global, elements: &[SyntaxElem]) -> Result<Option<Self>, Error> {
        Ok(read(elements))
    }
}

impl Payload for u32 {
    ghost written = { decimal };

    ghost reads = { reads_u32 };

    ghost prints = { λ _. refl };

    ghost parses = { λ bs r _ h. reads_u32-parses bs r h.0 };
}

impl LanguageChildren for u32 {
    ghost form = { number_form };

    ghost shown = { λ p. text (decimal p) ∷ [] };

    ghost read = { λ es. option_map number_form (read_text reads_u32 es) };

    ghost fits = { λ _. refl };

    ghost few = { λ _. lit< tt };

    ghost same = { number_same };

    ghost faithful = { text_faithful (λ n. n ∷ []) reads_u32 };

    fn copy(&self, alloc: Global) -> Result<Self, Error> {
        Ok(*self)
    }

    fn slot_count(&self) -> usize {
        0
    }

    fn slot(&self, i: usize) -> Slot
        ensures { result ≡ 0 }
    {
        Slot::numeric_at(0)
    }

    fn set_slot(&mut self, i: usize, s: Slot)
        ensures { self.new ≡ self.old }
    {}

    fn scope_end(&self, i: usize) -> Option<usize>
        ensures { result ≡ None }
    {
        None
    }

    fn applied_id_count(&self) -> usize {
        0
    }

    fn get_applied_id(&self, k: usize) -> Option<&AppliedId> {
        None
    }

    fn applied_id_place(&self, k: usize) -> usize
        ensures { result ≡ 0 }
    {
        0
    }

    fn set_applied_id(&mut self, k: usize, a: AppliedId)
        ensures { self.new ≡ self.old }
    {}

    fn to_syntax(&self, alloc: Global) -> Result<Vec<SyntaxElem>, Error> {
        write(alloc, *self)
    }

    fn from_syntax(alloc: Global, elements: &[SyntaxElem]) -> Result<Option<Self>, Error> {
        Ok(read(elements))
    }
}

impl Payload for u64 {
    ghost written = { decimal };

    ghost reads = { reads_unsigned 64 };

    ghost prints = { λ _. refl };

    ghost parses = { λ bs r _ h. unsigned_parses 64 bs r h.0 };
}

impl LanguageChildren for u64 {
    ghost form = { number_form };

    ghost shown = { λ p. text (decimal p) ∷ [] };

    ghost read = { λ es. option_map number_form (read_text (reads_unsigned 64) es) };

    ghost fits = { λ _. refl };

    ghost few = { λ _. lit< tt };

    ghost same = { number_same };

    ghost faithful = { text_faithful (λ n. n ∷ []) (reads_unsigned 64) };

    fn copy(&self, alloc: Global) -> Result<Self, Error> {
        Ok(*self)
    }

    fn slot_count(&self) -> usize {
        0
    }

    fn slot(&self, i: usize) -> Slot
        ensures { result ≡ 0 }
    {
        Slot::numeric_at(0)
    }

    fn set_slot(&mut self, i: usize, s: Slot)
        ensures { self.new ≡ self.old }
    {}

    fn scope_end(&self, i: usize) -> Option<usize>
        ensures { result ≡ None }
    {
        None
    }

    fn applied_id_count(&self) -> usize {
        0
    }

    fn get_applied_id(&self, k: usize) -> Option<&AppliedId> {
        None
    }

    fn applied_id_place(&self, k: usize) -> usize
        ensures { result ≡ 0 }
    {
        0
    }

    fn set_applied_id(&mut self, k: usize, a: AppliedId)
        ensures { self.new ≡ self.old }
    {}

    fn to_syntax(&self, alloc: Global) -> Result<Vec<SyntaxElem>, Error> {
        write(alloc, *self)
    }

    fn from_syntax(alloc: Global, elements: &[SyntaxElem]) -> Result<Option<Self>, Error> {
        Ok(read(elements))
    }
}

impl Payload for u128 {
    ghost written = { decimal };

    ghost reads = { reads_unsigned 128 };

    ghost prints = { λ _. refl };

    ghost parses = { λ bs r _ h. unsigned_parses 128 bs r h.0 };
}

impl LanguageChildren for u128 {
    ghost form = { number_form };

    ghost shown = { λ p. text (decimal p) ∷ [] };

    ghost read = { λ es. option_map number_form (read_text (reads_unsigned 128) es) };

    ghost fits = { λ _. refl };

    ghost few = { λ _. lit< tt };

    ghost same = { number_same };

    ghost faithful = { text_faithful (λ n. n ∷ []) (reads_unsigned 128) };

    fn copy(&self, alloc: Global) -> Result<Self, Error> {
        Ok(*self)
    }

    fn slot_count(&self) -> usize {
        0
    }

    fn slot(&self, i: usize) -> Slot
        ensures { result ≡ 0 }
    {
        Slot::numeric_at(0)
    }

    fn set_slot(&mut self, i: usize, s: Slot)
        ensures { self.new ≡ self.old }
    {}

    fn scope_end(&self, i: usize) -> Option<usize>
        ensures { result ≡ None }
    {
        None
    }

    fn applied_id_count(&self) -> usize {
        0
    }

    fn get_applied_id(&self, k: usize) -> Option<&AppliedId> {
        None
    }

    fn applied_id_place(&self, k: usize) -> usize
        ensures { result ≡ 0 }
    {
        0
    }

    fn set_applied_id(&mut self, k: usize, a: AppliedId)
        ensures { self.new ≡ self.old }
    {}

    fn to_syntax(&self, alloc: Global) -> Result<Vec<SyntaxElem>, Error> {
        write(alloc, *self)
    }

    fn from_syntax(alloc: Global, elements: &[SyntaxElem]) -> Result<Option<Self>, Error> {
        Ok(read(elements))
    }
}

impl Payload for usize {
    ghost written = { decimal };

    ghost reads = { reads_unsigned 64 };

    ghost prints = { λ _. refl };

    ghost parses = { λ bs r _ h. unsigned_parses 64 bs r h.0 };
}

impl LanguageChildren for usize {
    ghost form = { number_form };

    ghost shown = { λ p. text (decimal p) ∷ [] };

    ghost read = { λ es. option_map number_form (read_text (reads_unsigned 64) es) };

    ghost fits = { λ _. refl };

    ghost few = { λ _. lit< tt };

    ghost same = { number_same };

    ghost faithful = { text_faithful (λ n. n ∷ []) (reads_unsigned 64) };

    fn copy(&self, alloc: Global) -> Result<Self, Error> {
        Ok(*self)
    }

    fn slot_count(&self) -> usize {
        0
    }

    fn slot(&self, i: usize) -> Slot
        ensures { result ≡ 0 }
    {
        Slot::numeric_at(0)
    }

    fn set_slot(&mut self, i: usize, s: Slot)
        ensures { self.new ≡ self.old }
    {}

    fn scope_end(&self, i: usize) -> Option<usize>
        ensures { result ≡ None }
    {
        None
    }

    fn applied_id_count(&self) -> usize {
        0
    }

    fn get_applied_id(&self, k: usize) -> Option<&AppliedId> {
        None
    }

    fn applied_id_place(&self, k: usize) -> usize
        ensures { result ≡ 0 }
    {
        0
    }

    fn set_applied_id(&mut self, k: usize, a: AppliedId)
        ensures { self.new ≡ self.old }
    {}

    fn to_syntax(&self, alloc: Global) -> Result<Vec<SyntaxElem>, Error> {
        write(alloc, *self)
    }

    fn from_syntax(alloc: Global, elements: &[SyntaxElem]) -> Result<Option<Self>, Error> {
        Ok(read(elements))
    }
}
