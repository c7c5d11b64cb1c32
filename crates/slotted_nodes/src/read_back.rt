//! Languages whose nodes are read back from what they are written as.
ghost use Rattle.std.specs.Prelude.{◌≡◌, List, [], ◌∷◌, Some, IfSome, option_map, decimal, encode_utf8, refl};
ghost use Rattle.std.proofs.Common.{lit<};
ghost use Rattle.slotted_slots.specs.Syntax.{Element};
ghost use Rattle.slotted_slots.specs.Table.{reads_u32};
ghost use Rattle.slotted_nodes.specs.Form.{bind_form};
ghost use Rattle.slotted_nodes.specs.Identifier.{HasNullIds, HasNullChildren};
ghost use Rattle.slotted_nodes.specs.ReadsBack.{slot_null, child_null, bound_words, bound_back, bind_null, payload_words, payload_reads, payload_null, number_parts, unsigned_words, unsigned_reads, u32_back, signed_words, signed_reads, WritesIdentifiers, ReadsAgain, bool_back, char_back, word_back};
ghost use Rattle.slotted_nodes.specs.TextLaws.{bool_parts};
ghost use Rattle.slotted_nodes.specs.Texts.{reads_unsigned, reads_signed, signed_word, reads_bool, bool_text, bool_word, reads_char};

use crate::children::{Bind, LanguageChildren};
use crate::payload::Symbol;
use slotted_slots::{AppliedId, Slot};

/// A language, or a part of its nodes, that is read back as it was written.
///
/// Let a node be read from elements whose texts are identifier tokens. Then the node is written as such elements
/// again, and these are read as the same node. So a parsed term can be parsed again from what it prints.
///
/// A language is not of this kind if it writes a node as elements that are read as another node, or as none.
pub trait ReadBack: LanguageChildren {
    // Its texts are identifier tokens too.
    ghost words: { WritesIdentifiers Self.form Self.shown Self.read };

    // What is written is read as the same node.
    ghost back: { ReadsAgain Self.form Self.shown Self.read };

    // Its children are null if the applied ids of the elements are.
    ghost null: { (es : List Element) → HasNullIds es → IfSome (Self.read es) HasNullChildren };
}

impl ReadBack for Slot {
    ghost words = { λ _ _ _ _. tt };

    ghost back = { λ _ _ _ _. refl };

    ghost null = { slot_null };
}

impl ReadBack for AppliedId {
    ghost words = { λ _ _ _ _. tt };

    ghost back = { λ _ _ _ _. refl };

    ghost null = { child_null };
}

impl<T: ReadBack> ReadBack for Bind<T> {
    ghost words = { λ es b. bound_words T.read b.slot (T.form b.elem) (T.shown b.elem) (λ ds. T.words ds b.elem) es };

    ghost back = { λ es b. bound_back T.read b.slot (T.form b.elem) (T.shown b.elem) (λ ds. T.back ds b.elem) es };

    ghost null = { bind_null T.read T.null };
}

impl ReadBack for u8 {
    ghost words = { unsigned_words 8 (lit< tt) };

    ghost back = { unsigned_reads 8 (lit< tt) };

    ghost null = { payload_null (λ n. n ∷ []) (reads_unsigned 8) };
}

impl ReadBack for u16 {
    ghost words = { unsigned_words 16 (lit< tt) };

    ghost back = { unsigned_reads 16 (lit< tt) };

    ghost null = { payload_null (λ n. n ∷ []) (reads_unsigned 16) };
}

impl ReadBack for u32 {
    ghost words = { payload_words (λ n. n ∷ []) number_parts reads_u32 decimal u32_back };

    ghost back = { payload_reads (λ n. n ∷ []) number_parts reads_u32 decimal u32_back };

    ghost null = { payload_null (λ n. n ∷ []) reads_u32 };
}

impl ReadBack for u64 {
    ghost words = { unsigned_words 64 (lit< tt) };

    ghost back = { unsigned_reads 64 (lit< tt) };

    ghost null = { payload_null (λ n. n ∷ []) (reads_unsigned 64) };
}

impl ReadBack for u128 {
    ghost words = { unsigned_words 128 (lit< tt) };

    ghost back = { unsigned_reads 128 (lit< tt) };

    ghost null = { payload_null (λ n. n ∷ []) (reads_unsigned 128) };
}

impl ReadBack for usize {
    ghost words = { unsigned_words 64 (lit< tt) };

    ghost back = { unsigned_reads 64 (lit< tt) };

    ghost null = { payload_null (λ n. n ∷ []) (reads_unsigned 64) };
}

impl ReadBack for i8 {
    ghost words = { signed_words 7 (lit< tt) };

    ghost back = { signed_reads 7 (lit< tt) };

    ghost null = { payload_null signed_word (reads_signed 7) };
}

impl ReadBack for i16 {
    ghost words = { signed_words 15 (lit< tt) };

    ghost back = { signed_reads 15 (lit< tt) };

    ghost null = { payload_null signed_word (reads_signed 15) };
}

impl ReadBack for i32 {
    ghost words = { signed_words 31 (lit< tt) };

    ghost back = { signed_reads 31 (lit< tt) };

    ghost null = { payload_null signed_word (reads_signed 31) };
}

impl ReadBack for i64 {
    ghost words = { signed_words 63 (lit< tt) };

    ghost back = { signed_reads 63 (lit< tt) };

    ghost null = { payload_null signed_word (reads_signed 63) };
}

impl ReadBack for i128 {
    ghost words = { signed_words 127 (lit< tt) };

    ghost back = { signed_reads 127 (lit< tt) };

    ghost null = { payload_null signed_word (reads_signed 127) };
}

impl ReadBack for isize {
    ghost words = { signed_words 63 (lit< tt) };

    ghost back = { signed_reads 63 (lit< tt) };

    ghost null = { payload_null signed_word (reads_signed 63) };
}

impl ReadBack for bool {
    ghost words = { payload_words bool_word bool_parts reads_bool bool_text bool_back };

    ghost back = { payload_reads bool_word bool_parts reads_bool bool_text bool_back };

    ghost null = { payload_null bool_word reads_bool };
}

impl ReadBack for char {
    ghost words = { payload_words (λ c. c ∷ []) number_parts reads_char encode_utf8 char_back };

    ghost back = { payload_reads (λ c. c ∷ []) number_parts reads_char encode_utf8 char_back };

    ghost null = { payload_null (λ c. c ∷ []) reads_char };
}

impl ReadBack for Symbol {
    ghost words = { payload_words (λ w. w) (λ _ _ e. e) Some (λ w. w) word_back };

    ghost back = { payload_reads (λ w. w) (λ _ _ e. e) Some (λ w. w) word_back };

    ghost null = { payload_null (λ w. w) Some };
}
