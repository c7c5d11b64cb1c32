//! Payloads: parts of a node with neither places nor children, as numbers and words. Each is written as one text.
//!
//! Each payload has an implementation of its own. One for all of them would hide, from a proof over a concrete
//! language, which implementation a call has.
ghost use Rattle.std.specs.Prelude.{◌≡◌, ◌↔◌, ℕ, List, [], ◌∷◌, Option, Some, None, option_map};
ghost use Rattle.std.specs.Prelude.{decimal, nat_eq, IsTrue, IfOk, IfErr, MatchResult, refl};
ghost use Rattle.std.specs.Cmp.Lexicographic.{pointwise, slice_cmp, lists_per, lists_equiv, lists_total, lists_ties};
ghost use Rattle.std.specs.Cmp.Lexicographic.{texts_po};
ghost use Rattle.std.specs.Cmp.Rules.{comparing};
ghost use Rattle.std.specs.Hash as fed;
ghost use Rattle.std.specs.Ordering.{nat_cmp};
ghost use Rattle.std.proofs.Common.{rules, lit<};
ghost use Rattle.slotted_slots.specs.Error.{IsOutOfMemory};
ghost use Rattle.slotted_slots.specs.Syntax.{text};
ghost use Rattle.slotted_nodes.specs.Form.{plain};
ghost use Rattle.slotted_nodes.specs.Equal.{bytes_told, plain_same};
ghost use Rattle.slotted_nodes.specs.ReadFrom.{text_faithful};
ghost use Rattle.slotted_nodes.specs.TextLaws.{number_same};
ghost use Rattle.slotted_nodes.specs.Texts.{number_form};
ghost use Rattle.slotted_nodes.specs.Written.{read_text};

use crate::children::LanguageChildren;
use arrayvec::ArrayString;
use slotted_slots::{AppliedId, Error, Slot, SyntaxElem};
use std::alloc::{AllocError, Global};
use std::cmp::Ordering;
use std::fmt;
use std::hash::{Hash, Hasher};
use std::marker::Model;

pub mod letter;
pub mod signed;
pub(crate) mod texts;
pub mod truth;
pub mod unsigned;

/// A word, seen as its bytes and ordered by them. A word of up to 22 bytes takes no memory of its own.
#[derive(Drop)]
pub struct Symbol(Text);

// The text of a word, which is kept inline if it is short.
#[derive(Drop)]
enum Text {
    Short(ArrayString<22>),
    Long(String),
}

impl Model for Symbol {
    ghost use Rattle.std.specs.Prelude.{List, ℕ};

    ghost Value = { List ℕ };

    ghost use Rattle.slotted_nodes.specs.Word.{word_bytes};

    ghost view = { λ s. word_bytes s.0 };
}

impl Symbol {
    /// Returns the word with the bytes of a text.
    pub fn from_text(alloc: Global, text: &str) -> Result<Symbol, Error>
        ensures ok { IfOk result (λ w. w ≡ text.now) }
        ensures err { IfErr result IsOutOfMemory }
    {
        match ArrayString::from(text) {
            Ok(short) => Ok(Symbol(Text::Short(short))),
            Err(_) => Ok(Symbol(Text::Long(String::from_str(alloc, text)?))),
        }
    }

    /// Returns the text of the word.
    pub fn as_str(&self) -> &str
        ensures { result.now ≡ self.now }
    {
        match &self.0 {
            Text::Short(short) => short.as_str(),
            Text::Long(long) => long.as_str(),
        }
    }
}

// Prints a struct around the text.
impl fmt::Debug for Symbol {
    fn fmt<W: fmt::Write>(&self, f: &mut fmt::Formatter<W>) -> fmt::Result {
        f.debug_tuple("Symbol").field(&self.as_str()).finish()
    }
}

impl Clone for Symbol {
    ghost is_clone = { λ s c. c ≡ s };

    fn clone(&self) -> Result<Self, AllocError>
        ensures cases { MatchResult result (λ c. c ≡ self.now) (λ _. ¬ ⊥) }
    {
        match &self.0 {
            Text::Short(short) => Ok(Symbol(Text::Short(*short))),
            Text::Long(long) => Ok(Symbol(Text::Long(long.clone()?))),
        }
    }
}

impl PartialEq for Symbol {
    ghost eq = { pointwise nat_eq };

    ghost laws = { lists_per (Prim.search (comparing, rules)) };

    fn eq(&self, other: &Self) -> bool {
        self.as_str() == other.as_str()
    }
}

impl Eq for Symbol {
    ghost laws = { lists_equiv (Prim.search (comparing, rules)) };
}

impl PartialOrd for Symbol {
    ghost partial_cmp = { λ x y. Some (slice_cmp nat_cmp x y) };

    ghost laws = { texts_po };

    fn partial_cmp(&self, other: &Self) -> Option<Ordering> {
        Some(self.cmp(other))
    }
}

impl Ord for Symbol {
    ghost cmp = { slice_cmp nat_cmp };

    ghost total = { lists_total (Prim.search (comparing, rules)) };

    ghost matches_partial_cmp = { λ _ _. refl };

    ghost matches_eq = { lists_ties nat_cmp (Prim.search (comparing, rules)) };

    fn cmp(&self, other: &Self) -> Ordering {
        self.as_str().cmp(other.as_str())
    }
}

impl Hash for Symbol {
    ghost hash_input = { fed.str };

    ghost respects_eq = { Prim.search rules };

    fn hash<H: Hasher>(&self, state: &mut H) {
        self.as_str().hash(state);
    }
}

impl LanguageChildren for Symbol {
    ghost form = { λ w. plain (w ∷ []) };

    ghost shown = { λ w. text w ∷ [] };

    ghost read = { λ es. option_map (λ w. plain (w ∷ [])) (read_text Some es) };

    ghost fits = { λ _. refl };

    ghost few = { λ _. lit< tt };

    ghost same = { λ v w. plain_same (pointwise nat_eq v w) v w (bytes_told v w) };

    ghost faithful = { text_faithful (λ w. w) Some };

    fn copy(&self, alloc: Global) -> Result<Self, Error> {
        Symbol::from_text(alloc, self.as_str())
    }

    fn slot_count(&self) -> usize {
        0
    }

    // A payload has neither places nor children, so calls about one need no condition.
    fn slot(&self, i: usize) -> Slot
        ensures { result ≡ 0 }
    {
        Slot::numeric_at(0)
    }

    fn set_slot(&mut self, i: usize, s: Slot)
        ensures { self.new ≡ self.old }
    {}

    fn scope_end(&self, i: usize) -> Option<usize>
        ensures { result ≡ None }
    {
        None
    }

    fn applied_id_count(&self) -> usize {
        0
    }

    fn get_applied_id(&self, k: usize) -> Option<&AppliedId> {
        None
    }

    fn applied_id_place(&self, k: usize) -> usize
        ensures { result ≡ 0 }
    {
        0
    }

    fn set_applied_id(&mut self, k: usize, a: AppliedId)
        ensures { self.new ≡ self.old }
    {}

    fn to_syntax(&self, alloc: Global) -> Result<Vec<SyntaxElem>, Error> {
        Ok(vec![in alloc; SyntaxElem::String(String::from_str(alloc, self.as_str())?)]?)
    }

    fn from_syntax(alloc: Global, elements: &[SyntaxElem]) -> Result<Option<Self>, Error> {
        match elements {
            [SyntaxElem::String(text)] => Ok(Some(Symbol::from_text(alloc, text.as_str())?)),
            _ => Ok(None),
        }
    }
}
