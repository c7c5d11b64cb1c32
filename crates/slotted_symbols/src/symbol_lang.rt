//! The language `SymbolLang`: a word and its arguments.
ghost use Rattle.std.specs.Prelude.{◌<◌, length};
ghost use Rattle.slotted_slots.specs.Table.{slot_limit};

use crate::argument::Argument;
use crate::arguments::{
    child_at, child_count, child_place, name_at, place_count, read_arguments, scope_end,
    write_arguments,
};
use crate::list::Arguments;
use slotted_languages::shape::PLACES;
use slotted_languages::{Language, LanguageChildren, ReadBack, Symbol};
use slotted_slots::{AppliedId, Error, Slot, SyntaxElem};
use slotted_terms::expr::printing::Printable;
use std::alloc::{AllocError, Global};

/// An e-node: a word, and the arguments behind it.
///
/// It is written `(sum n $i t)`, or as the word alone if there are no arguments. Slots in front of a child are bound in
/// that child, and in no other. Slots behind the last child, or without any child, are free.
///
/// So `(lam $x t)` binds `$x` in `t`, `(lam2 $x $y t)` binds both, `(let $x t u)` binds `$x` in `t` alone, and
/// `(var $x)` and `(at t $x)` bind nothing. A free slot cannot stand in front of a child: `(col $r age)` binds `$r`.
///
/// A number is a word too, so `5`, `+5` and `05` are three leaves. An e-node has fewer than 2^30 arguments.
#[derive(Drop, Debug, PartialEq, Eq, PartialOrd, Ord, Hash)]
pub struct SymbolLang {
    word: Symbol,
    arguments: Arguments,
    ghost few: { length arguments < slot_limit },
}

impl SymbolLang {
    ghost use Rattle.std.specs.Prelude.{◌≡◌, ◌≤◌, IfOk, IfErr};
    ghost use Rattle.slotted_slots.specs.declared.error.Error.TheVariants.{OutOfSlots};
    ghost use Rattle.slotted_symbols.specs.SymbolForms.{word_of, arguments_of};

    /// Returns the e-node of a word and arguments, or `OutOfSlots` if they are 2^30 or more.
    pub fn new(word: Symbol, arguments: Vec<Argument>) -> Result<SymbolLang, Error>
        ensures word { IfOk result (λ n. word_of n ≡ word) }
        ensures arguments { IfOk result (λ n. arguments_of n ≡ arguments.items) }
        ensures err { IfErr result (λ e. (e ≡ OutOfSlots) × (slot_limit ≤ length arguments.items)) }
    {
        if arguments.len() >= PLACES {
            return Err(Error::OutOfSlots);
        }
        Ok(SymbolLang {
            word,
            arguments: Arguments::from_items(arguments),
        })
    }

    /// Returns the word.
    pub fn word(&self) -> &str
        ensures { result.now ≡ word_of self.now }
    {
        self.word.as_str()
    }

    /// Returns the arguments.
    pub fn arguments(&self) -> &[Argument]
        ensures { result.now ≡ arguments_of self.now }
    {
        self.arguments.as_slice()
    }
}

impl Clone for SymbolLang {
    ghost use Rattle.std.specs.Prelude.{◌≡◌, MatchResult};

    ghost is_clone = { λ a c. c ≡ a };

    fn clone(&self) -> Result<Self, AllocError>
        ensures cases { MatchResult result (λ c. c ≡ self.now) (λ _. ¬ ⊥) }
    {
        Ok(SymbolLang {
            word: self.word.clone()?,
            arguments: self.arguments.clone()?,
        })
    }
}

impl LanguageChildren for SymbolLang {
    ghost use Rattle.slotted_symbols.specs.SymbolForms.{symbol_form, symbol_shown, symbol_read};
    ghost use Rattle.slotted_symbols.specs.SymbolLaws.{symbol_fits, symbol_few, symbol_same, symbol_faithful};

    ghost form = { symbol_form };

    ghost shown = { symbol_shown };

    ghost read = { symbol_read };

    ghost fits = { symbol_fits };

    ghost few = { symbol_few };

    ghost same = { symbol_same };

    ghost faithful = { symbol_faithful };

    fn copy(&self, alloc: Global) -> Result<Self, Error> {
        Ok(self.clone()?)
    }

    fn slot_count(&self) -> usize {
        place_count(self.arguments.as_slice())
    }

    fn slot(&self, i: usize) -> Slot {
        name_at(self.arguments.as_slice(), i)
    }

    fn set_slot(&mut self, i: usize, s: Slot) {
        self.arguments.set_name(i, s);
    }

    fn scope_end(&self, i: usize) -> Option<usize> {
        scope_end(self.arguments.as_slice(), i)
    }

    fn applied_id_count(&self) -> usize {
        child_count(self.arguments.as_slice())
    }

    fn get_applied_id(&self, k: usize) -> Option<&AppliedId> {
        child_at(self.arguments.as_slice(), k)
    }

    fn applied_id_place(&self, k: usize) -> usize {
        child_place(self.arguments.as_slice(), k)
    }

    fn set_applied_id(&mut self, k: usize, a: AppliedId) {
        self.arguments.set_child(k, a);
    }

    fn to_syntax(&self, alloc: Global) -> Result<Vec<SyntaxElem>, Error> {
        let mut written = Vec::with_capacity(alloc, self.arguments.as_slice().len() + 1)?;
        written.push(SyntaxElem::String(String::from_str(alloc, self.word())?))?;
        write_arguments(alloc, self.arguments.as_slice(), &mut written)?;
        Ok(written)
    }

    fn from_syntax(alloc: Global, elements: &[SyntaxElem]) -> Result<Option<Self>, Error> {
        let [SyntaxElem::String(word), rest @ ..] = elements else {
            return Ok(None);
        };
        match read_arguments(alloc, rest)? {
            Some(arguments) => Ok(Some(SymbolLang {
                word: Symbol::from_text(alloc, word.as_str())?,
                arguments: Arguments::from_items(arguments),
            })),
            None => Ok(None),
        }
    }
}

impl Language for SymbolLang {
    fn operator(&self) -> u32 {
        0
    }
}

impl ReadBack for SymbolLang {
    ghost use Rattle.slotted_symbols.specs.SymbolBack.{symbol_words, symbol_back, symbol_null};

    ghost words = { symbol_words };

    ghost back = { symbol_back };

    ghost null = { symbol_null };
}

impl Printable for SymbolLang {
    ghost use Rattle.slotted_symbols.specs.SymbolWritten.{symbol_written, symbol_written_as};

    ghost written = { symbol_written };

    ghost written_as = { symbol_written_as };
}
