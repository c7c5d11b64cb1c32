//! The order of the e-nodes of `SymbolLang`.
ghost use Rattle.std.specs.Prelude.{◌≡◌};
ghost use Rattle.slotted_symbols.specs.SymbolOrder.{symbol_cmp};

use crate::symbol_lang::SymbolLang;

/// Proves how e-nodes are ordered: by the bytes of their words, and e-nodes of one word by their arguments from the
/// left.
///
/// A slot comes before a child. Slots are compared by value, and children by their classes and then by their maps. If
/// all arguments of the shorter list stand in the longer one too, the e-node with fewer arguments comes first.
///
/// Of e-nodes of a class that cost the same, each over cheaper children, extraction takes the least: the one whose word
/// comes first.
pub fn symbols_are_ordered()
    ensures { (a b : SymbolLang) → ⟦<SymbolLang as Ord>⟧.cmp a b ≡ symbol_cmp a b }
{}
