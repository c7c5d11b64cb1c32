//! The text of a term.
ghost use Rattle.std.specs.Prelude.{◌≡◌, List, Some, string_bytes, IfOk, IfErr};
ghost use Rattle.slotted_theory.specs.Term.{Term};
ghost use Rattle.slotted_slots.specs.Error.{IsOutOfMemory};
ghost use Rattle.slotted_slots.specs.Syntax.{Element};
ghost use Rattle.slotted_languages.specs.Filled.{term_of};
ghost use Rattle.slotted_terms.specs.Shown.{term_text, IsWrittenAs, PrintAs};

use super::RecExpr;
use crate::patterns::re_to_pattern;
use slotted_languages::language::Language;
use slotted_slots::{Error, Show, SlotTable};
use std::alloc::Global;
use std::fmt;

/// A language whose terms print.
///
/// The trait has no calls. An implementation says, to contracts, how a node is written if only its term is known.
pub trait Printable: Language {
    // What the uppermost node of a term is written as; which ids stand for its children is open.
    ghost written: { Term → List Element };

    // This is what the node is written as, over whatever children, with each child once.
    ghost written_as: { (a : Self) (us : List Term) → IsWrittenAs (Self.form a) (Self.shown a) (written (term_of (Self.form a) us)) };
}

impl<L: Printable> RecExpr<L> {
    /// Returns the text of the term. A node that is written as one text stands alone, and every other one in round
    /// brackets.
    pub fn text(&self, alloc: Global, table: &SlotTable) -> Result<String, Error>
        ensures ok { IfOk result (λ s. string_bytes s ≡ term_text L.written table.now self.now) }
        ensures patterns { IfOk result (λ s. PrintAs L.form L.shown table.now self.now (string_bytes s)) }
        ensures err { IfErr result IsOutOfMemory }
    {
        let pattern = re_to_pattern(alloc, self)?;
        let text = pattern.text(alloc, table)?;
        Ok(text)
    }
}

/// Prints `(lam $x (app a (var $x)))`.
///
/// `_` stands for a child that is missing, and one that is too many is not printed. `fmt::Error` if memory is
/// refused.
impl<L: Printable> Show for RecExpr<L> {
    ghost shown = { λ t u. Some (term_text L.written t u) };

    fn write_shown<W: fmt::Write>(
        &self,
        table: &SlotTable,
        f: &mut fmt::Formatter<W>,
    ) -> fmt::Result {
        match self.text(*self.children.allocator(), table) {
            Ok(text) => write!(f, "{text}"),
            Err(_) => Err(fmt::Error),
        }
    }
}
