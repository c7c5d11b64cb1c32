//! Terms from their texts.
ghost use Rattle.std.specs.Prelude.{IfOk};
ghost use Rattle.std.specs.Str.{chars};
ghost use Rattle.slotted_slots.specs.Table.{KnowsMore};
ghost use Rattle.slotted_patterns.specs.Outcome.{Answers};
ghost use Rattle.slotted_terms.specs.Parsed.{TextReads, ReadsOneWay, ReadsSomeWay};
ghost use Rattle.slotted_terms.specs.ReadAgain.{ReadsAsNodes};
ghost use Rattle.slotted_terms.specs.Valid.{IsValidTerm};

use crate::expr::RecExpr;
use crate::reader::parse_tokens;
use slotted_languages::language::Language;
use slotted_patterns::tokens::tokenize;
use slotted_slots::{Error, SlotTable};
use std::alloc::Global;

impl<L: Language> RecExpr<L> {
    /// Returns the term that a text writes.
    ///
    /// A term is a word, or a word in round brackets with slots and terms after it, as in `(lam $x (app (var $x)
    /// y))`. The text is read as a pattern. The error is `NotATerm` if that is no term.
    ///
    /// All tokens are read before the grammar is applied. A slot's name is looked up in the table, or kept there,
    /// when its token is read. After an error the table keeps the names that were read before it.
    pub fn parse(alloc: Global, text: &str, table: &mut SlotTable) -> Result<RecExpr<L>, Error>
        ensures answer { Answers (λ t. t) (λ o. TextReads L.read table.old (chars text.now) o table.new) result }
        ensures valid { IfOk result (λ t. IsValidTerm table.new t) }

        // The term was read as a pattern of nodes of the language, so what it prints is read as the same term
        // (`each_term_reads_as_itself`).
        ensures nodes { IfOk result (λ x. ReadsAsNodes L.form L.read table.old (chars text.now) x table.new) }

        ensures more { KnowsMore table.old table.new }
    {
        let tokens = tokenize(alloc, text, table)?;
        parse_tokens(alloc, &tokens)
    }
}

/// Proves that each text is read in one way: the language, the table and the characters determine the outcome and the
/// table after it.
pub fn each_text_reads_in_one_way()
    ensures one { ReadsOneWay }
    ensures some { ReadsSomeWay }
{}
