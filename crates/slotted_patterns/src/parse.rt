//! Patterns from their texts.
ghost use Rattle.std.specs.Prelude.{map, IfOk};
ghost use Rattle.slotted_slots.specs.Table.{KnowsMore};
ghost use Rattle.slotted_patterns.specs.Outcome.{Answers};
ghost use Rattle.slotted_patterns.specs.View.{tree_of};
ghost use Rattle.slotted_patterns.specs.Known.{HasKnownNames};
ghost use Rattle.slotted_patterns.specs.LentTokens.{lexeme};
ghost use Rattle.slotted_patterns.specs.Parsed.{TextReadsPattern, TokensRead, ReadsOneWay, ReadsSomeWay};

use crate::grammar::parse_tokens;
use crate::pattern::Pattern;
use crate::tokens::{LentToken, owned_tokens, tokenize};
use slotted_languages::language::Language;
use slotted_slots::{Error, SlotTable};
use std::alloc::Global;

impl<L: Language> Pattern<L> {
    /// Returns the pattern that a text writes.
    ///
    /// A pattern is a variable as `?x`, a word, or a word in round brackets with slots and patterns after it. Any
    /// number of substitutions `[x := t]` may follow, as in `(lam $x (app ?f (var $x)))[(var $x) := ?t]`.
    ///
    /// All tokens are read before the grammar is applied. A slot's name is looked up in the table, or kept there,
    /// when its token is read. After an error the table keeps the names that were read before it.
    pub fn parse(alloc: Global, text: &str, table: &mut SlotTable) -> Result<Pattern<L>, Error>
        ensures answer { Answers (tree_of L.form) (TextReadsPattern L.read table.old text.now table.new) result }
        ensures known { IfOk result (λ p. HasKnownNames table.new (tree_of L.form p)) }
        ensures more { KnowsMore table.old table.new }
    {
        let tokens = tokenize(alloc, text, table)?;
        parse_lent(alloc, &tokens)
    }
}

/// Returns the pattern that tokens write.
pub fn parse_lent<L: Language>(alloc: Global, tokens: &[LentToken<'_>]) -> Result<Pattern<L>, Error>
    ensures { Answers (tree_of L.form) (TokensRead L.read (map lexeme tokens.now)) result }
{
    let tokens = owned_tokens(alloc, tokens)?;
    parse_tokens(alloc, tokens)
}

/// Proves that each text is read in one way: the language, the table and the characters determine the outcome and the
/// table after it.
pub fn each_text_reads_in_one_way()
    ensures one { ReadsOneWay }
    ensures some { ReadsSomeWay }
{}
