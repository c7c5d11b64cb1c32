//! Terms and the patterns that are terms.
ghost use Rattle.std.specs.Prelude.{◌≡◌, Some, IfOk, IfErr};
ghost use Rattle.slotted_patterns.specs.View.{tree_of};
ghost use Rattle.slotted_slots.specs.Error.{IsOutOfMemory};
ghost use Rattle.slotted_terms.specs.AsTerm.{as_term, IsRefusal};
ghost use Rattle.slotted_terms.specs.TermPattern.{IsPatternOf};
ghost use Rattle.slotted_terms.specs.Valid.{IsWhole};

use crate::expr::RecExpr;
use crate::flat::{assemble, assemble_term, flatten, take_apart};
use slotted_languages::language::Language;
use slotted_patterns::Pattern;
use slotted_slots::Error;
use std::alloc::Global;

/// Returns the term that a pattern is.
///
/// The error is `NotATerm` if a variable or a substitution stands in the pattern, or a node has a wrong number of
/// child patterns.
pub fn pattern_to_re<L: Language>(alloc: Global, pattern: &Pattern<L>) -> Result<RecExpr<L>, Error>
    ensures ok { IfOk result (λ t. as_term (tree_of L.form pattern.now) ≡ Some t) }
    ensures none { IfErr result (IsRefusal (as_term (tree_of L.form pattern.now))) }
{
    let copy = pattern.copy(alloc)?;
    into_term(alloc, copy)
}

// Returns the term that a pattern is, made of the pattern's own nodes.
pub(crate) fn into_term<L: Language>(
    alloc: Global,
    pattern: Pattern<L>,
) -> Result<RecExpr<L>, Error>
    ensures ok { IfOk result (λ t. as_term (tree_of L.form pattern) ≡ Some t) }
    ensures none { IfErr result (IsRefusal (as_term (tree_of L.form pattern))) }
{
    let nodes = take_apart(alloc, pattern)?;
    let term = assemble_term(alloc, nodes)?;
    Ok(term)
}

/// Returns the pattern of a term's nodes, with as many child patterns as the nodes have children.
///
/// `pattern_to_re` makes the term of it again if each node of the term has the right number of children.
pub fn re_to_pattern<L: Language>(alloc: Global, term: &RecExpr<L>) -> Result<Pattern<L>, Error>
    ensures ok { IfOk result (λ p. IsPatternOf (tree_of L.form p) term.now) }
    ensures back { IfOk result (λ p. IsWhole term.now.args → as_term (tree_of L.form p) ≡ Some term.now) }
    ensures err { IfErr result IsOutOfMemory }
{
    let nodes = flatten(alloc, term)?;
    let pattern = assemble(alloc, nodes)?;
    Ok(pattern)
}
