//! The patterns inside a pattern, which loops go through, and the first of them for which the answer to a question is
//! yes.
ghost use Rattle.std.specs.Prelude.{◌≡◌, ◌++◌, Bool, map, reverse, option_map, IfOk, IfErr, OnOk};
ghost use Rattle.std.specs.List.{find};
ghost use Rattle.slotted_slots.specs.Error.{IsOutOfMemory};
ghost use Rattle.slotted_patterns.specs.Subpatterns.{parts, subpatterns};
ghost use Rattle.slotted_patterns.specs.Tree.{PatternTree};
ghost use Rattle.slotted_patterns.specs.View.{tree_of};
ghost use Rattle.slotted_rule_patterns.specs.Inside.{first_such, own_such};

use slotted_languages::language::Language;
use slotted_patterns::Pattern;
use slotted_slots::Error;
use std::alloc::Global;

/// A question about a pattern. The answer may depend on the pattern's parts, but not on what stands inside these.
pub trait Question {
    ghost holds: { Self → PatternTree → Bool };

    /// Returns whether the answer is yes.
    fn holds<L: Language>(&self, pattern: &Pattern<L>) -> bool
        ensures { result ≡ holds self.now (tree_of L.form pattern.now) };
}

// Adds the patterns to those that are left.
fn push_all<'a, L: Language>(
    left: &mut Vec<&'a Pattern<L>>,
    patterns: &'a [Pattern<L>],
) -> Result<(), Error>
    ensures ok { OnOk result (map (λ p. tree_of L.form p.now) left.new.items
        ≡ map (λ p. tree_of L.form p.now) left.old.items ++ map (tree_of L.form) patterns.now) }
    ensures err { IfErr result IsOutOfMemory }
{
    for pattern in patterns {
        left.push(pattern)?;
    }
    Ok(())
}

// Adds the parts of the pattern to those that are left.
fn push_parts<'a, L: Language>(
    left: &mut Vec<&'a Pattern<L>>,
    pattern: &'a Pattern<L>,
) -> Result<(), Error>
    ensures ok { OnOk result (map (λ p. tree_of L.form p.now) left.new.items
        ≡ map (λ p. tree_of L.form p.now) left.old.items ++ parts (tree_of L.form pattern.now)) }
    ensures err { IfErr result IsOutOfMemory }
{
    match pattern {
        Pattern::ENode(_, children) => push_all(left, children),
        Pattern::PVar(_) => Ok(()),
        Pattern::Subst(body, part, value) => {
            left.push(body)?;
            left.push(part)?;
            left.push(value)?;
            Ok(())
        }
    }
}

/// Returns the pattern and those inside it, each before its parts, which follow from the right.
///
/// If they are taken from the end, the parts of a pattern come before the pattern, from the left.
pub fn subpatterns<'a, L: Language>(
    alloc: Global,
    pattern: &'a Pattern<L>,
) -> Result<Vec<&'a Pattern<L>>, Error>
    ensures ok { IfOk result (λ v. map (λ p. tree_of L.form p.now) v.items ≡ subpatterns (tree_of L.form pattern.now)) }
    ensures err { IfErr result IsOutOfMemory }
{
    let mut found = Vec::new(alloc);
    let mut left = Vec::new(alloc);
    left.push(pattern)?;
    while let Some(next) = left.pop() {
        found.push(next)?;
        push_parts(&mut left, next)?;
    }
    Ok(found)
}

// Returns the last of the patterns for which the answer is yes.
fn last_such<'a, L: Language, Q: Question>(
    mut patterns: Vec<&'a Pattern<L>>,
    question: &Q,
) -> Option<&'a Pattern<L>>
    ensures { option_map (λ p. tree_of L.form p.now) result
        ≡ find (Q.holds question.now) (reverse (map (λ p. tree_of L.form p.now) patterns.entry.items)) }
{
    while let Some(next) = patterns.pop() {
        if question.holds(next) {
            return Some(next);
        }
    }
    None
}

// Returns the pattern itself, if the answer is yes.
fn itself<'a, L: Language, Q: Question>(
    pattern: &'a Pattern<L>,
    question: &Q,
) -> Option<&'a Pattern<L>>
    ensures { option_map (λ p. tree_of L.form p.now) result ≡ own_such (Q.holds question.now) (tree_of L.form pattern.now) }
{
    if question.holds(pattern) {
        return Some(pattern);
    }
    None
}

// Returns the first pattern for which the answer is yes, by calling itself.
fn first_by_calls<'a, L: Language, Q: Question>(
    pattern: &'a Pattern<L>,
    question: &Q,
) -> Option<&'a Pattern<L>>
    ensures { option_map (λ p. tree_of L.form p.now) result ≡ first_such (Q.holds question.now) (tree_of L.form pattern.now) }
{
    match pattern {
        Pattern::ENode(_, children) => {
            for child in children {
                if let Some(found) = first_by_calls(child, question) {
                    return Some(found);
                }
            }
            itself(pattern, question)
        }
        Pattern::PVar(_) => itself(pattern, question),
        Pattern::Subst(body, part, value) => {
            if let Some(found) = first_by_calls(body, question) {
                return Some(found);
            }
            if let Some(found) = first_by_calls(part, question) {
                return Some(found);
            }
            if let Some(found) = first_by_calls(value, question) {
                return Some(found);
            }
            itself(pattern, question)
        }
    }
}

// Returns the allocator of the pattern's memory.
fn allocator<L: Language>(pattern: &Pattern<L>) -> Global {
    match pattern {
        Pattern::ENode(_, children) => *children.allocator(),
        Pattern::PVar(name) => *name.allocator(),
        Pattern::Subst(body, _, _) => *Box::allocator(body),
    }
}

/// Returns the first pattern inside this one, or this one itself, for which the answer is yes. Each pattern comes
/// after its parts, and these from the left.
///
/// The call goes along a list of the patterns, and calls itself only if memory for the list is refused.
pub fn first_such<'a, L: Language, Q: Question>(
    pattern: &'a Pattern<L>,
    question: &Q,
) -> Option<&'a Pattern<L>>
    ensures { option_map (λ p. tree_of L.form p.now) result ≡ first_such (Q.holds question.now) (tree_of L.form pattern.now) }
{
    match subpatterns(allocator(pattern), pattern) {
        Ok(patterns) => last_such(patterns, question),
        Err(_) => first_by_calls(pattern, question),
    }
}
