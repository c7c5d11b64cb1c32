//! Tests of patterns before anything is matched or built.
ghost use Rattle.std.specs.Prelude.{◌≡◌, ◌↔◌, ℕ, List, Bool, IsSome, IsTrue, option_map};
ghost use Rattle.slotted_patterns.specs.View.{tree_of};
ghost use Rattle.slotted_rule_patterns.specs.Inside.{is_miscounted, is_named, is_outside, is_substitution, name_in};
ghost use Rattle.slotted_rule_patterns.specs.PatternCode.{pattern_in};
ghost use Rattle.slotted_rule_patterns.specs.Values.{values_of};
ghost use Rattle.slotted_rule_patterns.specs.Variables.{has_substitution, has_value, has_variable};
ghost use Rattle.slotted_rule_patterns.specs.Variables.{first_outside, first_missing, first_lacking};

use crate::inside::{Question, first_such};
use crate::subst::{Subst, value};
use slotted_languages::language::Language;
use slotted_patterns::Pattern;

// The question whether a pattern is a node with more or fewer child patterns than children.
#[derive(Drop)]
struct Miscounted {}

impl Question for Miscounted {
    ghost holds = { λ _. is_miscounted };

    fn holds<L: Language>(&self, pattern: &Pattern<L>) -> bool {
        match pattern {
            Pattern::ENode(node, children) => children.len() != node.applied_id_count(),
            Pattern::PVar(_) => false,
            Pattern::Subst(_, _, _) => false,
        }
    }
}

/// Returns whether each node has as many child patterns as children.
pub fn is_whole<L: Language>(pattern: &Pattern<L>) -> bool
    ensures { IsTrue result ↔ IsSome (pattern_in (tree_of L.form pattern.now)) }
{
    first_such(pattern, &Miscounted {}).is_none()
}

// The question whether a pattern is a substitution.
#[derive(Drop)]
struct Substitutes {}

impl Question for Substitutes {
    ghost holds = { λ _. is_substitution };

    fn holds<L: Language>(&self, pattern: &Pattern<L>) -> bool {
        match pattern {
            Pattern::ENode(_, _) => false,
            Pattern::PVar(_) => false,
            Pattern::Subst(_, _, _) => true,
        }
    }
}

/// Returns whether a substitution stands in the pattern.
pub fn has_substitution<L: Language>(pattern: &Pattern<L>) -> bool
    ensures { result ≡ has_substitution (tree_of L.form pattern.now) }
{
    first_such(pattern, &Substitutes {}).is_some()
}

// The question whether a pattern is the variable of this name.
#[derive(Drop)]
struct Named<'a> {
    name: &'a str,
}

impl<'a> Question for Named<'a> {
    ghost holds = { λ q. is_named q.name.now };

    fn holds<L: Language>(&self, pattern: &Pattern<L>) -> bool {
        match pattern {
            Pattern::ENode(_, _) => false,
            Pattern::PVar(variable) => variable.as_str() == self.name,
            Pattern::Subst(_, _, _) => false,
        }
    }
}

/// Returns whether a variable of this name stands in the pattern.
pub fn has_variable<L: Language>(pattern: &Pattern<L>, name: &str) -> bool
    ensures { result ≡ has_variable (tree_of L.form pattern.now) name.now }
{
    first_such(pattern, &Named { name }).is_some()
}

// A value that knows some variables.
trait Known {
    ghost knows: { Self → List ℕ → Bool };

    fn knows(&self, name: &str) -> bool
        ensures { result ≡ knows self.now name.now };
}

// A substitution knows the variables that have a value.
impl Known for Subst {
    ghost knows = { λ s. has_value (values_of s) };

    fn knows(&self, name: &str) -> bool {
        value(self, name).is_some()
    }
}

// A pattern knows the variables that stand in it.
impl<L: Language> Known for Pattern<L> {
    ghost knows = { λ p. has_variable (tree_of L.form p) };

    fn knows(&self, name: &str) -> bool {
        has_variable(self, name)
    }
}

// The question whether a pattern is a variable that is not known.
#[derive(Drop)]
struct Outside<'a, K: Known> {
    known: &'a K,
}

impl<'a, K: Known> Question for Outside<'a, K> {
    ghost holds = { λ q. is_outside (K.knows q.known.now) };

    fn holds<L: Language>(&self, pattern: &Pattern<L>) -> bool {
        match pattern {
            Pattern::ENode(_, _) => false,
            Pattern::PVar(name) => !self.known.knows(name.as_str()),
            Pattern::Subst(_, _, _) => false,
        }
    }
}

// Returns the name of a pattern that is a variable.
fn name_of<L: Language>(pattern: &Pattern<L>) -> Option<&str>
    ensures { option_map (λ v. v.now) result ≡ name_in (tree_of L.form pattern.now) }
{
    match pattern {
        Pattern::ENode(_, _) => None,
        Pattern::PVar(name) => Some(name.as_str()),
        Pattern::Subst(_, _, _) => None,
    }
}

// Returns the first variable, from the left, that is not known.
fn first_outside<'a, L: Language, K: Known>(pattern: &'a Pattern<L>, known: &K) -> Option<&'a str>
    ensures { option_map (λ v. v.now) result ≡ first_outside (K.knows known.now) (tree_of L.form pattern.now) }
{
    match first_such(pattern, &Outside { known }) {
        Some(found) => name_of(found),
        None => None,
    }
}

/// Returns the first variable, from the left, that has no value.
///
/// In `b[x := t]` the variables of `b` come first, then those of `x`, and then those of `t`.
pub fn first_missing<'a, L: Language>(pattern: &'a Pattern<L>, subst: &Subst) -> Option<&'a str>
    ensures { option_map (λ v. v.now) result ≡ first_missing (tree_of L.form pattern.now) (values_of subst.now) }
{
    first_outside(pattern, subst)
}

/// Returns the first variable of `right`, from the left, that does not stand in `left`.
pub fn first_lacking<'a, L: Language>(right: &'a Pattern<L>, left: &Pattern<L>) -> Option<&'a str>
    ensures { option_map (λ v. v.now) result ≡ first_lacking (tree_of L.form right.now) (tree_of L.form left.now) }
{
    first_outside(right, left)
}
