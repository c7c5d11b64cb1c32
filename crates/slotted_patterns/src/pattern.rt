//! Terms with variables and substitutions in them.
ghost use Rattle.std.specs.Prelude.{◌≡◌, ◌≤◌, ◌++◌, length, map, string_bytes, IfOk, IfErr, IfSome, IfNone, OnOk, MatchResult};
ghost use Rattle.slotted_slots.specs.Error.{IsOutOfMemory};
ghost use Rattle.slotted_patterns.specs.Shape.{head, heads, parts_of, shape};
ghost use Rattle.slotted_patterns.specs.Subpatterns.{before_parts, parts, subpatterns, EndsInParts, IsNode, IsSubstitution};
ghost use Rattle.slotted_patterns.specs.Tree.{enode, row_of};
ghost use Rattle.slotted_patterns.specs.View.{tree_of};

use slotted_languages::language::Language;
use slotted_slots::Error;
use std::alloc::{AllocError, Global};

mod comparing;
mod debugging;
pub mod printing;

/// A pattern: a term with variables and substitutions in it. The child ids inside a node are ignored.
pub enum Pattern<L: Language> {
    /// A node over the patterns that stand in the places of its children.
    ENode(L, Vec<Pattern<L>>),
    /// A variable, by its name without the `?`.
    PVar(String),
    /// `b[x := t]`
    Subst(Box<Pattern<L>>, Box<Pattern<L>>, Box<Pattern<L>>),
}

// The patterns inside are let go in turn, so a deep pattern needs no deep stack.
impl<L: Language> Drop for Pattern<L> {
    fn drop(mut self) {
        let mut left = Vec::new(self.allocator());
        loop {
            match self {
                Pattern::ENode(_, mut children) => {
                    let _ = left.append(&mut children);
                }
                Pattern::PVar(_) => {}
                Pattern::Subst(body, place, value) => {
                    let _ = left.push(Box::into_inner(body));
                    let _ = left.push(Box::into_inner(place));
                    let _ = left.push(Box::into_inner(value));
                }
            }
            match left.pop() {
                Some(next) => self = next,
                None => return,
            }
        }
    }
}

impl<L: Language> Pattern<L> {
    // Returns the allocator of the pattern's memory.
    fn allocator(&self) -> Global {
        match self {
            Pattern::ENode(_, children) => *children.allocator(),
            Pattern::PVar(name) => *name.allocator(),
            Pattern::Subst(body, _, _) => *Box::allocator(body),
        }
    }

    /// Returns the node and the patterns under it, or `None` if the pattern is no node.
    pub fn into_node(self) -> Option<(L, Vec<Pattern<L>>)>
        ensures some { IfSome result (λ r. tree_of L.form self ≡ enode (L.form r.0) (row_of (map (tree_of L.form) r.1.items))) }
        ensures none { IfNone result (¬ (IsNode (tree_of L.form self))) }
    {
        match self {
            Pattern::ENode(node, children) => Some((node, children)),
            Pattern::PVar(_) => None,
            Pattern::Subst(_, _, _) => None,
        }
    }

    /// Returns a pattern that equals this one.
    pub fn copy(&self, alloc: Global) -> Result<Pattern<L>, Error>
        ensures ok { IfOk result (λ c. tree_of L.form c ≡ tree_of L.form self.now) }
        ensures err { IfErr result IsOutOfMemory }
    {
        let mut left = all_inside(alloc, self)?;
        let mut copies = Vec::new(alloc);
        while let Some(next) = left.pop() {
            let copy = copy_over(alloc, next, &mut copies)?;
            copies.push(copy)?;
        }
        match copies.pop() {
            Some(copy) => Ok(copy),
            None => unreachable!(),
        }
    }
}

impl<L: Language> Clone for Pattern<L> {
    ghost is_clone = { λ p c. tree_of L.form c ≡ tree_of L.form p };

    fn clone(&self) -> Result<Self, AllocError>
        ensures cases { MatchResult result (λ c. tree_of L.form c ≡ tree_of L.form self.now) (λ _. ¬ ⊥) }
    {
        match self.copy(self.allocator()) {
            Ok(copy) => Ok(copy),
            Err(_) => Err(AllocError),
        }
    }
}

// Adds the patterns to those that are left.
fn push_all<'a, L: Language>(
    left: &mut Vec<&'a Pattern<L>>,
    patterns: &'a [Pattern<L>],
) -> Result<(), Error>
    ensures ok { OnOk result (map (λ p. tree_of L.form p.now) left.new.items
        ≡ map (λ p. tree_of L.form p.now) left.old.items ++ map (tree_of L.form) patterns.now) }
    ensures shapes { OnOk result (map (λ p. shape p.now) left.new.items
        ≡ map (λ p. shape p.now) left.old.items ++ map shape patterns.now) }
    ensures err { IfErr result IsOutOfMemory }
{
    for pattern in patterns {
        left.push(pattern)?;
    }
    Ok(())
}

// Adds the parts of the pattern to those that are left.
fn push_parts<'a, L: Language>(
    left: &mut Vec<&'a Pattern<L>>,
    pattern: &'a Pattern<L>,
) -> Result<(), Error>
    ensures ok { OnOk result (map (λ p. tree_of L.form p.now) left.new.items
        ≡ map (λ p. tree_of L.form p.now) left.old.items ++ parts (tree_of L.form pattern.now)) }
    ensures shapes { OnOk result (map (λ p. shape p.now) left.new.items
        ≡ map (λ p. shape p.now) left.old.items ++ parts_of (shape pattern.now)) }
    ensures err { IfErr result IsOutOfMemory }
{
    match pattern {
        Pattern::ENode(_, children) => push_all(left, children),
        Pattern::PVar(_) => Ok(()),
        Pattern::Subst(body, place, value) => {
            left.push(body)?;
            left.push(place)?;
            left.push(value)?;
            Ok(())
        }
    }
}

// Returns the pattern and those inside it, each before its parts.
fn all_inside<'a, L: Language>(
    alloc: Global,
    pattern: &'a Pattern<L>,
) -> Result<Vec<&'a Pattern<L>>, Error>
    ensures ok { IfOk result (λ v. map (λ p. tree_of L.form p.now) v.items ≡ subpatterns (tree_of L.form pattern.now)) }
    ensures heads { IfOk result (λ v. map (λ p. head (shape p.now)) v.items ≡ heads (shape pattern.now)) }
    ensures err { IfErr result IsOutOfMemory }
{
    let mut found = Vec::new(alloc);
    let mut left = Vec::new(alloc);
    left.push(pattern)?;
    while let Some(next) = left.pop() {
        found.push(next)?;
        push_parts(&mut left, next)?;
    }
    Ok(found)
}

// Returns a copy of the pattern over copies of its parts, which are taken from the end of the list.
fn copy_over<L: Language>(
    alloc: Global,
    pattern: &Pattern<L>,
    copies: &mut Vec<Pattern<L>>,
) -> Result<Pattern<L>, Error>
    requires { EndsInParts (tree_of L.form pattern.now) (map (tree_of L.form) copies.old.items) }
    ensures ok { IfOk result (λ c. tree_of L.form c ≡ tree_of L.form pattern.now) }
    ensures rest { OnOk result (map (tree_of L.form) copies.new.items
        ≡ before_parts (tree_of L.form pattern.now) (map (tree_of L.form) copies.old.items)) }
    ensures err { IfErr result IsOutOfMemory }
{
    match pattern {
        Pattern::ENode(node, children) => {
            let node = node.copy(alloc)?;
            let below = copies.split_off(copies.len() - children.len())?;
            Ok(Pattern::ENode(node, below))
        }
        Pattern::PVar(name) => Ok(Pattern::PVar(String::from_str(alloc, name.as_str())?)),
        Pattern::Subst(_, _, _) => copy_substitution(alloc, copies),
    }
}

// Returns a substitution over the last three patterns of the list.
fn copy_substitution<L: Language>(
    alloc: Global,
    copies: &mut Vec<Pattern<L>>,
) -> Result<Pattern<L>, Error>
    requires { 3 ≤ length copies.old.items }
    ensures ok { IfOk result (λ c. map (tree_of L.form) copies.old.items
        ≡ map (tree_of L.form) copies.new.items ++ parts (tree_of L.form c)) }
    ensures whole { IfOk result (λ c. IsSubstitution (tree_of L.form c)) }
    ensures err { IfErr result IsOutOfMemory }
{
    match (copies.pop(), copies.pop(), copies.pop()) {
        (Some(value), Some(place), Some(body)) => {
            let body = Box::new(alloc, body)?;
            let place = Box::new(alloc, place)?;
            let value = Box::new(alloc, value)?;
            Ok(Pattern::Subst(body, place, value))
        }
        _ => unreachable!(),
    }
}
