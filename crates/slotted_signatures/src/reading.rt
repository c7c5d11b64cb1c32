//! The e-nodes of a pattern in the order in which they are read.
ghost use Rattle.std.specs.Prelude.{◌≡◌, ◌++◌, map, reverse, IfOk, IfErr, OnOk};
ghost use Rattle.slotted_slots.specs.Error.{IsOutOfMemory};
ghost use Rattle.slotted_patterns.specs.Subpatterns.{parts};
ghost use Rattle.slotted_patterns.specs.View.{tree_of};
ghost use Rattle.slotted_signatures.specs.Reading.{nodes_of, own_nodes};

use slotted_languages::Language;
use slotted_patterns::Pattern;
use slotted_slots::Error;
use std::alloc::Global;

// Pushes the patterns on the stack, the first one uppermost.
fn push_all<'a, L: Language>(
    left: &mut Vec<&'a Pattern<L>>,
    patterns: &'a [Pattern<L>],
) -> Result<(), Error>
    ensures ok { OnOk result (map (λ p. tree_of L.form p.now) left.new.items
        ≡ map (λ p. tree_of L.form p.now) left.old.items ++ reverse (map (tree_of L.form) patterns.now)) }
    ensures err { IfErr result IsOutOfMemory }
{
    for pattern in patterns.iter().rev() {
        left.push(pattern)?;
    }
    Ok(())
}

// Pushes the parts of the pattern on the stack, the first one uppermost.
fn push_parts<'a, L: Language>(
    left: &mut Vec<&'a Pattern<L>>,
    pattern: &'a Pattern<L>,
) -> Result<(), Error>
    ensures ok { OnOk result (map (λ p. tree_of L.form p.now) left.new.items
        ≡ map (λ p. tree_of L.form p.now) left.old.items ++ reverse (parts (tree_of L.form pattern.now))) }
    ensures err { IfErr result IsOutOfMemory }
{
    match pattern {
        Pattern::ENode(_, children) => push_all(left, children),
        Pattern::PVar(_) => Ok(()),
        Pattern::Subst(body, place, value) => {
            left.push(value)?;
            left.push(place)?;
            left.push(body)?;
            Ok(())
        }
    }
}

// Adds the pattern's own e-node, if it is one.
fn push_own<'a, L: Language>(found: &mut Vec<&'a L>, pattern: &'a Pattern<L>) -> Result<(), Error>
    ensures ok { OnOk result (map (λ n. L.form n.now) found.new.items
        ≡ map (λ n. L.form n.now) found.old.items ++ own_nodes (tree_of L.form pattern.now)) }
    ensures err { IfErr result IsOutOfMemory }
{
    if let Pattern::ENode(node, _) = pattern {
        found.push(node)?;
    }
    Ok(())
}

/// Returns the e-nodes of a pattern in the order in which they are read: from the left, each before what stands under
/// it. Those of a substitution are its body's, its place's and its value's.
pub fn nodes_in_order<'a, L: Language>(
    alloc: Global,
    pattern: &'a Pattern<L>,
) -> Result<Vec<&'a L>, Error>
    ensures ok { IfOk result (λ v. map (λ n. L.form n.now) v.items ≡ nodes_of (tree_of L.form pattern.now)) }
    ensures err { IfErr result IsOutOfMemory }
{
    let mut found = Vec::new(alloc);
    let mut left = Vec::new(alloc);
    left.push(pattern)?;
    while let Some(next) = left.pop() {
        push_own(&mut found, next)?;
        push_parts(&mut left, next)?;
    }
    Ok(found)
}
