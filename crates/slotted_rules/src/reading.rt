//! What conditions read of a match, and whether the left side of a rule has that.
ghost use Rattle.std.specs.Prelude.{◌≡◌, None, string_bytes, IfOk, IfErr};
ghost use Rattle.slotted_nodes.specs.Form.{IsSmall};
ghost use Rattle.slotted_model.specs.Correspondence.{has_slot};
ghost use Rattle.slotted_patterns.specs.View.{tree_of};
ghost use Rattle.slotted_rule_patterns.specs.Variables.{has_variable};
ghost use Rattle.slotted_rules.specs.Asking.{IsMissing};
ghost use Rattle.slotted_rules.specs.Reading.{first_unread, has_name, stands_in, tree_reads, IsUnreadOf};

use crate::condition::{Always, And, Not, Or, SlotFreeIn};
use crate::condition_tree::CondTree;
use crate::data::DataPasses;
use slotted_languages::Language;
use slotted_languages::shape::PLACES;
use slotted_patterns::Pattern;
use slotted_rule_patterns::inside::{Question, first_such};
use slotted_rule_patterns::pattern::has_variable;
use slotted_slots::{Error, Slot};
use std::alloc::Global;

/// A condition that says which slots and variables it reads of a match.
///
/// A rule is made only if its left side has all of these. So a mistyped slot is refused, and does not make a condition
/// that always holds. A condition that reads other things names none.
pub trait ReadsNames: Drop {
    ghost use Rattle.std.specs.Prelude.{List};
    ghost use Rattle.slotted_rules.specs.Reading.{ReadName};

    // What the condition reads.
    ghost reads: { Self → List ReadName };

    /// Tests that a left side has each slot and each variable that the condition reads.
    ///
    /// The first one that is lacking is refused as `MissingVariable`, with the name of the variable, or with `$` for a
    /// slot.
    fn test_names<L: Language>(&self, alloc: Global, left: &Pattern<L>) -> Result<(), Error>
        ensures ok { IfOk result (λ _. first_unread (tree_of L.form left.now) (reads self.now) ≡ None) }
        ensures err { IfErr result (IsUnreadOf (tree_of L.form left.now) (reads self.now)) };
}

// Returns the error for a name that is lacking.
pub(crate) fn missing(alloc: Global, name: &str) -> Error
    ensures { IsMissing name.now result }
{
    match String::from_str(alloc, name) {
        Ok(name) => Error::MissingVariable(name),
        Err(_) => Error::OutOfMemory,
    }
}

// Returns whether some place of an e-node has a slot.
fn is_at_some_place<L: Language>(node: &L, slot: Slot) -> bool
    requires { IsSmall (L.form node.now) }
    ensures { result ≡ has_slot (L.form node.now).names slot }
{
    for i in 0..node.slot_count() {
        if node.slot(i) == slot {
            return true;
        }
    }
    false
}

// Returns whether an e-node has a slot. An e-node with 2^30 places or more cannot be numbered, and counts as one without
// slots.
fn node_has_slot<L: Language>(node: &L, slot: Slot) -> bool
    ensures { result ≡ has_name slot (L.form node.now) }
{
    node.slot_count() < PLACES && is_at_some_place(node, slot)
}

// The question whether a pattern is an e-node with a slot.
#[derive(Drop)]
struct HasSlot {
    slot: Slot,
}

impl Question for HasSlot {
    ghost use Rattle.slotted_rules.specs.Reading.{is_node_with};

    ghost holds = { λ q. is_node_with q.slot };

    fn holds<L: Language>(&self, pattern: &Pattern<L>) -> bool {
        match pattern {
            Pattern::ENode(node, _) => node_has_slot(node, self.slot),
            Pattern::PVar(_) => false,
            Pattern::Subst(_, _, _) => false,
        }
    }
}

/// Returns whether some e-node of a pattern has a slot, as its own or as a binder.
pub fn has_slot_in<L: Language>(pattern: &Pattern<L>, slot: Slot) -> bool
    ensures { result ≡ stands_in slot (tree_of L.form pattern.now) }
{
    first_such(pattern, &HasSlot { slot }).is_some()
}

impl ReadsNames for Always {
    ghost use Rattle.std.specs.Prelude.{[]};

    ghost reads = { λ _. [] };

    fn test_names<L: Language>(&self, alloc: Global, left: &Pattern<L>) -> Result<(), Error> {
        Ok(())
    }
}

impl ReadsNames for SlotFreeIn {
    ghost use Rattle.std.specs.Prelude.{[], ◌∷◌};
    ghost use Rattle.slotted_rules.specs.Reading.{slot_name, variable_name};

    ghost reads = { λ c. variable_name (string_bytes c.variable) ∷ slot_name c.slot ∷ [] };

    fn test_names<L: Language>(&self, alloc: Global, left: &Pattern<L>) -> Result<(), Error> {
        if !has_variable(left, self.variable.as_str()) {
            return Err(missing(alloc, self.variable.as_str()));
        }
        if !has_slot_in(left, self.slot) {
            return Err(missing(alloc, "$"));
        }
        Ok(())
    }
}

impl<T: Drop> ReadsNames for DataPasses<T> {
    ghost use Rattle.std.specs.Prelude.{[], ◌∷◌};
    ghost use Rattle.slotted_rules.specs.Reading.{variable_name};

    ghost reads = { λ c. variable_name (string_bytes c.variable) ∷ [] };

    fn test_names<L: Language>(&self, alloc: Global, left: &Pattern<L>) -> Result<(), Error> {
        if !has_variable(left, self.variable.as_str()) {
            return Err(missing(alloc, self.variable.as_str()));
        }
        Ok(())
    }
}

impl<X: ReadsNames, Y: ReadsNames> ReadsNames for Or<X, Y> {
    ghost use Rattle.std.specs.Prelude.{◌++◌};

    ghost reads = { λ c. X.reads c.first ++ Y.reads c.second };

    fn test_names<L: Language>(&self, alloc: Global, left: &Pattern<L>) -> Result<(), Error> {
        self.first.test_names(alloc, left)?;
        self.second.test_names(alloc, left)
    }
}

impl<X: ReadsNames, Y: ReadsNames> ReadsNames for And<X, Y> {
    ghost use Rattle.std.specs.Prelude.{◌++◌};

    ghost reads = { λ c. X.reads c.first ++ Y.reads c.second };

    fn test_names<L: Language>(&self, alloc: Global, left: &Pattern<L>) -> Result<(), Error> {
        self.first.test_names(alloc, left)?;
        self.second.test_names(alloc, left)
    }
}

impl<X: ReadsNames> ReadsNames for Not<X> {
    ghost reads = { λ c. X.reads c.condition };

    fn test_names<L: Language>(&self, alloc: Global, left: &Pattern<L>) -> Result<(), Error> {
        self.condition.test_names(alloc, left)
    }
}

impl CondTree {
    // Tests the names of a tree.
    fn test_tree<L: Language>(&self, alloc: Global, left: &Pattern<L>) -> Result<(), Error>
        ensures ok { IfOk result (λ _. first_unread (tree_of L.form left.now) (tree_reads self.now) ≡ None) }
        ensures err { IfErr result (IsUnreadOf (tree_of L.form left.now) (tree_reads self.now)) }
    {
        match self {
            CondTree::Always => Ok(()),
            CondTree::SlotFreeIn(condition) => condition.test_names(alloc, left),
            CondTree::Or(first, second) => {
                first.test_tree(alloc, left)?;
                second.test_tree(alloc, left)
            }
            CondTree::And(first, second) => {
                first.test_tree(alloc, left)?;
                second.test_tree(alloc, left)
            }
            CondTree::Not(condition) => condition.test_tree(alloc, left),
        }
    }
}

impl ReadsNames for CondTree {
    ghost use Rattle.slotted_rules.specs.Reading.{tree_reads};

    ghost reads = { tree_reads };

    fn test_names<L: Language>(&self, alloc: Global, left: &Pattern<L>) -> Result<(), Error> {
        self.test_tree(alloc, left)
    }
}
