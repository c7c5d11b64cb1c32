//! Lists of arguments.
ghost use Rattle.std.specs.Prelude.{◌≡◌, ◌<◌, length, flat_map, MatchResult};
ghost use Rattle.std.specs.Cmp.Lexicographic.{pointwise, slice_cmp, slice_partial_cmp, lists_per, lists_equiv, lists_po, lists_total, lists_agrees, lists_ties};
ghost use Rattle.slotted_slots.specs.Hashing.{elements_alike};
ghost use Rattle.slotted_symbols.specs.contracts.argument.ArgumentPartialEq.TheImpl.Laws as per;
ghost use Rattle.slotted_symbols.specs.contracts.argument.ArgumentEq.TheImpl.Laws as equal;
ghost use Rattle.slotted_symbols.specs.contracts.argument.ArgumentPartialOrd.TheImpl.Laws as partial;
ghost use Rattle.slotted_symbols.specs.contracts.argument.ArgumentOrd.TheImpl.Laws as order;
ghost use Rattle.slotted_symbols.specs.contracts.argument.ArgumentHash.TheImpl.Laws as hashed;
ghost use Rattle.slotted_nodes.specs.ReadFrom.{slots_of, applied_count};
ghost use Rattle.slotted_symbols.specs.Arguments.{elements};
ghost use Rattle.slotted_symbols.specs.Places.{HasName, HasOtherChild};

use crate::argument::Argument;
use crate::arguments::{set_child_at, set_name_at};
use slotted_slots::{AppliedId, Slot};
use std::alloc::AllocError;
use std::cmp::Ordering;
use std::hash::{Hash, Hasher};
use std::marker::Model;

/// The arguments of an e-node, seen as their list. Compared and hashed as that list.
#[derive(Drop, Debug)]
pub struct Arguments {
    items: Vec<Argument>,
}

impl Model for Arguments {
    ghost use Rattle.std.specs.Prelude.{List};
    ghost use Rattle.slotted_symbols.specs.declared.argument.Argument.{Argument};

    ghost Value = { List Argument };

    ghost view = { λ a. a.items.items };
}

impl Arguments {
    /// Returns the list of these arguments.
    pub fn from_items(items: Vec<Argument>) -> Arguments
        ensures { result ≡ items.items }
    {
        Arguments { items }
    }

    /// Returns the arguments as a slice.
    pub fn as_slice(&self) -> &[Argument]
        ensures { result.now ≡ self.now }
    {
        self.items.as_slice()
    }

    /// Replaces the name at a place.
    pub(crate) fn set_name(&mut self, i: usize, s: Slot)
        requires { i < length (slots_of (elements self.old)) }
        ensures { HasName (elements self.old) i s (elements self.new) }
    {
        set_name_at(&mut self.items, i, s);
    }

    /// Replaces a child.
    pub(crate) fn set_child(&mut self, k: usize, a: AppliedId)
        requires { k < applied_count (elements self.old) }
        ensures { HasOtherChild (elements self.old) k a (elements self.new) }
    {
        set_child_at(&mut self.items, k, a);
    }
}

impl Clone for Arguments {
    ghost is_clone = { λ a c. c ≡ a };

    fn clone(&self) -> Result<Self, AllocError>
        ensures cases { MatchResult result (λ c. c ≡ self.now) (λ _. ¬ ⊥) }
    {
        Ok(Arguments {
            items: self.items.clone()?,
        })
    }
}

impl PartialEq for Arguments {
    ghost eq = { pointwise ⟦<Argument as PartialEq>⟧.eq };

    ghost laws = { lists_per per.laws-law };

    fn eq(&self, other: &Self) -> bool {
        self.items == other.items
    }
}

impl Eq for Arguments {
    ghost laws = { lists_equiv equal.laws-law };
}

impl PartialOrd for Arguments {
    ghost partial_cmp = { slice_partial_cmp ⟦<Argument as PartialOrd>⟧.partial_cmp };

    ghost laws = { lists_po partial.laws-law };

    fn partial_cmp(&self, other: &Self) -> Option<Ordering> {
        self.items.partial_cmp(&other.items)
    }
}

impl Ord for Arguments {
    ghost cmp = { slice_cmp ⟦<Argument as Ord>⟧.cmp };

    ghost total = { lists_total order.total-law };

    ghost matches_partial_cmp = { lists_agrees order.matches_partial_cmp-law };

    ghost matches_eq = { lists_ties ⟦<Argument as Ord>⟧.cmp order.matches_eq-law };

    fn cmp(&self, other: &Self) -> Ordering {
        self.items.cmp(&other.items)
    }
}

impl Hash for Arguments {
    ghost hash_input = { flat_map ⟦<Argument as Hash>⟧.hash_input };

    ghost respects_eq = { elements_alike ⟦<Argument as Hash>⟧.hash_input hashed.respects_eq-law };

    fn hash<H: Hasher>(&self, state: &mut H) {
        Hash::hash_slice(self.items.as_slice(), state);
    }
}
