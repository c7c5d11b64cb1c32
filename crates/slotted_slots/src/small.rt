//! Sets that keep up to eight elements inline.
ghost use Rattle.std.specs.Prelude.{◌≡◌, [], ◌↔◌, not, length, IsTrue, OnOk, OnErr, IfOk, IfErr, IsOk};
ghost use Rattle.std.specs.List.Sorted.{IsStrictlySortedBy};
ghost use Rattle.std.specs.Slice.Iter.{iter_rest};
ghost use Rattle.std.specs.Iterator.Adapters.{IterYieldsInOrder};
ghost use Rattle.slotted_slots.specs.Error.{IsOutOfMemory};
ghost use Rattle.slotted_slots.specs.SetAlgebra.{without};
ghost use Rattle.slotted_slots.specs.Sets.{has, insert_key, IsPlaceOf, IsGap};

mod algebra;

use crate::Error;
use smallvec::SmallVec;
use std::alloc::Global;
use std::default::MadeWith;
use std::marker::Model;
use std::slice;

/// A set, seen as the list of its elements in ascending order. No two of them compare equal.
#[derive(Debug, Drop)]
pub struct SmallHashSet<T: Ord> {
    items: SmallVec<T, 8>,
}

impl<T: Ord> Model for SmallHashSet<T> {
    ghost use Rattle.std.specs.Prelude.{List};
    ghost use Rattle.std.specs.List.Sorted.{IsStrictlySortedBy};

    ghost Value = { List T };

    ghost view = { λ s. s.items.items };

    ghost invariant = { λ s. IsStrictlySortedBy T.cmp s.items.items };
}

impl<T: Ord> SmallHashSet<T> {
    /// Returns the number of elements.
    pub fn len(&self) -> usize
        ensures len { result ≡ length self.now }
        ensures ascending { IsStrictlySortedBy T.cmp self.now }
    {
        self.items.len()
    }

    /// Returns whether the set has no elements.
    pub fn is_empty(&self) -> bool
        ensures { IsTrue result ↔ (self.now ≡ []) }
    {
        self.items.is_empty()
    }

    /// Returns whether an element compares equal to `t`.
    pub fn contains(&self, t: &T) -> bool
        ensures { result ≡ has T.cmp self.now t.now }
    {
        self.search(t).is_ok()
    }

    /// Returns the elements, in ascending order.
    pub fn as_slice(&self) -> &[T]
        ensures elements { result.now ≡ self.now }
        ensures ascending { IsStrictlySortedBy T.cmp self.now }
    {
        self.items.as_slice()
    }

    /// Returns an iterator over the elements, in ascending order.
    pub fn iter(&self) -> slice::Iter<'_, T>
        ensures rest { iter_rest result ≡ self.now }
        ensures runs { IterYieldsInOrder T }
        ensures ascending { IsStrictlySortedBy T.cmp self.now }
    {
        self.as_slice().iter()
    }

    // Returns the position of the element that compares equal to `t`, or the position where `t` would go.
    fn search(&self, t: &T) -> Result<usize, usize>
        ensures found { IfOk result (IsPlaceOf T.cmp self.now t.now) }
        ensures absent { IfErr result (IsGap T.cmp self.now t.now) }
        ensures ascending { IsStrictlySortedBy T.cmp self.now }
    {
        self.as_slice().binary_search(t)
    }
}

impl<T: Ord + MadeWith<Global> + Drop> SmallHashSet<T> {
    /// Returns the set without elements. Takes no memory.
    pub fn new(alloc: Global) -> SmallHashSet<T>
        ensures { result ≡ [] }
    {
        SmallHashSet {
            items: SmallVec::new(alloc),
        }
    }

    /// Adds `t`, and returns whether it was new. Takes memory only if it was new.
    pub fn insert(&mut self, t: T) -> Result<bool, Error>
        ensures ok { OnOk result (self.new ≡ insert_key T.cmp self.old t) }
        ensures added { IfOk result (λ added. added ≡ not (has T.cmp self.old t)) }
        ensures err { OnErr result (self.new ≡ self.old) }
        ensures memory { IfErr result IsOutOfMemory }
        ensures succeeds { IsTrue (has T.cmp self.old t) → IsOk result }
    {
        match self.search(&t) {
            Ok(_) => Ok(false),
            Err(at) => {
                self.items.insert(at, t)?;
                Ok(true)
            }
        }
    }

    /// Removes the element that compares equal to `t`, and returns whether there was one. Takes no memory.
    pub fn remove(&mut self, t: &T) -> bool
        ensures set { self.new ≡ without T.cmp self.old t.now }
        ensures removed { result ≡ has T.cmp self.old t.now }
    {
        match self.search(t) {
            Ok(at) => {
                self.items.remove(at);
                true
            }
            Err(_) => false,
        }
    }
}
