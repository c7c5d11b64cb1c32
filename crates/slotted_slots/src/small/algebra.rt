//! Subsets, unions, intersections and differences of small sets.
ghost use Rattle.std.specs.Prelude.{◌≡◌, ◌↔◌, IsTrue, IfOk, IfErr};
ghost use Rattle.std.specs.List.Sorted.{IsStrictlySortedBy};
ghost use Rattle.slotted_slots.specs.Error.{IsOutOfMemory};
ghost use Rattle.slotted_slots.specs.SetAlgebra.{IsWithin, AreApart, united, shared, remaining, IsUnion, IsIntersection, IsDifference};

use super::SmallHashSet;
use crate::Error;
use smallvec::SmallVec;
use std::alloc::Global;
use std::default::MadeWith;

impl<T: Ord> SmallHashSet<T> {
    /// Returns whether each element is in the other set too.
    pub fn is_subset(&self, other: &SmallHashSet<T>) -> bool
        ensures { IsTrue result ↔ IsWithin T.cmp self.now other.now }
    {
        for item in self.items.as_slice() {
            if !other.contains(item) {
                return false;
            }
        }
        true
    }

    /// Returns whether each element of the other set is in this set.
    pub fn is_superset(&self, other: &SmallHashSet<T>) -> bool
        ensures { IsTrue result ↔ IsWithin T.cmp other.now self.now }
    {
        other.is_subset(self)
    }

    /// Returns whether the two sets share no element.
    pub fn is_disjoint(&self, other: &SmallHashSet<T>) -> bool
        ensures { IsTrue result ↔ AreApart T.cmp self.now other.now }
    {
        for item in self.items.as_slice() {
            if other.contains(item) {
                return false;
            }
        }
        true
    }
}

impl<T: Ord + Copy + MadeWith<Global> + Drop> SmallHashSet<T> {
    /// Returns the elements of both sets. Of two that compare equal, that of this set remains.
    pub fn union(&self, alloc: Global, other: &SmallHashSet<T>) -> Result<SmallHashSet<T>, Error>
        ensures ok { IfOk result (λ s. s ≡ united T.cmp self.now other.now) }
        ensures members { IfOk result (IsUnion T.cmp self.now other.now) }
        ensures memory { IfErr result IsOutOfMemory }
    {
        let items = SmallVec::from_slice(alloc, self.items.as_slice())?;
        let mut union = SmallHashSet { items };
        for item in other.items.as_slice() {
            union.insert(*item)?;
        }
        Ok(union)
    }

    /// Returns the elements that are in the other set too.
    pub fn intersection(
        &self,
        alloc: Global,
        other: &SmallHashSet<T>,
    ) -> Result<SmallHashSet<T>, Error>
        ensures ok { IfOk result (λ s. s ≡ shared T.cmp self.now other.now) }
        ensures members { IfOk result (IsIntersection T.cmp self.now other.now) }
        ensures memory { IfErr result IsOutOfMemory }
    {
        let mut items = SmallVec::new(alloc);
        for item in self.items.as_slice() {
            let shares = other.contains(item);
            if shares {
                items.push(*item)?;
            }
        }
        Ok(SmallHashSet { items })
    }

    /// Returns the elements that are not in the other set.
    pub fn difference(
        &self,
        alloc: Global,
        other: &SmallHashSet<T>,
    ) -> Result<SmallHashSet<T>, Error>
        ensures ok { IfOk result (λ s. s ≡ remaining T.cmp self.now other.now) }
        ensures members { IfOk result (IsDifference T.cmp self.now other.now) }
        ensures memory { IfErr result IsOutOfMemory }
    {
        let mut items = SmallVec::new(alloc);
        for item in self.items.as_slice() {
            let lacks = !other.contains(item);
            if lacks {
                items.push(*item)?;
            }
        }
        Ok(SmallHashSet { items })
    }
}
