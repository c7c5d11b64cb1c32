//! Slot maps to and from lists, arrays and iterators.
ghost use Rattle.std.specs.Prelude.{◌≡◌, ℕ, length, IfOk, IfErr};
ghost use Rattle.std.specs.Iterator.{YieldsFirst, item_count};
ghost use Rattle.std.specs.Iterator.Runs.{EveryRun, ItemsAre};
ghost use Rattle.std.proofs.Common.{Global};
ghost use Rattle.std.specs.Vec.Iter.{into_iter_items, into_iter_len, into_iter_steps};
ghost use Rattle.slotted_slots.specs.Error.{IsOutOfMemory};
ghost use Rattle.slotted_slots.specs.Iterating.{EachIteratorEnds, IsMapOfItems};
ghost use Rattle.slotted_slots.specs.Maps.{map_of, keys, values};

use super::SlotMap;
use crate::{Error, Slot};
use std::alloc::Global;
use std::marker::Model;

impl SlotMap {
    /// Returns the map of an array of pairs. If two pairs have one key, the later pair counts.
    pub fn from_array<const N: usize>(
        alloc: Global,
        pairs: [(Slot, Slot); N],
    ) -> Result<SlotMap, Error>
        ensures ok { IfOk result (λ m. m ≡ map_of pairs.entry) }
        ensures memory { IfErr result IsOutOfMemory }
    {
        SlotMap::from_pairs(alloc, &pairs)
    }

    /// Returns the map of the pairs that an iterator yields. If two pairs have one key, the later pair counts.
    pub fn from_iterator<U: IntoIterator<Item = (Slot, Slot)>>(
        alloc: Global,
        pairs: U,
    ) -> Result<SlotMap, Error>
        requires { EachIteratorEnds U.into_iter_gives U.IntoIter.can_next U.IntoIter.remaining pairs }
        ensures ok { IfOk result (IsMapOfItems U.into_iter_gives U.IntoIter.next_gives pairs) }
        ensures memory { IfErr result IsOutOfMemory }
    {
        let mut map = SlotMap::new(alloc);
        for pair in pairs {
            map.insert(pair.0, pair.1)?;
        }
        Ok(map)
    }

    /// Returns the list of the keys, in ascending order.
    pub fn keys_vec(&self, alloc: Global) -> Result<Vec<Slot>, Error>
        ensures ok { IfOk result (λ v. v.items ≡ keys self.now) }
        ensures memory { IfErr result IsOutOfMemory }
    {
        let mut keys = Vec::new(alloc);
        for pair in self.pairs.iter() {
            keys.push(pair.0)?;
        }
        Ok(keys)
    }

    /// Returns the list of the values, in the order of their keys.
    pub fn values_vec(&self, alloc: Global) -> Result<Vec<Slot>, Error>
        ensures ok { IfOk result (λ v. v.items ≡ values self.now) }
        ensures memory { IfErr result IsOutOfMemory }
    {
        let mut values = Vec::new(alloc);
        for pair in self.pairs.iter() {
            values.push(pair.1)?;
        }
        Ok(values)
    }

    /// Returns an iterator over the values, in the order of their keys.
    pub fn values_immut(&self) -> ValuesImmut<'_>
        ensures { result ≡ values self.now }
    {
        ValuesImmut {
            pairs: self.pairs.as_slice(),
        }
    }
}

/// An iterator over the values of a map in the order of their keys, seen as the list of those that are left.
#[derive(Debug, Drop)]
pub struct ValuesImmut<'a> {
    pairs: &'a [(Slot, Slot)],
}

impl<'a> Model for ValuesImmut<'a> {
    ghost use Rattle.std.specs.Prelude.{ℕ, List};
    ghost use Rattle.slotted_slots.specs.Maps.{values};

    ghost Value = { List ℕ };

    ghost view = { λ it. values it.pairs.now };
}

impl<'a> Iterator for ValuesImmut<'a> {
    type Item = Slot;

    ghost next_gives = { YieldsFirst (λ rest. rest) };

    ghost remaining = { item_count (λ rest. rest) };

    fn next(&mut self) -> Option<Slot> {
        let (first, rest) = self.pairs.split_first()?;
        self.pairs = rest;
        Some(first.1)
    }
}

/// An iterator that owns the pairs of a map, in key order, seen as the list of those that are left.
pub type IntoIter = std::vec::IntoIter<(Slot, Slot)>;

impl IntoIterator for SlotMap {
    type Item = (Slot, Slot);

    type IntoIter = IntoIter;

    ghost into_iter_gives = { λ m it. (into_iter_items it ≡ m) × (into_iter_len it ≡ length m)
        × EveryRun (into_iter_steps {X = ℕ × ℕ} {Z = Global}) (λ p. ItemsAre p (into_iter_items p.from)) };

    fn into_iter(self) -> IntoIter {
        self.pairs.into_iter()
    }
}
