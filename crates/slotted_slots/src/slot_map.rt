//! Finite maps from slots to slots, in the order of their keys.
ghost use Rattle.std.specs.Prelude.{◌≡◌, ℕ, List, [], ◌<◌, length, Some, OnOk, OnErr, IfOk, IfErr, slice_get, MatchResult, IsSome, IsOk, IsTrue, ◌↔◌, Contains, flat_map, fold, is_some};
ghost use Rattle.std.specs.Iterator.{YieldsFirst, item_count};
ghost use Rattle.std.specs.Ordering.{nat_cmp};
ghost use Rattle.std.specs.Cmp.Lexicographic.{pointwise, slice_cmp, slice_partial_cmp, lists_per, lists_equiv, lists_po, lists_total, lists_agrees, lists_ties};
ghost use Rattle.std.proofs.Common.{rules};
ghost use Rattle.std.specs.Cmp.Rules.{comparing};
ghost use Rattle.slotted_slots.specs.Ascending.{IsAscending};
ghost use Rattle.slotted_slots.specs.Error.{IsOutOfMemory};
ghost use Rattle.slotted_slots.specs.Hashing.{elements_alike, pair_input};
ghost use Rattle.slotted_slots.specs.Maps.{IsAt, IsGapFor, value_of, with_value_at, with_pair, without_key, map_of, turned, doubled, composed, is_among, all_differ, values, keys, IsInverse};
ghost use Rattle.slotted_slots.specs.Sets.{set_of};

mod combining;
mod lists;
mod showing;

use crate::{Error, Slot, SmallHashSet};
pub use lists::{IntoIter, ValuesImmut};
use std::alloc::{AllocError, Global};
use std::cmp::Ordering;
use std::hash::{Hash, Hasher};
use std::marker::Model;

/// A finite map from slots to slots, seen as the list of its pairs in key order.
///
/// Maps are ordered and compared as these lists, and hashed by their pairs.
#[derive(Drop, Debug)]
pub struct SlotMap {
    pairs: Vec<(Slot, Slot)>,
}

impl Model for SlotMap {
    ghost use Rattle.std.specs.Prelude.{ℕ, List};
    ghost use Rattle.slotted_slots.specs.Ascending.{IsAscending};
    ghost use Rattle.slotted_slots.specs.Maps.{keys};

    ghost Value = { List (ℕ × ℕ) };

    ghost view = { λ a. a.pairs.items };

    ghost invariant = { λ a. IsAscending (keys a.pairs.items) };
}

type Pairs = Vec<(Slot, Slot)>;

// Replaces the value of the pair at a position.
fn write_value(pairs: &mut Pairs, i: usize, r: Slot)
    requires { i < length pairs.old.items }
    ensures { pairs.new.items ≡ with_value_at pairs.old.items i r }
{
    pairs[i].1 = r;
}

impl SlotMap {
    /// Returns the map without keys. Takes no memory.
    pub fn new(alloc: Global) -> SlotMap
        ensures { result ≡ [] }
    {
        SlotMap {
            pairs: Vec::new(alloc),
        }
    }

    /// Returns the number of keys.
    pub fn len(&self) -> usize
        ensures len { result ≡ length self.now }
        ensures ascending { IsAscending (keys self.now) }
    {
        self.pairs.len()
    }

    /// Returns whether the map has no keys.
    pub fn is_empty(&self) -> bool
        ensures { IsTrue result ↔ (self.now ≡ []) }
    {
        self.pairs.is_empty()
    }

    /// Returns whether the map has a value for a key.
    pub fn contains_key(&self, k: Slot) -> bool
        ensures { result ≡ is_some (value_of self.now k) }
    {
        self.get(k).is_some()
    }

    /// Returns the value of a key.
    pub fn get(&self, k: Slot) -> Option<Slot>
        ensures { result ≡ value_of self.now k }
    {
        match self.search(k) {
            Ok(at) => Some(self.pairs[at].1),
            Err(_) => None,
        }
    }

    /// Puts the value `r` at the key `l`, in place of a value that the key had. Takes memory only if the key is new.
    pub fn insert(&mut self, l: Slot, r: Slot) -> Result<(), Error>
        ensures ok { OnOk result (self.new ≡ with_pair self.old l r) }
        ensures err { OnErr result (self.new ≡ self.old) }
        ensures memory { IfErr result IsOutOfMemory }
        ensures overwrites { IsSome (value_of self.old l) → IsOk result }
    {
        if self.ends_before(l) {
            self.pairs.push((l, r))?;
            return Ok(());
        }
        self.put(l, r)
    }

    // Puts the value at the key, wherever it stands.
    fn put(&mut self, l: Slot, r: Slot) -> Result<(), Error>
        ensures ok { OnOk result (self.new ≡ with_pair self.old l r) }
        ensures err { OnErr result (self.new ≡ self.old) }
        ensures memory { IfErr result IsOutOfMemory }
        ensures overwrites { IsSome (value_of self.old l) → IsOk result }
    {
        match self.search(l) {
            Ok(at) => write_value(&mut self.pairs, at, r),
            Err(at) => self.pairs.insert(at, (l, r))?,
        }
        Ok(())
    }

    /// Removes a key and its value. Does nothing if the map has no such key.
    pub fn remove(&mut self, k: Slot)
        ensures { self.new ≡ without_key self.old k }
    {
        if let Ok(at) = self.search(k) {
            self.pairs.remove(at);
        }
    }

    /// Returns an iterator over the pairs, in key order.
    pub fn iter(&self) -> Iter<'_>
        ensures pairs { result ≡ self.now }
        ensures ascending { IsAscending (keys self.now) }
    {
        Iter {
            pairs: self.pairs.as_slice(),
        }
    }

    /// Returns the set of the keys.
    pub fn keys(&self, alloc: Global) -> Result<SmallHashSet<Slot>, Error>
        ensures ok { IfOk result (λ s. s ≡ keys self.now) }
        ensures memory { IfErr result IsOutOfMemory }
    {
        let mut set = SmallHashSet::new(alloc);
        for pair in self.pairs.iter() {
            set.insert(pair.0)?;
        }
        Ok(set)
    }

    /// Returns the set of the values.
    pub fn values(&self, alloc: Global) -> Result<SmallHashSet<Slot>, Error>
        ensures ok { IfOk result (λ s. s ≡ set_of nat_cmp (values self.now)) }
        ensures members { IfOk result (λ s. (v : ℕ) → is_among v s ≡ is_among v (values self.now)) }
        ensures memory { IfErr result IsOutOfMemory }
    {
        let mut set = SmallHashSet::new(alloc);
        for pair in self.pairs.iter() {
            set.insert(pair.1)?;
        }
        Ok(set)
    }

    /// Returns whether a slot is one of the values. Takes no memory.
    pub fn has_value(&self, v: Slot) -> bool
        ensures is { result ≡ is_among v (values self.now) }
        ensures contains { IsTrue result ↔ Contains (values self.now) v }
    {
        has_value(self.pairs.as_slice(), v)
    }

    /// Returns whether no value stands twice. Takes no memory.
    pub fn is_bijection(&self) -> bool
        ensures { result ≡ all_differ (values self.now) }
    {
        let pairs = self.pairs.as_slice();
        for (i, pair) in pairs.iter().enumerate() {
            if has_value(&pairs[i + 1..], pair.1) {
                return false;
            }
        }
        true
    }

    /// Returns the map from each value to its key.
    pub fn inverse(&self, alloc: Global) -> Result<SlotMap, Error>
        requires { IsTrue (all_differ (values self.now)) }
        ensures ok { IfOk result (λ n. n ≡ map_of (turned self.now)) }
        ensures sends_back { IfOk result (IsInverse self.now) }
        ensures memory { IfErr result IsOutOfMemory }
    {
        let mut inverse = SlotMap::new(alloc);
        for pair in self.pairs.iter() {
            inverse.insert(pair.1, pair.0)?;
        }
        Ok(inverse)
    }

    /// Returns the map from each slot of a set to itself.
    pub fn identity(alloc: Global, set: &SmallHashSet<Slot>) -> Result<SlotMap, Error>
        ensures ok { IfOk result (λ m. m ≡ doubled set.now) }
        ensures memory { IfErr result IsOutOfMemory }
    {
        let mut pairs = Vec::new(alloc);
        for slot in set.as_slice() {
            pairs.push((*slot, *slot))?;
        }
        Ok(SlotMap { pairs })
    }

    /// Returns the composition: this map first, then the other. Only keys whose value is a key of the other map
    /// remain.
    pub fn compose_partial(&self, alloc: Global, other: &SlotMap) -> Result<SlotMap, Error>
        ensures ok { IfOk result (λ m. m ≡ composed self.now other.now) }
        ensures memory { IfErr result IsOutOfMemory }
    {
        let mut pairs = Vec::new(alloc);
        for pair in self.pairs.iter() {
            if let Some(value) = other.get(pair.1) {
                pairs.push((pair.0, value))?;
            }
        }
        Ok(SlotMap { pairs })
    }

    /// Returns the map of some pairs. If two pairs have one key, the later pair counts.
    pub fn from_pairs(alloc: Global, pairs: &[(Slot, Slot)]) -> Result<SlotMap, Error>
        ensures ok { IfOk result (λ m. m ≡ map_of pairs.now) }
        ensures memory { IfErr result IsOutOfMemory }
    {
        let mut map = SlotMap::new(alloc);
        for pair in pairs {
            map.insert(pair.0, pair.1)?;
        }
        Ok(map)
    }

    /// Returns the value at a position in key order.
    pub fn value_at(&self, i: usize) -> Slot
        requires { i < length self.now }
        ensures { slice_get (values self.now) i ≡ Some result }
    {
        self.pairs[i].1
    }

    /// Replaces the value at a position in key order.
    pub fn set_value_at(&mut self, i: usize, r: Slot)
        requires { i < length self.old }
        ensures { self.new ≡ with_value_at self.old i r }
    {
        write_value(&mut self.pairs, i, r);
    }

    /// Returns a map that equals this one.
    pub fn copy(&self, alloc: Global) -> Result<SlotMap, Error>
        ensures ok { IfOk result (λ c. c ≡ self.now) }
        ensures memory { IfErr result IsOutOfMemory }
    {
        Ok(SlotMap {
            pairs: Vec::from_slice(alloc, self.pairs.as_slice())?,
        })
    }

    // Returns the position of a key, or the position where it would go.
    fn search(&self, k: Slot) -> Result<usize, usize>
        ensures found { IfOk result (IsAt self.now k) }
        ensures absent { IfErr result (IsGapFor self.now k) }
        ensures ascending { IsAscending (keys self.now) }
    {
        if self.ends_before(k) {
            return Err(self.pairs.len());
        }
        self.pairs
            .as_slice()
            .binary_search_by_key(&k, |pair| pair.0)
    }

    // Returns whether each key is below this one. Most maps are made in key order, so most pairs are put in at the
    // end.
    fn ends_before(&self, k: Slot) -> bool
        ensures { IsTrue result → IsGapFor self.now k (length self.now) }
    {
        match self.pairs.last() {
            Some(last) => last.0.raw() < k.raw(),
            None => true,
        }
    }
}

// Returns whether a value stands among the pairs.
fn has_value(pairs: &[(Slot, Slot)], v: Slot) -> bool
    ensures { result ≡ is_among v (values pairs.now) }
{
    for pair in pairs {
        if pair.1 == v {
            return true;
        }
    }
    false
}

/// An iterator over the pairs of a map in key order, seen as the list of those that are left.
#[derive(Debug, Drop)]
pub struct Iter<'a> {
    pairs: &'a [(Slot, Slot)],
}

impl<'a> Model for Iter<'a> {
    ghost use Rattle.std.specs.Prelude.{ℕ, List};

    ghost Value = { List (ℕ × ℕ) };

    ghost view = { λ it. it.pairs.now };
}

impl<'a> Iterator for Iter<'a> {
    type Item = (Slot, Slot);

    ghost next_gives = { YieldsFirst (λ rest. rest) };

    ghost remaining = { item_count (λ rest. rest) };

    fn next(&mut self) -> Option<(Slot, Slot)> {
        let (first, rest) = self.pairs.split_first()?;
        self.pairs = rest;
        Some(*first)
    }
}

impl Clone for SlotMap {
    ghost is_clone = { λ m c. c ≡ m };

    fn clone(&self) -> Result<Self, AllocError>
        ensures cases { MatchResult result (λ c. c ≡ self.now) (λ _. ¬ ⊥) }
    {
        Ok(SlotMap {
            pairs: self.pairs.clone()?,
        })
    }
}

impl PartialEq for SlotMap {
    ghost eq = { pointwise ⟦<(Slot, Slot) as PartialEq>⟧.eq };

    ghost laws = { lists_per (Prim.search (comparing, rules)) };

    fn eq(&self, other: &Self) -> bool {
        self.pairs == other.pairs
    }
}

impl Eq for SlotMap {
    ghost laws = { lists_equiv (Prim.search (comparing, rules)) };
}

impl PartialOrd for SlotMap {
    ghost partial_cmp = { slice_partial_cmp ⟦<(Slot, Slot) as PartialOrd>⟧.partial_cmp };

    ghost laws = { lists_po (Prim.search (comparing, rules)) };

    fn partial_cmp(&self, other: &Self) -> Option<Ordering> {
        self.pairs.partial_cmp(&other.pairs)
    }
}

impl Ord for SlotMap {
    ghost cmp = { slice_cmp ⟦<(Slot, Slot) as Ord>⟧.cmp };

    ghost total = { lists_total (Prim.search (comparing, rules)) };

    ghost matches_partial_cmp = { lists_agrees (Prim.search (comparing, rules)) };

    ghost matches_eq = { lists_ties ⟦<(Slot, Slot) as Ord>⟧.cmp (Prim.search (comparing, rules)) };

    fn cmp(&self, other: &Self) -> Ordering {
        self.pairs.cmp(&other.pairs)
    }
}

// Feeds pairs to a hasher, each as one number.
fn hash_pairs<H: Hasher>(pairs: &[(Slot, Slot)], state: &mut H)
    ensures { state.new ≡ fold H.write state.old (flat_map pair_input pairs.now) }
{
    for pair in pairs {
        state.write_u64(pair.0.raw() as u64 * (1 << 32) + pair.1.raw() as u64);
    }
}

impl Hash for SlotMap {
    // The pairs, and not how many there are: most maps have none or one.
    ghost hash_input = { flat_map pair_input };

    ghost respects_eq = { elements_alike pair_input (Prim.search rules) };

    fn hash<H: Hasher>(&self, state: &mut H) {
        hash_pairs(self.pairs.as_slice(), state);
    }
}
