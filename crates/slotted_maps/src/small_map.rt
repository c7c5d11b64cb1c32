//! Maps that keep up to eight entries inline.
ghost use Rattle.std.specs.Prelude.{◌≡◌, ◌<◌, [], ◌∷◌, ◌↔◌, length, slice_set, slice_index_or, is_some, IsTrue, IsSome, OnOk, OnErr, IfOk, IfErr, IsOk, MatchOption};
ghost use Rattle.std.specs.Iterator.{item_count};
ghost use Rattle.std.specs.List.Sorted.{IsStrictlySortedBy};
ghost use Rattle.std.specs.Option.{option_copied};
ghost use Rattle.slotted_slots.specs.Error.{IsOutOfMemory};
ghost use Rattle.slotted_slots.specs.Sets.{IsPlaceOf, IsGap};
ghost use Rattle.slotted_maps.specs.SmallMaps.{keys_of, insert_entry, entry_value, without_entry};

use slotted_slots::Error;
use smallvec::SmallVec;
use std::alloc::Global;
use std::default::MadeWith;
use std::marker::Model;
use std::mem;

/// A finite map, seen as the list of its entries in ascending order of their keys. No two keys compare equal.
#[derive(Debug, Drop)]
pub struct SmallHashMap<K: Ord, V> {
    keys: SmallVec<K, 8>,
    values: SmallVec<V, 8>,
}

impl<K: Ord, V> Model for SmallHashMap<K, V> {
    ghost use Rattle.std.specs.Prelude.{List};
    ghost use Rattle.slotted_maps.specs.SmallMaps.{zip, AreEntries};

    ghost Value = { List (K × V) };

    ghost view = { λ m. zip m.keys.items m.values.items };

    ghost invariant = { λ m. AreEntries K.cmp m.keys.items m.values.items };
}

impl<K: Ord, V> SmallHashMap<K, V> {
    /// Returns the number of entries.
    pub fn len(&self) -> usize
        ensures len { result ≡ length self.now }
        ensures ascending { IsStrictlySortedBy K.cmp (keys_of self.now) }
    {
        let _ = &self.values;
        self.keys.len()
    }

    /// Returns whether the map has no entries.
    pub fn is_empty(&self) -> bool
        ensures { IsTrue result ↔ (self.now ≡ []) }
    {
        let _ = &self.values;
        self.keys.is_empty()
    }

    /// Returns the value at the key that compares equal to `k`.
    pub fn get(&self, k: &K) -> Option<&V>
        ensures { option_copied result ≡ entry_value K.cmp self.now k.now }
    {
        match search(self.keys.as_slice(), k) {
            Ok(at) => Some(&self.values[at]),
            Err(_) => None,
        }
    }

    /// Returns whether a key compares equal to `k`.
    pub fn contains_key(&self, k: &K) -> bool
        ensures { result ≡ is_some (entry_value K.cmp self.now k.now) }
    {
        self.get(k).is_some()
    }

    /// Returns an iterator over the entries, in ascending order of their keys.
    pub fn iter(&self) -> Iter<'_, K, V>
        ensures entries { result ≡ self.now }
        ensures ascending { IsStrictlySortedBy K.cmp (keys_of self.now) }
    {
        Iter {
            keys: self.keys.as_slice(),
            values: self.values.as_slice(),
        }
    }
}

impl<K: Ord + MadeWith<Global> + Drop, V: MadeWith<Global> + Drop> SmallHashMap<K, V> {
    /// Returns the map without entries. Takes no memory.
    pub fn new(alloc: Global) -> SmallHashMap<K, V>
        ensures { result ≡ [] }
    {
        SmallHashMap {
            keys: SmallVec::new(alloc),
            values: SmallVec::new(alloc),
        }
    }

    /// Puts `v` at the key `k`, and returns the value that was there.
    ///
    /// A key that compares equal to `k` stays, and then the call takes no memory.
    pub fn insert(&mut self, k: K, v: V) -> Result<Option<V>, Error>
        ensures ok { OnOk result (self.new ≡ insert_entry K.cmp self.old k v) }
        ensures before { IfOk result (λ before. before ≡ entry_value K.cmp self.old k) }
        ensures err { OnErr result (self.new ≡ self.old) }
        ensures memory { IfErr result IsOutOfMemory }
        ensures overwrites { IsSome (entry_value K.cmp self.old k) → IsOk result }
    {
        match search(self.keys.as_slice(), &k) {
            Ok(at) => Ok(Some(replace_value(&mut self.values, at, v))),
            Err(at) => {
                self.keys.reserve(1)?;
                self.values.insert(at, v)?;
                self.keys.insert(at, k)?;
                Ok(None)
            }
        }
    }

    /// Removes the entry of the key that compares equal to `k`, and returns its value. Takes no memory.
    pub fn remove(&mut self, k: &K) -> Option<V>
        ensures map { self.new ≡ without_entry K.cmp self.old k.now }
        ensures value { result ≡ entry_value K.cmp self.old k.now }
    {
        match search(self.keys.as_slice(), k) {
            Ok(at) => {
                self.keys.remove(at);
                Some(self.values.remove(at))
            }
            Err(_) => None,
        }
    }
}

// Replaces the value at a position, and returns the value that was there.
fn replace_value<V>(values: &mut SmallVec<V, 8>, at: usize, v: V) -> V
    requires { at < length values.old.items }
    ensures items { values.new.items ≡ slice_set values.old.items at v }
    ensures before { result ≡ slice_index_or values.old.items at result }
{
    mem::replace(&mut values[at], v)
}

// Returns the position of the key that compares equal to `k`, or the position where `k` would go.
fn search<K: Ord>(keys: &[K], k: &K) -> Result<usize, usize>
    requires { IsStrictlySortedBy K.cmp keys.now }
    ensures found { IfOk result (IsPlaceOf K.cmp keys.now k.now) }
    ensures absent { IfErr result (IsGap K.cmp keys.now k.now) }
{
    keys.binary_search(k)
}

/// An iterator over the entries of a map in ascending order of their keys, seen as the list of those that are left.
#[derive(Drop)]
pub struct Iter<'a, K, V> {
    keys: &'a [K],
    values: &'a [V],
}

impl<'a, K, V> Model for Iter<'a, K, V> {
    ghost use Rattle.std.specs.Prelude.{List, length, ◌≡◌};
    ghost use Rattle.std.specs.List.{zip};

    ghost Value = { List (K × V) };

    ghost view = { λ it. zip it.keys.now it.values.now };

    ghost invariant = { λ it. length it.keys.now ≡ length it.values.now };
}

impl<'a, K, V> Iterator for Iter<'a, K, V> {
    type Item = (&'a K, &'a V);

    ghost next_gives = { λ s r t. MatchOption r ((s ≡ []) × (t ≡ [])) (λ e. s ≡ (e.0.now, e.1.now) ∷ t) };

    ghost remaining = { item_count (λ rest. rest) };

    fn next(&mut self) -> Option<(&'a K, &'a V)> {
        let (key, keys) = self.keys.split_first()?;
        let (value, values) = self.values.split_first()?;
        self.keys = keys;
        self.values = values;
        Some((key, value))
    }
}
