//! The shapes that are filed, and the classes that they are filed for.
ghost use Rattle.std.specs.Prelude.{◌≡◌, ◌^◌, ◌<◌, ◌++◌, ◌∷◌, [], length, None, Some, set, option_map, slice_get};
ghost use Rattle.std.specs.List.{count_by};
ghost use Rattle.std.specs.Prelude.{is_some, swap_remove, IfSome, IfNone, IfOk, IfErr, IsOk, OnOk, OnErr};
ghost use Rattle.slotted_slots.specs.Error.{IsOutOfMemory};
ghost use Rattle.slotted_hashcons.specs.Filed.{FiledRow, filed_of, rows_of, HasKey, IsNewKey, HasKeysOnce};

use indexmap::IndexMap;
use slotted_languages::Language;
use slotted_slots::Error;
use std::alloc::Global;
use std::marker::Model;

/// For each class the shape that is filed for it, if there is one. A shape is filed once, and is found by itself and
/// by its class.
#[derive(Drop)]
pub struct KeyIndex<L: Language> {
    nodes: IndexMap<L, u32>,
    places: Vec<Option<u32>>,
}

impl<L: Language> Model for KeyIndex<L> {
    ghost use Rattle.std.specs.Prelude.{List, Option, map};
    ghost use Rattle.slotted_hashcons.specs.Filed.{Filing, IsIndexed, filed_at, rows_of, filings_code};

    ghost Value = { List (Option Filing) };

    ghost coded = { filings_code };

    ghost view = { λ s. map (filed_at (rows_of L.form s.nodes)) s.places.items };

    ghost invariant = { λ s. IsIndexed (rows_of L.form s.nodes) s.places.items };
}

impl<L: Language> KeyIndex<L> {
    /// Returns the index without classes.
    pub fn new(alloc: Global) -> Self
        ensures { result ≡ [] }
    {
        KeyIndex {
            nodes: IndexMap::new(alloc),
            places: Vec::new(alloc),
        }
    }

    /// Returns the number of classes.
    pub fn class_count(&self) -> usize
        ensures { result ≡ length self.now }
    {
        self.places.len()
    }

    /// Returns the number of filed shapes.
    pub fn len(&self) -> usize
        ensures { result ≡ count_by is_some self.now }
    {
        self.nodes.len()
    }

    /// Adds a class, for which nothing is filed.
    pub fn add_class(&mut self) -> Result<(), Error>
        ensures ok { OnOk result (self.new ≡ self.old ++ None ∷ []) }
        ensures unchanged { OnErr result (self.new ≡ self.old) }
        ensures err { IfErr result IsOutOfMemory }
    {
        self.places.push(None)?;
        Ok(())
    }

    /// Returns the shape that is filed for a class.
    pub fn key(&self, class: usize) -> Option<&L>
        ensures { option_map (λ k. (L.form k.now, [])) result ≡ filed_of self.now class }
    {
        let place = (*self.places.get(class)?)?;
        let (key, _) = self.nodes.get_index(place as usize)?;
        Some(key)
    }

    /// Returns the class for which a shape is filed. No shape is filed for two classes.
    pub fn source_of(&self, key: &L) -> Option<usize>
        ensures some { IfSome result (λ i. HasKey self.now i (L.form key.now)) }
        ensures none { IfNone result (IsNewKey self.now (L.form key.now)) }
        ensures once { HasKeysOnce self.now }
    {
        match self.nodes.get(key) {
            Some(source) => Some(*source as usize),
            None => None,
        }
    }

    /// Files a shape for a class that has none.
    pub fn file(&mut self, class: usize, key: L) -> Result<(), Error>
        requires within { class < length self.old }
        requires free { filed_of self.old class ≡ None }
        requires new_key { IsNewKey self.old (L.form key) }
        ensures ok { OnOk result (self.new ≡ set self.old class (Some (L.form key, []))) }
        ensures unchanged { OnErr result (self.new ≡ self.old) }
        ensures err { IfErr result IsOutOfMemory }
    {
        let place = as_small(self.nodes.len())?;
        let source = as_small(class)?;
        self.nodes.insert(key, source)?;
        self.places[class] = Some(place);
        Ok(())
    }

    /// Removes the shape that is filed for a class. The last shape moves into its place.
    pub fn unfile(&mut self, class: usize)
        requires { class < length self.old }
        ensures { self.new ≡ set self.old class None }
    {
        match self.places[class] {
            Some(place) => {
                remove_at(&mut self.nodes, place as usize);
                self.places[class] = None;
                match source_at(&self.nodes, place as usize) {
                    Some(moved) => self.places[moved] = Some(place),
                    None => {}
                }
            }
            None => {}
        }
    }
}

/// Returns the number of a class or a place as it is kept. `OutOfMemory` if the number is too large for that.
pub(crate) fn as_small(number: usize) -> Result<u32, Error>
    ensures ok { IfOk result (λ n. n ≡ number) }
    ensures small { number < 2 ^ 32 → IsOk result }
    ensures err { IfErr result IsOutOfMemory }
{
    match u32::try_from(number) {
        Ok(small) => Ok(small),
        Err(_) => Err(Error::OutOfMemory),
    }
}

// Removes the shape at a place. The last one moves there.
fn remove_at<L: Language>(nodes: &mut IndexMap<L, u32>, place: usize)
    requires { place < length (rows_of L.form nodes.old) }
    ensures { (d : FiledRow) → rows_of L.form nodes.new ≡ swap_remove (rows_of L.form nodes.old) place d }
{
    nodes.swap_remove_index(place);
}

// Returns the class of the shape at a place, if there is one.
fn source_at<L: Language>(nodes: &IndexMap<L, u32>, place: usize) -> Option<usize>
    ensures { result ≡ option_map (λ r. r.1.0) (slice_get (rows_of L.form nodes.now) place) }
{
    match nodes.get_index(place) {
        Some((_, source)) => Some(*source as usize),
        None => None,
    }
}
