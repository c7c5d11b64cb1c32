//! The filed e-nodes, by their shapes and by their source classes.
ghost use Rattle.std.specs.Prelude.{◌≡◌, ◌<◌, ◌++◌, ◌∷◌, [], length, None, Some, set, option_map};
ghost use Rattle.std.specs.List.{count_by};
ghost use Rattle.std.specs.Prelude.{is_some, IfSome, IfNone, IfErr, OnOk, OnErr};
ghost use Rattle.slotted_slots.specs.Error.{IsOutOfMemory};
ghost use Rattle.slotted_hashcons.specs.Filed.{filed_of, HasKey, IsNewKey, IsNewToOthers, HasKeysOnce};

use crate::class_names::ClassNames;
use crate::keys::KeyIndex;
use slotted_languages::Language;
use slotted_slots::{Error, SlotMap};
use std::alloc::Global;
use std::marker::Model;

/// For each class the e-node that is filed for it, if there is one.
///
/// The e-node is kept as its shape, with the slot of the class for each number of the shape. No shape is filed twice.
/// An e-node is found by its shape and by its class.
#[derive(Drop)]
pub struct NodeIndex<L: Language> {
    keys: KeyIndex<L>,
    names: ClassNames,
}

impl<L: Language> Model for NodeIndex<L> {
    ghost use Rattle.std.specs.Prelude.{List, Option, ◌≤◌, length};
    ghost use Rattle.slotted_hashcons.specs.Filed.{Filing, joined, filings_code};

    ghost Value = { List (Option Filing) };

    ghost coded = { filings_code };

    ghost view = { λ s. joined s.keys s.names };

    // After memory was refused, there may be maps of classes that are not there.
    ghost invariant = { λ s. length s.keys ≤ length s.names };
}

impl<L: Language> NodeIndex<L> {
    /// Returns the index without classes.
    pub fn new(alloc: Global) -> Self
        ensures { result ≡ [] }
    {
        NodeIndex {
            keys: KeyIndex::new(alloc),
            names: ClassNames::new(alloc),
        }
    }

    /// Returns the number of classes.
    pub fn class_count(&self) -> usize
        ensures { result ≡ length self.now }
    {
        self.keys.class_count()
    }

    /// Returns the number of filed e-nodes.
    pub fn len(&self) -> usize
        ensures { result ≡ count_by is_some self.now }
    {
        self.keys.len()
    }

    /// Adds a class, for which nothing is filed.
    pub fn add_class(&mut self, alloc: Global) -> Result<(), Error>
        ensures ok { OnOk result (self.new ≡ self.old ++ None ∷ []) }
        ensures unchanged { OnErr result (self.new ≡ self.old) }
        ensures err { IfErr result IsOutOfMemory }
    {
        self.names.add_class(alloc)?;
        self.keys.add_class()?;
        Ok(())
    }

    /// Returns what is filed for a class: a shape, and the slot of the class for each number of it.
    pub fn node(&self, class: usize) -> Option<(&L, &SlotMap)>
        ensures { option_map (λ p. (L.form p.0.now, p.1.now)) result ≡ filed_of self.now class }
    {
        match self.keys.key(class) {
            Some(key) => Some((key, self.names.of(class))),
            None => None,
        }
    }

    /// Returns the class for which a shape is filed. No shape is filed for two classes.
    pub fn source_of(&self, key: &L) -> Option<usize>
        ensures some { IfSome result (λ i. HasKey self.now i (L.form key.now)) }
        ensures none { IfNone result (IsNewKey self.now (L.form key.now)) }
        ensures once { HasKeysOnce self.now }
    {
        self.keys.source_of(key)
    }

    /// Files a shape for a class that has none.
    pub fn file(&mut self, class: usize, key: L, names: SlotMap) -> Result<(), Error>
        requires within { class < length self.old }
        requires free { filed_of self.old class ≡ None }
        requires new_key { IsNewKey self.old (L.form key) }
        ensures ok { OnOk result (self.new ≡ set self.old class (Some (L.form key, names))) }
        ensures unchanged { OnErr result (self.new ≡ self.old) }
        ensures err { IfErr result IsOutOfMemory }
    {
        self.keys.file(class, key)?;
        self.names.put(class, names);
        Ok(())
    }

    /// Removes what is filed for a class.
    pub fn unfile(&mut self, class: usize)
        requires { class < length self.old }
        ensures { self.new ≡ set self.old class None }
    {
        self.keys.unfile(class);
    }

    /// Files a shape for a class in place of the one that it had. If memory is refused, nothing is filed for the class.
    pub fn refile(&mut self, class: usize, key: L, names: SlotMap) -> Result<(), Error>
        requires within { class < length self.old }
        requires new_key { IsNewToOthers self.old class (L.form key) }
        ensures ok { OnOk result (self.new ≡ set self.old class (Some (L.form key, names))) }
        ensures gone { OnErr result (self.new ≡ set self.old class None) }
        ensures err { IfErr result IsOutOfMemory }
    {
        self.unfile(class);
        self.file(class, key, names)?;
        Ok(())
    }
}
