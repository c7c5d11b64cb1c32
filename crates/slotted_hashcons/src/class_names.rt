//! The slots of classes for the numbers of the shapes that are filed for them.
ghost use Rattle.std.specs.Prelude.{◌≡◌, ◌<◌, ◌++◌, ◌∷◌, [], length, set, slice_index_or, IfErr, OnOk, OnErr};
ghost use Rattle.slotted_slots.specs.Error.{IsOutOfMemory};

use slotted_slots::{Error, SlotMap};
use std::alloc::Global;
use std::marker::Model;

/// A map for each class. Most maps are empty. A flag says so, so that nothing else of such a map is read.
#[derive(Drop)]
pub struct ClassNames {
    flags: Vec<bool>,
    names: Vec<SlotMap>,
    empty: SlotMap,
}

impl Model for ClassNames {
    ghost use Rattle.std.specs.Prelude.{List, ℕ, ◌≡◌, []};
    ghost use Rattle.std.specs.Coded.{coded×, coded_list, coded_ℕ};
    ghost use Rattle.slotted_hashcons.specs.Filed.{HasNamesFlags};

    ghost Value = { List (List (ℕ × ℕ)) };

    ghost coded = { coded_list (coded_list (coded× coded_ℕ coded_ℕ)) };

    ghost view = { λ s. s.names.items };

    ghost invariant = { λ s. HasNamesFlags s.flags.items s.names.items × (s.empty ≡ []) };
}

impl ClassNames {
    /// Returns the maps of no classes.
    pub fn new(alloc: Global) -> Self
        ensures { result ≡ [] }
    {
        ClassNames {
            flags: Vec::new(alloc),
            names: Vec::new(alloc),
            empty: SlotMap::new(alloc),
        }
    }

    /// Adds a class, with an empty map.
    pub fn add_class(&mut self, alloc: Global) -> Result<(), Error>
        ensures ok { OnOk result (self.new ≡ self.old ++ [] ∷ []) }
        ensures unchanged { OnErr result (self.new ≡ self.old) }
        ensures err { IfErr result IsOutOfMemory }
    {
        self.flags.reserve(1)?;
        self.names.push(SlotMap::new(alloc))?;
        self.flags.push_reserved(false);
        Ok(())
    }

    /// Returns the map of a class.
    pub fn of(&self, class: usize) -> &SlotMap
        requires { class < length self.now }
        ensures { result.now ≡ slice_index_or self.now class [] }
    {
        if self.flags[class] {
            return &self.names[class];
        }
        &self.empty
    }

    /// Replaces the map of a class.
    pub fn put(&mut self, class: usize, names: SlotMap)
        requires { class < length self.old }
        ensures { self.new ≡ set self.old class names }
    {
        if names.is_empty() && !self.flags[class] {
            return;
        }
        self.flags[class] = true;
        self.names[class] = names;
    }
}
