//! Tables of costs.
ghost use Rattle.std.specs.Prelude.{◌≡◌, ◌<◌, ◌++◌, ◌∷◌, [], length, None, option_map, IfOk, IfErr, OnOk};
ghost use Rattle.slotted_slots.specs.Error.{IsOutOfMemory};
ghost use Rattle.slotted_model.specs.Extraction.{cost_in};
ghost use Rattle.slotted_costs.specs.Entries.{ArePlaced, classes_in, entry_of, entry_in, table_of};

use crate::entry::CostEntry;
use slotted_languages::Language;
use slotted_slots::Error;
use std::alloc::Global;

/// A table of costs: the entries in the order in which they entered, at most one for each class.
///
/// The children of each e-node belong to classes of earlier entries.
#[derive(Drop)]
pub struct CostTable<L, C> {
    /// The entries, in the order in which they entered.
    pub entries: Vec<CostEntry<L, C>>,
    places: Vec<usize>,
    ghost placed: { ArePlaced (classes_in entries.items) places.items },
}

impl<L: Language, C: Drop> CostTable<L, C> {
    // Returns an empty table for this many classes.
    pub(crate) fn new(alloc: Global, classes: usize) -> Result<Self, Error>
        ensures empty { IfOk result (λ t. t.entries.items ≡ []) }
        ensures room { IfOk result (λ t. length t.places.items ≡ classes) }
        ensures err { IfErr result IsOutOfMemory }
    {
        let places = vec![in alloc; 0; classes]?;
        let entries = Vec::new(alloc);
        Ok(CostTable { entries, places })
    }

    /// Returns the entry of a class, if there is one. Takes no memory.
    pub fn get(&self, class: usize) -> Option<&CostEntry<L, C>>
        ensures entry { option_map (λ e. entry_of L.form e.now) result
            ≡ entry_in (table_of L.form self.now.entries.items) class }
        ensures cost { option_map (λ e. e.now.cost) result ≡ cost_in (table_of L.form self.now.entries.items) class }
    {
        if class >= self.places.len() {
            return None;
        }
        let place = self.places[class];
        if place >= self.entries.len() {
            return None;
        }
        let entry = &self.entries[place];
        if entry.class == class {
            Some(entry)
        } else {
            None
        }
    }

    // Adds an entry, of a class that has none.
    pub(crate) fn enter(&mut self, entry: CostEntry<L, C>) -> Result<(), Error>
        requires within { entry.class < length self.old.places.items }
        requires new_class { entry_in (table_of L.form self.old.entries.items) entry.class ≡ None }
        ensures ok { OnOk result (self.new.entries.items ≡ self.old.entries.items ++ entry ∷ []) }
        ensures room { length self.new.places.items ≡ length self.old.places.items }
        ensures err { IfErr result IsOutOfMemory }
    {
        self.places[entry.class] = self.entries.len();
        self.entries.push(entry)?;
        Ok(())
    }

    /// Returns the entries, and gives up the table.
    pub fn into_entries(self) -> Vec<CostEntry<L, C>>
        ensures { result.items ≡ self.entries.items }
    {
        self.entries
    }
}
