//! Usages: for each class the sources of the filed e-nodes over it.
ghost use Rattle.std.specs.Prelude.{◌≡◌, ◌<◌, ◌++◌, ◌∷◌, [], length, set, slice_index_or, IfErr, OnOk, OnErr};
ghost use Rattle.slotted_slots.specs.Error.{IsOutOfMemory};

use crate::keys::as_small;
use slotted_slots::Error;
use std::alloc::Global;
use std::marker::Model;

/// For each class a list of the sources of e-nodes that have or had it as a child.
///
/// A source stays in the list when its e-node is over the class no more, and it may stand there twice. So a reader of
/// the list looks at the e-nodes.
#[derive(Drop)]
pub struct Usages {
    sources: Vec<Vec<u32>>,
}

impl Model for Usages {
    ghost use Rattle.std.specs.Prelude.{List, ℕ, map};
    ghost use Rattle.std.specs.Coded.{coded_list, coded_ℕ};

    ghost Value = { List (List ℕ) };

    ghost view = { λ u. map (λ v. v.items) u.sources.items };
}

impl Usages {
    /// Returns the usages of no classes.
    pub fn new(alloc: Global) -> Self
        ensures { result ≡ [] }
    {
        Usages {
            sources: Vec::new(alloc),
        }
    }

    /// Adds a class, which no e-node is over.
    pub fn add_class(&mut self, alloc: Global) -> Result<(), Error>
        ensures ok { OnOk result (self.new ≡ self.old ++ [] ∷ []) }
        ensures unchanged { OnErr result (self.new ≡ self.old) }
        ensures err { IfErr result IsOutOfMemory }
    {
        self.sources.push(Vec::new(alloc))?;
        Ok(())
    }

    /// Adds a source over a class.
    pub fn add(&mut self, class: usize, source: usize) -> Result<(), Error>
        requires { class < length self.old }
        ensures ok { OnOk result (self.new ≡ set self.old class (slice_index_or self.old class [] ++ source ∷ [])) }
        ensures unchanged { OnErr result (self.new ≡ self.old) }
        ensures err { IfErr result IsOutOfMemory }
    {
        let source = as_small(source)?;
        self.sources[class].push(source)?;
        Ok(())
    }

    /// Returns the sources over a class.
    pub fn of(&self, class: usize) -> &[u32]
        requires { class < length self.now }
        ensures { result.now ≡ slice_index_or self.now class [] }
    {
        &self.sources[class]
    }
}
