//! The index of a graph's filed e-nodes, which is made when it is first needed.
ghost use Rattle.std.specs.Prelude.{◌≡◌, None, IsSome, IfSome, IfErr, IsErrOf, OnOk};
ghost use Rattle.slotted_slots.specs.Error.{IsShortage};
ghost use Rattle.slotted_hashcons.specs.WellFiled.{IsWellFiled};
ghost use Rattle.slotted_matching.specs.Indexed.{HasWideKey, IsIndexed};

use crate::index::{Indexed, row_index};
use slotted_classes::Store;
use slotted_hashcons::Hashcons;
use slotted_languages::Language;
use slotted_slots::Error;
use std::alloc::Global;

/// The index of filed e-nodes, if one was made since they last changed.
#[derive(Drop)]
pub struct IndexCache<L: Language> {
    /// The index, if there is one.
    pub indexed: Option<Indexed<L>>,
}

impl<L: Language> IndexCache<L> {
    /// Returns a cache without an index. Takes no memory.
    pub fn new() -> Self
        ensures { result.indexed ≡ None }
    {
        IndexCache { indexed: None }
    }

    /// Drops the index. Each change of classes or filed e-nodes has to call this.
    pub fn clear(&mut self)
        ensures { self.new.indexed ≡ None }
    {
        self.indexed = None;
    }

    /// Makes the index of the filed e-nodes if there is none. After an error there is none.
    pub fn fill(
        &mut self,
        alloc: Global,
        store: &Store<L>,
        nodes: &Hashcons<L>,
    ) -> Result<(), Error>
        requires good { IsWellFiled store.now nodes.now }
        requires index { IfSome self.old.indexed (λ x. IsIndexed store.now nodes.now x.skeletons x.index) }
        ensures ok { OnOk result (IsSome self.new.indexed) }
        ensures index { IfSome self.new.indexed (λ x. IsIndexed store.now nodes.now x.skeletons x.index) }
        ensures full { IsErrOf result Error.OutOfSlots → HasWideKey nodes.now }
        ensures err { IfErr result IsShortage }
    {
        if self.indexed.is_some() {
            return Ok(());
        }
        let indexed = row_index(store, nodes, alloc)?;
        self.indexed = Some(indexed);
        Ok(())
    }
}
