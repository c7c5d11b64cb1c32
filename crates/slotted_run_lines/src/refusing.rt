//! An analysis that refuses.
use crate::least_size::LeastSize;
use slotted_data::Analysis;
use slotted_languages::Language;
use slotted_slots::Error;
use std::alloc::Global;

/// The least size, but `make` refuses a size above the most.
#[derive(Drop)]
pub struct Refusing {
    pub most: u32,
}

impl<L: Language> Analysis<L> for Refusing {
    ghost use Rattle.slotted_run_lines.specs.LeastSize.{least_size, least_size_merges, refusing_codes};
    ghost use Rattle.std.specs.Prelude.{false};
    ghost use Rattle.std.proofs.Common.{rules};

    type Data = u32;

    ghost codes = { refusing_codes };

    ghost meaning = { λ _. least_size };

    ghost modifies = { false };

    ghost refuses = { λ _. ⊥ };

    ghost is_merge = { λ _. least_size_merges };

    ghost equal_is_same = { Prim.search rules };

    ghost only_shortages = { λ _ h. absurd h };

    fn copy(&self, alloc: Global, data: &u32) -> Result<u32, Error> {
        Ok(*data)
    }

    fn make(&self, alloc: Global, node: &L, child: &[u32]) -> Result<u32, Error> {
        let size = LeastSize.make(alloc, node, child)?;
        if size > self.most {
            return Err(Error::OutOfMemory);
        }
        Ok(size)
    }

    fn merge(&self, alloc: Global, l: &u32, r: &u32) -> Result<u32, Error> {
        Ok((*l).min(*r))
    }

    fn height(&self, data: &u32) -> u32 {
        *data
    }

    fn modifies() -> bool {
        false
    }
}
