//! The number of e-nodes of the smallest term of a class.
ghost use Rattle.std.specs.Prelude.{◌≡◌, suc, sum, min};
ghost use Rattle.slotted_run_lines.specs.LeastSize.{largest, least_size};

use slotted_data::Analysis;
use slotted_languages::Language;
use slotted_slots::Error;
use std::alloc::Global;

/// The analysis that keeps the number of e-nodes of the smallest term that is known of a class. If there are more, the
/// data is the largest number.
#[derive(Drop, Default)]
pub struct LeastSize;

impl<L: Language> Analysis<L> for LeastSize {
    ghost use Rattle.slotted_run_lines.specs.LeastSize.{least_size, least_size_merges, size_codes};
    ghost use Rattle.std.specs.Prelude.{false};
    ghost use Rattle.std.proofs.Common.{rules};

    type Data = u32;

    ghost codes = { size_codes };

    ghost meaning = { λ _. least_size };

    ghost modifies = { false };

    ghost refuses = { λ _. ⊥ };

    ghost is_merge = { λ _. least_size_merges };

    ghost equal_is_same = { Prim.search rules };

    ghost only_shortages = { λ _ h. absurd h };

    fn copy(&self, alloc: Global, data: &u32) -> Result<u32, Error> {
        Ok(*data)
    }

    fn make(&self, alloc: Global, node: &L, child: &[u32]) -> Result<u32, Error> {
        Ok(size_over(child))
    }

    fn merge(&self, alloc: Global, l: &u32, r: &u32) -> Result<u32, Error> {
        Ok((*l).min(*r))
    }

    fn height(&self, data: &u32) -> u32 {
        *data
    }

    fn modifies() -> bool {
        false
    }
}

// Returns one more than the sum, or the largest number.
fn size_over(child: &[u32]) -> u32
    ensures { result ≡ min (suc (sum child.now)) largest }
{
    let mut size: u32 = 1;
    for part in child {
        size = size.saturating_add(*part);
    }
    size
}
