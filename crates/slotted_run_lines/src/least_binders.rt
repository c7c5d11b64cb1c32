//! The least number of binders among the terms of a class.
ghost use Rattle.std.specs.Prelude.{◌≡◌, ◌+◌, sum, min};
ghost use Rattle.slotted_run_lines.specs.LeastSize.{largest};

use slotted_data::Analysis;
use slotted_slots::Error;
use slotted_small::Small;
use std::alloc::Global;

/// The analysis that keeps the least number of binders of a term that is known of a class. If there are more, the data
/// is the largest number.
#[derive(Drop, Default)]
pub struct LeastBinders;

impl Analysis<Small> for LeastBinders {
    ghost use Rattle.slotted_run_lines.specs.LeastBinders.{binder_codes, least_binders, least_binders_merges};
    ghost use Rattle.std.specs.Prelude.{false};
    ghost use Rattle.std.proofs.Common.{rules};

    type Data = u32;

    ghost codes = { binder_codes };

    ghost meaning = { λ _. least_binders };

    ghost modifies = { false };

    ghost refuses = { λ _. ⊥ };

    ghost is_merge = { λ _. least_binders_merges };

    ghost equal_is_same = { Prim.search rules };

    ghost only_shortages = { λ _ h. absurd h };

    fn copy(&self, alloc: Global, data: &u32) -> Result<u32, Error> {
        Ok(*data)
    }

    fn make(&self, alloc: Global, node: &Small, child: &[u32]) -> Result<u32, Error> {
        match node {
            Small::Lam(_) => Ok(added(1, child)),
            _ => Ok(added(0, child)),
        }
    }

    fn merge(&self, alloc: Global, l: &u32, r: &u32) -> Result<u32, Error> {
        Ok((*l).min(*r))
    }

    fn height(&self, data: &u32) -> u32 {
        *data
    }

    fn modifies() -> bool {
        false
    }
}

// Returns the sum of a number and of others, or the largest number.
fn added(first: u32, others: &[u32]) -> u32
    ensures { result ≡ min (first + sum others.now) largest }
{
    let mut total = first;
    for part in others {
        total = total.saturating_add(*part);
    }
    total
}
