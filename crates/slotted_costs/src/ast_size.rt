//! The size of terms as a cost.
ghost use Rattle.std.specs.Prelude.{◌≡◌, ◌+◌, ℕ, suc, sum, min, IsOk, IfOk, IfErr};
ghost use Rattle.slotted_slots.specs.Error.{IsOutOfMemory};
ghost use Rattle.slotted_costs.specs.Costs.{bare_node};
ghost use Rattle.slotted_costs.specs.Size.{largest, size_cost};
ghost use Rattle.slotted_costs.specs.SizeLaws.{size_never_falls, size_covers_children};

use crate::cost::CostFunction;
use slotted_languages::language::Language;
use slotted_slots::Error;
use std::alloc::Global;

/// The cost function that counts e-nodes, up to the largest number: an e-node costs 1 and the costs of its children.
#[derive(Drop, Default)]
pub struct AstSize;

impl<L: Language> CostFunction<L> for AstSize {
    type Cost = u64;

    ghost node_cost = { λ _. size_cost };

    ghost refuses = { λ _. ⊥ };

    ghost never_falls = { λ _. size_never_falls L.form };

    ghost covers_children = { λ _. size_covers_children L.form };

    ghost never_failed = { λ h. h };

    fn copy(&self, alloc: Global, cost: &u64) -> Result<u64, Error> {
        Ok(*cost)
    }

    fn cost(&self, alloc: Global, node: &L, child: &[u64]) -> Result<u64, Error>
        ensures size { IfOk result (λ c. c ≡ min (suc (sum child.now)) largest) }
        ensures ok { IfOk result (λ c. c ≡ size_cost (bare_node (L.form node.now)) child.now) }
        ensures always { IsOk result }
        ensures err { IfErr result (λ _. ⊥) }
    {
        Ok(size_over(child))
    }
}

// Returns one more than the sum, or the largest number if the sum is too large.
fn size_over(child: &[u64]) -> u64
    ensures { result ≡ min (suc (sum child.now)) largest }
{
    let mut size: u64 = 1;
    for cost in child {
        size = size.saturating_add(*cost);
    }
    size
}
