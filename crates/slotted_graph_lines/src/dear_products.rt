// A cost function by which products are dear.
ghost use Rattle.std.specs.Prelude.{◌≡◌};
ghost use Rattle.slotted_small.specs.Small.{small_form};
ghost use Rattle.slotted_costs.specs.Costs.{bare_node};
ghost use Rattle.slotted_costs.specs.Weights.{weighed, weighed_never_falls, weighed_covers_children};
ghost use Rattle.slotted_graph_lines.specs.DearProducts.{product_weight};

use slotted_costs::{CostFunction, weighed_sum};
use slotted_languages::Language;
use slotted_slots::Error;
use slotted_small::Small;
use std::alloc::Global;

/// The cost function by which a product costs 5 more than its factors, and each other e-node 1 more than its children.
/// No cost is above the largest number.
#[derive(Drop, Default)]
pub struct DearProducts;

impl CostFunction<Small> for DearProducts {
    type Cost = u64;

    ghost node_cost = { λ _. weighed product_weight };

    ghost refuses = { λ _. ⊥ };

    ghost never_falls = { λ _. weighed_never_falls small_form product_weight };

    ghost covers_children = { λ _. weighed_covers_children small_form product_weight };

    ghost never_failed = { λ h. h };

    fn copy(&self, alloc: Global, cost: &u64) -> Result<u64, Error> {
        Ok(*cost)
    }

    fn cost(&self, alloc: Global, node: &Small, child: &[u64]) -> Result<u64, Error> {
        Ok(weighed_sum(weight(node), child))
    }
}

// Returns the weight of an e-node itself.
fn weight(node: &Small) -> u64
    ensures { result ≡ product_weight (bare_node (small_form node.now)) }
{
    if node.operator() == 6 { 5 } else { 1 }
}
