//! What terms over sums cost.
ghost use Rattle.std.specs.Prelude.{◌≡◌};
ghost use Rattle.slotted_small.specs.Small.{small_form};
ghost use Rattle.slotted_costs.specs.Costs.{bare_node};
ghost use Rattle.slotted_costs.specs.Weights.{weighed, weighed_never_falls, weighed_covers_children};
ghost use Rattle.slotted_sums.specs.LoopCost.{loop_weight};

use slotted_costs::{CostFunction, weighed_sum};
use slotted_slots::Error;
use slotted_small::Small;
use std::alloc::Global;

/// The cost function by which each word `sum` costs 20, and each other e-node 1 more than its children.
#[derive(Drop)]
pub struct LoopCost;

impl CostFunction<Small> for LoopCost {
    type Cost = u64;

    ghost node_cost = { λ _. weighed loop_weight };

    ghost refuses = { λ _. ⊥ };

    ghost never_falls = { λ _. weighed_never_falls small_form loop_weight };

    ghost covers_children = { λ _. weighed_covers_children small_form loop_weight };

    ghost never_failed = { λ h. h };

    fn copy(&self, alloc: Global, cost: &u64) -> Result<u64, Error> {
        Ok(*cost)
    }

    fn cost(&self, alloc: Global, node: &Small, child: &[u64]) -> Result<u64, Error> {
        Ok(weighed_sum(weight(node), child))
    }
}

// Returns the weight of an e-node itself.
fn weight(node: &Small) -> u64
    ensures { result ≡ loop_weight (bare_node (small_form node.now)) }
{
    match node {
        Small::Word(word) => if word.as_str() == "sum" { 20 } else { 1 },
        _ => 1,
    }
}
