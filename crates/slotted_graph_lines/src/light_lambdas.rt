// A cost function by which a lambda adds nothing to its body.
ghost use Rattle.std.specs.Prelude.{◌≡◌};
ghost use Rattle.slotted_small.specs.Small.{small_form};
ghost use Rattle.slotted_costs.specs.Costs.{bare_node};
ghost use Rattle.slotted_costs.specs.Weights.{weighed, weighed_never_falls, weighed_covers_children};
ghost use Rattle.slotted_graph_lines.specs.LightLambdas.{lambda_weight};

use slotted_costs::{CostFunction, weighed_sum};
use slotted_languages::Language;
use slotted_slots::Error;
use slotted_small::Small;
use std::alloc::Global;

/// The cost function by which a lambda costs what its body costs, and each other e-node 1 more than its children. No
/// cost is above the largest number.
#[derive(Drop, Default)]
pub struct LightLambdas;

impl CostFunction<Small> for LightLambdas {
    type Cost = u64;

    ghost node_cost = { λ _. weighed lambda_weight };

    ghost refuses = { λ _. ⊥ };

    ghost never_falls = { λ _. weighed_never_falls small_form lambda_weight };

    ghost covers_children = { λ _. weighed_covers_children small_form lambda_weight };

    ghost never_failed = { λ h. h };

    fn copy(&self, alloc: Global, cost: &u64) -> Result<u64, Error> {
        Ok(*cost)
    }

    fn cost(&self, alloc: Global, node: &Small, child: &[u64]) -> Result<u64, Error> {
        Ok(weighed_sum(weight(node), child))
    }
}

// Returns the weight of an e-node itself.
fn weight(node: &Small) -> u64
    ensures { result ≡ lambda_weight (bare_node (small_form node.now)) }
{
    if node.operator() == 0 { 0 } else { 1 }
}
