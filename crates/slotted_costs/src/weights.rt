//! Costs that add a weight of the e-node to the costs of its children.
ghost use Rattle.std.specs.Prelude.{◌≡◌, ◌+◌, ℕ, sum, min};
ghost use Rattle.slotted_theory.specs.Nameless.{DTerm};
ghost use Rattle.slotted_costs.specs.Size.{largest};
ghost use Rattle.slotted_costs.specs.Weights.{weighed};

/// Returns the weight and the costs of the children added up, or the largest number if the sum is too large.
///
/// A cost function of this kind keeps its laws for any weights, by `weighed_never_falls` and `weighed_covers_children`
/// of `specs/Weights.antt`.
pub fn weighed_sum(weight: u64, child: &[u64]) -> u64
    ensures sum { result ≡ min (weight + sum child.now) largest }
    ensures weighed { (w : DTerm → ℕ) (d : DTerm) → w d ≡ weight → result ≡ weighed w d child.now }
{
    let mut total = weight;
    for cost in child {
        total = total.saturating_add(*cost);
    }
    total
}
