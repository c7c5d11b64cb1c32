//! What queries cost.
ghost use Rattle.std.specs.Prelude.{◌≡◌, slice_index_or};
ghost use Rattle.slotted_symbols.specs.SymbolForms.{symbol_form};
ghost use Rattle.slotted_costs.specs.Weights.{weighed_covers_children};
ghost use Rattle.slotted_queries.specs.RowCost.{row_cost, row_covers_children, row_never_falls, word_weight};

use slotted_costs::{CostFunction, weighed_sum};
use slotted_slots::Error;
use slotted_symbols::SymbolLang;
use std::alloc::Global;

/// The cost function of a planner. A join costs 100, and its condition counts ten times, since it is asked for each pair of
/// rows. A map costs 10. A filter costs 1, and its input counts twice. Each other e-node costs 1 more than its children.
#[derive(Drop)]
pub struct RowCost;

impl CostFunction<SymbolLang> for RowCost {
    type Cost = u64;

    ghost node_cost = { λ _. row_cost };

    ghost refuses = { λ _. ⊥ };

    ghost never_falls = { λ _. row_never_falls symbol_form };

    ghost covers_children = { λ _. row_covers_children symbol_form };

    ghost never_failed = { λ h. h };

    fn copy(&self, alloc: Global, cost: &u64) -> Result<u64, Error> {
        Ok(*cost)
    }

    fn cost(&self, alloc: Global, node: &SymbolLang, child: &[u64]) -> Result<u64, Error> {
        Ok(weighed_sum(weight(node.word(), child), child))
    }
}

// Returns the cost of a child, or 0 if there is none.
fn cost_at(child: &[u64], place: usize) -> u64
    ensures { result ≡ slice_index_or child.now place 0 }
{
    match child.get(place) {
        Some(cost) => *cost,
        None => 0,
    }
}

// Returns what a word adds to the costs of its children.
fn weight(word: &str, child: &[u64]) -> u64
    ensures { result ≡ word_weight word.now child.now }
{
    match word {
        "filter" => cost_at(child, 0).saturating_add(1),
        "join" => cost_at(child, 2).saturating_mul(9).saturating_add(100),
        "map" => 10,
        _ => 1,
    }
}
