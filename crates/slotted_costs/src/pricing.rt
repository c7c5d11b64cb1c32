//! What filed e-nodes cost by the costs of their children.
ghost use Rattle.std.specs.Prelude.{◌≡◌, ◌↔◌, All, None, true, map, option_map, IsTrue, IfOk, IfErr, IfSome, IfNone, OnOk};
ghost use Rattle.std.specs.Ordering.{is_lt};
ghost use Rattle.std.specs.BinaryHeap.{heap_items, KeepsHeap};
ghost use Rattle.slotted_slots.specs.Error.{IsOutOfMemory};
ghost use Rattle.slotted_model.specs.Extraction.{costs_in};
ghost use Rattle.slotted_hashcons.specs.FiledRows.{key_children};
ghost use Rattle.slotted_costs.specs.Costs.{costs_by, MayRefuse};
ghost use Rattle.slotted_costs.specs.Entries.{table_of};
ghost use Rattle.slotted_costs.specs.Prices.{candidate_cmp, filed_cost, IsCandidateFor, Pushes};

use crate::candidate::Candidate;
use crate::cost::CostFunction;
use crate::table::CostTable;
use slotted_hashcons::Hashcons;
use slotted_languages::Language;
use slotted_slots::Error;
use std::alloc::Global;
use std::cmp::Reverse;
use std::collections::BinaryHeap;

// Returns the costs of the children of an e-node, if all of them have one.
fn child_costs<L: Language, F: CostFunction<L>>(
    table: &CostTable<L, F::Cost>,
    costs: &F,
    alloc: Global,
    node: &L,
) -> Result<Option<Vec<F::Cost>>, Error>
    ensures ok { IfOk result (λ o. option_map (λ v. v.items) o
        ≡ costs_in (table_of L.form table.now.entries.items) (key_children (L.form node.now))) }
    ensures err { IfErr result IsOutOfMemory }
{
    let mut each = Vec::new(alloc);
    for k in 0..node.applied_id_count() {
        match table.get(node.applied_id(k).id.0) {
            Some(entry) => each.push(costs.copy(alloc, &entry.cost)?)?,
            None => return Ok(None),
        }
    }
    Ok(Some(each))
}

// Returns whether each of these costs is less than the other cost.
fn are_less<C: Ord>(each: &[C], cost: &C) -> bool
    ensures { IsTrue result ↔ All (λ x. is_lt (C.cmp x cost.now) ≡ true) each.now }
{
    each.iter().all(|x| x < cost)
}

// Returns the filed e-node of a source as a candidate, if all of its children have costs.
fn candidate<'a, L: Language, F: CostFunction<L>>(
    nodes: &'a Hashcons<L>,
    table: &CostTable<L, F::Cost>,
    costs: &F,
    alloc: Global,
    source: usize,
) -> Result<Option<Candidate<'a, L, F::Cost>>, Error>
    ensures some { IfOk result (λ o. IfSome o (IsCandidateFor L.form (costs_by F.Cost.cmp (F.node_cost costs.now))
        (table_of L.form table.now.entries.items) nodes.now.filed source)) }
    ensures none { IfOk result (λ o. IfNone o (filed_cost (costs_by F.Cost.cmp (F.node_cost costs.now))
        (table_of L.form table.now.entries.items) nodes.now.filed source ≡ None)) }
    ensures err { IfErr result (MayRefuse F.refuses) }
{
    let Some((key, _)) = nodes.node(source) else {
        return Ok(None);
    };
    let Some(each) = child_costs(table, costs, alloc, key)? else {
        return Ok(None);
    };
    let cost = costs.cost(alloc, key, &each)?;
    let over_cheaper = are_less(&each, &cost);
    Ok(Some(Candidate {
        cost: Reverse(cost),
        over_cheaper,
        key: Reverse(key),
        source: Reverse(source),
    }))
}

/// Lets the filed e-node of a source wait for its turn, if all of its children have costs.
pub fn push_row<'a, L: Language, F: CostFunction<L>>(
    nodes: &'a Hashcons<L>,
    table: &CostTable<L, F::Cost>,
    costs: &F,
    alloc: Global,
    source: usize,
    queue: &mut BinaryHeap<Candidate<'a, L, F::Cost>>,
) -> Result<(), Error>
    ensures ok { OnOk result (Pushes L.form (costs_by F.Cost.cmp (F.node_cost costs.now))
        (table_of L.form table.now.entries.items) nodes.now.filed source (heap_items queue.old) (heap_items queue.new)) }
    ensures heap { OnOk result
        (KeepsHeap (candidate_cmp L.cmp F.Cost.cmp) (heap_items queue.old) (heap_items queue.new)) }
    ensures err { IfErr result (MayRefuse F.refuses) }
{
    if let Some(next) = candidate(nodes, table, costs, alloc, source)? {
        queue.push(next)?;
    }
    Ok(())
}
