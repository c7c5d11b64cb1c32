//! Looking up terms.
ghost use Rattle.std.specs.Prelude.{◌≡◌, ◌≤◌, ◌⊎◌, ◌↔◌, false, length, map, IsTrue, IsErrOf, IfErr, IfOk, IfSome, OnOk, option_map};
ghost use Rattle.slotted_slots.specs.Error.{IsShortage};
ghost use Rattle.slotted_proofs.specs.Equations.{to_applied};
ghost use Rattle.slotted_terms.specs.Valid.{IsValidTerm};
ghost use Rattle.slotted_nodes.specs.Form.{IsSmall, children};
ghost use Rattle.slotted_graph.specs.LookUp.{look_up, look_up_term};
ghost use Rattle.slotted_graph.specs.Reports.{IsFound};
ghost use Rattle.slotted_graph.specs.ValidIds.{IsValidNode};
ghost use Rattle.slotted_rules.specs.Stacked.{ids_before, over_ids};

use crate::over::over_last;
use slotted_data::Analysis;
use slotted_graph::EGraph;
use slotted_languages::Language;
use slotted_languages::shape::PLACES;
use slotted_slots::{AppliedId, Error};
use slotted_terms::expr::RecExpr;
use slotted_terms::flat::{FlatNode, flatten};
use std::alloc::Global;

// Returns what the e-node over as many of the last ids as it has children is looked up as. The ids are taken from the
// list.
fn lookup_over<L: Language, N: Analysis<L>>(
    graph: &EGraph<L, N>,
    node: L,
    ids: &mut Vec<AppliedId>,
) -> Result<Option<AppliedId>, Error>
    requires well { graph.now.failed ≡ false }
    requires enough { length (children (L.form node).tree) ≤ length ids.old.items }
    requires valid { IsSmall (over_ids (L.form node) (map to_applied ids.old.items))
        → IsValidNode graph.now (over_ids (L.form node) (map to_applied ids.old.items)) }
    ensures id { IfOk result
        (λ o. option_map to_applied o ≡ look_up graph.now (over_ids (L.form node) (map to_applied ids.old.items))) }
    ensures found { IfOk result (λ o. IfSome o (λ a. IsFound graph.now (to_applied a))) }
    ensures rest { OnOk result (map to_applied ids.new.items
        ≡ ids_before (length (children (L.form node).tree)) (map to_applied ids.old.items)) }
    ensures only { IfErr result IsShortage }
{
    let over = over_last(node, ids);
    if over.slot_count() >= PLACES {
        return Err(Error::OutOfSlots);
    }
    graph.lookup(&over)
}

/// Returns the id of a term, from its innermost e-nodes on, as `lookup` gives it for each e-node, or `None` if some
/// e-node has none.
///
/// An e-node that has 2^30 places or more over the ids of its children is refused with `OutOfSlots`.
pub fn lookup_rec_expr<L: Language, N: Analysis<L>>(
    alloc: Global,
    term: &RecExpr<L>,
    graph: &EGraph<L, N>,
) -> Result<Option<AppliedId>, Error>
    requires { IsTrue graph.now.failed ⊎ IsValidTerm graph.now.table term.now }
    ensures id { IfOk result (λ o. option_map to_applied o ≡ look_up_term graph.now term.now) }
    ensures found { IfOk result (λ o. IfSome o (λ a. IsFound graph.now (to_applied a))) }
    ensures failed { IsErrOf result Error.Failed ↔ IsTrue graph.now.failed }
    ensures only { IfErr result (λ e. (e ≡ Error.Failed) ⊎ IsShortage e) }
{
    if graph.is_failed() {
        return Err(Error::Failed);
    }
    let mut left = flatten(alloc, term)?;
    let mut ids = Vec::new(alloc);
    while let Some(next) = left.pop() {
        let FlatNode { node, count: _ } = next;
        match lookup_over(graph, node, &mut ids)? {
            Some(id) => ids.push(id)?,
            None => return Ok(None),
        }
    }
    Ok(ids.pop())
}
