//! E-nodes over the last ids of a stack.
ghost use Rattle.std.specs.Prelude.{◌≡◌, ◌≤◌, length, map};
ghost use Rattle.slotted_nodes.specs.Form.{children};
ghost use Rattle.slotted_proofs.specs.Equations.{to_applied};
ghost use Rattle.slotted_rules.specs.Stacked.{ids_before, over_ids};

use slotted_languages::Language;
use slotted_slots::AppliedId;

/// Returns the e-node over as many of the last ids as it has children. The ids are taken from the list.
pub(crate) fn over_last<L: Language>(node: L, ids: &mut Vec<AppliedId>) -> L
    requires { length (children (L.form node).tree) ≤ length ids.old.items }
    ensures over { L.form result ≡ over_ids (L.form node) (map to_applied ids.old.items) }
    ensures rest { map to_applied ids.new.items
        ≡ ids_before (length (children (L.form node).tree)) (map to_applied ids.old.items) }
{
    let mut over = node;
    let mut k = over.applied_id_count();
    while k > 0 {
        k -= 1;
        match ids.pop() {
            Some(id) => over.set_applied_id(k, id),
            None => unreachable!(),
        }
    }
    over
}
