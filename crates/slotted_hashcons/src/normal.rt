//! Canonical e-nodes: e-nodes over what `find` maps their children to.
ghost use Rattle.std.specs.Prelude.{◌≡◌, ◌≤◌, length, IfOk, IfErr};
ghost use Rattle.slotted_slots.specs.Error.{IsOutOfMemory};
ghost use Rattle.slotted_languages.specs.NodeTerm.{nameless_node};
ghost use Rattle.slotted_model.specs.Applied.{EachChild};
ghost use Rattle.slotted_model.specs.Normal.{IsFound, normal};
ghost use Rattle.slotted_classes.specs.Finding.{HasFinds};
ghost use Rattle.slotted_classes.specs.Kept.{entries_of};
ghost use Rattle.slotted_hashcons.specs.NormalNodes.{HasFindableChildren, HasNoOtherNames};

use slotted_classes::Store;
use slotted_languages::Language;
use slotted_slots::Error;
use std::alloc::Global;

/// Returns the canonical e-node of an e-node: each child is what `find` maps it to.
///
/// So each child is live, and has names for just the slots of its class.
pub fn normal_of<L: Language>(store: &Store<L>, alloc: Global, node: &L) -> Result<L, Error>
    requires good { HasFinds store.now }
    requires children { HasFindableChildren store.now (L.form node.now) }
    ensures normal { IfOk result
        (λ n. nameless_node (L.form n) ≡ normal (entries_of store.now) (nameless_node (L.form node.now))) }
    ensures found { IfOk result (λ n. EachChild (IsFound (entries_of store.now)) (nameless_node (L.form n)).args) }
    ensures places { IfOk result (λ n. length (L.form n).names ≤ length (L.form node.now).names) }
    ensures names { IfOk result (λ n. HasNoOtherNames (L.form node.now) (L.form n)) }
    ensures err { IfErr result IsOutOfMemory }
{
    let mut normal = node.copy(alloc)?;
    for k in 0..node.applied_id_count() {
        let child = node.applied_id(k);
        if !store.is_canonical(child) {
            let found = store.found_id(alloc, child)?;
            normal.set_applied_id(k, found);
        }
    }
    Ok(normal)
}
