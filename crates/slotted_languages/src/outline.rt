//! Outlines of nodes: nodes in which each child has a single place.
ghost use Rattle.std.specs.Prelude.{◌≡◌, IfOk, IfErr};
ghost use Rattle.slotted_slots.specs.Error.{IsOutOfMemory};
ghost use Rattle.slotted_nodes.specs.Form.{IsSmall};
ghost use Rattle.slotted_languages.specs.Outline.{outlined_form, skeleton_form, blank_form, IsOnlyChild};

use crate::language::Language;
use slotted_slots::{AppliedId, Error, Id, Slot, SlotMap};
use std::alloc::Global;

// Returns the id 0 with a name under the single key `$0`.
fn only_child(alloc: Global, name: Slot) -> Result<AppliedId, Error>
    ensures ok { IfOk result (λ a. IsOnlyChild name a.id.0 a.m) }
    ensures err { IfErr result IsOutOfMemory }
{
    let mut m = SlotMap::new(alloc);
    m.insert(Slot::numeric_at(0), name)?;
    Ok(AppliedId { id: Id(0), m })
}

/// Returns the outline of a node: a copy in which each child is the id 0 with `name` under the single key `$0`.
///
/// The places of an outline are the node's own names, children and binders in a row.
pub fn outline<L: Language>(alloc: Global, node: &L, name: Slot) -> Result<L, Error>
    ensures ok { IfOk result (λ n. L.form n ≡ outlined_form name (L.form node.now)) }
    ensures err { IfErr result IsOutOfMemory }
{
    let mut outline = node.copy(alloc)?;
    for k in 0..node.applied_id_count() {
        outline.set_applied_id(k, only_child(alloc, name)?);
    }
    Ok(outline)
}

// Puts the name `$0` at all places.
fn blank<L: Language>(node: &mut L)
    requires { IsSmall (L.form node.old) }
    ensures { L.form node.new ≡ blank_form (L.form node.old) }
{
    for i in 0..node.slot_count() {
        node.set_slot(i, Slot::numeric_at(0));
    }
}

/// Returns the skeleton of a node: the outline without the node's own names, with `$1` at each child and `$0`
/// elsewhere.
///
/// Two nodes have equal skeletons if and only if they agree up to names and children.
pub fn skeleton<L: Language>(alloc: Global, node: &L) -> Result<L, Error>
    requires { IsSmall (outlined_form 0 (L.form node.now)) }
    ensures ok { IfOk result (λ n. L.form n ≡ skeleton_form (L.form node.now)) }
    ensures err { IfErr result IsOutOfMemory }
{
    let mut blanked = outline(alloc, node, Slot::numeric_at(0))?;
    blank(&mut blanked);
    outline(alloc, &blanked, Slot::numeric_at(1))
}
