//! The filed e-nodes of a class, with the names of an id.
ghost use Rattle.std.specs.Prelude.{◌≡◌, ◌<◌, length, Contains, IfOk, IfErr, IsErrOf};
ghost use Rattle.slotted_slots.specs.Error.{IsOutOfMemory, IsShortage};
ghost use Rattle.slotted_slots.specs.Maps.{values};
ghost use Rattle.slotted_nodes.specs.Form.{IsSmall};
ghost use Rattle.slotted_languages.specs.Shape.{shape};
ghost use Rattle.slotted_proofs.specs.Equations.{to_applied};
ghost use Rattle.slotted_hashcons.specs.Filed.{HasKey};
ghost use Rattle.slotted_hashcons.specs.FiledRows.{IsFiled};
ghost use Rattle.slotted_hashcons.specs.WellFiled.{IsWellFiled};
ghost use Rattle.slotted_classes.specs.Finding.{HasFinds, IsFindable};
ghost use Rattle.slotted_lookup.specs.Enodes.{AreFresh, HasNamesOrNumbers, IsLargeKeyOf, IsLookedUpAs, IsMet, names_beside_of};

use crate::finding::found_class;
use slotted_classes::Store;
use slotted_classes::names::put_at_places;
use slotted_hashcons::Hashcons;
use slotted_languages::Language;
use slotted_languages::shape::PLACES;
use slotted_slots::{AppliedId, Error, SlotMap};
use std::alloc::Global;

/// Returns the map from numbers to names of an id, for the numbers whose slots stand for slots of what `find` maps
/// the id to.
pub fn names_beside<L: Language>(
    store: &Store<L>,
    alloc: Global,
    source: usize,
    slots: &SlotMap,
    a: &AppliedId,
) -> Result<SlotMap, Error>
    requires good { HasFinds store.now }
    requires within { source < length store.now.classes }
    requires findable { IsFindable store.now (to_applied a.now) }
    ensures ok { IfOk result (λ m. m ≡ names_beside_of store.now source slots.now (to_applied a.now)) }
    ensures err { IfErr result IsOutOfMemory }
{
    let found = found_class(store, alloc, source)?;
    let back = found.m.inverse(alloc)?;
    let numbered = slots.compose_partial(alloc, &back)?;
    let named = store.found_id(alloc, a)?;
    let names = numbered.compose_partial(alloc, &named.m)?;
    Ok(names)
}

/// Returns the e-node that is filed for a class, with the names of an id of the same live class, which are fresh
/// slots.
///
/// A number that stands for none of them stays as it is, and so does each binder: so no table is needed. The class
/// may not be pending.
pub fn class_node<L: Language>(
    store: &Store<L>,
    nodes: &Hashcons<L>,
    alloc: Global,
    source: usize,
    a: &AppliedId,
) -> Result<L, Error>
    requires good { IsWellFiled store.now nodes.now }
    requires filed { IsFiled nodes.now.filed source }
    requires quiet { ¬ Contains nodes.now.waiting source }
    requires findable { IsFindable store.now (to_applied a.now) }
    requires met { IsMet store.now source (to_applied a.now) }
    requires fresh { AreFresh (values a.now.m) }

    // The e-node has the filed shape, and is looked up as what `find` maps the id to.
    ensures key { IfOk result (λ n. HasKey nodes.now.filed source (shape (L.form n)).0) }
    ensures found { IfOk result (λ n. IsLookedUpAs store.now nodes.now (to_applied a.now) (L.form n)) }
    ensures names { IfOk result (λ n. HasNamesOrNumbers (values a.now.m) (L.form n)) }
    ensures few { IfOk result (λ n. IsSmall (L.form n)) }
    ensures full { IsErrOf result Error.OutOfSlots → IsLargeKeyOf nodes.now source }
    ensures err { IfErr result IsShortage }
{
    match nodes.node(source) {
        Some((key, slots)) => {
            if key.slot_count() >= PLACES {
                return Err(Error::OutOfSlots);
            }
            let names = names_beside(store, alloc, source, slots, a)?;
            let mut node = key.copy(alloc)?;
            put_at_places(&mut node, &names);
            Ok(node)
        }
        None => unreachable!(),
    }
}
