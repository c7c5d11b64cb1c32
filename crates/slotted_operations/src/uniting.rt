//! Union: two ids are equal because the caller says so.
ghost use Rattle.std.specs.Prelude.{◌≡◌, false, IfErr, IfOk, IsErrOf};
ghost use Rattle.slotted_slots.specs.Error.{IsShortage};
ghost use Rattle.slotted_proofs.specs.Equations.{to_applied};
ghost use Rattle.slotted_classes.specs.Finding.{IsFindable};
ghost use Rattle.slotted_classes.specs.Kept.{text_bytes};
ghost use Rattle.slotted_operations.specs.Causes.{HasLargeClassIn};
ghost use Rattle.slotted_operations.specs.Good.{Good, RestsWith, UnitesSides, image_of, with_rest_noted};
ghost use Rattle.slotted_operations.specs.Image.{CountsOpen};

use crate::sides::assert_sides;
use slotted_classes::Store;
use slotted_hashcons::Hashcons;
use slotted_languages::Language;
use slotted_rebuilding::rebuilding::rebuild;
use slotted_rebuilding::unions::shortening::compress_paths;
use slotted_rebuilding::uniting::unite;
use slotted_slots::{AppliedId, Error};
use std::alloc::Global;

/// Asserts that two ids are equal, with a text or without one, and rebuilds. Returns true if they were not found
/// equal before. Paths that were walked are compressed at the end.
///
/// The ids may omit names of redundant slots.
pub fn union<L: Language>(
    store: &mut Store<L>,
    nodes: &mut Hashcons<L>,
    alloc: Global,
    l: &AppliedId,
    r: &AppliedId,
    text: Option<String>,
) -> Result<bool, Error>
    requires good { Good store.old }
    requires rests { RestsWith store.old nodes.old }
    requires left { IsFindable store.old (to_applied l.now) }
    requires right { IsFindable store.old (to_applied r.now) }
    ensures ok { IfOk result (UnitesSides store.old nodes.old store.new nodes.new l.now r.now (text_bytes text)) }
    ensures same { IfOk result (λ y. y ≡ false → nodes.new ≡ nodes.old) }
    ensures full { IsErrOf result Error.OutOfSlots → HasLargeClassIn (image_of store.old) }
    ensures err { IfErr result IsShortage }
{
    let found_alike = store.eq(l, r);
    let p = assert_sides(store, alloc, l, r, text)?;
    if found_alike {
        note_rest(store, nodes);
        return Ok(false);
    }
    unite(store, nodes, alloc, p)?;
    rebuild(store, nodes, alloc)?;
    compress_paths(store, alloc)?;
    Ok(true)
}

// Notes that there was nothing to rebuild.
fn note_rest<L: Language>(store: &mut Store<L>, nodes: &Hashcons<L>)
    ensures { store.new ≡ with_rest_noted store.old nodes.now }
{
    let size = store.size();
    store.note(nodes.len(), size, 0);
}

/// Returns how many of the listed symmetries are open. Takes no memory.
pub fn open_symmetries<L: Language>(store: &Store<L>) -> usize
    requires { Good store.now }
    ensures { CountsOpen (image_of store.now) store.now.symmetries result }
{
    let mut count = 0;
    for symmetry in store.symmetries() {
        if !store.eq(&symmetry.equation.l, &symmetry.equation.r) {
            count += 1;
        }
    }
    count
}
