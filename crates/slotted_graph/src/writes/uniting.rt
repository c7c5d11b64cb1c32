//! Union: two ids are equal because the caller says so. Data is carried along.
ghost use Rattle.std.specs.Prelude.{◌≡◌, false, IfErr, IfOk, IsErrOf, OnOk};
ghost use Rattle.slotted_slots.specs.Error.{IsShortage};
ghost use Rattle.slotted_proofs.specs.Equations.{to_applied};
ghost use Rattle.slotted_classes.specs.Finding.{IsFindable};
ghost use Rattle.slotted_classes.specs.Kept.{text_bytes};
ghost use Rattle.slotted_data.specs.Meaning.{by_bare_nodes};
ghost use Rattle.slotted_data.specs.Carrying.{Carried, DataRests, HasCarriedAll};
ghost use Rattle.slotted_operations.specs.Causes.{HasLargeClassIn};
ghost use Rattle.slotted_operations.specs.Good.{Good, RestsWith, UnitesSides, image_of};

use slotted_classes::Store;
use slotted_data::{Analysis, ClassData, carry};
use slotted_hashcons::Hashcons;
use slotted_languages::Language;
use slotted_operations::uniting;
use slotted_slots::{AppliedId, Error};
use std::alloc::Global;

/// Asserts that two ids are equal, with a text or without one. Returns true if they were not found equal before.
pub fn union<L: Language, N: Analysis<L>>(
    store: &mut Store<L>,
    nodes: &mut Hashcons<L>,
    data: &mut ClassData<N::Data>,
    analysis: &N,
    alloc: Global,
    l: &AppliedId,
    r: &AppliedId,
    text: Option<String>,
) -> Result<bool, Error>
    requires good { Good store.old }
    requires rests { RestsWith store.old nodes.old }
    requires left { IsFindable store.old (to_applied l.now) }
    requires right { IsFindable store.old (to_applied r.now) }
    requires since { DataRests (by_bare_nodes (N.meaning analysis.now)) store.old nodes.old «data».old }
    ensures ok { IfOk result (UnitesSides store.old nodes.old store.new nodes.new l.now r.now (text_bytes text)) }
    ensures same { IfOk result (λ y. y ≡ false → nodes.new ≡ nodes.old) }
    ensures carried { OnOk result
        (Carried (by_bare_nodes (N.meaning analysis.now)) store.old nodes.old store.new nodes.new «data».old «data».new) }
    ensures still { OnOk result (HasCarriedAll store.new «data».old → «data».new ≡ «data».old) }
    ensures full { IsErrOf result Error.OutOfSlots → HasLargeClassIn (image_of store.old) }
    ensures err { IfErr result IsShortage }
{
    let answer = uniting::union(store, nodes, alloc, l, r, text)?;
    carry(store, nodes, data, analysis, alloc)?;
    Ok(answer)
}
