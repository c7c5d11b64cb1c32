//! Carrying data along after a graph was rebuilt, and merging values into it.
ghost use Rattle.std.specs.Prelude.{◌≡◌, ◌<◌, ◌↔◌, ℕ, length, IfErr, IsTrue, OnOk};
ghost use Rattle.slotted_slots.specs.Error.{IsOutOfMemory};
ghost use Rattle.slotted_model.specs.Rest.{AtRest};
ghost use Rattle.slotted_classes.specs.Finding.{HasFinds};
ghost use Rattle.slotted_classes.specs.Kept.{Kept, ListsDead, entries_of};
ghost use Rattle.slotted_hashcons.specs.FiledRows.{Rows};
ghost use Rattle.slotted_hashcons.specs.WellFiled.{state_in};
ghost use Rattle.slotted_data.specs.Meaning.{by_bare_nodes};
ghost use Rattle.slotted_data.specs.Carrying.{Carried, CarriesUp, DataRests, HasCarriedAll, HasNewData};
ghost use Rattle.slotted_data.specs.Carrying.{MergesIn, RestedBefore, RestedOnce};

use crate::Analysis;
use crate::burying::bury;
use crate::class_data::ClassData;
use crate::lowering::{lower, rise};
use crate::making::add_new;
use crate::users::enter_users;
use slotted_classes::Store;
use slotted_hashcons::Hashcons;
use slotted_languages::Language;
use slotted_slots::Error;
use std::alloc::Global;

// Enters new classes as users, buries dead ones, and lets values go upwards. Each class has data already.
fn carry_up<L: Language, N: Analysis<L>>(
    store: &Store<L>,
    nodes: &mut Hashcons<L>,
    data: &mut ClassData<N::Data>,
    analysis: &N,
    alloc: Global,
) -> Result<(), Error>
    requires good { HasFinds store.now }
    requires rests { AtRest (state_in store.now nodes.old) }
    requires new { HasNewData (N.meaning analysis.now) store.now nodes.old «data».old }
    ensures ok { OnOk result
        (CarriesUp (by_bare_nodes (N.meaning analysis.now)) store.now nodes.old nodes.new «data».old «data».new) }
    ensures err { IfErr result IsOutOfMemory }
{
    enter_users(store, nodes, data)?;
    bury(
        store,
        nodes,
        data,
        analysis,
        alloc,
        &store.deaths()[data.carried()..],
    )?;
    rise(store, nodes, data, analysis, alloc)?;
    Ok(())
}

// Returns whether each class has data, and each death has been carried.
fn has_carried_all<L: Language, D: Drop>(store: &Store<L>, data: &ClassData<D>) -> bool
    ensures all { IsTrue result ↔ HasCarriedAll store.now «data».now }
    ensures just { ListsDead store.now.deaths (entries_of store.now) }
{
    let deaths = store.deaths().len();
    data.count() == store.class_count() && data.carried() == deaths
}

/// Carries data along after the graph was rebuilt, until no data is pending.
///
/// New classes get what their e-nodes make. The data of a class that died is merged into that of the class that `find`
/// maps it to. From there values go upwards.
///
/// The data may be that of an older state of the graph, if no data was pending then. While all data has height 0, no
/// death and no user is read.
pub fn carry<L: Language, N: Analysis<L>>(
    store: &Store<L>,
    nodes: &mut Hashcons<L>,
    data: &mut ClassData<N::Data>,
    analysis: &N,
    alloc: Global,
) -> Result<(), Error>
    requires good { HasFinds store.now }
    requires rests { AtRest (state_in store.now nodes.old) }
    requires since { RestedOnce (by_bare_nodes (N.meaning analysis.now)) store.now nodes.old «data».old }
    ensures same { OnOk result (nodes.new ≡ nodes.old) }
    ensures carried { OnOk result ((k : Kept) (r : Rows)
        → RestedBefore (by_bare_nodes (N.meaning analysis.now)) k r store.now nodes.old «data».old
        → Carried (by_bare_nodes (N.meaning analysis.now)) k r store.now nodes.old «data».old «data».new) }
    // If each class has data, and each death has been carried, nothing changes.
    ensures still { OnOk result (HasCarriedAll store.now «data».old → «data».new ≡ «data».old) }
    ensures err { IfErr result IsOutOfMemory }
{
    if has_carried_all(store, data) {
        return Ok(());
    }
    add_new(store, data, analysis, alloc)?;
    if data.is_tall() {
        carry_up(store, nodes, data, analysis, alloc)?;
    }
    data.set_carried(store.deaths().len());
    Ok(())
}

/// Merges a value into the data of the class that `find` maps a class to. From there values go upwards. Data of height
/// 0 absorbs every value.
pub fn merge_value<L: Language, N: Analysis<L>>(
    store: &Store<L>,
    nodes: &mut Hashcons<L>,
    data: &mut ClassData<N::Data>,
    analysis: &N,
    alloc: Global,
    class: usize,
    value: &N::Data,
) -> Result<(), Error>
    requires good { HasFinds store.now }
    requires rests { DataRests (by_bare_nodes (N.meaning analysis.now)) store.now nodes.old «data».old }
    requires within { class < length store.now.classes }
    ensures same { OnOk result (nodes.new ≡ nodes.old) }
    ensures merges { OnOk result
        (MergesIn (by_bare_nodes (N.meaning analysis.now)) store.now nodes.old class value.now «data».old «data».new) }
    ensures err { IfErr result IsOutOfMemory }
{
    if !data.is_tall() {
        return Ok(());
    }
    let found = store.find_class(class);
    lower(nodes, data, analysis, alloc, found, value)?;
    rise(store, nodes, data, analysis, alloc)?;
    Ok(())
}
