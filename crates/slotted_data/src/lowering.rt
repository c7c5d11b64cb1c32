//! Values that are merged into the data of classes, and go upwards.
ghost use Rattle.std.specs.Prelude.{◌≡◌, ◌<◌, ◌≤◌, ◌*◌, ℕ, suc, [], length, IfOk, IfErr, IfSome, IfNone, None, OnOk, All};
ghost use Rattle.slotted_slots.specs.Error.{IsOutOfMemory};
ghost use Rattle.slotted_model.specs.Correspondence.{AllDifferent};
ghost use Rattle.slotted_model_analyses.specs.DataPart.{HasData};
ghost use Rattle.slotted_classes.specs.Finding.{HasFinds};
ghost use Rattle.slotted_hashcons.specs.Filed.{filed_of};
ghost use Rattle.slotted_hashcons.specs.FiledRows.{rows_in};
ghost use Rattle.slotted_hashcons.specs.WellFiled.{state_in};
ghost use Rattle.slotted_data.specs.Meaning.{by_bare_nodes};
ghost use Rattle.slotted_data.specs.Lowering.{FallsBy, IsReady, Lowers, MakesValue, Puts, RisesTo};
ghost use Rattle.slotted_data.specs.Lowering.{TakesTurns, TakesValue, part_of, quiet};

use crate::Analysis;
use crate::class_data::{ClassData, Taken};
use crate::making::child_data;
use crate::users::wait_each;
use slotted_classes::Store;
use slotted_hashcons::Hashcons;
use slotted_languages::Language;
use slotted_slots::Error;
use std::alloc::Global;

// Sets the data of a class. If the data changes by this, the users of the class are made pending, and the class waits
// to be modified.
pub(crate) fn put_value<L: Language, N: Analysis<L>>(
    nodes: &mut Hashcons<L>,
    data: &mut ClassData<N::Data>,
    class: usize,
    value: N::Data,
) -> Result<(), Error>
    requires { class < length «data».old.values }
    ensures ok { OnOk result (Puts class value nodes.old nodes.new «data».old «data».new) }
    ensures err { IfErr result IsOutOfMemory }
{
    if value == *data.value(class) {
        return Ok(());
    }
    wait_each(nodes, data.users(class))?;
    data.set(class, value)?;
    Ok(())
}

// Merges a value into the data of a class.
pub(crate) fn lower<L: Language, N: Analysis<L>>(
    nodes: &mut Hashcons<L>,
    data: &mut ClassData<N::Data>,
    analysis: &N,
    alloc: Global,
    class: usize,
    value: &N::Data,
) -> Result<(), Error>
    requires { class < length «data».old.values }
    ensures ok { OnOk result (Lowers (N.meaning analysis.now) class value.now nodes.old nodes.new «data».old «data».new) }
    ensures err { IfErr result IsOutOfMemory }
{
    let merged = analysis.merge(alloc, data.value(class), value)?;
    put_value::<L, N>(nodes, data, class, merged)?;
    Ok(())
}

// Returns what the filed e-node of a class makes, if the class has one.
fn value_made<L: Language, N: Analysis<L>>(
    store: &Store<L>,
    nodes: &Hashcons<L>,
    data: &ClassData<N::Data>,
    analysis: &N,
    alloc: Global,
    source: usize,
) -> Result<Option<N::Data>, Error>
    requires good { HasFinds store.now }
    requires ready { IsReady store.now nodes.now «data».now }
    ensures some { IfOk result (λ o. IfSome o
        (MakesValue (N.meaning analysis.now) store.now «data».now.values (filed_of nodes.now.filed source))) }
    ensures none { IfOk result (λ o. IfNone o (filed_of nodes.now.filed source ≡ None)) }
    ensures err { IfErr result IsOutOfMemory }
{
    let Some((key, _)) = nodes.node(source) else {
        return Ok(None);
    };
    let child = child_data(store, data, analysis, alloc, key)?;
    let value = analysis.make(alloc, key, &child)?;
    Ok(Some(value))
}

// Merges what the filed e-node of a class makes into the data of the class that `find` maps it to. Returns by how much
// the height of that data fell. Data of height 0 absorbs every value.
fn take_data<L: Language, N: Analysis<L>>(
    store: &Store<L>,
    nodes: &mut Hashcons<L>,
    data: &mut ClassData<N::Data>,
    analysis: &N,
    alloc: Global,
    source: usize,
) -> Result<u32, Error>
    requires good { HasFinds store.now }
    requires within { source < length store.now.classes }
    requires ready { IsReady store.now nodes.old «data».old }
    requires once { AllDifferent nodes.old.waiting }
    requires changed { AllDifferent «data».old.changed }
    ensures ok { OnOk result
        (TakesValue (by_bare_nodes (N.meaning analysis.now)) store.now source nodes.old nodes.new «data».old «data».new) }
    ensures falls { IfOk result (FallsBy (by_bare_nodes (N.meaning analysis.now)) store.now «data».old «data».new) }
    ensures err { IfErr result IsOutOfMemory }
{
    let class = store.find_class(source);
    let before = analysis.height(data.value(class));
    if before == 0 {
        return Ok(0);
    }
    let Some(value) = value_made(store, nodes, data, analysis, alloc, source)? else {
        return Ok(0);
    };
    lower(nodes, data, analysis, alloc, class, &value)?;
    let after = analysis.height(data.value(class));
    Ok(before - after)
}

// Lets each pending class take what its filed e-node makes, until none is pending.
fn take_turns<L: Language, N: Analysis<L>>(
    store: &Store<L>,
    nodes: &mut Hashcons<L>,
    data: &mut ClassData<N::Data>,
    analysis: &N,
    alloc: Global,
) -> Result<Taken, Error>
    requires good { HasFinds store.now }
    requires ready { IsReady store.now nodes.old «data».old }
    requires has { (x : N.Data) → HasData (by_bare_nodes (N.meaning analysis.now))
        (state_in store.now (quiet nodes.old)) (part_of x «data».old nodes.old.waiting) }
    ensures ok { IfOk result (λ n. TakesTurns
        (by_bare_nodes (N.meaning analysis.now)) store.now nodes.old nodes.new «data».old «data».new n.turns n.fall) }
    ensures few { IfOk result (λ n. n.turns ≤ length (rows_in nodes.old.filed) * suc n.fall) }
    ensures none { OnOk result (nodes.new.waiting ≡ []) }
    ensures err { IfErr result IsOutOfMemory }
{
    let mut turns: u64 = 0;
    let mut fall: u64 = 0;
    while let Some(source) = nodes.front() {
        nodes.leave(source);
        let less = take_data(store, nodes, data, analysis, alloc, source)?;
        turns = turns.saturating_add(1);
        fall = fall.saturating_add(less as u64);
    }
    Ok(Taken { turns, fall })
}

// Lets each pending class take what its filed e-node makes, until none is pending, and notes the turns.
pub(crate) fn rise<L: Language, N: Analysis<L>>(
    store: &Store<L>,
    nodes: &mut Hashcons<L>,
    data: &mut ClassData<N::Data>,
    analysis: &N,
    alloc: Global,
) -> Result<(), Error>
    requires good { HasFinds store.now }
    requires ready { IsReady store.now nodes.old «data».old }
    requires has { (x : N.Data) → HasData (by_bare_nodes (N.meaning analysis.now))
        (state_in store.now (quiet nodes.old)) (part_of x «data».old nodes.old.waiting) }
    ensures ok { OnOk result
        (RisesTo (by_bare_nodes (N.meaning analysis.now)) store.now nodes.old nodes.new «data».old «data».new) }
    ensures err { IfErr result IsOutOfMemory }
{
    let taken = take_turns(store, nodes, data, analysis, alloc)?;
    data.note_turns(nodes.len(), taken, store.rebuild_totals());
    Ok(())
}
