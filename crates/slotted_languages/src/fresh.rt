//! Fresh slots in place of a node's names.
ghost use Rattle.std.specs.Prelude.{◌≡◌, [], ◌∷◌, IfOk, IfErr, OnOk, IsErrOf};
ghost use Rattle.slotted_slots.specs.Ascending.{IsAscending};
ghost use Rattle.slotted_slots.specs.Error.{IsOutOfMemory, IsShortage};
ghost use Rattle.slotted_slots.specs.Maps.{values};
ghost use Rattle.slotted_slots.specs.Table.{KnowsMore, Takes};
ghost use Rattle.slotted_nodes.specs.Form.{IsSmall};
ghost use Rattle.slotted_languages.specs.Fresh.{HasThoseOutside, HasThoseWithin, IsAtHand, IsFilled, KeepsAll, ValuesAreIn};
ghost use Rattle.slotted_languages.specs.Fresh.{LacksEach, LacksOne, TakesEach, TakesOne, with_replaced};
ghost use Rattle.slotted_languages.specs.NewNames.{IsRefreshedAt, LacksPerPlace, PutsIn, StandsIn, TakesPerPlace};

use crate::language::Language;
use crate::renaming::fresh_apart;
use slotted_slots::{Error, Slot, SlotMap, SlotTable, SmallHashSet};
use std::alloc::Global;

// Returns the names of the node that are in the set.
pub(crate) fn names_within<L: Language>(
    node: &L,
    alloc: Global,
    set: &SmallHashSet<Slot>,
) -> Result<SmallHashSet<Slot>, Error>
    requires small { IsSmall (L.form node.now) }
    ensures ok { IfOk result (λ s. HasThoseWithin s (L.form node.now).names set.now) }
    ensures err { IfErr result IsOutOfMemory }
{
    let mut within = SmallHashSet::new(alloc);
    for i in 0..node.slot_count() {
        let name = node.slot(i);
        if set.contains(&name) {
            within.insert(name)?;
        }
    }
    Ok(within)
}

// Returns the names of the node that are not in the set.
pub(crate) fn names_outside<L: Language>(
    node: &L,
    alloc: Global,
    set: &SmallHashSet<Slot>,
) -> Result<SmallHashSet<Slot>, Error>
    requires small { IsSmall (L.form node.now) }
    ensures ok { IfOk result (λ s. HasThoseOutside s (L.form node.now).names set.now) }
    ensures err { IfErr result IsOutOfMemory }
{
    let mut outside = SmallHashSet::new(alloc);
    for i in 0..node.slot_count() {
        let name = node.slot(i);
        if !set.contains(&name) {
            outside.insert(name)?;
        }
    }
    Ok(outside)
}

// Gives a fresh slot to a name that the map lacks.
fn fill_name<L: Language>(
    node: &L,
    name: Slot,
    avoid: &SmallHashSet<Slot>,
    names: &mut SlotMap,
    table: &mut SlotTable,
) -> Result<(), Error>
    requires small { IsSmall (L.form node.now) }
    ensures ok { OnOk result (IsFilled table.old table.new (L.form node.now).names (name ∷ []) names.old names.new) }
    ensures grown { OnOk result (KeepsAll (values names.old) (values names.new)) }
    ensures taken { OnOk result (Takes table.old table.new (IsAtHand avoid.now names.new (L.form node.now))) }
    ensures count { TakesOne avoid.now names.old (L.form node.now) table.old table.new }
    ensures full { IsErrOf result Error.OutOfSlots →
        LacksOne avoid.now names.old (L.form node.now) table.old table.new }
    ensures values { OnOk result (ValuesAreIn table.new (values names.old) names.new) }
    ensures only { IfErr result IsShortage }
    ensures more { KnowsMore table.old table.new }
    ensures kept { table.new.names ≡ table.old.names }
{
    if names.contains_key(name) {
        return Ok(());
    }
    let new = fresh_apart(node, names, avoid, table)?;
    names.insert(name, new)?;
    Ok(())
}

// Gives a fresh slot to each of some names that the map lacks.
pub(crate) fn fill_names<L: Language>(
    node: &L,
    wanted: &SmallHashSet<Slot>,
    names: &mut SlotMap,
    table: &mut SlotTable,
) -> Result<(), Error>
    requires small { IsSmall (L.form node.now) }
    ensures ok { OnOk result (IsFilled table.old table.new (L.form node.now).names wanted.now names.old names.new) }
    ensures taken { OnOk result (Takes table.old table.new (IsAtHand wanted.now names.new (L.form node.now))) }
    ensures sorted { IsAscending wanted.now }
    ensures count { TakesEach wanted.now names.old (L.form node.now) table.old table.new }
    ensures full { IsErrOf result Error.OutOfSlots →
        LacksEach wanted.now names.old (L.form node.now) table.old table.new }
    ensures only { IfErr result IsShortage }
    ensures more { KnowsMore table.old table.new }
    ensures kept { table.new.names ≡ table.old.names }
{
    for name in wanted.as_slice() {
        fill_name(node, *name, wanted, names, table)?;
    }
    Ok(())
}

// Returns the node with the values of a map in place of its keys.
pub(crate) fn replace_names<L: Language>(
    node: &L,
    alloc: Global,
    names: &SlotMap,
) -> Result<L, Error>
    requires small { IsSmall (L.form node.now) }
    ensures ok { IfOk result (λ r. L.form r ≡ with_replaced names.now (L.form node.now)) }
    ensures err { IfErr result IsOutOfMemory }
{
    let mut answer = node.copy(alloc)?;
    for i in 0..node.slot_count() {
        let name = node.slot(i);
        answer.set_slot(i, names.get(name).unwrap_or(name));
    }
    Ok(answer)
}

// Returns the node with a fresh slot for each of some names of its own.
pub(crate) fn refresh_names<L: Language>(
    node: &L,
    alloc: Global,
    wanted: &SmallHashSet<Slot>,
    table: &mut SlotTable,
) -> Result<L, Error>
    requires small { IsSmall (L.form node.now) }
    requires own { KeepsAll wanted.now (L.form node.now).names }
    ensures ok { IfOk result (λ r. IsRefreshedAt table.old wanted.now (L.form node.now) (L.form r)) }
    ensures known { IfOk result (λ r. PutsIn table.new [] (L.form node.now) (L.form r)) }
    ensures taken { IfOk result (λ r. Takes table.old table.new (StandsIn (L.form node.now) (L.form r))) }
    ensures count { TakesPerPlace [] (L.form node.now) table.old table.new }
    ensures full { IsErrOf result Error.OutOfSlots → LacksPerPlace [] (L.form node.now) table.old table.new }
    ensures only { IfErr result IsShortage }
    ensures more { KnowsMore table.old table.new }
    ensures kept { table.new.names ≡ table.old.names }
{
    let mut names = SlotMap::new(alloc);
    fill_names(node, wanted, &mut names, table)?;
    replace_names(node, alloc, &names)
}
