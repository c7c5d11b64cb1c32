//! Renaming of nodes without capture: a bound slot is refreshed if a new free name would meet it.
ghost use Rattle.std.specs.Prelude.{◌≡◌, ℕ, [], true, false, Some, None, IsSome, IfOk, IfErr, OnOk, IsErrOf, IsOkUnless};
ghost use Rattle.slotted_slots.specs.Error.{IsOutOfMemory, IsShortage};
ghost use Rattle.slotted_slots.specs.Maps.{IsInEither, KnowsAll, is_among, keys, value_of, values};
ghost use Rattle.slotted_slots.specs.Table.{KnowsMore, Takes, is_known};
ghost use Rattle.slotted_nodes.specs.Form.{IsSmall};
ghost use Rattle.slotted_languages.specs.Children.{NoneFreeAndBound};
ghost use Rattle.slotted_languages.specs.Fresh.{IsAtHand, IsOrAtHand, KeepsAll, LacksOne, TakesOne};
ghost use Rattle.slotted_languages.specs.NewNames.{BindersAreNew, BindersAreUnknown, BindersDiffer, BindersMeetAsBefore};
ghost use Rattle.slotted_languages.specs.NewNames.{BindersStay, IsRenamedBy, IsTooLarge, LacksPerBinder, PutsIn, StandsIn};
ghost use Rattle.slotted_languages.specs.NewNames.{TakesPerBinder};
ghost use Rattle.slotted_languages.specs.NodeTerm.{nameless_node, free_names_of};
ghost use Rattle.slotted_languages.specs.Shape.{shape};
ghost use Rattle.slotted_languages.specs.Renaming.{HasName, IsAvoidedOr, IsChoice, IsEntered, LacksForBinders, RenamesAs, TakesForBinders};

use crate::language::Language;
use slotted_slots::{Error, Slot, SlotMap, SlotTable, SmallHashSet};
use std::alloc::Global;

// Returns whether some place of the node has the name.
fn has_name<L: Language>(node: &L, name: Slot) -> bool
    requires small { IsSmall (L.form node.now) }
    ensures { result ≡ is_among name (L.form node.now).names }
{
    for i in 0..node.slot_count() {
        if node.slot(i) == name {
            return true;
        }
    }
    false
}

// Returns a fresh slot that is no name of the node, no value of the map, and not to be avoided.
pub(crate) fn fresh_apart<L: Language>(
    node: &L,
    names: &SlotMap,
    avoid: &SmallHashSet<Slot>,
    table: &mut SlotTable,
) -> Result<Slot, Error>
    requires small { IsSmall (L.form node.now) }
    ensures node { IfOk result (λ s. is_among s (L.form node.now).names ≡ false) }
    ensures names { IfOk result (λ s. is_among s (values names.now) ≡ false) }
    ensures avoid { IfOk result (λ s. is_among s avoid.now ≡ false) }
    ensures unused { IfOk result (λ s. is_known table.old s ≡ false) }
    ensures known { IfOk result (λ s. is_known table.new s ≡ true) }
    ensures taken { IfOk result (λ s. Takes table.old table.new (IsOrAtHand s avoid.now names.now (L.form node.now))) }
    ensures count { TakesOne avoid.now names.now (L.form node.now) table.old table.new }
    ensures full { IsErrOf result Error.OutOfSlots →
        LacksOne avoid.now names.now (L.form node.now) table.old table.new }
    ensures only { IsOkUnless result Error.OutOfSlots }
    ensures more { KnowsMore table.old table.new }
    ensures kept { table.new.names ≡ table.old.names }
{
    loop {
        let slot = table.fresh()?;
        if !avoid.contains(&slot) && !names.has_value(slot) && !has_name(node, slot) {
            return Ok(slot);
        }
    }
}

// Returns a new name for a number that has none: its free name, or the binder's own name if that is not to be
// avoided. Else the name is fresh.
fn choose_name<L: Language>(
    node: &L,
    name: Slot,
    number: Slot,
    free: &SlotMap,
    avoid: &SmallHashSet<Slot>,
    names: &SlotMap,
    table: &mut SlotTable,
) -> Result<Slot, Error>
    requires small { IsSmall (L.form node.now) }
    ensures ok { IfOk result (IsChoice table.old table.new (L.form node.now).names
        avoid.now free.now names.now number name) }
    ensures taken { IfOk result (λ s. Takes table.old table.new (IsOrAtHand s avoid.now names.now (L.form node.now))) }
    ensures count { TakesOne avoid.now names.now (L.form node.now) table.old table.new }
    ensures full { IsErrOf result Error.OutOfSlots →
        LacksOne avoid.now names.now (L.form node.now) table.old table.new }
    ensures spared { IsSome (value_of free.now number) → table.new ≡ table.old }
    ensures needed { IsErrOf result Error.OutOfSlots → value_of free.now number ≡ None }
    ensures only { IsOkUnless result Error.OutOfSlots }
    ensures more { KnowsMore table.old table.new }
    ensures kept { table.new.names ≡ table.old.names }
{
    if let Some(new) = free.get(number) {
        return Ok(new);
    }
    if !avoid.contains(&name) {
        return Ok(name);
    }
    fresh_apart(node, names, avoid, table)
}

// Returns the new name of a number, and enters it in the map.
fn new_name<L: Language>(
    node: &L,
    name: Slot,
    number: Slot,
    free: &SlotMap,
    avoid: &SmallHashSet<Slot>,
    names: &mut SlotMap,
    table: &mut SlotTable,
) -> Result<Slot, Error>
    requires small { IsSmall (L.form node.now) }
    ensures ok { IfOk result (IsEntered table.old table.new (L.form node.now).names
        avoid.now free.now names.old names.new number name) }
    ensures taken { IfOk result (λ _. Takes table.old table.new (IsAtHand avoid.now names.new (L.form node.now))) }
    ensures count { TakesOne avoid.now names.old (L.form node.now) table.old table.new }
    ensures full { IsErrOf result Error.OutOfSlots →
        LacksOne avoid.now names.old (L.form node.now) table.old table.new }
    ensures spared { HasName names.old free.now number → table.new ≡ table.old }
    ensures needed { IsErrOf result Error.OutOfSlots → ¬ (HasName names.old free.now number) }
    ensures only { IfErr result IsShortage }
    ensures more { KnowsMore table.old table.new }
    ensures kept { table.new.names ≡ table.old.names }
{
    if let Some(new) = names.get(number) {
        return Ok(new);
    }
    let new = choose_name(node, name, number, free, avoid, names, table)?;
    names.insert(number, new)?;
    Ok(new)
}

// Returns the node with new names. `free` has those for the numbers of free names in its shape `numbered`, and a
// bound slot that is in `avoid` is refreshed.
pub(crate) fn rename<L: Language>(
    node: &L,
    mut numbered: L,
    alloc: Global,
    free: &SlotMap,
    avoid: &SmallHashSet<Slot>,
    table: &mut SlotTable,
) -> Result<L, Error>
    requires small { IsSmall (L.form node.now) }
    requires numbered { L.form numbered ≡ (shape (L.form node.now)).0 }
    requires free { keys free.now ≡ keys (shape (L.form node.now)).1 }
    requires avoided { (n z : ℕ) → value_of free.now n ≡ Some z → is_among z avoid.now ≡ true }
    ensures renamed { IfOk result (λ r. RenamesAs table.old table.new free.now avoid.now (L.form node.now) (L.form r)) }
    ensures taken { IfOk result (λ r. Takes table.old table.new (IsAvoidedOr avoid.now (L.form node.now) (L.form r))) }
    ensures count { TakesForBinders avoid.now (L.form node.now) table.old table.new }
    ensures full { IsErrOf result Error.OutOfSlots → LacksForBinders avoid.now (L.form node.now) table.old table.new }
    ensures only { IfErr result IsShortage }
    ensures more { KnowsMore table.old table.new }
    ensures kept { table.new.names ≡ table.old.names }
{
    let mut names = SlotMap::new(alloc);
    for i in 0..node.slot_count() {
        let name = node.slot(i);
        let number = numbered.slot(i);
        let new = new_name(node, name, number, free, avoid, &mut names, table)?;
        numbered.set_slot(i, new);
    }
    Ok(numbered)
}

// Adds all names of the node to the set.
pub(crate) fn add_names<L: Language>(node: &L, set: &mut SmallHashSet<Slot>) -> Result<(), Error>
    requires small { IsSmall (L.form node.now) }
    ensures kept { OnOk result (KeepsAll set.old set.new) }
    ensures added { OnOk result (KeepsAll (L.form node.now).names set.new) }
    ensures within { OnOk result ((x : ℕ) → is_among x set.new ≡ true → IsInEither set.old (L.form node.now).names x) }
    ensures only { IfErr result IsOutOfMemory }
{
    for i in 0..node.slot_count() {
        set.insert(node.slot(i))?;
    }
    Ok(())
}

/// Returns the node with its free slots renamed by `m`, as `Language::apply_slotmap` does.
pub(crate) fn rename_apart<L: Language>(
    node: &L,
    alloc: Global,
    m: &SlotMap,
    table: &mut SlotTable,
) -> Result<L, Error>
    requires { KnowsAll m.now (free_names_of (L.form node.now)) }
    ensures renamed { IfOk result (λ r. IsRenamedBy m.now (L.form node.now) (L.form r)) }
    ensures stays { IfOk result (λ r. BindersStay (L.form node.now) (L.form r)) }
    ensures checked { IfOk result (λ r. NoneFreeAndBound (L.form r)) }
    ensures known { IfOk result (λ r. PutsIn table.new (values m.now) (L.form node.now) (L.form r)) }
    ensures taken { IfOk result (λ r. Takes table.old table.new (StandsIn (L.form node.now) (L.form r))) }
    ensures large { IsTooLarge (L.form node.now) → IsErrOf result Error.OutOfSlots }
    ensures count { TakesPerBinder m.now (L.form node.now) table.old table.new }
    ensures full { IsErrOf result Error.OutOfSlots → LacksPerBinder m.now (L.form node.now) table.old table.new }
    ensures only { IfErr result IsShortage }
    ensures more { KnowsMore table.old table.new }
    ensures kept { table.new.names ≡ table.old.names }
{
    let (numbered, free) = node.weak_shape(alloc)?;
    let names = free.compose_partial(alloc, m)?;
    let avoid = names.values(alloc)?;
    rename(node, numbered, alloc, &names, &avoid, table)
}

/// Returns the node with a fresh slot for each binder, as `Language::refresh_private` does.
pub(crate) fn refresh_binders<L: Language>(
    node: &L,
    alloc: Global,
    table: &mut SlotTable,
) -> Result<L, Error>
    ensures same { IfOk result (λ r. nameless_node (L.form r) ≡ nameless_node (L.form node.now)) }
    ensures fresh { IfOk result (λ r. BindersAreNew (L.form node.now) (L.form r)) }
    ensures unused { IfOk result (λ r. BindersAreUnknown table.old (L.form node.now) (L.form r)) }
    ensures apart { IfOk result (λ r. BindersDiffer (L.form node.now) (L.form r)) }
    ensures differ { IfOk result (λ r. BindersMeetAsBefore (L.form node.now) (L.form r)) }
    ensures checked { IfOk result (λ r. NoneFreeAndBound (L.form r)) }
    ensures known { IfOk result (λ r. PutsIn table.new [] (L.form node.now) (L.form r)) }
    ensures taken { IfOk result (λ r. Takes table.old table.new (StandsIn (L.form node.now) (L.form r))) }
    ensures large { IsTooLarge (L.form node.now) → IsErrOf result Error.OutOfSlots }
    ensures count { TakesPerBinder [] (L.form node.now) table.old table.new }
    ensures full { IsErrOf result Error.OutOfSlots → LacksPerBinder [] (L.form node.now) table.old table.new }
    ensures only { IfErr result IsShortage }
    ensures more { KnowsMore table.old table.new }
    ensures kept { table.new.names ≡ table.old.names }
{
    let (numbered, free) = node.weak_shape(alloc)?;
    let mut avoid = free.values(alloc)?;
    add_names(node, &mut avoid)?;
    rename(node, numbered, alloc, &free, &avoid, table)
}
