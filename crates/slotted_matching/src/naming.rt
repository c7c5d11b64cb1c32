//! Slots as names for the numbers of an answer. A number that is paired with a slot of the pattern has that slot, and
//! each other number a fresh one.
ghost use Rattle.std.specs.Prelude.{◌≡◌, length, IsSome, OnOk, IfErr, IsErrOf};
ghost use Rattle.slotted_theory.specs.FiniteMaps.{value_of};
ghost use Rattle.slotted_slots.specs.Error.{IsShortage};
ghost use Rattle.slotted_slots.specs.Table.{KnowsMore};
ghost use Rattle.slotted_lookup.specs.Filling.{MakesAtMost, RunsOut};
ghost use Rattle.slotted_matching.specs.Naming.{Covers, NamesMore, numbers_of};

use slotted_match_machine::Occurrence;
use slotted_slots::{Error, Slot, SlotTable};

/// Returns the slot that names a number, if there is one.
pub fn name_of(names: &[(usize, Slot)], number: usize) -> Option<Slot>
    ensures { result ≡ value_of names.now number }
{
    for name in names {
        if number == name.0 {
            return Some(name.1);
        }
    }
    None
}

// Gives a number that has no name a fresh slot.
fn name_number(
    names: &mut Vec<(usize, Slot)>,
    table: &mut SlotTable,
    number: usize,
) -> Result<(), Error>
    ensures named { OnOk result (IsSome (value_of names.new.items number)) }
    ensures names { OnOk result (NamesMore table.old names.old.items table.new names.new.items) }
    ensures takes { MakesAtMost 1 table.old table.new }
    ensures more { KnowsMore table.old table.new }
    ensures full { IsErrOf result Error.OutOfSlots → RunsOut 1 table.old table.new }
    ensures err { IfErr result IsShortage }
{
    if name_of(names, number).is_some() {
        return Ok(());
    }
    let slot = table.fresh()?;
    names.push((number, slot))?;
    Ok(())
}

// Gives each number that has no name a fresh slot.
fn name_numbers(
    names: &mut Vec<(usize, Slot)>,
    table: &mut SlotTable,
    numbers: &[usize],
) -> Result<(), Error>
    ensures named { OnOk result (Covers names.new.items numbers.now) }
    ensures names { OnOk result (NamesMore table.old names.old.items table.new names.new.items) }
    ensures takes { MakesAtMost (length numbers.now) table.old table.new }
    ensures more { KnowsMore table.old table.new }
    ensures full { IsErrOf result Error.OutOfSlots → RunsOut (length numbers.now) table.old table.new }
    ensures err { IfErr result IsShortage }
{
    for number in numbers {
        name_number(names, table, *number)?;
    }
    Ok(())
}

/// Gives each number of the occurrences that has no name a fresh slot.
pub fn name_values(
    names: &mut Vec<(usize, Slot)>,
    table: &mut SlotTable,
    values: &[Occurrence],
) -> Result<(), Error>
    ensures named { OnOk result (Covers names.new.items (numbers_of values.now)) }
    ensures names { OnOk result (NamesMore table.old names.old.items table.new names.new.items) }
    ensures takes { MakesAtMost (length (numbers_of values.now)) table.old table.new }
    ensures more { KnowsMore table.old table.new }
    ensures full { IsErrOf result Error.OutOfSlots → RunsOut (length (numbers_of values.now)) table.old table.new }
    ensures err { IfErr result IsShortage }
{
    for value in values {
        name_numbers(names, table, &value.names)?;
    }
    Ok(())
}
