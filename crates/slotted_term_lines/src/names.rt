//! The slots that texts name, and how slots are stored and printed.
use crate::writing::{write_shown, write_test};
use slotted_slots::{Error, Id, Slot, SlotTable};
use std::alloc::Global;

// Writes a slot and whether the table knows it, or the number of an error.
fn write_slot(
    slot: Result<Slot, Error>,
    table: &SlotTable,
    text: &mut String,
) -> Result<(), Error> {
    match slot {
        Ok(slot) => {
            write_shown(&slot, table, text)?;
            write_test(Ok(table.knows(slot)), text)?;
        }
        Err(error) => {
            let number = error.number();
            write!(text, "{number}")?;
        }
    }
    Ok(text.push_str(", ")?)
}

// Writes the slots of these names, a fresh one, and `$9`.
pub(crate) fn write_names(
    names: &str,
    table: &mut SlotTable,
    text: &mut String,
) -> Result<(), Error> {
    for name in names.split_whitespace() {
        write_slot(table.named(name), table, text)?;
    }
    write_slot(table.fresh(), table, text)?;
    write_slot(table.numeric(9), table, text)
}

// Writes a name of another table, how `$3` is stored, and an id.
pub(crate) fn write_unknown(
    alloc: Global,
    table: &SlotTable,
    text: &mut String,
) -> Result<(), Error> {
    write_slot(SlotTable::new(alloc).named("a"), table, text)?;
    let (raw, id) = (Slot::numeric_at(3).raw(), Id(5));
    Ok(write!(text, "{raw} {id:?}")?)
}
