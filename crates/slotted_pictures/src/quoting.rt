//! Texts inside quoted labels.
ghost use Rattle.std.specs.Prelude.{IfErr};
ghost use Rattle.slotted_slots.specs.Error.{IsOutOfMemory};

use slotted_slots::{AppliedId, Error, Show, Slot, SlotTable};
use std::alloc::Global;
use std::fmt::Write;

// Appends a text, with a backslash before each character that has a meaning in labels.
pub(crate) fn push_quoted(out: &mut String, text: &str) -> Result<(), Error>
    ensures { IfErr result IsOutOfMemory }
{
    for c in text.chars() {
        if matches!(c, '"' | '\\' | '{' | '}' | '|' | '<' | '>' | ' ') {
            out.push('\\')?;
        }
        out.push(c)?;
    }
    Ok(())
}

// Appends a slot by its name.
pub(crate) fn push_slot(
    alloc: Global,
    out: &mut String,
    table: &SlotTable,
    slot: Slot,
) -> Result<(), Error>
    ensures { IfErr result IsOutOfMemory }
{
    let shown = slot.show(table);
    let text = format!(in alloc; "{shown}")?;
    push_quoted(out, &text)
}

// Appends an applied id by its names.
pub(crate) fn push_id(
    alloc: Global,
    out: &mut String,
    table: &SlotTable,
    id: &AppliedId,
) -> Result<(), Error>
    ensures { IfErr result IsOutOfMemory }
{
    let shown = id.show(table);
    let text = format!(in alloc; "{shown}")?;
    push_quoted(out, &text)
}
