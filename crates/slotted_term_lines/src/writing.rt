//! The texts of answers. An answer is handed over as the call gave it, so that its error is looked at here alone.
use slotted_languages::Language;
use slotted_slots::{
    AppliedId, Error, Id, Show, Slot, SlotMap, SlotTable, SmallHashSet, SyntaxElem,
};
use std::alloc::{AllocError, Global};
use std::fmt::Debug;

// The derived form of `AppliedId::null`.
const NULL: &str = "AppliedId { id: id0, m: SlotMap { pairs: [] } }";

// Writes the derived form of a value, with `_` for each null id.
pub(crate) fn debugged<T: Debug>(
    alloc: Global,
    value: &T,
    text: &mut String,
) -> Result<(), AllocError> {
    let derived = format!(in alloc; "{value:?}")?;
    let derived = derived.replace(alloc, NULL, "_")?;
    text.push_str(&derived)
}

pub(crate) fn write_test(holds: Result<bool, Error>, text: &mut String) -> Result<(), Error> {
    Ok(text.push_str(if holds? { "yes" } else { "no" })?)
}

// Writes the derived form of a value, as above.
pub(crate) fn write_derived<T: Debug>(
    alloc: Global,
    value: &T,
    text: &mut String,
) -> Result<(), Error> {
    Ok(debugged(alloc, value, text)?)
}

// Writes the derived form of a value over several lines.
pub(crate) fn write_lines<T: Debug>(value: &T, text: &mut String) -> Result<(), Error> {
    Ok(write!(text, "{value:#?}")?)
}

pub(crate) fn write_text(written: Result<String, Error>, text: &mut String) -> Result<(), Error> {
    Ok(text.push_str(&written?)?)
}

// Writes a value as it prints, and a space.
pub(crate) fn write_shown<T: Show>(
    value: &T,
    table: &SlotTable,
    text: &mut String,
) -> Result<(), Error> {
    let shown = value.show(table);
    Ok(write!(text, "{shown} ")?)
}

pub(crate) fn write_answered<T: Show + Drop>(
    value: Result<T, Error>,
    table: &SlotTable,
    text: &mut String,
) -> Result<(), Error> {
    write_shown(&value?, table, text)
}

fn write_slots(slots: &[Slot], table: &SlotTable, text: &mut String) -> Result<(), Error> {
    for slot in slots {
        write_shown(slot, table, text)?;
    }
    Ok(())
}

pub(crate) fn write_list(
    slots: Result<Vec<Slot>, Error>,
    table: &SlotTable,
    text: &mut String,
) -> Result<(), Error> {
    write_slots(slots?.as_slice(), table, text)
}

pub(crate) fn write_set(
    slots: Result<SmallHashSet<Slot>, Error>,
    table: &SlotTable,
    text: &mut String,
) -> Result<(), Error> {
    write_slots(slots?.as_slice(), table, text)
}

// Writes the slots at the places of a node.
pub(crate) fn write_node<L: Language>(
    alloc: Global,
    node: Result<L, Error>,
    table: &SlotTable,
    text: &mut String,
) -> Result<(), Error> {
    write_list(node?.all_slot_occurrences(alloc), table, text)
}

// Writes the slots at the places of a node, and its map as `[$0 -> $8, $1 -> $9]`.
pub(crate) fn write_shape<L: Language>(
    alloc: Global,
    numbered: &L,
    free: &SlotMap,
    table: &SlotTable,
    text: &mut String,
) -> Result<(), Error> {
    write_list(numbered.all_slot_occurrences(alloc), table, text)?;
    write_shown(free, table, text)
}

pub(crate) fn write_ids(ids: &[Id], text: &mut String) -> Result<(), Error> {
    for id in ids {
        let number = id.0;
        write!(text, "{number} ")?;
    }
    Ok(())
}

// Writes children, as `id7[$0 -> $8]`.
pub(crate) fn write_children(
    children: &[&AppliedId],
    table: &SlotTable,
    text: &mut String,
) -> Result<(), Error> {
    for child in children {
        write_shown(*child, table, text)?;
    }
    Ok(())
}

// Writes an element: of a child its id alone.
fn write_element(element: &SyntaxElem, table: &SlotTable, text: &mut String) -> Result<(), Error> {
    match element {
        SyntaxElem::String(word) => Ok(write!(text, "{word} ")?),
        SyntaxElem::Slot(slot) => write_shown(slot, table, text),
        SyntaxElem::AppliedId(child) => {
            let number = child.id.0;
            Ok(write!(text, "#{number} ")?)
        }
    }
}

pub(crate) fn write_elements(
    elements: &[SyntaxElem],
    table: &SlotTable,
    text: &mut String,
) -> Result<(), Error> {
    for element in elements {
        write_element(element, table, text)?;
    }
    Ok(())
}
