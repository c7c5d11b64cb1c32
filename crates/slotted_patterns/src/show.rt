//! The texts of nodes.
ghost use Rattle.std.specs.Prelude.{◌≡◌, ◌≤◌, ◌++◌, map, string_bytes, slice_index_or, codes, IfOk, OnOk, IfErr};
ghost use Rattle.slotted_slots.specs.Error.{IsOutOfMemory};
ghost use Rattle.slotted_slots.specs.Syntax.{element_of};
ghost use Rattle.slotted_patterns.specs.Shown.{node_text, part_text, width};

use slotted_slots::{Error, Show, SlotTable, SyntaxElem};
use std::alloc::Global;
use std::fmt::Write;

/// Returns the text of a node: its elements as they are written, with the text of each child in its place.
///
/// `_` stands for a child that is missing. One element stands alone. Several elements, or none, stand in round
/// brackets, separated by one space.
pub fn node_text(
    alloc: Global,
    elements: &[SyntaxElem],
    children: &[String],
    table: &SlotTable,
) -> Result<String, Error>
    ensures ok { IfOk result (λ s. string_bytes s
        ≡ node_text table.now (map element_of elements.now) (map string_bytes children.now)) }
    ensures err { IfErr result IsOutOfMemory }
{
    let mut text = String::new(alloc);
    let mut separator = "";
    let mut next = 0;
    for element in elements {
        text.push_str(separator)?;
        push_part(&mut text, element, child_text(children, next), table)?;
        next += child_count(element);
        separator = " ";
    }
    if elements.len() == 1 {
        return Ok(text);
    }
    Ok(format!(in alloc; "({text})")?)
}

// Returns the text of a child, or `_` if there is none.
fn child_text(children: &[String], k: usize) -> &str
    ensures { result.now ≡ slice_index_or (map string_bytes children.now) k (codes "_") }
{
    match children.get(k) {
        Some(child) => child.as_str(),
        None => "_",
    }
}

// Returns how many children stand in the place of an element.
pub(crate) fn child_count(element: &SyntaxElem) -> usize
    ensures count { result ≡ width (element_of element.now) }
    ensures one { result ≤ 1 }
{
    match element {
        SyntaxElem::AppliedId(_) => 1,
        _ => 0,
    }
}

// Appends the text of an element. The child that stands in the place of the element has the text `child`.
pub(crate) fn push_part(
    text: &mut String,
    element: &SyntaxElem,
    child: &str,
    table: &SlotTable,
) -> Result<(), Error>
    ensures ok { OnOk result (string_bytes text.new
        ≡ string_bytes text.old ++ part_text table.now (element_of element.now) child.now) }
    ensures err { IfErr result IsOutOfMemory }
{
    match element {
        SyntaxElem::String(word) => text.push_str(word)?,
        SyntaxElem::AppliedId(_) => text.push_str(child)?,
        SyntaxElem::Slot(slot) => {
            let shown = slot.show(table);
            write!(text, "{shown}")?;
        }
    }
    Ok(())
}
