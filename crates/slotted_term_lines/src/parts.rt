//! The parts of nodes and their payloads: how they are read and written, their places and their children.
ghost use Rattle.std.specs.Prelude.{◌<◌, length};
ghost use Rattle.slotted_nodes.specs.Form.{IsSmall};

use crate::reading::{element, parted, read};
use crate::writing::write_elements;
use slotted_languages::{Bind, LanguageChildren, ReadBack, Symbol};
use slotted_slots::{AppliedId, Error, Slot, SlotTable, SyntaxElem};
use slotted_small::Small;
use slotted_symbols::SymbolLang;
use std::alloc::Global;

// Returns whether the elements write this part.
fn is_read_from<L: LanguageChildren>(
    alloc: Global,
    elements: &[SyntaxElem],
    part: &L,
) -> Result<bool, Error> {
    Ok(L::from_syntax(alloc, elements)?.as_ref() == Some(part))
}

// Writes a part as elements, and a bar if these read as the same part.
fn write_syntax<L: ReadBack>(
    alloc: Global,
    part: &L,
    table: &SlotTable,
    text: &mut String,
) -> Result<(), Error> {
    let elements = part.to_syntax(alloc)?;
    write_elements(elements.as_slice(), table, text)?;
    if is_read_from(alloc, elements.as_slice(), part)? {
        text.push('|')?;
    }
    Ok(())
}

// Writes a place: its slot, then the end of its scope for a binder, then a `!` if the place is public.
fn write_place<L: LanguageChildren>(part: &L, i: usize, text: &mut String) -> Result<(), Error>
    requires small { IsSmall (L.form part.now) }
    requires within { i < length (L.form part.now).names }
{
    let number = part.slot(i).raw() / 4;
    write!(text, " {number}")?;
    if let Some(end) = part.scope_end(i) {
        write!(text, "..{end}")?;
    }
    if part.is_public(i) {
        text.push('!')?;
    }
    Ok(())
}

// Writes the places, and the children with the first place of each.
fn write_places<L: LanguageChildren>(part: &L, text: &mut String) -> Result<(), Error> {
    let count = part.slot_count();
    if count >= 1 << 30 {
        return Err(Error::OutOfSlots);
    }
    for i in 0..count {
        write_place(part, i, text)?;
    }
    text.push_str(" |")?;
    for k in 0..part.applied_id_count() {
        let id = part.applied_id(k).id.0;
        let first = part.applied_id_place(k);
        write!(text, " {id}@{first}")?;
    }
    Ok(())
}

// Writes a part: its elements, its places and its children.
fn write_part<L: ReadBack>(
    alloc: Global,
    part: &L,
    table: &SlotTable,
    text: &mut String,
) -> Result<(), Error> {
    write_syntax(alloc, part, table, text)?;
    write_places(part, text)
}

// Puts a slot at a place, if the part has the place.
fn put_slot<L: LanguageChildren>(part: &mut L, i: usize, slot: Slot) {
    if i < part.slot_count() {
        part.set_slot(i, slot);
    }
}

// Puts a slot or a child in its place, for `place=$5` or `place=#7:8`.
fn put<L: LanguageChildren>(
    alloc: Global,
    part: &mut L,
    words: &str,
    table: &mut SlotTable,
) -> Result<(), Error> {
    let (place, value) = parted(words, "=");
    let place = place.parse::<usize>().unwrap_or(0);
    match element(alloc, table, value)? {
        SyntaxElem::Slot(slot) => put_slot(part, place, slot),
        SyntaxElem::AppliedId(child) if part.get_applied_id(place).is_some() => {
            part.set_applied_id(place, child);
        }
        _ => {}
    }
    Ok(())
}

// Puts slots and children in their places, one after another.
fn rewrite<L: LanguageChildren>(
    alloc: Global,
    part: &mut L,
    words: &str,
    table: &mut SlotTable,
) -> Result<(), Error> {
    for words in words.split_whitespace() {
        put(alloc, part, words, table)?;
    }
    Ok(())
}

// Writes a copy of the part of the words, in which slots and children may be replaced first, or `none`.
fn part<L: ReadBack>(
    alloc: Global,
    words: &str,
    table: &mut SlotTable,
    text: &mut String,
) -> Result<(), Error> {
    let (words, others) = parted(words, " by ");
    let Some(mut part) = read::<L>(alloc, table, words)? else {
        return Ok(text.push_str("none")?);
    };
    rewrite(alloc, &mut part, others, table)?;
    write_part(alloc, &part.copy(alloc)?, table, text)
}

// Writes the part of an integer type.
fn write_number(
    alloc: Global,
    kind: &str,
    words: &str,
    table: &mut SlotTable,
    text: &mut String,
) -> Result<(), Error> {
    match kind {
        "u8" => part::<u8>(alloc, words, table, text),
        "u16" => part::<u16>(alloc, words, table, text),
        "u32" => part::<u32>(alloc, words, table, text),
        "u64" => part::<u64>(alloc, words, table, text),
        "u128" => part::<u128>(alloc, words, table, text),
        "usize" => part::<usize>(alloc, words, table, text),
        "i8" => part::<i8>(alloc, words, table, text),
        "i16" => part::<i16>(alloc, words, table, text),
        "i32" => part::<i32>(alloc, words, table, text),
        "i64" => part::<i64>(alloc, words, table, text),
        "i128" => part::<i128>(alloc, words, table, text),
        "isize" => part::<isize>(alloc, words, table, text),
        _ => Ok(text.push_str("no type")?),
    }
}

// Writes the part of a type of the words.
pub(crate) fn write_kind(
    alloc: Global,
    kind: &str,
    words: &str,
    table: &mut SlotTable,
    text: &mut String,
) -> Result<(), Error> {
    match kind {
        "Small" => part::<Small>(alloc, words, table, text),
        "Slot" => part::<Slot>(alloc, words, table, text),
        "AppliedId" => part::<AppliedId>(alloc, words, table, text),
        "Bind" => part::<Bind<AppliedId>>(alloc, words, table, text),
        "Bind2" => part::<Bind<Bind<AppliedId>>>(alloc, words, table, text),
        "SymbolLang" => part::<SymbolLang>(alloc, words, table, text),
        "Symbol" => part::<Symbol>(alloc, words, table, text),
        "bool" => part::<bool>(alloc, words, table, text),
        "char" => part::<char>(alloc, words, table, text),
        _ => write_number(alloc, kind, words, table, text),
    }
}

// Returns whether the words beside a `=` write equal parts.
pub(crate) fn are_equal<L: LanguageChildren>(
    alloc: Global,
    words: &str,
    table: &mut SlotTable,
) -> Result<bool, Error> {
    let (one, other) = parted(words, " = ");
    let one = read::<L>(alloc, table, one)?;
    let other = read::<L>(alloc, table, other)?;
    Ok(one == other)
}

// Returns whether the symbols of the words beside a `<` are in this order.
pub(crate) fn are_ordered(alloc: Global, words: &str) -> Result<bool, Error> {
    let (one, other) = parted(words, " < ");
    let one = Symbol::from_text(alloc, one)?;
    let other = Symbol::from_text(alloc, other)?;
    Ok(one < other)
}
