//! The rows: a call, a type, and the values of the call.
use crate::applied::write_applied;
use crate::elements::{are_copied, write_error};
use crate::entries::Entries;
use crate::equations::write_equation;
use crate::maps::write_maps;
use crate::names::{write_names, write_unknown};
use crate::nested::make_outer;
use crate::nodes::write_answer;
use crate::parts::{are_equal, are_ordered, write_kind};
use crate::reading::{child, elements_of, map_of, node, parted};
use crate::sets::{write_sets, write_steps};
use crate::small_maps;
use crate::texts::{write_pattern, write_term};
use crate::writing::{debugged, write_test};
use slotted_languages::Language;
use slotted_maps::SmallHashMap;
use slotted_slots::{AppliedId, Error, SlotMap, SlotTable, SmallHashSet};
use slotted_small::Small;
use slotted_symbols::SymbolLang;
use std::alloc::{AllocError, Global};

// Writes the answer of a call on the node of these words, which a map may follow.
fn write_on<L: Language>(
    alloc: Global,
    call: &str,
    words: &str,
    table: &mut SlotTable,
    text: &mut String,
) -> Result<(), Error> {
    let (words, map) = parted(words, " by ");
    let m = map_of(alloc, table, map)?;
    let node = node::<L>(alloc, table, words)?;
    write_answer(alloc, call, &node, &m, table, text)
}

// Writes the answer of a call on a node whose scopes end at different places.
fn write_on_outer(
    alloc: Global,
    call: &str,
    words: &str,
    table: &mut SlotTable,
    text: &mut String,
) -> Result<(), Error> {
    let (words, map) = parted(words, " by ");
    let m = map_of(alloc, table, map)?;
    let elements = elements_of(alloc, table, words)?;
    let node = make_outer(alloc, elements.as_slice())?;
    write_answer(alloc, call, &node, &m, table, text)
}

// Writes the answer of a call on an applied id, its map or the values of that, beside a map.
fn write_on_applied(
    alloc: Global,
    call: &str,
    kind: &str,
    applied: &mut AppliedId,
    m: &SlotMap,
    table: &mut SlotTable,
    text: &mut String,
) -> Result<(), Error> {
    match kind {
        "Map" => write_maps(alloc, call, &mut applied.m, m, table, text),
        "Set" => write_sets(alloc, call, &applied.m, m, table, text),
        _ => write_applied(alloc, call, applied, m, table, text),
    }
}

// Writes the answer of a call on an applied id, its map or the values of that, which a map may follow.
fn write_over_maps(
    alloc: Global,
    call: &str,
    kind: &str,
    words: &str,
    table: &mut SlotTable,
    text: &mut String,
) -> Result<(), Error> {
    let (words, map) = parted(words, " by ");
    let m = map_of(alloc, table, map)?;
    let mut applied = child(alloc, table, words)?;
    write_on_applied(alloc, call, kind, &mut applied, &m, table, text)
}

// Writes the answer of a row about slots, sets or maps.
fn write_slots(
    alloc: Global,
    call: &str,
    kind: &str,
    words: &str,
    table: &mut SlotTable,
    text: &mut String,
) -> Result<(), Error> {
    match (call, kind) {
        ("named", _) => write_names(words, table, text),
        ("unknown", _) => write_unknown(alloc, table, text),
        ("steps", "SmallMap") => {
            small_maps::write_steps(&mut SmallHashMap::new(alloc), words, text)
        }
        ("steps", _) => write_steps(&mut SmallHashSet::new(alloc), words, table, text),
        _ => write_over_maps(alloc, call, kind, words, table, text),
    }
}

// Writes the answer of a row about a part of an e-node or about a whole one.
fn write_nodes(
    alloc: Global,
    call: &str,
    kind: &str,
    words: &str,
    table: &mut SlotTable,
    text: &mut String,
) -> Result<(), Error> {
    match (call, kind) {
        ("from_syntax" | "rewrite", _) => write_kind(alloc, kind, words, table, text),
        ("compare", _) => write_test(are_equal::<Small>(alloc, words, table), text),
        ("order", _) => write_test(are_ordered(alloc, words), text),
        (_, "Small") => write_on::<Small>(alloc, call, words, table, text),
        (_, "SymbolLang") => write_on::<SymbolLang>(alloc, call, words, table, text),
        (_, "Outer") => write_on_outer(alloc, call, words, table, text),
        _ => write_slots(alloc, call, kind, words, table, text),
    }
}

// Writes the answer of a row.
fn write_row(
    alloc: Global,
    entries: &mut Entries,
    row: &str,
    table: &mut SlotTable,
    text: &mut String,
) -> Result<(), Error> {
    let (call, rest) = parted(row, " ");
    let (kind, words) = parted(rest, " ");
    match kind {
        "Pattern" => write_pattern(alloc, call, words, table, text),
        "Term" => write_term(alloc, call, words, table, text),
        "Equation" => write_equation(alloc, call, words, table, text),
        "List" => entries.write_answer(alloc, call, words, table, text),
        "Error" => write_error(alloc, words, text),
        "Element" => write_test(are_copied(alloc, words, table), text),
        _ => write_nodes(alloc, call, kind, words, table, text),
    }
}

// Writes the answer of a row over a table of its own. An error stands behind what was written before it.
fn write_told(
    alloc: Global,
    entries: &mut Entries,
    row: &str,
    text: &mut String,
) -> Result<(), AllocError> {
    let mut table = SlotTable::new(alloc);
    match write_row(alloc, entries, row, &mut table, text) {
        Ok(()) => Ok(()),
        Err(error) => debugged(alloc, &error, text),
    }
}

// Returns the answer of a row.
pub fn told(alloc: Global, entries: &mut Entries, row: &str) -> Result<String, AllocError> {
    let mut text = String::new(alloc);
    write_told(alloc, entries, row, &mut text)?;
    Ok(text)
}
