//! The calls on slot maps, and their answers.
use crate::writing::{write_list, write_set, write_shown, write_test};
use slotted_slots::{Error, Slot, SlotMap, SlotTable};
use std::alloc::Global;

// Returns two pairs of one key, and one of another.
fn pairs() -> [(Slot, Slot); 3] {
    let zero = Slot::numeric_at(0);
    let three = Slot::numeric_at(3);
    [(three, zero), (zero, three), (three, three)]
}

// Returns the inverse of a map that has one, or else a permutation after itself.
fn turned(alloc: Global, call: &str, map: &SlotMap) -> Result<SlotMap, Error> {
    if call == "inverse" && map.is_bijection() {
        map.inverse(alloc)
    } else if map.is_perm() {
        map.compose(alloc, map)
    } else {
        Err(Error::NotEqual)
    }
}

// Returns the map that is listed from this one, or from pairs.
fn listed(alloc: Global, call: &str, map: &SlotMap) -> Result<SlotMap, Error> {
    match call {
        "copy" => map.copy(alloc),
        "clone" => Ok(map.clone()?),
        "union" => map.union(alloc, &SlotMap::new(alloc)),
        "from_iterator" => SlotMap::from_iterator(alloc, map.copy(alloc)?.into_iter()),
        "from_pairs" => SlotMap::from_pairs(alloc, &pairs()),
        "from_array" => SlotMap::from_array(alloc, pairs()),
        _ => turned(alloc, call, map),
    }
}

// Returns the map that a call makes of two.
fn made(
    alloc: Global,
    call: &str,
    first: &SlotMap,
    second: &SlotMap,
    table: &mut SlotTable,
) -> Result<SlotMap, Error> {
    match call {
        "compose_partial" => first.compose_partial(alloc, second),
        "compose_fresh" => first.compose_fresh(alloc, second, table),
        "try_union" => first.try_union(alloc, second)?.ok_or(Error::NotEqual),
        "identity" => SlotMap::identity(alloc, &first.values(alloc)?),
        "bijection_from_fresh_to" => {
            SlotMap::bijection_from_fresh_to(alloc, &first.keys(alloc)?, table)
        }
        _ => listed(alloc, call, first),
    }
}

// Writes the second one, and a `=` if it equals the first.
fn write_beside(
    first: &SlotMap,
    second: &SlotMap,
    table: &SlotTable,
    text: &mut String,
) -> Result<(), Error> {
    write_shown(second, table, text)?;
    Ok(text.push_str(if second == first { "=" } else { "" })?)
}

// Writes the pairs of a map, one after the other.
fn write_pairs(map: &SlotMap, table: &SlotTable, text: &mut String) -> Result<(), Error> {
    for (key, value) in map.iter() {
        write_shown(&key, table, text)?;
        write_shown(&value, table, text)?;
    }
    Ok(())
}

fn write_values(map: &SlotMap, table: &SlotTable, text: &mut String) -> Result<(), Error> {
    for value in map.values_immut() {
        write_shown(&value, table, text)?;
    }
    Ok(())
}

// Writes two of the values of a map of three keys, and one of them after `$3` has come in its place. Then writes
// whether that value is there when its key is removed.
fn write_changes(map: &mut SlotMap, table: &SlotTable, text: &mut String) -> Result<(), Error> {
    let three = Slot::numeric_at(3);
    if map.len() != 3 {
        return Err(Error::NotEqual);
    }
    write_shown(&map.get(three).unwrap_or(three), table, text)?;
    write_shown(&map.value_at(1), table, text)?;
    map.set_value_at(1, three);
    write_shown(&map.get(three).unwrap_or_default(), table, text)?;
    map.remove(three);
    write_test(Ok(map.contains_key(three)), text)
}

fn holds(call: &str, map: &SlotMap) -> bool {
    match call {
        "is_bijection" => map.is_bijection(),
        "is_perm" => map.is_perm(),
        _ => map.is_empty(),
    }
}

// Writes the answer of a call on two maps. The first may be changed.
pub(crate) fn write_maps(
    alloc: Global,
    call: &str,
    first: &mut SlotMap,
    second: &SlotMap,
    table: &mut SlotTable,
    text: &mut String,
) -> Result<(), Error> {
    match call {
        "keys" => write_set(first.keys(alloc), table, text),
        "keys_vec" => write_list(first.keys_vec(alloc), table, text),
        "values_vec" => write_list(first.values_vec(alloc), table, text),
        "values_immut" => write_values(first, table, text),
        "iter" => write_pairs(first, table, text),
        "changes" => write_changes(first, table, text),
        _ if call.starts_with("is_") => write_test(Ok(holds(call, first)), text),
        _ => {
            let made = made(alloc, call, first, second, table)?;
            write_beside(first, &made, table, text)
        }
    }
}
