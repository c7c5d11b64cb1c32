//! The calls on small maps, as steps. A value that is not there counts as 0.
use slotted_maps::SmallHashMap;
use slotted_slots::Error;

// Returns the answer of a step: the value that was at the key, or whether the key or any is there.
fn step(map: &mut SmallHashMap<u32, u32>, call: &str, key: u32, value: u32) -> Result<u32, Error> {
    match call {
        "insert" => Ok(map.insert(key, value)?.unwrap_or(0)),
        "remove" => Ok(map.remove(&key).unwrap_or(0)),
        "get" => Ok(map.get(&key).copied().unwrap_or(0)),
        "contains_key" => Ok(u32::from(map.contains_key(&key))),
        _ => Ok(u32::from(map.is_empty())),
    }
}

// Writes the answer of a step, and how many entries there are then, and which.
fn write_step(
    map: &mut SmallHashMap<u32, u32>,
    words: &str,
    text: &mut String,
) -> Result<(), Error> {
    let (call, rest) = words.split_once(':').unwrap_or((words, ""));
    let (key, value) = rest.split_once(':').unwrap_or((rest, ""));
    let (key, value) = (key.parse().unwrap_or(0), value.parse().unwrap_or(0));
    let answer = step(map, call, key, value)?;
    let count = map.len();
    write!(text, "{answer} of {count}")?;
    for (key, value) in map.iter() {
        write!(text, " {key}:{value}")?;
    }
    Ok(text.push_str(", ")?)
}

// Writes the steps of a map that has no entries at first.
pub(crate) fn write_steps(
    map: &mut SmallHashMap<u32, u32>,
    words: &str,
    text: &mut String,
) -> Result<(), Error> {
    for step in words.split_whitespace() {
        write_step(map, step, text)?;
    }
    Ok(())
}
