//! The steps that reasons name.
use crate::reader::Reader;
use slotted_check::following::Step;
use std::alloc::{AllocError, Global};

// Returns the numbers up to a closing bracket, with which the text has to end.
fn numbers(alloc: Global, reader: &mut Reader) -> Result<Option<Vec<usize>>, AllocError> {
    let mut parts = Vec::new(alloc);
    if reader.rest() == ")" {
        return Ok(Some(parts));
    }
    for _ in 0..reader.rest().len() {
        let Some(part) = reader.number() else {
            return Ok(None);
        };
        parts.push(part)?;
        if !reader.take(", ") {
            break;
        }
    }
    Ok(if reader.rest() == ")" {
        Some(parts)
    } else {
        None
    })
}

// Returns the numbers of a step of this name.
fn numbers_of(alloc: Global, reason: &str, name: &str) -> Result<Option<Vec<usize>>, AllocError> {
    let mut reader = Reader::new(reason);
    if reader.take(name) && reader.take("(") {
        return numbers(alloc, &mut reader);
    }
    Ok(None)
}

/// Returns the step that a reason names.
pub fn step_of(alloc: Global, reason: &str) -> Result<Option<Step>, AllocError> {
    if reason == "refl" {
        return Ok(Some(Step::Reflexivity));
    }
    if let Some(parts) = numbers_of(alloc, reason, "congruence")? {
        return Ok(Some(Step::Congruence(parts)));
    }
    if let Some(parts) = numbers_of(alloc, reason, "symmetry")? {
        return Ok(if parts.len() == 1 {
            Some(Step::Symmetry(parts[0]))
        } else {
            None
        });
    }
    match numbers_of(alloc, reason, "transitivity")? {
        Some(parts) if parts.len() == 2 => Ok(Some(Step::Transitivity(parts[0], parts[1]))),
        _ => Ok(None),
    }
}
