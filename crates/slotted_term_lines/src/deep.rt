//! Rows of very many levels, with the usual stack.
use crate::entries::Entries;
use crate::rows::told;
use std::alloc::{AllocError, Global};

// Writes a text, or for `N TEXT` N times that text.
fn write_repeated(text: &mut String, part: &str) -> Result<(), AllocError> {
    let (count, part) = part.split_once(' ').unwrap_or(("0", part));
    for _ in 0..count.parse::<usize>().unwrap_or(0) {
        text.push_str(part)?;
    }
    Ok(())
}

// Returns a text with what is repeated in place of each part between two signs.
fn expanded(alloc: Global, written: &str) -> Result<String, AllocError> {
    let mut text = String::new(alloc);
    let mut is_repeated = false;
    for part in written.split('`') {
        if is_repeated {
            write_repeated(&mut text, part)?;
        } else {
            text.push_str(part)?;
        }
        is_repeated = !is_repeated;
    }
    Ok(text)
}

// Returns whether a row has the answer behind its arrow.
pub(crate) fn is_answered(
    alloc: Global,
    entries: &mut Entries,
    row: &str,
) -> Result<bool, AllocError> {
    let (row, wanted) = row.split_once(" => ").unwrap_or((row, ""));
    let row = expanded(alloc, row)?;
    let wanted = expanded(alloc, wanted)?;
    let answer = told(alloc, entries, &row)?;
    Ok(answer.as_str() == wanted.as_str())
}
