//! Variables, words and brackets in a text.

use crate::columns::is_of_run;

/// A variable or a word of a text.
#[derive(Drop)]
pub(crate) struct Run<'a> {
    /// Where it begins, in characters from 1.
    pub(crate) column: usize,
    /// Its text.
    pub(crate) text: &'a str,
}

// Returns the run that a part of a text between white space and brackets ends with: all of it, or what follows its `:=`.
fn run_of(part: &str, column: usize) -> Run<'_> {
    match part.strip_prefix(":=") {
        Some(text) => Run {
            column: column.saturating_add(2),
            text,
        },
        None => Run { column, text: part },
    }
}

/// Returns the first variable of a text, with its `?`.
pub(crate) fn first_variable(text: &str) -> Option<Run<'_>> {
    let mut column = 1usize;
    for part in text.split(|c: char| !is_of_run(c)) {
        let run = run_of(part, column);
        if run.text.starts_with('?') {
            return Some(run);
        }
        column = column
            .saturating_add(part.chars().count())
            .saturating_add(1);
    }
    None
}

/// Returns the column of a word, if it stands in the text once.
pub(crate) fn only_column(text: &str, word: &str) -> Option<usize> {
    let mut column = 1usize;
    let mut found = None;
    for part in text.split(|c: char| !is_of_run(c)) {
        let run = run_of(part, column);
        if run.text == word {
            if found.is_some() {
                return None;
            }
            found = Some(run.column);
        }
        column = column
            .saturating_add(part.chars().count())
            .saturating_add(1);
    }
    found
}

/// Returns the column of the first `[` of a text.
pub(crate) fn first_substitution(text: &str) -> Option<usize> {
    let place = text.chars().position(|c| c == '[')?;
    Some(place.saturating_add(1))
}

/// Returns the innermost bracket that is open at the end of a text.
pub(crate) fn open_bracket(text: &str) -> Option<char> {
    let mut closed = 0usize;
    for c in text.chars().rev() {
        if c == ')' || c == ']' {
            closed = closed.saturating_add(1);
        } else if c == '(' || c == '[' {
            if closed == 0 {
                return Some(c);
            }
            closed -= 1;
        }
    }
    None
}
