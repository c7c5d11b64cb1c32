//! What an example of an operator says of its binders.
use std::alloc::{AllocError, Global};

fn is_separator(c: char) -> bool {
    c.is_whitespace() || c == '(' || c == ')'
}

/// Returns `$x is bound in body` for each argument of an example that has slots in front of it, or an empty text.
pub fn told_binders(alloc: Global, example: &str) -> Result<String, AllocError> {
    let mut told = String::new(alloc);
    let mut run = String::new(alloc);
    let mut many = false;
    for word in example
        .split(is_separator)
        .filter(|w| !w.is_empty())
        .skip(1)
    {
        if word.starts_with('$') {
            many = !run.is_empty();
            run.push_str(if many { " and " } else { "" })?;
            run.push_str(word)?;
        } else if !run.is_empty() {
            told.push_str(if told.is_empty() { "" } else { ", " })?;
            told.push_str(run.as_str())?;
            told.push_str(if many {
                " are bound in "
            } else {
                " is bound in "
            })?;
            told.push_str(word)?;
            run.clear();
            many = false;
        }
    }
    Ok(told)
}
