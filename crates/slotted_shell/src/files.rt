//! Files of lines, which may load other files.
use crate::trouble::Trouble;
use anyhow::Result;
use std::alloc::Global;
use std::fs;

/// What is still to be done.
#[derive(Drop)]
pub enum Step {
    /// A line to answer.
    Line(String),
    /// A line of a file, which is shown in front of its answer.
    Shown(String),
    /// The end of a file.
    Close,
}

// How many files may be open at the same time.
const DEPTH: usize = 16;

// Returns how many files are open.
fn depth(steps: &[Step]) -> usize {
    steps.iter().filter(|s| matches!(s, Step::Close)).count()
}

// Adds the lines of a text, the first one last, so that it is the next.
fn push_lines(alloc: Global, text: &str, steps: &mut Vec<Step>) -> Result<()> {
    let mut lines = Vec::new(alloc);
    for line in text.lines() {
        lines.push(line)?;
    }
    steps.push(Step::Close)?;
    for line in lines.iter().rev() {
        steps.push(Step::Shown(String::from_str(alloc, *line)?))?;
    }
    Ok(())
}

/// Adds the lines of a file to what is to be done.
pub fn open_file(
    rt: &HostRuntime,
    path: &str,
    steps: &mut Vec<Step>,
) -> Result<Result<(), Trouble>> {
    let alloc = rt.alloc();
    if depth(steps) >= DEPTH {
        let text = format!(in alloc; "more than 16 files are open: {path}")?;
        return Ok(Err(Trouble::said(15, "File", text)));
    }
    match fs::read_to_string(rt, path) {
        Ok(text) => {
            push_lines(alloc, text.as_str(), steps)?;
            Ok(Ok(()))
        }
        Err(_) => {
            let text = format!(in alloc; "no such text file: {path}")?;
            Ok(Err(Trouble::said(15, "File", text)))
        }
    }
}
