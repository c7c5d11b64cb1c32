//! The part `=== hostile`: a script over graphs, extraction, rules and runs, in which memory or slots end.
//!
//! Each line tells how the script is run. It is written as it stands, with an arrow and what comes of it behind it. An
//! empty line and a line that begins with `#` are written as they stand.
//!
//! - `ample` and `memory` run the script once. In the latter a growth may be refused, and then the step is written behind
//!   `refused: `.
//! - `slots N` runs it with so many fresh slots left. `slots A up to B` tells whether with one slot more the script goes
//!   on at least as far, and ends well before B.
//! - `lambda` tells whether the id of a lambda is refused its e-nodes if no slot is left for its binder, and is equal to
//!   itself.
//!
//! The answer is `ends`, or the step that was refused first, and whether the graph has failed then. If any step is not
//! answered or refused as it has to be, the line is written behind `wrong: `, and the program ends with an error.

use crate::lambda::lambda_equals_itself;
use crate::script::{Ending, STEPS, walk_over};
use slotted_slots::Error;
use slotted_small::Small;
use std::alloc::Global;
use std::io;
use std::io::ErrorKind;

// Returns how the script ends with so many fresh slots left.
fn ending_with(alloc: Global, left: u32) -> Result<Ending, Error> {
    let last = 1_073_741_823u32.saturating_sub(left);
    let name = format!(in alloc; "f{last}")?;
    walk_over::<Small>(alloc, &name, 2)
}

// Returns the place of the first step that was refused, or the number of steps.
fn place(ending: &Ending) -> usize {
    match ending.refused {
        Some(refused) => STEPS.iter().position(|step| *step == refused).unwrap_or(0),
        None => STEPS.len(),
    }
}

// Returns whether the script goes on at least as far with one slot more, and ends well with some number of slots.
fn goes_further(alloc: Global, first: u32, last: u32) -> Result<bool, Error> {
    let mut before = 0usize;
    for left in first..last {
        let ending = ending_with(alloc, left)?;
        let place = place(&ending);
        if place < before || !ending.right {
            return Ok(false);
        }
        if ending.refusals == 0 {
            return Ok(true);
        }
        before = place;
    }
    Ok(false)
}

// Tells how the script ended.
fn tell(rt: &HostRuntime, line: &str, ending: Ending) -> io::Result<()> {
    match ending.refused {
        _ if !ending.right => {
            println!(rt; "wrong: {line}")?;
            Err(io::Error::from(ErrorKind::InvalidData))
        }
        None => println!(rt; "{line} => ends"),
        Some(step) if line == "memory" => println!(rt; "refused: {step}"),
        Some(step) if ending.failed => println!(rt; "{line} => {step}, and the graph has failed"),
        Some(step) => println!(rt; "{line} => {step}"),
    }
}

// Tells whether something holds.
fn tell_test(rt: &HostRuntime, line: &str, holds: bool) -> io::Result<()> {
    let answer = if holds { "yes" } else { "no" };
    println!(rt; "{line} => {answer}")
}

// Runs the script with so many slots left, or with each number of slots between two.
fn answer_slots(rt: &HostRuntime, line: &str, words: &str) -> io::Result<()> {
    let (first, last) = words.split_once(" up to ").unwrap_or((words, ""));
    let first = first.parse().unwrap_or(0);
    match last.parse::<u32>() {
        Ok(last) => {
            let holds = goes_further(rt.alloc(), first, last).unwrap_or(false);
            tell_test(rt, line, holds)
        }
        Err(_) => match ending_with(rt.alloc(), first) {
            Ok(ending) => tell(rt, line, ending),
            Err(_) => Err(io::Error::from(ErrorKind::OutOfMemory)),
        },
    }
}

// Answers a line.
fn answer_line(rt: &HostRuntime, line: &str) -> io::Result<()> {
    if let Some(words) = line.strip_prefix("slots ") {
        return answer_slots(rt, line, words);
    }
    if line == "lambda" {
        let holds = lambda_equals_itself::<Small>(rt.alloc()).unwrap_or(false);
        return tell_test(rt, line, holds);
    }
    let ended = if line == "memory" { 1 } else { 0 };
    match walk_over::<Small>(rt.alloc(), "0", ended) {
        Ok(ending) => tell(rt, line, ending),
        Err(_) => Err(io::Error::from(ErrorKind::OutOfMemory)),
    }
}

/// Answers this part of the input.
pub fn answer_all(rt: &HostRuntime, text: &str) -> io::Result<()> {
    for line in text.lines() {
        if line.is_empty() || line.starts_with('#') {
            println!(rt; "{line}")?;
        } else {
            answer_line(rt, line)?;
        }
    }
    Ok(())
}
