//! The part `=== runs`: runs in, reports out.
//!
//! Each line is a word with what it is asked of. It is written as it stands, then an arrow, then the answer or the name
//! of the error. An empty line and a line that begins with `#` are written as they stand.
//!
//! - `runner M T N D: CLOCK` reports of a runner under one rule, which adds an e-node in each turn as long as there are
//!   fewer than M. The limits of turns, e-nodes and time are T, N and D, or the usual ones for `-`. The clock tells the
//!   numbers, and then 0. `hook K M T N D: CLOCK` is the same with a hook that stops the run after K turns.
//! - `resumed M T U: CLOCK` is the same with T for the limit of turns, and again after the runner was let go on with U.
//! - `eqsat M T S: CLOCK` reports of a run without a runner, with limits of turns and of seconds.
//! - `counted T TERM: L => R` tells of each turn, up to T turns, whether the graph changed, how many matches the rule
//!   had, and how many of them it united. The graph has the term at first.
//! - `resting N M R TERM: L => R` applies a rule N times. The rule rests for R turns once it has found more than M
//!   matches. Each time, the line tells whether the graph changed, and whether the rule rests. Then comes the number of
//!   e-nodes.
//! - `rooted KIND T == U: L => R` tells whether two terms are equal after a run that both are roots of. The rule is one
//!   of `rw!`: for `plain` without a condition, for `if` where `$x` stands free nowhere in `?f`, for `unless` where it
//!   does, and for `either` and `both` where one or each of these holds.
//! - `report T N C REASON` and `rule NAME: L => R` are printed.

use crate::counts::write_counts;
use crate::printing::write_printed;
use crate::reports::write_reports;
use crate::rooted::write_rooted;
use slotted_slots::Error;
use std::alloc::Global;
use std::io;

// Writes the answer of a line.
fn write_answer(alloc: Global, line: &str, text: &mut String) -> Result<(), Error> {
    let (word, words) = line.split_once(' ').unwrap_or((line, ""));
    match word {
        "counted" | "resting" => write_counts(alloc, word, words, text),
        "rooted" => write_rooted(alloc, words, text),
        "report" | "rule" => write_printed(alloc, word, words, text),
        _ => write_reports(alloc, word, words, text),
    }
}

// Answers a line.
fn answer_line(rt: &HostRuntime, line: &str) -> io::Result<()> {
    let mut text = String::new(rt.alloc());
    if let Err(error) = write_answer(rt.alloc(), line, &mut text) {
        text.push_str(error.name())?;
    }
    println!(rt; "{line} => {text}")
}

/// Answers this part of the input.
pub fn answer_all(rt: &HostRuntime, text: &str) -> io::Result<()> {
    for line in text.lines() {
        if line.is_empty() || line.starts_with('#') {
            println!(rt; "{line}")?;
        } else {
            answer_line(rt, line)?;
        }
    }
    Ok(())
}
