//! The part `=== refusals`: sessions over graphs in, whether they are answered out.
//!
//! Each row of a session is a question with its answer behind an arrow. The questions are those of `slotted_questions`,
//! and two more. `proof WORD K` is what is printed of the proof of the entry of the answer K: its `lines`, the equation
//! that it `says`, or its `chain`. `entry K TEXT` is whether that entry is asserted with this text. `¶` stands for a
//! line feed. A row that begins with `# ` is a remark.
//!
//! The last row may be `table NAMES`. It asks the table that comes out of the graph for the number of each name's slot,
//! or of a fresh slot for `+`.
//!
//! A line `--- NAME` begins a session over a table that has read this name. Each session is written as it stands, and
//! then `ended`. If memory is refused, its row is asked once more, or the graph has failed and refuses all calls: then
//! `refused: ` and the row are written. A row with another answer is written behind `wrong: `, and ends the program with
//! an error.
//!
//! A line `--- slots A..B` begins a session that is answered for each number of slots that are left in the table, from A
//! up to B. It may end in ` ended` or ` refused`, if each of them has to end so.

use crate::walking::{Walked, walk_session};
use slotted_slots::Error;
use slotted_small::Small;
use std::alloc::Global;
use std::io;
use std::io::ErrorKind;

// Tells how far a session is answered.
fn tell(rt: &HostRuntime, walked: Walked) -> io::Result<()> {
    match walked {
        Walked::Ended => println!(rt; "ended"),
        Walked::Refused(row) => println!(rt; "refused: {row}"),
        Walked::Wrong(row) => {
            println!(rt; "wrong: {row}")?;
            Err(io::Error::from(ErrorKind::InvalidData))
        }
    }
}

// Returns whether a session has to end so.
fn is_wanted(walked: Walked, wanted: &str) -> bool {
    match walked {
        Walked::Ended => wanted != "refused",
        Walked::Refused(_) => wanted != "ended",
        Walked::Wrong(_) => false,
    }
}

// Returns how far a session is answered over a table in which so many slots are left.
fn walk_with<'a>(alloc: Global, left: u32, session: &'a str) -> Result<Walked<'a>, Error> {
    let last = 1_073_741_823u32.saturating_sub(left);
    let name = format!(in alloc; "f{last}")?;
    walk_session::<Small>(alloc, &name, session, 2)
}

// Answers a session for each number of slots that are left.
fn answer_slots(rt: &HostRuntime, words: &str, session: &str) -> io::Result<()> {
    let (range, wanted) = words.split_once(' ').unwrap_or((words, ""));
    let (first, last) = range.split_once("..").unwrap_or((range, ""));
    for left in first.parse::<u32>().unwrap_or(0)..last.parse::<u32>().unwrap_or(0) {
        let walked = walk_with(rt.alloc(), left, session).unwrap_or(Walked::Wrong("memory"));
        if !is_wanted(walked, wanted) {
            println!(rt; "with {left} slots")?;
            return tell(rt, walked);
        }
    }
    println!(rt; "each is answered")
}

// Answers a session, and writes it as it stands.
fn answer_session(rt: &HostRuntime, session: &str) -> io::Result<()> {
    println!(rt; "--- {session}")?;
    let (name, rows) = session.split_once("\n").unwrap_or((session, ""));
    match name.strip_prefix("slots ") {
        Some(words) => answer_slots(rt, words, rows),
        None => match walk_session::<Small>(rt.alloc(), name, rows, 1) {
            Ok(walked) => tell(rt, walked),
            Err(error) => println!(rt; "refused: {error}"),
        },
    }
}

/// Answers this part of the input.
pub fn answer_all(rt: &HostRuntime, text: &str) -> io::Result<()> {
    for session in text.split("--- ") {
        if !session.is_empty() {
            answer_session(rt, session.trim_end())?;
        }
    }
    Ok(())
}
