//! The program `slotted_term_lines`: calls below the graph in, answers out.
//!
//! Each line is a call, the type that it is of, and the values, as in `keys Map :2->7,1->3`. It is written as it
//! stands, then an arrow, then the answer or the error. Each line has a table of slots of its own.
//!
//! Lines over `List` enter into one proof list after another, which a line `---` ends. Such a line is written as it
//! stands, and so are an empty line and a line that begins with `#`.
//!
//! A line that begins with `deep ` has its answer behind an arrow, and is answered by yes or no. In both texts,
//! `` `N TEXT` `` stands for N times that text.
#![tactic(auto)]

mod applied;
mod deep;
mod elements;
mod entries;
mod equations;
mod maps;
mod names;
mod nested;
mod nodes;
mod parts;
mod reading;
mod rows;
mod sets;
mod small_maps;
mod steps;
mod texts;
mod writing;

use deep::is_answered;
use entries::Entries;
use rows::told;
use std::alloc::Global;
use std::io;

// Answers a line that is a row.
fn answer_row(rt: &HostRuntime, entries: &mut Entries, line: &str) -> io::Result<()> {
    if let Some(row) = line.strip_prefix("deep ") {
        let holds = is_answered(rt.alloc(), entries, row).unwrap_or(false);
        let answer = if holds { "yes" } else { "no" };
        println!(rt; "{line}: {answer}")
    } else {
        let answer = told(rt.alloc(), entries, line)?;
        let answer = answer.trim();
        println!(rt; "{line} => {answer}")
    }
}

// Answers a line, or writes it as it stands.
fn answer_line(rt: &HostRuntime, entries: &mut Entries, line: &str) -> io::Result<()> {
    if line == "---" {
        entries.begin_anew(rt.alloc());
    }
    if line == "---" || line.is_empty() || line.starts_with('#') {
        println!(rt; "{line}")
    } else {
        answer_row(rt, entries, line)
    }
}

// Answers a line that was read.
fn answer_read(
    rt: &HostRuntime,
    entries: &mut Entries,
    line: io::Result<String>,
) -> io::Result<()> {
    answer_line(rt, entries, &line?)
}

fn main(rt: HostRuntime) -> io::Result<()> {
    let mut entries = Entries::new(rt.alloc());
    for line in rt.lines(rt.alloc()) {
        answer_read(&rt, &mut entries, line)?;
    }
    Ok(())
}
