//! The program `slotted_run_lines`: parts of lines in, answers out.
//!
//! A line `=== WORD` begins a part, and is written as it stands. The lines of a part are those of the module of its
//! word: [`runs`], [`rules`] and [`data`].
#![tactic(auto)]

mod answers;
mod asked;
mod calls;
mod carried;
mod counting;
mod counts;
mod data;
mod datum;
mod doubles;
mod failed;
mod graphs;
mod least_binders;
mod least_size;
mod marking;
mod own_conditions;
mod own_graphs;
mod own_methods;
mod own_rules;
mod printing;
mod rebuilds;
mod refusing;
mod reports;
mod rooted;
mod rules;
mod runs;
mod searched;
mod tired;
mod units;
mod walking;

use std::io;
use std::io::ErrorKind;

// Answers a part, by the word that it begins with.
fn answer_part(rt: &HostRuntime, part: &str) -> io::Result<()> {
    let (word, text) = part.split_once("\n").unwrap_or((part, ""));
    println!(rt; "=== {word}")?;
    match word {
        "runs" => runs::answer_all(rt, text),
        "rules" => rules::answer_all(rt, text),
        "data" => data::answer_all(rt, text),
        _ => Err(io::Error::from(ErrorKind::InvalidData)),
    }
}

fn main(rt: HostRuntime) -> io::Result<()> {
    let text = io::read_to_string(rt.alloc(), rt.reader())?;
    for part in text.split("=== ") {
        if !part.is_empty() {
            answer_part(&rt, part)?;
        }
    }
    Ok(())
}
