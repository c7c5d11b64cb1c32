//! The program `slotted_graph_lines`: parts of lines in, answers out.
//!
//! A line `=== WORD` begins a part, and is written as it stands. The lines of a part are those of the module of its
//! word: [`refusals`], [`extraction`], [`symmetries`] and [`hostile`].
#![tactic(auto)]

mod asked;
mod dear_products;
mod deep;
mod extracted;
mod extraction;
mod failing;
mod hostile;
mod lambda;
mod light_lambdas;
mod proofs;
mod refusals;
mod script;
mod steps;
mod symmetries;
mod walking;

use std::io;
use std::io::ErrorKind;

// Answers a part, by the word that it begins with.
fn answer_part(rt: &HostRuntime, part: &str) -> io::Result<()> {
    let (word, text) = part.split_once("\n").unwrap_or((part, ""));
    println!(rt; "=== {word}")?;
    match word {
        "refusals" => refusals::answer_all(rt, text),
        "extraction" => extraction::answer_all(rt, text),
        "symmetries" => symmetries::answer_all(rt, text),
        "hostile" => hostile::answer_all(rt, text),
        _ => Err(io::Error::from(ErrorKind::InvalidData)),
    }
}

fn main(rt: HostRuntime) -> io::Result<()> {
    let text = io::read_to_string(rt.alloc(), rt.reader())?;
    for part in text.split("=== ") {
        if !part.is_empty() {
            answer_part(&rt, part)?;
        }
    }
    Ok(())
}
