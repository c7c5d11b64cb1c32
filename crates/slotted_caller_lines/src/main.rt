//! The program `slotted_caller_lines`: whether callers are answered as they have to be.
//!
//! `callers` asks the example callers of `slotted_egraphs` over a graph. `handles` asks a workspace about its own
//! handles, and about handles that it has to refuse. Each line is written as it stands, with `yes` or `no` behind it.
#![tactic(auto)]

mod callers;
mod handles;

use std::alloc::Global;
use std::io;

// Returns whether what a line asks about holds.
fn holds(alloc: Global, line: &str) -> bool {
    match line {
        "callers" => callers::are_answered(alloc).unwrap_or(false),
        "handles" => handles::are_checked(alloc).unwrap_or(false),
        _ => false,
    }
}

fn main(rt: HostRuntime) -> io::Result<()> {
    for line in rt.lines(rt.alloc()) {
        let line = line?;
        let answer = if holds(rt.alloc(), &line) {
            "yes"
        } else {
            "no"
        };
        println!(&rt; "{line} => {answer}")?;
    }
    Ok(())
}
