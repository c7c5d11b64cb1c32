//! Sessions of patterns and rules in, answers out.
//!
//! The lines of the program `slotted` are answered as there. `matches P` answers how many matches a pattern has. `match
//! K v: P` answers the term of the variable in the match of this number. `subst P` answers the canonical term of an
//! instance of a pattern without variables. `counts` answers how many live classes, filed e-nodes and asserted
//! equations there are.
//!
//! `rule N: L => R` makes a rule, which the session keeps. Behind the rule may stand ` if free $x v`, the condition
//! that the slot does not occur in the value of the variable, or ` if not free $x v`. `apply` searches with all rules
//! of the session, applies each once, and answers whether the graph changed.
//!
//! A line `---` ends a session, and the next one has a graph of its own. A line that begins with `# ` is a title. Both
//! are written as they stand, and so is a line `===`, which ends these sessions.

use crate::asking::{answer, is_asked};
use crate::rules::Rule;
use slotted_commands::session;
use slotted_graph::EGraph;
use slotted_slots::SlotTable;
use slotted_small::Small;
use std::alloc::Global;
use std::io;
use std::io::{BufRead, ErrorKind, Write};

// Returns whether a line ends its session.
fn is_divider(line: &[u8]) -> bool {
    line.strip_suffix(b"\n").unwrap_or(line) == b"---".as_slice()
}

// Returns whether a line ends these sessions.
fn is_change(line: &[u8]) -> bool {
    line.strip_suffix(b"\n").unwrap_or(line) == b"===".as_slice()
}

// Returns whether a line is the title of a session.
fn is_title(line: &[u8]) -> bool {
    line.starts_with(b"# ")
}

// Answers a line about patterns or rules.
fn ask<W: Write>(
    alloc: Global,
    graph: &mut EGraph<Small>,
    rules: &mut Vec<Rule>,
    text: &str,
    output: &mut W,
) -> io::Result<()> {
    match answer(alloc, graph, rules, text) {
        Ok(told) => writeln!(output, "{told}"),
        Err(e) => {
            let number = e.number();
            let name = e.name();
            writeln!(output, "error: {number} {name}")
        }
    }
}

// Answers a line of the program `slotted`. An empty line has no answer.
fn answer_plainly<W: Write>(
    alloc: Global,
    graph: &mut EGraph<Small>,
    text: &str,
    output: &mut W,
) -> io::Result<()> {
    if text.is_empty() {
        return Ok(());
    }
    let told = session::answer(alloc, graph, text);
    writeln!(output, "{told}")
}

// Answers a line over a graph.
fn answer_or_ask<W: Write>(
    alloc: Global,
    graph: &mut EGraph<Small>,
    rules: &mut Vec<Rule>,
    line: &[u8],
    output: &mut W,
) -> io::Result<()> {
    let Ok(text) = str::from_utf8(line.strip_suffix(b"\n").unwrap_or(line)) else {
        return Err(io::Error::from(ErrorKind::InvalidData));
    };
    if is_asked(text) {
        return ask(alloc, graph, rules, text, output);
    }
    answer_plainly(alloc, graph, text, output)
}

// Answers a line, or writes it as it stands.
fn answer_or_repeat<W: Write>(
    alloc: Global,
    graph: &mut EGraph<Small>,
    rules: &mut Vec<Rule>,
    line: &[u8],
    output: &mut W,
) -> io::Result<()> {
    if is_title(line) || is_divider(line) || is_change(line) {
        return output.write_all(line);
    }
    answer_or_ask(alloc, graph, rules, line, output)
}

// Answers lines up to the end of their session. Returns whether a line `---` ended the session.
fn answer_lines<R: BufRead, W: Write>(
    alloc: Global,
    graph: &mut EGraph<Small>,
    input: &mut R,
    output: &mut W,
) -> io::Result<bool> {
    let mut rules = Vec::new(alloc);
    let mut line = Vec::new(alloc);
    for _ in 0..u64::MAX {
        line.clear();
        if input.read_until(b'\n', &mut line)? == 0 {
            return Ok(false);
        }
        answer_or_repeat(alloc, graph, &mut rules, &line, output)?;
        if is_divider(&line) || is_change(&line) {
            return Ok(is_divider(&line));
        }
    }
    Err(io::Error::from(ErrorKind::FileTooLarge))
}

// Answers a session over a graph of its own. Returns whether a line `---` ended the session.
fn answer_next<R: BufRead, W: Write>(
    alloc: Global,
    input: &mut R,
    output: &mut W,
) -> io::Result<bool> {
    match EGraph::<Small>::new(alloc, SlotTable::new(alloc), ()) {
        Ok(mut graph) => {
            let answered = answer_lines(alloc, &mut graph, input, output);
            let _ = graph.into_table();
            answered
        }
        Err(_) => Err(io::Error::from(ErrorKind::OutOfMemory)),
    }
}

/// Answers one session after another, up to a line `===` or the end of the input.
pub fn answer_sessions<R: BufRead, W: Write>(
    alloc: Global,
    input: &mut R,
    output: &mut W,
) -> io::Result<()> {
    for _ in 0..u64::MAX {
        if !answer_next(alloc, input, output)? {
            return Ok(());
        }
    }
    Err(io::Error::from(ErrorKind::FileTooLarge))
}
