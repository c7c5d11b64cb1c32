//! The program `slotted_transcripts`: sessions in, answers out.
//!
//! A line `---` ends a session, and the next one has a graph and rules of its own. A line that begins with `# ` is a
//! title. Both are written as they stand, and so is a line `===`. The sessions in front of the first one are about
//! patterns and rules, as [`rule_sessions`] has them. Those behind the second one are over `SymbolLang`, the others over
//! `Small`.
//!
//! A line that begins with `? ` is a question of `slotted_questions`. Each other line is answered as by the program
//! `slotted`.
//!
//! After each line the plain find, without compressed paths, is compared with the graph's for each class. A line tells
//! if they differ.
#![tactic(auto)]

ghost use Rattle.std.specs.Prelude.{◌≡◌, ◌↔◌, IsTrue, OnOk, codes, nat_eq};
ghost use Rattle.std.specs.List.{starts_with};
ghost use Rattle.std.specs.Io.BufRead.{strip_last};
ghost use Rattle.std.specs.Io.KnownBytes.{Appends};

mod asking;
mod plain;
mod rule_sessions;
mod rule_text;
mod rules;

use crate::plain::PlainFind;
use slotted_graph::EGraph;
use slotted_lines::{Run, Session, Told, answer_in};
use slotted_proofs::ProvenEq;
use slotted_questions::rows::answer_of_either;
use slotted_slots::{Error, SlotTable};
use slotted_small::Small;
use slotted_symbols::SymbolLang;
use slotted_terms::expr::printing::Printable;
use std::alloc::Global;
use std::io;
use std::io::{BufRead, BufReader, BufWriter, ErrorKind, Write};

// Returns whether a line ends its session.
fn is_divider(line: &[u8]) -> bool
    ensures { IsTrue result ↔ strip_last 10 line.now ≡ codes "---" }
{
    line.strip_suffix(b"\n").unwrap_or(line) == b"---".as_slice()
}

// Returns whether a line ends the sessions over its language.
fn is_change(line: &[u8]) -> bool
    ensures { IsTrue result ↔ strip_last 10 line.now ≡ codes "===" }
{
    line.strip_suffix(b"\n").unwrap_or(line) == b"===".as_slice()
}

// Returns whether a line is the title of a session.
fn is_title(line: &[u8]) -> bool
    ensures { result ≡ starts_with nat_eq line.now (codes "# ") }
{
    line.starts_with(b"# ")
}

// Asks a question of a graph, or of the other one, and writes the answer or the name of the error.
fn ask<L: Printable, W: Write>(
    alloc: Global,
    graph: &mut EGraph<L>,
    other: &mut EGraph<L>,
    known: &mut Vec<ProvenEq>,
    question: &[u8],
    output: &mut W,
) -> io::Result<()> {
    let Ok(text) = str::from_utf8(question) else {
        return Err(io::Error::from(ErrorKind::InvalidData));
    };
    match answer_of_either(alloc, graph, other, known, text) {
        Ok(answer) => writeln!(output, "{answer}"),
        Err(e) => {
            let name = e.name();
            writeln!(output, "{name}")
        }
    }
}

// Returns whether there were rebuilds, and they took no more turns than their bounds allow.
fn is_within(run: &Run) -> bool {
    run.rebuild_bound > 0 && run.rebuild_turns as u128 <= run.rebuild_bound
}

// Writes an answer. No clause says how many turns rebuilds take. So if rebuilds kept their bound, letters are written
// for both numbers.
fn write_told<W: Write>(told: &Told, output: &mut W) -> io::Result<()> {
    match told {
        Told::Ran(run) if is_within(run) => writeln!(output, "{run}\nturns T of B"),
        _ => writeln!(output, "{told}"),
    }
}

// Answers a line over a session. A question that changed the graph has left it fit for the rules. An empty line has no
// answer.
fn answer_if_searchable<L: Printable, W: Write>(
    alloc: Global,
    session: &mut Session<L>,
    line: &[u8],
    output: &mut W,
) -> io::Result<()> {
    let Ok(text) = str::from_utf8(line.strip_suffix(b"\n").unwrap_or(line)) else {
        return Err(io::Error::from(ErrorKind::InvalidData));
    };
    if !session.is_searchable() {
        return Err(io::Error::from(ErrorKind::InvalidData));
    }
    if text.is_empty() {
        return Ok(());
    }
    let told = answer_in(alloc, session, text);
    write_told(&told, output)
}

// Answers a line over a session, or asks its question.
fn answer_or_ask<L: Printable, W: Write>(
    alloc: Global,
    session: &mut Session<L>,
    other: &mut EGraph<L>,
    known: &mut Vec<ProvenEq>,
    line: &[u8],
    output: &mut W,
) -> io::Result<()> {
    match line.strip_prefix(b"? ") {
        Some(question) => {
            let question = question.strip_suffix(b"\n").unwrap_or(question);
            ask(alloc, &mut session.graph, other, known, question, output)
        }
        None => answer_if_searchable(alloc, session, line, output),
    }
}

// Answers a line over a session, or writes it as it stands.
fn answer_or_repeat<L: Printable, W: Write>(
    alloc: Global,
    session: &mut Session<L>,
    other: &mut EGraph<L>,
    known: &mut Vec<ProvenEq>,
    line: &[u8],
    output: &mut W,
) -> io::Result<()>
    ensures title { IsTrue (starts_with nat_eq line.now (codes "# ")) → (session.new ≡ session.old)
        × OnOk result (Appends (W.contents output.old) (W.contents output.new) line.now) }
    ensures divider { strip_last 10 line.now ≡ codes "---" → (session.new ≡ session.old)
        × OnOk result (Appends (W.contents output.old) (W.contents output.new) line.now) }
    ensures change { strip_last 10 line.now ≡ codes "===" → (session.new ≡ session.old)
        × OnOk result (Appends (W.contents output.old) (W.contents output.new) line.now) }
{
    if is_title(line) || is_divider(line) || is_change(line) {
        output.write_all(line)
    } else {
        answer_or_ask(alloc, session, other, known, line, output)
    }
}

// Notes what classes that died lead to. Returns whether the plain find agrees with the graph's.
fn follow<L: Printable>(
    alloc: Global,
    plain: &mut PlainFind,
    graph: &EGraph<L>,
) -> Result<bool, Error> {
    plain.follow(graph)?;
    plain.agrees(alloc, graph)
}

// Writes a line if the plain find does not agree with the graph's.
fn compare_finds<L: Printable, W: Write>(
    alloc: Global,
    plain: &mut PlainFind,
    graph: &EGraph<L>,
    output: &mut W,
) -> io::Result<()> {
    match follow(alloc, plain, graph) {
        Ok(true) => Ok(()),
        Ok(false) => writeln!(output, "finds differ"),
        Err(_) => Err(io::Error::from(ErrorKind::OutOfMemory)),
    }
}

// Answers lines over a session up to the end of their session. Returns whether a line `---` ended the session.
fn answer_lines<L: Printable, R: BufRead, W: Write>(
    alloc: Global,
    session: &mut Session<L>,
    other: &mut EGraph<L>,
    known: &mut Vec<ProvenEq>,
    input: &mut R,
    output: &mut W,
) -> io::Result<bool> {
    let mut line = Vec::new(alloc);
    let mut plain = PlainFind::new(alloc);
    for _ in 0..u64::MAX {
        line.clear();
        if input.read_until(b'\n', &mut line)? == 0 {
            return Ok(false);
        }
        answer_or_repeat(alloc, session, other, known, &line, output)?;
        compare_finds(alloc, &mut plain, &session.graph, output)?;
        if is_divider(&line) || is_change(&line) {
            return Ok(is_divider(&line));
        }
    }
    Err(io::Error::from(ErrorKind::FileTooLarge))
}

// Answers a session beside another graph, which its questions may ask.
fn answer_beside<L: Printable, R: BufRead, W: Write>(
    alloc: Global,
    session: &mut Session<L>,
    other: &mut EGraph<L>,
    input: &mut R,
    output: &mut W,
) -> io::Result<bool> {
    let mut known = Vec::new(alloc);
    answer_lines(alloc, session, other, &mut known, input, output)
}

// Answers a session beside a new graph.
fn answer_over<L: Printable, R: BufRead, W: Write>(
    alloc: Global,
    session: &mut Session<L>,
    input: &mut R,
    output: &mut W,
) -> io::Result<bool> {
    match EGraph::<L>::new(alloc, SlotTable::new(alloc), ()) {
        Ok(mut other) => {
            let answered = answer_beside(alloc, session, &mut other, input, output);
            let _ = other.into_table();
            answered
        }
        Err(_) => Err(io::Error::from(ErrorKind::OutOfMemory)),
    }
}

// Answers a session over a graph of its own. Returns whether a line `---` ended the session.
fn answer_next<L: Printable, R: BufRead, W: Write>(
    alloc: Global,
    input: &mut R,
    output: &mut W,
) -> io::Result<bool> {
    match Session::<L>::new(alloc) {
        Ok(mut session) => {
            let answered = answer_over(alloc, &mut session, input, output);
            let _ = session.into_table();
            answered
        }
        Err(_) => Err(io::Error::from(ErrorKind::OutOfMemory)),
    }
}

// Answers one session after another, up to a line `===` or the end of the input.
fn answer_sessions<L: Printable, R: BufRead, W: Write>(
    alloc: Global,
    input: &mut R,
    output: &mut W,
) -> io::Result<()> {
    for _ in 0..u64::MAX {
        if !answer_next::<L, R, W>(alloc, input, output)? {
            return Ok(());
        }
    }
    Err(io::Error::from(ErrorKind::FileTooLarge))
}

fn main(rt: HostRuntime) -> io::Result<()> {
    let alloc = rt.alloc();
    let mut input = BufReader::new(alloc, rt.reader())?;
    let mut output = BufWriter::new(alloc, io::writer(&rt))?;
    rule_sessions::answer_sessions(alloc, &mut input, &mut output)?;
    answer_sessions::<Small, _, _>(alloc, &mut input, &mut output)?;
    answer_sessions::<SymbolLang, _, _>(alloc, &mut input, &mut output)?;
    output.flush()
}
