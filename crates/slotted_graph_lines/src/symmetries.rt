//! The part `=== symmetries`: sessions about graphs with symmetries in, answers out.
//!
//! `union T == U` answers `true` if the terms were not equal, and unites them. `eq T == U` answers whether the ids of
//! both terms are found equal. `same T == U` answers whether these ids are equal up to symmetries. `symmetries` answers
//! how many symmetries were met, and how many of them are open. `decide` decides the graph, and answers `decided`, or
//! `open` if more than a thousand e-nodes are missing. `verdict N T == U` decides the graph if at most N e-nodes are
//! missing, and answers `yes`, `no` or `open`. `explain T == U` decides the graph, and prints the proof that both
//! terms are equal. `asserted` answers how many equations were asserted. Any other line is answered by an error.
//!
//! A line `---` stands between two sessions, and each session has a graph of its own. A line that begins with `# ` is a
//! title. Both are written as they stand.

use slotted_deciding::{
    Explained, Verdict, decide, decided_eq, decided_explain, is_equal_up_to_symmetries,
};
use slotted_explain::Explanation;
use slotted_graph::EGraph;
use slotted_slots::{AppliedId, Error, SlotTable};
use slotted_small::Small;
use std::alloc::Global;
use std::io;
use std::io::ErrorKind;

// How many e-nodes `decide` adds at most.
const LIMIT: usize = 1000;

// Adds the term of a text by look-up, and returns its id.
fn add(graph: &mut EGraph<Small>, text: &str) -> Result<AppliedId, Error> {
    let term = graph.parse_expr(text)?;
    graph.add_expr(&term)
}

// Returns the answer to a word about two ids, if they are valid.
fn answer_of_ids(
    alloc: Global,
    graph: &mut EGraph<Small>,
    word: &str,
    left: &AppliedId,
    right: &AppliedId,
) -> Result<bool, Error> {
    if !graph.is_valid(left) || !graph.is_valid(right) {
        return Err(Error::NotATerm);
    }
    match word {
        "union" => graph.union(left, right),
        "same" => is_equal_up_to_symmetries(alloc, graph, left, right),
        "eq" => graph.eq(left, right),
        _ => Err(Error::NotATerm),
    }
}

// Adds the term of a text by its syntactic e-nodes, and returns its id.
fn add_syn(graph: &mut EGraph<Small>, text: &str) -> Result<AppliedId, Error> {
    let term = graph.parse_expr(text)?;
    graph.add_syn_expr(&term)
}

// Adds the terms of two texts by their syntactic e-nodes, so that what is asserted of them is what was written.
fn add_syn_both(graph: &mut EGraph<Small>, texts: &str) -> Result<(AppliedId, AppliedId), Error> {
    let (left, right) = texts.split_once(" == ").unwrap_or((texts, ""));
    let left = add_syn(graph, left)?;
    let right = add_syn(graph, right)?;
    Ok((left, right))
}

// Adds the terms of two texts by look-up, and returns their ids.
fn add_both(graph: &mut EGraph<Small>, texts: &str) -> Result<(AppliedId, AppliedId), Error> {
    let (left, right) = texts.split_once(" == ").unwrap_or((texts, ""));
    let left = add(graph, left)?;
    let right = add(graph, right)?;
    Ok((left, right))
}

// Adds the terms of two texts as the word wants them added.
fn add_for(
    graph: &mut EGraph<Small>,
    word: &str,
    texts: &str,
) -> Result<(AppliedId, AppliedId), Error> {
    match word {
        "union" => add_syn_both(graph, texts),
        _ => add_both(graph, texts),
    }
}

// Returns the answer to a word about two texts.
fn answer_of_texts(
    alloc: Global,
    graph: &mut EGraph<Small>,
    word: &str,
    texts: &str,
) -> Result<&'static str, Error> {
    let (left, right) = add_for(graph, word, texts)?;
    let holds = answer_of_ids(alloc, graph, word, &left, &right)?;
    Ok(told(word, holds))
}

// Decides the graph with a limit, and returns whether two ids are equal, if they are valid.
fn verdict_of_ids(
    alloc: Global,
    graph: &mut EGraph<Small>,
    left: &AppliedId,
    right: &AppliedId,
    limit: usize,
) -> Result<&'static str, Error> {
    if !graph.is_valid(left) || !graph.is_valid(right) {
        return Err(Error::NotATerm);
    }
    match decided_eq(alloc, graph, left, right, limit)? {
        Verdict::Yes => Ok("yes"),
        Verdict::No => Ok("no"),
        Verdict::Open => Ok("open"),
    }
}

// Decides the graph with the limit of a text, and returns whether the terms behind the limit are equal.
fn verdict(alloc: Global, graph: &mut EGraph<Small>, text: &str) -> Result<&'static str, Error> {
    let (limit, texts) = text.split_once(" ").unwrap_or((text, ""));
    let limit = limit.parse::<usize>().unwrap_or(LIMIT);
    let (left, right) = add_both(graph, texts)?;
    verdict_of_ids(alloc, graph, &left, &right, limit)
}

// Returns how many symmetries were met, and how many of them are open.
fn counts(alloc: Global, graph: &EGraph<Small>) -> Result<String, Error> {
    let met = graph.symmetries_met().len();
    let open = graph.open_symmetries()?;
    Ok(format!(in alloc; "{met} {open}")?)
}

// Decides the graph, and returns whether it is decided.
fn decided(alloc: Global, graph: &mut EGraph<Small>) -> Result<&'static str, Error> {
    let is_decided = decide(alloc, graph, LIMIT)?;
    Ok(if is_decided { "decided" } else { "open" })
}

// Returns how many equations were asserted.
fn asserted(alloc: Global, graph: &EGraph<Small>) -> Result<String, Error> {
    let count = graph.asserted().len();
    Ok(format!(in alloc; "{count}")?)
}

// Returns a text without the last line feed.
fn trimmed(alloc: Global, text: Result<String, Error>) -> Result<String, Error> {
    let text = text?;
    Ok(String::from_str(alloc, text.trim_end())?)
}

// Decides the graph, and returns the proof that the terms of two texts are equal, without the last line feed.
fn explained(alloc: Global, graph: &mut EGraph<Small>, texts: &str) -> Result<String, Error> {
    let (left, right) = texts.split_once(" == ").unwrap_or((texts, ""));
    let left = graph.parse_expr(left)?;
    let right = graph.parse_expr(right)?;
    if !graph.is_valid_expr(&left) || !graph.is_valid_expr(&right) {
        return Err(Error::NotATerm);
    }
    match decided_explain(alloc, graph, &left, &right, LIMIT)? {
        Explained::Proved(proof) => trimmed(alloc, proof.to_string(alloc, graph)),
        _ => Err(Error::NotEqual),
    }
}

// Returns an answer as text.
fn told(word: &str, holds: bool) -> &'static str {
    match (word, holds) {
        ("union", true) => "true",
        ("union", false) => "false",
        (_, true) => "yes",
        (_, false) => "no",
    }
}

// Returns an answer as a text of its own.
fn text_of(alloc: Global, answer: Result<&'static str, Error>) -> Result<String, Error> {
    Ok(String::from_str(alloc, answer?)?)
}

// Returns the answer to a word about texts.
fn answer_of_word(
    alloc: Global,
    graph: &mut EGraph<Small>,
    word: &str,
    texts: &str,
) -> Result<String, Error> {
    match word {
        "explain" => explained(alloc, graph, texts),
        "verdict" => text_of(alloc, verdict(alloc, graph, texts)),
        _ => text_of(alloc, answer_of_texts(alloc, graph, word, texts)),
    }
}

// Returns the answer to a line.
fn answer(alloc: Global, graph: &mut EGraph<Small>, line: &str) -> Result<String, Error> {
    let (word, texts) = line.split_once(" ").unwrap_or((line, ""));
    match line {
        "symmetries" => counts(alloc, graph),
        "asserted" => asserted(alloc, graph),
        "decide" => text_of(alloc, decided(alloc, graph)),
        _ => answer_of_word(alloc, graph, word, texts),
    }
}

// Answers a line, or writes it as it stands.
fn answer_line(rt: &HostRuntime, graph: &mut EGraph<Small>, line: &str) -> io::Result<()> {
    if line.starts_with("# ") {
        return println!(rt; "{line}");
    }
    match answer(rt.alloc(), graph, line) {
        Ok(told) => println!(rt; "{told}"),
        Err(error) => {
            let number = error.number();
            let name = error.name();
            println!(rt; "error: {number} {name}")
        }
    }
}

// Answers the lines of a session over its graph.
fn answer_lines(rt: &HostRuntime, graph: &mut EGraph<Small>, session: &str) -> io::Result<()> {
    for line in session.lines() {
        answer_line(rt, graph, line)?;
    }
    Ok(())
}

// Answers a session over a graph of its own.
fn answer_session(rt: &HostRuntime, session: &str) -> io::Result<()> {
    match EGraph::<Small>::new(rt.alloc(), SlotTable::new(rt.alloc()), ()) {
        Ok(mut graph) => {
            let answered = answer_lines(rt, &mut graph, session);
            let _ = graph.into_table();
            answered
        }
        Err(_) => Err(io::Error::from(ErrorKind::OutOfMemory)),
    }
}

/// Answers this part of the input.
pub fn answer_all(rt: &HostRuntime, text: &str) -> io::Result<()> {
    for (k, session) in text.split("\n---\n").enumerate() {
        if k > 0 {
            println!(rt; "---")?;
        }
        answer_session(rt, session)?;
    }
    Ok(())
}
