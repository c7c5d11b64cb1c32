//! The answers of lines.
use crate::calls::write_call;
use crate::datum::Datum;
use crate::graphs::{datum, explained, has_number, joined, least, merge, parted, put};
use crate::rebuilds::{rose, stood, write_last};
use crate::units::apply_unit;
use slotted_data::Analysis;
use slotted_graph::{EGraph, modify_once};
use slotted_slots::{AppliedId, Error, Id};
use slotted_small::Small;
use std::alloc::Global;

/// What a session has seen: the id that was put last, and the totals that were marked.
#[derive(Drop)]
pub struct Seen {
    id: AppliedId,
    totals: (u64, u128),
}

impl Seen {
    /// Returns what a new session has seen.
    pub fn new(alloc: Global) -> Seen {
        Seen {
            id: AppliedId::null(alloc),
            totals: (0, 0),
        }
    }
}

// Makes a change. Returns whether the word is that of a change.
fn change<N: Analysis<Small>>(
    graph: &mut EGraph<Small, N>,
    seen: &mut Seen,
    word: &str,
    words: &str,
) -> Result<bool, Error>
where
    N::Data: Datum,
{
    match word {
        "put" => seen.id = put(graph, words)?,
        "mark" => seen.totals = graph.rebuild_totals(),
        "set_rounds" => graph.set_modify_rounds(words.parse().unwrap_or(0)),
        "learn" => {
            let (term, value) = parted(words, ": ");
            merge(graph, term, &N::Data::read(value))?;
        }
        "union" | "quietly" => {
            joined(graph, word, words)?;
        }
        _ => return Ok(false),
    }
    Ok(true)
}

// Returns the number of a word.
fn number<N: Analysis<Small>>(graph: &EGraph<Small, N>, word: &str) -> usize {
    match word {
        "pending" => graph.modify_pending(),
        "rounds" => graph.modify_rounds(),
        "asserted" => graph.asserted().len(),
        "rebuilt" => graph.last_rebuild().nodes,
        _ => graph.symmetries_met().len(),
    }
}

// Returns the answer to a question of yes or no.
fn is_so<N: Analysis<Small>>(
    alloc: Global,
    graph: &mut EGraph<Small, N>,
    seen: &Seen,
    word: &str,
    words: &str,
) -> Result<bool, Error>
where
    N::Data: Datum,
{
    match word {
        "again" => Ok(put(graph, words)? == seen.id),
        "explain" => explained(graph, words),
        "has" => has_number(graph, words.parse().unwrap_or(0)),
        "class" => Ok(graph.is_valid_id(Id(words.parse().unwrap_or(0)))),
        "failed" => Ok(graph.is_failed()),
        "modify" => graph.modify(),
        "modify_once" => modify_once(graph, alloc),
        "rose" => Ok(rose(graph, seen.totals, words.parse().unwrap_or(0))),
        "stood" => Ok(stood(graph, seen.totals)),
        "unit" => apply_unit(alloc, graph, words),
        _ => joined(graph, word, words),
    }
}

// Writes the data of a term's class.
fn write_datum<N: Analysis<Small>>(
    alloc: Global,
    graph: &mut EGraph<Small, N>,
    words: &str,
    text: &mut String,
) -> Result<(), Error>
where
    N::Data: Datum,
{
    let datum = datum(alloc, graph, words)?;
    datum.write(text)
}

// Writes the answer to a question.
fn write_asked<N: Analysis<Small>>(
    alloc: Global,
    graph: &mut EGraph<Small, N>,
    seen: &Seen,
    word: &str,
    words: &str,
    text: &mut String,
) -> Result<(), Error>
where
    N::Data: Datum,
{
    match word {
        "data" => write_datum(alloc, graph, words, text),
        "least" => Ok(text.push_str(&least(alloc, graph, words)?)?),
        "last" => write_last(graph, text),
        "make" | "merge" | "asks" | "carried" => {
            write_call(alloc, graph.analysis(), word, words, text)
        }
        "pending" | "rounds" | "asserted" | "rebuilt" | "symmetries" => {
            let number = number(graph, word);
            Ok(write!(text, "{number}")?)
        }
        _ => {
            let holds = is_so(alloc, graph, seen, word, words)?;
            Ok(text.push_str(if holds { "yes" } else { "no" })?)
        }
    }
}

/// Writes the answer of a line.
pub fn write_answer<N: Analysis<Small>>(
    alloc: Global,
    graph: &mut EGraph<Small, N>,
    seen: &mut Seen,
    line: &str,
    text: &mut String,
) -> Result<(), Error>
where
    N::Data: Datum,
{
    let (word, words) = parted(line, " ");
    if change(graph, seen, word, words)? {
        return Ok(text.push_str("ok")?);
    }
    write_asked(alloc, graph, seen, word, words, text)
}
