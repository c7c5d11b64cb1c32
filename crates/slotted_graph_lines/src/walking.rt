//! Sessions in which memory or slots may end.
use crate::asked::is_answered;
use crate::failing::refuses_all;
use slotted_explain::EGraph;
use slotted_proofs::ProvenEq;
use slotted_questions::graphs::{empty, parted};
use slotted_slots::{Error, SlotTable};
use slotted_terms::expr::printing::Printable;
use std::alloc::Global;

/// How far the rows of a session are answered.
#[derive(Clone, Copy)]
pub enum Walked<'a> {
    /// Each row has its answer.
    Ended,
    /// What ended was refused in this row, and the graph has failed as it has to.
    Refused(&'a str),
    /// This row has another answer.
    Wrong(&'a str),
}

// Asks a question that was refused once more. One growth at most is refused, but no slot comes back.
fn is_answered_again<L: Printable>(
    alloc: Global,
    graph: &mut EGraph<L>,
    other: &mut EGraph<L>,
    known: &mut Vec<ProvenEq>,
    row: &str,
    ended: u8,
) -> bool {
    match is_answered(alloc, graph, other, known, row, ended) {
        Some(holds) => holds && ended == 1,
        None => ended != 1,
    }
}

// Asks a question, and once more if something ended and the graph has not failed, since nothing was asserted then.
fn step<'a, L: Printable>(
    alloc: Global,
    graph: &mut EGraph<L>,
    other: &mut EGraph<L>,
    known: &mut Vec<ProvenEq>,
    row: &'a str,
    ended: u8,
) -> Walked<'a> {
    let asserted = graph.asserted().len();
    let was_failed = graph.is_failed();
    let holds = match is_answered(alloc, graph, other, known, row, ended) {
        Some(holds) => holds,
        None if graph.is_failed() => return Walked::Refused(row),
        None => {
            graph.asserted().len() == asserted
                && is_answered_again(alloc, graph, other, known, row, ended)
        }
    };
    if holds && (graph.is_failed() == was_failed || row.ends_with(" OutOfSlots")) {
        Walked::Ended
    } else {
        Walked::Wrong(row)
    }
}

// Asks the rows up to the end, or to the first write that is refused. A row that begins with `# ` is a remark.
fn walk<'a, L: Printable>(
    alloc: Global,
    graph: &mut EGraph<L>,
    other: &mut EGraph<L>,
    known: &mut Vec<ProvenEq>,
    rows: &'a str,
    ended: u8,
) -> Walked<'a> {
    for row in rows.lines() {
        if row.starts_with("# ") {
            continue;
        }
        match step(alloc, graph, other, known, row, ended) {
            Walked::Ended => {}
            walked => return walked,
        }
    }
    Walked::Ended
}

// Returns whether a failed graph refuses each call, here over what another graph reads.
fn is_left_failed<L: Printable>(
    alloc: Global,
    graph: &mut EGraph<L>,
    other: &mut EGraph<L>,
) -> Result<bool, Error> {
    let term = other.parse_expr("a")?;
    refuses_all(alloc, graph, &term)
}

// Asks the rows beside another graph, and then over the graph that has failed.
fn walk_beside<'a, L: Printable>(
    alloc: Global,
    graph: &mut EGraph<L>,
    other: &mut EGraph<L>,
    rows: &'a str,
    ended: u8,
) -> Walked<'a> {
    let mut known = Vec::new(alloc);
    let walked = walk(alloc, graph, other, &mut known, rows, ended);
    let Walked::Refused(row) = walked else {
        return walked;
    };
    if is_left_failed(alloc, graph, other).unwrap_or(false) {
        walked
    } else {
        Walked::Wrong(row)
    }
}

// Asks the rows beside a new graph.
fn walk_beside_new<'a, L: Printable>(
    alloc: Global,
    graph: &mut EGraph<L>,
    rows: &'a str,
    ended: u8,
) -> Result<Walked<'a>, Error> {
    let mut other: EGraph<L> = empty(alloc, "0")?;
    let walked = walk_beside(alloc, graph, &mut other, rows, ended);
    let _ = other.into_table();
    Ok(walked)
}

// Writes the number of the slot of a name, or of a fresh slot for `+`, or the name of an error.
fn write_number(table: &mut SlotTable, name: &str, text: &mut String) -> Result<(), Error> {
    let slot = if name == "+" {
        table.fresh()
    } else {
        table.named(name)
    };
    match slot {
        Ok(slot) => {
            let number = slot.raw();
            Ok(write!(text, "{number} ")?)
        }
        Err(error) => {
            let name = error.name();
            Ok(write!(text, "{name} ")?)
        }
    }
}

// Returns whether the slots of names have the numbers behind an arrow.
fn is_told(alloc: Global, table: &mut SlotTable, row: &str) -> Result<bool, Error> {
    let (names, wanted) = parted(row, " => ");
    let mut text = String::new(alloc);
    for name in names.split_whitespace() {
        write_number(table, name, &mut text)?;
    }
    Ok(text.as_str().trim() == wanted.trim())
}

// Asks the table that came out of the graph, unless the graph was refused.
fn walk_table<'a>(
    alloc: Global,
    table: &mut SlotTable,
    walked: Result<Walked<'a>, Error>,
    names: &'a str,
) -> Result<Walked<'a>, Error> {
    let walked = walked?;
    if is_told(alloc, table, names)? {
        Ok(walked)
    } else {
        Ok(Walked::Wrong(names))
    }
}

/// Asks the rows of a session in a new graph over a table that has read a name, up to the end or to the first write
/// that is refused. Behind `table ` in the last row, the table that comes out of the graph is asked.
pub fn walk_session<'a, L: Printable>(
    alloc: Global,
    name: &str,
    session: &'a str,
    ended: u8,
) -> Result<Walked<'a>, Error> {
    let (rows, names) = parted(session, "\ntable ");
    let mut graph: EGraph<L> = empty(alloc, name)?;
    let walked = walk_beside_new(alloc, &mut graph, rows, ended);
    let mut table = graph.into_table();
    walk_table(alloc, &mut table, walked, names)
}
