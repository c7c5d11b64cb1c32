//! The walk over the rows of a session, in which memory may be refused.
use crate::asked::{answer, parted};
use slotted_graph::EGraph;
use slotted_slots::Error;
use slotted_small::Small;
use std::alloc::Global;

/// How a row is answered.
#[derive(Clone, Copy)]
pub enum Walked {
    /// As it has to be.
    Answered,
    /// Memory was refused, and the graph has failed.
    Refused,
    /// In another way.
    Wrong,
}

// Returns whether an answer is the wanted one, or `None` if memory was refused.
fn is_answered(alloc: Global, graph: &mut EGraph<Small>, row: &str) -> Option<bool> {
    let (question, wanted) = parted(row, " => ");
    match answer(alloc, graph, question) {
        Ok(told) => Some(told.is(wanted)),
        Err(Error::OutOfMemory) => None,
        Err(e) => Some(e.name() == wanted),
    }
}

/// Asks a question, and once more if memory was refused and the graph has not failed, since nothing was asserted then.
/// One growth at most is refused.
pub fn step(alloc: Global, graph: &mut EGraph<Small>, row: &str) -> Walked {
    let asserted = graph.asserted().len();
    let holds = match is_answered(alloc, graph, row) {
        Some(holds) => holds,
        None if graph.is_failed() => return Walked::Refused,
        None => {
            graph.asserted().len() == asserted && is_answered(alloc, graph, row) == Some(true)
        }
    };
    if holds {
        Walked::Answered
    } else {
        Walked::Wrong
    }
}
