//! Searches of all classes and of one, and a substitution among ids.
use slotted_graph::EGraph;
use slotted_patterns::Pattern;
use slotted_rules::{ematch_all, subst_ids};
use slotted_slots::{AppliedId, Error};
use slotted_small::Small;
use std::alloc::Global;

/// Returns how many substitutions a search for a pattern finds.
pub fn count_all(
    alloc: Global,
    graph: &mut EGraph<Small>,
    searched: &Pattern<Small>,
) -> Result<usize, Error> {
    if !graph.is_valid_pattern(searched) {
        return Err(Error::Failed);
    }
    let all = ematch_all(alloc, graph, searched)?;
    Ok(all.len())
}

/// Returns how many matches a pattern has in the class of an id.
pub fn count_in(
    graph: &mut EGraph<Small>,
    id: &AppliedId,
    searched: &Pattern<Small>,
) -> Result<usize, Error> {
    if !graph.is_valid(id) || !graph.is_valid_pattern(searched) {
        return Err(Error::Failed);
    }
    let found = graph.find_matches_in(id, searched)?;
    Ok(found.len())
}

/// Returns the id of `b[x := t]`, if the three ids are full.
pub fn replaced(
    alloc: Global,
    graph: &mut EGraph<Small>,
    b: &AppliedId,
    x: &AppliedId,
    t: &AppliedId,
) -> Result<AppliedId, Error> {
    if !graph.is_full(b) || !graph.is_full(x) || !graph.is_full(t) {
        return Err(Error::Failed);
    }
    subst_ids(alloc, graph, b, x, t)
}
