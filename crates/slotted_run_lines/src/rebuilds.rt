//! What rebuilds have done.
use slotted_data::Analysis;
use slotted_graph::EGraph;
use slotted_slots::Error;
use slotted_small::Small;

/// Writes how many turns the last rebuild took, and the size of the graph before and after it.
pub fn write_last<N: Analysis<Small>>(
    graph: &EGraph<Small, N>,
    text: &mut String,
) -> Result<(), Error> {
    let last = graph.last_rebuild();
    let (turns, before, after) = (last.turns, last.size_before, last.size_after);
    Ok(write!(text, "{turns} turns, size {before} to {after}")?)
}

/// Returns whether at least so many turns were taken since there were these totals, and no more than the bound allows.
pub fn rose<N: Analysis<Small>>(graph: &EGraph<Small, N>, before: (u64, u128), least: u64) -> bool {
    let now = graph.rebuild_totals();
    let turns = now.0.saturating_sub(before.0);
    turns >= least && turns as u128 <= now.1.saturating_sub(before.1)
}

/// Returns whether no turn was taken since there were these totals, though the bound rose.
pub fn stood<N: Analysis<Small>>(graph: &EGraph<Small, N>, before: (u64, u128)) -> bool {
    let now = graph.rebuild_totals();
    now.0 == before.0 && now.1 > before.1
}
