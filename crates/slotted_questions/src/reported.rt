//! What is counted in a graph, and questions on filed e-nodes.
use crate::found::look_up;
use crate::ids::{own, slots_left};
use slotted_graph::EGraph;
use slotted_languages::Language;
use slotted_slots::{AppliedId, Error, Id};
use std::alloc::Global;
use std::collections::HashSet;

// Returns the filed e-nodes of an id's class, if the id is valid.
fn nodes_of<L: Language>(graph: &mut EGraph<L>, a: &AppliedId) -> Result<Vec<L>, Error> {
    if graph.is_valid(a) {
        graph.enodes_applied(a)
    } else {
        Err(Error::NotATerm)
    }
}

// Returns whether an e-node is looked up as this id.
fn is_found<L: Language>(graph: &EGraph<L>, node: &L, id: &AppliedId) -> Result<bool, Error> {
    match look_up(graph, node)? {
        Some(found) => Ok(found == *id),
        None => Ok(false),
    }
}

// Returns whether each e-node is looked up as this id.
fn are_found<L: Language>(graph: &EGraph<L>, nodes: &[L], id: &AppliedId) -> Result<bool, Error> {
    for node in nodes {
        if !is_found(graph, node, id)? {
            return Ok(false);
        }
    }
    Ok(true)
}

// Returns whether the shape of one e-node is less than that of another.
fn is_before<L: Language>(alloc: Global, left: &L, right: &L) -> Result<bool, Error> {
    let (left, _) = left.weak_shape(alloc)?;
    let (right, _) = right.weak_shape(alloc)?;
    Ok(left < right)
}

// Returns whether the shapes of e-nodes ascend.
fn ascend<L: Language>(alloc: Global, nodes: &[L]) -> Result<bool, Error> {
    for i in 1..nodes.len() {
        if !is_before(alloc, &nodes[i - 1], &nodes[i])? {
            return Ok(false);
        }
    }
    Ok(true)
}

// Returns the filed e-nodes of a class as a set, if the class exists.
fn set_of<L: Language>(graph: &EGraph<L>, id: Id) -> Result<HashSet<L>, Error> {
    if graph.is_valid_id(id) {
        graph.enodes(id)
    } else {
        Err(Error::NotATerm)
    }
}

// Returns how many e-nodes of a set are looked up as this id.
fn found_count<L: Language>(
    graph: &EGraph<L>,
    nodes: &HashSet<L>,
    id: &AppliedId,
) -> Result<usize, Error> {
    let mut count: usize = 0;
    for node in nodes.iter() {
        if is_found(graph, node, id)? {
            count = count.saturating_add(1);
        }
    }
    Ok(count)
}

// Returns how many e-nodes of a class's set are looked up as the class with its own slots.
fn member_count<L: Language>(graph: &EGraph<L>, a: &AppliedId) -> Result<usize, Error> {
    let class = own(graph, a)?;
    let nodes = set_of(graph, a.id)?;
    found_count(graph, &nodes, &class)
}

// Returns how many e-nodes the sets of all live classes have together.
fn all_members<L: Language>(graph: &EGraph<L>) -> Result<usize, Error> {
    let mut count: usize = 0;
    for id in graph.ids()? {
        count = count.saturating_add(set_of(graph, id)?.len());
    }
    Ok(count)
}

/// Returns whether the total number of e-nodes is what the sets of all live classes have together.
pub fn has_each_once<L: Language>(graph: &EGraph<L>) -> Result<bool, Error> {
    Ok(all_members(graph)? == graph.total_number_of_nodes())
}

/// Returns whether the filed e-nodes of an id's class ascend, and are looked up as the id.
pub fn are_its<L: Language>(
    alloc: Global,
    graph: &mut EGraph<L>,
    id: &AppliedId,
) -> Result<bool, Error> {
    let nodes = nodes_of(graph, id)?;
    Ok(ascend(alloc, &nodes)? && are_found(graph, &nodes, id)?)
}

// Returns how many filed e-nodes the class of an id has.
fn node_count<L: Language>(graph: &mut EGraph<L>, a: &AppliedId) -> Result<usize, Error> {
    Ok(nodes_of(graph, a)?.len())
}

// Returns how many children the syntactic e-node of an id has, if the id is valid.
fn child_count<L: Language>(graph: &mut EGraph<L>, a: &AppliedId) -> Result<usize, Error> {
    if !graph.is_valid(a) {
        return Err(Error::NotATerm);
    }
    let node = graph.get_syn_node(a)?;
    Ok(node.applied_id_count())
}

// Returns the length of the list of live classes, of proofs, or of asserted equations.
fn number_of_list<L: Language>(graph: &EGraph<L>, word: &str) -> Result<usize, Error> {
    match word {
        "live" => Ok(graph.ids()?.len()),
        "proved" => Ok(graph.proof_count()),
        _ => Ok(graph.asserted().len()),
    }
}

// Returns a number of the graph's progress.
fn number_of_report<L: Language>(graph: &EGraph<L>, word: &str) -> usize {
    match word {
        "total" => graph.total_number_of_nodes(),
        "classes" => graph.progress().number_of_classes,
        "live" => graph.progress().number_of_live_classes,
        _ => graph.progress().sum_of_slots,
    }
}

/// Returns a number that is asked of an id, of the graph's reports, or of its lists.
pub fn number_of<L: Language>(
    graph: &mut EGraph<L>,
    id: &AppliedId,
    what: &str,
    word: &str,
) -> Result<usize, Error> {
    match what {
        "children" => child_count(graph, id),
        "slots" => slots_left(graph, id),
        "nodes" => node_count(graph, id),
        "members" => member_count(graph, id),
        "sets" => all_members(graph),
        "filed" => Ok(number_of_report(graph, word)),
        _ => number_of_list(graph, word),
    }
}

/// Returns whether the last rebuild took no more turns than its bound allows, and all rebuilds together no more than
/// the sum of their bounds.
pub fn is_within_bounds<L: Language>(graph: &EGraph<L>) -> bool {
    let last = graph.last_rebuild();
    let (turns, bound) = graph.rebuild_totals();
    let fall = last.size_before.saturating_sub(last.size_after);
    let most = (last.nodes as u128).saturating_mul(fall.saturating_add(1));
    last.size_after <= last.size_before && last.turns as u128 <= most && turns as u128 <= bound
}

/// Returns whether the last rebuild left as many live classes and slots as there are now.
pub fn has_left_size<L: Language>(graph: &EGraph<L>) -> bool {
    let last = graph.last_rebuild();
    let progress = graph.progress();
    let classes = progress.number_of_live_classes as u128;
    last.size_after == classes + progress.sum_of_slots as u128
}
