//! The example callers of `slotted_egraphs`.
use slotted_egraphs::example::{add_again, is_filed_as, unite_and_ask};
use slotted_egraphs::{EGraph, Error, SlotTable, Small};
use std::alloc::Global;

// Returns whether an e-node is looked up as the id that it was added as.
fn is_filed(graph: &mut EGraph<Small>) -> Result<bool, Error> {
    let node = Small::Number(7);
    if !graph.is_valid_node(&node) {
        return Ok(false);
    }
    let id = graph.add(node)?;
    let again = Small::Number(7);
    if graph.is_valid_node(&again) && graph.is_valid(&id) {
        is_filed_as(graph, &again, &id)
    } else {
        Ok(false)
    }
}

// Unites two e-nodes over the same names, adds a term under a binder again, and looks an e-node up. Returns whether all
// answers are yes.
fn all_hold(graph: &mut EGraph<Small>) -> Result<bool, Error> {
    let united = unite_and_ask(graph, "(f $x $y)", "(app (var $y) (var $x))")?;
    let again = add_again(graph, "(lam $x (app (var $x) (var $y)))")?;
    Ok(united && again && is_filed(graph)?)
}

// Returns whether the example callers answer yes over a new graph.
pub fn are_answered(alloc: Global) -> Result<bool, Error> {
    let mut graph: EGraph<Small> = EGraph::new(alloc, SlotTable::new(alloc), ())?;
    let answer = all_hold(&mut graph);
    let _ = graph.into_table();
    answer
}
