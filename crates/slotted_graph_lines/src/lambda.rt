//! A lambda without a slot for its binder.
use slotted_graph::EGraph;
use slotted_languages::Language;
use slotted_slots::{Error, SlotTable};
use std::alloc::Global;

// Returns whether the id of a lambda is refused its e-nodes if no slot is left for its binder, and is equal to itself.
fn is_equal_to_itself<L: Language>(graph: &mut EGraph<L>) -> Result<bool, Error> {
    let term = graph.parse_expr("(lam $x (var $x))")?;
    let id = graph.add_expr(&term)?;
    graph.named_slot("f1073741823")?;
    if !graph.is_valid(&id) || !matches!(graph.enodes_applied(&id), Err(Error::OutOfSlots)) {
        return Ok(false);
    }
    if graph.is_failed() || !graph.is_valid(&id) {
        return Ok(false);
    }
    graph.eq(&id, &id)
}

/// Returns the same for a new graph.
pub fn lambda_equals_itself<L: Language>(alloc: Global) -> Result<bool, Error> {
    let mut graph: EGraph<L> = EGraph::new(alloc, SlotTable::new(alloc), ())?;
    let holds = is_equal_to_itself(&mut graph);
    let _ = graph.into_table();
    holds
}
