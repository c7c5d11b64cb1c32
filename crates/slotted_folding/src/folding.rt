//! Folding a term: by the rules of arithmetic, and by the analysis of constants.
ghost use Rattle.std.specs.Prelude.{IfOk};
ghost use Rattle.std.specs.Ordering.{nat_cmp};
ghost use Rattle.slotted_terms.specs.Valid.{IsValidTerm};
ghost use Rattle.slotted_costs.specs.Costs.{costs_by};
ghost use Rattle.slotted_costs.specs.Size.{size_cost};
ghost use Rattle.slotted_proofs.specs.Equations.{to_applied};
ghost use Rattle.slotted_graph.specs.LeastTerms.{IsLeastTerm};

use crate::rules::{Rule, arithmetic};
use slotted_const_fold::ConstFold;
use slotted_data::Analysis;
use slotted_extract::ast_size_extract;
use slotted_graph::EGraph;
use slotted_rules::{Clock, NoHook, Runner, StopReason, are_valid};
use slotted_slots::{AppliedId, Error, SlotTable};
use slotted_small::Small;
use slotted_terms::RecExpr;
use std::alloc::Global;
use std::convert::Infallible;

/// The runner of a term. Its graph keeps which numbers classes are known to be, and makes the classes equal to them.
pub type Folder<K> = Runner<Small, ConstFold, (), Infallible, NoHook, K>;

/// The result of folding a term.
#[derive(Drop)]
pub struct Folded {
    /// A smallest term that equals the folded one.
    pub term: String,
    /// The number of e-classes of the graph.
    pub classes: usize,
    /// The number of e-nodes of the graph.
    pub nodes: usize,
    /// Whether the last turn changed nothing.
    pub is_saturated: bool,
}

// Adds the term of a text. Returns its id.
fn put<N: Analysis<Small>>(graph: &mut EGraph<Small, N>, text: &str) -> Result<AppliedId, Error> {
    let term = graph.parse_expr(text)?;
    graph.add_expr(&term)
}

// Runs rules. Returns whether the last turn changed nothing.
fn run_rules<K: Clock>(folder: &mut Folder<K>, rules: &[Rule]) -> Result<bool, Error> {
    if !are_valid(&folder.egraph, rules) {
        return Err(Error::Failed);
    }
    let report = folder.run(rules)?;
    Ok(matches!(report.stop_reason, StopReason::Saturated))
}

// Runs the rules of arithmetic. Returns whether the last turn changed nothing.
fn saturate<K: Clock>(alloc: Global, folder: &mut Folder<K>) -> Result<bool, Error> {
    let rules = arithmetic(alloc, &mut folder.egraph)?;
    run_rules(folder, &rules)
}

// Returns a smallest term that an id represents.
fn smallest<N: Analysis<Small>>(
    alloc: Global,
    graph: &mut EGraph<Small, N>,
    id: &AppliedId,
) -> Result<RecExpr<Small>, Error>
    ensures least { IfOk result (IsLeastTerm graph.old (costs_by nat_cmp size_cost) (to_applied id.now)) }
    ensures valid { IfOk result (λ t. IsValidTerm graph.new.table t) }
{
    if !graph.is_valid(id) {
        return Err(Error::Failed);
    }
    ast_size_extract(alloc, id, graph)
}

// Returns the text of a smallest term that an id represents.
fn smallest_text<N: Analysis<Small>>(
    alloc: Global,
    graph: &mut EGraph<Small, N>,
    id: &AppliedId,
) -> Result<String, Error> {
    let term = smallest(alloc, graph, id)?;
    term.text(alloc, graph.table())
}

// Folds the term of a text in a runner's graph.
fn fold_in<K: Clock>(alloc: Global, folder: &mut Folder<K>, text: &str) -> Result<Folded, Error> {
    let id = put(&mut folder.egraph, text)?;
    let is_saturated = saturate(alloc, folder)?;
    let classes = folder.egraph.ids()?.len();
    let nodes = folder.egraph.total_number_of_nodes();
    let term = smallest_text(alloc, &mut folder.egraph, &id)?;
    Ok(Folded {
        term,
        classes,
        nodes,
        is_saturated,
    })
}

/// Folds the term of a text in a graph of its own. The rules run until a turn changes nothing, or until more turns are
/// stored than the limit.
pub fn fold<K: Clock>(
    alloc: Global,
    clock: K,
    text: &str,
    turn_limit: usize,
) -> Result<Folded, Error> {
    let runner = Runner::new(alloc, SlotTable::new(alloc), ConstFold, clock)?;
    let mut folder: Folder<K> = runner.with_iter_limit(turn_limit);
    let folded = fold_in(alloc, &mut folder, text);
    let _ = folder.into_table();
    folded
}
