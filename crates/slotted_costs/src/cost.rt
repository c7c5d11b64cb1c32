//! Cost functions and their laws.
ghost use Rattle.std.specs.Prelude.{◌≡◌, ◌≤◌, List, length, IfOk, IfErr, OnOk};
ghost use Rattle.slotted_theory.specs.Nameless.{DTerm};
ghost use Rattle.slotted_slots.specs.Error.{IsOutOfMemory};
ghost use Rattle.slotted_slots.specs.declared.error.Error.{Error};
ghost use Rattle.slotted_slots.specs.declared.error.Error.TheVariants.{Failed};
ghost use Rattle.slotted_nodes.specs.Form.{children};
ghost use Rattle.slotted_terms.specs.Valid.{IsWhole};
ghost use Rattle.slotted_costs.specs.FlatCosts.{closed_costs};
ghost use Rattle.slotted_costs.specs.Costs.{HasValuesFor, bare_node, costs_by, cost_of_term, MayRefuse};
ghost use Rattle.slotted_costs.specs.Laws.{NeverFalls, CoversChildren, CostLaws};

use slotted_languages::language::Language;
use slotted_slots::Error;
use slotted_terms::RecExpr;
use slotted_terms::flat::{FlatNode, flatten};
use std::alloc::Global;

/// A cost function: what an e-node costs over the costs of its children, in any type with an order.
///
/// A cost may read the operator of an e-node, its payloads, and which of its places have one name. So it is a function
/// of what is left of the e-node without its names and children: two e-nodes that differ only in these have the same
/// cost over the same costs of children. A dearer child never makes an e-node cheaper, and an e-node costs no less than
/// any child.
pub trait CostFunction<L: Language>: Drop {
    /// The type of costs.
    type Cost: Ord + Clone + Drop;

    // The cost of an e-node, by what is left of the e-node without names and children, and by the costs of its children
    // from the left. The operator there is one more than the e-node's.
    ghost node_cost: { Self → DTerm → List Self.Cost → Self.Cost };

    // The errors that `cost` may return.
    ghost refuses: { Error → Type 0 };

    /// Returns a cost that equals this one.
    fn copy(&self, alloc: Global, cost: &Self::Cost) -> Result<Self::Cost, Error>
        ensures ok { IfOk result (λ c. c ≡ cost.now) }
        ensures err { IfErr result IsOutOfMemory };

    /// Returns the cost of an e-node whose children have these costs, from the left.
    fn cost(&self, alloc: Global, node: &L, child: &[Self::Cost]) -> Result<Self::Cost, Error>
        requires { HasValuesFor (L.form node.now) child.now }
        ensures ok { IfOk result (λ c. c ≡ node_cost self.now (bare_node (L.form node.now)) child.now) }
        ensures err { IfErr result refuses };

    /// Returns the cost of a term. Each e-node of the term has to have the right number of children.
    final fn cost_rec(&self, alloc: Global, term: &RecExpr<L>) -> Result<Self::Cost, Error>
        requires { IsWhole term.now.args }
        ensures ok { IfOk result (λ c. c ≡ cost_of_term (costs_by Self.Cost.cmp (node_cost self.now)) term.now) }
        ensures err { IfErr result (MayRefuse refuses) }
    {
        term_cost(self, alloc, term)
    }

    // Dearer children never make an e-node cheaper.
    ghost never_falls: { (k : Self) → NeverFalls L.form (costs_by Self.Cost.cmp (node_cost k)) };

    // An e-node costs no less than any child.
    ghost covers_children: { (k : Self) → CoversChildren L.form (costs_by Self.Cost.cmp (node_cost k)) };

    // `Failed` is an error of graphs alone.
    ghost never_failed: { ¬ refuses Failed };
}

// Replaces the costs of the last `node.count` terms by the cost of the node over them.
fn close<L: Language, F: CostFunction<L>>(
    costs: &F,
    alloc: Global,
    done: &mut Vec<F::Cost>,
    node: &FlatNode<L>,
) -> Result<(), Error>
    requires enough { node.now.count ≤ length done.old.items }
    requires right { node.now.count ≡ length (children (L.form node.now.node).tree) }
    ensures ok { OnOk result (done.new.items
        ≡ closed_costs (F.node_cost costs.now) (L.form node.now.node) node.now.count done.old.items) }
    ensures err { IfErr result (MayRefuse F.refuses) }
{
    let below = done.split_off(done.len() - node.count)?;
    let cost = costs.cost(alloc, &node.node, &below)?;
    done.push(cost)?;
    Ok(())
}

// Returns the cost of a term, from the lowest nodes upwards.
fn term_cost<L: Language, F: CostFunction<L>>(
    costs: &F,
    alloc: Global,
    term: &RecExpr<L>,
) -> Result<F::Cost, Error>
    requires whole { IsWhole term.now.args }
    ensures ok { IfOk result (λ c. c ≡ cost_of_term (costs_by F.Cost.cmp (F.node_cost costs.now)) term.now) }
    ensures err { IfErr result (MayRefuse F.refuses) }
{
    let mut nodes = flatten(alloc, term)?;
    let mut done = Vec::new(alloc);
    while let Some(node) = nodes.pop() {
        close(costs, alloc, &mut done, &node)?;
    }
    match done.pop() {
        Some(cost) => Ok(cost),
        None => unreachable!(),
    }
}

/// Proves that the costs of each cost function are lawful on the e-nodes of its language, in a total order.
pub fn costs_are_lawful<L: Language, F: CostFunction<L>>()
    ensures { (k : F) → CostLaws L.form (costs_by F.Cost.cmp (F.node_cost k)) }
{}
