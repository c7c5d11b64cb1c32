//! The optimiser: a cheapest program that is equal by the rules, and how it follows.
ghost use Rattle.std.specs.Prelude.{◌≡◌, Some, IfOk, IfErr};
ghost use Rattle.slotted_terms.specs.Valid.{IsWhole};
ghost use Rattle.slotted_theory.specs.Term.{Term};
ghost use Rattle.slotted_costs.specs.Costs.{MayRefuse, costs_by, cost_of_term};
ghost use Rattle.slotted_workspace.specs.Asked.{OfOne, RefusesOne};
ghost use Rattle.slotted_workspace.specs.Spaces.{term_at};
ghost use Rattle.slotted_arrays.specs.Optimising.{DeriveRefused, Derives, OptimiseRefused, Optimises};

use slotted_costs::CostFunction;
use slotted_terms::expr::printing::Printable;
use slotted_workspace::{Extracted, Handle, Limits, Workspace, WorkspaceError};
use std::alloc::Global;

/// A cheapest term that is equal to a given one, and the chain of terms to it.
#[derive(Drop)]
pub struct Derivation<T> {
    pub best: Extracted<T>,
    pub chain: String,
}

/// What became of a program.
#[derive(Drop)]
pub struct Optimised<T> {
    /// What the given program costs.
    pub before: T,
    /// A cheapest program that is equal to it.
    pub derivation: Derivation<T>,
    /// Whether the rules ended before a limit was passed.
    pub ended: bool,
}

// Returns what the term of a handle costs.
fn cost_of<L: Printable, C: CostFunction<L>>(
    alloc: Global,
    workspace: &Workspace<L>,
    handle: Handle,
    costs: &C,
) -> Result<C::Cost, WorkspaceError>
    requires { (t : Term) → term_at workspace.now handle ≡ Some t → IsWhole t.args }
    ensures ok { IfOk result (λ c. OfOne workspace.now handle
        (λ t. c ≡ cost_of_term (costs_by C.Cost.cmp (C.node_cost costs.now)) t)) }
    ensures err { IfErr result
        (RefusesOne workspace.now workspace.now handle (λ _. MayRefuse C.refuses)) }
{
    let term = workspace.term_of(handle)?;
    let cost = costs.cost_rec(alloc, term)?;
    Ok(cost)
}

// Returns a cheapest term that is equal to the term of a handle, and the chain of terms to it.
fn derive<L: Printable, C: CostFunction<L>>(
    workspace: &mut Workspace<L>,
    given: Handle,
    costs: C,
) -> Result<Derivation<C::Cost>, WorkspaceError>
    ensures ok { IfOk result (λ x. OfOne workspace.old given (λ t. Derives L.form L.read L.written
        (costs_by C.Cost.cmp (C.node_cost costs)) workspace.old workspace.new t x)) }
    ensures err { IfErr result (DeriveRefused L.form L.read (costs_by C.Cost.cmp (C.node_cost costs)) C.refuses
        workspace.old workspace.new given) }
{
    let best = workspace.extract_by(given, costs)?;
    let found = workspace.add(best.text.as_str())?;
    let chain = workspace.explain_chain(given, found)?;
    Ok(Derivation { best, chain })
}

/// Adds the program of a text, runs the rules within limits, and returns a cheapest program that is equal.
///
/// The program that it returns costs least among all that are equal in the graph then. The chain leads to it by what the
/// rules asserted.
pub fn optimise<L: Printable, C: CostFunction<L>>(
    alloc: Global,
    workspace: &mut Workspace<L>,
    text: &str,
    costs: C,
    limits: Limits,
) -> Result<Optimised<C::Cost>, WorkspaceError>
    ensures ok { IfOk result (Optimises L.form L.read L.written (costs_by C.Cost.cmp (C.node_cost costs)) limits
        workspace.old workspace.new text.now) }
    ensures err { IfErr result (OptimiseRefused L.form L.read (costs_by C.Cost.cmp (C.node_cost costs)) C.refuses
        limits workspace.old workspace.new text.now) }
{
    let given = workspace.add(text)?;
    let before = cost_of(alloc, workspace, given, &costs)?;
    let ended = workspace.saturate(limits)?;
    let derivation = derive(workspace, given, costs)?;
    Ok(Optimised {
        before,
        derivation,
        ended,
    })
}
