//! Questions to a graph that is decided first: each yes and each no is right, without exception.
ghost use Rattle.std.specs.Prelude.{◌≡◌, ◌⊎◌, ◌↔◌, IfErr, IfOk, IsErr, IsErrOf, IsTrue, OnOk};
ghost use Rattle.slotted_terms.specs.Valid.{IsValidTerm};
ghost use Rattle.slotted_proofs.specs.Equations.{to_applied};
ghost use Rattle.slotted_operations.specs.Graph.{IsFullId};
ghost use Rattle.slotted_operations.specs.ValidIds.{IsValidId};
ghost use Rattle.slotted_graph.specs.States.{IsGraph};
ghost use Rattle.slotted_deciding.specs.Asking.{AreEqual, IsExplained, IsExplainedOf, IsJudged, StandsFor};
ghost use Rattle.slotted_graph.specs.Analysed.{LowersData};
ghost use Rattle.slotted_deciding.specs.Steps.{CanRefuse, GoesTo, LeadsTo};

use crate::deciding::decide;
use crate::failing::fail_if_refused;
use crate::is_equal_up_to_symmetries;
use crate::proving::proof_between;
use slotted_data::Analysis;
use slotted_graph::EGraph;
use slotted_languages::Language;
use slotted_proofs::ProvenEq;
use slotted_slots::{AppliedId, Error};
use slotted_terms::expr::RecExpr;
use std::alloc::Global;

/// The answer to the question whether two ids are equal.
#[derive(Clone, Copy, Debug, PartialEq, Eq)]
pub enum Verdict {
    /// They are equal by what was asserted.
    Yes,
    /// They are not equal by what was asserted.
    No,
    /// The limit was met before the graph was decided, and they are not found equal.
    Open,
}

/// The answer to the question why two terms are equal.
#[derive(Clone, Copy, Debug, PartialEq, Eq)]
pub enum Explained {
    /// They are equal, by this proof.
    Proved(ProvenEq),
    /// They are not equal by what was asserted.
    Unequal,
    /// The limit was met before the graph was decided, and they are not found equal.
    Undecided,
}

// Returns whether two ids are equal. The graph has not failed, and is decided unless the ids are found equal as it is.
fn judge<L: Language, N: Analysis<L>>(
    alloc: Global,
    graph: &mut EGraph<L, N>,
    a: &AppliedId,
    b: &AppliedId,
    limit: usize,
) -> Result<Verdict, Error>
    requires graph { IsGraph graph.old }
    requires left { IsValidId graph.old (to_applied a.now) }
    requires right { IsValidId graph.old (to_applied b.now) }
    ensures judged { IfOk result (IsJudged graph.new.image (to_applied a.now) (to_applied b.now)) }
    ensures goes { OnOk result (LeadsTo N.codes N.meaning graph.old graph.new) }
    ensures err { IfErr result CanRefuse }
{
    if is_equal_up_to_symmetries(alloc, graph, a, b)? {
        return Ok(Verdict::Yes);
    }
    let is_decided = decide(alloc, graph, limit)?;
    if is_equal_up_to_symmetries(alloc, graph, a, b)? {
        return Ok(Verdict::Yes);
    }
    if is_decided {
        return Ok(Verdict::No);
    }
    Ok(Verdict::Open)
}

/// Returns whether two ids are equal by what was asserted. Decides the graph first, unless they are found equal as it is.
///
/// At most `limit` e-nodes are added. The answer is `Open` only if these were too few.
pub fn decided_eq<L: Language, N: Analysis<L>>(
    alloc: Global,
    graph: &mut EGraph<L, N>,
    a: &AppliedId,
    b: &AppliedId,
    limit: usize,
) -> Result<Verdict, Error>
    requires left { IsTrue graph.old.failed ⊎ IsValidId graph.old (to_applied a.now) }
    requires right { IsTrue graph.old.failed ⊎ IsValidId graph.old (to_applied b.now) }
    ensures judged { IfOk result (IsJudged graph.new.image (to_applied a.now) (to_applied b.now)) }

    // What was there stays, and nothing is asserted. Data of the analysis only goes down.
    ensures goes { IsTrue graph.new.failed ⊎ GoesTo graph.old graph.new }
    ensures lowers { IsTrue graph.new.failed ⊎ LowersData N.codes N.meaning graph.old graph.new }

    ensures stays { IsTrue graph.old.failed → graph.new ≡ graph.old }
    ensures failed { IsErrOf result Error.Failed ↔ IsTrue graph.old.failed }
    ensures fails { IsTrue graph.new.failed ↔ IsErr result }
    ensures only { IfErr result (λ e. (e ≡ Error.Failed) ⊎ CanRefuse e) }
{
    if graph.is_failed() {
        return Err(Error::Failed);
    }
    let outcome = judge(alloc, graph, a, b, limit);
    fail_if_refused(graph, outcome)
}

// The ids of two terms.
#[derive(Drop)]
struct Both {
    left: AppliedId,
    right: AppliedId,
}

// Adds two terms, and returns their ids.
fn add_both<L: Language, N: Analysis<L>>(
    graph: &mut EGraph<L, N>,
    left: &RecExpr<L>,
    right: &RecExpr<L>,
) -> Result<Both, Error>
    requires graph { IsGraph graph.old }
    requires first { IsValidTerm graph.old.table left.now }
    requires second { IsValidTerm graph.old.table right.now }
    ensures left { IfOk result (λ both. StandsFor graph.new (to_applied both.left) left.now) }
    ensures right { IfOk result (λ both. StandsFor graph.new (to_applied both.right) right.now) }
    ensures goes { OnOk result (LeadsTo N.codes N.meaning graph.old graph.new) }
    ensures err { IfErr result CanRefuse }
{
    let one = graph.add_syn_expr_quietly(left)?;
    let two = graph.add_syn_expr_quietly(right)?;
    Ok(Both {
        left: one,
        right: two,
    })
}

// Proves that two ids are equal, which are.
fn prove_both<L: Language, N: Analysis<L>>(
    alloc: Global,
    graph: &mut EGraph<L, N>,
    both: &Both,
) -> Result<Explained, Error>
    requires graph { IsGraph graph.old }
    requires left { IsFullId graph.old (to_applied both.now.left) }
    requires right { IsFullId graph.old (to_applied both.now.right) }
    requires equal { AreEqual graph.old.image (to_applied both.now.left) (to_applied both.now.right) }
    ensures explained { IfOk result (IsExplainedOf graph.new.image (to_applied both.now.left) (to_applied both.now.right)) }
    ensures goes { OnOk result (LeadsTo N.codes N.meaning graph.old graph.new) }
    ensures err { IfErr result CanRefuse }
{
    match proof_between(alloc, graph, &both.left, &both.right)? {
        Some(proof) => Ok(Explained::Proved(proof)),
        None => Err(Error::BadStep),
    }
}

// Returns the proof that two ids are equal, if they are, and decides the graph first if need be.
fn explain_both<L: Language, N: Analysis<L>>(
    alloc: Global,
    graph: &mut EGraph<L, N>,
    both: &Both,
    limit: usize,
) -> Result<Explained, Error>
    requires graph { IsGraph graph.old }
    requires left { IsFullId graph.old (to_applied both.now.left) }
    requires right { IsFullId graph.old (to_applied both.now.right) }
    ensures explained { IfOk result (IsExplainedOf graph.new.image (to_applied both.now.left) (to_applied both.now.right)) }
    ensures goes { OnOk result (LeadsTo N.codes N.meaning graph.old graph.new) }
    ensures err { IfErr result CanRefuse }
{
    match judge(alloc, graph, &both.left, &both.right, limit)? {
        Verdict::Yes => prove_both(alloc, graph, both),
        Verdict::No => Ok(Explained::Unequal),
        Verdict::Open => Ok(Explained::Undecided),
    }
}

// Adds two terms to a graph that has not failed, and explains why they are equal.
fn explain_terms<L: Language, N: Analysis<L>>(
    alloc: Global,
    graph: &mut EGraph<L, N>,
    left: &RecExpr<L>,
    right: &RecExpr<L>,
    limit: usize,
) -> Result<Explained, Error>
    requires graph { IsGraph graph.old }
    requires left { IsValidTerm graph.old.table left.now }
    requires right { IsValidTerm graph.old.table right.now }
    ensures explained { IfOk result (IsExplained graph.new.image left.now right.now) }
    ensures goes { OnOk result (LeadsTo N.codes N.meaning graph.old graph.new) }
    ensures err { IfErr result CanRefuse }
{
    let both = add_both(graph, left, right)?;
    explain_both(alloc, graph, &both, limit)
}

/// Adds two terms, and returns the proof that the terms are equal, if they are. Decides the graph first, unless they are
/// found equal as it is.
///
/// At most `limit` e-nodes are added beside those of the terms. The answer is `Undecided` only if these were too few. Classes
/// are not modified: the calls of a graph whose analysis modifies do so.
pub fn decided_explain<L: Language, N: Analysis<L>>(
    alloc: Global,
    graph: &mut EGraph<L, N>,
    left: &RecExpr<L>,
    right: &RecExpr<L>,
    limit: usize,
) -> Result<Explained, Error>
    requires left { IsTrue graph.old.failed ⊎ IsValidTerm graph.old.table left.now }
    requires right { IsTrue graph.old.failed ⊎ IsValidTerm graph.old.table right.now }
    ensures explained { IfOk result (IsExplained graph.new.image left.now right.now) }

    // What was there stays, and nothing is asserted. Data of the analysis only goes down.
    ensures goes { IsTrue graph.new.failed ⊎ GoesTo graph.old graph.new }
    ensures lowers { IsTrue graph.new.failed ⊎ LowersData N.codes N.meaning graph.old graph.new }

    ensures stays { IsTrue graph.old.failed → graph.new ≡ graph.old }
    ensures failed { IsErrOf result Error.Failed ↔ IsTrue graph.old.failed }
    ensures fails { IsTrue graph.new.failed ↔ IsErr result }
    ensures only { IfErr result (λ e. (e ≡ Error.Failed) ⊎ CanRefuse e) }
{
    if graph.is_failed() {
        return Err(Error::Failed);
    }
    let outcome = explain_terms(alloc, graph, left, right, limit);
    fail_if_refused(graph, outcome)
}
