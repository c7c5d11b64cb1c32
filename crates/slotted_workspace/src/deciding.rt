//! Questions, proofs and runs that decide symmetries.
ghost use Rattle.std.specs.Prelude.{◌≡◌, ◌⊎◌, All, IfErr, IfOk, IsTrue};
ghost use Rattle.slotted_graph.specs.Extension.{ExtendsTo};
ghost use Rattle.slotted_rules.specs.Written.{CanBeSearched};
ghost use Rattle.slotted_workspace.specs.Decided.{DecideRefused, DecidedRunRefused, DecidesGraph, JudgesTerms, ProvesTerms, RunsDecided};
ghost use Rattle.slotted_workspace.specs.Keeping.{IsKept};

use crate::kept::Kept;
use crate::sparing::RuleCondition;
use slotted_decided::{DecidedLimits, DecidedRun, run_decided};
use slotted_deciding::{Explained, Verdict, decide, decided_eq, decided_explain};
use slotted_explain::{EGraph, Explanation};
use slotted_languages::Language;
use slotted_rules::Rewrite;
use slotted_slots::Error;
use slotted_terms::expr::printing::Printable;
use std::alloc::Global;

/// The answer to the question why two terms are equal.
#[derive(Drop)]
pub enum ExplainedText {
    /// They are equal, by this proof: lines that each end with a line feed.
    Proved(String),
    /// They are not equal by what was asserted.
    Unequal,
    /// The limit was met before the graph was decided, and they are not found equal.
    Undecided,
}

/// Decides the graph, and returns whether it is decided.
pub(crate) fn decided<L: Language>(
    alloc: Global,
    graph: &mut EGraph<L>,
    limit: usize,
) -> Result<bool, Error>
    ensures ok { IfOk result (DecidesGraph graph.old graph.new) }
    ensures err { IfErr result (DecideRefused graph.old graph.new) }
    ensures extends { IsTrue graph.new.failed ⊎ ExtendsTo graph.old graph.new }
    ensures stays { IsTrue graph.old.failed → graph.new ≡ graph.old }
{
    decide(alloc, graph, limit)
}

/// Decides the graph, and returns whether two kept terms are equal.
pub(crate) fn judged<L: Language>(
    alloc: Global,
    graph: &mut EGraph<L>,
    left: &Kept<L>,
    right: &Kept<L>,
    limit: usize,
) -> Result<Verdict, Error>
    requires left { IsTrue graph.old.failed ⊎ IsKept graph.old left.now }
    requires right { IsTrue graph.old.failed ⊎ IsKept graph.old right.now }
    ensures ok { IfOk result (JudgesTerms graph.old graph.new left.now.term right.now.term) }
    ensures err { IfErr result (DecideRefused graph.old graph.new) }
    ensures extends { IsTrue graph.new.failed ⊎ ExtendsTo graph.old graph.new }
    ensures stays { IsTrue graph.old.failed → graph.new ≡ graph.old }
{
    decided_eq(alloc, graph, &left.id, &right.id, limit)
}

/// Decides the graph, and returns the lines of a proof that two kept terms are equal, if they are.
pub(crate) fn proved<L: Printable>(
    alloc: Global,
    graph: &mut EGraph<L>,
    left: &Kept<L>,
    right: &Kept<L>,
    limit: usize,
) -> Result<ExplainedText, Error>
    requires left { IsTrue graph.old.failed ⊎ IsKept graph.old left.now }
    requires right { IsTrue graph.old.failed ⊎ IsKept graph.old right.now }
    ensures ok { IfOk result (ProvesTerms L.written graph.old graph.new left.now.term right.now.term) }
    ensures err { IfErr result (DecideRefused graph.old graph.new) }
    ensures extends { IsTrue graph.new.failed ⊎ ExtendsTo graph.old graph.new }
    ensures stays { IsTrue graph.old.failed → graph.new ≡ graph.old }
{
    match decided_explain(alloc, graph, &left.term, &right.term, limit)? {
        Explained::Proved(proof) => Ok(ExplainedText::Proved(proof.to_string(alloc, graph)?)),
        Explained::Unequal => Ok(ExplainedText::Unequal),
        Explained::Undecided => Ok(ExplainedText::Undecided),
    }
}

/// Runs rules over a graph that is decided after each turn.
pub(crate) fn run_rules_decided<L: Language>(
    alloc: Global,
    graph: &mut EGraph<L>,
    rules: &[Rewrite<L, RuleCondition<L>>],
    limits: DecidedLimits,
) -> Result<DecidedRun, Error>
    requires { IsTrue graph.old.failed ⊎ All (CanBeSearched L.form graph.old.table) rules.now }
    ensures ok { IfOk result (RunsDecided L.form rules.now limits graph.old graph.new) }
    ensures err { IfErr result (DecidedRunRefused L.form rules.now graph.old graph.new) }
    ensures extends { IsTrue graph.new.failed ⊎ ExtendsTo graph.old graph.new }
    ensures stays { IsTrue graph.old.failed → graph.new ≡ graph.old }
{
    run_decided(alloc, graph, rules, limits)
}
