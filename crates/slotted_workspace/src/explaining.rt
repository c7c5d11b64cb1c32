//! Proofs as texts: as lines, or as a chain of terms.
ghost use Rattle.std.specs.Prelude.{◌≡◌, ◌⊎◌, IfOk, IfErr, OnOk, IsTrue};
ghost use Rattle.slotted_graph.specs.Extension.{ExtendsTo};
ghost use Rattle.slotted_workspace.specs.Asked.{ChainRefused, ChainsTerms, ExplainsTerms, ExplainRefused};
ghost use Rattle.slotted_workspace.specs.Keeping.{IsKept};

use crate::kept::Kept;
use slotted_explain::{EGraph, Explanation};
use slotted_slots::Error;
use slotted_terms::expr::printing::Printable;
use std::alloc::Global;

/// Returns the lines of a proof that two kept terms are equal.
pub(crate) fn explanation<L: Printable>(
    alloc: Global,
    graph: &mut EGraph<L>,
    left: &Kept<L>,
    right: &Kept<L>,
) -> Result<String, Error>
    requires left { IsTrue graph.old.failed ⊎ IsKept graph.old left.now }
    requires right { IsTrue graph.old.failed ⊎ IsKept graph.old right.now }
    ensures ok { IfOk result (ExplainsTerms L.written graph.old graph.new left.now.term right.now.term) }
    ensures err { IfErr result
        (ExplainRefused L.written graph.old graph.new left.now.term right.now.term) }
    ensures extends { IsTrue graph.new.failed ⊎ ExtendsTo graph.old graph.new }
    ensures stays { IsTrue graph.old.failed → graph.new ≡ graph.old }
{
    let proof = graph.explain_equivalence(&left.term, &right.term)?;
    proof.to_string(alloc, graph)
}

/// Returns the chain of terms of a proof that two kept terms are equal.
pub(crate) fn chain<L: Printable>(
    alloc: Global,
    graph: &mut EGraph<L>,
    left: &Kept<L>,
    right: &Kept<L>,
) -> Result<String, Error>
    requires left { IsTrue graph.old.failed ⊎ IsKept graph.old left.now }
    requires right { IsTrue graph.old.failed ⊎ IsKept graph.old right.now }
    ensures ok { OnOk result (ChainsTerms graph.old graph.new left.now.term right.now.term) }
    ensures err { IfErr result (ChainRefused graph.old graph.new left.now.term right.now.term) }
    ensures extends { IsTrue graph.new.failed ⊎ ExtendsTo graph.old graph.new }
    ensures stays { IsTrue graph.old.failed → graph.new ≡ graph.old }
{
    let proof = graph.explain_equivalence(&left.term, &right.term)?;
    proof.to_flat_string(alloc, graph)
}

/// Returns the chain of terms of a proof that two kept terms are equal, with the changed places marked.
pub(crate) fn marked_chain<L: Printable>(
    alloc: Global,
    graph: &mut EGraph<L>,
    left: &Kept<L>,
    right: &Kept<L>,
) -> Result<String, Error>
    requires left { IsTrue graph.old.failed ⊎ IsKept graph.old left.now }
    requires right { IsTrue graph.old.failed ⊎ IsKept graph.old right.now }
    ensures ok { OnOk result (ChainsTerms graph.old graph.new left.now.term right.now.term) }
    ensures err { IfErr result (ChainRefused graph.old graph.new left.now.term right.now.term) }
    ensures extends { IsTrue graph.new.failed ⊎ ExtendsTo graph.old graph.new }
    ensures stays { IsTrue graph.old.failed → graph.new ≡ graph.old }
{
    let proof = graph.explain_equivalence(&left.term, &right.term)?;
    proof.to_marked_string(alloc, graph)
}
