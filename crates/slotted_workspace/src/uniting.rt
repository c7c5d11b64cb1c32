//! Unions of kept terms.
ghost use Rattle.std.specs.Prelude.{◌≡◌, ◌⊎◌, Some, IfOk, IfErr, IsTrue};
ghost use Rattle.slotted_graph.specs.Extension.{ExtendsTo};
ghost use Rattle.slotted_classes.specs.Kept.{text_bytes};
ghost use Rattle.slotted_workspace.specs.Asked.{UnitesTerms, UnionRefused};
ghost use Rattle.slotted_workspace.specs.Keeping.{IsKept};

use crate::kept::Kept;
use slotted_explain::EGraph;
use slotted_languages::Language;
use slotted_slots::Error;
use std::alloc::Global;

/// Asserts that two kept terms are equal. Returns true if they were not found equal before.
pub(crate) fn unite<L: Language>(
    graph: &mut EGraph<L>,
    left: &Kept<L>,
    right: &Kept<L>,
    text: Option<String>,
) -> Result<bool, Error>
    requires left { IsTrue graph.old.failed ⊎ IsKept graph.old left.now }
    requires right { IsTrue graph.old.failed ⊎ IsKept graph.old right.now }
    ensures ok { IfOk result (UnitesTerms graph.old graph.new left.now.term right.now.term (text_bytes text)) }
    ensures err { IfErr result (UnionRefused graph.old graph.new) }
    ensures extends { IsTrue graph.new.failed ⊎ ExtendsTo graph.old graph.new }
    ensures stays { IsTrue graph.old.failed → graph.new ≡ graph.old }
{
    let answer = graph.union_justified(&left.id, &right.id, text)?;
    Ok(answer)
}

/// Asserts that two kept terms are equal, with a text that proofs cite. Returns true if they were not found equal
/// before.
pub(crate) fn unite_because<L: Language>(
    alloc: Global,
    graph: &mut EGraph<L>,
    left: &Kept<L>,
    right: &Kept<L>,
    text: &str,
) -> Result<bool, Error>
    requires left { IsTrue graph.old.failed ⊎ IsKept graph.old left.now }
    requires right { IsTrue graph.old.failed ⊎ IsKept graph.old right.now }
    ensures ok { IfOk result
        (UnitesTerms graph.old graph.new left.now.term right.now.term (Some text.now)) }
    ensures err { IfErr result (UnionRefused graph.old graph.new) }
    ensures extends { IsTrue graph.new.failed ⊎ ExtendsTo graph.old graph.new }
    ensures stays { IsTrue graph.old.failed → graph.new ≡ graph.old }
{
    let text = String::from_str(alloc, text)?;
    unite(graph, left, right, Some(text))
}
