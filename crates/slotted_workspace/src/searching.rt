//! Searches for the pattern of a text.
ghost use Rattle.std.specs.Prelude.{◌≡◌, ◌⊎◌, IfOk, IfErr, IsTrue};
ghost use Rattle.slotted_graph.specs.Extension.{ExtendsTo};
ghost use Rattle.slotted_workspace.specs.Asked.{HasMatches, SearchRefused};

use slotted_explain::EGraph;
use slotted_languages::Language;
use slotted_rules::ematch_all;
use slotted_slots::Error;
use std::alloc::Global;

/// Returns how many matches the pattern of a text has.
pub(crate) fn count_found<L: Language>(
    alloc: Global,
    graph: &mut EGraph<L>,
    text: &str,
) -> Result<usize, Error>
    ensures ok { IfOk result (HasMatches L.form L.read graph.old graph.new text.now) }
    ensures err { IfErr result (SearchRefused L.form L.read graph.old graph.new text.now) }
    ensures extends { IsTrue graph.new.failed ⊎ ExtendsTo graph.old graph.new }
    ensures stays { IsTrue graph.old.failed → graph.new ≡ graph.old }
{
    let pattern = graph.parse_pattern(text)?;
    let found = ematch_all(alloc, graph, &pattern)?;
    Ok(found.len())
}
