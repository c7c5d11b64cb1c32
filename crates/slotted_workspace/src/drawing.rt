//! Pictures of a graph, and its classes as text.
ghost use Rattle.std.specs.Prelude.{◌≡◌, ◌⊎◌, IfOk, IfErr, IsTrue};
ghost use Rattle.slotted_graph.specs.Extension.{ExtendsTo};
ghost use Rattle.slotted_workspace.specs.Asked.{DrawRefused, Draws};

use slotted_explain::EGraph;
use slotted_languages::Language;
use slotted_pictures::graph_to_dot;
use slotted_slots::Error;
use std::alloc::Global;

/// Returns a picture of the graph.
pub(crate) fn drawn<L: Language>(alloc: Global, graph: &mut EGraph<L>) -> Result<String, Error>
    ensures ok { IfOk result (λ _. Draws graph.old graph.new) }
    ensures err { IfErr result (DrawRefused graph.old graph.new) }
    ensures extends { IsTrue graph.new.failed ⊎ ExtendsTo graph.old graph.new }
    ensures stays { IsTrue graph.old.failed → graph.new ≡ graph.old }
{
    let mut text = String::new(alloc);
    graph_to_dot(alloc, graph, &mut text)?;
    Ok(text)
}

/// Returns the live classes and their e-nodes as text.
pub(crate) fn dumped<L: Language>(alloc: Global, graph: &mut EGraph<L>) -> Result<String, Error>
    ensures ok { IfOk result (λ _. Draws graph.old graph.new) }
    ensures err { IfErr result (DrawRefused graph.old graph.new) }
    ensures extends { IsTrue graph.new.failed ⊎ ExtendsTo graph.old graph.new }
    ensures stays { IsTrue graph.old.failed → graph.new ≡ graph.old }
{
    let mut text = String::new(alloc);
    graph.dump(&mut text)?;
    Ok(text)
}
