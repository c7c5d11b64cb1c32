//! Sessions: a graph with its rules.
ghost use Rattle.std.specs.Prelude.{◌≡◌, All, IsOk, IfOk, IsTrue};
ghost use Rattle.slotted_rules.specs.Written.{PassesTests};
ghost use Rattle.slotted_lines.specs.States.{AreSearchable, empty_state, state_of};

use slotted_graph::EGraph;
use slotted_languages::Language;
use slotted_rules::{Always, Rewrite, are_valid};
use slotted_slots::{Error, SlotTable};
use std::alloc::Global;

/// A graph, and the rules of the lines before, in order.
#[derive(Drop)]
pub struct Session<L: Language> {
    /// The graph.
    pub graph: EGraph<L>,
    /// The rules.
    pub rules: Vec<Rewrite<L, Always>>,
}

impl<L: Language> Session<L> {
    /// Returns a session over a graph without classes, and without rules. Takes no memory.
    pub fn new(alloc: Global) -> Result<Self, Error>
        ensures answers { IsOk result }
        ensures empty { IfOk result (λ s. state_of s ≡ empty_state) }
    {
        Ok(Session {
            graph: EGraph::new(alloc, SlotTable::new(alloc), ())?,
            rules: Vec::new(alloc),
        })
    }

    /// Returns the table of slots of the session's graph, and drops the session. A function that lets one go by itself
    /// drops it on each of its ways out, and takes longer to prove.
    pub fn into_table(self) -> SlotTable
        ensures { result ≡ self.graph.table }
    {
        self.graph.into_table()
    }

    /// Returns whether the rules can be handed to runs over the graph. Takes no memory.
    ///
    /// Lines keep this so. If you change the graph or the rules by other means, ask for it again.
    pub fn is_searchable(&self) -> bool
        ensures searchable { IsTrue result → AreSearchable L.form (state_of self.now) }
        ensures failed { IsTrue self.now.graph.failed → IsTrue result }
        ensures exact { All (PassesTests L.form self.now.graph) self.now.rules.items → IsTrue result }
    {
        self.graph.is_failed() || are_valid(&self.graph, &self.rules)
    }
}
