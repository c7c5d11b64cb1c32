//! The text of what a graph holds.
ghost use Rattle.std.specs.Prelude.{◌≡◌, ◌⊎◌, ◌↔◌, string_bytes, IsTrue, OnOk, OnErr, IfErr, IsErrOf};
ghost use Rattle.slotted_slots.specs.Error.{IsShortage};
ghost use Rattle.slotted_operations.specs.Graph.{MakesAtMost, OnlyTakesSlots};
ghost use Rattle.slotted_graph.specs.FiledNodes.{CanRunOutForDump, IsAppended, slots_for_dump};

use super::EGraph;
use slotted_data::Analysis;
use slotted_languages::Language;
use slotted_reports::dumping::append_live;
use slotted_slots::Error;

impl<L: Language, N: Analysis<L>> EGraph<L, N> {
    /// Appends the live classes, by their numbers, and the e-nodes that are filed for them, by their shapes.
    ///
    /// The text begins and ends with a line feed, and each class begins with another one. Its first line has its slots,
    /// and its second one `>> ` and its syntactic e-node. Each line after that has ` - `, a filed e-node, and the
    /// source of that e-node.
    pub fn dump(&mut self, out: &mut String) -> Result<(), Error>
        // What stood in the text stays before what is appended. If the call is refused, the text stays as it is.
        ensures appends { OnOk result (IsAppended (string_bytes out.old) (string_bytes out.new)) }
        ensures unchanged { OnErr result (string_bytes out.new ≡ string_bytes out.old) }

        // Only fresh slots are made, at most two for each place of all filed e-nodes. An error does not fail the graph.
        ensures takes { OnlyTakesSlots self.old self.new }
        ensures count { MakesAtMost (slots_for_dump self.old) self.old.table self.new.table }
        ensures stays { IsTrue self.old.failed → self.new ≡ self.old }

        ensures failed { IsErrOf result Error.Failed ↔ IsTrue self.old.failed }
        ensures full { IsErrOf result Error.OutOfSlots → CanRunOutForDump self.old self.new.table }
        ensures only { IfErr result (λ e. (e ≡ Error.Failed) ⊎ IsShortage e) }
    {
        if self.failed {
            return Err(Error::Failed);
        }
        append_live(self.alloc, out, &self.store, &self.nodes, &mut self.table)
    }
}
