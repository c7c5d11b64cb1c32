//! Patterns over the graph's table of slots.
ghost use Rattle.std.specs.Prelude.{◌≡◌, ◌↔◌, IsTrue, IfOk, IsErrOf, false};
ghost use Rattle.slotted_patterns.specs.Known.{HasKnownNames};
ghost use Rattle.slotted_patterns.specs.View.{tree_of};
ghost use Rattle.slotted_operations.specs.Graph.{OnlyReads};
ghost use Rattle.slotted_operations.specs.Reads.{AnswersPattern};
ghost use Rattle.slotted_graph.specs.KnownPatterns.{is_unknown, knows_node, knows_pattern, HasSmallNodes};

use super::EGraph;
use slotted_data::Analysis;
use slotted_languages::Language;
use slotted_languages::shape::PLACES;
use slotted_operations::names::places_are_known;
use slotted_patterns::Pattern;
use slotted_rule_patterns::inside::{Question, first_such};
use slotted_slots::{Error, SlotTable};

// Returns whether the table knows each name of an e-node. An e-node with 2^30 places or more cannot be numbered, and is
// not known.
fn is_known_node<L: Language>(table: &SlotTable, node: &L) -> bool
    ensures { result ≡ knows_node table.now (L.form node.now) }
{
    node.slot_count() < PLACES && places_are_known(table, node)
}

// The test for e-nodes with a name that the table does not know.
#[derive(Drop)]
struct Unknown<'a> {
    table: &'a SlotTable,
}

impl<'a> Question for Unknown<'a> {
    ghost holds = { λ q. is_unknown q.table.now };

    fn holds<L: Language>(&self, pattern: &Pattern<L>) -> bool {
        match pattern {
            Pattern::ENode(node, _) => !is_known_node(self.table, node),
            Pattern::PVar(_) => false,
            Pattern::Subst(_, _, _) => false,
        }
    }
}

// Returns whether the table knows each name of each e-node of the pattern.
fn has_known_names<L: Language>(table: &SlotTable, pattern: &Pattern<L>) -> bool
    ensures { result ≡ knows_pattern table.now (tree_of L.form pattern.now) }
{
    first_such(pattern, &Unknown { table }).is_none()
}

impl<L: Language, N: Analysis<L>> EGraph<L, N> {
    /// Returns the pattern that a text writes, as `Pattern::parse` reads it. Each slot's name is looked up or kept in
    /// the graph's table.
    ///
    /// A text that is refused does not fail the graph. The names that were read before the error stay in the table.
    pub fn parse_pattern(&mut self, text: &str) -> Result<Pattern<L>, Error>
        // The answer is that of the text over the graph's table, which knows the names of the pattern's e-nodes from
        // now on.
        ensures answer { AnswersPattern L.form L.read self.old self.new text.now result }
        ensures known { IfOk result (λ p. HasKnownNames self.new.table (tree_of L.form p)) }

        // Only the table changes. On a failed graph nothing changes.
        ensures reads { OnlyReads self.old self.new }
        ensures stays { IsTrue self.old.failed → self.new ≡ self.old }

        ensures failed { IsErrOf result Error.Failed ↔ IsTrue self.old.failed }
    {
        if self.failed {
            return Err(Error::Failed);
        }
        Pattern::parse(self.alloc, text, &mut self.table)
    }

    /// Returns whether a pattern is over this graph: the table knows the slots of its e-nodes.
    ///
    /// The child ids inside the e-nodes are null, or have known names too. An e-node with 2^30 places or more cannot be
    /// numbered, and a pattern with one is not valid. No pattern is valid in a failed graph. The inner patterns are
    /// listed, or read without a list if memory for one is refused.
    pub fn is_valid_pattern(&self, pattern: &Pattern<L>) -> bool
        ensures failed { IsTrue result → self.now.failed ≡ false }
        ensures known { IsTrue result → HasKnownNames self.now.table (tree_of L.form pattern.now) }
        ensures exact { self.now.failed ≡ false → HasKnownNames self.now.table (tree_of L.form pattern.now)
            → HasSmallNodes (tree_of L.form pattern.now) → IsTrue result }
    {
        !self.failed && has_known_names(&self.table, pattern)
    }
}
