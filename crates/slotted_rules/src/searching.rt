//! All matches of a pattern as substitutions.
ghost use Rattle.std.specs.Prelude.{◌≡◌, ◌⊎◌, ◌↔◌, map, false, true, IsTrue, IfOk, IfErr, IsErrOf};
ghost use Rattle.slotted_slots.specs.Error.{IsOutOfMemory, IsShortage};
ghost use Rattle.slotted_patterns.specs.Known.{HasKnownNames};
ghost use Rattle.slotted_patterns.specs.View.{tree_of};
ghost use Rattle.slotted_rule_patterns.specs.Values.{values_of};
ghost use Rattle.slotted_rule_patterns.specs.Variables.{has_substitution};
ghost use Rattle.slotted_operations.specs.Graph.{OnlyTakesSlots};
ghost use Rattle.slotted_matching.specs.Found.{TakesFor};
ghost use Rattle.slotted_graph.specs.Matching.{FindsAll};
ghost use Rattle.slotted_rules.specs.Rewriting.{IsSearched, LacksSlots};

use slotted_data::Analysis;
use slotted_graph::EGraph;
use slotted_languages::Language;
use slotted_matching::Matches;
use slotted_patterns::Pattern;
use slotted_rule_patterns::Subst;
use slotted_slots::Error;
use std::alloc::Global;

// Returns the matches as substitutions.
fn substitutions(alloc: Global, found: &Matches) -> Result<Vec<Subst>, Error>
    ensures ok { IfOk result (λ all. map values_of all.items ≡ found.now) }
    ensures err { IfErr result IsOutOfMemory }
{
    let mut all = Vec::new(alloc);
    for answer in 0..found.len() {
        all.push(found.substitution(alloc, answer)?)?;
    }
    Ok(all)
}

/// Returns what `find_matches` finds for a pattern, each match as a substitution of its own. Live classes come in
/// order, and the matches of each class by its filed e-nodes in ascending order.
pub fn ematch_all<L: Language, N: Analysis<L>>(
    alloc: Global,
    graph: &mut EGraph<L, N>,
    pattern: &Pattern<L>,
) -> Result<Vec<Subst>, Error>
    requires { IsTrue graph.old.failed ⊎ HasKnownNames graph.old.table (tree_of L.form pattern.now) }
    ensures found { IfOk result (λ all.
        IsSearched (tree_of L.form pattern.now) graph.old (map values_of all.items) graph.new) }

    // Only fresh slots are made, at most as many as the matches can have names. A refusal does not fail the graph.
    ensures takes { OnlyTakesSlots graph.old graph.new }
    ensures needs { (graph.new.table ≡ graph.old.table)
        ⊎ TakesFor (tree_of L.form pattern.now) (FindsAll graph.new) graph.old.table graph.new.table }
    ensures stays { IsTrue graph.old.failed → graph.new ≡ graph.old }

    ensures failed { IsErrOf result Error.Failed ↔ IsTrue graph.old.failed }
    ensures subst { IsErrOf result Error.SubstInSearch
        ↔ ((graph.old.failed ≡ false) × (has_substitution (tree_of L.form pattern.now) ≡ true)) }
    ensures full { IsErrOf result Error.OutOfSlots → LacksSlots (tree_of L.form pattern.now) graph.old graph.new }
    ensures only { IfErr result (λ e. (e ≡ Error.Failed) ⊎ ((e ≡ Error.SubstInSearch) ⊎ IsShortage e)) }
{
    let found = graph.find_matches(pattern)?;
    substitutions(alloc, &found)
}
