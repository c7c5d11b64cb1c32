//! Searching the graph for patterns.
ghost use Rattle.std.specs.Prelude.{◌≡◌, ◌⊎◌, ◌↔◌, [], List, Some, Contains, IsSome, IsTrue, IfOk, IfErr, IsErrOf, false, true};
ghost use Rattle.slotted_slots.specs.Error.{IsShortage};
ghost use Rattle.slotted_proofs.specs.Equations.{to_applied};
ghost use Rattle.slotted_patterns.specs.Known.{HasKnownNames};
ghost use Rattle.slotted_patterns.specs.View.{tree_of};
ghost use Rattle.slotted_rule_patterns.specs.PatternCode.{pattern_in};
ghost use Rattle.slotted_rule_patterns.specs.Variables.{has_substitution};
ghost use Rattle.slotted_matching.specs.Compiled.{HasWideNode};
ghost use Rattle.slotted_matching.specs.Found.{HaveFreshNames, HaveVariables, RunsOutFor, TakesFor, name_count};
ghost use Rattle.slotted_operations.specs.Causes.{class_found};
ghost use Rattle.slotted_operations.specs.Graph.{MakesAtMost, OnlyTakesSlots};
ghost use Rattle.slotted_operations.specs.ValidIds.{IsValidId};
ghost use Rattle.slotted_graph.specs.Matching.{AreFoundValid, FindsAll, FindsAllOf, FindsEachOf, FindsLookedUp, HasWideRow};
ghost use Rattle.slotted_graph.specs.Matching.{FindsAllAt, FindsAllAtOf, FindsEachAtOf, FindsLookedUpAt};

use super::EGraph;
use slotted_data::Analysis;
use slotted_languages::Language;
use slotted_matching::Matches;
use slotted_matching::find::{find_matches, find_matches_at};
use slotted_patterns::Pattern;
use slotted_rule_patterns::pattern::{has_substitution, is_whole};
use slotted_slots::{AppliedId, Error};

impl<L: Language, N: Analysis<L>> EGraph<L, N> {
    /// Returns the matches of a pattern at the live classes, one class after another. Each match has an id for each
    /// variable.
    ///
    /// A name of such an id that stands for no slot of the pattern is a fresh slot, which all ids of the match share. A
    /// pattern with a wrong number of child patterns at some e-node has no match. The first search after a change of
    /// classes or filed e-nodes takes time for each filed e-node.
    pub fn find_matches(&mut self, pattern: &Pattern<L>) -> Result<Matches, Error>
        requires { IsTrue self.old.failed ⊎ HasKnownNames self.old.table (tree_of L.form pattern.now) }

        // The matches are those of the matcher over all filed e-nodes. Each makes the pattern one that is looked up at
        // a live class. If no class has a redundant slot, each substitution that is looked up so is a match.
        ensures finds { IfOk result (FindsAllOf self.new (tree_of L.form pattern.now)) }
        ensures looked_up { IfOk result (FindsLookedUp self.new (tree_of L.form pattern.now)) }
        ensures each { IfOk result (FindsEachOf self.new (tree_of L.form pattern.now)) }
        ensures none { IfOk result (λ found. ¬ IsSome (pattern_in (tree_of L.form pattern.now)) → found ≡ []) }

        ensures valid { IfOk result (AreFoundValid self.new) }
        ensures variables { IfOk result (HaveVariables (tree_of L.form pattern.now)) }

        // Each name of a value is a slot of the pattern, or a fresh one.
        ensures fresh { IfOk result (HaveFreshNames self.old.table (tree_of L.form pattern.now)) }

        // Only fresh slots are made, at most as many as the values have names. An error does not fail the graph.
        ensures takes { OnlyTakesSlots self.old self.new }
        ensures count { IfOk result (λ found. MakesAtMost (name_count found) self.old.table self.new.table) }
        ensures needs { (self.new.table ≡ self.old.table)
            ⊎ TakesFor (tree_of L.form pattern.now) (FindsAll self.new) self.old.table self.new.table }
        ensures stays { IsTrue self.old.failed → self.new ≡ self.old }

        ensures failed { IsErrOf result Error.Failed ↔ IsTrue self.old.failed }
        ensures subst { IsErrOf result Error.SubstInSearch
            ↔ ((self.old.failed ≡ false) × (has_substitution (tree_of L.form pattern.now) ≡ true)) }

        // They run out if fewer are left than that, or if a filed e-node or one of the pattern has too many places.
        ensures full { IsErrOf result Error.OutOfSlots → HasWideRow self.new ⊎ (HasWideNode (tree_of L.form pattern.now)
            ⊎ RunsOutFor (tree_of L.form pattern.now) (FindsAll self.new) self.old.table self.new.table) }
        ensures only { IfErr result (λ e. (e ≡ Error.Failed) ⊎ ((e ≡ Error.SubstInSearch) ⊎ IsShortage e)) }
    {
        if self.failed {
            return Err(Error::Failed);
        }
        if has_substitution(pattern) {
            return Err(Error::SubstInSearch);
        }
        if !is_whole(pattern) {
            return Ok(Matches::none(self.alloc));
        }
        find_matches(
            self.alloc,
            &mut self.table,
            &self.store,
            &self.nodes,
            &mut self.index,
            pattern,
        )
    }

    /// Returns the matches of a pattern at the class that `find` maps an id to, as `find_matches` does. The names of
    /// the id do not matter.
    pub fn find_matches_in(
        &mut self,
        id: &AppliedId,
        pattern: &Pattern<L>,
    ) -> Result<Matches, Error>
        requires valid { IsTrue self.old.failed ⊎ IsValidId self.old (to_applied id.now) }
        requires known { IsTrue self.old.failed ⊎ HasKnownNames self.old.table (tree_of L.form pattern.now) }

        // The matches are those of the matcher at this class. Each makes the pattern one that is looked up as an id of
        // the class. If no class has a redundant slot, each substitution that is looked up so is a match.
        ensures finds { IfOk result
            (FindsAllAtOf self.new (class_found self.new.image id.now.id.0) (tree_of L.form pattern.now)) }
        ensures looked_up { IfOk result
            (FindsLookedUpAt self.new (class_found self.new.image id.now.id.0) (tree_of L.form pattern.now)) }
        ensures each { IfOk result
            (FindsEachAtOf self.new (class_found self.new.image id.now.id.0) (tree_of L.form pattern.now)) }
        ensures none { IfOk result (λ found. ¬ IsSome (pattern_in (tree_of L.form pattern.now)) → found ≡ []) }

        ensures valid { IfOk result (AreFoundValid self.new) }
        ensures variables { IfOk result (HaveVariables (tree_of L.form pattern.now)) }

        // Each name of a value is a slot of the pattern, or a fresh one.
        ensures fresh { IfOk result (HaveFreshNames self.old.table (tree_of L.form pattern.now)) }

        // Only fresh slots are made, at most as many as the values have names. An error does not fail the graph.
        ensures takes { OnlyTakesSlots self.old self.new }
        ensures count { IfOk result (λ found. MakesAtMost (name_count found) self.old.table self.new.table) }
        ensures needs { (self.new.table ≡ self.old.table) ⊎ TakesFor (tree_of L.form pattern.now)
            (FindsAllAt self.new (class_found self.new.image id.now.id.0)) self.old.table self.new.table }
        ensures stays { IsTrue self.old.failed → self.new ≡ self.old }

        ensures failed { IsErrOf result Error.Failed ↔ IsTrue self.old.failed }
        ensures subst { IsErrOf result Error.SubstInSearch
            ↔ ((self.old.failed ≡ false) × (has_substitution (tree_of L.form pattern.now) ≡ true)) }

        // They run out if fewer are left than that, or if a filed e-node or one of the pattern has too many places.
        ensures full { IsErrOf result Error.OutOfSlots → HasWideRow self.new ⊎ (HasWideNode (tree_of L.form pattern.now)
            ⊎ RunsOutFor (tree_of L.form pattern.now)
            (FindsAllAt self.new (class_found self.new.image id.now.id.0)) self.old.table self.new.table) }
        ensures only { IfErr result (λ e. (e ≡ Error.Failed) ⊎ ((e ≡ Error.SubstInSearch) ⊎ IsShortage e)) }
    {
        if self.failed {
            return Err(Error::Failed);
        }
        if has_substitution(pattern) {
            return Err(Error::SubstInSearch);
        }
        if !is_whole(pattern) {
            return Ok(Matches::none(self.alloc));
        }
        find_matches_at(
            self.alloc,
            &mut self.table,
            &self.store,
            &self.nodes,
            &mut self.index,
            pattern,
            self.store.find_class(id.id.0),
        )
    }
}
