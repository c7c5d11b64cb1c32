//! A written rule that rests after a search with too many matches.
ghost use Rattle.std.specs.Prelude.{◌≡◌, ◌⊎◌, [], string_bytes};
ghost use Rattle.slotted_operations.specs.Graph.{OnlyTakesSlots};
ghost use Rattle.slotted_patterns.specs.View.{tree_of};
ghost use Rattle.slotted_rules.specs.Rewriting.{CanBeApplied, IsRefusedRewrite, IsSearched, LeavesApplied};
ghost use Rattle.slotted_rules.specs.Written.{CanBeSearched, PassesTests};

use crate::{Cond, Rewrite, RewriteT};
use slotted_data::Analysis;
use slotted_graph::EGraph;
use slotted_languages::Language;
use slotted_matching::Matches;
use slotted_slots::Error;
use std::alloc::Global;
use std::cell::Cell;

/// A written rule that rests for some turns after a search that found more than `most` matches, which are dropped.
///
/// After each rest the rule may find twice as much as before, and the next rest takes twice as many turns. A run over
/// resting rules may end as saturated before all their matches are applied: ask [`are_resting`], and run again.
#[derive(Drop)]
pub struct Backoff<L: Language, C: Drop> {
    /// The rule, which itself never rests.
    pub rule: Rewrite<L, C>,
    most: Cell<usize>,
    rest: Cell<usize>,
    left: Cell<usize>,
}

impl<L: Language, C: Drop> Backoff<L, C> {
    /// Returns the rule, which rests for `rest` turns once it has found more than `most` matches.
    pub fn new(rule: Rewrite<L, C>, most: usize, rest: usize) -> Self
        ensures { result.rule ≡ rule }
    {
        Backoff {
            rule,
            most: Cell::new(most),
            rest: Cell::new(rest),
            left: Cell::new(0),
        }
    }

    /// Returns the rule with the usual numbers: it rests for 5 turns once it has found more than 1,000 matches.
    pub fn usual(rule: Rewrite<L, C>) -> Self
        ensures { result.rule ≡ rule }
    {
        Backoff::new(rule, 1_000, 5)
    }

    /// Returns whether the next search will find nothing, whatever the graph has.
    pub fn is_resting(&self) -> bool {
        self.left.get() > 0
    }

    /// Ends the rest of the rule. What it may find, and how long it rests, stay doubled.
    pub fn wake(&self) {
        self.left.set(0);
    }

    // Returns the matches, or none if they are too many. Then a rest begins.
    fn cut(&self, alloc: Global, found: Matches) -> Matches
        ensures { (result ≡ found) ⊎ (result ≡ []) }
    {
        if found.len() <= self.most.get() {
            return found;
        }
        self.left.set(self.rest.get());
        self.rest.set(self.rest.get().saturating_mul(2));
        self.most.set(self.most.get().saturating_mul(2));
        Matches::none(alloc)
    }
}

impl<L: Language, N: Analysis<L>, C: Cond<L, N>> RewriteT<L, N> for Backoff<L, C> {
    ghost use Rattle.slotted_rules.specs.Resting.{rested-fits};
    ghost use Rattle.slotted_rules.specs.WrittenLaws.{apply-later, refused-other, valid-later};

    type Found = Matches;

    ghost valid = { λ b g. CanBeSearched L.form g.table b.rule };

    ghost passes = { λ b g. PassesTests L.form g b.rule };

    ghost searches = { λ b g found h. OnlyTakesSlots g h × ((found ≡ []) ⊎ IsSearched (tree_of L.form b.rule.left) g found h) };

    ghost can_apply = { λ b found g. CanBeApplied (tree_of L.form b.rule.left) found g };

    ghost applies = { λ b found g h. LeavesApplied (C.answers b.rule.condition) (tree_of L.form b.rule.left) (tree_of L.form b.rule.right) (string_bytes b.rule.name) found g h };

    ghost refuses = { λ b e. IsRefusedRewrite (C.refuses b.rule.condition) (tree_of L.form b.rule.right) e };

    ghost valid_stays = { λ b g h e v. valid-later L.form g h b.rule e v };

    ghost searched_fits = { λ b g h found s. rested-fits (tree_of L.form b.rule.left) g found h s };

    ghost can_apply_stays = { λ b found g h e c. apply-later (tree_of L.form b.rule.left) found g h e c };

    ghost never_failed = { λ b. refused-other (C.refuses b.rule.condition) (λ s g. C.never_failed b.rule.condition s g) (tree_of L.form b.rule.right) };

    fn is_valid(&self, graph: &EGraph<L, N>) -> bool {
        self.rule.is_valid(graph)
    }

    fn search(&self, alloc: Global, graph: &mut EGraph<L, N>) -> Result<Matches, Error> {
        if graph.is_failed() {
            return Err(Error::Failed);
        }
        if self.is_resting() {
            self.left.set(self.left.get().saturating_sub(1));
            return Ok(Matches::none(alloc));
        }
        let found = self.rule.search(alloc, graph)?;
        Ok(self.cut(alloc, found))
    }

    fn apply(&self, alloc: Global, found: Matches, graph: &mut EGraph<L, N>) -> Result<(), Error> {
        self.rule.apply(alloc, found, graph)
    }
}

/// Returns whether one of the rules is resting.
pub fn are_resting<L: Language, C: Drop>(rules: &[Backoff<L, C>]) -> bool {
    for rule in rules {
        if rule.is_resting() {
            return true;
        }
    }
    false
}
