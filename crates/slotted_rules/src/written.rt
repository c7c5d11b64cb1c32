//! Written rules as rules: the left side is searched for, and instances of both sides are united.
ghost use Rattle.std.specs.Prelude.{◌≡◌, ◌<◌, ◌↔◌, ◌⊎◌, None, [], false, length, map, slice_index_or, string_bytes};
ghost use Rattle.std.specs.Prelude.{IsErr, IsErrAnd, IsErrOf, IsSome, IsTrue, IfErr, IfOk, OnOk, Some};
ghost use Rattle.slotted_slots.specs.Error.{IsOutOfMemory, IsShortage};
ghost use Rattle.slotted_patterns.specs.Subpatterns.{subpatterns};
ghost use Rattle.slotted_patterns.specs.View.{tree_of};
ghost use Rattle.slotted_rule_patterns.specs.PatternCode.{pattern_in};
ghost use Rattle.slotted_rule_patterns.specs.Values.{values_of};
ghost use Rattle.slotted_rule_patterns.specs.Variables.{first_missing};
ghost use Rattle.slotted_graph.specs.Analysed.{LowersData};
ghost use Rattle.slotted_graph.specs.Extension.{ExtendsTo};
ghost use Rattle.slotted_graph.specs.Matching.{AreValidValues};
ghost use Rattle.slotted_graph.specs.States.{IsGraph};
ghost use Rattle.slotted_rules.specs.Between.{AnswersBetween};
ghost use Rattle.slotted_rules.specs.Carried.{CarriesAlong};
ghost use Rattle.slotted_rules.specs.Refusals.{HavePassed};
ghost use Rattle.slotted_rules.specs.Uniting.{UnitesInstances};
ghost use Rattle.slotted_rules.specs.Rewriting.{AppliesOne, AreFromRule, BreaksOff, CanBeApplied, IsNotATerm};
ghost use Rattle.slotted_rules.specs.Rewriting.{IsRefusedRewrite, IsSearched, LacksSlots, LeavesApplied, LeavesUnited};
ghost use Rattle.slotted_rules.specs.Rewriting.{RefusesOne};
ghost use Rattle.slotted_operations.specs.Graph.{OnlyTakesSlots};
ghost use Rattle.slotted_rules.specs.Written.{CanBeSearched, PassesTests};

use crate::condition::Cond;
use crate::failing::fail_if_short;
use crate::listed::Listed;
use crate::rewrite::Rewrite;
use crate::rule::RewriteT;
use crate::uniting::union_listed;
use slotted_data::Analysis;
use slotted_graph::EGraph;
use slotted_languages::Language;
use slotted_matching::Matches;
use slotted_patterns::Pattern;
use slotted_rule_patterns::Subst;
use slotted_rule_patterns::inside::subpatterns;
use slotted_rule_patterns::pattern::{first_lacking, has_substitution, is_whole};
use slotted_slots::Error;
use std::alloc::Global;

// What is made once for many matches of a rule: the lists of the patterns in both sides, and whether the right side is
// whole.
#[derive(Drop)]
struct Sides<'a, L: Language> {
    in_left: Vec<&'a Pattern<L>>,
    in_right: Vec<&'a Pattern<L>>,
    right_is_whole: bool,
}

// Returns what is made once for many matches of the rule.
fn sides_of<'a, L: Language, C: Drop>(
    alloc: Global,
    rule: &'a Rewrite<L, C>,
) -> Result<Sides<'a, L>, Error>
    ensures in_left { IfOk result
        (λ s. map (λ p. tree_of L.form p.now) s.in_left.items ≡ subpatterns (tree_of L.form rule.now.left)) }
    ensures in_right { IfOk result
        (λ s. map (λ p. tree_of L.form p.now) s.in_right.items ≡ subpatterns (tree_of L.form rule.now.right)) }
    ensures right { IfOk result
        (λ s. IsTrue s.right_is_whole ↔ IsSome (pattern_in (tree_of L.form rule.now.right))) }
    ensures err { IfErr result IsOutOfMemory }
{
    let in_left = subpatterns(alloc, &rule.left)?;
    let in_right = subpatterns(alloc, &rule.right)?;
    Ok(Sides {
        in_left,
        in_right,
        right_is_whole: is_whole(&rule.right),
    })
}

// Unites the instances of both sides, with the rule's name for a text. Returns whether they were not found equal
// before.
fn unite<L: Language, N: Analysis<L>, C: Drop>(
    alloc: Global,
    graph: &mut EGraph<L, N>,
    rule: &Rewrite<L, C>,
    sides: &Sides<L>,
    subst: &Subst,
) -> Result<bool, Error>
    requires graph { IsGraph graph.old }
    requires in_left { map (λ p. tree_of L.form p.now) sides.now.in_left.items
        ≡ subpatterns (tree_of L.form rule.now.left) }
    requires in_right { map (λ p. tree_of L.form p.now) sides.now.in_right.items
        ≡ subpatterns (tree_of L.form rule.now.right) }
    requires rule { CanBeSearched L.form graph.old.table rule.now }
    requires valid { AreValidValues graph.old (values_of subst.now) }
    requires whole { IsSome (pattern_in (tree_of L.form rule.now.left)) }
    requires made { IsSome (pattern_in (tree_of L.form rule.now.right)) }
    requires values { first_missing (tree_of L.form rule.now.left) (values_of subst.now) ≡ None }
    ensures unites { IfOk result (UnitesInstances graph.old graph.new (values_of subst.now)
        (tree_of L.form rule.now.left) (tree_of L.form rule.now.right) (Some (string_bytes rule.now.name))) }
    ensures tested { OnOk result (HavePassed (values_of subst.now)
        (tree_of L.form rule.now.left) (tree_of L.form rule.now.right)) }
    ensures unchanged { IsErr result → IsTrue graph.new.failed ⊎ (graph.new ≡ graph.old) }
    ensures carries { IsTrue graph.new.failed ⊎ CarriesAlong N.codes N.meaning graph.old graph.new }
    ensures fails { IsTrue graph.new.failed → IsErrAnd result IsShortage }
    ensures err { IfErr result IsShortage }
{
    let name = String::from_str(alloc, rule.name.as_str())?;
    let left = Listed {
        pattern: &rule.left,
        inside: &sides.in_left,
    };
    let right = Listed {
        pattern: &rule.right,
        inside: &sides.in_right,
    };
    union_listed(alloc, graph, &left, &right, subst, Some(name))
}

// Unites the instances of both sides if the condition holds. Returns whether they were not found equal before.
fn apply_to<L: Language, N: Analysis<L>, C: Cond<L, N>>(
    alloc: Global,
    graph: &mut EGraph<L, N>,
    rule: &Rewrite<L, C>,
    sides: &Sides<L>,
    subst: &Subst,
) -> Result<bool, Error>
    requires graph { IsGraph graph.old }
    requires in_left { map (λ p. tree_of L.form p.now) sides.now.in_left.items
        ≡ subpatterns (tree_of L.form rule.now.left) }
    requires in_right { map (λ p. tree_of L.form p.now) sides.now.in_right.items
        ≡ subpatterns (tree_of L.form rule.now.right) }
    requires rule { CanBeSearched L.form graph.old.table rule.now }
    requires right { IsTrue sides.now.right_is_whole ↔ IsSome (pattern_in (tree_of L.form rule.now.right)) }
    requires valid { AreValidValues graph.old (values_of subst.now) }
    requires whole { IsSome (pattern_in (tree_of L.form rule.now.left)) }
    requires values { first_missing (tree_of L.form rule.now.left) (values_of subst.now) ≡ None }
    ensures applies { IfOk result (AppliesOne (C.answers rule.now.condition) (tree_of L.form rule.now.left)
        (tree_of L.form rule.now.right) (string_bytes rule.now.name) (values_of subst.now) graph.old graph.new) }
    ensures unchanged { IsErr result → IsTrue graph.new.failed ⊎ (graph.new ≡ graph.old) }
    ensures carries { IsTrue graph.new.failed ⊎ CarriesAlong N.codes N.meaning graph.old graph.new }
    ensures fails { IsTrue graph.new.failed → IsErrAnd result IsShortage }
    ensures err { IfErr result (λ e. IsShortage e ⊎ RefusesOne (C.answers rule.now.condition)
        (C.refuses rule.now.condition) (tree_of L.form rule.now.right) (values_of subst.now) graph.old e) }
{
    if !rule.condition.holds(alloc, subst, graph)? {
        return Ok(false);
    }
    if !sides.right_is_whole {
        return Err(Error::NotATerm);
    }
    unite(alloc, graph, rule, sides, subst)
}

// Unites the instances of both sides for one match, if the condition holds. Returns whether they were not found equal
// before.
fn apply_answer<L: Language, N: Analysis<L>, C: Cond<L, N>>(
    alloc: Global,
    graph: &mut EGraph<L, N>,
    rule: &Rewrite<L, C>,
    sides: &Sides<L>,
    found: &Matches,
    answer: usize,
) -> Result<bool, Error>
    requires graph { IsGraph graph.old }
    requires in_left { map (λ p. tree_of L.form p.now) sides.now.in_left.items
        ≡ subpatterns (tree_of L.form rule.now.left) }
    requires in_right { map (λ p. tree_of L.form p.now) sides.now.in_right.items
        ≡ subpatterns (tree_of L.form rule.now.right) }
    requires rule { CanBeSearched L.form graph.old.table rule.now }
    requires right { IsTrue sides.now.right_is_whole ↔ IsSome (pattern_in (tree_of L.form rule.now.right)) }
    requires found { CanBeApplied (tree_of L.form rule.now.left) found.now graph.old }
    requires answer { answer < length found.now }
    ensures applies { IfOk result (AppliesOne (C.answers rule.now.condition) (tree_of L.form rule.now.left)
        (tree_of L.form rule.now.right) (string_bytes rule.now.name) (slice_index_or found.now answer []) graph.old graph.new) }
    ensures unchanged { IsErr result → IsTrue graph.new.failed ⊎ (graph.new ≡ graph.old) }
    ensures carries { IsTrue graph.new.failed ⊎ CarriesAlong N.codes N.meaning graph.old graph.new }
    ensures fails { IsTrue graph.new.failed → IsErrAnd result IsShortage }
    ensures err { IfErr result (λ e. IsShortage e ⊎ RefusesOne (C.answers rule.now.condition)
        (C.refuses rule.now.condition) (tree_of L.form rule.now.right) (slice_index_or found.now answer []) graph.old e) }
{
    let subst = found.substitution(alloc, answer)?;
    apply_to(alloc, graph, rule, sides, &subst)
}

// Unites the instances of both sides for each match in turn, if the condition holds then. Returns for how many matches
// they were not found equal before.
fn apply_found<L: Language, N: Analysis<L>, C: Cond<L, N>>(
    alloc: Global,
    graph: &mut EGraph<L, N>,
    rule: &Rewrite<L, C>,
    found: &Matches,
) -> Result<usize, Error>
    requires graph { IsGraph graph.old }
    requires rule { CanBeSearched L.form graph.old.table rule.now }
    requires found { CanBeApplied (tree_of L.form rule.now.left) found.now graph.old }
    ensures applied { IfOk result (LeavesUnited (C.answers rule.now.condition) (tree_of L.form rule.now.left)
        (tree_of L.form rule.now.right) (string_bytes rule.now.name) found.now graph.old graph.new) }
    ensures between { IfOk result (LeavesUnited
        (AnswersBetween N.codes N.meaning (C.answers rule.now.condition) graph.old graph.new) (tree_of L.form rule.now.left)
        (tree_of L.form rule.now.right) (string_bytes rule.now.name) found.now graph.old graph.new) }
    ensures held { IsTrue graph.new.failed ⊎ AreFromRule
        (AnswersBetween N.codes N.meaning (C.answers rule.now.condition) graph.old graph.new) (tree_of L.form rule.now.left)
        (tree_of L.form rule.now.right) (string_bytes rule.now.name) found.now graph.old graph.new }
    ensures extends { IsTrue graph.new.failed ⊎ ExtendsTo graph.old graph.new }
    ensures carries { IsTrue graph.new.failed ⊎ CarriesAlong N.codes N.meaning graph.old graph.new }
    ensures origin { IsTrue graph.new.failed ⊎ AreFromRule (C.answers rule.now.condition) (tree_of L.form rule.now.left)
        (tree_of L.form rule.now.right) (string_bytes rule.now.name) found.now graph.old graph.new }
    ensures fails { IsTrue graph.new.failed → IsErrAnd result IsShortage }
    ensures left { IfErr result (λ e. IsShortage e
        ⊎ BreaksOff (C.answers rule.now.condition) (C.refuses rule.now.condition)
        (tree_of L.form rule.now.left) (tree_of L.form rule.now.right) (string_bytes rule.now.name) found.now graph.old graph.new e) }
    ensures err { IfErr result (λ e. IsShortage e
        ⊎ IsRefusedRewrite (C.refuses rule.now.condition) (tree_of L.form rule.now.right) e) }
{
    let sides = sides_of(alloc, rule)?;
    let mut united = 0;
    for answer in 0..found.len() {
        united += usize::from(apply_answer(alloc, graph, rule, &sides, found, answer)?);
    }
    Ok(united)
}

/// Unites the instances of both sides for each match in turn, if the condition holds just then, as `apply` of the rule
/// does. Returns for how many matches the instances were not found equal before.
///
/// What was applied before a refusal stays. No class is modified: new classes, and those whose data has changed, wait
/// for `EGraph::modify`.
pub fn apply_matches<L: Language, N: Analysis<L>, C: Cond<L, N>>(
    alloc: Global,
    graph: &mut EGraph<L, N>,
    rule: &Rewrite<L, C>,
    found: &Matches,
) -> Result<usize, Error>
    requires valid { IsTrue graph.old.failed ⊎ CanBeSearched L.form graph.old.table rule.now }
    requires found { IsTrue graph.old.failed ⊎ CanBeApplied (tree_of L.form rule.now.left) found.now graph.old }
    ensures ok { IfOk result (LeavesUnited (C.answers rule.now.condition) (tree_of L.form rule.now.left)
        (tree_of L.form rule.now.right) (string_bytes rule.now.name) found.now graph.old graph.new) }

    // Each condition was asked in a graph between, to which and from which data only went down. So it is after a refusal.
    ensures between { IfOk result (LeavesUnited
        (AnswersBetween N.codes N.meaning (C.answers rule.now.condition) graph.old graph.new) (tree_of L.form rule.now.left)
        (tree_of L.form rule.now.right) (string_bytes rule.now.name) found.now graph.old graph.new) }
    ensures held { IsTrue graph.new.failed ⊎ AreFromRule
        (AnswersBetween N.codes N.meaning (C.answers rule.now.condition) graph.old graph.new) (tree_of L.form rule.now.left)
        (tree_of L.form rule.now.right) (string_bytes rule.now.name) found.now graph.old graph.new }

    ensures origin { IsTrue graph.new.failed ⊎ AreFromRule (C.answers rule.now.condition) (tree_of L.form rule.now.left)
        (tree_of L.form rule.now.right) (string_bytes rule.now.name) found.now graph.old graph.new }
    ensures extends { IsTrue graph.new.failed ⊎ ExtendsTo graph.old graph.new }
    ensures carries { IsTrue graph.new.failed ⊎ CarriesAlong N.codes N.meaning graph.old graph.new }
    ensures stays { IsTrue graph.old.failed → graph.new ≡ graph.old }
    ensures failed { IsErrOf result Error.Failed ↔ IsTrue graph.old.failed }
    ensures fails { IsTrue graph.new.failed ↔ IsErrAnd result (λ e. (e ≡ Error.Failed) ⊎ IsShortage e) }
    ensures left { IfErr result (λ e. IsTrue graph.new.failed
        ⊎ BreaksOff (C.answers rule.now.condition) (C.refuses rule.now.condition)
        (tree_of L.form rule.now.left) (tree_of L.form rule.now.right) (string_bytes rule.now.name) found.now graph.old graph.new e) }
    ensures err { IfErr result (λ e. (e ≡ Error.Failed) ⊎ IsShortage e
        ⊎ IsRefusedRewrite (C.refuses rule.now.condition) (tree_of L.form rule.now.right) e) }
{
    if graph.is_failed() {
        return Err(Error::Failed);
    }
    let applied = apply_found(alloc, graph, rule, found);
    fail_if_short(graph, applied)
}

impl<L: Language, N: Analysis<L>, C: Cond<L, N>> RewriteT<L, N> for Rewrite<L, C> {
    ghost use Rattle.slotted_rules.specs.WrittenLaws.{apply-later, found-applies, refused-other, valid-later};

    type Found = Matches;

    ghost valid = { λ r g. CanBeSearched L.form g.table r };

    ghost passes = { λ r g. PassesTests L.form g r };

    ghost searches = { λ r g found h. IsSearched (tree_of L.form r.left) g found h };

    ghost can_apply = { λ r found g. CanBeApplied (tree_of L.form r.left) found g };

    ghost applies = { λ r found g h. LeavesApplied (C.answers r.condition) (tree_of L.form r.left) (tree_of L.form r.right) (string_bytes r.name) found g h };

    ghost refuses = { λ r e. IsRefusedRewrite (C.refuses r.condition) (tree_of L.form r.right) e };

    // A search is refused over a failed graph, or if memory or slots ran out.
    ghost gives_up = { λ r g h e. ⊥ };

    ghost breaks_off = { λ r found g h e. BreaksOff (C.answers r.condition) (C.refuses r.condition) (tree_of L.form r.left) (tree_of L.form r.right) (string_bytes r.name) found g h e };

    ghost valid_stays = { λ r g h e v. valid-later L.form g h r e v };

    ghost searched_fits = { λ r g h found s. found-applies (tree_of L.form r.left) g found h s };

    ghost can_apply_stays = { λ r found g h e c. apply-later (tree_of L.form r.left) found g h e c };

    ghost never_failed = { λ r. refused-other (C.refuses r.condition) (λ s g. C.never_failed r.condition s g) (tree_of L.form r.right) };

    /// Returns whether the rule can be handed to calls on the graph. The graph's table has to know the names of both
    /// sides. No substitution may stand on the left side, and no variable on the right side alone. A rule with an
    /// e-node of 2^30 places or more is not valid.
    fn is_valid(&self, graph: &EGraph<L, N>) -> bool {
        graph.is_valid_pattern(&self.left)
            && graph.is_valid_pattern(&self.right)
            && !has_substitution(&self.left)
            && first_lacking(&self.right, &self.left).is_none()
    }

    /// Returns what `find_matches` finds for the left side.
    fn search(&self, alloc: Global, graph: &mut EGraph<L, N>) -> Result<Matches, Error>
        requires { IsTrue graph.old.failed ⊎ CanBeSearched L.form graph.old.table self.now }
        ensures ok { IfOk result (λ found. IsSearched (tree_of L.form self.now.left) graph.old found graph.new) }

        // A refusal does not fail the graph. Slots run out as they do in `find_matches`.
        ensures takes { OnlyTakesSlots graph.old graph.new }
        ensures full { IsErrOf result Error.OutOfSlots → LacksSlots (tree_of L.form self.now.left) graph.old graph.new }

        ensures extends { IsTrue graph.new.failed ⊎ ExtendsTo graph.old graph.new }
        ensures lowers { IsTrue graph.new.failed ⊎ LowersData N.codes N.meaning graph.old graph.new }
        ensures stays { IsTrue graph.old.failed → graph.new ≡ graph.old }
        ensures failed { IsErrOf result Error.Failed ↔ IsTrue graph.old.failed }
        ensures fails { IsTrue graph.new.failed → IsErrAnd result (λ e. (e ≡ Error.Failed) ⊎ IsShortage e) }
        ensures left { IfErr result (λ e. (e ≡ Error.Failed) ⊎ IsShortage e ⊎ ⊥) }
        ensures err { IfErr result (λ e. (e ≡ Error.Failed) ⊎ IsShortage e
            ⊎ IsRefusedRewrite (C.refuses self.now.condition) (tree_of L.form self.now.right) e) }
    {
        graph.find_matches(&self.left)
    }

    /// Unites the instances of both sides for each match in turn, if the condition holds just then. The rule's name is
    /// the text of each new equation. No class is modified: new classes, and those whose data has changed, wait for
    /// `EGraph::modify`.
    fn apply(&self, alloc: Global, found: Matches, graph: &mut EGraph<L, N>) -> Result<(), Error>
        requires valid { IsTrue graph.old.failed ⊎ CanBeSearched L.form graph.old.table self.now }
        requires found { IsTrue graph.old.failed ⊎ CanBeApplied (tree_of L.form self.now.left) found graph.old }
        ensures ok { OnOk result (LeavesApplied (C.answers self.now.condition) (tree_of L.form self.now.left)
            (tree_of L.form self.now.right) (string_bytes self.now.name) found graph.old graph.new) }

        // What was applied before a refusal stays.
        ensures origin { IsTrue graph.new.failed ⊎ AreFromRule (C.answers self.now.condition) (tree_of L.form self.now.left)
            (tree_of L.form self.now.right) (string_bytes self.now.name) found graph.old graph.new }

        // Each condition was asked in a graph between, to which and from which data only went down.
        ensures between { OnOk result (LeavesApplied
            (AnswersBetween N.codes N.meaning (C.answers self.now.condition) graph.old graph.new) (tree_of L.form self.now.left)
            (tree_of L.form self.now.right) (string_bytes self.now.name) found graph.old graph.new) }
        ensures held { IsTrue graph.new.failed ⊎ AreFromRule
            (AnswersBetween N.codes N.meaning (C.answers self.now.condition) graph.old graph.new) (tree_of L.form self.now.left)
            (tree_of L.form self.now.right) (string_bytes self.now.name) found graph.old graph.new }

        ensures extends { IsTrue graph.new.failed ⊎ ExtendsTo graph.old graph.new }
        ensures lowers { IsTrue graph.new.failed ⊎ LowersData N.codes N.meaning graph.old graph.new }
        ensures carries { IsTrue graph.new.failed ⊎ CarriesAlong N.codes N.meaning graph.old graph.new }
        ensures stays { IsTrue graph.old.failed → graph.new ≡ graph.old }
        ensures failed { IsErrOf result Error.Failed ↔ IsTrue graph.old.failed }
        ensures fails { IsTrue graph.new.failed ↔ IsErrAnd result (λ e. (e ≡ Error.Failed) ⊎ IsShortage e) }
        ensures left { IfErr result (λ e. IsTrue graph.new.failed
            ⊎ BreaksOff (C.answers self.now.condition) (C.refuses self.now.condition) (tree_of L.form self.now.left)
            (tree_of L.form self.now.right) (string_bytes self.now.name) found graph.old graph.new e) }
        ensures err { IfErr result (λ e. (e ≡ Error.Failed) ⊎ IsShortage e
            ⊎ IsRefusedRewrite (C.refuses self.now.condition) (tree_of L.form self.now.right) e) }
    {
        apply_matches(alloc, graph, self, &found)?;
        Ok(())
    }
}
