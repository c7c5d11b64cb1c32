//! The condition that the instances of two patterns are not found equal as they stand: rules that pass over what is equal.
ghost use Rattle.std.specs.Prelude.{◌≡◌, ◌≤◌, ◌↔◌, false, length, map, option_map, IfErr, IfOk, IfSome, IsTrue, OnOk};
ghost use Rattle.slotted_slots.specs.Error.{IsOutOfMemory};
ghost use Rattle.slotted_nodes.specs.Form.{children};
ghost use Rattle.slotted_proofs.specs.Equations.{to_applied};
ghost use Rattle.slotted_patterns.specs.Subpatterns.{parts};
ghost use Rattle.slotted_patterns.specs.View.{tree_of};
ghost use Rattle.slotted_rule_patterns.specs.Values.{values_of};
ghost use Rattle.slotted_graph.specs.Matching.{AreValidValues};
ghost use Rattle.slotted_graph.specs.ValidIds.{IsValidId};
ghost use Rattle.slotted_rules.specs.Stacked.{ids_before, over_ids};
ghost use Rattle.slotted_rules.specs.Unless.{AreSeenEqual, IsSeenNode, IsSparing, SaysSeen, SeesOver};

use crate::condition::Cond;
use crate::over::over_last;
use crate::reading::ReadsNames;
use crate::rewrite::Rewrite;
use slotted_data::Analysis;
use slotted_graph::EGraph;
use slotted_languages::Language;
use slotted_patterns::Pattern;
use slotted_rule_patterns::Subst;
use slotted_rule_patterns::inside::subpatterns;
use slotted_rule_patterns::subst::value;
use slotted_slots::{AppliedId, Error};
use std::alloc::Global;

/// The condition that another condition holds, unless the instances of two patterns are found equal as they stand.
///
/// An instance is looked up from below, e-node by e-node. So the answer is yes for each match with something new to
/// say, and for each pattern with a substitution, which is not looked up.
#[derive(Drop, Debug)]
pub struct UnlessEqual<L: Language, C> {
    pub left: Pattern<L>,
    pub right: Pattern<L>,
    pub condition: C,
}

// Returns the id of an e-node over as many of the last ids as it has children, or `None` if the graph has none. The ids
// are taken from the list.
fn node_seen<L: Language, N: Analysis<L>>(
    alloc: Global,
    graph: &EGraph<L, N>,
    node: &L,
    ids: &mut Vec<AppliedId>,
) -> Result<Option<AppliedId>, Error>
    requires well { graph.now.failed ≡ false }
    requires enough { length (children (L.form node.now).tree) ≤ length ids.old.items }
    ensures id { IfOk result
        (λ o. IsSeenNode graph.now (over_ids (L.form node.now) (map to_applied ids.old.items)) (option_map to_applied o)) }
    ensures rest { OnOk result (map to_applied ids.new.items
        ≡ ids_before (length (children (L.form node.now).tree)) (map to_applied ids.old.items)) }
    ensures valid { IfOk result (λ o. IfSome o (λ a. IsValidId graph.now (to_applied a))) }
    ensures err { IfErr result IsOutOfMemory }
{
    let node = node.copy(alloc)?;
    let over = over_last(node, ids);
    if !graph.is_valid_node(&over) {
        return Ok(None);
    }
    graph.lookup(&over)
}

// Returns the id of an instance of a pattern over those of its parts, or `None` if the graph has none. These are the
// last ids of the list, and are taken from it.
fn seen_over<L: Language, N: Analysis<L>>(
    alloc: Global,
    graph: &EGraph<L, N>,
    pattern: &Pattern<L>,
    subst: &Subst,
    ids: &mut Vec<AppliedId>,
) -> Result<Option<AppliedId>, Error>
    requires well { graph.now.failed ≡ false }
    requires values { AreValidValues graph.now (values_of subst.now) }
    requires enough { length (parts (tree_of L.form pattern.now)) ≤ length ids.old.items }
    ensures ok { IfOk result (λ o. SeesOver graph.now (values_of subst.now) (tree_of L.form pattern.now)
        (map to_applied ids.old.items) (map to_applied ids.new.items) (option_map to_applied o)) }
    ensures valid { IfOk result (λ o. IfSome o (λ a. IsValidId graph.now (to_applied a))) }
    ensures err { IfErr result IsOutOfMemory }
{
    match pattern {
        Pattern::ENode(node, children) => {
            if children.len() != node.applied_id_count() {
                return Ok(None);
            }
            node_seen(alloc, graph, node, ids)
        }
        Pattern::PVar(name) => match value(subst, name.as_str()) {
            Some(id) => Ok(Some(id.copy(alloc)?)),
            None => Ok(None),
        },
        Pattern::Subst(_, _, _) => Ok(None),
    }
}

// Returns the id of an instance of a pattern, or `None` if the graph has none.
fn seen<L: Language, N: Analysis<L>>(
    alloc: Global,
    graph: &EGraph<L, N>,
    pattern: &Pattern<L>,
    subst: &Subst,
) -> Result<Option<AppliedId>, Error>
    requires well { graph.now.failed ≡ false }
    requires values { AreValidValues graph.now (values_of subst.now) }
    ensures ok { IfOk result
        (λ o. SaysSeen graph.now (values_of subst.now) (tree_of L.form pattern.now) (option_map to_applied o)) }
    ensures valid { IfOk result (λ o. IfSome o (λ a. IsValidId graph.now (to_applied a))) }
    ensures err { IfErr result IsOutOfMemory }
{
    let mut left = subpatterns(alloc, pattern)?;
    let mut ids = Vec::new(alloc);
    while let Some(next) = left.pop() {
        match seen_over(alloc, graph, next, subst, &mut ids)? {
            Some(id) => ids.push(id)?,
            None => return Ok(None),
        }
    }
    match ids.pop() {
        Some(id) => Ok(Some(id)),
        None => unreachable!(),
    }
}

// Returns whether the instances of both patterns are found equal as they stand. The left one is looked up only if the
// right one has an id.
fn are_seen_equal<L: Language, N: Analysis<L>>(
    alloc: Global,
    graph: &EGraph<L, N>,
    left: &Pattern<L>,
    right: &Pattern<L>,
    subst: &Subst,
) -> Result<bool, Error>
    requires well { graph.now.failed ≡ false }
    requires values { AreValidValues graph.now (values_of subst.now) }
    ensures equal { IfOk result (λ y. IsTrue y
        ↔ AreSeenEqual graph.now (values_of subst.now) (tree_of L.form left.now) (tree_of L.form right.now)) }
    ensures err { IfErr result IsOutOfMemory }
{
    let Some(b) = seen(alloc, graph, right, subst)? else {
        return Ok(false);
    };
    let Some(a) = seen(alloc, graph, left, subst)? else {
        return Ok(false);
    };
    graph.eq(&a, &b)
}

impl<L: Language, N: Analysis<L>, C: Cond<L, N>> Cond<L, N> for UnlessEqual<L, C> {
    ghost use Rattle.std.specs.Prelude.{true, ◌⊎◌};
    ghost use Rattle.slotted_slots.specs.Error.{IsOutOfMemory};
    ghost use Rattle.slotted_rules.specs.Unless.{SaysUnless, memory-never_failed, unless-one};

    ghost answers = { λ c s g. SaysUnless (C.answers c.condition s g) g s (tree_of L.form c.left) (tree_of L.form c.right) };

    ghost refuses = { λ c s g e. C.refuses c.condition s g e ⊎ (C.answers c.condition s g true × IsOutOfMemory e) };

    ghost never_failed = { λ c s g r. memory-never_failed (C.never_failed c.condition s g) r };

    ghost one_answer = { λ c s g. unless-one (C.answers c.condition s g) (C.one_answer c.condition s g) g s (tree_of L.form c.left) (tree_of L.form c.right) };

    fn holds(&self, alloc: Global, s: &Subst, graph: &EGraph<L, N>) -> Result<bool, Error> {
        if !self.condition.holds(alloc, s, graph)? {
            return Ok(false);
        }
        let equal = are_seen_equal(alloc, graph, &self.left, &self.right, s)?;
        Ok(!equal)
    }
}

impl<L: Language, C: ReadsNames> ReadsNames for UnlessEqual<L, C> {
    ghost reads = { λ c. C.reads c.condition };

    fn test_names<M: Language>(&self, alloc: Global, left: &Pattern<M>) -> Result<(), Error> {
        self.condition.test_names(alloc, left)
    }
}

/// Returns a rule with the same sides, which passes over each match whose instances are found equal as they stand.
///
/// A run of such rules adds no e-node for what is equal already. So it makes fewer classes and takes less time, and its
/// proofs have no step for a match that was passed over.
pub fn sparing<L: Language, C: Drop>(
    alloc: Global,
    rule: Rewrite<L, C>,
) -> Result<Rewrite<L, UnlessEqual<L, C>>, Error>
    ensures ok { IfOk result (IsSparing L.form rule) }
    ensures err { IfErr result IsOutOfMemory }
{
    let Rewrite {
        name,
        left,
        right,
        condition,
    } = rule;
    let condition = UnlessEqual {
        left: left.copy(alloc)?,
        right: right.copy(alloc)?,
        condition,
    };
    Ok(Rewrite {
        name,
        left,
        right,
        condition,
    })
}
