//! The methods of substitution that a graph can be made with.
ghost use Rattle.std.specs.Prelude.{◌≡◌, ◌⊎◌, map, IsSome, IsTrue, IfOk, IfErr, OnErr};
ghost use Rattle.slotted_slots.specs.Error.{IsShortage};
ghost use Rattle.slotted_proofs.specs.Equations.{to_applied};
ghost use Rattle.slotted_patterns.specs.Known.{HasKnownNames};
ghost use Rattle.slotted_patterns.specs.Subpatterns.{subpatterns};
ghost use Rattle.slotted_patterns.specs.View.{tree_of};
ghost use Rattle.slotted_graph.specs.Graph.{IsFullId};
ghost use Rattle.slotted_graph.specs.States.{IsGraph};
ghost use Rattle.slotted_rule_patterns.specs.PatternCode.{pattern_in};
ghost use Rattle.slotted_rule_patterns.specs.Values.{values_of};
ghost use Rattle.slotted_rules.specs.Building.{Grows};
ghost use Rattle.slotted_rules.specs.Carried.{CarriesAlong};
ghost use Rattle.slotted_rules.specs.Instances.{AreValidValues, HasValues, Instantiates};
ghost use Rattle.slotted_rules.specs.Methods.{canonical, extracted, method_of};

use crate::building::build_listed;
use crate::listed::Listed;
use crate::method::OwnSubst;
use crate::substitution::replaced;
use slotted_costs::AstSize;
use slotted_data::Analysis;
use slotted_graph::{EGraph, SubstMethod};
use slotted_languages::Language;
use slotted_patterns::Pattern;
use slotted_rule_patterns::Subst;
use slotted_rule_patterns::inside::subpatterns;
use slotted_slots::{AppliedId, Error};
use std::alloc::Global;

// The method that looks into the canonical term of the body.
#[derive(Drop)]
struct Canonical;

impl<L: Language, N: Analysis<L>> OwnSubst<L, N> for Canonical {
    ghost method = { canonical };

    ghost refuses = { λ _. ⊥ };

    ghost never_failed = { λ h. h };

    fn subst(
        &mut self,
        alloc: Global,
        b: AppliedId,
        x: AppliedId,
        t: AppliedId,
        graph: &mut EGraph<L, N>,
    ) -> Result<AppliedId, Error> {
        replaced(alloc, graph, &b, &x, &t)
    }
}

// The method that looks into a term of the fewest e-nodes that the body represents.
#[derive(Drop)]
struct Extracted;

impl<L: Language, N: Analysis<L>> OwnSubst<L, N> for Extracted {
    ghost method = { extracted };

    ghost refuses = { λ _. ⊥ };

    ghost never_failed = { λ h. h };

    fn subst(
        &mut self,
        alloc: Global,
        b: AppliedId,
        x: AppliedId,
        t: AppliedId,
        graph: &mut EGraph<L, N>,
    ) -> Result<AppliedId, Error> {
        let terms = graph.least_terms(&AstSize)?;
        let term = graph.least_term(&terms, &b)?;
        let body = graph.add_syn_expr_quietly(&term)?;
        replaced(alloc, graph, &body, &x, &t)
    }
}

/// Builds an instance by a method that a graph can be made with, from the list of the patterns in the pattern.
pub(crate) fn build_stored_listed<L: Language, N: Analysis<L>>(
    alloc: Global,
    graph: &mut EGraph<L, N>,
    method: SubstMethod,
    listed: &Listed<L>,
    subst: &Subst,
) -> Result<AppliedId, Error>
    requires graph { IsGraph graph.old }
    requires listed { map (λ p. tree_of L.form p.now) listed.now.inside.now
        ≡ subpatterns (tree_of L.form listed.now.pattern.now) }
    requires known { HasKnownNames graph.old.table (tree_of L.form listed.now.pattern.now) }
    requires values { AreValidValues graph.old (values_of subst.now) }
    requires whole { IsSome (pattern_in (tree_of L.form listed.now.pattern.now)) }
    requires given { HasValues (values_of subst.now) (tree_of L.form listed.now.pattern.now) }
    ensures ok { IfOk result (λ a. Instantiates (method_of method) graph.old graph.new (values_of subst.now)
        (tree_of L.form listed.now.pattern.now) (to_applied a)) }
    ensures carries { IsTrue graph.new.failed ⊎ CarriesAlong N.codes N.meaning graph.old graph.new }
    ensures only { IfErr result IsShortage }
{
    match method {
        SubstMethod::SynExpr => build_listed(alloc, graph, &mut Canonical, listed, subst),
        SubstMethod::Extraction => build_listed(alloc, graph, &mut Extracted, listed, subst),
    }
}

/// Builds an instance by a method that a graph can be made with.
pub(crate) fn build_stored<L: Language, N: Analysis<L>>(
    alloc: Global,
    graph: &mut EGraph<L, N>,
    method: SubstMethod,
    pattern: &Pattern<L>,
    subst: &Subst,
) -> Result<AppliedId, Error>
    requires graph { IsGraph graph.old }
    requires known { HasKnownNames graph.old.table (tree_of L.form pattern.now) }
    requires values { AreValidValues graph.old (values_of subst.now) }
    requires whole { IsSome (pattern_in (tree_of L.form pattern.now)) }
    requires given { HasValues (values_of subst.now) (tree_of L.form pattern.now) }
    ensures ok { IfOk result (λ a. Instantiates (method_of method) graph.old graph.new (values_of subst.now)
        (tree_of L.form pattern.now) (to_applied a)) }
    ensures carries { IsTrue graph.new.failed ⊎ CarriesAlong N.codes N.meaning graph.old graph.new }
    ensures only { IfErr result IsShortage }
{
    let inside = subpatterns(alloc, pattern)?;
    let listed = Listed {
        pattern,
        inside: &inside,
    };
    build_stored_listed(alloc, graph, method, &listed, subst)
}
