//! Methods of substitution.
ghost use Rattle.std.specs.Prelude.{◌≡◌, ◌⊎◌, IsTrue, IsErrAnd, IfOk, IfErr};
ghost use Rattle.slotted_slots.specs.Error.{IsShortage};
ghost use Rattle.slotted_slots.specs.declared.error.Error.{Error};
ghost use Rattle.slotted_slots.specs.declared.error.Error.TheVariants.{Failed};
ghost use Rattle.slotted_model.specs.Applied.{Applied};
ghost use Rattle.slotted_proofs.specs.Equations.{to_applied};
ghost use Rattle.slotted_graph.specs.Extension.{ExtendsTo};
ghost use Rattle.slotted_graph.specs.Graph.{Graph, IsFullId};
ghost use Rattle.slotted_graph.specs.States.{IsGraph};
ghost use Rattle.slotted_graph.specs.ValidIds.{IsValidId};
ghost use Rattle.slotted_rules.specs.Carried.{CarriesIf};
ghost use Rattle.slotted_rules.specs.Methods.{IsKnownMethod, Method, SubstitutesBy, unknown, canonical};

use crate::substitution::replaced;
use slotted_data::Analysis;
use slotted_graph::EGraph;
use slotted_languages::Language;
use slotted_slots::{AppliedId, Error};
use std::alloc::Global;

/// A method of substitution of a caller's own: it decides which id stands for `b[x := t]`.
pub trait OwnSubst<L: Language, N: Analysis<L>> {
    // What is known of the method. If nothing is known, its answers may be any valid ids.
    ghost method: { Method } = { unknown };

    // What the method may answer for b, x and t, and what it leaves of itself and of the graph. If nothing is stated,
    // it may leave anything.
    ghost substitutes: { Self → Graph → Applied → Applied → Applied → Applied → Self → Graph → Type 0 } = { λ _ _ _ _ _ _ _ _. Unit {0} };

    // The errors that the method may return beside shortages.
    ghost refuses: { Error → Type 0 };

    /// Returns the id of `b[x := t]`, for three full ids. The graph may change, but is only extended, and data only
    /// goes down. The limit of rounds stays.
    fn subst(
        &mut self,
        alloc: Global,
        b: AppliedId,
        x: AppliedId,
        t: AppliedId,
        graph: &mut EGraph<L, N>,
    ) -> Result<AppliedId, Error>
        requires graph { IsGraph graph.old }
        requires body { IsFullId graph.old (to_applied b) }
        requires part { IsFullId graph.old (to_applied x) }
        requires value { IsFullId graph.old (to_applied t) }
        ensures valid { IfOk result (λ a. IsValidId graph.new (to_applied a)) }
        ensures stands { IfOk result (λ a. IsKnownMethod method
            → SubstitutesBy method graph.old graph.new (to_applied b) (to_applied x) (to_applied t) (to_applied a)) }
        ensures asked { IfOk result (λ a. substitutes self.old graph.old
            (to_applied b) (to_applied x) (to_applied t) (to_applied a) self.new graph.new) }
        ensures extends { IsTrue graph.new.failed ⊎ ExtendsTo graph.old graph.new }
        ensures rests { IsTrue graph.new.failed ⊎ IsGraph graph.new }
        ensures carries { IsTrue graph.new.failed
            ⊎ CarriesIf (IsKnownMethod method) N.codes N.meaning graph.old graph.new }
        ensures fails { IsTrue graph.new.failed → IsErrAnd result IsShortage }
        ensures only { IfErr result (λ e. IsShortage e ⊎ refuses e) };

    // `Failed` is an error of graphs alone.
    ghost never_failed: { ¬ refuses Failed };
}
