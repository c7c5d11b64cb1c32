//! A method of substitution of a caller's own.

use slotted_data::Analysis;
use slotted_graph::EGraph;
use slotted_languages::Language;
use slotted_rules::OwnSubst;
use slotted_slots::{AppliedId, Error};
use std::alloc::Global;

/// The method that returns the body as it is, and asserts that the part is equal to the value.
#[derive(Drop)]
pub struct Asserting;

impl<L: Language, N: Analysis<L>> OwnSubst<L, N> for Asserting {
    ghost use Rattle.std.specs.Prelude.{◌≡◌};

    ghost substitutes = { λ k g b x t a l h. a ≡ b };

    ghost refuses = { λ e. ⊥ };

    ghost never_failed = { λ r. r };

    fn subst(
        &mut self,
        alloc: Global,
        b: AppliedId,
        x: AppliedId,
        t: AppliedId,
        graph: &mut EGraph<L, N>,
    ) -> Result<AppliedId, Error> {
        graph.union_quietly(&x, &t, None)?;
        Ok(b)
    }
}
