//! Conditions of a caller's own, whose answers depend on the graph.

use slotted_data::Analysis;
use slotted_graph::EGraph;
use slotted_languages::Language;
use slotted_patterns::Pattern;
use slotted_rule_patterns::Subst;
use slotted_rules::{Cond, ReadsNames};
use slotted_slots::Error;
use std::alloc::Global;

/// The condition that holds as long as nothing was asserted.
#[derive(Drop)]
pub struct FirstOnly;

impl<L: Language, N: Analysis<L>> Cond<L, N> for FirstOnly {
    ghost use Rattle.std.specs.Prelude.{◌≡◌, ◌==◌, length};
    ghost use Rattle.slotted_proofs.specs.Entries.{explicit_numbers};
    ghost use Rattle.slotted_rules.specs.Asking.{same-one};

    ghost answers = { λ c s g y. y ≡ (length (explicit_numbers g.image.entries) == 0) };

    ghost refuses = { λ c s g e. ⊥ };

    ghost never_failed = { λ c s g r. r };

    ghost one_answer = { λ c s g. same-one (length (explicit_numbers g.image.entries) == 0) };

    fn holds(&self, alloc: Global, s: &Subst, graph: &EGraph<L, N>) -> Result<bool, Error> {
        Ok(graph.asserted().len() == 0)
    }
}

impl ReadsNames for FirstOnly {
    ghost use Rattle.std.specs.Prelude.{[]};

    ghost reads = { λ _. [] };

    fn test_names<L: Language>(&self, alloc: Global, left: &Pattern<L>) -> Result<(), Error> {
        Ok(())
    }
}

/// The condition that is refused once something was asserted.
#[derive(Drop)]
pub struct RefusesLater;

impl<L: Language, N: Analysis<L>> Cond<L, N> for RefusesLater {
    ghost use Rattle.std.specs.Prelude.{◌≡◌, true};
    ghost use Rattle.slotted_rules.specs.Asking.{same-one};
    ghost use Rattle.slotted_rules.specs.Rewriting.{IsNotATerm};

    ghost answers = { λ c s g y. y ≡ true };

    ghost refuses = { λ c s g e. IsNotATerm e };

    ghost never_failed = { λ c s g r. r };

    ghost one_answer = { λ c s g. same-one true };

    fn holds(&self, alloc: Global, s: &Subst, graph: &EGraph<L, N>) -> Result<bool, Error> {
        if graph.asserted().len() == 0 {
            Ok(true)
        } else {
            Err(Error::NotATerm)
        }
    }
}

impl ReadsNames for RefusesLater {
    ghost use Rattle.std.specs.Prelude.{[]};

    ghost reads = { λ _. [] };

    fn test_names<L: Language>(&self, alloc: Global, left: &Pattern<L>) -> Result<(), Error> {
        Ok(())
    }
}
