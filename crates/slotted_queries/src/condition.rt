//! The condition on predicates, by which they go to one side of a join.
ghost use Rattle.std.specs.Prelude.{◌≡◌};

use slotted_data::Analysis;
use slotted_graph::EGraph;
use slotted_languages::Language;
use slotted_patterns::Pattern;
use slotted_rule_patterns::Subst;
use slotted_rules::{Cond, ReadsNames, SlotFreeIn};
use slotted_slots::Error;
use std::alloc::Global;

/// What a rule asks of a match.
#[derive(Drop)]
pub enum Asked {
    /// Nothing.
    Nothing,
    /// That a predicate mentions the slot of the first, and not that of the second.
    MentionsOnly(SlotFreeIn, SlotFreeIn),
}

impl<L: Language, N: Analysis<L>> Cond<L, N> for Asked {
    ghost use Rattle.std.specs.Prelude.{Ok};
    ghost use Rattle.slotted_rules.specs.Asking.{outcome-one};
    ghost use Rattle.slotted_queries.specs.Sides.{AskedRefuses, asked-never_failed, asked_outcome};

    ghost answers = { λ c s g y. asked_outcome c s ≡ Ok y };

    ghost refuses = { λ c s g. AskedRefuses c s };

    ghost never_failed = { λ c s g. asked-never_failed c s };

    ghost one_answer = { λ c s g. outcome-one (asked_outcome c s) };

    fn holds(&self, alloc: Global, s: &Subst, graph: &EGraph<L, N>) -> Result<bool, Error> {
        match self {
            Asked::Nothing => Ok(true),
            Asked::MentionsOnly(this, other) => {
                if this.holds(alloc, s, graph)? {
                    return Ok(false);
                }
                other.holds(alloc, s, graph)
            }
        }
    }
}

impl ReadsNames for Asked {
    ghost use Rattle.slotted_queries.specs.Sides.{asked_reads};

    ghost reads = { asked_reads };

    fn test_names<L: Language>(&self, alloc: Global, left: &Pattern<L>) -> Result<(), Error> {
        match self {
            Asked::Nothing => Ok(()),
            Asked::MentionsOnly(this, other) => {
                this.test_names(alloc, left)?;
                other.test_names(alloc, left)
            }
        }
    }
}
