//! The five kinds of conditions as one type, for slices of rules whose conditions differ.
ghost use Rattle.std.specs.Prelude.{◌≡◌, Ok, IfOk, IfErr};
ghost use Rattle.slotted_rule_patterns.specs.Values.{values_of};
ghost use Rattle.slotted_rules.specs.TreeAnswers.{AnswersTree, TreeRefuses, outcome};

use crate::condition::{Cond, SlotFreeIn};
use slotted_data::Analysis;
use slotted_graph::EGraph;
use slotted_languages::Language;
use slotted_rule_patterns::Subst;
use slotted_slots::Error;
use std::alloc::Global;

/// A condition of one of the five kinds, over conditions of this type.
#[derive(Drop, Debug)]
pub enum CondTree {
    Always,
    SlotFreeIn(SlotFreeIn),
    Or(Box<CondTree>, Box<CondTree>),
    And(Box<CondTree>, Box<CondTree>),
    Not(Box<CondTree>),
}

impl CondTree {
    // Returns the answer, which does not depend on a graph.
    fn answer(&self, alloc: Global, s: &Subst) -> Result<bool, Error>
        ensures ok { IfOk result (AnswersTree self.now (values_of s.now)) }
        ensures err { IfErr result (TreeRefuses self.now (values_of s.now)) }
    {
        match self {
            CondTree::Always => Ok(true),
            CondTree::SlotFreeIn(condition) => condition.answer(alloc, s),
            CondTree::Or(first, second) => {
                if first.answer(alloc, s)? {
                    return Ok(true);
                }
                second.answer(alloc, s)
            }
            CondTree::And(first, second) => {
                if !first.answer(alloc, s)? {
                    return Ok(false);
                }
                second.answer(alloc, s)
            }
            CondTree::Not(condition) => {
                let held = condition.answer(alloc, s)?;
                Ok(!held)
            }
        }
    }
}

impl<L: Language, N: Analysis<L>> Cond<L, N> for CondTree {
    ghost use Rattle.slotted_rules.specs.TreeAnswers.{tree-never_failed};
    ghost use Rattle.slotted_rules.specs.Asking.{outcome-one};

    ghost answers = { λ c s g. AnswersTree c s };

    ghost refuses = { λ c s g e. TreeRefuses c s e };

    ghost never_failed = { λ c s g r. tree-never_failed c s r };

    ghost one_answer = { λ c s g. outcome-one (outcome c s) };

    fn holds(&self, alloc: Global, s: &Subst, graph: &EGraph<L, N>) -> Result<bool, Error> {
        self.answer(alloc, s)
    }
}
