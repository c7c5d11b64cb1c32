//! Rules as a workspace keeps them: as they were read, or sparing.
ghost use Rattle.std.specs.Prelude.{◌≡◌, true, IfOk, IfErr};
ghost use Rattle.slotted_slots.specs.Error.{IsOutOfMemory};
ghost use Rattle.slotted_workspace.specs.Spaces.{kept_as, rule_of};

use slotted_data::Analysis;
use slotted_explain::EGraph;
use slotted_languages::Language;
use slotted_patterns::Pattern;
use slotted_rule_patterns::Subst;
use slotted_rules::{Cond, CondTree, ReadsNames, Rewrite, UnlessEqual, sparing};
use slotted_slots::Error;
use std::alloc::Global;

/// The condition of a rule that a workspace keeps.
#[derive(Drop, Debug)]
pub enum RuleCondition<L: Language> {
    /// The condition that the rule was read with.
    Plain(CondTree),
    /// That condition, unless the instances of both sides are found equal as they stand.
    Sparing(UnlessEqual<L, CondTree>),
}

impl<L: Language, N: Analysis<L>> Cond<L, N> for RuleCondition<L> {
    ghost use Rattle.slotted_workspace.specs.Sparing.{AnswersRule, RuleRefuses, rule-never_failed, rule-one_answer};

    ghost answers = { λ c s g. AnswersRule L.form c s g };

    ghost refuses = { λ c s g e. RuleRefuses c s e };

    ghost never_failed = { λ c s g r. rule-never_failed c s r };

    ghost one_answer = { λ c s g. rule-one_answer L.form c s g };

    fn holds(&self, alloc: Global, s: &Subst, graph: &EGraph<L, N>) -> Result<bool, Error> {
        match self {
            RuleCondition::Plain(condition) => condition.holds(alloc, s, graph),
            RuleCondition::Sparing(condition) => condition.holds(alloc, s, graph),
        }
    }
}

impl<L: Language> ReadsNames for RuleCondition<L> {
    ghost use Rattle.slotted_workspace.specs.Sparing.{rule_reads};

    ghost reads = { rule_reads };

    fn test_names<M: Language>(&self, alloc: Global, left: &Pattern<M>) -> Result<(), Error> {
        match self {
            RuleCondition::Plain(condition) => condition.test_names(alloc, left),
            RuleCondition::Sparing(condition) => condition.test_names(alloc, left),
        }
    }
}

/// Returns a rule as a workspace keeps it, which is sparing if that is asked for.
pub(crate) fn kept_rule<L: Language>(
    alloc: Global,
    rule: Rewrite<L, CondTree>,
    is_sparing: bool,
) -> Result<Rewrite<L, RuleCondition<L>>, Error>
    ensures ok { IfOk result (λ r. rule_of L.form r ≡ kept_as L.form is_sparing rule) }
    ensures err { IfErr result IsOutOfMemory }
{
    if is_sparing {
        return spared(alloc, rule);
    }
    let Rewrite {
        name,
        left,
        right,
        condition,
    } = rule;
    Ok(Rewrite {
        name,
        left,
        right,
        condition: RuleCondition::Plain(condition),
    })
}

// Returns a rule that passes over each match whose instances are found equal as they stand.
fn spared<L: Language>(
    alloc: Global,
    rule: Rewrite<L, CondTree>,
) -> Result<Rewrite<L, RuleCondition<L>>, Error>
    ensures ok { IfOk result (λ r. rule_of L.form r ≡ kept_as L.form true rule) }
    ensures err { IfErr result IsOutOfMemory }
{
    let Rewrite {
        name,
        left,
        right,
        condition,
    } = sparing(alloc, rule)?;
    Ok(Rewrite {
        name,
        left,
        right,
        condition: RuleCondition::Sparing(condition),
    })
}
