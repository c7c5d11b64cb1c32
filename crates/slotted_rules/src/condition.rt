//! Conditions of rules, which answer yes or no for a substitution in a graph.
ghost use Rattle.std.specs.Prelude.{◌≡◌, false, not, string_bytes, Ok, IfOk, IfErr};
ghost use Rattle.slotted_slots.specs.Maps.{values};
ghost use Rattle.slotted_model.specs.Correspondence.{has_slot};
ghost use Rattle.slotted_model_rules.specs.Matcher.{value_at};
ghost use Rattle.slotted_rules.specs.Asking.{AnswersBoth, AnswersEither, AnswersOpposite, LacksValue, slot_outcome};
ghost use Rattle.slotted_rule_patterns.specs.Values.{values_of};
ghost use Rattle.slotted_graph.specs.Matching.{AreValidValues};

use slotted_data::Analysis;
use slotted_graph::EGraph;
use slotted_languages::Language;
use slotted_rule_patterns::Subst;
use slotted_rule_patterns::subst::value;
use slotted_slots::{Error, Slot, SlotMap};
use std::alloc::Global;

/// A condition of a rule. A condition is asked just before a match is applied, in the graph as it is then.
///
/// The answer depends on the condition, the substitution and the graph alone. The data of classes is part of the graph.
/// A condition may read that by `analysis_data`, as [`DataPasses`](crate::DataPasses) does.
pub trait Cond<L: Language, N: Analysis<L>>: Drop {
    ghost use Rattle.std.specs.Prelude.{Bool};
    ghost use Rattle.slotted_model_rules.specs.Conditions.{Values};
    ghost use Rattle.slotted_operations.specs.Graph.{Graph};
    ghost use Rattle.slotted_slots.specs.declared.error.Error.{Error};
    ghost use Rattle.slotted_slots.specs.declared.error.Error.TheVariants.{Failed};
    ghost use Rattle.slotted_rules.specs.Asking.{IsOneAnswer};

    // The answer.
    ghost answers: { Self → Values → Graph → Bool → Type 0 };

    // The errors that the condition may return.
    ghost refuses: { Self → Values → Graph → Error → Type 0 };

    /// Returns whether the condition holds. The graph has not failed, and the values are valid ids of the graph.
    fn holds(&self, alloc: Global, s: &Subst, graph: &EGraph<L, N>) -> Result<bool, Error>
        requires well { graph.now.failed ≡ false }
        requires valid { AreValidValues graph.now (values_of s.now) }
        ensures ok { IfOk result (answers self.now (values_of s.now) graph.now) }
        ensures err { IfErr result (refuses self.now (values_of s.now) graph.now) };

    ghost never_failed: { (c : Self) (s : Values) (g : Graph) → ¬ refuses c s g Failed };

    ghost one_answer: { (c : Self) (s : Values) (g : Graph) → IsOneAnswer (answers c s g) };
}

/// The condition that holds for each substitution.
#[derive(Drop, Debug)]
pub struct Always;

impl<L: Language, N: Analysis<L>> Cond<L, N> for Always {
    ghost use Rattle.std.specs.Prelude.{true};
    ghost use Rattle.slotted_rules.specs.Asking.{same-one};

    ghost answers = { λ c s g y. y ≡ true };

    ghost refuses = { λ c s g e. ⊥ };

    ghost never_failed = { λ c s g r. r };

    ghost one_answer = { λ c s g. same-one true };

    fn holds(&self, alloc: Global, s: &Subst, graph: &EGraph<L, N>) -> Result<bool, Error> {
        Ok(true)
    }
}

/// The condition that a slot does not occur in the value of a variable, as the value was handed in. A variable without
/// a value is refused.
#[derive(Drop, Debug)]
pub struct SlotFreeIn {
    pub slot: Slot,
    pub variable: String,
}

impl SlotFreeIn {
    // Returns the answer, which does not depend on a graph.
    pub(crate) fn answer(&self, alloc: Global, s: &Subst) -> Result<bool, Error>
        ensures ok { IfOk result
            (λ y. slot_outcome self.now.slot (string_bytes self.now.variable) (value_at (values_of s.now) (string_bytes self.now.variable)) ≡ Ok y) }
        ensures err { IfErr result (LacksValue (string_bytes self.now.variable) (values_of s.now)) }
    {
        match value(s, self.variable.as_str()) {
            Some(a) => Ok(names_lack(&a.m, self.slot)),
            None => {
                let name = String::from_str(alloc, self.variable.as_str())?;
                Err(Error::MissingVariable(name))
            }
        }
    }
}

impl<L: Language, N: Analysis<L>> Cond<L, N> for SlotFreeIn {
    ghost use Rattle.slotted_rules.specs.Asking.{lacks-never_failed, outcome-one};

    ghost answers = { λ c s g y. slot_outcome c.slot (string_bytes c.variable) (value_at s (string_bytes c.variable)) ≡ Ok y };

    ghost refuses = { λ c s g e. LacksValue (string_bytes c.variable) s e };

    ghost never_failed = { λ c s g r. lacks-never_failed (string_bytes c.variable) s r };

    ghost one_answer = { λ c s g. outcome-one (slot_outcome c.slot (string_bytes c.variable) (value_at s (string_bytes c.variable))) };

    fn holds(&self, alloc: Global, s: &Subst, graph: &EGraph<L, N>) -> Result<bool, Error> {
        self.answer(alloc, s)
    }
}

// Returns whether a slot is none of the map's names.
fn names_lack(names: &SlotMap, slot: Slot) -> bool
    ensures { result ≡ not (has_slot (values names.now) slot) }
{
    for i in 0..names.len() {
        if names.value_at(i) == slot {
            return false;
        }
    }
    true
}

/// The condition that one of two conditions holds. The second one is asked only if the first one does not hold.
#[derive(Drop, Debug)]
pub struct Or<X, Y> {
    pub first: X,
    pub second: Y,
}

impl<L: Language, N: Analysis<L>, X: Cond<L, N>, Y: Cond<L, N>> Cond<L, N> for Or<X, Y> {
    ghost use Rattle.std.specs.Prelude.{◌⊎◌};
    ghost use Rattle.slotted_rules.specs.Asking.{either-never_failed, either-one};

    ghost answers = { λ c s g. AnswersEither (X.answers c.first s g) (Y.answers c.second s g) };

    ghost refuses = { λ c s g e. X.refuses c.first s g e ⊎ (X.answers c.first s g false × Y.refuses c.second s g e) };

    ghost never_failed = { λ c s g r. either-never_failed (X.never_failed c.first s g) (Y.never_failed c.second s g) r };

    ghost one_answer = { λ c s g. either-one (X.answers c.first s g) (Y.answers c.second s g) (X.one_answer c.first s g) (Y.one_answer c.second s g) };

    fn holds(&self, alloc: Global, s: &Subst, graph: &EGraph<L, N>) -> Result<bool, Error> {
        if self.first.holds(alloc, s, graph)? {
            return Ok(true);
        }
        self.second.holds(alloc, s, graph)
    }
}

/// The condition that two conditions hold. The second one is asked only if the first one holds.
#[derive(Drop, Debug)]
pub struct And<X, Y> {
    pub first: X,
    pub second: Y,
}

impl<L: Language, N: Analysis<L>, X: Cond<L, N>, Y: Cond<L, N>> Cond<L, N> for And<X, Y> {
    ghost use Rattle.std.specs.Prelude.{true, ◌⊎◌};
    ghost use Rattle.slotted_rules.specs.Asking.{both-one, either-never_failed};

    ghost answers = { λ c s g. AnswersBoth (X.answers c.first s g) (Y.answers c.second s g) };

    ghost refuses = { λ c s g e. X.refuses c.first s g e ⊎ (X.answers c.first s g true × Y.refuses c.second s g e) };

    ghost never_failed = { λ c s g r. either-never_failed (X.never_failed c.first s g) (Y.never_failed c.second s g) r };

    ghost one_answer = { λ c s g. both-one (X.answers c.first s g) (Y.answers c.second s g) (X.one_answer c.first s g) (Y.one_answer c.second s g) };

    fn holds(&self, alloc: Global, s: &Subst, graph: &EGraph<L, N>) -> Result<bool, Error> {
        if !self.first.holds(alloc, s, graph)? {
            return Ok(false);
        }
        self.second.holds(alloc, s, graph)
    }
}

/// The condition that another condition does not hold.
#[derive(Drop, Debug)]
pub struct Not<X> {
    pub condition: X,
}

impl<L: Language, N: Analysis<L>, X: Cond<L, N>> Cond<L, N> for Not<X> {
    ghost use Rattle.slotted_rules.specs.Asking.{opposite-one};

    ghost answers = { λ c s g. AnswersOpposite (X.answers c.condition s g) };

    ghost refuses = { λ c s g e. X.refuses c.condition s g e };

    ghost never_failed = { λ c s g r. X.never_failed c.condition s g r };

    ghost one_answer = { λ c s g. opposite-one (X.answers c.condition s g) (X.one_answer c.condition s g) };

    fn holds(&self, alloc: Global, s: &Subst, graph: &EGraph<L, N>) -> Result<bool, Error> {
        let held = self.condition.holds(alloc, s, graph)?;
        Ok(!held)
    }
}
