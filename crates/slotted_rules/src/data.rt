//! Conditions that read the data of classes.
ghost use Rattle.std.specs.Prelude.{◌≡◌, string_bytes};
ghost use Rattle.slotted_rules.specs.Asking.{AnswersByData, LacksValue};

use crate::condition::Cond;
use slotted_data::Analysis;
use slotted_graph::EGraph;
use slotted_languages::Language;
use slotted_rule_patterns::Subst;
use slotted_rule_patterns::subst::value;
use slotted_slots::Error;
use std::alloc::Global;

/// A test of what an analysis keeps of a class.
pub trait DataTest<D>: Drop {
    ghost use Rattle.std.specs.Prelude.{Bool};

    ghost passes: { Self → D → Bool };

    /// Returns whether the data passes.
    fn test(&self, datum: &D) -> bool
        ensures { result ≡ passes self.now datum.now };
}

/// The condition that the data of a variable's class passes a test. A variable without a value is refused.
#[derive(Drop, Debug)]
pub struct DataPasses<T> {
    pub variable: String,
    pub test: T,
}

impl<L: Language, N: Analysis<L>, T: DataTest<N::Data>> Cond<L, N> for DataPasses<T> {
    ghost use Rattle.slotted_rules.specs.Asking.{data-one, lacks-never_failed};

    ghost answers = { λ c s g. AnswersByData N.codes (T.passes c.test) (string_bytes c.variable) s g };

    ghost refuses = { λ c s g e. LacksValue (string_bytes c.variable) s e };

    ghost never_failed = { λ c s g r. lacks-never_failed (string_bytes c.variable) s r };

    ghost one_answer = { λ c s g. data-one N.codes (T.passes c.test) (string_bytes c.variable) s g };

    fn holds(&self, alloc: Global, s: &Subst, graph: &EGraph<L, N>) -> Result<bool, Error> {
        match value(s, self.variable.as_str()) {
            Some(a) => Ok(self.test.test(graph.analysis_data(a.id))),
            None => {
                let name = String::from_str(alloc, self.variable.as_str())?;
                Err(Error::MissingVariable(name))
            }
        }
    }
}
