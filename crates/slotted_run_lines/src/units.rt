//! A rule for products with a factor that is known to be 1.
use crate::datum::{Datum, IsOne};
use slotted_data::Analysis;
use slotted_graph::EGraph;
use slotted_rules::{DataPasses, Rewrite, apply_rewrites, are_valid};
use slotted_slots::Error;
use slotted_small::Small;
use std::alloc::Global;

// A rule whose condition reads the data of a class.
type Rule = Rewrite<Small, DataPasses<IsOne>>;

// Returns the rule `(mul ?x ?y) => ?x` for where the class of a variable's value is known to be 1.
fn unit_rule<N: Analysis<Small>>(
    alloc: Global,
    graph: &mut EGraph<Small, N>,
    variable: &str,
) -> Result<Rule, Error> {
    let left = graph.parse_pattern("(mul ?x ?y)")?;
    let right = graph.parse_pattern("?x")?;
    let condition = DataPasses {
        variable: String::from_str(alloc, variable)?,
        test: IsOne,
    };
    Rewrite::from_patterns(alloc, "unit", left, right, condition)
}

/// Applies the rule `(mul ?x ?y) => ?x` once, where the variable is known to be 1.
pub fn apply_unit<N: Analysis<Small>>(
    alloc: Global,
    graph: &mut EGraph<Small, N>,
    variable: &str,
) -> Result<bool, Error>
where
    N::Data: Datum,
{
    let rules = [unit_rule(alloc, graph, variable)?];
    if are_valid(graph, &rules) {
        apply_rewrites(alloc, graph, &rules)
    } else {
        Err(Error::Failed)
    }
}
