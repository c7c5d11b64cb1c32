//! The rules of arithmetic.
use slotted_data::Analysis;
use slotted_graph::EGraph;
use slotted_rules::{Always, Rewrite, UnlessEqual, sparing};
use slotted_slots::Error;
use slotted_small::Small;
use std::alloc::Global;

/// A rule of arithmetic, which passes over what is found equal already.
pub type Rule = Rewrite<Small, UnlessEqual<Small, Always>>;

// The name and both sides of each rule. Associativity of products is left out. With it a product with 0 would never be
// saturated, since it has each such product as a part.
const RULES: [(&str, &str, &str); 7] = [
    ("commutative-add", "(add ?a ?b)", "(add ?b ?a)"),
    ("commutative-mul", "(mul ?a ?b)", "(mul ?b ?a)"),
    (
        "associative-add",
        "(add (add ?a ?b) ?c)",
        "(add ?a (add ?b ?c))",
    ),
    (
        "distributive",
        "(mul ?a (add ?b ?c))",
        "(add (mul ?a ?b) (mul ?a ?c))",
    ),
    ("add-zero", "(add ?a 0)", "?a"),
    ("mul-one", "(mul ?a 1)", "?a"),
    ("mul-zero", "(mul ?a 0)", "0"),
];

// Returns the rule of a name and two texts.
fn rule<N: Analysis<Small>>(
    alloc: Global,
    graph: &mut EGraph<Small, N>,
    texts: &(&str, &str, &str),
) -> Result<Rule, Error> {
    let searched = graph.parse_pattern(texts.1)?;
    let made = graph.parse_pattern(texts.2)?;
    let rule = Rewrite::from_patterns(alloc, texts.0, searched, made, Always)?;
    sparing(alloc, rule)
}

/// Returns the rules, over the graph's table.
pub fn arithmetic<N: Analysis<Small>>(
    alloc: Global,
    graph: &mut EGraph<Small, N>,
) -> Result<Vec<Rule>, Error> {
    let mut rules = Vec::new(alloc);
    for texts in &RULES {
        rules.push(rule(alloc, graph, texts)?)?;
    }
    Ok(rules)
}
