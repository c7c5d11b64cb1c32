//! Questions to a graph by words.
use crate::failed::refuses;
use crate::own_conditions::{FirstOnly, RefusesLater};
use crate::own_graphs::{bare_sum, compare, put, term_text, unite};
use crate::own_methods::Asserting;
use crate::own_rules::Union;
use crate::searched::{count_all, count_in, replaced};
use slotted_graph::EGraph;
use slotted_patterns::Pattern;
use slotted_rule_patterns::Subst;
use slotted_rules::{
    Always, Cond, ReadsNames, Rewrite, RewriteT, apply_rewrites, are_valid, lookup_rec_expr,
    pattern_subst, subst_with, union_instantiations,
};
use slotted_slots::{AppliedId, Error};
use slotted_small::Small;
use slotted_terms::expr::RecExpr;
use std::alloc::Global;

/// Returns the texts before and behind a sign.
pub fn parted<'a>(text: &'a str, sign: &str) -> (&'a str, &'a str) {
    text.split_once(sign).unwrap_or((text, ""))
}

// Applies one rule, if the rule can be handed to the graph. If it cannot, the graph has failed.
fn apply_one<R: RewriteT<Small, ()>>(
    alloc: Global,
    graph: &mut EGraph<Small>,
    rule: R,
) -> Result<bool, Error> {
    let mut rules = Vec::new(alloc);
    rules.push(rule)?;
    if are_valid(graph, &rules) {
        apply_rewrites(alloc, graph, &rules)
    } else {
        Err(Error::Failed)
    }
}

// Returns the pattern of a text, or the one that no text writes.
fn pattern(alloc: Global, graph: &mut EGraph<Small>, text: &str) -> Result<Pattern<Small>, Error> {
    if text == "bare" {
        return Ok(bare_sum(alloc));
    }
    graph.parse_pattern(text)
}

// Applies the rule of two texts `L ~> R` under a condition.
fn apply_under<C: Cond<Small, ()> + ReadsNames>(
    alloc: Global,
    graph: &mut EGraph<Small>,
    condition: C,
    texts: &str,
) -> Result<bool, Error> {
    let (left, right) = parted(texts, " ~> ");
    let left = pattern(alloc, graph, left)?;
    let right = pattern(alloc, graph, right)?;
    let rule = Rewrite::from_patterns(alloc, "rule", left, right, condition)?;
    apply_one(alloc, graph, rule)
}

// Applies a rule of a caller's own, which unites two terms.
fn apply_own(alloc: Global, graph: &mut EGraph<Small>, texts: &str) -> Result<bool, Error> {
    let (left, right) = parted(texts, " ~> ");
    let left = put(graph, left)?;
    let right = put(graph, right)?;
    apply_one(alloc, graph, Union { left, right })
}

// Returns the instance of a pattern over the first match of a search.
fn instance_at(
    alloc: Global,
    graph: &mut EGraph<Small>,
    pattern: &Pattern<Small>,
    searched: &Pattern<Small>,
) -> Result<AppliedId, Error> {
    if !graph.is_valid_pattern(searched) {
        return Err(Error::Failed);
    }
    let found = graph.find_matches(searched)?;
    if found.len() == 0 || !graph.is_valid_pattern(pattern) {
        return Err(Error::Failed);
    }
    let subst = found.substitution(alloc, 0)?;
    pattern_subst(alloc, graph, pattern, &subst)
}

// Returns the instance of a pattern over no values.
fn instance(
    alloc: Global,
    graph: &mut EGraph<Small>,
    pattern: &Pattern<Small>,
) -> Result<AppliedId, Error> {
    if !graph.is_valid_pattern(pattern) {
        return Err(Error::Failed);
    }
    let subst = Subst::new(alloc);
    pattern_subst(alloc, graph, pattern, &subst)
}

// Returns the instance of a pattern over no values, by a method of a caller's own.
fn own_instance(
    alloc: Global,
    graph: &mut EGraph<Small>,
    pattern: &Pattern<Small>,
) -> Result<AppliedId, Error> {
    if !graph.is_valid_pattern(pattern) {
        return Err(Error::Failed);
    }
    let subst = Subst::new(alloc);
    subst_with(alloc, graph, pattern, &subst, &mut Asserting)
}

// Returns the canonical term of `b[x := t]`, for three terms `B, X, T`.
fn replaced_text(alloc: Global, graph: &mut EGraph<Small>, texts: &str) -> Result<String, Error> {
    let (b, texts) = parted(texts, ", ");
    let (x, t) = parted(texts, ", ");
    let b = put(graph, b)?;
    let x = put(graph, x)?;
    let t = put(graph, t)?;
    let id = replaced(alloc, graph, &b, &x, &t)?;
    term_text(alloc, graph, &id)
}

// Returns the canonical term of an instance of a text `P`, or of `P by Q` over the first match of `Q`.
fn instance_text(
    alloc: Global,
    graph: &mut EGraph<Small>,
    word: &str,
    texts: &str,
) -> Result<String, Error> {
    let (text, searched) = parted(texts, " by ");
    let built = pattern(alloc, graph, text)?;
    let id = match word {
        "own subst" => own_instance(alloc, graph, &built)?,
        "subst" => instance(alloc, graph, &built)?,
        _ => {
            let searched = pattern(alloc, graph, searched)?;
            instance_at(alloc, graph, &built, &searched)?
        }
    };
    term_text(alloc, graph, &id)
}

// Unites the instances of two texts `L ~> R` over no values.
fn unite_instances(alloc: Global, graph: &mut EGraph<Small>, texts: &str) -> Result<bool, Error> {
    let (left, right) = parted(texts, " ~> ");
    let left = pattern(alloc, graph, left)?;
    let right = pattern(alloc, graph, right)?;
    if !graph.is_valid_pattern(&left) || !graph.is_valid_pattern(&right) {
        return Err(Error::Failed);
    }
    let subst = Subst::new(alloc);
    union_instantiations(alloc, graph, &left, &right, &subst, None)
}

// Returns whether a look-up of a term has an answer.
fn is_found(alloc: Global, graph: &EGraph<Small>, term: &RecExpr<Small>) -> Result<bool, Error> {
    if !graph.is_valid_expr(term) {
        return Err(Error::Failed);
    }
    let found = lookup_rec_expr(alloc, term, graph)?;
    Ok(found.is_some())
}

// Returns whether a look-up of the term of a text has an answer.
fn is_looked_up(alloc: Global, graph: &mut EGraph<Small>, text: &str) -> Result<bool, Error> {
    let term = graph.parse_expr(text)?;
    is_found(alloc, graph, &term)
}

// Unites the terms of two texts, or compares them.
fn joined(graph: &mut EGraph<Small>, word: &str, texts: &str) -> Result<bool, Error> {
    let (left, right) = parted(texts, " == ");
    let left = put(graph, left)?;
    let right = put(graph, right)?;
    if word == "union" {
        unite(graph, &left, &right)
    } else {
        compare(graph, &left, &right)
    }
}

// Returns how many matches a pattern has.
fn count(alloc: Global, graph: &mut EGraph<Small>, text: &str) -> Result<usize, Error> {
    let searched = pattern(alloc, graph, text)?;
    if !graph.is_valid_pattern(&searched) {
        return Err(Error::Failed);
    }
    let found = graph.find_matches(&searched)?;
    Ok(found.len())
}

// Returns how many substitutions a search for a pattern finds.
fn count_each(alloc: Global, graph: &mut EGraph<Small>, text: &str) -> Result<usize, Error> {
    let searched = pattern(alloc, graph, text)?;
    count_all(alloc, graph, &searched)
}

// Returns how many matches the pattern of `P in T` has in the class of the term.
fn count_within(alloc: Global, graph: &mut EGraph<Small>, texts: &str) -> Result<usize, Error> {
    let (text, term) = parted(texts, " in ");
    let id = put(graph, term)?;
    let searched = pattern(alloc, graph, text)?;
    count_in(graph, &id, &searched)
}

// Returns the answer to a question of yes or no.
fn is_so(alloc: Global, graph: &mut EGraph<Small>, word: &str, text: &str) -> Result<bool, Error> {
    match word {
        "apply" => apply_under(alloc, graph, Always, text),
        "apply first" => apply_under(alloc, graph, FirstOnly, text),
        "apply refusing" => apply_under(alloc, graph, RefusesLater, text),
        "apply own" => apply_own(alloc, graph, text),
        "unite" => unite_instances(alloc, graph, text),
        "looked up" => is_looked_up(alloc, graph, text),
        "failed" => Ok(graph.is_failed()),
        "refuses" => refuses(alloc, graph, text),
        _ => joined(graph, word, text),
    }
}

// Returns the answer to a question that has a number for its answer.
fn number(
    alloc: Global,
    graph: &mut EGraph<Small>,
    word: &str,
    text: &str,
) -> Result<usize, Error> {
    match word {
        "asserted" => Ok(graph.asserted().len()),
        "proved" => Ok(graph.proof_count()),
        "substitutions" => count_each(alloc, graph, text),
        "matches in" => count_within(alloc, graph, text),
        _ => count(alloc, graph, text),
    }
}

/// An answer. A number, a yes and a no take no memory.
#[derive(Drop)]
pub enum Told {
    Text(String),
    Number(usize),
    Yes(bool),
}

impl Told {
    /// Returns whether this is the answer that is wanted.
    pub fn is(&self, wanted: &str) -> bool {
        match self {
            Told::Text(text) => text.as_str() == wanted,
            Told::Number(number) => wanted.parse::<usize>().ok() == Some(*number),
            Told::Yes(yes) => (wanted == "yes") == *yes,
        }
    }
}

// Returns the answer to a word over a text.
fn asked(alloc: Global, graph: &mut EGraph<Small>, word: &str, text: &str) -> Result<Told, Error> {
    match word {
        "asserted" | "proved" | "matches" | "substitutions" | "matches in" => {
            let answer = number(alloc, graph, word, text)?;
            Ok(Told::Number(answer))
        }
        "subst" | "subst at" | "own subst" => {
            let answer = instance_text(alloc, graph, word, text)?;
            Ok(Told::Text(answer))
        }
        "replaced" => {
            let answer = replaced_text(alloc, graph, text)?;
            Ok(Told::Text(answer))
        }
        _ => {
            let answer = is_so(alloc, graph, word, text)?;
            Ok(Told::Yes(answer))
        }
    }
}

/// Returns the answer to a question `WORD: TEXT`.
pub fn answer(alloc: Global, graph: &mut EGraph<Small>, question: &str) -> Result<Told, Error> {
    let (word, text) = parted(question, ": ");
    asked(alloc, graph, word, text)
}
