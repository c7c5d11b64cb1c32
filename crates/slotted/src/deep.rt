//! Terms that are nested deep. Memory is ample, so no line is refused.
use crate::streams::answer;
use std::alloc::Global;
use std::io;
use std::io::Write;
use std::process::Abort;

const LEVELS: usize = 100_000;

// Returns the text of a word under so many applications.
fn nested(alloc: Global, word: &str) -> io::Result<String> {
    let mut term = String::new(alloc);
    for _ in 0..LEVELS {
        term.push_str("(app a ")?;
    }
    term.push_str(word)?;
    for _ in 0..LEVELS {
        term.push_str(")")?;
    }
    Ok(term)
}

// Returns the questions about two deep terms that differ in their word.
fn lines(alloc: Global, term: &str, other: &str) -> io::Result<Vec<u8>> {
    let mut lines = Vec::new(alloc);
    writeln!(lines, "add {term}\nextract {term}\neq {term} == {other}")?;
    writeln!(
        lines,
        "union {term} == {other}\neq {term} == {other}\nexplain {term} == {other}"
    )?;
    Ok(lines)
}

// Returns the answers. Each level has two e-nodes, and the word is one more.
fn answers(alloc: Global, term: &str, other: &str) -> io::Result<Vec<u8>> {
    let mut answers = Vec::new(alloc);
    writeln!(answers, "ok\n200001 {term}\nno\ntrue\nyes")?;
    writeln!(answers, "0: {term} = {other} by None")?;
    Ok(answers)
}

fn check(rt: &impl Abort, alloc: Global, term: &str, other: &str) -> io::Result<()> {
    let mut output = Vec::new(alloc);
    answer(alloc, &lines(alloc, term, other)?, &mut output)?;
    assert!(rt; output == answers(alloc, term, other)?);
    Ok(())
}

#[test]
fn deep_terms_are_answered(rt: HostRuntime) -> io::Result<()> {
    let alloc = rt.alloc();
    check(&rt, alloc, &nested(alloc, "b")?, &nested(alloc, "c")?)
}

// Returns a rule between patterns of so many levels, and a question that the rule answers by yes.
fn rule_lines(alloc: Global) -> io::Result<Vec<u8>> {
    let found = nested(alloc, "?x")?;
    let made = nested(alloc, "?y")?;
    let left = nested(alloc, "b")?;
    let right = nested(alloc, "c")?;
    let mut lines = Vec::new(alloc);
    writeln!(
        lines,
        "add (mul c {left})\nrule deep: (mul ?y {found}) => (add {made} ?x)"
    )?;
    writeln!(lines, "run 0\neq (mul c {left}) == (add {right} b)")?;
    Ok(lines)
}

// Asserts that one turn leaves two e-nodes for each level, three words, a product and a sum.
fn check_rule(rt: &impl Abort, alloc: Global) -> io::Result<()> {
    let mut output = Vec::new(alloc);
    answer(alloc, &rule_lines(alloc)?, &mut output)?;
    assert!(rt;
        output.starts_with(b"ok\nok\n1 NodeLimit 200005\nturns ") && output.ends_with(b"\nyes\n")
    );
    Ok(())
}

#[test]
fn deep_patterns_are_matched(rt: HostRuntime) -> io::Result<()> {
    check_rule(&rt, rt.alloc())
}

// Returns a redex whose body has so many levels, and what the redex is equal to.
fn beta_lines(alloc: Global) -> io::Result<Vec<u8>> {
    let body = nested(alloc, "(var $x)")?;
    let put_in = nested(alloc, "c")?;
    let mut lines = Vec::new(alloc);
    writeln!(
        lines,
        "rule beta: (app (lam $x ?b) ?t) => ?b[(var $x) := ?t]"
    )?;
    writeln!(
        lines,
        "add (app (lam $x {body}) c)\nrun 0\neq (app (lam $x {body}) c) == {put_in}"
    )?;
    Ok(lines)
}

// Asserts that one turn leaves two e-nodes for each level, two words, a variable, an abstraction and an application.
fn check_beta(rt: &impl Abort, alloc: Global) -> io::Result<()> {
    let mut output = Vec::new(alloc);
    answer(alloc, &beta_lines(alloc)?, &mut output)?;
    assert!(rt;
        output.starts_with(b"ok\nok\n1 NodeLimit 200005\nturns ") && output.ends_with(b"\nyes\n")
    );
    Ok(())
}

#[test]
fn deep_bodies_are_substituted_in(rt: HostRuntime) -> io::Result<()> {
    check_beta(&rt, rt.alloc())
}
