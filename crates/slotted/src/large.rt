//! Many words, a long word and a term of many e-nodes. Memory is ample, so no line is refused.
use crate::streams::answer;
use std::alloc::Global;
use std::io;
use std::io::Write;
use std::process::Abort;

const WORDS: usize = 100_000;

// Returns lines that unite each word with the next one, and ask of the first and the last.
fn chain(alloc: Global) -> io::Result<Vec<u8>> {
    let mut lines = Vec::new(alloc);
    for i in 1..WORDS {
        let before = i - 1;
        writeln!(lines, "union w{before} == w{i}")?;
    }
    let last = WORDS - 1;
    writeln!(lines, "eq w0 == w{last}\neq w0 == w\nextract w{last}")?;
    Ok(lines)
}

// Returns the answers: each union was news, the ends are equal, another word is not, and the first word by its bytes is
// extracted.
fn chain_answers(alloc: Global) -> io::Result<Vec<u8>> {
    let mut answers = Vec::new(alloc);
    for _ in 1..WORDS {
        answers.extend_from_slice(b"true\n")?;
    }
    answers.extend_from_slice(b"yes\nno\n1 w0\n")?;
    Ok(answers)
}

// Asserts that lines have these answers.
fn check(rt: &impl Abort, alloc: Global, lines: &[u8], answers: &[u8]) -> io::Result<()> {
    let mut output = Vec::new(alloc);
    answer(alloc, lines, &mut output)?;
    assert!(rt; output.as_slice() == answers);
    Ok(())
}

#[test]
fn many_words_are_united(rt: HostRuntime) -> io::Result<()> {
    let alloc = rt.alloc();
    check(&rt, alloc, &chain(alloc)?, &chain_answers(alloc)?)
}

// Returns a word of 10,000 bytes and a last one.
fn long_word(alloc: Global, last: &str) -> io::Result<String> {
    let mut word = String::new(alloc);
    for _ in 0..10_000 {
        word.push_str("w")?;
    }
    word.push_str(last)?;
    Ok(word)
}

// Returns lines about two long words that differ in their last byte, and about the words that are equal to these.
fn long_lines(alloc: Global, word: &str, other: &str) -> io::Result<Vec<u8>> {
    let mut lines = Vec::new(alloc);
    writeln!(lines, "eq {word} == {other}\nextract {other}")?;
    writeln!(
        lines,
        "union (app {word} a) == {other}\neq (app {word} a) == {other}"
    )?;
    writeln!(
        lines,
        "eq (app {other} a) == {other}\nextract (app {word} a)"
    )?;
    Ok(lines)
}

fn long_answers(alloc: Global, other: &str) -> io::Result<Vec<u8>> {
    let mut answers = Vec::new(alloc);
    writeln!(answers, "no\n1 {other}\ntrue\nyes\nno\n1 {other}")?;
    Ok(answers)
}

fn check_long(rt: &impl Abort, alloc: Global, word: &str, other: &str) -> io::Result<()> {
    check(
        rt,
        alloc,
        &long_lines(alloc, word, other)?,
        &long_answers(alloc, other)?,
    )
}

#[test]
fn long_words_are_told_apart(rt: HostRuntime) -> io::Result<()> {
    let alloc = rt.alloc();
    check_long(&rt, alloc, &long_word(alloc, "x")?, &long_word(alloc, "y")?)
}

// Writes a text so many times.
fn repeat(out: &mut String, text: &str, count: u32) -> io::Result<()> {
    for _ in 0..count {
        out.push_str(text)?;
    }
    Ok(())
}

// Writes the leaf of a tree of 2^13 leaves, with the brackets before and behind.
fn write_leaf(alloc: Global, out: &mut String, place: u32, word: &str) -> io::Result<()> {
    let opened = if place == 0 {
        13
    } else {
        place.trailing_zeros()
    };
    let closed = place.wrapping_add(1).trailing_zeros();
    if place > 0 {
        out.push_str(" ")?;
    }
    repeat(out, "(app ", opened)?;
    out.push_str(word)?;
    repeat(out, ")", closed)
}

// Returns a term of 16,383 e-nodes, whose leaves are different words. This word stands in the middle.
fn tree(alloc: Global, middle: &str) -> io::Result<String> {
    let mut out = String::new(alloc);
    for place in 0..8192u32 {
        if place == 4095 {
            write_leaf(alloc, &mut out, place, middle)?;
        } else {
            write_leaf(alloc, &mut out, place, &format!(in alloc; "w{place}")?)?;
        }
    }
    Ok(out)
}

// Returns questions about two trees that differ in one word, before both words are united and afterwards.
fn tree_lines(alloc: Global, tree: &str, other: &str) -> io::Result<Vec<u8>> {
    let mut lines = Vec::new(alloc);
    writeln!(
        lines,
        "add {tree}\neq {tree} == {tree}\neq {tree} == {other}\nextract {tree}"
    )?;
    writeln!(lines, "union x == v\neq {tree} == {other}\nextract {tree}")?;
    Ok(lines)
}

// Returns the answers. Of the two words `v` comes first.
fn tree_answers(alloc: Global, tree: &str, other: &str) -> io::Result<Vec<u8>> {
    let mut answers = Vec::new(alloc);
    writeln!(
        answers,
        "ok\nyes\nno\n16383 {tree}\ntrue\nyes\n16383 {other}"
    )?;
    Ok(answers)
}

fn check_tree(rt: &impl Abort, alloc: Global, tree: &str, other: &str) -> io::Result<()> {
    check(
        rt,
        alloc,
        &tree_lines(alloc, tree, other)?,
        &tree_answers(alloc, tree, other)?,
    )
}

#[test]
fn a_term_of_many_nodes_is_given_out(rt: HostRuntime) -> io::Result<()> {
    let alloc = rt.alloc();
    check_tree(&rt, alloc, &tree(alloc, "x")?, &tree(alloc, "v")?)
}
