//! The calls on patterns and terms of texts, and their answers.
//!
//! For `P / Q` a row is about the node of P over the children of Q.
use crate::reading::parted;
use crate::writing::{write_derived, write_lines, write_shown, write_test, write_text};
use slotted_changes::{Marked, mark_change};
use slotted_languages::LanguageChildren;
use slotted_patterns::Pattern;
use slotted_slots::{AppliedId, Error, Id, SlotMap, SlotTable};
use slotted_small::Small;
use slotted_terms::{RecExpr, pattern_to_re, re_to_pattern};
use std::alloc::Global;
use std::hash::{DefaultHasher, Hash, Hasher};
use std::mem;

// Gives a pattern the child patterns of the pattern of a text.
fn put_child_patterns(
    alloc: Global,
    pattern: &mut Pattern<Small>,
    words: &str,
    table: &mut SlotTable,
) -> Result<(), Error> {
    let mut other = Pattern::<Small>::parse(alloc, words, table)?;
    if let Pattern::ENode(_, children) = pattern
        && let Pattern::ENode(_, others) = &mut other
    {
        mem::swap(children, others);
    }
    Ok(())
}

fn read_pattern(
    alloc: Global,
    words: &str,
    table: &mut SlotTable,
) -> Result<Pattern<Small>, Error> {
    let (top, below) = parted(words, " / ");
    let mut pattern = Pattern::<Small>::parse(alloc, top, table)?;
    if !below.is_empty() {
        put_child_patterns(alloc, &mut pattern, below, table)?;
    }
    Ok(pattern)
}

fn hash_of(pattern: &Pattern<Small>) -> u64 {
    let mut state = DefaultHasher::new();
    pattern.hash(&mut state);
    state.finish()
}

// Writes the derived form of a copy. The copy has to equal its source, and to have the same hash.
fn write_copy(
    alloc: Global,
    copy: &Pattern<Small>,
    source: &Pattern<Small>,
    text: &mut String,
) -> Result<(), Error> {
    if copy != source || hash_of(copy) != hash_of(source) {
        return Err(Error::NotEqual);
    }
    write_derived(alloc, copy, text)
}

// Writes the derived form of the pattern of a term.
fn write_pattern_of(alloc: Global, term: &RecExpr<Small>, text: &mut String) -> Result<(), Error> {
    let pattern = re_to_pattern(alloc, term)?;
    write_derived(alloc, &pattern, text)
}

// Writes the derived form of the pattern of the term of a pattern.
fn write_term_of(alloc: Global, pattern: &Pattern<Small>, text: &mut String) -> Result<(), Error> {
    let term = pattern_to_re(alloc, pattern)?;
    write_pattern_of(alloc, &term, text)
}

// Writes the answer of a call on a pattern that copies it or makes a term of it.
fn write_made(
    alloc: Global,
    call: &str,
    pattern: &Pattern<Small>,
    text: &mut String,
) -> Result<(), Error> {
    match call {
        "copy" => write_copy(alloc, &pattern.copy(alloc)?, pattern, text),
        "clone" => write_copy(alloc, &pattern.clone()?, pattern, text),
        _ => write_term_of(alloc, pattern, text),
    }
}

// Writes the answer of a call on a pattern.
fn write_printed(
    alloc: Global,
    call: &str,
    pattern: &Pattern<Small>,
    table: &SlotTable,
    text: &mut String,
) -> Result<(), Error> {
    match call {
        "text" => write_text(pattern.text(alloc, table), text),
        "show" => write_shown(pattern, table, text),
        "debug" => write_derived(alloc, pattern, text),
        "lines" => write_lines(pattern, text),
        "inside" => write_lines(&Some(pattern), text),
        _ => write_made(alloc, call, pattern, text),
    }
}

// Returns whether the patterns of two texts are equal.
fn are_equal(alloc: Global, words: &str, table: &mut SlotTable) -> Result<bool, Error> {
    let (left, right) = parted(words, " == ");
    let left = read_pattern(alloc, left, table)?;
    Ok(left == read_pattern(alloc, right, table)?)
}

// Returns whether a text is refused as one outside the grammar.
fn is_outside(alloc: Global, words: &str, table: &mut SlotTable) -> bool {
    match Pattern::<Small>::parse(alloc, words, table) {
        Ok(_) => false,
        Err(error) => error.number() == 4,
    }
}

// Writes those proper beginnings of a text that are not outside the grammar, one after another.
fn write_beginnings(
    alloc: Global,
    words: &str,
    table: &mut SlotTable,
    text: &mut String,
) -> Result<(), Error> {
    for (end, _) in words.char_indices() {
        let beginning = words.get(..end).unwrap_or("");
        if !is_outside(alloc, beginning, table) {
            text.push_str(beginning)?;
        }
    }
    Ok(())
}

// Writes the answer of a call on the pattern of a text.
pub(crate) fn write_pattern(
    alloc: Global,
    call: &str,
    words: &str,
    table: &mut SlotTable,
    text: &mut String,
) -> Result<(), Error> {
    match call {
        "beginnings" => write_beginnings(alloc, words, table, text),
        "equal" => write_test(are_equal(alloc, words, table), text),
        _ => {
            let pattern = read_pattern(alloc, words, table)?;
            write_printed(alloc, call, &pattern, table, text)
        }
    }
}

// Gives a term the children of the term of a text.
fn put_children(
    alloc: Global,
    term: &mut RecExpr<Small>,
    words: &str,
    table: &mut SlotTable,
) -> Result<(), Error> {
    let mut other = RecExpr::<Small>::parse(alloc, words, table)?;
    mem::swap(&mut term.children, &mut other.children);
    Ok(())
}

fn read_term(alloc: Global, words: &str, table: &mut SlotTable) -> Result<RecExpr<Small>, Error> {
    let (top, below) = parted(words, " / ");
    let mut term = RecExpr::<Small>::parse(alloc, top, table)?;
    if !below.is_empty() {
        put_children(alloc, &mut term, below, table)?;
    }
    Ok(term)
}

// Puts another id in place of an e-node's first child.
fn put_other_id(alloc: Global, node: &mut Small) {
    if node.applied_id_count() > 0 {
        let child = AppliedId {
            id: Id(7),
            m: SlotMap::new(alloc),
        };
        node.set_applied_id(0, child);
    }
}

// Returns whether the terms of two texts are alpha-equal. The second one gets another id for its first child, which
// terms ignore.
fn are_alike(alloc: Global, words: &str, table: &mut SlotTable) -> Result<bool, Error> {
    let (left, right) = parted(words, " == ");
    let left = read_term(alloc, left, table)?;
    let mut right = read_term(alloc, right, table)?;
    put_other_id(alloc, &mut right.node);
    left.alpha_eq(alloc, &right)
}

// Writes two texts beside each other.
fn write_texts(texts: &Marked, text: &mut String) -> Result<(), Error> {
    let first = &texts.first;
    let second = &texts.second;
    Ok(write!(text, "{first} | {second}")?)
}

// Writes the texts of two terms with the place marked at which they differ, or `none` if they are alpha-equal.
fn write_change(
    alloc: Global,
    left: &RecExpr<Small>,
    right: &RecExpr<Small>,
    table: &SlotTable,
    text: &mut String,
) -> Result<(), Error> {
    match mark_change(alloc, left, right, table)? {
        Some(texts) => write_texts(&texts, text),
        None => Ok(text.push_str("none")?),
    }
}

// Writes how the terms of two texts differ.
fn write_marked(
    alloc: Global,
    words: &str,
    table: &mut SlotTable,
    text: &mut String,
) -> Result<(), Error> {
    let (left, right) = parted(words, " == ");
    let left = read_term(alloc, left, table)?;
    let right = read_term(alloc, right, table)?;
    write_change(alloc, &left, &right, table, text)
}

// Writes the derived form of the pattern of a copy, which has to be alpha-equal to its source.
fn write_term_copy(
    alloc: Global,
    copy: Result<RecExpr<Small>, Error>,
    source: &RecExpr<Small>,
    text: &mut String,
) -> Result<(), Error> {
    let copy = copy?;
    if !source.alpha_eq(alloc, &copy)? {
        return Err(Error::NotEqual);
    }
    write_pattern_of(alloc, &copy, text)
}

// Writes the answer of a call on the pattern of a term.
fn write_as_pattern(
    alloc: Global,
    call: &str,
    term: &RecExpr<Small>,
    table: &SlotTable,
    text: &mut String,
) -> Result<(), Error> {
    let pattern = re_to_pattern(alloc, term)?;
    write_printed(alloc, call, &pattern, table, text)
}

// Writes the answer of a call on a term.
fn write_term_printed(
    alloc: Global,
    call: &str,
    term: &RecExpr<Small>,
    table: &SlotTable,
    text: &mut String,
) -> Result<(), Error> {
    match call {
        "text" => write_text(term.text(alloc, table), text),
        "show" => write_shown(term, table, text),
        "derived" => write_derived(alloc, term, text),
        "lines" => write_lines(term, text),
        "copy" => write_term_copy(alloc, term.copy(alloc), term, text),
        "pattern" => write_as_pattern(alloc, "text", term, table, text),
        _ => write_as_pattern(alloc, call, term, table, text),
    }
}

// Writes the answer of a call on the term of a text.
pub(crate) fn write_term(
    alloc: Global,
    call: &str,
    words: &str,
    table: &mut SlotTable,
    text: &mut String,
) -> Result<(), Error> {
    if call == "alike" {
        return write_test(are_alike(alloc, words, table), text);
    }
    if call == "mark" {
        return write_marked(alloc, words, table, text);
    }
    let term = read_term(alloc, words, table)?;
    write_term_printed(alloc, call, &term, table, text)
}
