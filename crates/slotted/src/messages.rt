//! Tests of what messages say. Expected texts stand in rows beside what they are of.

use slotted_messages::Message;
use slotted_slots::{AppliedId, Error, ParseError, SlotTable, SyntaxElem, Token};
use std::alloc::Global;
use std::process::Abort;

// What is wanted, how many tokens remain, the text, and the message.
const WANTED: [(&str, usize, &str, &str); 10] = [
    (
        "pattern",
        5,
        "((f) a)",
        "an operator or a pattern is wanted at 2 of ((f) a)",
    ),
    (
        "pattern",
        0,
        "(app f",
        "`)` is missing at the end of (app f",
    ),
    (
        "pattern",
        0,
        "(app f (",
        "an operator is wanted at the end of (app f (",
    ),
    (
        "pattern",
        0,
        "?b[(f) :=",
        "a pattern is wanted at the end of ?b[(f) :=",
    ),
    ("pattern", 0, " ", "a pattern is wanted in an empty text"),
    (
        "pattern",
        3,
        "(f é :=é)",
        "an operator or a pattern is wanted at 6 of (f é :=é)",
    ),
    (
        "end",
        1,
        "(f a) b",
        "the text goes on after its pattern at 7 of (f a) b",
    ),
    (":=", 2, "?b[a c]", "`:=` is wanted at 6 of ?b[a c]"),
    ("]", 1, "?b[a := c d", "`]` is wanted at 11 of ?b[a := c d"),
    ("]", 0, "?b[a := c", "`]` is wanted at the end of ?b[a := c"),
];

// A text with a sign without a name, what remains behind the sign, and the message.
const UNNAMED: [(&str, &str, &str); 2] = [
    ("(é ?)", ")", "a name is missing behind `?` at 4 of (é ?)"),
    ("$", "", "a name is missing behind `$` at 1 of $"),
];

// Patterns that are no terms, and the message.
const NO_TERM: [(&str, &str); 2] = [
    ("(f ?x)", "?x at 4 of (f ?x): a term has no variables"),
    (
        "a[b := c]",
        "a substitution stands where a term is needed, at 2 of a[b := c]",
    ),
];

// Texts with an e-node `(add $x a)` that no language has, and the message.
const NO_NODE: [(&str, &str); 2] = [
    (
        "(f (add $x a))",
        "the language has no e-node `(add $.. _)` at 5 of (f (add $x a))",
    ),
    (
        "(add (add $x a) b)",
        "the language has no e-node `(add $.. _)` in (add (add $x a) b)",
    ),
];

fn check<R: Abort>(rt: &R, alloc: Global, message: &Message, wanted: &str) {
    let said = format!(in alloc; "{message}").expect(rt, "out of memory");
    assert_eq!(rt; said.as_str(), wanted);
}

// Returns this many tokens.
fn tokens<R: Abort>(rt: &R, alloc: Global, count: usize) -> Vec<Token> {
    let mut made = Vec::new(alloc);
    for _ in 0..count {
        made.push(Token::RParen).expect(rt, "out of memory");
    }
    made
}

// Returns the error of a text in which this is wanted in front of the tokens that remain.
fn wants(wanted: &str, rest: Vec<Token>) -> Error {
    Error::Parse(match wanted {
        "pattern" => ParseError::ParseState(rest),
        "end" => ParseError::RemainingRest(rest),
        ":=" => ParseError::ExpectedColonEquals(rest),
        _ => ParseError::ExpectedRBracket(rest),
    })
}

// Returns the error of an e-node `(add $x a)`.
fn no_node<R: Abort>(rt: &R, alloc: Global) -> Error {
    let mut elements = Vec::new(alloc);
    let word = String::from_str(alloc, "add").expect(rt, "out of memory");
    elements
        .push(SyntaxElem::String(word))
        .expect(rt, "out of memory");
    let slot = SlotTable::new(alloc).numeric(1).expect(rt, "out of memory");
    elements
        .push(SyntaxElem::Slot(slot))
        .expect(rt, "out of memory");
    elements
        .push(SyntaxElem::AppliedId(AppliedId::null(alloc)))
        .expect(rt, "out of memory");
    Error::Parse(ParseError::FromSyntaxFailed(elements))
}

#[test]
fn messages_say_the_place(rt: HostRuntime) {
    let alloc = rt.alloc();
    for (wanted, count, text, said) in WANTED {
        let error = wants(wanted, tokens(&rt, alloc, count));
        check(&rt, alloc, &Message::of_text(&error, text), said);
    }
    for (text, rest, said) in UNNAMED {
        let rest = String::from_str(alloc, rest).expect(&rt, "out of memory");
        let error = Error::Parse(ParseError::TokenState(rest));
        check(&rt, alloc, &Message::of_text(&error, text), said);
    }
    for (text, said) in NO_TERM {
        check(&rt, alloc, &Message::of_text(&Error::NotATerm, text), said);
    }
    let error = no_node(&rt, alloc);
    for (text, said) in NO_NODE {
        check(&rt, alloc, &Message::of_text(&error, text), said);
    }
}

#[test]
fn messages_without_a_text_say_what_remains(rt: HostRuntime) {
    let alloc = rt.alloc();
    let error = wants("]", tokens(&rt, alloc, 2));
    check(
        &rt,
        alloc,
        &Message::of(&error),
        "`]` is wanted in front of `))`",
    );
    let error = no_node(&rt, alloc);
    check(
        &rt,
        alloc,
        &Message::of(&error),
        "the language has no e-node `(add $.. _)`",
    );
    let name = String::from_str(alloc, "v").expect(&rt, "out of memory");
    let error = Error::MissingVariable(name);
    check(
        &rt,
        alloc,
        &Message::of(&error),
        "the variable ?v has no value",
    );
    check(
        &rt,
        alloc,
        &Message::of(&Error::NotEqual),
        "the terms are not equal",
    );
}
