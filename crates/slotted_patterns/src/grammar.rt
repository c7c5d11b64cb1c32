//! The parser of patterns over tokens: a loop over a stack of open parts, so that no text exhausts the machine's
//! stack.
ghost use Rattle.std.specs.Prelude.{◌≡◌, ◌<◌, ◌+◌, ◌∷◌, ◌++◌, false, length, map, string_bytes, List, IsTrue, IfOk, OnOk, IfErr, IfSome, IfNone};
ghost use Rattle.std.specs.Option.{option_to_list};
ghost use Rattle.slotted_slots.specs.Error.{IsOutOfMemory};
ghost use Rattle.slotted_slots.specs.Syntax.{Lexeme, lexeme_of, word, slot, colon_equals, left_paren, right_paren, left_bracket, right_bracket, no_pattern, no_colon_equals, no_right_bracket};
ghost use Rattle.slotted_patterns.specs.Outcome.{PatternOutcome, Refuses, HasFault, Answers, outside};
ghost use Rattle.slotted_patterns.specs.Parsed.{TokensRead};
ghost use Rattle.slotted_patterns.specs.View.{tree_of};
ghost use Rattle.slotted_patterns.specs.Stack.{in_bracket, IsOutside, IsFault};
ghost use Rattle.slotted_patterns.specs.Reader.{bracket_of, parts_of, ReadsAs, ResumesAs, IsFaultFrom, IsFaultAfter, IsFaultOf, IsLess};
ghost use Rattle.slotted_patterns.specs.Grammar.{found, joined, one_text, one_slot, one_child, node, ReadsPattern, begins_with_word, begins_with_left_bracket, begins_with_colon_equals, begins_with_right_bracket};

use crate::pattern::Pattern;
use slotted_languages::language::Language;
use slotted_slots::{AppliedId, Error, ParseError, Slot, SyntaxElem, Token};
use std::alloc::Global;
use std::collections::VecDeque;

// Room for as many elements as most nodes have.
const USUAL_COUNT: usize = 3;

/// A bracket whose end was not read yet.
#[derive(Drop)]
pub(crate) struct Open<L: Language> {
    // The first is the operator, and a child is a null applied id.
    elements: Vec<SyntaxElem>,
    children: Vec<Pattern<L>>,
}

/// A part of a pattern whose end was not read yet. The patterns that were read of it are boxed, so that little is
/// moved with a part.
#[derive(Drop)]
pub(crate) enum Part<L: Language> {
    Node(Open<L>),
    /// The pattern before a `[`.
    Place(Box<Pattern<L>>),
    /// The pattern before a `[`, and that before the `:=` after it.
    Value(Box<Pattern<L>>, Box<Pattern<L>>),
}

/// The point up to which a pattern was read.
#[derive(Drop)]
pub(crate) enum Point<L: Language> {
    /// A base is expected, or a slot or the end in a bracket.
    Due,
    /// A base was read, which substitutions may follow.
    Base(Pattern<L>),
    /// A pattern was read to its end.
    Whole(Pattern<L>),
}

impl<L: Language> Open<L> {
    fn new(alloc: Global, operator: String) -> Result<Open<L>, Error>
        ensures ok { IfOk result (λ b. bracket_of L.form b ≡ one_text (string_bytes operator)) }
        ensures memory { IfErr result IsOutOfMemory }
    {
        let mut elements = Vec::with_capacity(alloc, USUAL_COUNT)?;
        elements.push(SyntaxElem::String(operator))?;
        Ok(Open {
            elements,
            children: Vec::new(alloc),
        })
    }

    fn push_slot(&mut self, slot: Slot) -> Result<(), Error>
        ensures ok { OnOk result (bracket_of L.form self.new ≡ joined (bracket_of L.form self.old) (one_slot slot)) }
        ensures memory { IfErr result IsOutOfMemory }
    {
        self.elements.push(SyntaxElem::Slot(slot))?;
        Ok(())
    }

    fn push_child(&mut self, alloc: Global, child: Pattern<L>) -> Result<(), Error>
        ensures ok { OnOk result
            (bracket_of L.form self.new ≡ joined (bracket_of L.form self.old) (one_child (tree_of L.form child))) }
        ensures memory { IfErr result IsOutOfMemory }
    {
        self.elements
            .push(SyntaxElem::AppliedId(AppliedId::null(alloc)))?;
        self.children.push(child)?;
        Ok(())
    }

    /// Returns the node of the bracket over its children.
    fn build(self, alloc: Global) -> Result<Pattern<L>, Error>
        ensures ok { IfOk result (λ p. (ls : List Lexeme)
            → node L.read (found (bracket_of L.form self) ls) ≡ found (tree_of L.form p) ls) }
        ensures none { IfErr result (Refuses
            (λ o. (ls : List Lexeme) → IsFault (node L.read (found (bracket_of L.form self) ls)) o)) }
    {
        let Open { elements, children } = self;
        match L::from_syntax(alloc, &elements)? {
            Some(node) => Ok(Pattern::ENode(node, children)),
            None => Err(Error::Parse(ParseError::FromSyntaxFailed(elements))),
        }
    }
}

/// Returns these tokens and all that follow.
fn remaining(
    alloc: Global,
    first: Option<Token>,
    rest: &mut VecDeque<Token>,
) -> Result<Vec<Token>, Error>
    ensures ok { IfOk result (λ v. v.items ≡ option_to_list first ++ rest.old.items) }
    ensures memory { IfErr result IsOutOfMemory }
{
    let mut tokens = Vec::new(alloc);
    if let Some(token) = first {
        tokens.push(token)?;
    }
    while let Some(token) = rest.pop_front() {
        tokens.push(token)?;
    }
    Ok(tokens)
}

/// Returns the error of tokens with which no pattern begins.
fn no_pattern(alloc: Global, first: Option<Token>, rest: &mut VecDeque<Token>) -> Error
    ensures { Refuses (HasFault (no_pattern (map lexeme_of (option_to_list first ++ rest.old.items)))) result }
{
    match remaining(alloc, first, rest) {
        Ok(tokens) => Error::Parse(ParseError::ParseState(tokens)),
        Err(error) => error,
    }
}

/// Returns the error of tokens among which a `:=` was expected.
fn no_colon_equals(alloc: Global, rest: &mut VecDeque<Token>) -> Error
    ensures { Refuses (HasFault (no_colon_equals (map lexeme_of rest.old.items))) result }
{
    match remaining(alloc, None, rest) {
        Ok(tokens) => Error::Parse(ParseError::ExpectedColonEquals(tokens)),
        Err(error) => error,
    }
}

/// Returns the error of tokens among which a `]` was expected.
fn no_right_bracket(alloc: Global, rest: &mut VecDeque<Token>) -> Error
    ensures { Refuses (HasFault (no_right_bracket (map lexeme_of rest.old.items))) result }
{
    match remaining(alloc, None, rest) {
        Ok(tokens) => Error::Parse(ParseError::ExpectedRBracket(tokens)),
        Err(error) => error,
    }
}

/// Returns the operator of a bracket.
fn next_operator(alloc: Global, tokens: &mut VecDeque<Token>) -> Result<String, Error>
    ensures ok { IfOk result
        (λ w. map lexeme_of tokens.old.items ≡ word (string_bytes w) ∷ map lexeme_of tokens.new.items) }
    ensures none { IfErr result (Refuses
        (λ (o : PatternOutcome). (o ≡ outside (no_pattern (map lexeme_of tokens.old.items)))
        × (begins_with_word (map lexeme_of tokens.old.items) ≡ false))) }
{
    let Some(token) = tokens.pop_front() else {
        return Err(no_pattern(alloc, None, tokens));
    };
    match token {
        Token::Ident(operator) => Ok(operator),
        other => Err(no_pattern(alloc, Some(other), tokens)),
    }
}

/// Removes a `[` that stands first. Returns whether there was one.
fn skip_left_bracket(tokens: &mut VecDeque<Token>) -> bool
    ensures found { IsTrue result → map lexeme_of tokens.old.items ≡ left_bracket ∷ map lexeme_of tokens.new.items }
    ensures none { result ≡ false → (tokens.new.items ≡ tokens.old.items)
        × (begins_with_left_bracket (map lexeme_of tokens.old.items) ≡ false) }
{
    let Some(Token::LBracket) = tokens.front() else {
        return false;
    };
    tokens.pop_front();
    true
}

/// Removes a `:=` that stands first. Returns whether there was one.
fn skip_colon_equals(tokens: &mut VecDeque<Token>) -> bool
    ensures found { IsTrue result → map lexeme_of tokens.old.items ≡ colon_equals ∷ map lexeme_of tokens.new.items }
    ensures none { result ≡ false → (tokens.new.items ≡ tokens.old.items)
        × (begins_with_colon_equals (map lexeme_of tokens.old.items) ≡ false) }
{
    let Some(Token::ColonEquals) = tokens.front() else {
        return false;
    };
    tokens.pop_front();
    true
}

/// Removes a `]` that stands first. Returns whether there was one.
fn skip_right_bracket(tokens: &mut VecDeque<Token>) -> bool
    ensures found { IsTrue result → map lexeme_of tokens.old.items ≡ right_bracket ∷ map lexeme_of tokens.new.items }
    ensures none { result ≡ false → (tokens.new.items ≡ tokens.old.items)
        × (begins_with_right_bracket (map lexeme_of tokens.old.items) ≡ false) }
{
    let Some(Token::RBracket) = tokens.front() else {
        return false;
    };
    tokens.pop_front();
    true
}

/// Removes the innermost part and returns it, if it is a bracket.
fn pop_bracket<L: Language>(stack: &mut Vec<Part<L>>) -> Option<Open<L>>
    ensures some { IfSome result (λ b. parts_of L.form stack.old.items
        ≡ in_bracket (bracket_of L.form b) ∷ parts_of L.form stack.new.items) }
    ensures none { IfNone result (IsOutside (parts_of L.form stack.old.items)) }
{
    match stack.pop() {
        Some(Part::Node(open)) => Some(open),
        Some(Part::Place(_)) => None,
        Some(Part::Value(_, _)) => None,
        None => None,
    }
}

/// Reads on after a slot, which may stand in a bracket only.
fn read_slot<L: Language>(
    alloc: Global,
    tokens: &mut VecDeque<Token>,
    stack: &mut Vec<Part<L>>,
    name: Slot,
) -> Result<Point<L>, Error>
    ensures ok { IfOk result (λ at. ReadsAs L.form L.read
        stack.old.items Point.Due (slot name ∷ map lexeme_of tokens.old.items)
        stack.new.items at (map lexeme_of tokens.new.items)) }
    ensures kept { OnOk result (tokens.new.items ≡ tokens.old.items) }
    ensures none { IfErr result (Refuses
        (IsFaultFrom L.form L.read stack.old.items Point.Due (slot name ∷ map lexeme_of tokens.old.items))) }
{
    let Some(mut open) = pop_bracket(stack) else {
        return Err(no_pattern(alloc, Some(Token::Slot(name)), tokens));
    };
    open.push_slot(name)?;
    stack.push(Part::Node(open))?;
    Ok(Point::Due)
}

/// Reads on after the end of a bracket.
fn read_end<L: Language>(
    alloc: Global,
    tokens: &mut VecDeque<Token>,
    stack: &mut Vec<Part<L>>,
) -> Result<Point<L>, Error>
    ensures ok { IfOk result (λ at. ReadsAs L.form L.read
        stack.old.items Point.Due (right_paren ∷ map lexeme_of tokens.old.items)
        stack.new.items at (map lexeme_of tokens.new.items)) }
    ensures kept { OnOk result (tokens.new.items ≡ tokens.old.items) }
    ensures none { IfErr result (Refuses
        (IsFaultFrom L.form L.read stack.old.items Point.Due (right_paren ∷ map lexeme_of tokens.old.items))) }
{
    let Some(open) = pop_bracket(stack) else {
        return Err(no_pattern(alloc, Some(Token::RParen), tokens));
    };
    Ok(Point::Base(open.build(alloc)?))
}

/// Reads a base, the beginning of one, or a part of a bracket.
fn read_base<L: Language>(
    alloc: Global,
    tokens: &mut VecDeque<Token>,
    stack: &mut Vec<Part<L>>,
) -> Result<Point<L>, Error>
    ensures ok { IfOk result (λ at. ReadsAs L.form L.read
        stack.old.items Point.Due (map lexeme_of tokens.old.items)
        stack.new.items at (map lexeme_of tokens.new.items)) }
    ensures shorter { OnOk result (length tokens.new.items < length tokens.old.items) }
    ensures none { IfErr result (Refuses
        (IsFaultFrom L.form L.read stack.old.items Point.Due (map lexeme_of tokens.old.items))) }
{
    let Some(token) = tokens.pop_front() else {
        return Err(no_pattern(alloc, None, tokens));
    };
    match token {
        Token::LParen => {
            let operator = next_operator(alloc, tokens)?;
            stack.push(Part::Node(Open::new(alloc, operator)?))?;
            Ok(Point::Due)
        }
        Token::Ident(word) => Ok(Point::Base(Open::new(alloc, word)?.build(alloc)?)),
        Token::PVar(name) => Ok(Point::Base(Pattern::PVar(name))),
        Token::Slot(slot) => read_slot(alloc, tokens, stack, slot),
        Token::RParen => read_end(alloc, tokens, stack),
        other => Err(no_pattern(alloc, Some(other), tokens)),
    }
}

/// Reads on after what stands between `[` and `:=`.
fn read_value<L: Language>(
    alloc: Global,
    tokens: &mut VecDeque<Token>,
    stack: &mut Vec<Part<L>>,
    body: Box<Pattern<L>>,
    place: Pattern<L>,
) -> Result<Point<L>, Error>
    ensures ok { IfOk result (λ at. ResumesAs L.form L.read
        stack.old.items (Part.Place body) place (map lexeme_of tokens.old.items)
        stack.new.items at (map lexeme_of tokens.new.items)) }
    ensures less { IfOk result (λ at. IsLess at (length tokens.new.items) (length tokens.old.items)) }
    ensures none { IfErr result (Refuses
        (IsFaultAfter L.form L.read stack.old.items (Part.Place body) place (map lexeme_of tokens.old.items))) }
{
    if !skip_colon_equals(tokens) {
        return Err(no_colon_equals(alloc, tokens));
    }
    let place = Box::new(alloc, place)?;
    stack.push(Part::Value(body, place))?;
    Ok(Point::Due)
}

/// Reads on after what stands between `:=` and `]`.
fn read_close<L: Language>(
    alloc: Global,
    tokens: &mut VecDeque<Token>,
    stack: &mut Vec<Part<L>>,
    body: Box<Pattern<L>>,
    place: Box<Pattern<L>>,
    value: Pattern<L>,
) -> Result<Point<L>, Error>
    ensures ok { IfOk result (λ at. ResumesAs L.form L.read
        stack.old.items (Part.Value body place) value (map lexeme_of tokens.old.items)
        stack.new.items at (map lexeme_of tokens.new.items)) }
    ensures less { IfOk result (λ at. IsLess at (length tokens.new.items) (length tokens.old.items)) }
    ensures none { IfErr result (Refuses
        (IsFaultAfter L.form L.read stack.old.items (Part.Value body place) value (map lexeme_of tokens.old.items))) }
{
    if !skip_right_bracket(tokens) {
        return Err(no_right_bracket(alloc, tokens));
    }
    let value = Box::new(alloc, value)?;
    Ok(Point::Base(Pattern::Subst(body, place, value)))
}

/// Reads on after a base, or after a substitution.
fn read_on<L: Language>(
    alloc: Global,
    tokens: &mut VecDeque<Token>,
    stack: &mut Vec<Part<L>>,
    base: Pattern<L>,
) -> Result<Point<L>, Error>
    ensures ok { IfOk result (λ at. ReadsAs L.form L.read
        stack.old.items (Point.Base base) (map lexeme_of tokens.old.items)
        stack.new.items at (map lexeme_of tokens.new.items)) }
    ensures less { IfOk result (λ at. IsLess at (length tokens.new.items) (length tokens.old.items)) }
    ensures none { IfErr result (Refuses
        (IsFaultFrom L.form L.read stack.old.items (Point.Base base) (map lexeme_of tokens.old.items))) }
{
    if skip_left_bracket(tokens) {
        let base = Box::new(alloc, base)?;
        stack.push(Part::Place(base))?;
        return Ok(Point::Due);
    }
    match stack.pop() {
        None => Ok(Point::Whole(base)),
        Some(Part::Node(mut open)) => {
            open.push_child(alloc, base)?;
            stack.push(Part::Node(open))?;
            Ok(Point::Due)
        }
        Some(Part::Place(body)) => read_value(alloc, tokens, stack, body, base),
        Some(Part::Value(body, place)) => read_close(alloc, tokens, stack, body, place, base),
    }
}

/// Reads a pattern at the front of the tokens.
fn read_pattern<L: Language>(
    alloc: Global,
    tokens: &mut VecDeque<Token>,
) -> Result<Pattern<L>, Error>
    ensures ok { IfOk result (λ p. ReadsPattern L.read (map lexeme_of tokens.old.items)
        (found (tree_of L.form p) (map lexeme_of tokens.new.items))) }
    ensures none { IfErr result (Refuses (IsFaultOf L.read (map lexeme_of tokens.old.items))) }
{
    let mut stack = Vec::new(alloc);
    let mut at = Point::Due;
    loop {
        at = match at {
            Point::Due => read_base(alloc, tokens, &mut stack)?,
            Point::Base(base) => read_on(alloc, tokens, &mut stack, base)?,
            Point::Whole(pattern) => return Ok(pattern),
        };
    }
}

/// Returns the pattern that tokens write.
pub(crate) fn parse_tokens<L: Language>(
    alloc: Global,
    tokens: Vec<Token>,
) -> Result<Pattern<L>, Error>
    ensures { Answers (tree_of L.form) (TokensRead L.read (map lexeme_of tokens.items)) result }
{
    let mut tokens = VecDeque::from_vec(tokens);
    let pattern = read_pattern(alloc, &mut tokens)?;
    if tokens.is_empty() {
        Ok(pattern)
    } else {
        Err(Error::Parse(ParseError::RemainingRest(tokens.into_vec())))
    }
}
