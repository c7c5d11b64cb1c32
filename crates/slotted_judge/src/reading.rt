//! The parts of terms and patterns from their texts. Nothing rests on this: the texts are made again, and compared.
use crate::reader::Reader;
use crate::words::Words;
use slotted_certificates::puts::Put;
use slotted_certificates::tokens::Token;
use std::alloc::{AllocError, Global};

/// The number of the first substitution in a line that is not read to its end.
const FIRST_PUT: usize = 1 << 40;

/// The numbers of slots and variables in a line, and the substitutions that were read in it.
#[derive(Drop)]
pub struct Names {
    pub slots: Words,
    pub variables: Words,
    pub puts: Vec<Put>,
}

impl Names {
    /// Returns no names.
    pub fn new(alloc: Global) -> Self {
        Names {
            slots: Words::new(alloc),
            variables: Words::new(alloc),
            puts: Vec::new(alloc),
        }
    }
}

// Returns a part with its number in the whole line: substitutions stand behind so many variables.
fn renumbered(token: Token, variables: usize) -> Token {
    match token {
        Token::Value(number) if number >= FIRST_PUT => {
            Token::Value((number - FIRST_PUT).saturating_add(variables))
        }
        _ => token,
    }
}

/// Returns parts of a line of so many variables with their numbers in the whole line.
pub fn renumber(
    alloc: Global,
    tokens: &[Token],
    variables: usize,
) -> Result<Vec<Token>, AllocError> {
    let mut made = Vec::new(alloc);
    for token in tokens {
        made.push(renumbered(*token, variables))?;
    }
    Ok(made)
}

/// Returns substitutions of a line of so many variables with their numbers in the whole line.
pub fn renumber_puts(
    alloc: Global,
    puts: &[Put],
    variables: usize,
) -> Result<Vec<Put>, AllocError> {
    let mut made = Vec::new(alloc);
    for put in puts {
        made.push(renumber_put(alloc, put, variables)?)?;
    }
    Ok(made)
}

// Returns a substitution with its numbers in the whole line.
fn renumber_put(alloc: Global, put: &Put, variables: usize) -> Result<Put, AllocError> {
    let body = renumber(alloc, &put.body, variables)?;
    let part = renumber(alloc, &put.part, variables)?;
    let value = renumber(alloc, &put.value, variables)?;
    Ok(Put { body, part, value })
}

// A part whose end was not read yet, and where it begins.
#[derive(Drop)]
enum Open {
    Bracket(usize),
    // `b[`, with b.
    Part(usize, Vec<Token>),
    // `b[x :=`, with b and x.
    Value(usize, Vec<Token>, Vec<Token>),
}

// What follows a piece of text.
#[derive(Clone, Copy, PartialEq, Eq)]
enum Next {
    GoesOn,
    Ends,
    Fails,
}

// The parts that were read, those that are open, and where the term begins that has just ended.
#[derive(Drop)]
struct Reading {
    tokens: Vec<Token>,
    open: Vec<Open>,
    ended: Option<usize>,
}

// Returns the last parts, from a place on, and takes them away.
fn split_off(
    alloc: Global,
    tokens: &mut Vec<Token>,
    start: usize,
) -> Result<Vec<Token>, AllocError> {
    let mut last = Vec::new(alloc);
    for k in start..tokens.len() {
        last.push(tokens[k])?;
    }
    tokens.truncate(start);
    Ok(last)
}

// Returns the number of the word that is next, if it is not empty.
fn numbered(
    alloc: Global,
    words: &mut Words,
    reader: &mut Reader,
) -> Result<Option<usize>, AllocError> {
    let word = reader.word();
    if word.is_empty() {
        return Ok(None);
    }
    Ok(Some(words.number(alloc, word)?))
}

impl Reading {
    // Goes on behind `[x`: the value is next.
    fn begin_value(
        &mut self,
        alloc: Global,
        reader: &mut Reader,
        start: usize,
        body: Vec<Token>,
    ) -> Result<Next, AllocError> {
        reader.skip_spaces();
        if !reader.take(":=") {
            return Ok(Next::Fails);
        }
        let part = split_off(alloc, &mut self.tokens, start)?;
        self.open.push(Open::Value(start, body, part))?;
        Ok(Next::GoesOn)
    }

    // Ends a substitution.
    fn end_put(
        &mut self,
        alloc: Global,
        reader: &mut Reader,
        names: &mut Names,
        start: usize,
        put: (Vec<Token>, Vec<Token>),
    ) -> Result<Next, AllocError> {
        if !reader.take("]") {
            return Ok(Next::Fails);
        }
        let value = split_off(alloc, &mut self.tokens, start)?;
        let (body, part) = put;
        let number = names.puts.len().saturating_add(FIRST_PUT);
        names.puts.push(Put { body, part, value })?;
        self.tokens.push(Token::Value(number))?;
        self.ended = Some(start);
        Ok(Next::GoesOn)
    }

    // Goes on behind a term, which begins at a place.
    fn end_term(
        &mut self,
        alloc: Global,
        reader: &mut Reader,
        names: &mut Names,
        begin: usize,
    ) -> Result<Next, AllocError> {
        if reader.take("[") {
            let body = split_off(alloc, &mut self.tokens, begin)?;
            self.open.push(Open::Part(begin, body))?;
            return Ok(Next::GoesOn);
        }
        match self.open.pop() {
            None => Ok(Next::Ends),
            Some(Open::Bracket(start)) => {
                self.open.push(Open::Bracket(start))?;
                Ok(Next::GoesOn)
            }
            Some(Open::Part(start, body)) => self.begin_value(alloc, reader, start, body),
            Some(Open::Value(start, body, part)) => {
                self.end_put(alloc, reader, names, start, (body, part))
            }
        }
    }

    // Ends a bracket.
    fn close(&mut self) -> Result<Next, AllocError> {
        match self.open.pop() {
            Some(Open::Bracket(start)) => {
                self.tokens.push(Token::Close)?;
                self.ended = Some(start);
                Ok(Next::GoesOn)
            }
            _ => Ok(Next::Fails),
        }
    }

    // Adds a part that is a term by itself.
    fn add_term(&mut self, token: Token) -> Result<Next, AllocError> {
        self.ended = Some(self.tokens.len());
        self.tokens.push(token)?;
        Ok(Next::GoesOn)
    }

    // Begins the bracket of an operator.
    fn open_bracket(&mut self, operator: usize) -> Result<Next, AllocError> {
        self.open.push(Open::Bracket(self.tokens.len()))?;
        self.tokens.push(Token::Bracket(operator))?;
        Ok(Next::GoesOn)
    }
}

// Reads a slot.
fn read_slot(
    alloc: Global,
    reading: &mut Reading,
    reader: &mut Reader,
    names: &mut Names,
) -> Result<Next, AllocError> {
    match numbered(alloc, &mut names.slots, reader)? {
        Some(slot) => {
            reading.tokens.push(Token::Slot(slot))?;
            Ok(Next::GoesOn)
        }
        None => Ok(Next::Fails),
    }
}

// Reads a variable.
fn read_variable(
    alloc: Global,
    reading: &mut Reading,
    reader: &mut Reader,
    names: &mut Names,
) -> Result<Next, AllocError> {
    match numbered(alloc, &mut names.variables, reader)? {
        Some(variable) => reading.add_term(Token::Value(variable)),
        None => Ok(Next::Fails),
    }
}

// Begins the part that is next.
fn begin_part(
    alloc: Global,
    reading: &mut Reading,
    reader: &mut Reader,
    operators: &mut Words,
    names: &mut Names,
) -> Result<Next, AllocError> {
    if reader.take(")") {
        return reading.close();
    }
    if reader.take("$") {
        return read_slot(alloc, reading, reader, names);
    }
    if reader.take("?") {
        return read_variable(alloc, reading, reader, names);
    }
    let is_bracket = reader.take("(");
    match numbered(alloc, operators, reader)? {
        Some(operator) if is_bracket => reading.open_bracket(operator),
        Some(operator) => reading.add_term(Token::Leaf(operator)),
        None => Ok(Next::Fails),
    }
}

/// Returns the parts of the term or pattern that is next, if there is one.
pub fn read_tokens(
    alloc: Global,
    reader: &mut Reader,
    operators: &mut Words,
    names: &mut Names,
) -> Result<Option<Vec<Token>>, AllocError> {
    let mut reading = Reading {
        tokens: Vec::new(alloc),
        open: Vec::new(alloc),
        ended: None,
    };
    for _ in 0..usize::MAX {
        let next = match reading.ended.take() {
            Some(begin) => reading.end_term(alloc, reader, names, begin)?,
            None => {
                reader.skip_spaces();
                begin_part(alloc, &mut reading, reader, operators, names)?
            }
        };
        match next {
            Next::GoesOn => (),
            Next::Ends => return Ok(Some(reading.tokens)),
            Next::Fails => return Ok(None),
        }
    }
    Ok(None)
}
