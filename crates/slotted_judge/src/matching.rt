//! Guesses of what the variables of a rule stand for. Nothing rests on them: what is guessed is put in and compared.
use slotted_certificates::tokens::Token;
use slotted_check::pieces::Piece;
use std::alloc::{AllocError, Global};

// Where the value of a variable was met: its place in the row, and the slots of the binders around it.
#[derive(Drop)]
struct Met {
    variable: usize,
    begin: usize,
    end: usize,
    scopes: Vec<usize>,
}

// What was met so far, the names of the row that slots of the pattern are, and the binders around the next place.
#[derive(Drop)]
struct Alignment {
    at: usize,
    met: Vec<Met>,
    known: Vec<(usize, usize)>,
    scopes: Vec<usize>,
}

// Returns the place behind the term that begins at a place.
fn end_of(row: &[Piece], begin: usize) -> usize {
    let mut open: usize = 0;
    for k in begin..row.len() {
        match row[k] {
            Piece::Head(_) => open = open.saturating_add(1),
            Piece::Close => open = open.saturating_sub(1),
            _ => (),
        }
        if open == 0 {
            return k + 1;
        }
    }
    row.len()
}

// Returns how many scopes are open behind a piece.
fn depth_after(piece: Piece, depth: usize) -> usize {
    match piece {
        Piece::Scope => depth.saturating_add(1),
        Piece::Leave => depth.saturating_sub(1),
        _ => depth,
    }
}

impl Alignment {
    // Goes past the end of a term, and of the scopes that end with the term.
    fn end_term(&mut self, row: &[Piece], end: usize) {
        self.at = end;
        for k in end..row.len() {
            if row[k] != Piece::Leave {
                return;
            }
            let _ = self.scopes.pop();
            self.at = k + 1;
        }
    }

    // Notes where a variable was met.
    fn meet(&mut self, row: &[Piece], variable: usize) -> Result<(), AllocError> {
        let (begin, end) = (self.at, end_of(row, self.at));
        let scopes = self.scopes.clone()?;
        self.met.push(Met {
            variable,
            begin,
            end,
            scopes,
        })?;
        self.end_term(row, end);
        Ok(())
    }

    // Goes past a slot of the pattern.
    fn pass_slot(&mut self, slot: usize, piece: Piece) -> Result<(), AllocError> {
        match piece {
            Piece::Scope => self.scopes.push(slot)?,
            Piece::Name(x) => {
                if let Some(free) = x.checked_sub(self.scopes.len()) {
                    self.known.push((free, slot))?;
                }
            }
            _ => (),
        }
        self.at = self.at.saturating_add(1);
        Ok(())
    }

    // Goes past what stands in the row where a part stands in the pattern.
    fn pass(&mut self, token: Token, row: &[Piece], piece: Piece) -> Result<(), AllocError> {
        let next = self.at.saturating_add(1);
        match token {
            Token::Leaf(_) => self.end_term(row, next.saturating_add(1)),
            Token::Bracket(_) => self.at = next,
            Token::Close => self.end_term(row, next),
            Token::Slot(slot) => self.pass_slot(slot, piece)?,
            Token::Value(variable) => self.meet(row, variable)?,
        }
        Ok(())
    }

    // Returns the slot of the pattern that a free name of the row is, or else a name past all slots.
    fn slot_of(&self, name: usize, slots: usize) -> Option<usize> {
        for pair in &self.known {
            if pair.0 == name {
                return Some(pair.1);
            }
        }
        name.checked_add(slots)
    }

    // Returns what a name of the row is called in a value that was met.
    fn called(&self, met: &Met, name: usize, slots: usize) -> Option<usize> {
        match name.checked_sub(met.scopes.len()) {
            Some(free) => self.slot_of(free, slots),
            None => met.scopes.iter().rev().nth(name).copied(),
        }
    }

    // Returns a piece of a value that was met, under so many scopes of the value.
    fn seen(&self, met: &Met, piece: Piece, depth: usize, slots: usize) -> Option<Piece> {
        match piece {
            Piece::Name(x) => match x.checked_sub(depth) {
                Some(name) => match self.called(met, name, slots) {
                    Some(called) => called.checked_add(depth).map(|n| Piece::Name(n)),
                    None => None,
                },
                None => Some(piece),
            },
            _ => Some(piece),
        }
    }

    // Returns the value that was met.
    fn value(
        &self,
        alloc: Global,
        row: &[Piece],
        met: &Met,
        slots: usize,
    ) -> Result<Option<Vec<Piece>>, AllocError> {
        let mut value = Vec::new(alloc);
        let mut depth = 0;
        for k in met.begin..met.end.min(row.len()) {
            match self.seen(met, row[k], depth, slots) {
                Some(piece) => value.push(piece)?,
                None => return Ok(None),
            }
            depth = depth_after(row[k], depth);
        }
        Ok(Some(value))
    }

    // Returns the value of a variable as it was met first.
    fn value_of(
        &self,
        alloc: Global,
        row: &[Piece],
        variable: usize,
        slots: usize,
    ) -> Result<Option<Vec<Piece>>, AllocError> {
        for met in &self.met {
            if met.variable == variable {
                return self.value(alloc, row, met, slots);
            }
        }
        Ok(None)
    }
}

// Walks a pattern and a row side by side.
fn align(alloc: Global, tokens: &[Token], row: &[Piece]) -> Result<Alignment, AllocError> {
    let mut aligned = Alignment {
        at: 0,
        met: Vec::new(alloc),
        known: Vec::new(alloc),
        scopes: Vec::new(alloc),
    };
    for token in tokens {
        match row.get(aligned.at).copied() {
            Some(piece) => aligned.pass(*token, row, piece)?,
            None => break,
        }
    }
    Ok(aligned)
}

/// Returns values for the variables of a pattern of so many slots and variables, if it is to be this term. There are
/// none if a variable was not met.
pub fn guess(
    alloc: Global,
    tokens: &[Token],
    row: &[Piece],
    slots: usize,
    variables: usize,
) -> Result<Option<Vec<Vec<Piece>>>, AllocError> {
    let met = align(alloc, tokens, row)?;
    let mut values = Vec::new(alloc);
    for variable in 0..variables {
        match met.value_of(alloc, row, variable, slots)? {
            Some(value) => values.push(value)?,
            None => return Ok(None),
        }
    }
    Ok(Some(values))
}
