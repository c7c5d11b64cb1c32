//! Terms and patterns without bound names, made of the parts of their texts.
ghost use Rattle.std.specs.Prelude.{◌≡◌, ◌≢◌, ◌+◌, ◌++◌, ◌∷◌, ◌&&◌, ◌<◌, length, ℕ, true, false, List, [], Some, slice_get, map, IfOk, IfSome, IsTrue};
ghost use Rattle.slotted_theory.specs.Nameless.{DTerm};
ghost use Rattle.slotted_check.specs.Lines.{IsTermRow};
ghost use Rattle.slotted_check.specs.Rows.{IsMoved, moved_row};
ghost use Rattle.slotted_check.specs.declared.pieces.Piece.{Piece};
ghost use Rattle.slotted_check.specs.declared.pieces.Piece.TheVariants.{Name};
ghost use Rattle.slotted_certificates.specs.declared.frames.Frame.TheVariants.{Node, Root};
ghost use Rattle.slotted_certificates.specs.declared.tokens.Token.TheVariants.{Leaf, Bracket, Close, Slot, Value};
ghost use Rattle.slotted_certificates.specs.Frames.{Advances, EndsScopes, EndsTerm, IsScope, Passes, frames, scopes_of};
ghost use Rattle.slotted_certificates.specs.Grammar.{begins_bound, binds_in};
ghost use Rattle.slotted_certificates.specs.Meaning.{AreTermRows, IsValueIn, IsInstance};
ghost use Rattle.slotted_certificates.specs.Scopes.{numbering};

use crate::frames::Frame;
use crate::scopes::Scopes;
use crate::tokens::Token;
use slotted_check::pieces::Piece;
use slotted_check::terms::is_term;
use std::alloc::{AllocError, Global};

// Returns one more scope, unless there are too many.
pub(crate) fn deeper(depth: usize) -> Option<usize>
    ensures { IfSome result (λ n. n ≡ depth + 1) }
{
    depth.checked_add(1)
}

// Returns one scope less, if there is one.
pub(crate) fn shallower(depth: usize) -> Option<usize>
    ensures { IfSome result (λ n. depth ≡ n + 1) }
{
    depth.checked_sub(1)
}

// Returns a sum, unless it is too large.
pub(crate) fn sum(a: usize, b: usize) -> Option<usize>
    ensures { IfSome result (λ n. n ≡ a + b) }
{
    a.checked_add(b)
}

// Returns what a name or a place is that stands under so many scopes of a value, where scopes stand around the value.
fn seen_name(name: usize, depth: usize, scopes: &Scopes) -> Option<usize>
    ensures { IfSome result (λ n. IsMoved (numbering scopes.now) depth (Name name) (Name n) depth) }
{
    if name < depth {
        return Some(name);
    }
    match scopes.number(name - depth) {
        Some(number) => sum(depth, number),
        None => None,
    }
}

// The same of a piece. Returns how many scopes of the value are open behind it, too.
fn seen(piece: Piece, depth: usize, scopes: &Scopes) -> Option<(Piece, usize)>
    ensures { IfSome result (λ s. IsMoved (numbering scopes.now) depth piece s.0 s.1) }
{
    match piece {
        Piece::Name(name) => match seen_name(name, depth, scopes) {
            Some(number) => Some((Piece::Name(number), depth)),
            None => None,
        },
        Piece::Scope => match deeper(depth) {
            Some(next) => Some((Piece::Scope, next)),
            None => None,
        },
        Piece::Leave => match shallower(depth) {
            Some(next) => Some((Piece::Leave, next)),
            None => None,
        },
        Piece::Head(operator) => Some((Piece::Head(operator), depth)),
        Piece::Close => Some((Piece::Close, depth)),
    }
}

// Appends a value, as it is seen under scopes. Returns false if a number is too large.
fn push_value(row: &mut Vec<Piece>, scopes: &Scopes, value: &[Piece]) -> Result<bool, AllocError>
    ensures { IfOk result (λ b. IsTrue b → row.new.items ≡ row.old.items ++ moved_row (numbering scopes.now) value.now) }
{
    let mut depth = 0;
    let mut rest = value;
    while !rest.is_empty() {
        match seen(rest[0], depth, scopes) {
            Some((piece, next)) => {
                row.push(piece)?;
                depth = next;
            }
            None => return Ok(false),
        }
        rest = &rest[1..];
    }
    Ok(true)
}

// A row that is being made, and what is open in it.
#[derive(Drop)]
struct Making<'a> {
    // The operators that bind, and the values of variables.
    binders: &'a [usize],
    values: &'a [Vec<Piece>],
    row: Vec<Piece>,
    frames: Vec<Frame>,
    scopes: Scopes,
}

// Returns whether anything is open.
fn is_inside(frames: &Vec<Frame>) -> bool
    ensures yes { IsTrue result → frames.now.items ≢ [] }
    ensures no { result ≡ false → frames.now.items ≡ [] }
{
    !frames.is_empty()
}

// Returns the value of a number.
pub(crate) fn value_at<'a>(values: &'a [Vec<Piece>], number: usize) -> Option<&'a [Piece]>
    ensures { IfSome result (λ p. slice_get (map (λ r. r.items) values.now) number ≡ Some p.now) }
{
    if number < values.len() {
        return Some(&values[number]);
    }
    None
}

// Returns whether an operator binds.
fn is_binder(binders: &[usize], operator: usize) -> bool
    ensures { result ≡ binds_in binders.now operator }
{
    let mut rest = binders;
    while !rest.is_empty() {
        if rest[0] == operator {
            return true;
        }
        rest = &rest[1..];
    }
    false
}

impl<'a> Making<'a> {
    // Returns whether the innermost frame is the scope of a name that is bound in one term with others.
    fn is_also(&self) -> bool {
        match self.frames.last() {
            Some(frame) => match *frame {
                Frame::Also(_) => true,
                _ => false,
            },
            None => false,
        }
    }

    // Ends the scope of a name that is bound in one term with others. Returns false if the innermost frame is none.
    fn end_also(&mut self) -> Result<bool, AllocError>
        requires { self.old.scopes ≡ scopes_of (frames self.old.frames.items) }
        ensures ended { IfOk result (λ b. IsTrue b → EndsScopes (binds_in self.old.binders.now)
            (IsValueIn (map (λ r. r.items) self.old.values.now)) self.old.row.items self.new.row.items self.old.frames.items self.new.frames.items) }
        ensures in_step { IfOk result (λ b. IsTrue b → self.new.scopes ≡ scopes_of (frames self.new.frames.items)) }
        ensures shorter { IfOk result (λ b. IsTrue b → length self.new.frames.items < length self.old.frames.items) }
        ensures binders { self.new.binders.now ≡ self.old.binders.now }
        ensures values { self.new.values.now ≡ self.old.values.now }
    {
        match self.frames.pop() {
            Some(Frame::Also(_)) => {
                self.row.push(Piece::Leave)?;
                Ok(self.scopes.leave().is_some())
            }
            _ => Ok(false),
        }
    }

    // Goes past the end of a term that is bound in by one name at most. Returns false if nothing was open.
    fn end_scope(&mut self) -> Result<bool, AllocError>
        requires { self.old.scopes ≡ scopes_of (frames self.old.frames.items) }
        ensures ended { IfOk result (λ b. IsTrue b → EndsTerm (binds_in self.old.binders.now)
            (IsValueIn (map (λ r. r.items) self.old.values.now)) self.old.row.items self.new.row.items self.old.frames.items self.new.frames.items) }
        ensures in_step { IfOk result (λ b. IsTrue b → self.new.scopes ≡ scopes_of (frames self.new.frames.items)) }
        ensures binders { self.new.binders.now ≡ self.old.binders.now }
        ensures values { self.new.values.now ≡ self.old.values.now }
    {
        match self.frames.pop() {
            Some(Frame::Root) => Ok(self.frames.is_empty()),
            Some(Frame::Node(operator)) => {
                self.frames.push(Frame::Node(operator))?;
                Ok(true)
            }
            Some(Frame::Scope(_, operator)) => {
                self.frames.push(Frame::Node(operator))?;
                self.row.push(Piece::Leave)?;
                Ok(self.scopes.leave().is_some())
            }
            _ => Ok(false),
        }
    }

    // Goes past the end of a term. Returns false if nothing was open.
    fn end_term(&mut self) -> Result<bool, AllocError>
        requires { self.old.scopes ≡ scopes_of (frames self.old.frames.items) }
        ensures ended { IfOk result (λ b. IsTrue b → EndsTerm (binds_in self.old.binders.now)
            (IsValueIn (map (λ r. r.items) self.old.values.now)) self.old.row.items self.new.row.items self.old.frames.items self.new.frames.items) }
        ensures in_step { IfOk result (λ b. IsTrue b → self.new.scopes ≡ scopes_of (frames self.new.frames.items)) }
        ensures binders { self.new.binders.now ≡ self.old.binders.now }
        ensures values { self.new.values.now ≡ self.old.values.now }
    {
        while self.is_also() {
            if !self.end_also()? {
                return Ok(false);
            }
        }
        self.end_scope()
    }

    // Goes past an operator without arguments.
    fn leaf(&mut self, operator: usize, next: bool) -> Result<bool, AllocError>
        requires { self.old.scopes ≡ scopes_of (frames self.old.frames.items) }
        ensures passed { IfOk result (λ b. IsTrue b → Passes (binds_in self.old.binders.now)
            (IsValueIn (map (λ r. r.items) self.old.values.now)) self.old.row.items self.new.row.items
            self.old.frames.items self.new.frames.items (Leaf operator) next) }
        ensures in_step { IfOk result (λ b. IsTrue b → self.new.scopes ≡ scopes_of (frames self.new.frames.items)) }
        ensures binders { self.new.binders.now ≡ self.old.binders.now }
        ensures values { self.new.values.now ≡ self.old.values.now }
    {
        if !is_inside(&self.frames) {
            return Ok(false);
        }
        self.row.push(Piece::Head(operator))?;
        self.row.push(Piece::Close)?;
        self.end_term()
    }

    // Goes past an opening bracket and its operator.
    fn bracket(&mut self, operator: usize, next: bool) -> Result<bool, AllocError>
        requires { self.old.scopes ≡ scopes_of (frames self.old.frames.items) }
        ensures passed { IfOk result (λ b. IsTrue b → Passes (binds_in self.old.binders.now)
            (IsValueIn (map (λ r. r.items) self.old.values.now)) self.old.row.items self.new.row.items
            self.old.frames.items self.new.frames.items (Bracket operator) next) }
        ensures in_step { IfOk result (λ b. IsTrue b → self.new.scopes ≡ scopes_of (frames self.new.frames.items)) }
        ensures binders { self.new.binders.now ≡ self.old.binders.now }
        ensures values { self.new.values.now ≡ self.old.values.now }
    {
        if !is_inside(&self.frames) {
            return Ok(false);
        }
        self.row.push(Piece::Head(operator))?;
        self.frames.push(Frame::Node(operator))?;
        Ok(true)
    }

    // Goes past a closing bracket.
    fn close(&mut self, next: bool) -> Result<bool, AllocError>
        requires { self.old.scopes ≡ scopes_of (frames self.old.frames.items) }
        ensures passed { IfOk result (λ b. IsTrue b → Passes (binds_in self.old.binders.now)
            (IsValueIn (map (λ r. r.items) self.old.values.now)) self.old.row.items self.new.row.items
            self.old.frames.items self.new.frames.items Close next) }
        ensures in_step { IfOk result (λ b. IsTrue b → self.new.scopes ≡ scopes_of (frames self.new.frames.items)) }
        ensures binders { self.new.binders.now ≡ self.old.binders.now }
        ensures values { self.new.values.now ≡ self.old.values.now }
    {
        match self.frames.pop() {
            Some(Frame::Node(_)) => {
                self.row.push(Piece::Close)?;
                self.end_term()
            }
            _ => Ok(false),
        }
    }
    // Goes past what a value is put for.
    fn value(&mut self, number: usize, next: bool) -> Result<bool, AllocError>
        requires in_step { self.old.scopes ≡ scopes_of (frames self.old.frames.items) }
        requires terms { AreTermRows (map (λ r. r.items) self.old.values.now) }
        ensures passed { IfOk result (λ b. IsTrue b → Passes (binds_in self.old.binders.now)
            (IsValueIn (map (λ r. r.items) self.old.values.now)) self.old.row.items self.new.row.items
            self.old.frames.items self.new.frames.items (Value number) next) }
        ensures in_step { IfOk result (λ b. IsTrue b → self.new.scopes ≡ scopes_of (frames self.new.frames.items)) }
        ensures binders { self.new.binders.now ≡ self.old.binders.now }
        ensures values { self.new.values.now ≡ self.old.values.now }
    {
        if !is_inside(&self.frames) {
            return Ok(false);
        }
        match value_at(self.values, number) {
            Some(value) => {
                if !push_value(&mut self.row, &self.scopes, value)? {
                    return Ok(false);
                }
                self.end_term()
            }
            None => Ok(false),
        }
    }

    // Goes past a slot that does not bind, among the arguments of an operator.
    fn name(&mut self, slot: usize, operator: usize, next: bool) -> Result<bool, AllocError>
        requires in_step { self.old.scopes ≡ scopes_of (frames self.old.frames.items) }
        requires free { (binds_in self.old.binders.now operator && next) ≡ false }
        ensures passed { IfOk result (λ b. IsTrue b → Passes (binds_in self.old.binders.now)
            (IsValueIn (map (λ r. r.items) self.old.values.now)) self.old.row.items self.new.row.items
            (self.old.frames.items ++ Node operator ∷ []) self.new.frames.items (Slot slot) next) }
        ensures in_step { IfOk result (λ b. IsTrue b → self.new.scopes ≡ scopes_of (frames self.new.frames.items)) }
        ensures binders { self.new.binders.now ≡ self.old.binders.now }
        ensures values { self.new.values.now ≡ self.old.values.now }
    {
        self.frames.push(Frame::Node(operator))?;
        match self.scopes.number(slot) {
            Some(number) => {
                self.row.push(Piece::Name(number))?;
                Ok(true)
            }
            None => Ok(false),
        }
    }

    // Goes past a slot that binds, among the arguments of an operator.
    fn bind(&mut self, slot: usize, operator: usize, next: bool) -> Result<bool, AllocError>
        requires in_step { self.old.scopes ≡ scopes_of (frames self.old.frames.items) }
        requires binds { binds_in self.old.binders.now operator ≡ true }
        ensures passed { IfOk result (λ b. IsTrue b → Passes (binds_in self.old.binders.now)
            (IsValueIn (map (λ r. r.items) self.old.values.now)) self.old.row.items self.new.row.items
            (self.old.frames.items ++ Node operator ∷ []) self.new.frames.items (Slot slot) next) }
        ensures in_step { IfOk result (λ b. IsTrue b → self.new.scopes ≡ scopes_of (frames self.new.frames.items)) }
        ensures binders { self.new.binders.now ≡ self.old.binders.now }
        ensures values { self.new.values.now ≡ self.old.values.now }
    {
        self.frames.push(Frame::Scope(slot, operator))?;
        self.scopes.enter(slot)?;
        self.row.push(Piece::Scope)?;
        Ok(true)
    }

    // Goes past a slot that binds in one term with the slot before.
    fn bind_also(&mut self, slot: usize, before: Frame, next: bool) -> Result<bool, AllocError>
        requires in_step { scopes_of (frames (self.old.frames.items ++ before ∷ [])) ≡ self.old.scopes }
        requires scope { IsScope before }
        ensures passed { IfOk result (λ b. IsTrue b → Passes (binds_in self.old.binders.now)
            (IsValueIn (map (λ r. r.items) self.old.values.now)) self.old.row.items self.new.row.items
            (self.old.frames.items ++ before ∷ []) self.new.frames.items (Slot slot) next) }
        ensures in_step { IfOk result (λ b. IsTrue b → self.new.scopes ≡ scopes_of (frames self.new.frames.items)) }
        ensures binders { self.new.binders.now ≡ self.old.binders.now }
        ensures values { self.new.values.now ≡ self.old.values.now }
    {
        self.frames.push(before)?;
        self.frames.push(Frame::Also(slot))?;
        self.scopes.enter(slot)?;
        self.row.push(Piece::Scope)?;
        Ok(true)
    }

    // Goes past a slot.
    fn slot(&mut self, slot: usize, next: bool) -> Result<bool, AllocError>
        requires in_step { self.old.scopes ≡ scopes_of (frames self.old.frames.items) }
        ensures passed { IfOk result (λ b. IsTrue b → Passes (binds_in self.old.binders.now)
            (IsValueIn (map (λ r. r.items) self.old.values.now)) self.old.row.items self.new.row.items
            self.old.frames.items self.new.frames.items (Slot slot) next) }
        ensures in_step { IfOk result (λ b. IsTrue b → self.new.scopes ≡ scopes_of (frames self.new.frames.items)) }
        ensures binders { self.new.binders.now ≡ self.old.binders.now }
        ensures values { self.new.values.now ≡ self.old.values.now }
    {
        match self.frames.pop() {
            Some(Frame::Node(operator)) => {
                if is_binder(self.binders, operator) && next {
                    return self.bind(slot, operator, next);
                }
                self.name(slot, operator, next)
            }
            Some(Frame::Scope(name, operator)) => {
                self.bind_also(slot, Frame::Scope(name, operator), next)
            }
            Some(Frame::Also(name)) => self.bind_also(slot, Frame::Also(name), next),
            _ => Ok(false),
        }
    }

    // Goes past a part of the text. Returns false if the part cannot stand there, or a number is too large.
    fn pass(&mut self, token: Token, next: bool) -> Result<bool, AllocError>
        requires in_step { self.old.scopes ≡ scopes_of (frames self.old.frames.items) }
        requires terms { AreTermRows (map (λ r. r.items) self.old.values.now) }
        ensures passed { IfOk result (λ b. IsTrue b → Passes (binds_in self.old.binders.now)
            (IsValueIn (map (λ r. r.items) self.old.values.now)) self.old.row.items self.new.row.items
            self.old.frames.items self.new.frames.items token next) }
        ensures in_step { IfOk result (λ b. IsTrue b → self.new.scopes ≡ scopes_of (frames self.new.frames.items)) }
        ensures binders { self.new.binders.now ≡ self.old.binders.now }
        ensures values { self.new.values.now ≡ self.old.values.now }
    {
        match token {
            Token::Leaf(operator) => self.leaf(operator, next),
            Token::Bracket(operator) => self.bracket(operator, next),
            Token::Close => self.close(next),
            Token::Slot(slot) => self.slot(slot, next),
            Token::Value(number) => self.value(number, next),
        }
    }
    // Goes past the first part of a text. Returns what stands behind the part.
    fn advance<'b>(&mut self, rest: &'b [Token]) -> Result<Option<&'b [Token]>, AllocError>
        requires in_step { self.old.scopes ≡ scopes_of (frames self.old.frames.items) }
        requires terms { AreTermRows (map (λ r. r.items) self.old.values.now) }
        ensures advanced { IfOk result (λ o. IfSome o (λ behind. Advances (binds_in self.old.binders.now)
            (IsValueIn (map (λ r. r.items) self.old.values.now)) self.old.row.items self.new.row.items
            self.old.frames.items self.new.frames.items rest.now behind.now)) }
        ensures in_step { IfOk result (λ o. IfSome o (λ behind. self.new.scopes ≡ scopes_of (frames self.new.frames.items))) }
        ensures binders { self.new.binders.now ≡ self.old.binders.now }
        ensures values { self.new.values.now ≡ self.old.values.now }
    {
        match first_of(rest) {
            Some((token, behind)) => {
                if self.pass(token, begins_bound(behind))? {
                    return Ok(Some(behind));
                }
                Ok(None)
            }
            None => Ok(None),
        }
    }
}

// Returns whether nothing is left.
pub(crate) fn is_done<T>(items: &[T]) -> bool
    ensures { IsTrue result → items.now ≡ [] }
{
    items.is_empty()
}

// Returns the first part of a text, and what stands behind it.
pub(crate) fn first_of<'a>(tokens: &'a [Token]) -> Option<(Token, &'a [Token])>
    ensures { IfSome result (λ p. tokens.now ≡ p.0 ∷ p.1.now) }
{
    if tokens.is_empty() {
        return None;
    }
    Some((tokens[0], &tokens[1..]))
}

// Returns the rows behind the first one, if that is the row of a term.
fn behind_term<'a>(
    alloc: Global,
    values: &'a [Vec<Piece>],
) -> Result<Option<&'a [Vec<Piece>]>, AllocError>
    ensures passed { IfOk result (λ o. IfSome o (λ rest. AreTermRows (map (λ r. r.items) rest.now)
        → AreTermRows (map (λ r. r.items) values.now))) }
    ensures shorter { IfOk result (λ o. IfSome o (λ rest. length rest.now < length values.now)) }
{
    if values.is_empty() || !is_term(alloc, &values[0])? {
        return Ok(None);
    }
    Ok(Some(&values[1..]))
}

// Returns whether each row is that of a term.
pub(crate) fn are_terms(alloc: Global, values: &[Vec<Piece>]) -> Result<bool, AllocError>
    ensures { IfOk result (λ b. IsTrue b → AreTermRows (map (λ r. r.items) values.now)) }
{
    let mut rest = values;
    while !rest.is_empty() {
        match behind_term(alloc, rest)? {
            Some(behind) => rest = behind,
            None => return Ok(false),
        }
    }
    Ok(true)
}

// Returns whether parts of a text, after slots or none, begin with a term.
fn begins_bound(tokens: &[Token]) -> bool
    ensures { result ≡ begins_bound tokens.now }
{
    let mut rest = tokens;
    while !rest.is_empty() {
        match rest[0] {
            Token::Slot(_) => rest = &rest[1..],
            Token::Close => return false,
            _ => return true,
        }
    }
    false
}

// Returns what has made nothing yet.
fn begin<'a>(
    alloc: Global,
    binders: &'a [usize],
    values: &'a [Vec<Piece>],
) -> Result<Making<'a>, AllocError>
    ensures begun { IfOk result (λ m. (m.row.items ≡ []) × (m.frames.items ≡ Root ∷ []) × (m.scopes ≡ [])) }
    ensures binders { IfOk result (λ m. m.binders.now ≡ binders.now) }
    ensures values { IfOk result (λ m. m.values.now ≡ values.now) }
{
    let mut frames = Vec::new(alloc);
    frames.push(Frame::Root)?;
    let row = Vec::new(alloc);
    let scopes = Scopes::new(alloc);
    Ok(Making {
        binders,
        values,
        row,
        frames,
        scopes,
    })
}

/// Returns the term that parts of a text are, in a row without bound names, where values stand in the places of its
/// variables. There is none if the parts are those of no term, a value is that of none, or a number is too large.
pub fn instance(
    alloc: Global,
    binders: &[usize],
    tokens: &[Token],
    values: &[Vec<Piece>],
) -> Result<Option<Vec<Piece>>, AllocError>
    ensures { IfOk result (λ o. IfSome o
        (λ r. IsInstance binders.now (map (λ r. r.items) values.now) tokens.now r.items)) }
{
    if !are_terms(alloc, values)? {
        return Ok(None);
    }
    let mut making = begin(alloc, binders, values)?;
    let mut rest = tokens;
    while !is_done(rest) {
        match making.advance(rest)? {
            Some(behind) => rest = behind,
            None => return Ok(None),
        }
    }
    if is_inside(&making.frames) {
        return Ok(None);
    }
    Ok(Some(making.row))
}
