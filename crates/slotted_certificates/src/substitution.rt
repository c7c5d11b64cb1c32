//! Substitution in terms without bound names. Nothing is captured, since a binder has no name.
ghost use Rattle.std.specs.Prelude.{◌≡◌, ◌<◌, ◌+◌, ◌++◌, ◌∷◌, ℕ, List, [], Some, None, length, false, IfOk, IfSome, IsTrue};
ghost use Rattle.slotted_theory.specs.Nameless.{DArgs, DTerm};
ghost use Rattle.slotted_check.specs.declared.pieces.Piece.{Piece};
ghost use Rattle.slotted_check.specs.declared.pieces.Piece.TheVariants.{Name};
ghost use Rattle.slotted_check.specs.Rows.{ArePlain, IsMoved, IsPlain, closing, lifts, moved_row, row, row_args};
ghost use Rattle.slotted_certificates.specs.Comparing.{ComparesAs};
ghost use Rattle.slotted_certificates.specs.Fronts.{FrontIs};
ghost use Rattle.slotted_certificates.specs.Turning.{AreTurned, IsSubstitutedRow, KeepsFirst, StepsTo, depth_behind};

use crate::instances::{deeper, is_done, shallower, sum};
use slotted_check::pieces::Piece;
use std::alloc::{AllocError, Global};

// Returns what a name or a place is that stands under so many scopes of a term, under `by` more scopes around the term.
fn shifted_name(name: usize, depth: usize, by: usize) -> Option<usize>
    ensures { IfSome result (λ n. IsMoved (λ n. n + by) depth (Name name) (Name n) depth) }
{
    if name < depth {
        return Some(name);
    }
    match sum(name - depth, by) {
        Some(number) => sum(depth, number),
        None => None,
    }
}

// The same of a piece. Returns how many scopes of the term are open behind it, too.
fn shifted(piece: Piece, depth: usize, by: usize) -> Option<(Piece, usize)>
    ensures { IfSome result (λ s. IsMoved (λ n. n + by) depth piece s.0 s.1) }
{
    match piece {
        Piece::Name(name) => match shifted_name(name, depth, by) {
            Some(number) => Some((Piece::Name(number), depth)),
            None => None,
        },
        Piece::Scope => match deeper(depth) {
            Some(next) => Some((Piece::Scope, next)),
            None => None,
        },
        Piece::Leave => match shallower(depth) {
            Some(next) => Some((Piece::Leave, next)),
            None => None,
        },
        Piece::Head(operator) => Some((Piece::Head(operator), depth)),
        Piece::Close => Some((Piece::Close, depth)),
    }
}

// Appends the first piece of a row, as it is seen under `by` scopes around the term. Returns how many scopes of the term
// are open behind the piece, and what stands there.
fn push_first<'a>(
    out: &mut Vec<Piece>,
    depth: usize,
    row: &'a [Piece],
    by: usize,
) -> Result<Option<(usize, &'a [Piece])>, AllocError>
    ensures pushed { IfOk result (λ o. IfSome o (λ s. out.new.items ++ moved_row (lifts s.0 (λ n. n + by)) s.1.now
        ≡ out.old.items ++ moved_row (lifts depth (λ n. n + by)) row.now)) }
    ensures shorter { IfOk result (λ o. IfSome o (λ s. length s.1.now < length row.now)) }
{
    if row.is_empty() {
        return Ok(None);
    }
    match shifted(row[0], depth, by) {
        Some((piece, next)) => {
            out.push(piece)?;
            Ok(Some((next, &row[1..])))
        }
        None => Ok(None),
    }
}

// Appends a term, as it is seen under `by` scopes. Returns false if a number is too large.
fn push_shifted(out: &mut Vec<Piece>, term: &[Piece], by: usize) -> Result<bool, AllocError>
    ensures { IfOk result (λ b. IsTrue b → out.new.items ≡ out.old.items ++ moved_row (λ n. n + by) term.now) }
{
    let mut depth = 0;
    let mut rest = term;
    while !rest.is_empty() {
        match push_first(out, depth, rest, by)? {
            Some((next, behind)) => {
                depth = next;
                rest = behind;
            }
            None => return Ok(false),
        }
    }
    Ok(true)
}

// Returns whether two pieces are one.
fn is_same(one: Piece, two: Piece) -> bool
    ensures yes { IsTrue result → one ≡ two }
    ensures no { result ≡ false → ¬ (one ≡ two) }
{
    one == two
}

// Returns the first piece of a row, and what stands behind it.
fn first_piece<'a>(row: &'a [Piece]) -> Option<(Piece, &'a [Piece])>
    ensures some { IfSome result (λ p. row.now ≡ p.0 ∷ p.1.now) }
    ensures none { (result ≡ None) → row.now ≡ [] }
{
    if row.is_empty() {
        return None;
    }
    Some((row[0], &row[1..]))
}

// What comparing the first piece of a row with that of a term comes to.
#[derive(Drop)]
pub(crate) enum Comparison<'a> {
    // The pieces agree. What is left of the row is here, and how many scopes of the term are open.
    Agrees(&'a [Piece], usize),
    Differs,
    TooLarge,
}

// Compares a piece of a term, as it is seen under `by` scopes, with the first one of a row.
fn compare<'a>(row: &'a [Piece], piece: Piece, depth: usize, by: usize) -> Comparison<'a>
    ensures { ComparesAs (λ n. n + by) depth row.now piece result }
{
    match shifted(piece, depth, by) {
        Some((seen, next)) => match first_piece(row) {
            Some((first, behind)) => {
                if is_same(first, seen) {
                    return Comparison::Agrees(behind, next);
                }
                Comparison::Differs
            }
            None => Comparison::Differs,
        },
        None => Comparison::TooLarge,
    }
}

// What stands behind a term in a row, if the row begins with it.
#[derive(Drop)]
pub(crate) enum Front<'a> {
    // The row begins with the term.
    Term(&'a [Piece]),
    Other,
    TooLarge,
}

// Looks whether a row begins with a term, as that is seen under `by` scopes.
fn front_of<'a>(row: &'a [Piece], term: &[Piece], by: usize) -> Front<'a>
    ensures { FrontIs (λ n. n + by) row.now term.now result }
{
    let mut depth = 0;
    let mut left = row;
    let mut rest = term;
    while let Some((piece, behind)) = first_piece(rest) {
        match compare(left, piece, depth, by) {
            Comparison::Agrees(later, next) => {
                left = later;
                depth = next;
                rest = behind;
            }
            Comparison::Differs => return Front::Other,
            Comparison::TooLarge => return Front::TooLarge,
        }
    }
    Front::Term(left)
}

// Returns how many scopes are open behind a piece. There is no answer if there are too many.
fn depth_behind(piece: Piece, depth: usize) -> Option<usize>
    ensures { IfSome result (λ n. n ≡ depth_behind piece depth) }
{
    match piece {
        Piece::Scope => depth.checked_add(1),
        Piece::Leave => Some(depth.saturating_sub(1)),
        Piece::Head(_) => Some(depth),
        Piece::Name(_) => Some(depth),
        Piece::Close => Some(depth),
    }
}

// Goes past a piece of a row that begins no part. Returns how many scopes are open behind the piece, and what stands
// there.
fn keep<'a>(
    out: &mut Vec<Piece>,
    row: &'a [Piece],
    depth: usize,
) -> Result<Option<(usize, &'a [Piece])>, AllocError>
    ensures { IfOk result (λ o. IfSome o
        (λ s. KeepsFirst row.now s.1.now depth s.0 out.old.items out.new.items)) }
{
    match first_piece(row) {
        Some((piece, behind)) => match depth_behind(piece, depth) {
            Some(next) => {
                out.push(piece)?;
                Ok(Some((next, behind)))
            }
            None => Ok(None),
        },
        None => Ok(None),
    }
}

// Goes past a part of a row: what is `part` there becomes `value`. Returns how many scopes are open behind it, and what
// stands there. There is nothing if a number is too large.
fn turn<'a>(
    out: &mut Vec<Piece>,
    row: &'a [Piece],
    depth: usize,
    part: &[Piece],
    value: &[Piece],
) -> Result<Option<(usize, &'a [Piece])>, AllocError>
    ensures turns { IfOk result (λ o. IfSome o
        (λ s. StepsTo part.now value.now depth row.now s.0 s.1.now out.old.items out.new.items)) }
{
    match front_of(row, part, depth) {
        Front::Term(behind) => {
            if !push_shifted(out, value, depth)? {
                return Ok(None);
            }
            Ok(Some((depth, behind)))
        }
        Front::Other => keep(out, row, depth),
        Front::TooLarge => Ok(None),
    }
}

// Goes past the arguments of a row. What is `part` there becomes `value`. Returns false if a number is too large.
fn turn_all(
    out: &mut Vec<Piece>,
    pieces: &[Piece],
    part: &[Piece],
    value: &[Piece],
) -> Result<bool, AllocError>
    ensures { IfOk result (λ b. IsTrue b → (x t : DTerm) (a : DArgs) → IsPlain x → IsPlain t → ArePlain a
        → part.now ≡ row x → value.now ≡ row t → pieces.now ≡ row_args closing a
        → AreTurned x t a out.old.items out.new.items) }
{
    let mut depth = 0;
    let mut rest = pieces;
    for _ in 0..pieces.len() {
        if is_done(rest) {
            return Ok(true);
        }
        match turn(out, rest, depth, part, value)? {
            Some((next, behind)) => {
                depth = next;
                rest = behind;
            }
            None => return Ok(false),
        }
    }
    Ok(is_done(rest))
}

// Returns whether two rows are one.
fn are_one(one: &[Piece], two: &[Piece]) -> bool
    ensures yes { IsTrue result → one.now ≡ two.now }
    ensures no { result ≡ false → ¬ (one.now ≡ two.now) }
{
    let mut left = one;
    let mut right = two;
    while let Some((piece, behind)) = first_piece(left) {
        match first_piece(right) {
            Some((other, later)) => {
                if !is_same(piece, other) {
                    return false;
                }
                left = behind;
                right = later;
            }
            None => return false,
        }
    }
    has_ended(right)
}

// Returns whether no piece is left.
fn has_ended(row: &[Piece]) -> bool
    ensures yes { IsTrue result → row.now ≡ [] }
    ensures no { result ≡ false → ¬ (row.now ≡ []) }
{
    row.is_empty()
}

// Returns `body[part := value]`: each topmost part that is `part`, as it is seen from where it stands, becomes `value`.
// There is none if a number is too large.
pub(crate) fn substituted(
    alloc: Global,
    body: &[Piece],
    part: &[Piece],
    value: &[Piece],
) -> Result<Option<Vec<Piece>>, AllocError>
    ensures { IfOk result (λ o. IfSome o (λ r. (x t b : DTerm) → IsPlain x → IsPlain t → IsPlain b
        → part.now ≡ row x → value.now ≡ row t → body.now ≡ row b → IsSubstitutedRow x t b r.items)) }
{
    let mut made = Vec::new(alloc);
    if are_one(body, part) {
        made.extend_from_slice(value)?;
        return Ok(Some(made));
    }
    match first_piece(body) {
        Some((head, behind)) => {
            made.push(head)?;
            if !turn_all(&mut made, behind, part, value)? {
                return Ok(None);
            }
            Ok(Some(made))
        }
        None => Ok(None),
    }
}
