//! The steps of a proof, each over equations that were checked before.
ghost use Rattle.std.specs.Prelude.{◌≡◌, [], Contains, IfOk, IfSome, IsTrue};
ghost use Rattle.slotted_check.specs.Parts.{PassesPart, SaysLine};
ghost use Rattle.slotted_check.specs.Rows.{IsCongruent, Joins, Passes, PassesPiece, SaysAs, Walks};

use crate::pieces::{Piece, are_same, becomes, meet};
use crate::renaming::Renaming;
use std::alloc::{AllocError, Global};

/// Two terms. The names of the two are the same names.
#[derive(Drop)]
pub struct Equation {
    pub left: Vec<Piece>,
    pub right: Vec<Piece>,
}

/// Returns whether an equation is `left = right` up to an injective renaming of its free names.
pub fn says(
    alloc: Global,
    known: &Equation,
    left: &[Piece],
    right: &[Piece],
) -> Result<bool, AllocError>
    ensures { IfOk result (λ b. IsTrue b → SaysAs known.now.left.items known.now.right.items left.now right.now) }
{
    let mut names = Renaming::new(alloc);
    if !becomes(&known.left, left, &mut names)? {
        return Ok(false);
    }
    let yes = becomes(&known.right, right, &mut names)?;
    // This call is there for its clause: the map is injective.
    let _ = names.len();
    Ok(yes)
}

/// Returns whether both sides of an equation are one term.
pub fn is_reflexive(goal: &Equation) -> bool
    ensures { IsTrue result → goal.now.left.items ≡ goal.now.right.items }
{
    are_same(&goal.left, &goal.right)
}

/// Returns whether an equation is another one turned round.
pub fn is_symmetric(alloc: Global, goal: &Equation, part: &Equation) -> Result<bool, AllocError>
    ensures { IfOk result (λ b. IsTrue b
        → SaysAs part.now.left.items part.now.right.items goal.now.right.items goal.now.left.items) }
{
    says(alloc, part, &goal.right, &goal.left)
}

/// Returns whether an equation follows from two others by some middle term.
pub fn is_transitive(
    alloc: Global,
    goal: &Equation,
    first: &Equation,
    second: &Equation,
) -> Result<bool, AllocError>
    ensures { IfOk result (λ b. IsTrue b → Joins goal.now.left.items goal.now.right.items
        first.now.left.items first.now.right.items second.now.left.items second.now.right.items) }
{
    let mut left = Renaming::new(alloc);
    let mut right = Renaming::new(alloc);
    if !becomes(&first.left, &goal.left, &mut left)? {
        return Ok(false);
    }
    if !becomes(&second.right, &goal.right, &mut right)? {
        return Ok(false);
    }
    let fresh = left.above().max(right.above());
    let yes = meet(&first.right, &second.left, &mut left, &mut right, fresh)?;
    // These calls are there for their clause: the maps are injective.
    let _ = left.len();
    let _ = right.len();
    Ok(yes)
}

// Returns the line with a number, if there is one.
pub(crate) fn line_at<'a>(lines: &'a [Equation], number: usize) -> Option<&'a Equation>
    ensures { IfSome result (λ e. Contains lines.now e.now) }
{
    if number < lines.len() {
        return Some(&lines[number]);
    }
    None
}

// Goes past the sides of a line, with which two rows have to begin under one renaming. Returns what is left of the rows.
fn pass_line<'a>(
    alloc: Global,
    line: &Equation,
    left: &'a [Piece],
    right: &'a [Piece],
) -> Result<Option<(&'a [Piece], &'a [Piece])>, AllocError>
    ensures { IfOk result (λ o. IfSome o (λ p. PassesPart line.now left.now right.now p.0.now p.1.now)) }
{
    let (one, two) = (line.left.len(), line.right.len());
    if one == 0 || one > left.len() || two > right.len() {
        return Ok(None);
    }
    let (first, left_rest) = left.split_at(one);
    let (second, right_rest) = right.split_at(two);
    if says(alloc, line, first, second)? {
        return Ok(Some((left_rest, right_rest)));
    }
    Ok(None)
}

// Goes past the same piece in front of two rows.
fn pass_piece<'a>(left: &'a [Piece], right: &'a [Piece]) -> Option<(&'a [Piece], &'a [Piece])>
    ensures { IfSome result (λ p. PassesPiece left.now right.now p.0.now p.1.now) }
{
    if left.is_empty() || right.is_empty() || left[0] != right[0] {
        return None;
    }
    Some((&left[1..], &right[1..]))
}

// Returns whether a piece begins a node.
fn is_head(piece: Piece) -> bool {
    match piece {
        Piece::Head(_) => true,
        _ => false,
    }
}

// Returns whether two rows have ended.
fn have_ended(left: &[Piece], right: &[Piece]) -> bool
    ensures { IsTrue result → (left.now ≡ []) × (right.now ≡ []) }
{
    left.is_empty() && right.is_empty()
}

// Goes past what is next in two rows: a line, if a node begins, and else one piece. Returns what is left of the rows.
fn pass<'a>(
    alloc: Global,
    left: &'a [Piece],
    right: &'a [Piece],
    lines: &[Equation],
    parts: &[usize],
) -> Result<Option<(&'a [Piece], &'a [Piece])>, AllocError>
    ensures { IfOk result (λ o. IfSome o (λ p. Passes (SaysLine lines.now) left.now right.now p.0.now p.1.now)) }
{
    if left.is_empty() || !is_head(left[0]) {
        return Ok(pass_piece(left, right));
    }
    if parts.is_empty() {
        return Ok(None);
    }
    match line_at(lines, parts[0]) {
        Some(line) => pass_line(alloc, line, left, right),
        None => Ok(None),
    }
}

// Returns the parts that are left behind what is next in a row.
fn parts_behind<'a>(left: &[Piece], parts: &'a [usize]) -> &'a [usize] {
    if left.is_empty() || !is_head(left[0]) || parts.is_empty() {
        return parts;
    }
    &parts[1..]
}

// Returns whether two rows are the same but for parts, which are lines in turn.
fn walk(
    alloc: Global,
    one: &[Piece],
    two: &[Piece],
    lines: &[Equation],
    parts: &[usize],
) -> Result<bool, AllocError>
    ensures { IfOk result (λ b. IsTrue b → Walks (SaysLine lines.now) one.now two.now) }
{
    let mut left = one;
    let mut right = two;
    let mut rest = parts;
    while !left.is_empty() {
        match pass(alloc, left, right, lines, rest)? {
            Some((l, r)) => {
                rest = parts_behind(left, rest);
                left = l;
                right = r;
            }
            None => return Ok(false),
        }
    }
    if !rest.is_empty() {
        return Ok(false);
    }
    Ok(have_ended(left, right))
}

/// Returns whether both sides of an equation are one operator over the same names and scopes, and over the sides of
/// the parts in turn. The parts are numbers of `lines`.
pub fn is_congruent(
    alloc: Global,
    goal: &Equation,
    lines: &[Equation],
    parts: &[usize],
) -> Result<bool, AllocError>
    ensures { IfOk result (λ b. IsTrue b → IsCongruent (SaysLine lines.now) goal.now.left.items goal.now.right.items) }
{
    let left = goal.left.as_slice();
    let right = goal.right.as_slice();
    if left.is_empty() || right.is_empty() {
        return Ok(false);
    }
    match (left[0], right[0]) {
        (Piece::Head(a), Piece::Head(b)) => {
            if a != b {
                return Ok(false);
            }
            walk(alloc, &left[1..], &right[1..], lines, parts)
        }
        _ => Ok(false),
    }
}
