//! Which rows are those of terms.
ghost use Rattle.std.specs.Prelude.{◌≡◌, ◌≢◌, ◌∷◌, ◌++◌, List, [], IfOk, IfSome, IsTrue};
ghost use Rattle.slotted_check.specs.declared.pieces.Piece.{Piece};
ghost use Rattle.slotted_check.specs.Lines.{IsTermRow};
ghost use Rattle.slotted_check.specs.Openings.{BeginsNode, Closes, ends};
ghost use Rattle.slotted_check.specs.Rows.{closing};

use crate::pieces::Piece;
use std::alloc::{AllocError, Global};

// Returns whether anything is open.
fn is_inside(open: &Vec<bool>) -> bool
    ensures { IsTrue result → open.now.items ≢ [] }
{
    !open.is_empty()
}

// Begins a node or a scope inside what is open. Returns false if nothing is.
fn begin(open: &mut Vec<bool>, is_scope: bool) -> Result<bool, AllocError>
    ensures { IfOk result (λ b. IsTrue b → (open.old.items ≢ []) × (open.new.items ≡ open.old.items ++ is_scope ∷ [])) }
{
    if open.is_empty() {
        return Ok(false);
    }
    open.push(is_scope)?;
    Ok(true)
}

// Ends what was opened last. Returns whether that was a node or a scope, as asked.
fn end(open: &mut Vec<bool>, is_scope: bool) -> bool
    ensures { IsTrue result → open.old.items ≡ open.new.items ++ is_scope ∷ [] }
{
    match open.pop() {
        Some(top) => top == is_scope,
        None => false,
    }
}

// Goes past a piece: `open` has what is open, true for a scope and false for a node. Returns false if the piece cannot
// stand there.
fn pass(open: &mut Vec<bool>, piece: Piece) -> Result<bool, AllocError>
    ensures { IfOk result (λ b. IsTrue b → (ps : List Piece) → Closes (ends open.new.items) ps → Closes (ends open.old.items) (piece ∷ ps)) }
{
    match piece {
        Piece::Name(_) => Ok(is_inside(open)),
        Piece::Head(_) => begin(open, false),
        Piece::Scope => begin(open, true),
        Piece::Leave => Ok(end(open, true)),
        Piece::Close => Ok(end(open, false)),
    }
}

// Returns whether a row closes a node that was begun.
fn closes_node(alloc: Global, row: &[Piece]) -> Result<bool, AllocError>
    ensures { IfOk result (λ b. IsTrue b → Closes (closing ∷ []) row.now) }
{
    let mut open = Vec::new(alloc);
    open.push(false)?;
    let mut rest = row;
    while !rest.is_empty() {
        if !pass(&mut open, rest[0])? {
            return Ok(false);
        }
        rest = &rest[1..];
    }
    Ok(open.is_empty())
}

// Returns what stands behind the head that a row begins with.
fn behind_head<'a>(row: &'a [Piece]) -> Option<&'a [Piece]>
    ensures { IfSome result (λ rest. BeginsNode row.now rest.now) }
{
    if row.is_empty() {
        return None;
    }
    match row[0] {
        Piece::Head(_) => Some(&row[1..]),
        _ => None,
    }
}

/// Returns whether a row is that of a term.
pub fn is_term(alloc: Global, row: &[Piece]) -> Result<bool, AllocError>
    ensures { IfOk result (λ b. IsTrue b → IsTermRow row.now) }
{
    match behind_head(row) {
        Some(rest) => closes_node(alloc, rest),
        None => Ok(false),
    }
}
