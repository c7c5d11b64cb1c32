//! Terms without bound names, written in a row of pieces.
ghost use Rattle.std.specs.Prelude.{◌≡◌, ◌+◌, IfOk, IfSome, IsTrue};
ghost use Rattle.slotted_check.specs.Moves.{MeetAtName, MeetAtPiece, MeetAtRow, TakesName, TakesPiece, TakesRow};
ghost use Rattle.slotted_check.specs.Renamings.{Extends};

use crate::renaming::Renaming;
use std::alloc::AllocError;

/// A piece of a term. Under `d` scopes the names below `d` are places of scopes, counted outwards from 0, and `d + x`
/// is the free name `x`.
#[derive(Clone, Copy, PartialEq, Eq)]
pub enum Piece {
    /// Begins a node, with the number of its operator.
    Head(usize),
    /// A name, or the place of a scope.
    Name(usize),
    /// Begins a scope.
    Scope,
    /// Ends a scope.
    Leave,
    /// Ends a node.
    Close,
}

// Returns one more scope, unless there are too many.
fn deeper(depth: usize) -> Option<usize>
    ensures { IfSome result (λ n. n ≡ depth + 1) }
{
    depth.checked_add(1)
}

// Returns one scope less, if there is one.
fn shallower(depth: usize) -> Option<usize>
    ensures { IfSome result (λ n. depth ≡ n + 1) }
{
    depth.checked_sub(1)
}

// Compares two names or places under so many scopes. Returns how many are open behind them, if they agree.
fn compare_names(
    a: usize,
    b: usize,
    depth: usize,
    names: &mut Renaming,
) -> Result<Option<usize>, AllocError>
    ensures some { IfOk result (λ o. IfSome o (λ n. (n ≡ depth) × TakesName names.new depth a b)) }
    ensures extends { Extends names.old names.new }
{
    if a < depth {
        if a == b {
            return Ok(Some(depth));
        }
        return Ok(None);
    }
    if b < depth {
        return Ok(None);
    }
    if names.join(a - depth, b - depth)? {
        return Ok(Some(depth));
    }
    Ok(None)
}

// Compares two pieces under so many scopes. Returns how many are open behind them, or `None` if the pieces do not
// agree. Free names become one another by the renaming.
fn compare(
    one: Piece,
    two: Piece,
    depth: usize,
    names: &mut Renaming,
) -> Result<Option<usize>, AllocError>
    ensures some { IfOk result (λ o. IfSome o (λ n. TakesPiece names.new depth one two n)) }
    ensures extends { Extends names.old names.new }
{
    match (one, two) {
        (Piece::Name(a), Piece::Name(b)) => compare_names(a, b, depth, names),
        (Piece::Head(a), Piece::Head(b)) => Ok(if a == b { Some(depth) } else { None }),
        (Piece::Close, Piece::Close) => Ok(Some(depth)),
        (Piece::Scope, Piece::Scope) => Ok(deeper(depth)),
        (Piece::Leave, Piece::Leave) => Ok(shallower(depth)),
        _ => Ok(None),
    }
}

/// Returns whether the one row becomes the other by a renaming that goes on from this one.
pub fn becomes(one: &[Piece], two: &[Piece], names: &mut Renaming) -> Result<bool, AllocError>
    ensures yes { IfOk result (λ b. IsTrue b → TakesRow names.new one.now two.now) }
    ensures extends { Extends names.old names.new }
{
    let mut depth = 0;
    let mut left = one;
    let mut right = two;
    while !left.is_empty() && !right.is_empty() {
        match compare(left[0], right[0], depth, names)? {
            Some(next) => depth = next,
            None => return Ok(false),
        }
        left = &left[1..];
        right = &right[1..];
    }
    Ok(left.is_empty() && right.is_empty())
}

// Makes a name of each renaming become one. Where neither has a value, that is the fresh one.
fn join_both(
    left: &mut Renaming,
    right: &mut Renaming,
    a: usize,
    b: usize,
    fresh: usize,
) -> Result<bool, AllocError>
    ensures yes { IfOk result (λ y. IsTrue y → MeetAtName left.new right.new 0 a b) }
    ensures left { Extends left.old left.new }
    ensures right { Extends right.old right.new }
{
    match (left.value(a), right.value(b)) {
        (Some(x), Some(y)) => Ok(x == y),
        (Some(x), None) => right.join(b, x),
        (None, Some(y)) => left.join(a, y),
        (None, None) => {
            if !left.join(a, fresh)? {
                return Ok(false);
            }
            right.join(b, fresh)
        }
    }
}

// As `compare_names`, where both names are renamed to one.
fn meet_names(
    a: usize,
    b: usize,
    depth: usize,
    left: &mut Renaming,
    right: &mut Renaming,
    fresh: usize,
) -> Result<Option<usize>, AllocError>
    ensures some { IfOk result (λ o. IfSome o (λ n. (n ≡ depth) × MeetAtName left.new right.new depth a b)) }
    ensures left { Extends left.old left.new }
    ensures right { Extends right.old right.new }
{
    if a < depth {
        if a == b {
            return Ok(Some(depth));
        }
        return Ok(None);
    }
    if b < depth {
        return Ok(None);
    }
    if join_both(left, right, a - depth, b - depth, fresh)? {
        return Ok(Some(depth));
    }
    Ok(None)
}

// As `compare`, where both rows are renamed to one.
fn meet_pieces(
    one: Piece,
    two: Piece,
    depth: usize,
    left: &mut Renaming,
    right: &mut Renaming,
    fresh: usize,
) -> Result<Option<usize>, AllocError>
    ensures some { IfOk result (λ o. IfSome o (λ n. MeetAtPiece left.new right.new depth one two n)) }
    ensures left { Extends left.old left.new }
    ensures right { Extends right.old right.new }
{
    match (one, two) {
        (Piece::Name(a), Piece::Name(b)) => meet_names(a, b, depth, left, right, fresh),
        (Piece::Head(a), Piece::Head(b)) => Ok(if a == b { Some(depth) } else { None }),
        (Piece::Close, Piece::Close) => Ok(Some(depth)),
        (Piece::Scope, Piece::Scope) => Ok(deeper(depth)),
        (Piece::Leave, Piece::Leave) => Ok(shallower(depth)),
        _ => Ok(None),
    }
}

/// Returns whether both rows become one by renamings that go on from these. A name that is open gets a value from
/// `fresh` on.
pub fn meet(
    one: &[Piece],
    two: &[Piece],
    left: &mut Renaming,
    right: &mut Renaming,
    fresh: usize,
) -> Result<bool, AllocError>
    ensures yes { IfOk result (λ y. IsTrue y → MeetAtRow left.new right.new one.now two.now) }
    ensures left { Extends left.old left.new }
    ensures right { Extends right.old right.new }
{
    let mut depth = 0;
    let mut fresh = fresh;
    let mut ones = one;
    let mut twos = two;
    while !ones.is_empty() && !twos.is_empty() {
        match meet_pieces(ones[0], twos[0], depth, left, right, fresh)? {
            Some(next) => depth = next,
            None => return Ok(false),
        }
        fresh = fresh.saturating_add(1);
        ones = &ones[1..];
        twos = &twos[1..];
    }
    Ok(ones.is_empty() && twos.is_empty())
}

/// Returns whether two rows are one.
pub fn are_same(one: &[Piece], two: &[Piece]) -> bool
    ensures { IsTrue result → one.now ≡ two.now }
{
    let mut left = one;
    let mut right = two;
    while !left.is_empty() && !right.is_empty() {
        if left[0] != right[0] {
            return false;
        }
        left = &left[1..];
        right = &right[1..];
    }
    left.is_empty() && right.is_empty()
}

/// Returns a number that two rows have in common if a renaming takes the one to the other.
pub fn skeleton(row: &[Piece], seed: u64) -> u64 {
    let mut sum = seed;
    for piece in row {
        let part = match *piece {
            Piece::Head(n) => (n as u64).wrapping_add(5),
            Piece::Name(_) => 0,
            Piece::Scope => 1,
            Piece::Leave => 2,
            Piece::Close => 3,
        };
        sum = (sum ^ part).wrapping_mul(0x100000001b3);
    }
    sum
}
