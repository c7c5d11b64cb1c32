//! Filed e-nodes that wait for their turn.
use std::cmp::Reverse;

/// A filed e-node with its cost, its source, and whether each of its children costs less.
///
/// The order of the fields decides which of two candidates has its turn first, namely the greater one. That is the
/// cheaper one, else the one over cheaper children, else the one with the lesser shape.
#[derive(Drop, PartialEq, Eq, PartialOrd, Ord)]
pub struct Candidate<'a, L, C> {
    pub cost: Reverse<C>,
    pub over_cheaper: bool,
    pub key: Reverse<&'a L>,
    pub source: Reverse<usize>,
}
