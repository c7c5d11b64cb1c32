//! What is open in a text that is read.

/// A part of a text that has begun and has not ended.
#[derive(Clone, Copy, PartialEq, Eq)]
pub enum Frame {
    /// The whole term, before it begins.
    Root,
    /// The arguments of an operator.
    Node(usize),
    /// The scope of a name, among the arguments of an operator.
    Scope(usize, usize),
    /// The scope of another name, between such a scope and what both names are bound in.
    Also(usize),
}
