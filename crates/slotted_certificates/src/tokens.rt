//! Parts of the texts of terms and patterns.

/// A part of the text of a term or of a pattern, by the numbers of its words.
#[derive(Clone, Copy, PartialEq, Eq)]
pub enum Token {
    /// An operator that has no arguments.
    Leaf(usize),
    /// An opening bracket, and the operator behind it.
    Bracket(usize),
    /// A closing bracket.
    Close,
    /// A slot.
    Slot(usize),
    /// A variable, or another part in whose place a value is put.
    Value(usize),
}
