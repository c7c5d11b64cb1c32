//! Uses of operators that are not as declared.

/// What is wrong with a use of a word.
#[derive(Clone, Copy, PartialEq, Eq, Debug)]
pub enum Fault {
    /// The word has arguments and is not declared.
    Unknown,
    /// The word is declared with other arguments.
    Arguments,
    /// The word has no arguments and is declared with arguments alone.
    Alone,
}

/// An e-node that is used otherwise than declared.
#[derive(Drop, Debug)]
pub struct Misuse {
    /// How many e-nodes are read before it.
    pub number: usize,
    /// Its word.
    pub word: String,
    /// What is wrong with its use.
    pub fault: Fault,
}
