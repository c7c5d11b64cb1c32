//! What an analysis asks for a class.
use slotted_languages::Language;
use slotted_terms::RecExpr;

/// A change of a graph that an analysis asks for a class.
#[derive(Drop, Debug)]
pub enum Edit<L: Language> {
    /// Adds the term.
    Add(RecExpr<L>),
    /// Makes the class, with its own slots as names, equal to the term.
    Equal(RecExpr<L>),
    /// Makes the two terms equal.
    Equate(RecExpr<L>, RecExpr<L>),
}
