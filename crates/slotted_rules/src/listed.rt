//! Patterns with the lists of the patterns in them. Such lists are made once for many matches.

use slotted_languages::Language;
use slotted_patterns::Pattern;

/// A pattern, and the list of the patterns in it.
#[derive(Drop)]
pub(crate) struct Listed<'a, L: Language> {
    pub pattern: &'a Pattern<L>,
    /// The pattern and those inside it, each before its parts, which follow from the right.
    pub inside: &'a [&'a Pattern<L>],
}
