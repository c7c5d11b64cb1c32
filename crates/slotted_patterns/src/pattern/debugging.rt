//! What `{:?}` and `{:#?}` write of a pattern, which is what a derive would write.
use super::Pattern;
use crate::layout::{Layout, Nested, Piece, stack_list, write_nested};
use slotted_languages::language::Language;
use slotted_slots::Error;
use std::alloc::Global;
use std::fmt;
use std::fmt::{Debug, Formatter, Write};

// Adds what is written of a substitution behind its bracket.
fn stack_substitution<'a, L: Language>(
    left: &mut Vec<Piece<'a, Pattern<L>>>,
    body: &'a Pattern<L>,
    place: &'a Pattern<L>,
    value: &'a Pattern<L>,
) -> Result<(), Error> {
    left.push(Piece::Whole(value))?;
    left.push(Piece::Separator)?;
    left.push(Piece::Whole(place))?;
    left.push(Piece::Separator)?;
    left.push(Piece::Whole(body))?;
    Ok(())
}

impl<L: Language> Nested for Pattern<L> {
    fn begin<W: Write>(
        &self,
        alloc: Global,
        layout: &mut Layout,
        f: &mut Formatter<W>,
    ) -> fmt::Result {
        match self {
            Pattern::ENode(node, children) => {
                layout.open(f, "ENode(", "")?;
                layout.part(alloc, f, node)?;
                layout.separate(f)?;
                layout.begin_list(f, children.len())
            }
            Pattern::PVar(name) => {
                layout.open(f, "PVar(", "")?;
                layout.part(alloc, f, name)
            }
            Pattern::Subst(_, _, _) => layout.open(f, "Subst(", ""),
        }
    }

    fn stack<'a>(&'a self, left: &mut Vec<Piece<'a, Self>>) -> Result<(), Error> {
        left.push(Piece::Closer("", ")"))?;
        match self {
            Pattern::ENode(_, children) => stack_list(left, children),
            Pattern::PVar(_) => Ok(()),
            Pattern::Subst(body, place, value) => stack_substitution(left, body, place, value),
        }
    }
}

impl<L: Language> Debug for Pattern<L> {
    fn fmt<W: Write>(&self, f: &mut Formatter<W>) -> fmt::Result {
        write_nested(self.allocator(), f, self)
    }
}
