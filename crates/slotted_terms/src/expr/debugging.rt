//! What `{:?}` and `{:#?}` write of a term, which is what a derive would write.
use super::RecExpr;
use slotted_languages::language::Language;
use slotted_patterns::layout::{Layout, Nested, Piece, stack_list, write_nested};
use slotted_slots::Error;
use std::alloc::Global;
use std::fmt;
use std::fmt::{Debug, Formatter, Write};

impl<L: Language> Nested for RecExpr<L> {
    fn begin<W: Write>(
        &self,
        alloc: Global,
        layout: &mut Layout,
        f: &mut Formatter<W>,
    ) -> fmt::Result {
        layout.open(f, "RecExpr {", " ")?;
        f.write_str("node: ")?;
        layout.part(alloc, f, &self.node)?;
        layout.separate(f)?;
        f.write_str("children: ")?;
        layout.begin_list(f, self.children.len())
    }

    fn stack<'a>(&'a self, left: &mut Vec<Piece<'a, Self>>) -> Result<(), Error> {
        left.push(Piece::Closer(" ", "}"))?;
        stack_list(left, &self.children)
    }
}

impl<L: Language> Debug for RecExpr<L> {
    fn fmt<W: Write>(&self, f: &mut Formatter<W>) -> fmt::Result {
        write_nested(*self.children.allocator(), f, self)
    }
}
