//! The text of a pattern, by a list of the pieces that are to be written.
ghost use Rattle.std.specs.Prelude.{◌≡◌, ◌<◌, ◌+◌, ◌++◌, Some, map, codes, string_bytes, IfOk, OnOk, IfErr};
ghost use Rattle.slotted_slots.specs.Error.{IsOutOfMemory};
ghost use Rattle.slotted_slots.specs.Syntax.{element_of};
ghost use Rattle.slotted_patterns.specs.Pieces.{HasPieces, Stacks, WritesChild, node_weight, pattern_weight, pending, piece_text, substitution_text, substitution_weight, texts, weight, weights};
ghost use Rattle.slotted_patterns.specs.Shown.{node_text, pattern_text};

use super::Pattern;
use crate::show::{child_count, push_part};
use slotted_languages::language::Language;
use slotted_slots::{Error, Show, SlotTable, SyntaxElem};
use std::alloc::Global;
use std::fmt;

// A piece of a text that is still to be written.
#[derive(Drop)]
enum Piece<'a, L: Language> {
    Mark(&'a str),
    // An element over no child.
    Part(SyntaxElem),
    Whole(&'a Pattern<L>),
}

// Returns the piece of an element. The children from `next` on are still to be written.
fn piece_of<'a, L: Language>(
    element: SyntaxElem,
    children: &'a [Pattern<L>],
    next: usize,
) -> Piece<'a, L>
    ensures { WritesChild L.shown (element_of element) children.now next result }
{
    match element {
        SyntaxElem::AppliedId(id) => match children.get(next) {
            Some(child) => Piece::Whole(child),
            None => Piece::Part(SyntaxElem::AppliedId(id)),
        },
        element => Piece::Part(element),
    }
}

// Returns the pieces of a node's elements, from the left.
fn pieces_of<'a, L: Language>(
    alloc: Global,
    mut elements: Vec<SyntaxElem>,
    children: &'a [Pattern<L>],
) -> Result<Vec<Piece<'a, L>>, Error>
    ensures ok { IfOk result (λ v. HasPieces L.shown (map element_of elements.items) children.now v.items) }
    ensures err { IfErr result IsOutOfMemory }
{
    let mut pieces = Vec::new(alloc);
    let mut separator = "";
    let mut next = 0;
    elements.reverse();
    while let Some(element) = elements.pop() {
        let width = child_count(&element);
        pieces.push(Piece::Mark(separator))?;
        pieces.push(piece_of(element, children, next))?;
        next += width;
        separator = " ";
    }
    Ok(pieces)
}

// Pushes the pieces on the stack, the first one uppermost.
fn stack_up<'a, L: Language>(
    left: &mut Vec<Piece<'a, L>>,
    mut pieces: Vec<Piece<'a, L>>,
) -> Result<(), Error>
    ensures ok { OnOk result (Stacks L.shown (λ t. texts L.shown t pieces.entry.items) (weights L.shown pieces.entry.items) left.old.items left.new.items) }
    ensures err { IfErr result IsOutOfMemory }
{
    pieces.reverse();
    left.append(&mut pieces)?;
    Ok(())
}

// Takes a node apart: one element stands alone, and several or none in round brackets.
fn open_node<'a, L: Language>(
    alloc: Global,
    node: &L,
    children: &'a [Pattern<L>],
    left: &mut Vec<Piece<'a, L>>,
) -> Result<(), Error>
    ensures ok { OnOk result (Stacks L.shown
        (λ t. node_text t (L.shown node.now) (map (pattern_text L.shown t) children.now))
        (node_weight (L.shown node.now) (map (pattern_weight L.shown) children.now)) left.old.items left.new.items) }
    ensures err { IfErr result IsOutOfMemory }
{
    let elements = node.to_syntax(alloc)?;
    let is_alone = elements.len() == 1;
    let pieces = pieces_of(alloc, elements, children)?;
    if is_alone {
        return stack_up(left, pieces);
    }
    left.push(Piece::Mark(")"))?;
    stack_up(left, pieces)?;
    left.push(Piece::Mark("("))?;
    Ok(())
}

// Takes a variable apart, which stands after `?`.
fn open_variable<'a, L: Language>(name: &'a str, left: &mut Vec<Piece<'a, L>>) -> Result<(), Error>
    ensures ok { OnOk result (Stacks L.shown (λ _. codes "?" ++ name.now) 2 left.old.items left.new.items) }
    ensures err { IfErr result IsOutOfMemory }
{
    left.push(Piece::Mark(name))?;
    left.push(Piece::Mark("?"))?;
    Ok(())
}

// Takes a substitution apart: `b[x := t]`.
fn open_substitution<'a, L: Language>(
    body: &'a Pattern<L>,
    place: &'a Pattern<L>,
    value: &'a Pattern<L>,
    left: &mut Vec<Piece<'a, L>>,
) -> Result<(), Error>
    ensures ok { OnOk result (Stacks L.shown
        (λ t. substitution_text (pattern_text L.shown t body.now) (pattern_text L.shown t place.now) (pattern_text L.shown t value.now))
        (substitution_weight (pattern_weight L.shown body.now) (pattern_weight L.shown place.now) (pattern_weight L.shown value.now))
        left.old.items left.new.items) }
    ensures err { IfErr result IsOutOfMemory }
{
    left.push(Piece::Mark("]"))?;
    left.push(Piece::Whole(value))?;
    left.push(Piece::Mark(" := "))?;
    left.push(Piece::Whole(place))?;
    left.push(Piece::Mark("["))?;
    left.push(Piece::Whole(body))?;
    Ok(())
}

// Takes a pattern apart.
fn open<'a, L: Language>(
    alloc: Global,
    pattern: &'a Pattern<L>,
    left: &mut Vec<Piece<'a, L>>,
) -> Result<(), Error>
    ensures ok { OnOk result (Stacks L.shown (λ t. pattern_text L.shown t pattern.now)
        (pattern_weight L.shown pattern.now) left.old.items left.new.items) }
    ensures err { IfErr result IsOutOfMemory }
{
    match pattern {
        Pattern::ENode(node, children) => open_node(alloc, node, children, left),
        Pattern::PVar(name) => open_variable(name.as_str(), left),
        Pattern::Subst(body, place, value) => open_substitution(body, place, value, left),
    }
}

// Writes a piece, or takes it apart.
fn write_piece<'a, L: Language>(
    alloc: Global,
    piece: Piece<'a, L>,
    table: &SlotTable,
    text: &mut String,
    left: &mut Vec<Piece<'a, L>>,
) -> Result<(), Error>
    ensures ok { OnOk result (string_bytes text.new ++ pending L.shown table.now left.new.items
        ≡ string_bytes text.old ++ (piece_text L.shown table.now piece.entry ++ pending L.shown table.now left.old.items)) }
    ensures less { OnOk result (weights L.shown left.new.items < weight L.shown piece.entry + weights L.shown left.old.items) }
    ensures err { IfErr result IsOutOfMemory }
{
    match piece {
        Piece::Mark(mark) => text.push_str(mark)?,
        Piece::Part(element) => push_part(text, &element, "_", table)?,
        Piece::Whole(pattern) => open(alloc, pattern, left)?,
    }
    Ok(())
}

impl<L: Language> Pattern<L> {
    /// Returns the text of the pattern.
    ///
    /// A variable is written after `?`, a substitution as `b[x := t]`, and a node as `node_text` writes it over the
    /// texts of its child patterns.
    pub fn text(&self, alloc: Global, table: &SlotTable) -> Result<String, Error>
        ensures ok { IfOk result (λ s. string_bytes s ≡ pattern_text L.shown table.now self.now) }
        ensures err { IfErr result IsOutOfMemory }
    {
        let mut text = String::new(alloc);
        let mut left = Vec::new(alloc);
        left.push(Piece::Whole(self))?;
        while let Some(piece) = left.pop() {
            write_piece(alloc, piece, table, &mut text, &mut left)?;
        }
        Ok(text)
    }
}

/// Prints `(app ?f a)[(var $x) := ?t]`.
///
/// `_` stands for a child pattern that is missing, and one that is too many is not printed. `fmt::Error` if memory is
/// refused.
impl<L: Language> Show for Pattern<L> {
    ghost shown = { λ t p. Some (pattern_text L.shown t p) };

    fn write_shown<W: fmt::Write>(
        &self,
        table: &SlotTable,
        f: &mut fmt::Formatter<W>,
    ) -> fmt::Result {
        match self.text(self.allocator(), table) {
            Ok(text) => write!(f, "{text}"),
            Err(_) => Err(fmt::Error),
        }
    }
}
