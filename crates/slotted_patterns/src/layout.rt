//! What `{:?}` and `{:#?}` write of values that nest, by a loop: the text that a derive would give, at any depth.
use slotted_slots::Error;
use std::alloc::Global;
use std::fmt;
use std::fmt::{Debug, Formatter, Write};

/// How deep the lines of `{:#?}` are indented. Under `{:?}` all is one line.
#[derive(Drop)]
pub struct Layout {
    depth: usize,
}

impl Layout {
    /// Returns the layout of a value that is not inside another one.
    pub fn new() -> Self {
        Layout { depth: 0 }
    }

    // Begins a line.
    fn begin_line<W: Write>(&self, f: &mut Formatter<W>) -> fmt::Result {
        f.write_str("\n")?;
        f.write_repeated("    ", self.depth)
    }

    /// Writes what opens a value with parts. `room` follows if the first part stands on the same line.
    pub fn open<W: Write>(
        &mut self,
        f: &mut Formatter<W>,
        opener: &str,
        room: &str,
    ) -> fmt::Result {
        f.write_str(opener)?;
        if f.alternate() {
            self.depth = self.depth.saturating_add(1);
            return self.begin_line(f);
        }
        f.write_str(room)
    }

    /// Writes what stands between two parts.
    pub fn separate<W: Write>(&self, f: &mut Formatter<W>) -> fmt::Result {
        f.write_str(",")?;
        if f.alternate() {
            return self.begin_line(f);
        }
        f.write_str(" ")
    }

    /// Writes what closes a value with parts. `room` comes before if the last part stands on the same line.
    pub fn close<W: Write>(
        &mut self,
        f: &mut Formatter<W>,
        room: &str,
        closer: &str,
    ) -> fmt::Result {
        if f.alternate() {
            self.depth = self.depth.saturating_sub(1);
            f.write_str(",")?;
            self.begin_line(f)?;
        } else {
            f.write_str(room)?;
        }
        f.write_str(closer)
    }

    /// Writes a list of so many values up to the first one, and an empty list to its end.
    pub fn begin_list<W: Write>(&mut self, f: &mut Formatter<W>, count: usize) -> fmt::Result {
        if count == 0 {
            return f.write_str("[]");
        }
        self.open(f, "[", "")
    }

    // Writes a text, each of its lines as deep as the value that it stands in.
    fn write_lines<W: Write>(&self, f: &mut Formatter<W>, text: &str) -> fmt::Result {
        for (k, line) in text.split('\n').enumerate() {
            if k > 0 {
                self.begin_line(f)?;
            }
            f.write_str(line)?;
        }
        Ok(())
    }

    /// Writes a part that has its own `Debug`. If memory for its lines is refused, that is a `fmt::Error`.
    pub fn part<T: Debug, W: Write>(
        &self,
        alloc: Global,
        f: &mut Formatter<W>,
        part: &T,
    ) -> fmt::Result {
        if !f.alternate() {
            return part.fmt(f);
        }
        match format!(in alloc; "{part:#?}") {
            Ok(text) => self.write_lines(f, text.as_str()),
            Err(_) => Err(fmt::Error),
        }
    }
}

/// A piece of a text that is still to be written.
#[derive(Drop)]
pub enum Piece<'a, T> {
    Whole(&'a T),
    Separator,
    /// The room before a closer, and the closer.
    Closer(&'static str, &'static str),
}

/// A type whose values stand inside one another.
pub trait Nested: Sized {
    /// Writes the value up to the first one that stands inside it.
    fn begin<W: Write>(
        &self,
        alloc: Global,
        layout: &mut Layout,
        f: &mut Formatter<W>,
    ) -> fmt::Result;

    /// Adds what follows to what is left, the first piece uppermost.
    fn stack<'a>(&'a self, left: &mut Vec<Piece<'a, Self>>) -> Result<(), Error>;
}

/// Adds what `begin_list` leaves of a list to what is left, the first piece uppermost.
pub fn stack_list<'a, T>(left: &mut Vec<Piece<'a, T>>, elements: &'a [T]) -> Result<(), Error> {
    if elements.is_empty() {
        return Ok(());
    }
    left.push(Piece::Closer("", "]"))?;
    for k in 0..elements.len() {
        let place = elements.len() - 1 - k;
        left.push(Piece::Whole(&elements[place]))?;
        if place > 0 {
            left.push(Piece::Separator)?;
        }
    }
    Ok(())
}

// Writes a piece. What follows inside a value is added to what is left.
fn write_piece<'a, T: Nested, W: Write>(
    alloc: Global,
    layout: &mut Layout,
    f: &mut Formatter<W>,
    piece: Piece<'a, T>,
    left: &mut Vec<Piece<'a, T>>,
) -> fmt::Result {
    match piece {
        Piece::Separator => layout.separate(f),
        Piece::Closer(room, closer) => layout.close(f, room, closer),
        Piece::Whole(value) => {
            value.begin(alloc, layout, f)?;
            match value.stack(left) {
                Ok(()) => Ok(()),
                Err(_) => Err(fmt::Error),
            }
        }
    }
}

/// Writes a value as its `Debug` does. A growth that is refused is a `fmt::Error`.
pub fn write_nested<T: Nested, W: Write>(
    alloc: Global,
    f: &mut Formatter<W>,
    value: &T,
) -> fmt::Result {
    let mut layout = Layout::new();
    let mut left = Vec::new(alloc);
    let mut next = Some(Piece::Whole(value));
    for _ in 0..usize::MAX {
        match next {
            Some(piece) => write_piece(alloc, &mut layout, f, piece, &mut left)?,
            None => return Ok(()),
        }
        next = left.pop();
    }
    Err(fmt::Error)
}
