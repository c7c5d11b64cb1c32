//! The sizes of classes: how many filed e-nodes a class has, and how many stand over it.
ghost use Rattle.std.specs.Prelude.{IfErr};
ghost use Rattle.slotted_slots.specs.Error.{IsOutOfMemory};

use slotted_slots::Error;
use std::alloc::Global;

/// For each class the number of its filed e-nodes, and its size: these e-nodes, and the filed ones that have it as a
/// child.
///
/// No clause speaks of sizes, which decide which class a union keeps. A size that is too large for its number is the
/// largest one.
#[derive(Drop)]
pub struct Sizes {
    nodes: Vec<u32>,
    sizes: Vec<u32>,
}

impl Sizes {
    /// Returns the sizes of no classes.
    pub fn new(alloc: Global) -> Self {
        Sizes {
            nodes: Vec::new(alloc),
            sizes: Vec::new(alloc),
        }
    }

    /// Adds a class without e-nodes.
    pub fn grow(&mut self) -> Result<(), Error>
        ensures err { IfErr result IsOutOfMemory }
    {
        self.nodes.push(0)?;
        self.sizes.push(0)?;
        Ok(())
    }

    /// Returns the size of each class.
    pub fn all(&self) -> &[u32] {
        &self.sizes
    }

    /// Counts one more e-node of a class.
    pub fn add_node(&mut self, class: usize) {
        raise(&mut self.nodes, class, 1);
        raise(&mut self.sizes, class, 1);
    }

    /// Counts one e-node less of a class.
    pub fn take_node(&mut self, class: usize) {
        lower(&mut self.nodes, class, 1);
        lower(&mut self.sizes, class, 1);
    }

    /// Counts one more e-node over a class.
    pub fn add_parent(&mut self, class: usize) {
        raise(&mut self.sizes, class, 1);
    }

    /// Counts one e-node less over a class.
    pub fn take_parent(&mut self, class: usize) {
        lower(&mut self.sizes, class, 1);
    }

    /// Counts all e-nodes of a class as those of another one from now on.
    pub fn move_nodes(&mut self, from: usize, to: usize) {
        let moved = self.nodes.get(from).copied().unwrap_or(0);
        lower(&mut self.nodes, from, moved);
        lower(&mut self.sizes, from, moved);
        raise(&mut self.nodes, to, moved);
        raise(&mut self.sizes, to, moved);
    }
}

// Raises the number of a class.
fn raise(numbers: &mut [u32], class: usize, more: u32) {
    if let Some(number) = numbers.get_mut(class) {
        *number = number.saturating_add(more);
    }
}

// Lowers the number of a class.
fn lower(numbers: &mut [u32], class: usize, less: u32) {
    if let Some(number) = numbers.get_mut(class) {
        *number = number.saturating_sub(less);
    }
}
