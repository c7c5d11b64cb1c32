//! The filed e-nodes of a graph as rows of numbers, by their classes.
ghost use Rattle.std.specs.Prelude.{◌≡◌};
ghost use Rattle.slotted_match_machine.specs.Machine.{rows_in, slot_count_in};

/// A child of a row.
#[derive(Drop)]
pub struct IndexChild {
    /// The class of the child.
    pub class: usize,
    /// For each slot of that class, in order, the number in the row that stands for it.
    pub numbers: Vec<usize>,
}

/// A filed e-node whose names are numbered, as a row of its class.
#[derive(Drop)]
pub struct IndexRow {
    /// The outline of the e-node. Two rows have one outline if they differ in names and children alone.
    pub outline: usize,
    /// For each number 1 more than the position of the class's slot that it stands for, or 0 if it stands for none.
    ///
    /// The number of a binder or of a redundant slot stands for none.
    pub slots: Vec<usize>,
    /// The numbers at own names and binders, from the left.
    pub owns: Vec<usize>,
    /// The children, from the left.
    pub children: Vec<IndexChild>,
}

/// The rows of a class, with the number of its slots.
#[derive(Drop)]
pub struct ClassRows {
    /// The number of slots of the class.
    pub slot_count: usize,
    /// The rows, one for each filed e-node.
    pub rows: Vec<IndexRow>,
}

/// The index: the rows of all classes.
#[derive(Drop)]
pub struct RowIndex {
    /// The rows of each class, by its number.
    pub classes: Vec<ClassRows>,
    /// The live classes, in ascending order.
    pub live: Vec<usize>,
}

impl RowIndex {
    /// Returns the rows of a class, and none past the last class.
    pub fn rows_of(&self, class: usize) -> &[IndexRow]
        ensures { result.now ≡ rows_in self.now.classes.items class }
    {
        match self.classes.get(class) {
            Some(class) => &class.rows,
            None => &[],
        }
    }

    /// Returns how many slots a class has, and 0 past the last class.
    pub fn slot_count(&self, class: usize) -> usize
        ensures { result ≡ slot_count_in self.now.classes.items class }
    {
        match self.classes.get(class) {
            Some(class) => class.slot_count,
            None => 0,
        }
    }
}
