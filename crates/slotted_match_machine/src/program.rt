//! A pattern as a list of steps, which the machine takes one after another.

/// The place at which a step looks: a child of the row that a register holds.
///
/// The only child of the first register is the class at which the pattern is sought.
#[derive(Clone, Copy, PartialEq, Eq, Debug)]
pub struct Source {
    pub register: usize,
    pub child: usize,
}

/// A step of a program.
#[derive(Drop)]
pub enum Step {
    /// Goes through the rows of a class that have the outline, each in a register of its own. Pairs their own names
    /// and binders with slots of the pattern.
    Node {
        outline: usize,
        slots: Vec<usize>,
        from: Source,
    },
    /// Takes what stands at the place of a variable, or compares it with what the variable took before.
    Variable {
        number: usize,
        from: Source,
    },
}
