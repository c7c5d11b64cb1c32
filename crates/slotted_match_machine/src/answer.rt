//! The answers of the machine.

/// A class with a name for each of its slots, in order.
#[derive(Drop, Debug)]
pub struct Occurrence {
    /// The class.
    pub class: usize,
    /// The names of its slots, in order.
    pub names: Vec<usize>,
}

/// An answer: what stands for the slots and the variables of a pattern.
#[derive(Drop, Debug)]
pub struct Answer {
    /// Names, each with the slot that it stands for. The first pair is the one that was made last.
    pub pairs: Vec<(usize, usize)>,
    /// What each variable stands for, by its number.
    pub values: Vec<Occurrence>,
}
