//! Answers to lines.
ghost use Rattle.std.specs.Prelude.{Some};
ghost use Rattle.slotted_commands.specs.Answers.{text_of};

use slotted_slots::Error;
use std::fmt;

/// The answer to one line.
#[derive(Drop)]
pub enum Answer {
    /// The term was added.
    Done,
    /// The two terms are equal.
    Yes,
    /// The two terms are not equal.
    No,
    /// The two terms were not equal, and are now.
    United,
    /// The two terms to unite were equal already.
    WereEqual,
    /// The two terms are equal. The text is the proof by lines, without the last line feed.
    Explained(String),
    /// A term of least cost: its cost and its text.
    Extracted(u64, String),
    /// How many symmetries were met, and how many of them are open.
    Symmetries(usize, usize),
    /// The command was refused.
    Refused(Error),
    /// The line is no command.
    NoCommand,
}

impl fmt::Display for Answer {
    ghost output = { λ a. Some (text_of a) };

    fn fmt<W: fmt::Write>(&self, f: &mut fmt::Formatter<W>) -> fmt::Result {
        match self {
            Answer::Done => write!(f, "ok"),
            Answer::Yes => write!(f, "yes"),
            Answer::No => write!(f, "no"),
            Answer::United => write!(f, "true"),
            Answer::WereEqual => write!(f, "false"),
            Answer::Explained(proof) => write!(f, "{proof}"),
            Answer::Extracted(cost, term) => write!(f, "{cost} {term}"),
            Answer::Symmetries(met, open) => write!(f, "{met} {open}"),
            Answer::Refused(error) => {
                let number = error.number();
                let name = error.name();
                write!(f, "error: {number} {name}")
            }
            Answer::NoCommand => write!(f, "error: 0 Command"),
        }
    }
}
