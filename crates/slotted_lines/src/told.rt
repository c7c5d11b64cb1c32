//! Answers to lines.
ghost use Rattle.std.specs.Prelude.{◌≡◌, Some};
ghost use Rattle.slotted_lines.specs.Texts.{run_text, told_text, word_of};

use slotted_commands::Answer;
use slotted_rules::StopReason;
use std::convert::Infallible;
use std::fmt;

/// The answer to one line.
#[derive(Drop)]
pub enum Told {
    /// The answer to a line that asks the graph, the answer to a rule, or a refusal.
    Plain(Answer),
    /// The rules were run.
    Ran(Run),
}

/// What is told of a run: its report, and by how much the totals over all rebuilds rose.
#[derive(Drop)]
pub struct Run {
    /// How many turns were taken.
    pub turns: usize,
    /// Why the run stopped.
    pub reason: StopReason<Infallible>,
    /// How many e-nodes were filed at the end.
    pub nodes: usize,
    /// How many e-nodes took their turn in rebuilds.
    pub rebuild_turns: u64,
    /// How many e-nodes might have taken their turn, by the bounds of the rebuilds.
    pub rebuild_bound: u128,
}

// Returns the word for a reason.
fn word(reason: &StopReason<Infallible>) -> &'static str
    ensures { result.now ≡ word_of reason.now }
{
    match reason {
        StopReason::Saturated => "Saturated",
        StopReason::IterationLimit => "IterationLimit",
        StopReason::TimeLimit => "TimeLimit",
        StopReason::NodeLimit => "NodeLimit",
        StopReason::Other(never) => match *never {},
    }
}

/// Writes the number of turns, the reason, and the number of filed e-nodes.
impl fmt::Display for Run {
    ghost output = { λ r. Some (run_text r) };

    fn fmt<W: fmt::Write>(&self, f: &mut fmt::Formatter<W>) -> fmt::Result {
        let turns = self.turns;
        let word = word(&self.reason);
        let nodes = self.nodes;
        write!(f, "{turns} {word} {nodes}")
    }
}

/// Writes an answer. A run has a second line: by how much the totals of rebuilds rose, of turns and of bounds.
impl fmt::Display for Told {
    ghost output = { λ a. Some (told_text a) };

    fn fmt<W: fmt::Write>(&self, f: &mut fmt::Formatter<W>) -> fmt::Result {
        match self {
            Told::Plain(answer) => write!(f, "{answer}"),
            Told::Ran(run) => {
                let turns = run.rebuild_turns;
                let bound = run.rebuild_bound;
                write!(f, "{run}\nturns {turns} of {bound}")
            }
        }
    }
}
