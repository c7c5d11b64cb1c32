//! Searching an index for what a program finds.
ghost use Rattle.std.specs.Prelude.{◌≡◌, IfOk};
ghost use Rattle.slotted_match_machine.specs.Machine.{all_answers, answers_at};
ghost use Rattle.slotted_match_machine.specs.Answers.{answers_in};

use crate::answer::Answer;
use crate::index::RowIndex;
use crate::machine::Machine;
use crate::program::Step;
use std::alloc::{AllocError, Global};

/// Returns the answers at the live classes, one class after another.
pub fn search(alloc: Global, index: &RowIndex, steps: &[Step]) -> Result<Vec<Answer>, AllocError>
    ensures { IfOk result (λ answers. answers_in answers.items ≡ all_answers index.now steps.now) }
{
    let mut machine = Machine::new(alloc, index);
    let mut answers = Vec::new(alloc);
    for class in &index.live {
        machine.start(*class)?;
        machine.run(steps, &mut answers)?;
    }
    Ok(answers)
}

/// Returns the answers at one class.
pub fn search_class(
    alloc: Global,
    index: &RowIndex,
    steps: &[Step],
    class: usize,
) -> Result<Vec<Answer>, AllocError>
    ensures { IfOk result (λ answers. answers_in answers.items ≡ answers_at index.now.classes.items steps.now class) }
{
    let mut machine = Machine::new(alloc, index);
    let mut answers = Vec::new(alloc);
    machine.start(class)?;
    machine.run(steps, &mut answers)?;
    Ok(answers)
}
