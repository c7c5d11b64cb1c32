//! The run of the machine: depth first, each row in its turn.
ghost use Rattle.std.specs.Prelude.{◌≡◌, ◌<◌, ◌≤◌, ◌+◌, [], ◌∷◌, ◌++◌, length, if◌then◌else◌};
ghost use Rattle.std.specs.Prelude.{IfOk, IfSome, IsTrue, MatchOption, OnOk};
ghost use Rattle.slotted_match_machine.specs.Scratch.{IsReadable, scratch_of};
ghost use Rattle.slotted_match_machine.specs.Answers.{AddsAnswers, answers_in, answers_from, rows_of_outline};
ghost use Rattle.slotted_match_machine.specs.Choices.{IsChoice, HasChoices, answers_of_choice, answers_left, moves_after, moves_at, moves_left};

use crate::answer::Answer;
use crate::index::IndexRow;
use crate::machine::{Choice, Machine};
use crate::program::Step;
use std::alloc::AllocError;

// Returns the first of the rows that has the outline, and the rows after it.
fn first_of_outline(rows: &[IndexRow], outline: usize) -> Option<(&IndexRow, &[IndexRow])>
    ensures rows { MatchOption result
        (rows_of_outline outline rows.now ≡ [])
        (λ p. rows_of_outline outline rows.now ≡ p.0.now ∷ rows_of_outline outline p.1.now) }
    ensures fewer { IfSome result (λ p. length p.1.now < length rows.now) }
{
    let mut left = rows;
    while let Some((row, rest)) = left.split_first() {
        if row.outline == outline {
            return Some((row, rest));
        }
        left = rest;
    }
    None
}

impl<'a> Machine<'a> {
    /// Takes the steps in turn, and adds the answers.
    pub fn run(&mut self, steps: &'a [Step], answers: &mut Vec<Answer>) -> Result<(), AllocError>
        requires { IsReadable (scratch_of self.old) }
        ensures answers { OnOk result (AddsAnswers
            (answers_from (scratch_of self.old) steps.now)
            answers.old.items answers.new.items) }
        ensures classes { OnOk result ((scratch_of self.new).classes ≡ (scratch_of self.old).classes) }
    {
        self.choices.clear();
        self.descend(steps, answers)?;
        while let Some(choice) = self.choices.pop() {
            self.backtrack(choice.mark);
            if self.take_row(&choice)? {
                self.descend(choice.rest, answers)?;
            }
        }
        Ok(())
    }

    // Takes the steps as long as they can be taken, and answers if none is left.
    fn descend(&mut self, steps: &'a [Step], answers: &mut Vec<Answer>) -> Result<(), AllocError>
        requires readable { IsReadable (scratch_of self.old) }
        requires choices { HasChoices self.old }
        ensures answers { OnOk result
            (answers_in answers.old.items ++ (answers_from (scratch_of self.old) steps.now ++ answers_left self.old)
            ≡ answers_in answers.new.items ++ answers_left self.new) }
        ensures choices { OnOk result (HasChoices self.new) }
        ensures classes { OnOk result ((scratch_of self.new).classes ≡ (scratch_of self.old).classes) }
        ensures moves { OnOk result (moves_left self.new
            ≤ moves_after (scratch_of self.old).classes steps.now + moves_left self.old) }
    {
        let mut left = steps;
        while let Some((step, rest)) = left.split_first() {
            if !self.take_step(step, rest)? {
                return Ok(());
            }
            left = rest;
        }
        let answer = self.answer()?;
        answers.push(answer)?;
        Ok(())
    }

    // Takes a step. Returns whether it can be taken.
    fn take_step(&mut self, step: &'a Step, rest: &'a [Step]) -> Result<bool, AllocError>
        requires readable { IsReadable (scratch_of self.old) }
        requires choices { HasChoices self.old }
        ensures answers { IfOk result (λ y.
            answers_from (scratch_of self.old) (step.now ∷ rest.now) ++ answers_left self.old
            ≡ (if y then answers_from (scratch_of self.new) rest.now else []) ++ answers_left self.new) }
        ensures readable { IfOk result (λ y. IsTrue y → IsReadable (scratch_of self.new)) }
        ensures choices { OnOk result (HasChoices self.new) }
        ensures classes { OnOk result ((scratch_of self.new).classes ≡ (scratch_of self.old).classes) }
        ensures moves { OnOk result (moves_left self.new + moves_after (scratch_of self.old).classes rest.now
            ≤ moves_after (scratch_of self.old).classes (step.now ∷ rest.now) + moves_left self.old) }
    {
        match step {
            Step::Node {
                outline,
                slots,
                from,
            } => {
                let from = self.view(*from);
                self.take_row(&Choice {
                    mark: self.mark(),
                    from,
                    outline: *outline,
                    slots,
                    rows: self.index.rows_of(from.class),
                    rest,
                })
            }
            Step::Variable { number, from } => {
                let from = self.view(*from);
                self.take_value(*number, &from)
            }
        }
    }

    // Enters the first row of a choice that has the outline, and leaves those after it for later.
    // Returns whether the row can be entered.
    fn take_row(&mut self, choice: &Choice<'a>) -> Result<bool, AllocError>
        requires choice { IsChoice (scratch_of self.old) choice.now }
        requires choices { HasChoices self.old }
        ensures answers { IfOk result (λ y.
            answers_of_choice (scratch_of self.old) choice.now ++ answers_left self.old
            ≡ (if y then answers_from (scratch_of self.new) choice.now.rest.now else []) ++ answers_left self.new) }
        ensures readable { IfOk result (λ y. IsTrue y → IsReadable (scratch_of self.new)) }
        ensures choices { OnOk result (HasChoices self.new) }
        ensures classes { OnOk result ((scratch_of self.new).classes ≡ (scratch_of self.old).classes) }
        ensures moves { OnOk result (moves_left self.new + moves_after (scratch_of self.old).classes choice.now.rest.now
            < moves_at (scratch_of self.old).classes choice.now + moves_left self.old) }
    {
        let Some((row, rows)) = first_of_outline(choice.rows, choice.outline) else {
            return Ok(false);
        };
        self.push_choice(Choice { rows, ..*choice })?;
        self.enter(row, &choice.from, choice.slots)
    }

    // Leaves the choice for later, if it has rows.
    fn push_choice(&mut self, choice: Choice<'a>) -> Result<(), AllocError>
        requires choice { IsChoice (scratch_of self.old) choice }
        requires choices { HasChoices self.old }
        ensures answers { OnOk result (answers_left self.new
            ≡ answers_of_choice (scratch_of self.old) choice.entry ++ answers_left self.old) }
        ensures choices { OnOk result (HasChoices self.new) }
        ensures kept { OnOk result (scratch_of self.new ≡ scratch_of self.old) }
        ensures moves { OnOk result (moves_left self.new
            ≤ moves_at (scratch_of self.old).classes choice.entry + moves_left self.old) }
    {
        if choice.rows.is_empty() {
            return Ok(());
        }
        self.choices.push(choice)?;
        Ok(())
    }
}
