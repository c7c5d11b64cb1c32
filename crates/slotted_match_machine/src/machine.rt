//! The state of the machine as it runs: what was entered, paired and taken so far.
ghost use Rattle.std.specs.Prelude.{◌≡◌, IfOk, OnOk, Some, None, if◌then◌else◌, IsTrue};
ghost use Rattle.slotted_match_machine.specs.Machine.{started, after_row, occurrence_at, with_variable};
ghost use Rattle.slotted_match_machine.specs.Views.{IsIn, names_at, occurrence_of};
ghost use Rattle.slotted_match_machine.specs.Scratch.{IsReadable, Extends, scratch_of, state_of, mark_of, cut_to};
ghost use Rattle.slotted_match_machine.specs.Answers.{answer_of, answered};

use crate::answer::Answer;
use crate::index::{IndexRow, RowIndex};
use crate::names::{Frame, Names, name_numbers, name_slots};
use crate::pairing::pair_all;
use crate::program::{Source, Step};
use crate::view::{Register, View, occurrences};
use std::alloc::{AllocError, Global};

/// The machine. Its lists grow when a row is entered or a variable takes a value, and are cut when the machine
/// backtracks.
#[derive(Drop)]
pub struct Machine<'a> {
    pub alloc: Global,
    pub index: &'a RowIndex,
    pub root: View<'a>,
    pub registers: Vec<Register<'a>>,
    pub frames: Vec<usize>,
    pub pairs: Vec<(usize, usize)>,
    pub values: Vec<View<'a>>,
    pub count: usize,
    pub choices: Vec<Choice<'a>>,
}

/// The lengths of the lists before a row was entered.
#[derive(Clone, Copy)]
pub struct Mark {
    pub registers: usize,
    pub frames: usize,
    pub pairs: usize,
    pub values: usize,
    pub count: usize,
}

/// A choice point: rows of a class that are still to be visited for a node of the pattern, and the steps after it.
#[derive(Clone, Copy)]
pub struct Choice<'a> {
    pub mark: Mark,
    pub from: View<'a>,
    pub outline: usize,
    pub slots: &'a [usize],
    pub rows: &'a [IndexRow],
    pub rest: &'a [Step],
}

impl<'a> Machine<'a> {
    /// Returns a machine that holds nothing.
    pub fn new(alloc: Global, index: &'a RowIndex) -> Self
        ensures { (scratch_of result).classes ≡ index.now.classes.items }
    {
        Machine {
            alloc,
            index,
            root: View::nothing(),
            registers: Vec::new(alloc),
            frames: Vec::new(alloc),
            pairs: Vec::new(alloc),
            values: Vec::new(alloc),
            count: 0,
            choices: Vec::new(alloc),
        }
    }

    /// Forgets what the machine held, and begins at a class under names of its slots.
    pub fn start(&mut self, class: usize) -> Result<(), AllocError>
        ensures started { OnOk result (state_of (scratch_of self.new) ≡ started (scratch_of self.old).classes class) }
        ensures readable { OnOk result (IsReadable (scratch_of self.new)) }
        ensures classes { OnOk result ((scratch_of self.new).classes ≡ (scratch_of self.old).classes) }
    {
        let slot_count = self.index.slot_count(class);
        self.registers.clear();
        self.pairs.clear();
        self.values.clear();
        name_slots(&mut self.frames, slot_count)?;
        let frame = Frame {
            start: 0,
            count: slot_count,
        };
        self.root = View::of_frame(class, frame);
        self.count = slot_count;
        Ok(())
    }

    /// Returns the occurrence at which a step looks.
    pub fn view(&self, from: Source) -> View<'a>
        requires { IsReadable (scratch_of self.now) }
        ensures reads { occurrence_of self.now.frames.items result ≡ occurrence_at (state_of (scratch_of self.now)) from }
        ensures names { IsIn self.now.frames.items result.names.frame }
    {
        if from.register == 0 {
            return if from.child == 0 {
                self.root
            } else {
                View::nothing()
            };
        }
        match self.registers.get(from.register - 1) {
            Some(register) => register.child(from.child),
            None => View::nothing(),
        }
    }

    /// Returns a copy of what was paired and taken.
    pub fn answer(&self) -> Result<Answer, AllocError>
        requires { IsReadable (scratch_of self.now) }
        ensures { IfOk result (λ a. answer_of a ≡ answered (state_of (scratch_of self.now))) }
    {
        Ok(Answer {
            values: occurrences(self.alloc, &self.frames, &self.values)?,
            pairs: self.pairs.iter().rev().copied().collect(self.alloc)?,
        })
    }

    /// Returns a mark to come back to.
    pub fn mark(&self) -> Mark
        ensures { result ≡ mark_of (scratch_of self.now) }
    {
        Mark {
            registers: self.registers.len(),
            frames: self.frames.len(),
            pairs: self.pairs.len(),
            values: self.values.len(),
            count: self.count,
        }
    }

    /// Backtracks to where the mark was made.
    pub fn backtrack(&mut self, mark: Mark)
        ensures cut { scratch_of self.new ≡ cut_to mark (scratch_of self.old) }
        ensures choices { self.new.choices.items ≡ self.old.choices.items }
    {
        self.registers.truncate(mark.registers);
        self.frames.truncate(mark.frames);
        self.pairs.truncate(mark.pairs);
        self.values.truncate(mark.values);
        self.count = mark.count;
    }

    /// Names the numbers of a row, and pairs its own names and binders with slots of the pattern.
    ///
    /// Returns whether they can be paired. If so, the row is in the next register.
    pub fn enter(
        &mut self,
        row: &'a IndexRow,
        from: &View<'_>,
        slots: &[usize],
    ) -> Result<bool, AllocError>
        requires readable { IsReadable (scratch_of self.old) }
        requires names { IsIn self.old.frames.items from.now.names.frame }
        ensures entered { IfOk result (λ y.
            after_row (state_of (scratch_of self.old)) (names_at self.old.frames.items from.now.names) row.now slots.now
            ≡ (if y then Some (state_of (scratch_of self.new)) else None)) }
        ensures readable { IfOk result (λ y. IsTrue y → IsReadable (scratch_of self.new)) }
        ensures extends { OnOk result (Extends (scratch_of self.old) (scratch_of self.new)) }
        ensures choices { OnOk result (self.new.choices.items ≡ self.old.choices.items) }
    {
        let frame = Frame {
            start: self.frames.len(),
            count: row.slots.len(),
        };
        self.count = name_numbers(&mut self.frames, &from.names, &row.slots, self.count)?;
        let owns = Names {
            numbers: Some(&row.owns),
            frame,
        };
        if !pair_all(&mut self.pairs, &self.frames, &owns, slots)? {
            return Ok(false);
        }
        self.registers.push(Register {
            children: &row.children,
            frame,
        })?;
        Ok(true)
    }

    /// Lets the variable take the occurrence, if it took none before. Returns whether it has this occurrence then.
    pub fn take_value(&mut self, number: usize, from: &View<'a>) -> Result<bool, AllocError>
        requires readable { IsReadable (scratch_of self.old) }
        requires names { IsIn self.old.frames.items from.now.names.frame }
        ensures taken { IfOk result (λ y.
            with_variable (state_of (scratch_of self.old)) number (occurrence_of self.old.frames.items from.now)
            ≡ (if y then Some (state_of (scratch_of self.new)) else None)) }
        ensures readable { IfOk result (λ y. IsTrue y → IsReadable (scratch_of self.new)) }
        ensures extends { OnOk result (Extends (scratch_of self.old) (scratch_of self.new)) }
        ensures choices { OnOk result (self.new.choices.items ≡ self.old.choices.items) }
    {
        if let Some(value) = self.values.get(number) {
            return Ok(value.is_same(&self.frames, from));
        }
        self.values.push(*from)?;
        Ok(true)
    }
}
