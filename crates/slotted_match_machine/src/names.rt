//! Names as they stand in frames.
ghost use Rattle.std.specs.Prelude.{◌≡◌, ◌+◌, ◌≤◌, ◌++◌, ℕ, List, length, slice_index, IfOk, OnOk};
ghost use Rattle.std.specs.List.{range_with_len};
ghost use Rattle.slotted_theory.specs.Decided.{numbers_eq};
ghost use Rattle.slotted_match_machine.specs.Machine.{names_for, new_names};
ghost use Rattle.slotted_match_machine.specs.Views.{IsIn, names_at, number_at};

use std::alloc::{AllocError, Global};

/// The place of the names of a row, one for each of its numbers.
#[derive(Clone, Copy)]
pub struct Frame {
    pub start: usize,
    pub count: usize,
}

/// The names of a frame: all of them in order, or those of these numbers.
#[derive(Clone, Copy)]
pub struct Names<'a> {
    pub numbers: Option<&'a [usize]>,
    pub frame: Frame,
}

impl Names<'_> {
    /// Returns the number of names.
    pub fn len(&self) -> usize
        ensures { (frames : List ℕ) → IsIn frames self.now.frame → result ≡ length (names_at frames self.now) }
    {
        match self.numbers {
            Some(numbers) => numbers.len(),
            None => self.frame.count,
        }
    }

    // Returns the number of the name at a position, and one past the frame if there is none.
    fn number(&self, position: usize) -> usize
        ensures { result ≡ number_at self.now position }
    {
        match self.numbers {
            Some(numbers) => numbers.get(position).copied().unwrap_or(self.frame.count),
            None => position,
        }
    }

    /// Returns the name at a position, and 0 past the end.
    pub fn get(&self, frames: &[usize], position: usize) -> usize
        requires { IsIn frames.now self.now.frame }
        ensures { result ≡ slice_index (names_at frames.now self.now) position }
    {
        let number = self.number(position);
        if number < self.frame.count {
            frames[self.frame.start + number]
        } else {
            0
        }
    }

    /// Returns whether the names are the same, one after another.
    pub fn are_same(&self, frames: &[usize], other: &Names<'_>) -> bool
        requires own { IsIn frames.now self.now.frame }
        requires other { IsIn frames.now other.now.frame }
        ensures { result ≡ numbers_eq (names_at frames.now self.now) (names_at frames.now other.now) }
    {
        if self.len() != other.len() {
            return false;
        }
        for position in 0..self.len() {
            if self.get(frames, position) != other.get(frames, position) {
                return false;
            }
        }
        true
    }

    /// Returns a copy of the names.
    pub fn to_vec(&self, alloc: Global, frames: &[usize]) -> Result<Vec<usize>, AllocError>
        requires { IsIn frames.now self.now.frame }
        ensures { IfOk result (λ v. v.items ≡ names_at frames.now self.now) }
    {
        let mut copy = Vec::new(alloc);
        for position in 0..self.len() {
            copy.push(self.get(frames, position))?;
        }
        Ok(copy)
    }
}

/// Forgets all frames but one, in which 0, 1 and so on are the names.
pub fn name_slots(frames: &mut Vec<usize>, count: usize) -> Result<(), AllocError>
    ensures { OnOk result (frames.new.items ≡ range_with_len 0 count) }
{
    frames.clear();
    for name in 0..count {
        frames.push(name)?;
    }
    Ok(())
}

/// Adds a frame for a row. Its numbers stand for these slots of a class, or for none: then the name is a new one.
///
/// Returns how many names there are then.
pub fn name_numbers(
    frames: &mut Vec<usize>,
    names: &Names<'_>,
    slots: &[usize],
    count: usize,
) -> Result<usize, AllocError>
    requires names { IsIn frames.old.items names.now.frame }
    requires count { count ≤ length frames.old.items }
    ensures frames { OnOk result (frames.new.items
        ≡ frames.old.items ++ names_for (names_at frames.old.items names.now) slots.now count) }
    ensures count { IfOk result (λ n. n ≡ count + new_names slots.now) }
{
    let mut count = count;
    for slot in slots {
        match slot.checked_sub(1) {
            Some(position) => frames.push(names.get(frames, position))?,
            None => {
                frames.push(count)?;
                count += 1;
            }
        }
    }
    Ok(count)
}
