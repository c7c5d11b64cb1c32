//! Occurrences as they are read: their names stand in frames.
ghost use Rattle.std.specs.Prelude.{◌≡◌, ◌+◌, ◌≤◌, ℕ, List, slice_index_or, map, IfOk};
ghost use Rattle.std.specs.List.{All};
ghost use Rattle.slotted_match_machine.specs.Machine.{no_occurrence, same_occurrence};
ghost use Rattle.slotted_match_machine.specs.Views.{IsIn, occurrence_of, occurrences_in};
ghost use Rattle.slotted_match_machine.specs.Answers.{occurrence_in};

use crate::answer::Occurrence;
use crate::index::IndexChild;
use crate::names::{Frame, Names};
use std::alloc::{AllocError, Global};

/// A class with a name for each of its slots.
#[derive(Clone, Copy)]
pub struct View<'a> {
    pub class: usize,
    pub names: Names<'a>,
}

impl View<'_> {
    /// Returns a class with all names of a frame.
    pub fn of_frame(class: usize, frame: Frame) -> Self
        ensures { result ≡ record { class = class; names = record { numbers = None; frame = frame } } }
    {
        let names = Names {
            numbers: None,
            frame,
        };
        View { class, names }
    }

    /// Returns what is read past the end of a list.
    pub fn nothing() -> Self
        ensures reads { (frames : List ℕ) → occurrence_of frames result ≡ no_occurrence }
        ensures frame { result.names.frame.start + result.names.frame.count ≡ 0 }
    {
        View::of_frame(0, Frame { start: 0, count: 0 })
    }

    /// Returns whether both are one occurrence.
    pub fn is_same(&self, frames: &[usize], other: &View<'_>) -> bool
        requires own { IsIn frames.now self.now.names.frame }
        requires other { IsIn frames.now other.now.names.frame }
        ensures { result ≡ same_occurrence (occurrence_of frames.now self.now) (occurrence_of frames.now other.now) }
    {
        self.class == other.class && self.names.are_same(frames, &other.names)
    }

    // Returns a copy of the occurrence.
    fn occurrence(&self, alloc: Global, frames: &[usize]) -> Result<Occurrence, AllocError>
        requires { IsIn frames.now self.now.names.frame }
        ensures { IfOk result (λ o. occurrence_in o ≡ occurrence_of frames.now self.now) }
    {
        Ok(Occurrence {
            class: self.class,
            names: self.names.to_vec(alloc, frames)?,
        })
    }
}

/// The children of a row that was entered, and the frame in which their names stand.
#[derive(Clone, Copy)]
pub struct Register<'a> {
    pub children: &'a [IndexChild],
    pub frame: Frame,
}

impl<'a> Register<'a> {
    /// Returns the occurrence at a child.
    pub fn child(&self, number: usize) -> View<'a>
        ensures reads { (frames : List ℕ) → occurrence_of frames result
            ≡ slice_index_or (occurrences_in frames self.now) number no_occurrence }
        ensures frame { result.names.frame.start + result.names.frame.count ≤ self.now.frame.start + self.now.frame.count }
    {
        let Some(child) = self.children.get(number) else {
            return View::nothing();
        };
        let names = Names {
            numbers: Some(&child.numbers),
            frame: self.frame,
        };
        View {
            class: child.class,
            names,
        }
    }
}

/// Returns copies of the occurrences.
pub fn occurrences(
    alloc: Global,
    frames: &[usize],
    views: &[View<'_>],
) -> Result<Vec<Occurrence>, AllocError>
    requires { All (λ v. IsIn frames.now v.names.frame) views.now }
    ensures { IfOk result (λ o. map occurrence_in o.items ≡ map (occurrence_of frames.now) views.now) }
{
    let mut copies = Vec::new(alloc);
    for view in views {
        copies.push(view.occurrence(alloc, frames)?)?;
    }
    Ok(copies)
}
