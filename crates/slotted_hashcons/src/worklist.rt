//! The pending list: classes that wait for their turn, in the order in which they came, each once.
ghost use Rattle.std.specs.Prelude.{◌≡◌, ◌<◌, ◌↔◌, [], length, IsTrue, IfSome, IfNone, IfErr, OnOk, OnErr, Contains, slice_get};
ghost use Rattle.slotted_model.specs.Correspondence.{AllDifferent};
ghost use Rattle.slotted_slots.specs.Error.{IsOutOfMemory};
ghost use Rattle.slotted_hashcons.specs.Waiting.{nobody, with_one_more, Pushes, Pops};

use slotted_slots::Error;
use std::alloc::Global;
use std::collections::VecDeque;
use std::marker::Model;

/// The pending classes, first in, first out, each once. A flag for each class says whether it is pending.
#[derive(Drop)]
pub struct Worklist {
    queue: VecDeque<usize>,
    waits: Vec<bool>,
}

impl Model for Worklist {
    ghost use Rattle.std.specs.Prelude.{length};
    ghost use Rattle.slotted_hashcons.specs.Waiting.{Waiting, HasFlags, waiting_code};

    ghost Value = { Waiting };

    ghost coded = { waiting_code };

    ghost view = { λ w. record { count = length w.waits.items; queue = w.queue.items } };

    ghost invariant = { λ w. HasFlags w.waits.items w.queue.items };
}

impl Worklist {
    /// Returns the list without classes.
    pub fn new(alloc: Global) -> Self
        ensures { result ≡ nobody }
    {
        Worklist {
            queue: VecDeque::new(alloc),
            waits: Vec::new(alloc),
        }
    }

    /// Returns the number of classes, pending or not.
    pub fn count(&self) -> usize
        ensures { result ≡ self.now.count }
    {
        self.waits.len()
    }

    /// Adds a class that is not pending.
    pub fn add_class(&mut self) -> Result<(), Error>
        ensures ok { OnOk result (self.new ≡ with_one_more self.old) }
        ensures unchanged { OnErr result (self.new ≡ self.old) }
        ensures err { IfErr result IsOutOfMemory }
    {
        self.waits.push(false)?;
        Ok(())
    }

    /// Returns whether a class is pending. Takes no memory.
    pub fn waits(&self, class: usize) -> bool
        ensures { IsTrue result ↔ Contains self.now.queue class }
    {
        if class >= self.waits.len() {
            return false;
        }
        self.waits[class]
    }

    /// Returns the class whose turn is next. Each is pending once.
    pub fn front(&self) -> Option<usize>
        ensures front { result ≡ slice_get self.now.queue 0 }
        ensures once { AllDifferent self.now.queue }
    {
        self.queue.front().copied()
    }

    /// Returns the class at a place among the pending ones.
    pub fn get(&self, k: usize) -> Option<usize>
        ensures { result ≡ slice_get self.now.queue k }
    {
        self.queue.get(k).copied()
    }

    /// Returns the number of pending classes.
    pub fn len(&self) -> usize
        ensures { result ≡ length self.now.queue }
    {
        self.queue.len()
    }

    /// Makes a class pending. A class that was not pending goes to the end.
    pub fn push(&mut self, class: usize) -> Result<(), Error>
        requires { class < self.old.count }
        ensures ok { OnOk result (Pushes self.old self.new class) }
        ensures unchanged { OnErr result (self.new ≡ self.old) }
        ensures err { IfErr result IsOutOfMemory }
    {
        if self.waits[class] {
            return Ok(());
        }
        self.queue.push_back(class)?;
        self.waits[class] = true;
        Ok(())
    }

    /// Removes the class whose turn is next, and returns it.
    pub fn pop(&mut self) -> Option<usize>
        ensures some { IfSome result (Pops self.old self.new) }
        ensures none { IfNone result ((self.old.queue ≡ []) × (self.new ≡ self.old)) }
    {
        let class = self.queue.pop_front()?;
        self.waits[class] = false;
        Some(class)
    }
}
