//! Renamings: injective maps of names.
ghost use Rattle.std.specs.Prelude.{◌≡◌, ◌≢◌, ◌↔◌, ℕ, [], Some, IfOk, IsTrue, false, length};
ghost use Rattle.slotted_theory.specs.FiniteMaps.{value_of, HasValue, IsInjectiveMap};
ghost use Rattle.slotted_check.specs.Renamings.{Extends};

use std::alloc::{AllocError, Global};
use std::marker::Model;

/// An injective map of names. No value stands twice.
#[derive(Drop)]
pub struct Renaming {
    pairs: Vec<(usize, usize)>,
}

impl Model for Renaming {
    ghost use Rattle.std.specs.Prelude.{ℕ, List};
    ghost use Rattle.slotted_theory.specs.FiniteMaps.{IsInjectiveMap};

    ghost Value = { List (ℕ × ℕ) };

    ghost view = { λ a. a.pairs.items };

    ghost invariant = { λ a. IsInjectiveMap a.pairs.items };
}

// Returns the value of a name among some pairs.
fn value_among(pairs: &[(usize, usize)], name: usize) -> Option<usize>
    ensures { result ≡ value_of pairs.now name }
{
    let mut rest = pairs;
    while !rest.is_empty() {
        if rest[0].0 == name {
            return Some(rest[0].1);
        }
        rest = &rest[1..];
    }
    None
}

// Returns whether one of some pairs has the value.
fn is_value_among(pairs: &[(usize, usize)], value: usize) -> bool
    ensures { IsTrue result ↔ HasValue pairs.now value }
{
    let mut rest = pairs;
    while !rest.is_empty() {
        if rest[0].1 == value {
            return true;
        }
        rest = &rest[1..];
    }
    false
}

impl Renaming {
    /// Returns the map that has no name.
    pub fn new(alloc: Global) -> Self
        ensures { result ≡ [] }
    {
        Renaming {
            pairs: Vec::new(alloc),
        }
    }

    /// Returns how many names the map has.
    pub fn len(&self) -> usize
        ensures count { result ≡ length self.now }
        ensures injective { IsInjectiveMap self.now }
    {
        self.pairs.len()
    }

    /// Returns what a name becomes.
    pub fn value(&self, name: usize) -> Option<usize>
        ensures { result ≡ value_of self.now name }
    {
        value_among(&self.pairs, name)
    }

    /// Returns a number above all values, or the largest number. No step rests on it.
    pub fn above(&self) -> usize {
        let mut above = 0;
        for pair in &self.pairs {
            if pair.1 >= above {
                above = pair.1.saturating_add(1);
            }
        }
        above
    }

    /// Returns whether a name becomes a value. If the map has neither, they are added.
    pub fn join(&mut self, name: usize, value: usize) -> Result<bool, AllocError>
        ensures joined { IfOk result (λ b. IsTrue b → value_of self.new name ≡ Some value) }
        ensures extends { Extends self.old self.new }
        ensures injective { IsInjectiveMap self.new }
    {
        match self.value(name) {
            Some(old) => return Ok(old == value),
            None => (),
        }
        if is_value_among(&self.pairs, value) {
            return Ok(false);
        }
        self.pairs.push((name, value))?;
        Ok(true)
    }
}
