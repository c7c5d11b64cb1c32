//! The scopes that are open in a term, and what names are under them.
ghost use Rattle.std.specs.Prelude.{◌≡◌, ◌<◌, ◌+◌, ◌-◌, ◌≤◌, ℕ, [], ◌∷◌, cond, nat_eq, length, false, IfSome, IsTrue, OnOk};
ghost use Rattle.std.specs.List.{slice_index_or};
ghost use Rattle.slotted_certificates.specs.Scopes.{numbering};

use std::alloc::{AllocError, Global};
use std::marker::Model;

/// The names of the scopes that are open, the innermost one first.
#[derive(Drop)]
pub struct Scopes {
    // For each name the number of scopes up to the innermost one that binds it, and 0 if none does.
    levels: Vec<usize>,
    // For each scope, the innermost one last, its name and the level that the name had before.
    opened: Vec<(usize, usize)>,
}

impl Model for Scopes {
    ghost use Rattle.std.specs.Prelude.{ℕ, List, []};
    ghost use Rattle.slotted_certificates.specs.Scopes.{AreLevels, names, turned};

    ghost Value = { List ℕ };

    ghost view = { λ s. names (turned s.opened.items []) };

    ghost invariant = { λ s. AreLevels s.opened.items s.levels.items };
}

// Returns the level of a name.
fn level_of(levels: &Vec<usize>, name: usize) -> usize
    ensures { result ≡ slice_index_or levels.now.items name 0 }
{
    if name < levels.len() {
        return levels[name];
    }
    0
}

// Returns how many scopes are open.
fn depth_of(opened: &Vec<(usize, usize)>) -> usize
    ensures { result ≡ length opened.now.items }
{
    opened.len()
}

// Returns whether there is room for the level of a name.
fn has_room(levels: &Vec<usize>, name: usize) -> bool
    ensures yes { IsTrue result → name < length levels.now.items }
    ensures no { result ≡ false → length levels.now.items ≤ name }
{
    name < levels.len()
}

// Makes room for the level of a name.
fn make_room(levels: &mut Vec<usize>, name: usize) -> Result<(), AllocError>
    ensures room { OnOk result (name < length levels.new.items) }
    ensures same { (y : ℕ) → slice_index_or levels.new.items y 0 ≡ slice_index_or levels.old.items y 0 }
{
    while levels.len() <= name {
        levels.push(0)?;
    }
    Ok(())
}

// Gives a name a level.
fn set_level(levels: &mut Vec<usize>, name: usize, level: usize)
    requires { name < length levels.old.items }
    ensures { (y : ℕ) → slice_index_or levels.new.items y 0 ≡ cond (nat_eq y name) level (slice_index_or levels.old.items y 0) }
{
    levels[name] = level;
}

// Returns a sum, unless it is too large.
fn sum(a: usize, b: usize) -> Option<usize>
    ensures { IfSome result (λ n. n ≡ a + b) }
{
    a.checked_add(b)
}

// Returns a difference, if there is one.
fn difference(a: usize, b: usize) -> Option<usize>
    ensures { IfSome result (λ n. n ≡ a - b) }
{
    a.checked_sub(b)
}

impl Scopes {
    /// Returns no scopes.
    pub fn new(alloc: Global) -> Self
        ensures { result ≡ [] }
    {
        Scopes {
            levels: Vec::new(alloc),
            opened: Vec::new(alloc),
        }
    }

    /// Returns what a name is under the scopes: the place of the innermost one that binds it, or else a free name.
    /// There is none if the number is too large.
    pub fn number(&self, name: usize) -> Option<usize>
        ensures { IfSome result (λ n. n ≡ numbering self.now name) }
    {
        let depth = depth_of(&self.opened);
        let level = level_of(&self.levels, name);
        if level == 0 {
            return sum(depth, name);
        }
        difference(depth, level)
    }

    /// Opens the scope of a name.
    pub fn enter(&mut self, name: usize) -> Result<(), AllocError>
        ensures entered { OnOk result (self.new ≡ name ∷ self.old) }
    {
        make_room(&mut self.levels, name)?;
        let level = level_of(&self.levels, name);
        self.opened.push((name, level))?;
        set_level(&mut self.levels, name, depth_of(&self.opened));
        Ok(())
    }

    /// Ends the innermost scope. Returns its name, if there was one.
    pub fn leave(&mut self) -> Option<usize>
        ensures left { IfSome result (λ x. self.old ≡ x ∷ self.new) }
    {
        let Some((name, before)) = self.opened.pop() else {
            return None;
        };
        if has_room(&self.levels, name) {
            set_level(&mut self.levels, name, before);
        }
        Some(name)
    }
}
