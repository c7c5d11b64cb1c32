//! The data of classes, and what is kept to carry it along.
ghost use Rattle.std.specs.Prelude.{◌≡◌, ◌<◌, ◌≤◌, ◌^◌, ◌++◌, ◌∷◌, [], length, set, slice_get, slice_index_or, Some};
ghost use Rattle.std.specs.Prelude.{IfErr, IfOk, OnOk};
ghost use Rattle.slotted_slots.specs.Error.{IsOutOfMemory};
ghost use Rattle.slotted_data.specs.Held.{HasNewValue, HasValue, no_values, users_of, with_carried, with_entered};
ghost use Rattle.slotted_data.specs.Held.{with_none_changed, with_user, with_users_taken};
ghost use Rattle.slotted_data.specs.Counted.{with_turns};
ghost use Rattle.slotted_classes.specs.Counts.{last_count};

use slotted_classes::RebuildCount;
use slotted_hashcons::Worklist;
use slotted_slots::Error;
use std::alloc::Global;
use std::marker::Model;
use std::mem;

/// For each class its data, and its users: the sources of e-nodes with a child that `find` maps to the class.
///
/// With these stand the number of classes that are entered as users, the number of deaths that have been carried, and
/// the classes that wait to be modified. A flag tells whether some class had data of a height above 0 when it was made.
/// The turns that are taken for data are counted.
///
/// After memory was refused, nothing is known of all this.
#[derive(Drop)]
pub struct ClassData<D> {
    values: Vec<D>,
    users: Vec<Vec<u32>>,
    entered: usize,
    changed: Worklist,
    carried: usize,
    tall: bool,
    // The last turns for data that followed one another. The sizes are heights, less those that were left.
    count: RebuildCount,
    total_turns: u64,
    total_bound: u128,
    // The totals over all other rebuilds when these turns were taken.
    rebuilt: (u64, u128),
}

/// Turns that were taken for data, and by how much the heights of the data of live classes fell.
#[derive(Clone, Copy)]
pub(crate) struct Taken {
    pub(crate) turns: u64,
    pub(crate) fall: u64,
}

impl<D> Model for ClassData<D> {
    ghost use Rattle.std.specs.Prelude.{map};
    ghost use Rattle.slotted_classes.specs.Counts.{counts_of};
    ghost use Rattle.slotted_data.specs.Held.{FitsValues, Held};

    ghost Value = { Held D };

    ghost view = { λ s. record {
      values = s.values.items;
      users = map (λ v. v.items) s.users.items;
      entered = s.entered;
      changed = s.changed.queue;
      carried = s.carried;
      tall = s.tall;
      counts = record { own = counts_of s.count s.total_turns s.total_bound; rebuilt = s.rebuilt };
    } };

    ghost invariant = { λ s. FitsValues s.values.items (map (λ v. v.items) s.users.items) s.changed };
}

impl<D: Drop> ClassData<D> {
    /// Returns the data of a graph without classes.
    pub fn new(alloc: Global) -> Self
        ensures { result ≡ no_values }
    {
        ClassData {
            values: Vec::new(alloc),
            users: Vec::new(alloc),
            entered: 0,
            changed: Worklist::new(alloc),
            carried: 0,
            tall: false,
            count: RebuildCount {
                nodes: 0,
                size_before: 0,
                size_after: 0,
                turns: 0,
            },
            total_turns: 0,
            total_bound: 0,
            rebuilt: (0, 0),
        }
    }

    /// Returns how many classes have data.
    pub fn count(&self) -> usize
        ensures count { result ≡ length self.now.values }
        ensures few { result < 2 ^ 63 }
    {
        self.values.len()
    }

    /// Returns the data of a class.
    pub fn value(&self, class: usize) -> &D
        requires { class < length self.now.values }
        ensures { slice_get self.now.values class ≡ Some result.now }
    {
        &self.values[class]
    }

    /// Returns how many classes wait to be modified, dead ones included.
    pub fn changed_count(&self) -> usize
        ensures { result ≡ length self.now.changed }
    {
        self.changed.len()
    }

    /// Returns the class at a place among those that wait to be modified, in the order in which they came.
    pub fn changed_at(&self, k: usize) -> Option<usize>
        ensures { result ≡ slice_get self.now.changed k }
    {
        self.changed.get(k)
    }

    /// Removes and returns the classes that wait to be modified, in the order in which they came.
    pub fn take_changed(&mut self, alloc: Global) -> Result<Vec<usize>, Error>
        ensures ok { IfOk result (λ v. v.items ≡ self.old.changed) }
        ensures left { OnOk result (self.new ≡ with_none_changed self.old) }
        ensures err { IfErr result IsOutOfMemory }
    {
        drain(alloc, &mut self.changed)
    }

    /// Returns what the last turns for data did, as a rebuild whose sizes are heights, less those that were left.
    pub fn last_turns(&self) -> RebuildCount
        ensures { result ≡ last_count self.now.counts.own }
    {
        self.count
    }

    /// Returns how many turns for data were taken in all, and how many their bounds allow. A sum that would be too
    /// large stays at the largest number.
    pub fn turn_totals(&self) -> (u64, u128)
        ensures { result ≡ (self.now.counts.own.total_turns, self.now.counts.own.total_bound) }
    {
        (self.total_turns, self.total_bound)
    }

    /// Returns the totals over all other rebuilds when the last turns for data were taken.
    pub fn rebuilt(&self) -> (u64, u128)
        ensures { result ≡ self.now.counts.rebuilt }
    {
        self.rebuilt
    }

    // Single writes, each with an exact clause.

    // Notes turns for data, if any were taken, with the number of filed e-nodes and the totals of other rebuilds.
    pub(crate) fn note_turns(&mut self, nodes: usize, taken: Taken, totals: (u64, u128))
        ensures { self.new ≡ with_turns self.old nodes taken.fall taken.turns totals }
    {
        if taken.turns == 0 {
            return;
        }
        let fall = taken.fall as u128;
        let bound = (nodes as u128).saturating_mul(fall + 1);
        self.count = RebuildCount {
            nodes,
            size_before: fall,
            size_after: 0,
            turns: taken.turns,
        };
        self.total_turns = self.total_turns.saturating_add(taken.turns);
        self.total_bound = self.total_bound.saturating_add(bound);
        self.rebuilt = totals;
    }

    // Adds the data of the next class. No e-node is over the class yet, and the class waits to be modified.
    pub(crate) fn add(&mut self, alloc: Global, value: D, is_tall: bool) -> Result<(), Error>
        ensures ok { OnOk result (HasNewValue self.old self.new value is_tall) }
        ensures err { IfErr result IsOutOfMemory }
    {
        let class = self.values.len();
        self.changed.add_class()?;
        self.changed.push(class)?;
        self.users.push(Vec::new(alloc))?;
        self.values.push(value)?;
        self.tall = self.tall || is_tall;
        Ok(())
    }

    // Sets the data of a class, which waits to be modified from then on.
    pub(crate) fn set(&mut self, class: usize, value: D) -> Result<(), Error>
        requires { class < length self.old.values }
        ensures ok { OnOk result (HasValue self.old self.new class value) }
        ensures err { IfErr result IsOutOfMemory }
    {
        self.changed.push(class)?;
        self.values[class] = value;
        Ok(())
    }

    // Adds a source to the users of a class.
    pub(crate) fn add_user(&mut self, class: usize, source: u32) -> Result<(), Error>
        requires { class < length self.old.values }
        ensures ok { OnOk result (self.new ≡ with_user self.old class source) }
        ensures lists { length self.old.values ≤ length self.old.users }
        ensures err { IfErr result IsOutOfMemory }
    {
        self.users[class].push(source)?;
        Ok(())
    }

    // Removes and returns the users of a class.
    pub(crate) fn take_users(&mut self, alloc: Global, class: usize) -> Vec<u32>
        requires { class < length self.old.values }
        ensures taken { result.items ≡ users_of self.old class }
        ensures left { self.new ≡ with_users_taken self.old class }
    {
        mem::replace(&mut self.users[class], Vec::new(alloc))
    }

    // Returns the users of a class.
    pub(crate) fn users(&self, class: usize) -> &[u32]
        requires { class < length self.now.values }
        ensures { result.now ≡ users_of self.now class }
    {
        &self.users[class]
    }

    // Returns how many classes are entered as users of their children's classes.
    pub(crate) fn entered(&self) -> usize
        ensures { result ≡ self.now.entered }
    {
        self.entered
    }

    // Sets how many classes are entered as users of their children's classes.
    pub(crate) fn set_entered(&mut self, entered: usize)
        ensures { self.new ≡ with_entered self.old entered }
    {
        self.entered = entered;
    }

    // Returns how many deaths have been carried.
    pub(crate) fn carried(&self) -> usize
        ensures { result ≡ self.now.carried }
    {
        self.carried
    }

    // Sets how many deaths have been carried.
    pub(crate) fn set_carried(&mut self, carried: usize)
        ensures { self.new ≡ with_carried self.old carried }
    {
        self.carried = carried;
    }

    // Returns whether some class had data of a height above 0 when it was made.
    pub(crate) fn is_tall(&self) -> bool
        ensures { result ≡ self.now.tall }
    {
        self.tall
    }
}

// Removes and returns the classes of a list, in the order in which they came.
fn drain(alloc: Global, waiting: &mut Worklist) -> Result<Vec<usize>, Error>
    ensures ok { IfOk result (λ v. v.items ≡ waiting.old.queue) }
    ensures left { OnOk result (waiting.new.queue ≡ []) }
    ensures count { waiting.new.count ≡ waiting.old.count }
    ensures err { IfErr result IsOutOfMemory }
{
    let mut taken = Vec::new(alloc);
    while let Some(class) = waiting.pop() {
        taken.push(class)?;
    }
    Ok(taken)
}
