//! Slots, and the table that makes them.
//!
//! A slot is a number. A multiple of four is a numeric slot (`$3`), one more is a fresh slot (`$f3`), and two more
//! has a name (`$x`).
ghost use Rattle.std.specs.Prelude.{◌≡◌, ℕ, ◌+◌, ◌^◌, ◌<◌, ◌≤◌, ◌↔◌, IsTrue, IfOk, IfErr, OnErr, IsErrOf, IsOkUnless, false, None, Some, Option, List, ◌++◌, slice_get, codes};
ghost use Rattle.std.specs.Fmt.{DisplaysOnOk};
ghost use Rattle.std.specs.Option.{option_copied};
ghost use Rattle.slotted_slots.specs.Naming.{IsNamingRefusal, Follows};
ghost use Rattle.slotted_slots.specs.Table.{Table, empty_table, numeric_slot, fresh_slot, reads_u32, reads_fresh, named_of, fresh_outcome, word_outcome, place_of, reading_of, as_word, gives, too_large, no_place, is_known, KnowsMore, IsTable, ReadsBack, shown_slot, slot_limit, kept_outcome, IsNewName, PrintsWord};

use crate::Error;
use indexmap::IndexSet;
use std::alloc::Global;
use std::fmt;
use std::marker::Model;

/// The name of a free or a bound variable, seen as its raw number. Slots are made by a `SlotTable`.
#[derive(Clone, Copy, Debug, Default, PartialEq, Eq, PartialOrd, Ord, Hash)]
pub struct Slot(u32);

impl Model for Slot {
    ghost use Rattle.std.specs.Prelude.{ℕ};

    ghost Value = { ℕ };

    ghost view = { λ s. s.0 };

    ghost inverse = { λ n. record { 0 = n } };
}

/// The bound of the numbers of numeric and fresh slots, and of the places of names.
const LIMIT: u32 = 1 << 30;

impl Slot {
    /// Returns the raw number, by which slots are ordered.
    pub const fn raw(self) -> u32
        ensures { result ≡ self }
    {
        self.0
    }

    /// Returns the numeric slot `$n` of a number that is known to be small.
    ///
    /// Only the crates of this library call it: users call `SlotTable::numeric`.
    pub const fn numeric_at(n: u32) -> Slot
        requires { n < slot_limit }
        ensures { result ≡ numeric_slot n }
    {
        Slot(4 * n)
    }
}

/// The table of the slots of one graph: the number of fresh slots that were made, and the names.
#[derive(Debug, Drop)]
pub struct SlotTable {
    fresh: u32,
    names: IndexSet<String>,
}

impl Model for SlotTable {
    ghost use Rattle.std.specs.Prelude.{map, string_bytes};
    ghost use Rattle.slotted_slots.specs.Table.{Table, IsTable};

    ghost Value = { Table };

    ghost view = { λ t. record { fresh = t.fresh; names = map string_bytes t.names.keys } };

    ghost invariant = { λ t. IsTable (record { fresh = t.fresh; names = map string_bytes t.names.keys }) };
}

impl SlotTable {
    /// Returns a table that knows the numeric slots alone. Takes no memory.
    pub fn new(alloc: Global) -> SlotTable
        ensures empty { result ≡ empty_table }
        ensures table { IsTable result }
    {
        SlotTable {
            fresh: 0,
            names: IndexSet::new(alloc),
        }
    }

    /// Returns a slot that was never made before. Takes no memory.
    pub fn fresh(&mut self) -> Result<Slot, Error>
        ensures slot { IfOk result (λ s. s ≡ fresh_slot self.old.fresh) }
        ensures moved { IfOk result (λ s. self.new ≡ record self.old { fresh = self.old.fresh + 1 }) }

        // The slot was unknown before and is known from now on, as is all that was known.
        ensures unused { IfOk result (λ s. is_known self.old s ≡ false) }
        ensures known { IfOk result (λ s. IsTrue (is_known self.new s)) }
        ensures more { KnowsMore self.old self.new }

        ensures full { IsErrOf result Error.OutOfSlots ↔ (self.old.fresh ≡ slot_limit) }
        ensures only { IsOkUnless result Error.OutOfSlots }
        ensures err { OnErr result (self.new ≡ self.old) }
        ensures table { IsTable self.new }
    {
        if self.fresh == LIMIT {
            return Err(Error::OutOfSlots);
        }
        let slot = Slot(4 * self.fresh + 1);
        self.fresh += 1;
        Ok(slot)
    }

    /// Returns the numeric slot `$u`.
    pub fn numeric(&self, u: u32) -> Result<Slot, Error>
        ensures slot { IfOk result (λ s. s ≡ numeric_slot u) }
        ensures known { IfOk result (λ s. IsTrue (is_known self.now s)) }
        ensures large { IsErrOf result Error.NumberTooLarge ↔ (slot_limit ≤ u) }
        ensures only { IsOkUnless result Error.NumberTooLarge }
        ensures table { IsTable self.now }
    {
        let _ = &self.fresh;
        if u < LIMIT {
            Ok(Slot(4 * u))
        } else {
            Err(Error::NumberTooLarge)
        }
    }

    /// Returns the slot of the text after a `$`, and keeps a new name.
    ///
    /// A number that Rust reads as a `u32` is a numeric slot, and an `f` before such a number is a fresh slot. All
    /// else is a name, which the table keeps once. Only a new name takes memory.
    pub fn named(&mut self, s: &str) -> Result<Slot, Error>
        ensures slot { IfOk result (λ slot. named_of self.old s.now ≡ gives slot self.new) }
        ensures large { IsErrOf result Error.NumberTooLarge ↔ (named_of self.old s.now ≡ too_large) }
        ensures full { IsErrOf result Error.OutOfSlots ↔ (named_of self.old s.now ≡ no_place) }
        ensures only { IfErr result IsNamingRefusal }
        ensures memory { IsErrOf result Error.OutOfMemory → IsNewName self.old s.now }
        ensures err { OnErr result (self.new ≡ self.old) }

        // The slot is known from now on, as is all that was known.
        ensures known { IfOk result (λ slot. IsTrue (is_known self.new slot)) }
        ensures more { KnowsMore self.old self.new }
        ensures table { IsTable self.new }

        // A name prints as it was given.
        ensures shown { IfOk result (PrintsWord self.new s.now) }
    {
        self.make_named(s)
    }

    /// Returns whether the table knows a slot: it is numeric, a fresh slot that was made, or a name of the table.
    pub fn knows(&self, s: Slot) -> bool
        ensures known { result ≡ is_known self.now s }
        ensures table { IsTable self.now }

        // A known slot is read back from the text that it prints.
        ensures reads_back { IsTrue result → ReadsBack self.now s }
    {
        let _ = &self.fresh;
        match s.0 % 4 {
            0 => true,
            1 => s.0 / 4 < self.fresh,
            2 => ((s.0 / 4) as usize) < self.names.len(),
            _ => false,
        }
    }

    // Returns the name at a place of the table.
    fn name(&self, i: u32) -> Option<&str>
        ensures { option_copied result ≡ slice_get self.now.names i }
    {
        match self.names.get_index(i as usize) {
            Some(name) => Some(name.as_str()),
            None => None,
        }
    }

    // Returns the slot that `named` returns, with one fact as the contract.
    fn make_named(&mut self, s: &str) -> Result<Slot, Error>
        ensures follows { Follows (named_of self.old s.now) self.old self.new result }
        ensures memory { IsErrOf result Error.OutOfMemory → IsNewName self.old s.now }
        ensures table { IsTable self.new }
    {
        match read_u32(s) {
            Some(n) => self.numeric(n),
            None => match read_fresh(s) {
                Some(n) => self.fresh_at(n),
                None => self.keep_name(s),
            },
        }
    }

    // Returns the fresh slot `$fn`, which counts as made from now on.
    fn fresh_at(&mut self, n: u32) -> Result<Slot, Error>
        ensures follows { Follows (fresh_outcome self.old n) self.old self.new result }
        ensures only { IsOkUnless result Error.NumberTooLarge }
        ensures table { IsTable self.new }
    {
        let _ = &self.fresh;
        if n >= LIMIT {
            return Err(Error::NumberTooLarge);
        }
        self.fresh = self.fresh.max(n + 1);
        Ok(Slot(4 * n + 1))
    }

    // Returns the slot of a name, and keeps a new name.
    fn keep_name(&mut self, s: &str) -> Result<Slot, Error>
        requires { reading_of s.now ≡ as_word }
        ensures follows { Follows (kept_outcome self.old s.now) self.old self.new result }
        ensures memory { IsErrOf result Error.OutOfMemory → place_of self.old.names s.now ≡ None }
        ensures table { IsTable self.new }
    {
        match self.names.get_index_of(s) {
            Some(i) => Ok(Slot(4 * i as u32 + 2)),
            None => self.push_name(s),
        }
    }

    // Keeps a new name, and returns its slot.
    fn push_name(&mut self, s: &str) -> Result<Slot, Error>
        requires word { reading_of s.now ≡ as_word }
        requires absent { place_of self.old.names s.now ≡ None }
        ensures follows { Follows (word_outcome self.old s.now None) self.old self.new result }
        ensures table { IsTable self.new }
    {
        let i = self.names.len() as u32;
        if i == LIMIT {
            return Err(Error::OutOfSlots);
        }
        let name = String::from_str(*self.names.allocator(), s)?;
        self.names.insert(name)?;
        Ok(Slot(4 * i + 2))
    }
}

/// A value that prints with the names of a table.
pub trait Show {
    // The bytes that the value prints, or `None` if the impl does not specify them.
    ghost shown: { Table → Self → Option (List ℕ) };

    /// Writes the value with the names of `table`. Returns `fmt::Error` if memory is refused.
    fn write_shown<W: fmt::Write>(
        &self,
        table: &SlotTable,
        f: &mut fmt::Formatter<W>,
    ) -> fmt::Result
    where
        Self: Sized,
        ensures { DisplaysOnOk W.write_str_gives f.old result (shown table.now self.now) f.new };

    /// Returns the value beside the table whose names it prints with.
    final fn show<'a>(&'a self, table: &'a SlotTable) -> Shown<'a, Self>
    where
        Self: Sized,
        ensures { result ≡ (self.now, table.now) }
    {
        Shown { value: self, table }
    }
}

/// A value beside the table whose names it prints with, seen as the pair of the two.
#[derive(Drop)]
pub struct Shown<'a, T> {
    value: &'a T,
    table: &'a SlotTable,
}

impl<'a, T> Model for Shown<'a, T> {
    ghost use Rattle.slotted_slots.specs.Table.{Table};

    ghost Value = { T × Table };

    ghost view = { λ s. (s.value.now, s.table.now) };
}

impl<'a, T: Show> fmt::Display for Shown<'a, T> {
    ghost output = { λ s. T.shown s.1 s.0 };

    fn fmt<W: fmt::Write>(&self, f: &mut fmt::Formatter<W>) -> fmt::Result {
        self.value.write_shown(self.table, f)
    }
}

/// Prints `$3`, `$f3`, or `$` and the name. Prints `$?` if the table has no such name.
impl Show for Slot {
    ghost shown = { λ t s. Some (shown_slot t s) };

    fn write_shown<W: fmt::Write>(
        &self,
        table: &SlotTable,
        f: &mut fmt::Formatter<W>,
    ) -> fmt::Result {
        let place = self.0 / 4;
        match self.0 % 4 {
            0 => write!(f, "${place}"),
            1 => write!(f, "$f{place}"),
            2 => match table.name(place) {
                Some(name) => write!(f, "${name}"),
                None => write!(f, "$?"),
            },
            _ => write!(f, "$?"),
        }
    }
}

// Returns the number that a text writes.
fn read_u32(s: &str) -> Option<u32>
    ensures { result ≡ reads_u32 s.now }
{
    s.parse().ok()
}

// Returns the number that a text writes after an `f`.
fn read_fresh(s: &str) -> Option<u32>
    ensures { result ≡ reads_fresh s.now }
{
    match s.strip_prefix('f') {
        Some(rest) => read_u32(rest),
        None => None,
    }
}
