//! Shapes of nodes: names become numbers in the order in which they first stand.
ghost use Rattle.std.specs.Prelude.{◌≡◌, ◌<◌, None, IfOk, IfErr, IsTrue, OnOk};
ghost use Rattle.slotted_slots.specs.Error.{IsOutOfMemory};
ghost use Rattle.slotted_slots.specs.Maps.{with_pair};
ghost use Rattle.slotted_slots.specs.Table.{slot_limit};
ghost use Rattle.slotted_nodes.specs.Form.{IsSmall};
ghost use Rattle.slotted_languages.specs.Shape.{shape, ShapeLaws, number_of};
ghost use Rattle.slotted_languages.specs.Walk.{IsNumbering, bound_number, start, walk_at, walk_binder, walk_free, walk_of};

use crate::language::Language;
use slotted_slots::{Error, Slot, SlotMap};
use smallvec::SmallVec;
use std::alloc::Global;

// A binder that was passed. Its scope ends before the place `until`.
#[derive(Clone, Copy, Default)]
struct Binder {
    name: Slot,
    until: usize,
    number: Slot,
}

// The state of the numbering up to a place: the binders so far, and the free names by number. A wide node's free names
// stand by name too; those of others are gone through.
#[derive(Drop)]
struct Numbering {
    wide: bool,
    next: u32,
    binders: SmallVec<Binder, 4>,
    numbers: SlotMap,
    free: SlotMap,
}

impl Numbering {
    fn new(alloc: Global, wide: bool) -> Numbering
        ensures start { walk_of result ≡ start }
        ensures good { IsNumbering result }
    {
        Numbering {
            wide,
            next: 0,
            binders: SmallVec::new(alloc),
            numbers: SlotMap::new(alloc),
            free: SlotMap::new(alloc),
        }
    }

    // Returns the number of the innermost binder of this name whose scope has the place.
    fn bound(&self, name: Slot, place: usize) -> Option<Slot>
        ensures { result ≡ bound_number self.now.binders.items name place None }
    {
        let mut found = None;
        for binder in self.binders.iter() {
            if binder.name == name && place < binder.until {
                found = Some(binder.number);
            }
        }
        found
    }

    // Gives a binder the next number, which it always gets, and returns that number.
    fn number_binder(&mut self, name: Slot, until: usize) -> Result<Slot, Error>
        requires few { self.old.next < slot_limit }
        requires good { IsNumbering self.old }
        ensures ok { IfOk result (λ n. (n, walk_of self.new) ≡ walk_binder (walk_of self.old) name until) }
        ensures good { IfOk result (λ _. IsNumbering self.new) }
        ensures err { IfErr result IsOutOfMemory }
    {
        let number = Slot::numeric_at(self.next);
        self.binders.push(Binder {
            name,
            until,
            number,
        })?;
        self.next += 1;
        Ok(number)
    }

    // Returns the number of a free name, if it has one.
    fn free_number(&self, name: Slot) -> Option<Slot>
        requires good { IsNumbering self.now }
        ensures { result ≡ number_of self.now.free name }
    {
        if self.wide {
            return self.numbers.get(name);
        }
        for (number, own) in self.free.iter() {
            if own == name {
                return Some(number);
            }
        }
        None
    }

    // Notes the number of a free name by that name, if the node is wide.
    fn note(&mut self, name: Slot, number: Slot) -> Result<(), Error>
        ensures walk { walk_of self.new ≡ walk_of self.old }
        ensures wide { self.new.wide ≡ self.old.wide }
        ensures noted { OnOk result (IsTrue self.old.wide → self.new.numbers ≡ with_pair self.old.numbers name number) }
        ensures err { IfErr result IsOutOfMemory }
    {
        if self.wide {
            self.numbers.insert(name, number)?;
        }
        Ok(())
    }

    // Returns the number of a free name, which gets the next one if it stands for the first time.
    fn number_free(&mut self, name: Slot) -> Result<Slot, Error>
        requires few { self.old.next < slot_limit }
        requires good { IsNumbering self.old }
        ensures ok { IfOk result (λ n. (n, walk_of self.new) ≡ walk_free (walk_of self.old) name) }
        ensures good { IfOk result (λ _. IsNumbering self.new) }
        ensures err { IfErr result IsOutOfMemory }
    {
        if let Some(number) = self.free_number(name) {
            return Ok(number);
        }
        let number = Slot::numeric_at(self.next);
        self.note(name, number)?;
        self.free.insert(number, name)?;
        self.next += 1;
        Ok(number)
    }

    // Returns the number of a name at a place.
    fn number(&mut self, name: Slot, place: usize, scope_end: Option<usize>) -> Result<Slot, Error>
        requires few { self.old.next < slot_limit }
        requires good { IsNumbering self.old }
        ensures ok { IfOk result (λ n. (n, walk_of self.new) ≡ walk_at (walk_of self.old) name place scope_end) }
        ensures good { IfOk result (λ _. IsNumbering self.new) }
        ensures err { IfErr result IsOutOfMemory }
    {
        if let Some(until) = scope_end {
            return self.number_binder(name, until);
        }
        match self.bound(name, place) {
            Some(number) => Ok(number),
            None => self.number_free(name),
        }
    }
}

/// Proves the laws of shapes, which are the contract.
///
/// Two nodes have equal shapes if and only if a bijection of names takes the one to the other. The laws also say what
/// a renaming does to the map.
pub fn shapes_decide()
    ensures { ShapeLaws }
{}

/// The number of places from which on a node has no shape.
pub const PLACES: usize = 1 << 30;

// The number of places up to which a node's free names are gone through one by one.
const FEW: usize = 16;

// Puts its number at each place, and returns the names of the numbers that stand for free names.
pub(crate) fn number_places<L: Language>(node: &mut L, alloc: Global) -> Result<SlotMap, Error>
    requires small { IsSmall (L.form node.old) }
    ensures ok { IfOk result (λ m. (L.form node.new, m) ≡ shape (L.form node.old)) }
    ensures err { IfErr result IsOutOfMemory }
{
    let mut numbering = Numbering::new(alloc, node.slot_count() > FEW);
    for i in 0..node.slot_count() {
        let name = node.slot(i);
        let scope_end = node.scope_end(i);
        let number = numbering.number(name, i, scope_end)?;
        node.set_slot(i, number);
    }
    Ok(numbering.free)
}
