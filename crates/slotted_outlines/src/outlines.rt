//! Two nodes side by side, place by place.
ghost use Rattle.std.specs.Prelude.{◌≡◌, ◌<◌, ◌≤◌, ◌⊎◌, ◌↔◌, length, take, IsTrue, IfOk, IfErr, IfSome, IfNone, IsErrOf, slice_index};
ghost use Rattle.slotted_slots.specs.Error.{IsOutOfMemory, IsShortage};
ghost use Rattle.slotted_slots.specs.Table.{slot_limit};
ghost use Rattle.slotted_theory.specs.Shape.{number_in};
ghost use Rattle.slotted_nodes.specs.Form.{scopes, IsSmall};
ghost use Rattle.slotted_languages.specs.Outline.{outlined_form};
ghost use Rattle.slotted_outlines.specs.Seen.{AreMatchedBy, AreOutlinesBy, AreAlike, place_count, lefts, rights, lefts_above, rights_above, IsOpen, opened, IsOwn, SameNumber, SameOwns, SamePlace};

use slotted_languages::language::Language;
use slotted_languages::outline::{outline, skeleton};
use slotted_languages::shape::PLACES;
use slotted_slots::{Error, Slot};
use std::alloc::Global;

/// Pairs of binders that correspond, one of the left node and one of the right. The innermost pair is last.
pub type Binders = Vec<(Slot, Slot)>;

/// The outlines of two nodes that agree up to names and children, with the skeleton that they have in common.
#[derive(Drop)]
pub struct Outlines<L: Language> {
    /// The outline of the first node.
    pub one: L,
    /// The outline of the second node.
    pub two: L,
    /// The skeleton of both nodes.
    pub skeleton: L,
}

/// Returns whether two names correspond below pairs of binders.
///
/// They do if the innermost pair that has one of them has both, or if no pair has one of them and they are equal.
pub fn same_name(binders: &[(Slot, Slot)], x: Slot, y: Slot) -> bool
    ensures { IsTrue result ↔ (number_in (lefts binders.now) x ≡ number_in (rights binders.now) y) }
{
    let mut depth = binders.len();
    while depth > 0 {
        depth -= 1;
        let (a, b) = binders[depth];
        if x == a || y == b {
            return x == a && y == b;
        }
    }
    x == y
}

// Returns the outline of a node, or `OutOfSlots` if the outline has too many places.
fn small_outline<L: Language>(alloc: Global, node: &L) -> Result<L, Error>
    ensures ok { IfOk result (λ n. L.form n ≡ outlined_form 0 (L.form node.now)) }
    ensures small { IfOk result (λ n. IsSmall (L.form n)) }
    ensures slots { IsErrOf result Error.OutOfSlots → slot_limit ≤ place_count (L.form node.now) }
    ensures err { IfErr result IsShortage }
{
    let small = outline(alloc, node, Slot::numeric_at(0))?;
    if small.slot_count() < PLACES {
        Ok(small)
    } else {
        Err(Error::OutOfSlots)
    }
}

impl<L: Language> Outlines<L> {
    /// Returns the outlines of two nodes that agree up to names and children, or `None` if they do not agree.
    #[inline(never)]
    pub fn new(alloc: Global, one: &L, two: &L) -> Result<Option<Outlines<L>>, Error>
        ensures outlines { IfOk result (λ o. IfSome o (λ p. AreOutlinesBy L.form one.now two.now p.one p.two)) }
        ensures matched { IfOk result (λ o. IfSome o (λ p. AreMatchedBy L.form p.one p.two p.skeleton)) }
        ensures none { IfOk result (λ o. IfNone o (¬ AreAlike (L.form one.now) (L.form two.now))) }
        ensures slots { IsErrOf result Error.OutOfSlots
            → (slot_limit ≤ place_count (L.form one.now)) ⊎ (slot_limit ≤ place_count (L.form two.now)) }
        ensures err { IfErr result IsShortage }
    {
        let one = small_outline(alloc, one)?;
        let two = small_outline(alloc, two)?;
        let common = skeleton(alloc, &one)?;
        let other = skeleton(alloc, &two)?;
        if common == other {
            Ok(Some(Outlines {
                one,
                two,
                skeleton: common,
            }))
        } else {
            Ok(None)
        }
    }

    // Returns whether the place `i` is a binder whose scope has the place `at`.
    fn is_open(&self, i: usize, at: usize) -> bool
        requires small { IsSmall (L.form self.now.one) }
        requires within { i < length (L.form self.now.one).names }
        ensures { IsTrue result ↔ IsOpen (scopes (L.form self.now.one).tree) i at }
    {
        match self.one.scope_end(i) {
            Some(end) => at < end,
            None => false,
        }
    }

    /// Pushes the binders of the two nodes whose scope has the place `at`, from the outermost in.
    pub fn push_open(&self, at: usize, binders: &mut Binders) -> Result<(), Error>
        requires matched { AreMatchedBy L.form self.now.one self.now.two self.now.skeleton }
        requires within { at ≤ length (L.form self.now.one).names }
        ensures left { IfOk result (λ _. lefts binders.new.items
            ≡ opened at (scopes (L.form self.now.one).tree) (L.form self.now.one).names (lefts binders.old.items)) }
        ensures right { IfOk result (λ _. rights binders.new.items
            ≡ opened at (scopes (L.form self.now.one).tree) (L.form self.now.two).names (rights binders.old.items)) }
        ensures kept { IfOk result (λ _. take (length binders.old.items) binders.new.items ≡ binders.old.items) }
        ensures err { IfErr result IsOutOfMemory }
    {
        for i in 0..at {
            if self.is_open(i, at) {
                binders.push((self.one.slot(i), self.two.slot(i)))?;
            }
        }
        Ok(())
    }

    /// Pushes the binders of the two nodes that are above the child `k`. Pushes none if there is no such child.
    #[inline(never)]
    pub fn push_above(&self, k: usize, binders: &mut Binders) -> Result<(), Error>
        requires { AreMatchedBy L.form self.now.one self.now.two self.now.skeleton }
        ensures left { IfOk result
            (λ _. lefts binders.new.items ≡ lefts_above (L.form self.now.one) binders.old.items k) }
        ensures right { IfOk result
            (λ _. rights binders.new.items ≡ rights_above (L.form self.now.two) binders.old.items k) }
        ensures kept { IfOk result (λ _. take (length binders.old.items) binders.new.items ≡ binders.old.items) }
        ensures err { IfErr result IsOutOfMemory }
    {
        if k < self.one.applied_id_count() {
            self.push_open(self.one.applied_id_place(k), binders)
        } else {
            Ok(())
        }
    }

    // Returns whether the names at the place `i` have one number there.
    fn same_own(&self, i: usize, binders: &mut Binders) -> Result<bool, Error>
        requires matched { AreMatchedBy L.form self.now.one self.now.two self.now.skeleton }
        requires within { i < length (L.form self.now.one).names }
        ensures same { IfOk result (λ b. IsTrue b
            ↔ SameNumber (L.form self.now.one) (L.form self.now.two) binders.old.items i) }
        ensures kept { IfOk result (λ _. binders.new.items ≡ binders.old.items) }
        ensures err { IfErr result IsOutOfMemory }
    {
        let depth = binders.len();
        self.push_open(i, binders)?;
        let same = same_name(binders, self.one.slot(i), self.two.slot(i));
        binders.truncate(depth);
        Ok(same)
    }

    // Returns whether the place `i` has neither a child nor a binder.
    fn is_own(&self, i: usize) -> bool
        requires matched { AreMatchedBy L.form self.now.one self.now.two self.now.skeleton }
        requires within { i < length (L.form self.now.one).names }
        ensures { IsTrue result ↔ IsOwn (L.form self.now.one).tree i }
    {
        self.skeleton.slot(i) == Slot::numeric_at(0) && self.one.scope_end(i).is_none()
    }

    // Returns whether the two nodes agree at the place `i`.
    fn same_place(&self, i: usize, binders: &mut Binders) -> Result<bool, Error>
        requires matched { AreMatchedBy L.form self.now.one self.now.two self.now.skeleton }
        requires within { i < length (L.form self.now.one).names }
        ensures same { IfOk result (λ b. IsTrue b
            ↔ SamePlace (L.form self.now.one) (L.form self.now.two) binders.old.items i) }
        ensures kept { IfOk result (λ _. binders.new.items ≡ binders.old.items) }
        ensures err { IfErr result IsOutOfMemory }
    {
        if self.is_own(i) {
            self.same_own(i, binders)
        } else {
            Ok(true)
        }
    }

    /// Returns whether the nodes' own names have the same numbers below the binders.
    #[inline(never)]
    pub fn same_owns(&self, binders: &mut Binders) -> Result<bool, Error>
        requires { AreMatchedBy L.form self.now.one self.now.two self.now.skeleton }
        ensures same { IfOk result (λ b. IsTrue b
            ↔ SameOwns (L.form self.now.one) (L.form self.now.two) binders.old.items) }
        ensures kept { IfOk result (λ _. binders.new.items ≡ binders.old.items) }
        ensures err { IfErr result IsOutOfMemory }
    {
        for i in 0..self.one.slot_count() {
            if !self.same_place(i, binders)? {
                return Ok(false);
            }
        }
        Ok(true)
    }
}
