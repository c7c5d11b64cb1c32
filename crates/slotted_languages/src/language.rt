//! Languages: the calls on whole nodes, which make shapes, rename and refresh nodes, and list names and children.
ghost use Rattle.std.specs.Prelude.{◌≡◌, ◌↔◌, ◌⊎◌, ℕ, [], map, IsTrue, IfOk, IfErr, OnErr, IsErrOf};
ghost use Rattle.slotted_slots.specs.Ascending.{IsAscending};
ghost use Rattle.slotted_slots.specs.Error.{IsOutOfMemory, IsShortage};
ghost use Rattle.slotted_slots.specs.Maps.{KnowsAll, is_among, keys, values};
ghost use Rattle.slotted_slots.specs.Table.{KnowsMore, Takes};
ghost use Rattle.slotted_languages.specs.Children.{IsBound, NoneFreeAndBound, Refused, ReplacesAll, all_children, child_value};
ghost use Rattle.slotted_nodes.specs.Form.{IsSmall, children};
ghost use Rattle.slotted_languages.specs.Fresh.{IsRenamedFresh};
ghost use Rattle.slotted_languages.specs.NewNames.{BindersAreNew, BindersAreUnknown, BindersDiffer, BindersMeetAsBefore};
ghost use Rattle.slotted_languages.specs.NewNames.{BindersStay, GivesBack, IsFrom, IsRefreshedAt, IsRefreshedBut, IsRenamedBy};
ghost use Rattle.slotted_languages.specs.NewNames.{IsTooLarge, LacksPerBinder, LacksPerPlace, PutsIn, StandsIn};
ghost use Rattle.slotted_languages.specs.NewNames.{TakesPerBinder, TakesPerPlace};
ghost use Rattle.slotted_languages.specs.NodeTerm.{nameless_node, free_names_of};
ghost use Rattle.slotted_languages.specs.Occurrences.{public_names, private_names};
ghost use Rattle.slotted_languages.specs.Shape.{shape, firsts};

use crate::fresh::{fill_names, names_outside, names_within, refresh_names, replace_names};
use crate::places::{all_names, binds_nothing, check_count, hidden_names, name_set, seen_names};
use crate::renaming::{refresh_binders, rename_apart};
use crate::shape::{PLACES, number_places};
use slotted_nodes::LanguageChildren;
use slotted_slots::{AppliedId, Error, Id, Slot, SlotMap, SlotTable, SmallHashSet};
use std::alloc::Global;

/// The type of the nodes of a language.
pub trait Language: LanguageChildren + Ord {
    /// Returns the number of the variant.
    fn operator(&self) -> u32
        ensures { result ≡ (Self.form self.now).operator };

    /// Returns the shape of this node, and the map from numbers to free names.
    ///
    /// Names are numbered from `$0` in the order in which they first stand. A binder always gets a new number, which
    /// holds in its scope alone.
    ///
    /// Two nodes have equal shapes if and only if a bijection of names takes the one to the other, up to bound names
    /// (`shapes_decide`).
    final fn weak_shape(&self, alloc: Global) -> Result<(Self, SlotMap), Error>
    where
        Self: Sized,
        ensures shape { IfOk result (λ r. (Self.form r.0, r.1) ≡ shape (Self.form self.now)) }

        // The map has each free name once. The shape with these names put back is this node, up to bound names.
        ensures keys { IfOk result (λ r. IsAscending (keys r.1)) }
        ensures names { IfOk result (λ r. values r.1 ≡ firsts (free_names_of (Self.form self.now))) }
        ensures back { IfOk result (λ r. GivesBack r.1 (Self.form r.0) (Self.form self.now)) }

        ensures full { IsErrOf result Error.OutOfSlots ↔ IsTooLarge (Self.form self.now) }
        ensures only { IfErr result IsShortage }
    {
        if self.slot_count() >= PLACES {
            return Err(Error::OutOfSlots);
        }
        let mut node = self.copy(alloc)?;
        let free = number_places(&mut node, alloc)?;
        Ok((node, free))
    }

    /// Replaces this node by its shape, and returns the map from numbers to free names. On an error the node stays as
    /// it is.
    final fn weak_shape_inplace(&mut self, alloc: Global) -> Result<SlotMap, Error>
    where
        Self: Sized,
        ensures shape { IfOk result (λ m. (Self.form self.new, m) ≡ shape (Self.form self.old)) }
        ensures keys { IfOk result (λ m. IsAscending (keys m)) }
        ensures names { IfOk result (λ m. values m ≡ firsts (free_names_of (Self.form self.old))) }
        ensures back { IfOk result (λ m. GivesBack m (Self.form self.new) (Self.form self.old)) }
        ensures full { IsErrOf result Error.OutOfSlots ↔ IsTooLarge (Self.form self.old) }
        ensures only { IfErr result IsShortage }
        ensures err { OnErr result (self.new ≡ self.old) }
    {
        let (node, free) = self.weak_shape(alloc)?;
        *self = node;
        Ok(free)
    }

    /// Returns whether `m` has each free slot as a key, as `apply_slotmap` requires.
    final fn is_known_by(&self, alloc: Global, m: &SlotMap) -> Result<bool, Error>
    where
        Self: Sized,
        ensures test { IfOk result (λ known. IsTrue known ↔ KnowsAll m.now (free_names_of (Self.form self.now))) }
        ensures full { IsErrOf result Error.OutOfSlots ↔ IsTooLarge (Self.form self.now) }
        ensures only { IfErr result IsShortage }
    {
        let (_, free) = self.weak_shape(alloc)?;
        let known = knows_values(m, &free);
        Ok(known)
    }

    /// Returns this node with its free slots renamed by `m`, which must have each of them as a key.
    ///
    /// Nothing is captured: a bound slot that a new free name would meet is refreshed.
    final fn apply_slotmap(
        &self,
        alloc: Global,
        m: &SlotMap,
        table: &mut SlotTable,
    ) -> Result<Self, Error>
    where
        Self: Sized,
        requires { KnowsAll m.now (free_names_of (Self.form self.now)) }
        ensures renamed { IfOk result (λ r. IsRenamedBy m.now (Self.form self.now) (Self.form r)) }

        // A bound slot stays if it is not free in the result.
        ensures stays { IfOk result (λ r. BindersStay (Self.form self.now) (Self.form r)) }

        // No free name of the result is the name of a binder, wherever the binder stands.
        ensures checked { IfOk result (λ r. NoneFreeAndBound (Self.form r)) }

        // A new name is known to the table, or a value of the map.
        ensures known { IfOk result (λ r. PutsIn table.new (values m.now) (Self.form self.now) (Self.form r)) }

        // A slot that the table knows in addition stands in the result, or stood in the node.
        ensures taken { IfOk result (λ r. Takes table.old table.new (StandsIn (Self.form self.now) (Self.form r))) }

        // The error is `OutOfSlots` if the node has too many places, or if the table has too few fresh slots left.
        ensures large { IsTooLarge (Self.form self.now) → IsErrOf result Error.OutOfSlots }
        ensures count { TakesPerBinder m.now (Self.form self.now) table.old table.new }
        ensures full { IsErrOf result Error.OutOfSlots → LacksPerBinder m.now (Self.form self.now) table.old table.new }
        ensures only { IfErr result IsShortage }
        ensures more { KnowsMore table.old table.new }
        ensures kept { table.new.names ≡ table.old.names }
    {
        if binds_nothing(self) {
            let renamed = replace_names(self, alloc, m)?;
            return Ok(renamed);
        }
        rename_apart(self, alloc, m, table)
    }

    /// Returns this node with its free slots renamed by `m`, as `apply_slotmap` does. `m` must have each of them as a
    /// key.
    final fn apply_slotmap_partial(
        &self,
        alloc: Global,
        m: &SlotMap,
        table: &mut SlotTable,
    ) -> Result<Self, Error>
    where
        Self: Sized,
        requires { KnowsAll m.now (free_names_of (Self.form self.now)) }
        ensures renamed { IfOk result (λ r. IsRenamedBy m.now (Self.form self.now) (Self.form r)) }

        // A bound slot stays if it is not free in the result.
        ensures stays { IfOk result (λ r. BindersStay (Self.form self.now) (Self.form r)) }

        // No free name of the result is the name of a binder, wherever the binder stands.
        ensures checked { IfOk result (λ r. NoneFreeAndBound (Self.form r)) }

        // A new name is known to the table, or a value of the map.
        ensures known { IfOk result (λ r. PutsIn table.new (values m.now) (Self.form self.now) (Self.form r)) }

        // A slot that the table knows in addition stands in the result, or stood in the node.
        ensures taken { IfOk result (λ r. Takes table.old table.new (StandsIn (Self.form self.now) (Self.form r))) }
        ensures large { IsTooLarge (Self.form self.now) → IsErrOf result Error.OutOfSlots }
        ensures count { TakesPerBinder m.now (Self.form self.now) table.old table.new }
        ensures full { IsErrOf result Error.OutOfSlots → LacksPerBinder m.now (Self.form self.now) table.old table.new }
        ensures only { IfErr result IsShortage }
        ensures more { KnowsMore table.old table.new }
        ensures kept { table.new.names ≡ table.old.names }
    {
        self.apply_slotmap(alloc, m, table)
    }

    /// Returns this node with its free slots renamed by `m`, and one fresh slot in place of each free slot that `m`
    /// lacks.
    final fn apply_slotmap_fresh(
        &self,
        alloc: Global,
        m: &SlotMap,
        table: &mut SlotTable,
    ) -> Result<Self, Error>
    where
        Self: Sized,
        ensures renamed { IfOk result (λ r. IsRenamedFresh table.old m.now (Self.form self.now) (Self.form r)) }

        // A bound slot stays if it is not free in the result.
        ensures stays { IfOk result (λ r. BindersStay (Self.form self.now) (Self.form r)) }

        // No free name of the result is the name of a binder, wherever the binder stands.
        ensures checked { IfOk result (λ r. NoneFreeAndBound (Self.form r)) }

        // A new name is known to the table, or a value of the map.
        ensures known { IfOk result (λ r. PutsIn table.new (values m.now) (Self.form self.now) (Self.form r)) }

        // A slot that the table knows in addition stands in the result or in the map, or stood in the node.
        ensures taken { IfOk result (λ r. Takes table.old table.new (IsFrom m.now (Self.form self.now) (Self.form r))) }
        ensures large { IsTooLarge (Self.form self.now) → IsErrOf result Error.OutOfSlots }
        ensures count { TakesPerPlace m.now (Self.form self.now) table.old table.new }
        ensures full { IsErrOf result Error.OutOfSlots → LacksPerPlace m.now (Self.form self.now) table.old table.new }
        ensures only { IfErr result IsShortage }
        ensures more { KnowsMore table.old table.new }
        ensures kept { table.new.names ≡ table.old.names }
    {
        let wanted = self.slots(alloc)?;
        let mut names = m.copy(alloc)?;
        fill_names(self, &wanted, &mut names, table)?;
        self.apply_slotmap(alloc, &names, table)
    }

    /// Returns this node with a fresh slot for each binder, which also replaces the slots that it binds.
    ///
    /// The result equals this node up to bound names.
    final fn refresh_private(&self, alloc: Global, table: &mut SlotTable) -> Result<Self, Error>
    where
        Self: Sized,
        ensures same { IfOk result (λ r. nameless_node (Self.form r) ≡ nameless_node (Self.form self.now)) }
        ensures fresh { IfOk result (λ r. BindersAreNew (Self.form self.now) (Self.form r)) }
        ensures unused { IfOk result (λ r. BindersAreUnknown table.old (Self.form self.now) (Self.form r)) }
        ensures apart { IfOk result (λ r. BindersDiffer (Self.form self.now) (Self.form r)) }
        ensures differ { IfOk result (λ r. BindersMeetAsBefore (Self.form self.now) (Self.form r)) }

        // No free name of the result is the name of a binder, wherever the binder stands.
        ensures checked { IfOk result (λ r. NoneFreeAndBound (Self.form r)) }

        // A new name is known to the table.
        ensures known { IfOk result (λ r. PutsIn table.new [] (Self.form self.now) (Self.form r)) }

        // A slot that the table knows in addition stands in the result, or stood in the node.
        ensures taken { IfOk result (λ r. Takes table.old table.new (StandsIn (Self.form self.now) (Self.form r))) }
        ensures large { IsTooLarge (Self.form self.now) → IsErrOf result Error.OutOfSlots }
        ensures count { TakesPerBinder [] (Self.form self.now) table.old table.new }
        ensures full { IsErrOf result Error.OutOfSlots → LacksPerBinder [] (Self.form self.now) table.old table.new }
        ensures only { IfErr result IsShortage }
        ensures more { KnowsMore table.old table.new }
        ensures kept { table.new.names ≡ table.old.names }
    {
        if binds_nothing(self) {
            let same = self.copy(alloc)?;
            return Ok(same);
        }
        refresh_binders(self, alloc, table)
    }

    /// Returns this node with one fresh slot in place of each slot of the set, whether that is free or bound.
    final fn refresh_slots(
        &self,
        alloc: Global,
        set: &SmallHashSet<Slot>,
        table: &mut SlotTable,
    ) -> Result<Self, Error>
    where
        Self: Sized,
        ensures refreshed { IfOk result (λ r. IsRefreshedAt table.old set.now (Self.form self.now) (Self.form r)) }

        // If no free name is the name of a binder, that stays so.
        ensures checked { IfOk result (λ r. NoneFreeAndBound (Self.form self.now) → NoneFreeAndBound (Self.form r)) }

        // A new name is known to the table.
        ensures known { IfOk result (λ r. PutsIn table.new [] (Self.form self.now) (Self.form r)) }

        // A slot that the table knows in addition stands in the result, or stood in the node.
        ensures taken { IfOk result (λ r. Takes table.old table.new (StandsIn (Self.form self.now) (Self.form r))) }
        ensures large { IsTooLarge (Self.form self.now) → IsErrOf result Error.OutOfSlots }
        ensures count { TakesPerPlace [] (Self.form self.now) table.old table.new }
        ensures full { IsErrOf result Error.OutOfSlots → LacksPerPlace [] (Self.form self.now) table.old table.new }
        ensures only { IfErr result IsShortage }
        ensures more { KnowsMore table.old table.new }
        ensures kept { table.new.names ≡ table.old.names }
    {
        check_count(self)?;
        let within = names_within(self, alloc, set)?;
        refresh_names(self, alloc, &within, table)
    }

    /// Returns this node with one fresh slot in place of each slot that is not in `public`, whether that is free or
    /// bound.
    final fn refresh_internals(
        &self,
        alloc: Global,
        public: &SmallHashSet<Slot>,
        table: &mut SlotTable,
    ) -> Result<Self, Error>
    where
        Self: Sized,
        ensures refreshed { IfOk result (λ r. IsRefreshedBut table.old public.now (Self.form self.now) (Self.form r)) }

        // If no free name is the name of a binder, that stays so.
        ensures checked { IfOk result (λ r. NoneFreeAndBound (Self.form self.now) → NoneFreeAndBound (Self.form r)) }

        // A new name is known to the table.
        ensures known { IfOk result (λ r. PutsIn table.new [] (Self.form self.now) (Self.form r)) }

        // A slot that the table knows in addition stands in the result, or stood in the node.
        ensures taken { IfOk result (λ r. Takes table.old table.new (StandsIn (Self.form self.now) (Self.form r))) }
        ensures large { IsTooLarge (Self.form self.now) → IsErrOf result Error.OutOfSlots }
        ensures count { TakesPerPlace [] (Self.form self.now) table.old table.new }
        ensures full { IsErrOf result Error.OutOfSlots → LacksPerPlace [] (Self.form self.now) table.old table.new }
        ensures only { IfErr result IsShortage }
        ensures more { KnowsMore table.old table.new }
        ensures kept { table.new.names ≡ table.old.names }
    {
        check_count(self)?;
        let outside = names_outside(self, alloc, public)?;
        refresh_names(self, alloc, &outside, table)
    }

    /// Returns the set of the free slots.
    final fn slots(&self, alloc: Global) -> Result<SmallHashSet<Slot>, Error>
    where
        Self: Sized,
        ensures members { IfOk result (λ s. (x : ℕ) → is_among x s ≡ is_among x (free_names_of (Self.form self.now))) }
        ensures full { IsErrOf result Error.OutOfSlots ↔ IsTooLarge (Self.form self.now) }
        ensures only { IfErr result IsShortage }
    {
        let (_, free) = self.weak_shape(alloc)?;
        Ok(free.values(alloc)?)
    }

    /// Returns the names at all places, from the left.
    final fn all_slot_occurrences(&self, alloc: Global) -> Result<Vec<Slot>, Error>
    where
        Self: Sized,
        ensures ok { IfOk result (λ v. v.items ≡ (Self.form self.now).names) }
        ensures full { IsErrOf result Error.OutOfSlots ↔ IsTooLarge (Self.form self.now) }
        ensures only { IfErr result IsShortage }
    {
        check_count(self)?;
        all_names(self, alloc)
    }

    /// Returns the names at public places, from the left. These are the free names, each as often as it stands.
    final fn public_slot_occurrences(&self, alloc: Global) -> Result<Vec<Slot>, Error>
    where
        Self: Sized,
        ensures ok { IfOk result (λ v. v.items ≡ public_names (Self.form self.now)) }
        ensures free { IfOk result (λ v. v.items ≡ free_names_of (Self.form self.now)) }
        ensures full { IsErrOf result Error.OutOfSlots ↔ IsTooLarge (Self.form self.now) }
        ensures only { IfErr result IsShortage }
    {
        check_count(self)?;
        seen_names(self, alloc)
    }

    /// Returns the names at private places, from the left. A place is private if it is not public.
    final fn private_slot_occurrences(&self, alloc: Global) -> Result<Vec<Slot>, Error>
    where
        Self: Sized,
        ensures ok { IfOk result (λ v. v.items ≡ private_names (Self.form self.now)) }
        ensures full { IsErrOf result Error.OutOfSlots ↔ IsTooLarge (Self.form self.now) }
        ensures only { IfErr result IsShortage }
    {
        check_count(self)?;
        hidden_names(self, alloc)
    }

    /// Returns the set of the names at private places. A name may stand at public places too.
    final fn private_slots(&self, alloc: Global) -> Result<SmallHashSet<Slot>, Error>
    where
        Self: Sized,
        ensures members { IfOk result (λ s. (x : ℕ) → is_among x s ≡ is_among x (private_names (Self.form self.now))) }
        ensures full { IsErrOf result Error.OutOfSlots ↔ IsTooLarge (Self.form self.now) }
        ensures only { IfErr result IsShortage }
    {
        let hidden = self.private_slot_occurrences(alloc)?;
        name_set(alloc, hidden.as_slice())
    }

    /// Returns the children, from the left.
    final fn applied_id_occurrences(&self, alloc: Global) -> Result<Vec<&AppliedId>, Error>
        ensures ok { IfOk result (λ v. map (λ a. child_value a.now) v.items ≡ all_children (Self.form self.now)) }
        ensures only { IfErr result IsOutOfMemory }
    {
        let mut all = Vec::new(alloc);
        for k in 0..self.applied_id_count() {
            all.push(self.applied_id(k))?;
        }
        Ok(all)
    }

    /// Returns the e-classes of the children, from the left.
    final fn ids(&self, alloc: Global) -> Result<Vec<Id>, Error>
        ensures ok { IfOk result (λ v. map (λ i. i.0) v.items ≡ map (λ p. p.0) (children (Self.form self.now).tree)) }
        ensures only { IfErr result IsOutOfMemory }
    {
        let mut all = Vec::new(alloc);
        for k in 0..self.applied_id_count() {
            all.push(self.applied_id(k).id)?;
        }
        Ok(all)
    }

    /// Returns this node with each child replaced, in turn, by what `f` returns for it. An error of `f` is returned.
    final fn map_applied_ids<F: FnMut(AppliedId) -> Result<AppliedId, Error>>(
        &self,
        alloc: Global,
        mut f: F,
    ) -> Result<Self, Error>
    where
        Self: Sized,
        requires { F.IsAlwaysCallable f }
        ensures ok { IfOk result (λ r. ReplacesAll F.step f (Self.form self.now) (Self.form r)) }
        ensures only { IfErr result (λ e. IsOutOfMemory e ⊎ Refused F.step e) }
    {
        let mut node = self.copy(alloc)?;
        for k in 0..self.applied_id_count() {
            let child = node.applied_id(k).copy(alloc)?;
            let answer = f(child)?;
            node.set_applied_id(k, answer);
        }
        Ok(node)
    }

    /// Returns whether no free slot is a bound one too.
    final fn check(&self) -> bool
        requires small { IsSmall (Self.form self.now) }
        ensures { IsTrue result ↔ NoneFreeAndBound (Self.form self.now) }
    {
        for i in 0..self.slot_count() {
            if self.is_public(i) && is_bound(self, self.slot(i)) {
                return false;
            }
        }
        true
    }
}

// Returns whether some binder of the node has the name.
fn is_bound<L: Language>(node: &L, name: Slot) -> bool
    requires small { IsSmall (L.form node.now) }
    ensures { IsTrue result ↔ IsBound (L.form node.now) name }
{
    for j in 0..node.slot_count() {
        if node.scope_end(j).is_some() && node.slot(j) == name {
            return true;
        }
    }
    false
}

// Returns whether the map has each value of the other map as a key.
fn knows_values(m: &SlotMap, other: &SlotMap) -> bool
    ensures { IsTrue result ↔ KnowsAll m.now (values other.now) }
{
    for i in 0..other.len() {
        if !m.contains_key(other.value_at(i)) {
            return false;
        }
    }
    true
}
