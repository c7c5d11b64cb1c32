//! The skeletons of nodes by number. A skeleton is a node without its names and children.
ghost use Rattle.std.specs.Prelude.{◌≡◌, ◌↔◌, [], length, IsTrue, IfOk, IfErr, IsErrOf};
ghost use Rattle.slotted_slots.specs.Error.{IsOutOfMemory, IsShortage};
ghost use Rattle.slotted_languages.specs.Outline.{skeleton_form};
ghost use Rattle.slotted_matching.specs.Skeletons.{GrowsTo, HasManyPlaces, IsPlaceOf, StandsAt};

use indexmap::IndexSet;
use slotted_languages::Language;
use slotted_languages::outline::skeleton;
use slotted_languages::shape::PLACES;
use slotted_slots::Error;
use std::alloc::Global;
use std::marker::Model;

/// Skeletons, each once. The number of a skeleton is its place.
#[derive(Drop)]
pub struct Skeletons<L: Language> {
    nodes: IndexSet<L>,
}

impl<L: Language> Model for Skeletons<L> {
    ghost use Rattle.std.specs.Prelude.{List, map};
    ghost use Rattle.std.specs.Coded.{coded_list};
    ghost use Rattle.slotted_nodes.specs.Form.{Form};
    ghost use Rattle.slotted_classes.specs.FormCode.{form_code};
    ghost use Rattle.slotted_matching.specs.Skeletons.{StandOnce};

    ghost Value = { List Form };

    ghost coded = { coded_list form_code };

    ghost view = { λ s. map L.form s.nodes.keys };

    ghost invariant = { λ s. StandOnce (map L.form s.nodes.keys) };
}

impl<L: Language> Skeletons<L> {
    /// Returns the set without skeletons.
    pub fn new(alloc: Global) -> Self
        ensures { result ≡ [] }
    {
        Skeletons {
            nodes: IndexSet::new(alloc),
        }
    }

    /// Returns how many skeletons there are. No skeleton has this number.
    pub fn len(&self) -> usize
        ensures { result ≡ length self.now }
    {
        self.nodes.len()
    }

    /// Adds a skeleton if it is new, and returns its number. Numbers stay.
    pub fn add(&mut self, skeleton: L) -> Result<usize, Error>
        ensures ok { IfOk result (StandsAt self.new (L.form skeleton)) }
        ensures grows { GrowsTo self.old self.new }
        ensures err { IfErr result IsOutOfMemory }
    {
        let (number, _) = self.nodes.insert_full(skeleton)?;
        Ok(number)
    }

    /// Returns the number of a node's skeleton, or how many skeletons there are if it is none of them.
    pub fn find(&self, alloc: Global, node: &L) -> Result<usize, Error>
        ensures ok { IfOk result (IsPlaceOf self.now (skeleton_form (L.form node.now))) }
        ensures full { IsErrOf result Error.OutOfSlots → HasManyPlaces (L.form node.now) }
        ensures err { IfErr result IsShortage }
    {
        let skeleton = small_skeleton(alloc, node)?;
        match self.nodes.get_index_of(&skeleton) {
            Some(number) => Ok(number),
            None => Ok(self.nodes.len()),
        }
    }
}

/// Returns whether a node has too many places and children for a skeleton.
pub(crate) fn has_many_places<L: Language>(node: &L) -> bool
    ensures { IsTrue result ↔ HasManyPlaces (L.form node.now) }
{
    let places = node.slot_count();
    places >= PLACES || node.applied_id_count() >= PLACES - places
}

// Returns the skeleton of a node, or `OutOfSlots` if it has too many places.
fn small_skeleton<L: Language>(alloc: Global, node: &L) -> Result<L, Error>
    ensures ok { IfOk result (λ n. L.form n ≡ skeleton_form (L.form node.now)) }
    ensures full { IsErrOf result Error.OutOfSlots → HasManyPlaces (L.form node.now) }
    ensures err { IfErr result IsShortage }
{
    if has_many_places(node) {
        return Err(Error::OutOfSlots);
    }
    let skeleton = skeleton(alloc, node)?;
    Ok(skeleton)
}
