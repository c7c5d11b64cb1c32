//! The plain find, without path compression: the answer of `find` for each class when it died, followed step by step.
//! The plain find has to agree with the graph's.
use slotted_graph::EGraph;
use slotted_slots::{AppliedId, Error, Id, SlotMap};
use slotted_terms::expr::printing::Printable;
use std::alloc::Global;

/// What `find` answered for each class when the class died, with the slots of the class as names. A live class has no
/// entry.
#[derive(Drop)]
pub struct PlainFind {
    entries: Vec<Option<AppliedId>>,
}

// Returns what `find` maps a class to, with the slots that are not redundant as names.
fn found<L: Printable>(graph: &EGraph<L>, id: Id) -> Result<Option<AppliedId>, Error> {
    if !graph.is_valid_id(id) {
        return Ok(None);
    }
    let own = graph.mk_identity_applied_id(id)?;
    Ok(Some(graph.find_applied_id(&own)?))
}

// Returns the entry of a class: what `find` maps the class to, if the class is dead.
fn entry_of<L: Printable>(graph: &EGraph<L>, id: Id) -> Result<Option<AppliedId>, Error> {
    if graph.is_alive(id) {
        return Ok(None);
    }
    found(graph, id)
}

// Returns whether a map has each of these pairs.
fn has_pairs(map: &SlotMap, pairs: &SlotMap) -> bool {
    for (slot, name) in pairs.iter() {
        if map.get(slot) != Some(name) {
            return false;
        }
    }
    true
}

impl PlainFind {
    /// Returns the plain find of a graph without classes.
    pub fn new(alloc: Global) -> PlainFind {
        PlainFind {
            entries: Vec::new(alloc),
        }
    }

    // Keeps what `find` maps a class to, if the class has died since its entry was read.
    fn keep<L: Printable>(&mut self, graph: &EGraph<L>, i: usize) -> Result<(), Error> {
        if i >= self.entries.len() {
            self.entries.push(entry_of(graph, Id(i))?)?;
        } else if self.entries[i].is_none() {
            self.entries[i] = entry_of(graph, Id(i))?;
        }
        Ok(())
    }

    /// Keeps what `find` maps dead classes to. An entry that stands never changes.
    pub fn follow<L: Printable>(&mut self, graph: &EGraph<L>) -> Result<(), Error> {
        for i in 0..graph.progress().number_of_classes {
            self.keep(graph, i)?;
        }
        Ok(())
    }

    // Returns the live class of an id, by the entries alone.
    fn find(&self, alloc: Global, a: AppliedId) -> Result<AppliedId, Error> {
        let mut found = a;
        for _ in 0..self.entries.len() {
            let Some(Some(entry)) = self.entries.get(found.id.0) else {
                return Ok(found);
            };
            found = AppliedId {
                id: entry.id,
                m: entry.m.compose_partial(alloc, &found.m)?,
            };
        }
        Ok(found)
    }

    // Returns whether both finds answer the same for a class. A number that is no class of the graph has no answer.
    fn agrees_on<L: Printable>(
        &self,
        alloc: Global,
        graph: &EGraph<L>,
        id: Id,
    ) -> Result<bool, Error> {
        if !graph.is_valid_id(id) {
            return Ok(true);
        }
        let own = graph.mk_identity_applied_id(id)?;
        let found = graph.find_applied_id(&own)?;
        let plain = self.find(alloc, own)?;
        Ok(plain.id == found.id && has_pairs(&plain.m, &found.m))
    }

    /// Returns whether both finds answer the same for each class.
    pub fn agrees<L: Printable>(&self, alloc: Global, graph: &EGraph<L>) -> Result<bool, Error> {
        for i in 0..self.entries.len() {
            if !self.agrees_on(alloc, graph, Id(i))? {
                return Ok(false);
            }
        }
        Ok(true)
    }
}
