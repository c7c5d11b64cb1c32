//! The entries of a graph, each of least cost.
ghost use Rattle.std.specs.Prelude.{◌≡◌, ◌<◌, ℕ, All, length, option_map, IfOk, IfErr};
ghost use Rattle.slotted_slots.specs.Error.{IsOutOfMemory};
ghost use Rattle.slotted_costs.specs.Costs.{costs_by, MayRefuse};
ghost use Rattle.slotted_operations.specs.Good.{Good, RestsWith};
ghost use Rattle.slotted_model.specs.Find.{find_class};
ghost use Rattle.slotted_classes.specs.Finding.{HasFinds};
ghost use Rattle.slotted_classes.specs.Kept.{entries_of};
ghost use Rattle.slotted_hashcons.specs.FiledRows.{rows_in};
ghost use Rattle.slotted_graph.specs.Chosen.{AreChosen};
ghost use Rattle.slotted_graph.specs.Terms.{IsOrdered, entry_at};
ghost use Rattle.slotted_graph.specs.Least.{AreLeast};
ghost use Rattle.slotted_graph.specs.Placing.{ArePlaced, ClassesDiffer, IsTermFor, IsWithin};

use crate::entry::TermEntry;
use slotted_classes::Store;
use slotted_costs::{CostEntry, CostFunction, make_table};
use slotted_hashcons::Hashcons;
use slotted_languages::Language;
use slotted_lookup::finding::found_class;
use slotted_slots::Error;
use std::alloc::Global;

/// The e-nodes of least cost of a graph, one for each class that has a cost.
///
/// The children of each e-node belong to classes that got their e-nodes earlier.
#[derive(Drop)]
pub struct LeastTerms<L: Language, C> {
    /// The entry of each class, by its number.
    pub entries: Vec<Option<TermEntry<L, C>>>,
    ghost ordered: { IsOrdered L.form entries.items },
}

impl<L: Language, C: Drop> LeastTerms<L, C> {
    /// Returns the entry of a class, if there is one. Takes no memory.
    pub fn get(&self, class: usize) -> Option<&TermEntry<L, C>>
        ensures { option_map (λ e. e.now) result ≡ entry_at self.now.entries.items class }
    {
        if class < self.entries.len() {
            self.entries[class].as_ref()
        } else {
            None
        }
    }
}

// Returns the entry over the slots of its class, in place of those of its source.
fn term_entry<L: Language, C: Drop>(
    store: &Store<L>,
    alloc: Global,
    entry: CostEntry<L, C>,
    rank: usize,
) -> Result<TermEntry<L, C>, Error>
    requires good { HasFinds store.now }
    requires within { entry.source < length store.now.classes }
    ensures ok { IfOk result (IsTermFor store.now entry rank) }
    ensures err { IfErr result IsOutOfMemory }
{
    let found = found_class(store, alloc, entry.source)?;
    let back = found.m.inverse(alloc)?;
    let names = entry.names.compose_partial(alloc, &back)?;
    Ok(TermEntry {
        cost: entry.cost,
        rank,
        node: entry.node,
        names,
    })
}

// Returns a list in which no class has an entry.
fn no_entries<L: Language, C: Drop>(
    alloc: Global,
    classes: usize,
) -> Result<Vec<Option<TermEntry<L, C>>>, Error>
    ensures count { IfOk result (λ v. length v.items ≡ classes) }
    ensures none { IfOk result (λ v. (c : ℕ) → entry_at v.items c ≡ None) }
    ensures err { IfErr result IsOutOfMemory }
{
    let mut entries = Vec::new(alloc);
    for k in 0..classes {
        entries.push(None)?;
    }
    Ok(entries)
}

// Puts each entry at the place of its class.
fn place<L: Language, C: Drop>(
    store: &Store<L>,
    alloc: Global,
    classes: usize,
    entries: Vec<CostEntry<L, C>>,
) -> Result<Vec<Option<TermEntry<L, C>>>, Error>
    requires good { HasFinds store.now }
    requires within { All (IsWithin store.now classes) entries.items }
    requires differ { ClassesDiffer entries.items }
    ensures ok { IfOk result (λ v. ArePlaced store.now entries.items 0 v.items) }
    ensures err { IfErr result IsOutOfMemory }
{
    let mut left = entries;
    let mut placed = no_entries(alloc, classes)?;
    while let Some(entry) = left.pop() {
        let class = entry.class;
        placed[class] = Some(term_entry(store, alloc, entry, left.len())?);
    }
    Ok(placed)
}

/// Returns the e-nodes of least cost of a rebuilt graph. Each live class has one.
pub fn least_terms<L: Language, F: CostFunction<L>>(
    store: &Store<L>,
    nodes: &Hashcons<L>,
    alloc: Global,
    costs: &F,
) -> Result<LeastTerms<L, F::Cost>, Error>
    requires good { Good store.now }
    requires rests { RestsWith store.now nodes.now }
    ensures ok { IfOk result (λ t. AreLeast L.form store.now nodes.now
        (costs_by F.Cost.cmp (F.node_cost costs.now)) t.entries.items) }

    // If several e-nodes of a class cost least, the order of the language decides between them.
    ensures chosen { IfOk result (λ t. AreChosen L.form L.cmp (costs_by F.Cost.cmp (F.node_cost costs.now))
        (find_class (entries_of store.now)) (rows_in nodes.now.filed) t.entries.items) }

    ensures err { IfErr result (MayRefuse F.refuses) }
{
    let table = make_table(store, nodes, alloc, costs)?;
    let entries = place(store, alloc, nodes.class_count(), table.into_entries())?;
    Ok(LeastTerms { entries })
}
