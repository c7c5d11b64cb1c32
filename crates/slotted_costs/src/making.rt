//! How a table is made: the cheapest filed e-node whose children have costs enters, until none is left.
ghost use Rattle.std.specs.Prelude.{◌≡◌, ◌<◌, ◌≤◌, ℕ, All, length, true, false, slice_index_or, None, IfOk, IfErr, OnOk};
ghost use Rattle.slotted_slots.specs.Error.{IsOutOfMemory};
ghost use Rattle.slotted_model.specs.Extraction.{Fits, HasTiesBroken};
ghost use Rattle.slotted_model.specs.Find.{find_class};
ghost use Rattle.slotted_model.specs.Rest.{AtRest};
ghost use Rattle.slotted_classes.specs.Finding.{HasFinds};
ghost use Rattle.slotted_classes.specs.Kept.{entries_of};
ghost use Rattle.slotted_hashcons.specs.FiledRows.{IsFiled};
ghost use Rattle.slotted_costs.specs.Costs.{costs_by, MayRefuse};
ghost use Rattle.slotted_costs.specs.Entries.{IsFiledAs, entry_in, table_of};
ghost use Rattle.slotted_costs.specs.Counts.{times, AreKeysOf, AreUsers};
ghost use Rattle.slotted_costs.specs.Making.{table_state, work_left, IsDone, IsEntryFor};
ghost use Rattle.slotted_costs.specs.Making.{IsMadeSoFar, IsTurnOf, TellsRow, TellsRows};
ghost use Rattle.slotted_costs.specs.Least.{IsLeastTable, comes_first};

use crate::candidate::Candidate;
use crate::cost::CostFunction;
use crate::entry::CostEntry;
use crate::pricing::push_row;
use crate::table::CostTable;
use crate::users::{child_counts, users_of};
use slotted_classes::Store;
use slotted_hashcons::{Hashcons, Usages};
use slotted_languages::Language;
use slotted_slots::Error;
use std::alloc::Global;
use std::cmp::Reverse;
use std::collections::BinaryHeap;

/// The state of a table that is being made: the table so far, the filed e-nodes that wait for their turn, and for
/// each source how many children have no cost yet.
#[derive(Drop)]
pub(crate) struct Making<'a, L: Ord, C: Ord> {
    pub table: CostTable<L, C>,
    pub queue: BinaryHeap<Candidate<'a, L, C>>,
    pub lacking: Vec<usize>,
}

// Begins a table: no class has a cost, and the filed e-nodes without children wait for their turn.
fn start<'a, L: Language, F: CostFunction<L>>(
    store: &Store<L>,
    nodes: &'a Hashcons<L>,
    alloc: Global,
    costs: &F,
) -> Result<Making<'a, L, F::Cost>, Error>
    ensures ok { IfOk result (λ m. IsMadeSoFar L.form L.cmp F.Cost.cmp (F.node_cost costs.now) store.now nodes.now m) }
    ensures keys { OnOk result (AreKeysOf L.form nodes.now.filed) }
    ensures err { IfErr result (MayRefuse F.refuses) }
{
    let table = CostTable::new(alloc, nodes.class_count())?;
    let lacking = child_counts(nodes, alloc)?;
    let mut queue = BinaryHeap::new(alloc);
    for source in 0..nodes.class_count() {
        if lacking[source] == 0 {
            push_row(nodes, &table, costs, alloc, source, &mut queue)?;
        }
    }
    Ok(Making {
        table,
        queue,
        lacking,
    })
}

// Notes that one more child of a filed e-node has a cost. The e-node waits for its turn once all of its children have
// one.
fn tell<'a, L: Language, F: CostFunction<L>>(
    making: &mut Making<'a, L, F::Cost>,
    nodes: &'a Hashcons<L>,
    alloc: Global,
    costs: &F,
    source: usize,
) -> Result<(), Error>
    requires { 0 < slice_index_or making.old.lacking.items source 0 }
    ensures ok { OnOk result
        (TellsRow L.form L.cmp F.Cost.cmp (F.node_cost costs.now) nodes.now.filed source making.old making.new) }
    ensures err { IfErr result (MayRefuse F.refuses) }
{
    let left = making.lacking[source] - 1;
    making.lacking[source] = left;
    if left == 0 {
        push_row(
            nodes,
            &making.table,
            costs,
            alloc,
            source,
            &mut making.queue,
        )?;
    }
    Ok(())
}

// Notes for each of the sources that one more child of its filed e-node has a cost.
fn tell_all<'a, L: Language, F: CostFunction<L>>(
    making: &mut Making<'a, L, F::Cost>,
    nodes: &'a Hashcons<L>,
    alloc: Global,
    costs: &F,
    sources: &[u32],
) -> Result<(), Error>
    requires { (s : ℕ) → times s sources.now ≤ slice_index_or making.old.lacking.items s 0 }
    ensures ok { OnOk result
        (TellsRows L.form L.cmp F.Cost.cmp (F.node_cost costs.now) nodes.now.filed sources.now making.old making.new) }
    ensures err { IfErr result (MayRefuse F.refuses) }
{
    for source in sources {
        tell(making, nodes, alloc, costs, *source as usize)?;
    }
    Ok(())
}

// Returns the entry of a class by the candidate that has its turn.
fn entry_for<L: Language, C: Ord + Drop>(
    nodes: &Hashcons<L>,
    alloc: Global,
    class: usize,
    next: Candidate<L, C>,
) -> Result<CostEntry<L, C>, Error>
    requires { IsFiled nodes.now.filed next.source.0 }
    ensures ok { IfOk result (λ e. IsEntryFor L.form nodes.now.filed class next.entry e) }
    ensures err { IfErr result IsOutOfMemory }
{
    let Reverse(source) = next.source;
    let Reverse(cost) = next.cost;
    let Some((node, names)) = nodes.node(source) else {
        unreachable!()
    };
    let node = node.copy(alloc)?;
    let names = names.copy(alloc)?;
    Ok(CostEntry {
        class,
        cost,
        node,
        source,
        names,
    })
}

// Enters the cost of a class that has none, by the candidate that has its turn, and notes this for the e-nodes over the
// class.
fn take_turn<'a, L: Language, F: CostFunction<L>>(
    making: &mut Making<'a, L, F::Cost>,
    store: &Store<L>,
    nodes: &'a Hashcons<L>,
    users: &Usages,
    alloc: Global,
    costs: &F,
    class: usize,
    next: Candidate<'a, L, F::Cost>,
) -> Result<(), Error>
    requires turn { IsTurnOf L.form L.cmp F.Cost.cmp (F.node_cost costs.now) store.now nodes.now making.old next }
    requires users { AreUsers nodes.now.filed users.now }
    requires class { class ≡ find_class (entries_of store.now) next.source.0 }
    requires within { class < length nodes.now.filed }
    requires new_class { entry_in (table_of L.form making.old.table.entries.items) class ≡ None }
    ensures ok { OnOk result (IsMadeSoFar L.form L.cmp F.Cost.cmp (F.node_cost costs.now) store.now nodes.now making.new) }
    ensures work { OnOk result (work_left making.new ≤ work_left making.old) }
    ensures err { IfErr result (MayRefuse F.refuses) }
{
    let entry = entry_for(nodes, alloc, class, next)?;
    making.table.enter(entry)?;
    tell_all(making, nodes, alloc, costs, users.of(class))
}

// Takes the next candidate. The candidate enters if its class has no cost yet. Returns whether there was a candidate.
fn step<'a, L: Language, F: CostFunction<L>>(
    making: &mut Making<'a, L, F::Cost>,
    store: &Store<L>,
    nodes: &'a Hashcons<L>,
    users: &Usages,
    alloc: Global,
    costs: &F,
) -> Result<bool, Error>
    requires good { HasFinds store.now }
    requires count { length nodes.now.filed ≡ length store.now.classes }
    requires users { AreUsers nodes.now.filed users.now }
    requires made { IsMadeSoFar L.form L.cmp F.Cost.cmp (F.node_cost costs.now) store.now nodes.now making.old }
    ensures ok { OnOk result (IsMadeSoFar L.form L.cmp F.Cost.cmp (F.node_cost costs.now) store.now nodes.now making.new) }
    ensures more { IfOk result (λ more. more ≡ true → work_left making.new < work_left making.old) }
    ensures end { IfOk result
        (λ more. more ≡ false → IsDone L.form F.Cost.cmp (F.node_cost costs.now) store.now nodes.now making.new) }
    ensures err { IfErr result (MayRefuse F.refuses) }
{
    let Some(next) = making.queue.pop() else {
        return Ok(false);
    };
    let class = store.find_class(next.source.0);
    if making.table.get(class).is_none() {
        take_turn(making, store, nodes, users, alloc, costs, class, next)?;
    }
    Ok(true)
}

/// Returns the table of least costs of a graph: an entry for each class that has a term. In a rebuilt graph each live
/// class has one.
///
/// Each filed e-node waits once, from the time when all of its children have costs. So n filed e-nodes take n turns of
/// a heap, beside the finds and the calls of the cost function.
pub fn make_table<L: Language, F: CostFunction<L>>(
    store: &Store<L>,
    nodes: &Hashcons<L>,
    alloc: Global,
    costs: &F,
) -> Result<CostTable<L, F::Cost>, Error>
    requires good { HasFinds store.now }
    requires count { length nodes.now.filed ≡ length store.now.classes }
    ensures ok { IfOk result (λ t. IsLeastTable (table_state store.now nodes.now)
        (costs_by F.Cost.cmp (F.node_cost costs.now)) (table_of L.form t.entries.items)) }
    ensures fits { AtRest (table_state store.now nodes.now)
        → IfOk result (λ t. Fits F.Cost (table_state store.now nodes.now)
        (costs_by F.Cost.cmp (F.node_cost costs.now)) (table_of L.form t.entries.items)) }
    ensures ties { IfOk result (λ t. HasTiesBroken (table_state store.now nodes.now)
        (costs_by F.Cost.cmp (F.node_cost costs.now)) (comes_first L.form L.cmp nodes.now.filed)
        (table_of L.form t.entries.items)) }
    ensures filed { IfOk result (λ t. All (IsFiledAs L.form nodes.now.filed) t.entries.items) }
    ensures err { IfErr result (MayRefuse F.refuses) }
{
    let users = users_of(nodes, alloc)?;
    let mut making = start(store, nodes, alloc, costs)?;
    while step(&mut making, store, nodes, &users, alloc, costs)? {}
    Ok(making.table)
}
