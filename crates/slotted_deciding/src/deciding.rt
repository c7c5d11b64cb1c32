//! Deciding a graph.
ghost use Rattle.std.specs.Prelude.{◌≡◌, ◌⊎◌, ◌↔◌, [], IfErr, IfOk, IsErr, IsErrOf, IsNone, IsTrue, OnOk};
ghost use Rattle.slotted_operations.specs.Graph.{OnlyTakesSlots};
ghost use Rattle.slotted_graph.specs.States.{IsGraph};
ghost use Rattle.slotted_deciding.specs.Equality.{IsDecidedGraph};
ghost use Rattle.slotted_graph.specs.Analysed.{LowersData};
ghost use Rattle.slotted_deciding.specs.Steps.{CanRefuse, GoesTo, LeadsTo};

use crate::failing::fail_if_refused;
use crate::settling::{Missing, all_missing, missing_by_generators};
use crate::uniting::unite_all;
use slotted_data::Analysis;
use slotted_graph::EGraph;
use slotted_languages::Language;
use slotted_slots::Error;
use std::alloc::Global;

// Returns what the graph lacks. The classes from this one on are looked at first, by the generators of the groups alone.
fn any_missing<L: Language, N: Analysis<L>>(
    alloc: Global,
    graph: &mut EGraph<L, N>,
    first: usize,
) -> Result<Vec<Missing<L>>, Error>
    requires graph { IsGraph graph.old }
    ensures none { IfOk result (λ v. v.items ≡ [] → IsDecidedGraph graph.new) }
    ensures takes { OnOk result (OnlyTakesSlots graph.old graph.new) }
    ensures goes { OnOk result (LeadsTo N.codes N.meaning graph.old graph.new) }
    ensures err { IfErr result CanRefuse }
{
    let missing = missing_by_generators(alloc, graph, first)?;
    if !missing.is_empty() {
        return Ok(missing);
    }
    all_missing(alloc, graph)
}

// Adds and unites what is missing, until nothing is, or `limit` e-nodes were united. Returns whether nothing is.
fn settle<L: Language, N: Analysis<L>>(
    alloc: Global,
    graph: &mut EGraph<L, N>,
    limit: usize,
) -> Result<bool, Error>
    requires graph { IsGraph graph.old }
    ensures decided { IfOk result (λ y. IsTrue y → IsDecidedGraph graph.new) }
    ensures kept { IsDecidedGraph graph.old → OnOk result (OnlyTakesSlots graph.old graph.new) }
    ensures goes { OnOk result (LeadsTo N.codes N.meaning graph.old graph.new) }
    ensures err { IfErr result CanRefuse }
{
    let mut first = graph.progress().number_of_classes;
    let mut left = limit;
    for _ in 0..limit {
        let missing = any_missing(alloc, graph, first)?;
        if missing.is_empty() {
            return Ok(true);
        }
        if left == 0 {
            return Ok(false);
        }
        first = graph.progress().number_of_classes;
        left = unite_all(alloc, graph, &missing, left)?;
    }
    Ok(any_missing(alloc, graph, first)?.is_empty())
}

/// Decides the symmetries of a graph: adds each e-node that it lacks, and unites it, until none is missing or `limit`
/// e-nodes were united. Returns whether the graph is decided.
///
/// Then `is_equal_up_to_symmetries` says yes to two ids if and only if their terms are derivably equal. Nothing is
/// asserted: each union is of an equation that a checked step proved. Classes are not modified, and what was made waits
/// to be modified.
pub fn decide<L: Language, N: Analysis<L>>(
    alloc: Global,
    graph: &mut EGraph<L, N>,
    limit: usize,
) -> Result<bool, Error>
    ensures decided { IfOk result (λ y. IsTrue y → IsDecidedGraph graph.new) }

    // A graph that met no symmetry is decided as it is.
    ensures none_met { graph.old.image.symmetries ≡ [] → IfOk result IsTrue × (graph.new ≡ graph.old) }

    // To decide a decided graph takes fresh slots alone.
    ensures kept { IsDecidedGraph graph.old → OnOk result (OnlyTakesSlots graph.old graph.new) }

    // What was there stays, and nothing is asserted. Data of the analysis only goes down.
    ensures goes { IsTrue graph.new.failed ⊎ GoesTo graph.old graph.new }
    ensures lowers { IsTrue graph.new.failed ⊎ LowersData N.codes N.meaning graph.old graph.new }

    ensures stays { IsTrue graph.old.failed → graph.new ≡ graph.old }
    ensures failed { IsErrOf result Error.Failed ↔ IsTrue graph.old.failed }
    ensures fails { IsTrue graph.new.failed ↔ IsErr result }
    ensures only { IfErr result (λ e. (e ≡ Error.Failed) ⊎ CanRefuse e) }
{
    if graph.is_failed() {
        return Err(Error::Failed);
    }
    if graph.symmetries_met().is_empty() {
        return Ok(true);
    }
    let outcome = settle(alloc, graph, limit);
    fail_if_refused(graph, outcome)
}
