//! The counts of rebuilds.
ghost use Rattle.std.specs.Prelude.{◌≡◌, ◌⊎◌, ℕ, List, IsTrue};
ghost use Rattle.slotted_classes.specs.Counts.{last_count};
ghost use Rattle.slotted_operations.specs.Graph.{Graph, totals_of};
ghost use Rattle.slotted_graph.specs.Analysed.{LowersDataWith};
ghost use Rattle.slotted_graph.specs.Counted.{HasNoHeights, IsWithinCounts, RiseWithin, TellsRebuild, TellsTotals};
ghost use Rattle.slotted_graph.specs.Extension.{ExtendsTo};

use super::EGraph;
use slotted_classes::RebuildCount;
use slotted_data::{Analysis, last_rebuild, rebuild_totals};
use slotted_languages::Language;

impl<L: Language, N: Analysis<L>> EGraph<L, N> {
    /// Returns what the last rebuild did: how many e-nodes were filed, which size it found and left, and how many turns
    /// it took.
    ///
    /// A turn is one e-node taken from the pending list. The size of a graph is the number of its live classes and of
    /// their slots, with the heights of their data.
    ///
    /// A write rebuilds the graph, and then its data goes upwards. If that takes a turn, it counts as a rebuild of its
    /// own, and is the last one. Both sizes have the heights of the data as they are now, also for a rebuild that reads
    /// no data.
    ///
    /// All counts are 0 in a new graph. A union that answers false is counted as a rebuild without turns. Takes no
    /// memory.
    pub fn last_rebuild(&self) -> RebuildCount
        // The turns are at most one for each e-node, and one more for each unit by which the size fell. The size that
        // was left is the graph's.
        ensures told { IsTrue self.now.failed ⊎ TellsRebuild N.codes N.meaning self.now result }
        ensures bound { IsTrue self.now.failed ⊎ IsWithinCounts self.now }

        // If no data has a height above 0, data never goes upwards.
        ensures still { HasNoHeights N.meaning → result ≡ last_count self.now.image.counts }
    {
        if self.failed {
            return self.store.last_rebuild();
        }
        last_rebuild(&self.store, &self.data, &self.analysis)
    }

    /// Returns the turns of all rebuilds so far, those of data included, and the sum of their bounds. Each sum stays at
    /// the largest number if it reaches that. A failed graph knows no turns of data. Takes no memory.
    pub fn rebuild_totals(&self) -> (u64, u128)
        // The first sum is at most the second one, unless the second one is the largest number.
        ensures totals { IsTrue self.now.failed ⊎ TellsTotals N.codes self.now result }
        ensures still { HasNoHeights N.meaning → result ≡ totals_of self.now }
    {
        if self.failed {
            return self.store.rebuild_totals();
        }
        rebuild_totals(&self.store, &self.data)
    }
}

/// Proves that the totals over all rebuilds rise by a call that extends a graph and only lowers data. The total of
/// turns rises by no more than that of bounds, until the latter is the largest number.
pub fn totals_rise<L: Language, N: Analysis<L>>()
    ensures { (given : List (ℕ × N.Data)) (g h : Graph) (t u : ℕ × ℕ) → ExtendsTo g h → LowersDataWith given N.codes N.meaning g h
        → TellsTotals N.codes g t → TellsTotals N.codes h u → RiseWithin t u }
{}
