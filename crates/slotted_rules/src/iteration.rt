//! What is stored of each turn of a run.
ghost use Rattle.std.specs.Prelude.{◌≡◌, ◌⊎◌, false, IfOk, IfErr};
ghost use Rattle.slotted_slots.specs.Error.{IsShortage};

use slotted_data::Analysis;
use slotted_graph::EGraph;
use slotted_languages::Language;
use slotted_slots::Error;
use std::alloc::Global;

/// What is stored of a turn.
#[derive(Drop, Debug)]
pub struct Iteration<D> {
    /// What the caller keeps of the turn.
    pub made: D,
    /// The number of filed e-nodes after the turn.
    pub num_nodes: usize,
    /// When the turn ended.
    pub finish_time: Option<u64>,
}

/// What a caller keeps of each turn.
///
/// It is a function of the graph after the turn and of how many turns came before.
pub trait IterationData<L: Language, N: Analysis<L>>: Drop {
    ghost use Rattle.std.specs.Prelude.{ℕ};
    ghost use Rattle.slotted_operations.specs.Graph.{Graph};
    ghost use Rattle.slotted_slots.specs.declared.error.Error.{Error};
    ghost use Rattle.slotted_slots.specs.declared.error.Error.TheVariants.{Failed};

    ghost made: { Graph → ℕ → Self };

    // The errors that `make` may return beside shortages.
    ghost refuses: { Error → Type 0 };

    /// Returns what is kept of a turn. `iterations` is the number of turns before. The graph has not failed.
    fn make(alloc: Global, graph: &EGraph<L, N>, iterations: usize) -> Result<Self, Error>
        requires { graph.now.failed ≡ false }
        ensures ok { IfOk result (λ d. d ≡ made graph.now iterations) }
        ensures err { IfErr result (λ e. IsShortage e ⊎ refuses e) };

    ghost never_failed: { ¬ refuses Failed };
}

/// Keeps nothing.
impl<L: Language, N: Analysis<L>> IterationData<L, N> for () {
    ghost made = { λ g n. tt };

    ghost refuses = { λ e. ⊥ };

    ghost never_failed = { λ r. r };

    fn make(alloc: Global, graph: &EGraph<L, N>, iterations: usize) -> Result<(), Error> {
        Ok(())
    }
}
