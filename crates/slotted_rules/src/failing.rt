//! Structural writes that are made of others fail the graph if memory or slots ran out.
ghost use Rattle.std.specs.Prelude.{◌≡◌, ◌⊎◌, true, IsErrAnd, IsTrue};
ghost use Rattle.slotted_slots.specs.Error.{IsShortage};

use slotted_data::Analysis;
use slotted_graph::EGraph;
use slotted_languages::Language;
use slotted_slots::Error;

/// Returns the outcome as it is, and fails the graph if memory or slots ran out.
pub fn fail_if_short<L: Language, N: Analysis<L>, T>(
    graph: &mut EGraph<L, N>,
    outcome: Result<T, Error>,
) -> Result<T, Error>
    ensures same { result ≡ outcome }
    ensures short { IsErrAnd outcome IsShortage → graph.new ≡ record graph.old { failed = true } }
    ensures other { ¬ IsErrAnd outcome IsShortage → graph.new ≡ graph.old }
    ensures left { IsTrue graph.new.failed ⊎ (graph.new ≡ graph.old) }
{
    if let Err(Error::OutOfMemory | Error::OutOfSlots) = &outcome {
        graph.fail();
    }
    outcome
}
