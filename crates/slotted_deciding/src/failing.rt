//! A refusal of a call that decides fails the graph.
ghost use Rattle.std.specs.Prelude.{◌≡◌, true, IsErr, IsOk};

use slotted_data::Analysis;
use slotted_graph::EGraph;
use slotted_languages::Language;
use slotted_slots::Error;

/// Returns the outcome as it is, and fails the graph if the outcome is an error.
pub(crate) fn fail_if_refused<L: Language, N: Analysis<L>, T>(
    graph: &mut EGraph<L, N>,
    outcome: Result<T, Error>,
) -> Result<T, Error>
    ensures same { result ≡ outcome }
    ensures refused { IsErr outcome → graph.new ≡ record graph.old { failed = true } }
    ensures done { IsOk outcome → graph.new ≡ graph.old }
{
    if outcome.is_err() {
        graph.fail();
    }
    outcome
}
