//! Why runs stop, and what they report.

use std::fmt;

/// Why a run stops.
#[derive(Drop, Debug, Clone)]
pub enum StopReason<T = String> {
    /// No rule changed the graph's progress measure.
    Saturated,
    /// More turns were taken than the limit allows.
    IterationLimit,
    /// More time has passed than the limit allows.
    TimeLimit,
    /// The graph has more filed e-nodes than the limit allows.
    NodeLimit,
    /// The hook stopped the run, for this reason.
    Other(T),
}

/// The result of a call that may stop a run.
pub type RunnerResult<X, T = String> = Result<X, StopReason<T>>;

/// The report of a run.
#[derive(Drop, Debug, Clone)]
pub struct Report<T = String> {
    /// How many turns were taken.
    pub iterations: usize,
    /// Why the run stopped.
    pub stop_reason: StopReason<T>,
    /// The number of filed e-nodes.
    pub egraph_nodes: usize,
    /// The number of classes: for a `Runner` all that were ever made, for `run_eqsat` the live ones.
    pub egraph_classes: usize,
    /// The time from the start to the end, in nanoseconds.
    pub total_time: u64,
}

/// Prints the name of the case, or the hook's own reason.
impl<T: fmt::Display> fmt::Display for StopReason<T> {
    ghost use Rattle.slotted_rules.specs.Texts.{reason_text};

    ghost output = { λ r. reason_text T.output r };

    fn fmt<W: fmt::Write>(&self, f: &mut fmt::Formatter<W>) -> fmt::Result {
        match self {
            StopReason::Saturated => f.write_str("Saturated"),
            StopReason::IterationLimit => f.write_str("IterationLimit"),
            StopReason::TimeLimit => f.write_str("TimeLimit"),
            StopReason::NodeLimit => f.write_str("NodeLimit"),
            StopReason::Other(reason) => write!(f, "{reason}"),
        }
    }
}

/// Prints the counts and the reason, as `2 turns, 8 e-nodes, 7 classes: Saturated`.
impl<T: fmt::Display> fmt::Display for Report<T> {
    ghost use Rattle.slotted_rules.specs.Texts.{report_text};

    ghost output = { λ r. report_text T.output r };

    fn fmt<W: fmt::Write>(&self, f: &mut fmt::Formatter<W>) -> fmt::Result {
        let turns = self.iterations;
        let nodes = self.egraph_nodes;
        let classes = self.egraph_classes;
        let reason = &self.stop_reason;
        write!(
            f,
            "{turns} turns, {nodes} e-nodes, {classes} classes: {reason}"
        )
    }
}
