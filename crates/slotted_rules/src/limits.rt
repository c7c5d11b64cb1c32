//! Limits of runs.
ghost use Rattle.std.specs.Prelude.{◌≡◌, None};
ghost use Rattle.slotted_model_rules.specs.Runners.{usual_limits};
ghost use Rattle.slotted_rules.specs.Seen.{limits_of, start_of};

/// The limits of a runner, and when it started.
#[derive(Drop, Debug)]
pub struct RunnerLimits {
    // The limit of turns.
    pub(crate) iterations: usize,
    // The limit of filed e-nodes.
    pub(crate) nodes: usize,
    // The limit of time, in nanoseconds.
    pub(crate) time: u64,
    // The reading before the first turn.
    pub(crate) start: Option<u64>,
}

impl RunnerLimits {
    // Returns the usual limits: 30 turns, 10,000 e-nodes, and a minute.
    pub(crate) fn usual() -> Self
        ensures limits { limits_of result ≡ usual_limits }
        ensures start { start_of result ≡ None }
    {
        RunnerLimits {
            iterations: 30,
            nodes: 10_000,
            time: 60_000_000_000,
            start: None,
        }
    }
}
