//! The report of a runner that has stopped.
ghost use Rattle.std.specs.Prelude.{◌≡◌, false, IsSome, IfOk, IfErr};
ghost use Rattle.slotted_slots.specs.Error.{IsOutOfMemory};
ghost use Rattle.slotted_rules.specs.RunLoops.{IsReportOf};
ghost use Rattle.slotted_rules.specs.Seen.{parts_of};
ghost use Rattle.slotted_rules.specs.Turning.{measures};

use crate::clock::Clock;
use crate::hook::Hook;
use crate::iteration::IterationData;
use crate::report::Report;
use crate::runner::Runner;
use slotted_data::Analysis;
use slotted_languages::Language;
use slotted_slots::Error;

impl<
    L: Language,
    N: Analysis<L>,
    D: IterationData<L, N>,
    T: Clone,
    H: Hook<L, N, T>,
    K: Clock,
> Runner<L, N, D, T, H, K> {
    // Returns the report, with a clone of the reason.
    pub(crate) fn report(&self) -> Result<Report<T>, Error>
        requires well { self.now.egraph.failed ≡ false }
        requires stopped { IsSome self.now.stop_reason }
        ensures ok { IfOk result (IsReportOf T.is_clone (measures D.made) (parts_of self.now)) }
        ensures err { IfErr result IsOutOfMemory }
    {
        let stop_reason = match &self.stop_reason {
            Some(reason) => reason.clone()?,
            None => unreachable!(),
        };
        Ok(Report {
            iterations: self.iterations.len(),
            stop_reason,
            egraph_nodes: self.egraph.total_number_of_nodes(),
            egraph_classes: self.egraph.progress().number_of_classes,
            total_time: self.total_time(),
        })
    }
}
