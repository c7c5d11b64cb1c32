//! Runs of the rules of a session.
ghost use Rattle.std.specs.Prelude.{◌≡◌, false};
ghost use Rattle.slotted_lines.specs.AnsweredIn.{RunAnswers};
ghost use Rattle.slotted_lines.specs.States.{AreSearchable, state_of};

use crate::session::Session;
use crate::still::StillClock;
use slotted_graph::EGraph;
use slotted_languages::Language;
use slotted_rules::{NoHook, Report, Runner};
use slotted_slots::{Error, SlotTable};
use std::alloc::Global;
use std::convert::Infallible;
use std::mem;

// The runner of a session: without data, with a hook that does nothing and a clock that stands still.
type RunnerOf<L> = Runner<L, (), (), Infallible, NoHook, StillClock>;

// Runs the rules over the graph, which the runner holds meanwhile.
pub(crate) fn run_rules<L: Language>(
    alloc: Global,
    session: &mut Session<L>,
    limit: u32,
) -> Result<Report<Infallible>, Error>
    requires { AreSearchable L.form (state_of session.old) }
    ensures answers { RunAnswers L.form limit (state_of session.old) (state_of session.new) result }
    ensures valid { AreSearchable L.form (state_of session.new) }
{
    let runner: RunnerOf<L> = Runner::new(alloc, SlotTable::new(alloc), (), StillClock)?;
    let mut runner = runner.with_iter_limit(limit as usize);
    mem::swap(&mut runner.egraph, &mut session.graph);
    let outcome = runner.run(&session.rules);
    mem::swap(&mut runner.egraph, &mut session.graph);
    let _ = runner.into_table();
    outcome
}
