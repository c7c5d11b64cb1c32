//! What a line does to a session.
ghost use Rattle.std.specs.Prelude.{◌≡◌};
ghost use Rattle.slotted_lines.specs.AnsweredIn.{AnsweredIn, told_of_rule, told_of_run};
ghost use Rattle.slotted_lines.specs.Requests.{session_command_of};
ghost use Rattle.slotted_lines.specs.States.{AreSearchable, state_of};

use crate::request::Request;
use crate::rules::add_rule;
use crate::runs::run_rules;
use crate::session::Session;
use crate::told::{Run, Told};
use slotted_commands::Answer;
use slotted_commands::session::answer;
use slotted_rules::Report;
use slotted_slots::Error;
use slotted_terms::expr::printing::Printable;
use std::alloc::Global;
use std::convert::Infallible;

/// Answers one line, without a line feed, over a session.
pub fn answer_in<L: Printable>(alloc: Global, session: &mut Session<L>, line: &str) -> Told
    requires { AreSearchable L.form (state_of session.old) }
    ensures answers { AnsweredIn L.read L.written L.form (state_of session.old) (state_of session.new)
        (session_command_of line.now) result }
    ensures valid { AreSearchable L.form (state_of session.new) }
{
    match Request::read(line) {
        Request::Rule(name, left, right) => tell_rule(add_rule(alloc, session, name, left, right)),
        Request::Run(limit) => {
            let before = session.graph.rebuild_totals();
            let outcome = run_rules(alloc, session, limit);
            let after = session.graph.rebuild_totals();
            tell_run(outcome, before, after)
        }
        Request::Plain(line) => Told::Plain(answer(alloc, &mut session.graph, line)),
        Request::Unknown => Told::Plain(Answer::NoCommand),
    }
}

// Returns the answer to a rule.
fn tell_rule(outcome: Result<(), Error>) -> Told
    ensures { result ≡ told_of_rule outcome }
{
    match outcome {
        Ok(()) => Told::Plain(Answer::Done),
        Err(error) => Told::Plain(Answer::Refused(error)),
    }
}

// Returns the answer to a run, by the totals of rebuilds before and after.
fn tell_run(
    outcome: Result<Report<Infallible>, Error>,
    before: (u64, u128),
    after: (u64, u128),
) -> Told
    ensures { result ≡ told_of_run outcome before after }
{
    match outcome {
        Ok(report) => Told::Ran(Run {
            turns: report.iterations,
            reason: report.stop_reason,
            nodes: report.egraph_nodes,
            rebuild_turns: after.0.saturating_sub(before.0),
            rebuild_bound: after.1.saturating_sub(before.1),
        }),
        Err(error) => Told::Plain(Answer::Refused(error)),
    }
}
