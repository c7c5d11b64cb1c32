//! How the commands are done.
ghost use Rattle.std.specs.Prelude.{◌≡◌, [], ◌∷◌, IfOk, IfErr};
ghost use Rattle.slotted_commands.specs.Commands.{adds, compares, unites, explains, extracts, counts, command_of};
ghost use Rattle.slotted_commands.specs.Sessions.{Answered, ReadsBoth, LooksUp, LooksUpBoth, AddsBoth, answer_of};
ghost use Rattle.slotted_commands.specs.Sessions.{IsAnsweredWith, IsAnsweredIn, by_look_up, canonically};

use crate::answer::Answer;
use crate::command::Command;
use crate::explanation::explain_terms;
use crate::extraction::extract_term;
use slotted_explain::EGraph;
use slotted_slots::{AppliedId, Error};
use slotted_terms::expr::RecExpr;
use slotted_terms::expr::printing::Printable;
use std::alloc::Global;

/// Answers one line, without a line feed, over a graph.
pub fn answer<L: Printable>(alloc: Global, graph: &mut EGraph<L>, line: &str) -> Answer
    ensures { Answered L.read L.written graph.old graph.new (command_of line.now) result }
{
    match Command::read(line) {
        Command::Add(text) => to_answer(add(graph, text)),
        Command::Eq(left, right) => to_answer(compare(graph, left, right)),
        Command::Union(left, right) => to_answer(unite(graph, left, right)),
        Command::Explain(left, right) => to_answer(explain(alloc, graph, left, right)),
        Command::Extract(text) => to_answer(extract(alloc, graph, text)),
        Command::Symmetries => to_answer(count_symmetries(graph)),
        Command::Unknown => Answer::NoCommand,
    }
}

// Returns the answer, or the refusal as an answer.
fn to_answer(outcome: Result<Answer, Error>) -> Answer
    ensures { result ≡ answer_of outcome }
{
    match outcome {
        Ok(answer) => answer,
        Err(error) => Answer::Refused(error),
    }
}

// Adds the term of a text.
fn add<L: Printable>(graph: &mut EGraph<L>, text: &str) -> Result<Answer, Error>
    ensures { Answered L.read L.written graph.old graph.new (adds text.now) (answer_of result) }
{
    look_up(graph, text)?;
    Ok(Answer::Done)
}

// Adds the term of a text by look-up, and returns its id.
fn look_up<L: Printable>(graph: &mut EGraph<L>, text: &str) -> Result<AppliedId, Error>
    ensures ok { IfOk result (LooksUp L.read graph.old graph.new text.now) }
    ensures err { IfErr result (IsAnsweredIn by_look_up L.read L.written graph.old graph.new (text.now ∷ [])) }
{
    let term = graph.parse_expr(text)?;
    let id = graph.add_expr(&term)?;
    Ok(id)
}

// Returns the terms of two texts.
fn read_both<L: Printable>(
    graph: &mut EGraph<L>,
    left: &str,
    right: &str,
) -> Result<(RecExpr<L>, RecExpr<L>), Error>
    ensures ok { IfOk result (λ p. ReadsBoth L.read graph.old graph.new left.now right.now p.0 p.1) }
    ensures err { IfErr result (IsAnsweredWith L.read L.written graph.old graph.new (left.now ∷ right.now ∷ [])) }
{
    let left = graph.parse_expr(left)?;
    let right = graph.parse_expr(right)?;
    Ok((left, right))
}

// Adds the terms of two texts by look-up, and returns their ids.
fn look_up_both<L: Printable>(
    graph: &mut EGraph<L>,
    left: &str,
    right: &str,
) -> Result<(AppliedId, AppliedId), Error>
    ensures ok { IfOk result (λ p. LooksUpBoth L.read graph.old graph.new left.now right.now p.0 p.1) }
    ensures err { IfErr result
        (IsAnsweredIn by_look_up L.read L.written graph.old graph.new (left.now ∷ right.now ∷ [])) }
{
    let (one, two) = read_both(graph, left, right)?;
    let left = graph.add_expr(&one)?;
    let right = graph.add_expr(&two)?;
    Ok((left, right))
}

// Adds the terms of two texts by syntactic e-nodes, and returns their ids.
fn add_both<L: Printable>(
    graph: &mut EGraph<L>,
    left: &str,
    right: &str,
) -> Result<(AppliedId, AppliedId), Error>
    ensures ok { IfOk result (λ p. AddsBoth L.read graph.old graph.new left.now right.now p.0 p.1) }
    ensures err { IfErr result
        (IsAnsweredIn canonically L.read L.written graph.old graph.new (left.now ∷ right.now ∷ [])) }
{
    let (one, two) = read_both(graph, left, right)?;
    let left = graph.add_syn_expr(&one)?;
    let right = graph.add_syn_expr(&two)?;
    Ok((left, right))
}

// Adds the terms of two texts by look-up, and compares them.
fn compare<L: Printable>(graph: &mut EGraph<L>, left: &str, right: &str) -> Result<Answer, Error>
    ensures { Answered L.read L.written graph.old graph.new (compares left.now right.now) (answer_of result) }
{
    let (left, right) = look_up_both(graph, left, right)?;
    if graph.eq(&left, &right)? {
        Ok(Answer::Yes)
    } else {
        Ok(Answer::No)
    }
}

// Adds the terms of two texts and unites them.
fn unite<L: Printable>(graph: &mut EGraph<L>, left: &str, right: &str) -> Result<Answer, Error>
    ensures { Answered L.read L.written graph.old graph.new (unites left.now right.now) (answer_of result) }
{
    let (left, right) = add_both(graph, left, right)?;
    if graph.union(&left, &right)? {
        Ok(Answer::United)
    } else {
        Ok(Answer::WereEqual)
    }
}

// Explains why the terms of two texts are equal.
fn explain<L: Printable>(
    alloc: Global,
    graph: &mut EGraph<L>,
    left: &str,
    right: &str,
) -> Result<Answer, Error>
    ensures { Answered L.read L.written graph.old graph.new (explains left.now right.now) (answer_of result) }
{
    let (one, two) = read_both(graph, left, right)?;
    explain_terms(alloc, graph, &one, &two)
}

// Extracts a term of least cost that is equal to the term of a text.
fn extract<L: Printable>(alloc: Global, graph: &mut EGraph<L>, text: &str) -> Result<Answer, Error>
    ensures { Answered L.read L.written graph.old graph.new (extracts text.now) (answer_of result) }
{
    let id = look_up(graph, text)?;
    extract_term(alloc, graph, &id)
}

// Returns how many symmetries were met, and how many of them are open.
fn count_symmetries<L: Printable>(graph: &EGraph<L>) -> Result<Answer, Error>
    ensures { Answered L.read L.written graph.now graph.now counts (answer_of result) }
{
    let open = graph.open_symmetries()?;
    let met = graph.symmetries_met().len();
    Ok(Answer::Symmetries(met, open))
}
