//! Printing a proof as a chain of whole terms.
ghost use Rattle.std.specs.Prelude.{◌<◌, length, IfErr, IsErrOf};
ghost use Rattle.slotted_slots.specs.Error.{IsOutOfMemory, IsShortage};
ghost use Rattle.slotted_graph.specs.Graph.{OnlyTakesSlots};
ghost use Rattle.slotted_graph.specs.Syn.{MakesForTermAt, RunsOutForTermAt};
ghost use Rattle.slotted_explain.specs.Chain.{AreWithin, from_class};
ghost use Rattle.slotted_explain.specs.Chain.{MakesForStep, MakesForSteps, MakesForTerms, MakesForTwoTermsOf};
ghost use Rattle.slotted_explain.specs.Chain.{RunsOutForTwoTermsOf, StepRunsOut, StepsRunOut, TermsRunOut};

use crate::flat_terms::{marked, name_others, names_in, replace_at, subterm};
use crate::steps::{FlatStep, from_side, mark_text, reason_text, to_side};
use slotted_changes::{Marked, named_like, texts_of_change};
use slotted_data::Analysis;
use slotted_graph::EGraph;
use slotted_proofs::ProvenEq;
use slotted_slots::{AppliedId, Error, SlotMap, SlotTable};
use slotted_terms::expr::RecExpr;
use slotted_terms::expr::printing::Printable;
use std::alloc::Global;
use std::fmt::Write;

// How the steps of a chain of terms are written.
#[derive(Clone, Copy)]
pub(crate) enum ChainForm {
    // A line for each step, in which `Rewrite=>` and the assertion stand before what it puts in.
    Flat,
    // A line before and one after each step, in which the changed place is marked, and the assertion between them.
    Marked,
}

// Returns the text of the left side, and the lines of each step. Each entry has a canonical term.
pub(crate) fn chain_text<L: Printable, N: Analysis<L>>(
    alloc: Global,
    graph: &mut EGraph<L, N>,
    p: ProvenEq,
    steps: &[FlatStep],
    form: ChainForm,
) -> Result<String, Error>
    requires entry { p < length graph.old.image.stored }
    requires within { AreWithin graph.old.image.stored steps.now }
    ensures takes { OnlyTakesSlots graph.old graph.new }
    ensures count { MakesForTerms graph.old graph.new p steps.now }
    ensures full { IsErrOf result Error.OutOfSlots → TermsRunOut graph.old graph.new p steps.now }
    ensures only { IfErr result IsShortage }
{
    let left = graph.proofs().equ(p).l.copy(alloc)?;
    match canonical_term(graph, &left)? {
        Some(head) => steps_text(alloc, graph, steps, form, head),
        None => Ok(String::new(alloc)),
    }
}

// Returns the text of the term, and the lines of each step. The first step begins with the term.
fn steps_text<L: Printable, N: Analysis<L>>(
    alloc: Global,
    graph: &mut EGraph<L, N>,
    steps: &[FlatStep],
    form: ChainForm,
    mut head: RecExpr<L>,
) -> Result<String, Error>
    requires { AreWithin graph.old.image.stored steps.now }
    ensures takes { OnlyTakesSlots graph.old graph.new }
    ensures count { MakesForSteps graph.old graph.new steps.now }
    ensures full { IsErrOf result Error.OutOfSlots → StepsRunOut graph.old graph.new steps.now }
    ensures only { IfErr result IsShortage }
{
    let mut text = opening(alloc, &head, steps, form, graph.table())?;
    for step in steps {
        take_step(alloc, graph, step, form, &mut head, &mut text)?;
    }
    Ok(text)
}

// Returns what stands before the lines of the steps: the text of the term, unless the first step writes it.
fn opening<L: Printable>(
    alloc: Global,
    head: &RecExpr<L>,
    steps: &[FlatStep],
    form: ChainForm,
    table: &SlotTable,
) -> Result<String, Error>
    ensures err { IfErr result IsOutOfMemory }
{
    match form {
        ChainForm::Marked if !steps.is_empty() => Ok(String::new(alloc)),
        _ => head.text(alloc, table),
    }
}

// Takes a step at its place of the term, and appends its lines.
fn take_step<L: Printable, N: Analysis<L>>(
    alloc: Global,
    graph: &mut EGraph<L, N>,
    step: &FlatStep,
    form: ChainForm,
    head: &mut RecExpr<L>,
    text: &mut String,
) -> Result<(), Error>
    requires { step.now.entry < length graph.old.image.stored }
    ensures takes { OnlyTakesSlots graph.old graph.new }
    ensures count { MakesForStep graph.old graph.new step.now }
    ensures full { IsErrOf result Error.OutOfSlots → StepRunsOut graph.old graph.new step.now }
    ensures only { IfErr result IsShortage }
{
    let Some(term) = subterm_after(alloc, graph, step, head)? else {
        return Ok(());
    };
    match form {
        ChainForm::Flat => {
            replace_at(head, &step.path, term);
            push_line(alloc, graph, step, head, text)
        }
        ChainForm::Marked => put_marked(alloc, graph, step, term, head, text),
    }
}

// Puts a term in at the place of a step, and appends the lines of the step. Bound names stay as far as the terms agree.
fn put_marked<L: Printable, N: Analysis<L>>(
    alloc: Global,
    graph: &EGraph<L, N>,
    step: &FlatStep,
    term: RecExpr<L>,
    head: &mut RecExpr<L>,
    text: &mut String,
) -> Result<(), Error>
    requires { step.now.entry < length graph.now.image.stored }
    ensures err { IfErr result IsOutOfMemory }
{
    let before = head.copy(alloc)?;
    replace_at(head, &step.path, term);
    let named = named_like(alloc, &before, head)?;
    *head = named;
    let texts = texts_of_change(alloc, &before, head, graph.table())?;
    let reason = reason_text(alloc, graph.proofs(), step)?;
    push_change(alloc, &texts, &reason, text)
}

// Appends two texts with a reason between them, each in a line of its own. The first text is left out if it is the last
// line already.
fn push_change(alloc: Global, texts: &Marked, reason: &str, text: &mut String) -> Result<(), Error>
    ensures err { IfErr result IsOutOfMemory }
{
    let first = &texts.first;
    let second = &texts.second;
    let break_before = if text.is_empty() { "" } else { "\n" };
    if text.lines().last() != Some(first.as_str()) {
        write!(text, "{break_before}{first}")?;
    }
    write!(text, "\n  = by {reason}\n{second}")?;
    Ok(())
}

// Appends the line of a step, after which the whole term is this one.
fn push_line<L: Printable, N: Analysis<L>>(
    alloc: Global,
    graph: &EGraph<L, N>,
    step: &FlatStep,
    head: &RecExpr<L>,
    text: &mut String,
) -> Result<(), Error>
    requires { step.now.entry < length graph.now.image.stored }
    ensures err { IfErr result IsOutOfMemory }
{
    let mark = mark_text(alloc, graph.proofs(), step)?;
    let line = marked(alloc, head, &step.path, &mark, graph.table())?;
    write!(text, "\n{line}")?;
    Ok(())
}

// Returns the subterm that a step puts in, with the names of the term in which it stands.
fn subterm_after<L: Printable, N: Analysis<L>>(
    alloc: Global,
    graph: &mut EGraph<L, N>,
    step: &FlatStep,
    head: &RecExpr<L>,
) -> Result<Option<RecExpr<L>>, Error>
    requires { step.now.entry < length graph.old.image.stored }
    ensures takes { OnlyTakesSlots graph.old graph.new }
    ensures count { MakesForStep graph.old graph.new step.now }
    ensures full { IsErrOf result Error.OutOfSlots → StepRunsOut graph.old graph.new step.now }
    ensures only { IfErr result IsShortage }
{
    let Some(at) = subterm(head, &step.path) else {
        return Ok(None);
    };
    let Some(mut names) = names_at(alloc, graph, step, at)? else {
        return Ok(None);
    };
    let to = to_side(alloc, graph.proofs(), step)?;
    name_others(alloc, &to, head, &mut names)?;
    renamed_term(alloc, graph, &to, &names)
}

// Returns the names that the slots of what a step begins with have in a term. The term is the canonical one up to
// names.
fn names_at<L: Printable, N: Analysis<L>>(
    alloc: Global,
    graph: &mut EGraph<L, N>,
    step: &FlatStep,
    at: &RecExpr<L>,
) -> Result<Option<SlotMap>, Error>
    requires { step.now.entry < length graph.old.image.stored }
    ensures takes { OnlyTakesSlots graph.old graph.new }
    ensures count { MakesForTwoTermsOf graph.old graph.new (from_class graph.old.image.stored step.now) }
    ensures full { IsErrOf result Error.OutOfSlots
        → RunsOutForTwoTermsOf graph.old graph.new (from_class graph.old.image.stored step.now) }
    ensures only { IfErr result IsShortage }
{
    let from = from_side(alloc, graph.proofs(), step)?;
    let Some(apart) = names_apart(alloc, graph, &from)? else {
        return Ok(None);
    };
    let Some(pattern) = renamed_term(alloc, graph, &from, &apart)? else {
        return Ok(None);
    };
    let names = names_in(alloc, &apart, &pattern, at)?;
    Ok(Some(names))
}

// Returns names for the slots of an id that do not stand in its canonical term, if the id is valid.
fn names_apart<L: Printable, N: Analysis<L>>(
    alloc: Global,
    graph: &mut EGraph<L, N>,
    a: &AppliedId,
) -> Result<Option<SlotMap>, Error>
    ensures takes { OnlyTakesSlots graph.old graph.new }
    ensures count { MakesForTermAt graph.old graph.new a.now.id.0 }
    ensures full { IsErrOf result Error.OutOfSlots → RunsOutForTermAt graph.old graph.new a.now.id.0 }
    ensures only { IfErr result IsShortage }
{
    let Some(term) = canonical_term(graph, a)? else {
        return Ok(None);
    };
    let mut names = SlotMap::new(alloc);
    name_others(alloc, a, &term, &mut names)?;
    Ok(Some(names))
}

// Returns the canonical term of an id whose slots are renamed, if that id is valid.
fn renamed_term<L: Printable, N: Analysis<L>>(
    alloc: Global,
    graph: &mut EGraph<L, N>,
    a: &AppliedId,
    names: &SlotMap,
) -> Result<Option<RecExpr<L>>, Error>
    ensures takes { OnlyTakesSlots graph.old graph.new }
    ensures count { MakesForTermAt graph.old graph.new a.now.id.0 }
    ensures full { IsErrOf result Error.OutOfSlots → RunsOutForTermAt graph.old graph.new a.now.id.0 }
    ensures only { IfErr result IsShortage }
{
    let m = a.m.compose_partial(alloc, names)?;
    if !m.is_bijection() {
        return Ok(None);
    }
    let renamed = AppliedId::new(a.id, m);
    canonical_term(graph, &renamed)
}

// Returns the canonical term of an id, if the id is valid.
fn canonical_term<L: Printable, N: Analysis<L>>(
    graph: &mut EGraph<L, N>,
    a: &AppliedId,
) -> Result<Option<RecExpr<L>>, Error>
    ensures takes { OnlyTakesSlots graph.old graph.new }
    ensures count { MakesForTermAt graph.old graph.new a.now.id.0 }
    ensures full { IsErrOf result Error.OutOfSlots → RunsOutForTermAt graph.old graph.new a.now.id.0 }
    ensures only { IfErr result IsShortage }
{
    if !graph.is_full(a) {
        return Ok(None);
    }
    let term = graph.get_syn_expr(a)?;
    Ok(Some(term))
}
