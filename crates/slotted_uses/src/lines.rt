//! The lines of a workspace, and the answers to them.
use crate::question::{Verdict, ask};
use slotted_decided::DecidedLimits;
use slotted_languages::Language;
use slotted_messages::Message;
use slotted_rule_texts::RuleText;
use slotted_terms::expr::printing::Printable;
use slotted_workspace::{Workspace, WorkspaceError};
use std::alloc::Global;

/// The answer to a line.
#[derive(Drop)]
pub enum Answer {
    /// An assertion or a rule was kept.
    Kept,
    /// A question was answered.
    Judged(Verdict),
    /// The line is neither an assertion, nor a rule, nor a question.
    Unknown,
    /// A text of the line is outside the grammar. Says what is wrong, and where.
    Refused(String),
}

/// Does what a line asks. A line that is refused asserts nothing, and keeps no rule.
pub fn carry_out<L: Printable>(
    alloc: Global,
    workspace: &mut Workspace<L>,
    line: &str,
) -> Result<Answer, WorkspaceError> {
    if let Some(text) = line.strip_prefix("ask ") {
        return answer_question(alloc, workspace, text);
    }
    if let Some(text) = line.strip_prefix("assert ") {
        return assert_equation(alloc, workspace, text);
    }
    match line.strip_prefix("rule ") {
        Some(text) => keep_rule(alloc, workspace, text),
        None => Ok(Answer::Unknown),
    }
}

// Returns what is wrong with a text of a pattern, if anything is.
fn fault<L: Language>(
    alloc: Global,
    workspace: &mut Workspace<L>,
    text: &str,
) -> Result<Option<String>, WorkspaceError> {
    match workspace.pattern(text) {
        Ok(_) => Ok(None),
        Err(WorkspaceError::Graph(error)) => {
            let message = Message::of_text(&error, text);
            Ok(Some(format!(in alloc; "{message}")?))
        }
        Err(error) => Err(error),
    }
}

// Returns what is wrong with the first of two texts of patterns in which something is.
fn first_fault<L: Language>(
    alloc: Global,
    workspace: &mut Workspace<L>,
    left: &str,
    right: &str,
) -> Result<Option<String>, WorkspaceError> {
    match fault(alloc, workspace, left)? {
        Some(fault) => Ok(Some(fault)),
        None => fault(alloc, workspace, right),
    }
}

fn answer_question<L: Printable>(
    alloc: Global,
    workspace: &mut Workspace<L>,
    text: &str,
) -> Result<Answer, WorkspaceError> {
    let Some((left, right)) = text.split_once(" = ") else {
        return Ok(Answer::Unknown);
    };
    if let Some(fault) = first_fault(alloc, workspace, left, right)? {
        return Ok(Answer::Refused(fault));
    }
    Ok(Answer::Judged(ask(workspace, left, right, DecidedLimits::usual())?))
}

fn assert_equation<L: Language>(
    alloc: Global,
    workspace: &mut Workspace<L>,
    text: &str,
) -> Result<Answer, WorkspaceError> {
    let Some((name, sides)) = text.split_once(": ") else {
        return Ok(Answer::Unknown);
    };
    let Some((left, right)) = sides.split_once(" = ") else {
        return Ok(Answer::Unknown);
    };
    if let Some(fault) = first_fault(alloc, workspace, left, right)? {
        return Ok(Answer::Refused(fault));
    }
    let left = workspace.add(left)?;
    let right = workspace.add(right)?;
    workspace.union_because(left, right, name)?;
    Ok(Answer::Kept)
}

// Keeps the rule of a text, in both directions if it is one of `<=>`. A condition may stand behind it.
fn keep_rule<L: Language>(
    alloc: Global,
    workspace: &mut Workspace<L>,
    text: &str,
) -> Result<Answer, WorkspaceError> {
    if let Ok(rule) = RuleText::read(alloc, text)
        && let Some(fault) = first_fault(alloc, workspace, rule.left, rule.right)?
    {
        return Ok(Answer::Refused(fault));
    }
    workspace.rule_text(text)?;
    Ok(Answer::Kept)
}
