//! Questions: whether two terms are equal by what was asserted, and by the rules.
ghost use Rattle.std.specs.Prelude.{IfOk, IfErr, OnOk};
ghost use Rattle.slotted_workspace.specs.Asked.{ChangesGraph, OfBoth, RefusesBoth};
ghost use Rattle.slotted_workspace.specs.Decided.{DecideRefused};
ghost use Rattle.slotted_uses.specs.Questions.{AnswersQuestion, Judges, QuestionRefused};

use slotted_decided::{DecidedLimits, DecidedStop};
use slotted_languages::Language;
use slotted_terms::expr::printing::Printable;
use slotted_workspace::{ExplainedText, Handle, Workspace, WorkspaceError};

/// The answer to a question.
#[derive(Drop)]
pub enum Verdict {
    /// The terms are equal. The text is a proof.
    Yes(String),
    /// The run ended saturated, and what is asserted then does not make the terms equal.
    No,
    /// A limit stopped the run, and what is asserted so far does not make the terms equal.
    Stopped,
    /// The graph has more symmetries than the limit lets it decide.
    Open,
}

/// Returns the verdict on two terms, after a run that stopped so.
pub fn judge<L: Printable>(
    workspace: &mut Workspace<L>,
    left: Handle,
    right: Handle,
    stop: DecidedStop,
    limit: usize,
) -> Result<Verdict, WorkspaceError>
    ensures ok { IfOk result (λ x. OfBoth workspace.old left right
        (λ t u. Judges L.written workspace.old.graph workspace.new.graph stop t u x)) }
    ensures rest { OnOk result (ChangesGraph workspace.old workspace.new) }
    ensures err { IfErr result (RefusesBoth workspace.old workspace.new left right
        (λ _ _. DecideRefused workspace.old.graph workspace.new.graph)) }
{
    match workspace.decided_explain(left, right, limit)? {
        ExplainedText::Proved(proof) => Ok(Verdict::Yes(proof)),
        ExplainedText::Undecided => Ok(Verdict::Open),
        ExplainedText::Unequal => Ok(if stop == DecidedStop::Saturated {
            Verdict::No
        } else {
            Verdict::Stopped
        }),
    }
}

/// Adds two terms, runs the rules within limits, and returns the verdict on the terms.
///
/// A yes follows from what was asserted and from instances of the rules. A no says that the equation does not follow
/// from the instances that a saturated run made. Other instances of the rules may give more.
pub fn ask<L: Printable>(
    workspace: &mut Workspace<L>,
    left: &str,
    right: &str,
    limits: DecidedLimits,
) -> Result<Verdict, WorkspaceError>
    ensures ok { IfOk result (AnswersQuestion L.form L.read L.written limits workspace.old workspace.new left.now right.now) }
    ensures err { IfErr result (QuestionRefused L.form L.read limits workspace.old workspace.new left.now right.now) }
{
    let first = workspace.add(left)?;
    let second = workspace.add(right)?;
    let report = workspace.run_decided(limits)?;
    judge(workspace, first, second, report.stop, limits.variants)
}
