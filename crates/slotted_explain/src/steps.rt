//! The assertions that a proof uses, as rewrites of places of a term.
ghost use Rattle.std.specs.Prelude.{◌≡◌, ◌<◌, ◌∷◌, ◌++◌, [], length, reverse, IfOk, IfErr, OnOk};
ghost use Rattle.slotted_slots.specs.Error.{IsOutOfMemory};
ghost use Rattle.slotted_proofs.specs.Lines.{PartsAreEarlier};
ghost use Rattle.slotted_explain.specs.Chain.{AreWithin, IsChain, child_rewrite, child_rewrites, from_class};
ghost use Rattle.slotted_explain.specs.Chain.{own_step, rewrite, rewrites_below, to_class};

use slotted_proofs::{Proof, ProofList, ProvenEq};
use slotted_slots::{AppliedId, Error};
use std::alloc::Global;
use std::marker::Model;

// An asserted equation that rewrites one place of a term, or an entry that stands for several such equations. A turned
// one rewrites from right to left. The path lists the child to go down to at each e-node, from the top.
#[derive(Drop)]
pub(crate) struct FlatStep {
    pub(crate) entry: ProvenEq,
    pub(crate) turned: bool,
    pub(crate) path: Vec<usize>,
}

impl Model for FlatStep {
    ghost use Rattle.slotted_explain.specs.Chain.{Rewrite};

    ghost Value = { Rewrite };

    ghost view = { λ s. record { entry = s.entry; turned = s.turned; path = s.path.items } };
}

// Returns the assertions that a proof uses, in the order of use.
pub(crate) fn flat_steps(
    alloc: Global,
    proofs: &ProofList,
    p: ProvenEq,
) -> Result<Vec<FlatStep>, Error>
    requires within { p < length proofs.now }
    requires earlier { PartsAreEarlier proofs.now }
    ensures chain { IfOk result (λ steps. IsChain proofs.now p steps.items) }
    ensures within { IfOk result (λ steps. AreWithin proofs.now steps.items) }
    ensures err { IfErr result IsOutOfMemory }
{
    let mut steps = Vec::new(alloc);
    let mut stack = Vec::new(alloc);
    push_part(alloc, &mut stack, p, false, &[])?;
    while let Some(step) = stack.pop() {
        take_apart(alloc, proofs, step, &mut stack, &mut steps)?;
    }
    Ok(steps)
}

// Puts the parts of an entry onto the stack, the first one on top. An assertion is appended to the steps instead.
fn take_apart(
    alloc: Global,
    proofs: &ProofList,
    step: FlatStep,
    stack: &mut Vec<FlatStep>,
    steps: &mut Vec<FlatStep>,
) -> Result<(), Error>
    requires { step.entry < length proofs.now }
    ensures below { OnOk result (stack.new.items ≡ stack.old.items ++ reverse (rewrites_below proofs.now step)) }
    ensures own { OnOk result (steps.new.items ≡ steps.old.items ++ own_step proofs.now step) }
    ensures err { IfErr result IsOutOfMemory }
{
    match proofs.proof(step.entry) {
        Proof::Explicit(_) => steps.push(step)?,
        Proof::Reflexivity(_) => {}
        Proof::Symmetry(part) => push_part(alloc, stack, part.0, !step.turned, &step.path)?,
        Proof::Transitivity(parts) => {
            let last = if step.turned { parts.0 } else { parts.1 };
            let first = if step.turned { parts.1 } else { parts.0 };
            push_part(alloc, stack, last, step.turned, &step.path)?;
            push_part(alloc, stack, first, step.turned, &step.path)?;
        }
        Proof::Congruence(parts) => push_children(alloc, &parts.0, &step, stack)?,
    }
    Ok(())
}

// Puts a part that rewrites at this path onto the stack.
fn push_part(
    alloc: Global,
    stack: &mut Vec<FlatStep>,
    entry: ProvenEq,
    turned: bool,
    path: &[usize],
) -> Result<(), Error>
    ensures ok { OnOk result (stack.new.items ≡ stack.old.items ++ rewrite entry turned path.now ∷ []) }
    ensures err { IfErr result IsOutOfMemory }
{
    stack.push(FlatStep {
        entry,
        turned,
        path: Vec::from_slice(alloc, path)?,
    })?;
    Ok(())
}

// Puts the parts of the children onto the stack, the leftmost one on top.
fn push_children(
    alloc: Global,
    parts: &[ProvenEq],
    step: &FlatStep,
    stack: &mut Vec<FlatStep>,
) -> Result<(), Error>
    ensures ok { OnOk result (stack.new.items ≡ stack.old.items ++ reverse (child_rewrites step.now 0 parts.now)) }
    ensures err { IfErr result IsOutOfMemory }
{
    for k in (0..parts.len()).rev() {
        push_child(alloc, stack, parts[k], step, k)?;
    }
    Ok(())
}

// Puts a part that rewrites at a child of the step's place onto the stack.
fn push_child(
    alloc: Global,
    stack: &mut Vec<FlatStep>,
    entry: ProvenEq,
    step: &FlatStep,
    k: usize,
) -> Result<(), Error>
    ensures ok { OnOk result (stack.new.items ≡ stack.old.items ++ child_rewrite step.now k entry ∷ []) }
    ensures err { IfErr result IsOutOfMemory }
{
    let mut path = Vec::from_slice(alloc, &step.path)?;
    path.push(k)?;
    push_part(alloc, stack, entry, step.turned, &path)
}

// Returns the side that a step begins with.
pub(crate) fn from_side(
    alloc: Global,
    proofs: &ProofList,
    step: &FlatStep,
) -> Result<AppliedId, Error>
    requires { step.now.entry < length proofs.now }
    ensures class { IfOk result (λ a. a.id.0 ≡ from_class proofs.now step.now) }
    ensures err { IfErr result IsOutOfMemory }
{
    let equation = proofs.equ(step.entry);
    let side = if step.turned {
        &equation.r
    } else {
        &equation.l
    };
    side.copy(alloc)
}

// Returns the side that a step puts in.
pub(crate) fn to_side(
    alloc: Global,
    proofs: &ProofList,
    step: &FlatStep,
) -> Result<AppliedId, Error>
    requires { step.now.entry < length proofs.now }
    ensures class { IfOk result (λ a. a.id.0 ≡ to_class proofs.now step.now) }
    ensures err { IfErr result IsOutOfMemory }
{
    let equation = proofs.equ(step.entry);
    let side = if step.turned {
        &equation.l
    } else {
        &equation.r
    };
    side.copy(alloc)
}

// Returns `Rewrite=>` or `Rewrite<=`, and the text of the assertion.
pub(crate) fn mark_text(alloc: Global, proofs: &ProofList, step: &FlatStep) -> Result<String, Error>
    requires { step.now.entry < length proofs.now }
    ensures err { IfErr result IsOutOfMemory }
{
    let arrow = if step.turned { "<=" } else { "=>" };
    let reason = match proofs.proof(step.entry) {
        Proof::Explicit(explicit) => given_text(&explicit.0),
        _ => "-",
    };
    Ok(format!(in alloc; "Rewrite{arrow} {reason}")?)
}

// Returns the text of the assertion, and whether it is used backwards.
pub(crate) fn reason_text(
    alloc: Global,
    proofs: &ProofList,
    step: &FlatStep,
) -> Result<String, Error>
    requires { step.now.entry < length proofs.now }
    ensures err { IfErr result IsOutOfMemory }
{
    let reason = match proofs.proof(step.entry) {
        Proof::Explicit(explicit) => given_text(&explicit.0),
        _ => "-",
    };
    let turned = if step.turned { ", backwards" } else { "" };
    Ok(format!(in alloc; "{reason}{turned}")?)
}

// Returns the text, or `-` if there is none.
fn given_text(text: &Option<String>) -> &str {
    match text {
        Some(text) => text.as_str(),
        None => "-",
    }
}
