//! Steps as they are written, over the lines before, and whole proofs.
ghost use Rattle.std.specs.Prelude.{◌≡◌, ◌≤◌, ◌+◌, List, Some, None, length, slice_get, take, IfOk, IfSome, IsTrue};
ghost use Rattle.slotted_theory.specs.Nameless.{DTerm};
ghost use Rattle.slotted_check.specs.declared.following.Judgement.TheVariants.{Checked};
ghost use Rattle.slotted_check.specs.Derived.{IsDerived};
ghost use Rattle.slotted_check.specs.Lines.{AreConsequences, EachLine, IsConsequence, IsProvedClaim, IsTermRow};
ghost use Rattle.slotted_check.specs.Parts.{SaysLine};
ghost use Rattle.slotted_check.specs.Rows.{IsCongruent};

use crate::steps::{
    Equation, is_congruent, is_reflexive, is_symmetric, is_transitive, line_at, says,
};
use crate::terms::is_term;
use std::alloc::{AllocError, Global};

/// How a line follows. All numbers but that of a given equation are those of earlier lines.
#[derive(Drop)]
pub enum Step {
    /// It is the given equation with this number, renamed.
    Given(usize),
    /// Both sides are one term.
    Reflexivity,
    /// It is this line, turned round.
    Symmetry(usize),
    /// It is one line behind another, by some middle term.
    Transitivity(usize, usize),
    /// It is one operator over the sides of these lines.
    Congruence(Vec<usize>),
}

/// What is said of a proof and its claim.
#[derive(Clone, Copy, PartialEq, Eq)]
pub enum Judgement {
    /// Each line follows, and the last one says the claim.
    Checked,
    /// The line with this number does not follow.
    Fails(usize),
    /// Each line follows, and the last one does not say the claim, or there is none.
    OtherClaim,
}

// Returns whether an equation is the line with a number, renamed.
fn is_renamed(
    alloc: Global,
    goal: &Equation,
    lines: &[Equation],
    number: usize,
) -> Result<bool, AllocError>
    ensures { IfOk result (λ b. IsTrue b → SaysLine lines.now goal.now.left.items goal.now.right.items) }
{
    match line_at(lines, number) {
        Some(line) => says(alloc, line, &goal.left, &goal.right),
        None => Ok(false),
    }
}

// Returns whether both sides of an equation are one term.
fn is_reflexive_term(alloc: Global, goal: &Equation) -> Result<bool, AllocError>
    ensures { IfOk result (λ b. IsTrue b → IsTermRow goal.now.left.items × (goal.now.left.items ≡ goal.now.right.items)) }
{
    if !is_term(alloc, &goal.left)? {
        return Ok(false);
    }
    Ok(is_reflexive(goal))
}

// Returns whether both sides of an equation are one operator over the sides of lines, and the left one is a term.
fn is_congruent_term(
    alloc: Global,
    goal: &Equation,
    lines: &[Equation],
    parts: &[usize],
) -> Result<bool, AllocError>
    ensures { IfOk result (λ b. IsTrue b → IsTermRow goal.now.left.items
        × IsCongruent (SaysLine lines.now) goal.now.left.items goal.now.right.items) }
{
    if !is_term(alloc, &goal.left)? {
        return Ok(false);
    }
    is_congruent(alloc, goal, lines, parts)
}

/// Returns whether an equation follows by a step from given equations and the lines before it.
///
/// If it does, and both sides of each of these are equal by some pairs of terms, then so are both of its sides.
pub fn step_follows(
    alloc: Global,
    goal: &Equation,
    given: &[Equation],
    lines: &[Equation],
    step: &Step,
) -> Result<bool, AllocError>
    ensures { IfOk result (λ b. IsTrue b → IsConsequence given.now lines.now goal.now) }
{
    match step {
        Step::Given(k) => is_renamed(alloc, goal, given, *k),
        Step::Reflexivity => is_reflexive_term(alloc, goal),
        Step::Symmetry(p) => match line_at(lines, *p) {
            Some(part) => is_symmetric(alloc, goal, part),
            None => Ok(false),
        },
        Step::Transitivity(p, q) => match (line_at(lines, *p), line_at(lines, *q)) {
            (Some(first), Some(second)) => is_transitive(alloc, goal, first, second),
            _ => Ok(false),
        },
        Step::Congruence(parts) => is_congruent_term(alloc, goal, lines, parts),
    }
}

// Returns the equation at a place, if there is one.
fn equation_at<'a>(lines: &'a [Equation], place: usize) -> Option<&'a Equation>
    ensures { IfSome result (λ e. slice_get lines.now place ≡ Some e.now) }
{
    if place < lines.len() {
        return Some(&lines[place]);
    }
    None
}

// Returns whether the line at a place follows by a step from given equations and the lines before it.
fn line_follows(
    alloc: Global,
    given: &[Equation],
    lines: &[Equation],
    place: usize,
    step: &Step,
) -> Result<bool, AllocError>
    ensures { IfOk result (λ b. IsTrue b → (E : List (DTerm × DTerm)) → EachLine E given.now
        → EachLine E (take place lines.now) → EachLine E (take (place + 1) lines.now)) }
{
    if place >= lines.len() {
        return Ok(false);
    }
    match equation_at(lines, place) {
        Some(goal) => {
            let (before, _) = lines.split_at(place);
            step_follows(alloc, goal, given, before, step)
        }
        None => Ok(false),
    }
}

/// Returns the number of a line that does not follow by its step from given equations and the lines before it. There
/// is none if each line follows.
///
/// If each does, and both sides of each given equation are equal by some pairs of terms, then so are both sides of each
/// line. A line past the steps does not follow.
pub fn first_fault(
    alloc: Global,
    given: &[Equation],
    lines: &[Equation],
    steps: &[Step],
) -> Result<Option<usize>, AllocError>
    ensures none { IfOk result (λ o. (o ≡ None) → AreConsequences given.now lines.now) }
    ensures some { IfOk result (λ o. IfSome o (λ n. n ≤ length lines.now)) }
{
    let mut place = 0;
    let mut left = steps;
    while place < lines.len() {
        if left.is_empty() || !line_follows(alloc, given, lines, place, &left[0])? {
            return Ok(Some(place));
        }
        place += 1;
        left = &left[1..];
    }
    Ok(None)
}

// Returns whether the last line is a claim, renamed.
fn ends_in(alloc: Global, lines: &[Equation], claim: &Equation) -> Result<bool, AllocError>
    ensures { IfOk result (λ b. IsTrue b → SaysLine lines.now claim.now.left.items claim.now.right.items) }
{
    match lines.len().checked_sub(1) {
        Some(last) => is_renamed(alloc, claim, lines, last),
        None => Ok(false),
    }
}

/// Judges the proof of a claim from given equations.
///
/// If it is checked, and both sides of each given equation are equal by some pairs of terms, then so are both sides of
/// the claim. So the claim is derivable from the given equations.
pub fn judge_proof(
    alloc: Global,
    given: &[Equation],
    lines: &[Equation],
    steps: &[Step],
    claim: &Equation,
) -> Result<Judgement, AllocError>
    ensures checked { IfOk result (λ j. (j ≡ Checked) → IsProvedClaim given.now claim.now) }
    ensures derived { IfOk result (λ j. (j ≡ Checked) → IsDerived given.now claim.now) }
{
    if let Some(place) = first_fault(alloc, given, lines, steps)? {
        return Ok(Judgement::Fails(place));
    }
    if ends_in(alloc, lines, claim)? {
        return Ok(Judgement::Checked);
    }
    Ok(Judgement::OtherClaim)
}
