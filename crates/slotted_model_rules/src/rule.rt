//! Rules: conditions, and what an application of a rule leaves.

ghost use Rattle.slotted_model.specs.Applied.{Applied};
ghost use Rattle.slotted_model.specs.State.{State};
ghost use Rattle.slotted_model_rules.specs.RuleClaims.{ConditionLaws, RuleLaws};

/// Proves the laws of conditions.
///
/// Each of the five kinds has its table. The second of two conditions is asked only if the first leaves the answer
/// open, and an error is handed on.
///
/// What is asked decides alone, so the answer of a condition without a test of the caller's own never changes.
pub fn condition_laws_hold()
    ensures { ConditionLaws }
{}

/// The requests of a caller's own code while a rule is applied: which two ids it wants to be equal, in which graph.
///
/// An analysis asks by an edit, and a method by a union. Any relation serves.
pub trait Requests {
    ghost asks: { State → Applied → Applied → Type 0 };
}

/// Proves the laws of rules.
///
/// Structural writes extend a rebuilt graph, and each explicit entry that they leave was asked for.
///
/// Take a substitution that was found, and whose condition holds in every graph between. After an apply, an equation
/// of its instances of both sides is in the proof list.
///
/// Each new explicit entry is such an equation, whose condition held in a graph between, or was asked for by the
/// caller.
///
/// If the progress measure has not changed, `find` maps each id as before.
pub fn rule_laws_hold<Q: Requests>()
    ensures { RuleLaws Q.asks }
{}
