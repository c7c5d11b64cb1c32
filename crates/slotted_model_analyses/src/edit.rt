//! Edits: what an analysis asks for a class, made in rounds.

ghost use Rattle.std.specs.Prelude.{ℕ, List};
ghost use Rattle.slotted_model_analyses.specs.Rounds.{Edit};
ghost use Rattle.slotted_model_analyses.specs.EditClaims.{EditLaws};

/// The edits that an analysis may ask for a class, by the class's data and slots. Any relation serves.
pub trait Asks<D> {
    ghost may_ask: { D → List ℕ → Edit → Type 0 };
}

/// Proves the laws of edits in rounds.
///
/// Each edit leads from one rebuilt graph to another, and what it makes or changes waits for the next round.
///
/// Nothing is asserted in rounds but what the analysis asked for the data of a live class in a graph between. What
/// adding a tree returns is what the look-up of the tree says after the rounds.
pub fn edit_laws_hold<D, M: Asks<D>>()
    ensures { EditLaws D M.may_ask }
{}
