//! Runs: turns of rules, until one stops.

ghost use Rattle.std.specs.Prelude.{ℕ, Option};
ghost use Rattle.slotted_model_rules.specs.RunnerClaims.{RunnerLaws};

/// The steps of a run: searches and applications of rules, calls of the hook, turns that end in an error, and what
/// all of these keep.
///
/// Graphs are of the type `S`, a hook stops with a `T`, a search finds an `F`, and a rule is a `Q`.
pub trait Steps<S, T, F, Q> {
    ghost searches: { Q → S → F → S → Type 0 };

    ghost applies: { Q → F → S → S → Type 0 };

    ghost hooks: { S → ℕ → S → Option T → Type 0 };

    ghost refuses: { S → ℕ → S → Type 0 };

    ghost extends: { S → S → Type 0 };
}

/// Proves the laws of runs.
///
/// Both runners stop for the first cause that holds, each in its order. A run ends in a turn that stops, and there is
/// one if rules and hook end.
///
/// A limit of n lets the runner store n + 2 turns at most, and `run_eqsat` count n. The report has the e-nodes of the
/// graph that is left and the last reading of the clock, which is read twice a turn.
///
/// A runner that has stopped reports the same again, and a turn that ends in an error is not stored. What searches,
/// applications and hooks keep is kept by a run.
pub fn runner_laws_hold<S, T, D, F, Q, W: Steps<S, T, F, Q>>()
    ensures { RunnerLaws S T D F Q W.searches W.applies W.hooks W.refuses W.extends }
{}
