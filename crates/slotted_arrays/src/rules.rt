//! The rules of array programs, and what their operators cost.
use slotted_slots::Error;
use slotted_symbols::SymbolLang;
use slotted_weights::OperatorWeights;
use slotted_workspace::{Workspace, WorkspaceError};
use std::alloc::Global;

// Functions, then arrays. `(slide n s xs)` is the array of the windows of xs of length n, s apart.
const RULES: [&str; 15] = [
    "beta: (app (lam $x ?b) ?t) => ?b[(var $x) := ?t]",
    "eta: (lam $x (app ?f (var $x))) => ?f if $x not in ?f",
    "let: (let $x ?b ?t) => ?b[(var $x) := ?t]",
    "compose: (compose ?f ?g) => (lam $x (app ?f (app ?g (var $x))))",
    "first: (first (pair ?a ?b)) => ?a",
    "second: (second (pair ?a ?b)) => ?b",
    "map_identity: (map (lam $x (var $x)) ?xs) => ?xs",
    "map_fusion: (map ?f (map ?g ?xs)) => (map (lam $x (app ?f (app ?g (var $x)))) ?xs)",
    "map_fission: (map (lam $x (app ?f ?b)) ?xs) => (map ?f (map (lam $x ?b) ?xs)) if $x not in ?f",
    "zip_left: (zip (map ?f ?xs) ?ys) => (map (lam $p (pair (app ?f (first (var $p))) (second (var $p)))) (zip ?xs ?ys))",
    "zip_right: (zip ?xs (map ?g ?ys)) => (map (lam $p (pair (first (var $p)) (app ?g (second (var $p))))) (zip ?xs ?ys))",
    "reduce_map: (reduce ?f ?e (map ?g ?xs)) => (reduce (lam $a (lam $x (app (app ?f (var $a)) (app ?g (var $x))))) ?e ?xs)",
    "slide_map: (map (lam $w (map ?f (var $w))) (slide ?n ?s ?xs)) => (slide ?n ?s (map ?f ?xs)) if $w not in ?f",
    "transpose_map: (transpose (map (lam $r (map ?f (var $r))) ?xs)) <=> (map (lam $r (map ?f (var $r))) (transpose ?xs)) if $r not in ?f",
    "transpose_twice: (transpose (transpose ?xs)) => ?xs",
];

// What each operator that walks over an array costs. All others cost 1.
const WALKS: [&str; 5] = ["map", "zip", "reduce", "slide", "transpose"];

const WALK_COST: u64 = 100;

/// Keeps the rules in a workspace, as sparing ones.
pub fn keep_rules(workspace: &mut Workspace<SymbolLang>) -> Result<(), WorkspaceError> {
    workspace.set_sparing(true);
    for rule in &RULES {
        workspace.rule_text(rule)?;
    }
    Ok(())
}

/// Returns the weights of operators: 100 for each walk over an array, and 1 for each other operator.
pub fn walk_weights(alloc: Global) -> Result<OperatorWeights, Error> {
    let mut weights = OperatorWeights::new(alloc);
    for word in &WALKS {
        weights.set(alloc, word, WALK_COST)?;
    }
    Ok(weights)
}
