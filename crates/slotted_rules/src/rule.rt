//! Rules as those see them who apply them.
ghost use Rattle.std.specs.Prelude.{◌≡◌, ◌↔◌, ◌⊎◌, false, IsTrue, IsErrAnd, IsErrOf, IfOk, IfErr, OnOk};
ghost use Rattle.slotted_slots.specs.Error.{IsShortage};
ghost use Rattle.slotted_graph.specs.Analysed.{LowersData};
ghost use Rattle.slotted_graph.specs.Extension.{ExtendsTo};

use slotted_data::Analysis;
use slotted_graph::EGraph;
use slotted_languages::Language;
use slotted_slots::Error;
use std::alloc::Global;

/// A rule: what it searches for in a graph, and what it does with what it found.
///
/// A rule type states what its search may find, what its apply may leave, and which errors both may return. A search
/// and an apply only extend the graph. Data only goes down, and the limit of rounds stays. If the graph fails in one of
/// them, memory or slots ran out.
pub trait RewriteT<L: Language, N: Analysis<L>>: Drop {
    ghost use Rattle.slotted_operations.specs.Graph.{Graph};
    ghost use Rattle.slotted_slots.specs.declared.error.Error.{Error};
    ghost use Rattle.slotted_slots.specs.declared.error.Error.TheVariants.{Failed};

    /// What a search finds.
    type Found: Drop;

    // The rule can be handed to calls on this graph.
    ghost valid: { Self → Graph → Type 0 };

    // `is_valid` is true for such a rule.
    ghost passes: { Self → Graph → Type 0 };

    // What a search finds, from one graph to the other.
    ghost searches: { Self → Graph → Self.Found → Graph → Type 0 };

    // What was found, in this graph or an older one, can be applied.
    ghost can_apply: { Self → Self.Found → Graph → Type 0 };

    // What an apply leaves, from one graph to the other.
    ghost applies: { Self → Self.Found → Graph → Graph → Type 0 };

    ghost refuses: { Self → Error → Type 0 };

    // What a refused search leaves, from one graph to the other, unless memory or slots ran out.
    ghost gives_up: { Self → Graph → Graph → Error → Type 0 } = { λ _ _ _ _. Unit {0} };

    // The same of a refused apply.
    ghost breaks_off: { Self → Self.Found → Graph → Graph → Error → Type 0 } = { λ _ _ _ _ _. Unit {0} };

    /// Returns whether the rule can be handed to calls on this graph, which has to know the rule's slots. Takes no
    /// memory.
    fn is_valid(&self, graph: &EGraph<L, N>) -> bool
        ensures valid { IsTrue result → (graph.now.failed ≡ false) × valid self.now graph.now }
        ensures exact { passes self.now graph.now → IsTrue result };

    /// Returns what the rule finds in the graph.
    fn search(&self, alloc: Global, graph: &mut EGraph<L, N>) -> Result<Self::Found, Error>
        requires { IsTrue graph.old.failed ⊎ valid self.now graph.old }
        ensures ok { IfOk result (λ f. searches self.now graph.old f graph.new) }
        ensures extends { IsTrue graph.new.failed ⊎ ExtendsTo graph.old graph.new }
        ensures lowers { IsTrue graph.new.failed ⊎ LowersData N.codes N.meaning graph.old graph.new }
        ensures stays { IsTrue graph.old.failed → graph.new ≡ graph.old }
        ensures failed { IsErrOf result Error.Failed ↔ IsTrue graph.old.failed }
        ensures fails { IsTrue graph.new.failed → IsErrAnd result (λ e. (e ≡ Error.Failed) ⊎ IsShortage e) }
        ensures left { IfErr result
            (λ e. (e ≡ Error.Failed) ⊎ IsShortage e ⊎ gives_up self.now graph.old graph.new e) }
        ensures err { IfErr result (λ e. (e ≡ Error.Failed) ⊎ IsShortage e ⊎ refuses self.now e) };

    /// Applies the rule to what it found. The rules of this crate modify no class here: `apply_rewrites` does so once
    /// all rules were applied, and whoever applies one rule calls `EGraph::modify`.
    fn apply(
        &self,
        alloc: Global,
        found: Self::Found,
        graph: &mut EGraph<L, N>,
    ) -> Result<(), Error>
        requires valid { IsTrue graph.old.failed ⊎ valid self.now graph.old }
        requires found { IsTrue graph.old.failed ⊎ can_apply self.now found graph.old }
        ensures ok { OnOk result (applies self.now found graph.old graph.new) }
        ensures extends { IsTrue graph.new.failed ⊎ ExtendsTo graph.old graph.new }
        ensures lowers { IsTrue graph.new.failed ⊎ LowersData N.codes N.meaning graph.old graph.new }
        ensures stays { IsTrue graph.old.failed → graph.new ≡ graph.old }
        ensures failed { IsErrOf result Error.Failed ↔ IsTrue graph.old.failed }
        ensures fails { IsTrue graph.new.failed ↔ IsErrAnd result (λ e. (e ≡ Error.Failed) ⊎ IsShortage e) }
        ensures left { IfErr result (λ e. IsTrue graph.new.failed ⊎ breaks_off self.now found graph.old graph.new e) }
        ensures err { IfErr result (λ e. (e ≡ Error.Failed) ⊎ IsShortage e ⊎ refuses self.now e) };

    ghost valid_stays: { (r : Self) (g h : Graph) → ExtendsTo g h → valid r g → valid r h };

    ghost searched_fits: { (r : Self) (g h : Graph) (f : Self.Found) → searches r g f h → can_apply r f h };

    ghost can_apply_stays: { (r : Self) (f : Self.Found) (g h : Graph) → ExtendsTo g h → can_apply r f g → can_apply r f h };

    ghost never_failed: { (r : Self) → ¬ refuses r Failed };
}
