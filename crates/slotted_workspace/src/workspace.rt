//! The workspace.
ghost use Rattle.std.specs.Prelude.{◌≡◌, ◌⊎◌, ◌++◌, ◌+◌, ◌-◌, ◌^◌, [], ◌∷◌, None, Some, length, IsOk, IfOk, IfErr, IsTrue, OnErr, OnOk};
ghost use Rattle.slotted_operations.specs.Image.{CountsOpen};
ghost use Rattle.slotted_costs.specs.Costs.{costs_by};
ghost use Rattle.slotted_operations.specs.Graph.{OnlyReads};
ghost use Rattle.slotted_workspace.specs.Asked.{AddsKept, AddRefused, ChainRefused, ChainsTerms, ChangesGraph, Compares, ExplainsTerms};
ghost use Rattle.slotted_workspace.specs.Asked.{ExplainRefused, ExtractsTerm, ExtractRefused, HadFailed};
ghost use Rattle.slotted_workspace.specs.Asked.{OfBoth, OfOne, Refuses, RefusesBoth, RefusesOne, UnitesTerms};
ghost use Rattle.slotted_slots.specs.Table.{gives, named_of};
ghost use Rattle.slotted_workspace.specs.Asked.{NamingRefused, UnionRefused, AddsTerm, KeepsRule, RuleRefused};
ghost use Rattle.slotted_workspace.specs.Asked.{DrawRefused, Draws, ExtractsBy, ExtractByRefused};
ghost use Rattle.slotted_workspace.specs.Asked.{HasMatches, PatternRefused, ReadsPattern, SearchRefused};
ghost use Rattle.slotted_workspace.specs.Decided.{DecidedRunRefused, DecideRefused, DecidesGraph, ExtractDecidedRefused, ExtractsDecided, JudgesTerms, ProvesTerms, RunsDecided};
ghost use Rattle.slotted_workspace.specs.RuleTexts.{KeepsRules, RefusesText};
ghost use Rattle.slotted_workspace.specs.Runs.{HasRun, OfRules, RunRefused};
ghost use Rattle.slotted_workspace.specs.Saturating.{HasRulesRun};
ghost use Rattle.slotted_workspace.specs.Spaces.{empty_space, term_at};
ghost use Rattle.slotted_workspace.specs.Turns.{TakesTurn, TurnRefused};

use crate::deciding::{ExplainedText, decided, judged, proved, run_rules_decided};
use crate::drawing::{drawn, dumped};
use crate::error::WorkspaceError;
use crate::explaining::{chain, explanation, marked_chain};
use crate::extracting::{Extracted, LeastText, cheapest, least_of_all};
use crate::handle::Handle;
use crate::kept::{Kept, both_at, kept_at};
use crate::numbers::WorkspaceNumbers;
use crate::reading::{read_kept, read_pattern, read_term};
use crate::rule_texts::rules_of_text;
use crate::running::{Limits, is_saturated, run_rules};
use crate::searching::count_found;
use crate::sparing::RuleCondition;
use crate::turning::take_turn;
use crate::uniting::{unite, unite_because};
use slotted_costs::{AstSize, CostFunction};
use slotted_decided::{DecidedLimits, DecidedRun};
use slotted_deciding::Verdict;
use slotted_explain::EGraph;
use slotted_languages::Language;
use slotted_patterns::Pattern;
use slotted_rules::{CondTree, Report, Rewrite, TurnCounts};
use slotted_slots::{Error as GraphError, Slot, SlotTable};
use slotted_terms::expr::RecExpr;
use slotted_terms::expr::printing::Printable;
use std::alloc::Global;
use std::marker::Model;

/// A graph, its rules, and the terms that were added, each named by a handle.
///
/// No call has a condition. A handle that is too large, or that belongs to a workspace with another number, is refused,
/// and nothing changes. Workspaces made by [`numbered`](Workspace::numbered) from one source have different numbers. Those
/// made by [`new`](Workspace::new) all have the number 0, so they do not tell their handles apart.
#[derive(Drop)]
pub struct Workspace<L: Language> {
    number: u64,
    graph: EGraph<L>,
    kept: Vec<Kept<L>>,
    rules: Vec<Rewrite<L, RuleCondition<L>>>,
    sparing: bool,
    alloc: Global,
}

impl<L: Language> Model for Workspace<L> {
    ghost use Rattle.slotted_workspace.specs.Spaces.{Space, space_code};
    ghost use Rattle.slotted_workspace.specs.Keeping.{IsSane, space_of};

    ghost Value = { Space };

    ghost coded = { space_code };

    ghost view = { λ w. space_of L.form w.number w.graph w.kept.items w.rules.items w.sparing };

    ghost invariant = { λ w. IsSane L.form w.graph w.kept.items w.rules.items };
}

/// How many symmetries the unions of a workspace met, and how many of them are open.
#[derive(Clone, Copy, Debug, PartialEq, Eq)]
pub struct SymmetryCount {
    pub met: usize,
    pub open: usize,
}

impl<L: Language> Workspace<L> {
    /// Returns a workspace with the number 0, without terms and rules. Takes no memory. If several workspaces live at the
    /// same time, make them by `numbered`.
    pub fn new(alloc: Global) -> Result<Self, WorkspaceError>
        ensures answers { IsOk result }
        ensures empty { IfOk result (λ w. w ≡ empty_space 0) }
    {
        Self::with_number(alloc, 0)
    }

    /// Returns a workspace with a number, which tells its handles from those of others. Takes no memory.
    pub fn with_number(alloc: Global, number: u64) -> Result<Self, WorkspaceError>
        ensures answers { IsOk result }
        ensures empty { IfOk result (λ w. w ≡ empty_space number) }
    {
        let graph = EGraph::new(alloc, SlotTable::new(alloc), ())?;
        Ok(Workspace {
            number,
            graph,
            kept: Vec::new(alloc),
            rules: Vec::new(alloc),
            sparing: false,
            alloc,
        })
    }

    /// Returns a workspace with the next number of a source, which tells its handles from those of every other workspace
    /// of that source.
    pub fn numbered(alloc: Global, numbers: &mut WorkspaceNumbers) -> Result<Self, WorkspaceError>
        ensures empty { IfOk result (λ w. w ≡ empty_space numbers.old) }
        ensures next { OnOk result (numbers.new ≡ numbers.old + 1) }
        ensures same { OnErr result (numbers.new ≡ numbers.old) }
        ensures err { IfErr result
            (λ e. (e ≡ WorkspaceError.Graph GraphError.OutOfSlots) × (numbers.old ≡ 2 ^ 64 - 1)) }
    {
        let number = numbers.take()?;
        Self::with_number(alloc, number)
    }

    /// Returns the graph.
    pub fn graph(&self) -> &EGraph<L>
        ensures { result.now ≡ self.now.graph }
    {
        &self.graph
    }

    /// Returns the table of slots of the graph, and drops the workspace.
    pub fn into_table(self) -> SlotTable
        ensures { result ≡ self.graph.table }
    {
        self.graph.into_table()
    }

    /// Returns the term that a handle stands for.
    pub fn term_of(&self, handle: Handle) -> Result<&RecExpr<L>, WorkspaceError>
        ensures ok { IfOk result (λ t. term_at self.now handle ≡ Some t.now) }
        ensures err { IfErr result (RefusesOne self.now self.now handle (λ _ _. ⊥)) }
    {
        let kept = kept_at(&self.kept, self.number, handle)?;
        Ok(&kept.term)
    }

    /// Adds the term of a text, and returns its handle.
    pub fn add(&mut self, text: &str) -> Result<Handle, WorkspaceError>
        ensures ok { IfOk result (AddsTerm L.read self.old self.new text.now) }
        ensures err { IfErr result
            (Refuses self.old self.new (AddRefused L.read self.old.graph self.new.graph text.now)) }
    {
        let index = self.kept.len();
        let kept = read_term(&mut self.graph, text)?;
        self.kept.push(kept)?;
        Ok(Handle {
            workspace: self.number,
            index,
        })
    }

    /// Returns whether two terms are equal by what was asserted. A yes is right. So is a no, unless open symmetries
    /// affect both terms.
    pub fn eq(&self, a: Handle, b: Handle) -> Result<bool, WorkspaceError>
        ensures ok { IfOk result (λ y. OfBoth self.now a b (λ t u. Compares self.now.graph t u y)) }
        ensures err { IfErr result
            (RefusesBoth self.now self.now a b (λ _ _. HadFailed self.now.graph self.now.graph)) }
    {
        let (left, right) = both_at(&self.kept, self.number, a, b)?;
        Ok(self.graph.eq(&left.id, &right.id)?)
    }

    /// Decides the symmetries of the graph: adds and unites what follows from them, and asserts nothing. Returns whether the
    /// graph is decided. The answer is no only if more than `limit` e-nodes were missing.
    pub fn decide(&mut self, limit: usize) -> Result<bool, WorkspaceError>
        ensures ok { IfOk result (DecidesGraph self.old.graph self.new.graph) }
        ensures rest { OnOk result (ChangesGraph self.old self.new) }
        ensures err { IfErr result (Refuses self.old self.new (DecideRefused self.old.graph self.new.graph)) }
    {
        Ok(decided(self.alloc, &mut self.graph, limit)?)
    }

    /// Returns whether two terms are equal by what was asserted. Decides the symmetries of the graph first, unless the
    /// terms are found equal as it is. A yes and a no are right, without exception. The answer is `Open` only if more
    /// than `limit` e-nodes were missing.
    pub fn decided_eq(
        &mut self,
        a: Handle,
        b: Handle,
        limit: usize,
    ) -> Result<Verdict, WorkspaceError>
        ensures ok { IfOk result (λ v. OfBoth self.old a b
            (λ t u. JudgesTerms self.old.graph self.new.graph t u v)) }
        ensures rest { OnOk result (ChangesGraph self.old self.new) }
        ensures err { IfErr result (RefusesBoth self.old self.new a b
            (λ _ _. DecideRefused self.old.graph self.new.graph)) }
    {
        let (left, right) = both_at(&self.kept, self.number, a, b)?;
        Ok(judged(self.alloc, &mut self.graph, left, right, limit)?)
    }

    /// Asserts that two terms are equal. Returns true if they were not found equal before.
    pub fn union(&mut self, a: Handle, b: Handle) -> Result<bool, WorkspaceError>
        ensures ok { IfOk result (λ y. OfBoth self.old a b
            (λ t u. UnitesTerms self.old.graph self.new.graph t u None y)) }
        ensures rest { OnOk result (ChangesGraph self.old self.new) }
        ensures err { IfErr result (RefusesBoth self.old self.new a b
            (λ _ _. UnionRefused self.old.graph self.new.graph)) }
    {
        let (left, right) = both_at(&self.kept, self.number, a, b)?;
        Ok(unite(&mut self.graph, left, right, None)?)
    }

    /// Asserts that two terms are equal, with a text that proofs cite. Returns true if they were not found equal
    /// before.
    pub fn union_because(
        &mut self,
        a: Handle,
        b: Handle,
        text: &str,
    ) -> Result<bool, WorkspaceError>
        ensures ok { IfOk result (λ y. OfBoth self.old a b
            (λ t u. UnitesTerms self.old.graph self.new.graph t u (Some text.now) y)) }
        ensures rest { OnOk result (ChangesGraph self.old self.new) }
        ensures err { IfErr result (RefusesBoth self.old self.new a b
            (λ _ _. UnionRefused self.old.graph self.new.graph)) }
    {
        let (left, right) = both_at(&self.kept, self.number, a, b)?;
        Ok(unite_because(self.alloc, &mut self.graph, left, right, text)?)
    }

    /// Sets whether the rules that are read from now on are sparing. Rules that are kept already stay as they are.
    ///
    /// A run passes over a match of a sparing rule if the instances of both sides are found equal as they stand. So it
    /// makes fewer classes and takes less time, and its proofs have no step for such a match.
    pub fn set_sparing(&mut self, sparing: bool)
        ensures { self.new ≡ record self.old { sparing = sparing } }
    {
        self.sparing = sparing;
    }

    /// Keeps a rule, by its name and the texts of both sides. A run makes the right side equal to the left side for
    /// each match of the left side.
    pub fn rule(&mut self, name: &str, left: &str, right: &str) -> Result<(), WorkspaceError>
        ensures ok { OnOk result
            (KeepsRule L.form L.read self.old self.new name.now left.now right.now CondTree.Always) }
        ensures err { IfErr result (Refuses self.old self.new
            (RuleRefused L.form L.read self.old.graph self.new.graph left.now right.now CondTree.Always)) }
    {
        self.rule_if(name, left, right, CondTree::Always)
    }

    /// Keeps a rule with a condition, which is asked for each match.
    pub fn rule_if(
        &mut self,
        name: &str,
        left: &str,
        right: &str,
        condition: CondTree,
    ) -> Result<(), WorkspaceError>
        ensures ok { OnOk result
            (KeepsRule L.form L.read self.old self.new name.now left.now right.now condition) }
        ensures err { IfErr result (Refuses self.old self.new
            (RuleRefused L.form L.read self.old.graph self.new.graph left.now right.now condition)) }
    {
        let rule = read_kept(
            self.alloc,
            &mut self.graph,
            name,
            left,
            right,
            condition,
            self.sparing,
        )?;
        self.rules.push(rule)?;
        Ok(())
    }

    /// Keeps the rule of one text, as `NAME: L => R`. A rule `NAME: L <=> R` goes both ways, and is kept as two rules. The
    /// second one has `<` behind its name.
    ///
    /// Behind the rule ` if $x not in ?v` may follow: the slot does not occur in what stands for the variable. ` in `
    /// asks for the opposite. Several conditions have ` and ` between them. If anything is refused, no rule is kept.
    pub fn rule_text(&mut self, text: &str) -> Result<(), WorkspaceError>
        ensures ok { OnOk result (KeepsRules L.form L.read self.old self.new text.now) }
        ensures err { IfErr result (RefusesText L.form L.read self.old self.new text.now) }
    {
        let mut rules = rules_of_text(self.alloc, &mut self.graph, text, self.sparing)?;
        self.rules.append(&mut rules)?;
        Ok(())
    }

    /// Returns the slot of the text behind a `$`, for conditions of rules.
    pub fn slot(&mut self, text: &str) -> Result<Slot, WorkspaceError>
        ensures ok { IfOk result
            (λ slot. named_of self.old.graph.table text.now ≡ gives slot self.new.graph.table) }
        ensures rest { OnOk result (ChangesGraph self.old self.new × OnlyReads self.old.graph self.new.graph) }
        ensures err { IfErr result (Refuses self.old self.new (NamingRefused self.old.graph self.new.graph)) }
    {
        Ok(self.graph.named_slot(text)?)
    }

    /// Runs all rules in turns, until none changes the graph or a limit is passed. The report names a passed limit of
    /// e-nodes as `Other`.
    pub fn run(&mut self, limits: Limits) -> Result<Report, WorkspaceError>
        ensures ok { IfOk result (λ r. OfRules L.form self.old
            (λ rules. HasRun L.form rules limits.turns limits.nodes self.old.graph self.new.graph r)) }
        ensures rest { OnOk result (ChangesGraph self.old self.new) }
        ensures err { IfErr result (Refuses self.old self.new (λ e. OfRules L.form self.old
            (λ rules. RunRefused L.form rules limits.turns limits.nodes self.old.graph self.new.graph e))) }
    {
        Ok(run_rules(self.alloc, &mut self.graph, &self.rules, limits)?)
    }

    /// Runs all rules as `run` does. Returns whether they ended before a limit was passed.
    pub fn saturate(&mut self, limits: Limits) -> Result<bool, WorkspaceError>
        ensures ok { IfOk result (HasRulesRun L.form limits self.old self.new) }
        ensures rest { OnOk result (ChangesGraph self.old self.new) }
        ensures err { IfErr result (Refuses self.old self.new (λ e. OfRules L.form self.old
            (λ rules. RunRefused L.form rules limits.turns limits.nodes self.old.graph self.new.graph e))) }
    {
        let report = self.run(limits)?;
        Ok(is_saturated(&report.stop_reason))
    }

    /// Decides the graph, and runs all rules in turns, each of which ends with a decision, until one changes nothing or a
    /// limit is passed. So a turn finds the matches that need a symmetry.
    pub fn run_decided(&mut self, limits: DecidedLimits) -> Result<DecidedRun, WorkspaceError>
        ensures ok { IfOk result (λ r. OfRules L.form self.old
            (λ rules. RunsDecided L.form rules limits self.old.graph self.new.graph r)) }
        ensures rest { OnOk result (ChangesGraph self.old self.new) }
        ensures err { IfErr result (Refuses self.old self.new (λ e. OfRules L.form self.old
            (λ rules. DecidedRunRefused L.form rules self.old.graph self.new.graph e))) }
    {
        Ok(run_rules_decided(self.alloc, &mut self.graph, &self.rules, limits)?)
    }

    /// Applies all rules once, and returns what each of them found and united. So a caller can tell the progress of a
    /// run, and stop at limits of its own.
    pub fn turn(&mut self) -> Result<TurnCounts, WorkspaceError>
        ensures ok { IfOk result (λ t. OfRules L.form self.old
            (λ rules. TakesTurn L.form rules self.old.graph self.new.graph t)) }
        ensures rest { OnOk result (ChangesGraph self.old self.new) }
        ensures err { IfErr result (Refuses self.old self.new (λ e. OfRules L.form self.old
            (λ rules. TurnRefused L.form rules self.old.graph self.new.graph e))) }
    {
        Ok(take_turn(self.alloc, &mut self.graph, &self.rules)?)
    }

    /// Returns the pattern of a text, to be tested before the text is added or becomes a rule.
    pub fn pattern(&mut self, text: &str) -> Result<Pattern<L>, WorkspaceError>
        ensures ok { IfOk result (ReadsPattern L.form L.read self.old.graph self.new.graph text.now) }
        ensures rest { OnOk result (ChangesGraph self.old self.new) }
        ensures err { IfErr result (Refuses self.old self.new
            (PatternRefused L.form L.read self.old.graph self.new.graph text.now)) }
    {
        Ok(read_pattern(&mut self.graph, text)?)
    }

    /// Returns how many matches the pattern of a text has.
    pub fn count_matches(&mut self, text: &str) -> Result<usize, WorkspaceError>
        ensures ok { IfOk result (HasMatches L.form L.read self.old.graph self.new.graph text.now) }
        ensures rest { OnOk result (ChangesGraph self.old self.new) }
        ensures err { IfErr result (Refuses self.old self.new
            (SearchRefused L.form L.read self.old.graph self.new.graph text.now)) }
    {
        Ok(count_found(self.alloc, &mut self.graph, text)?)
    }

    /// Returns a picture of the graph in the DOT language, as `graph_to_dot` of slotted_pictures draws it.
    pub fn picture(&mut self) -> Result<String, WorkspaceError>
        ensures rest { OnOk result (ChangesGraph self.old self.new × Draws self.old.graph self.new.graph) }
        ensures err { IfErr result (Refuses self.old self.new (DrawRefused self.old.graph self.new.graph)) }
    {
        Ok(drawn(self.alloc, &mut self.graph)?)
    }

    /// Returns the live classes and their e-nodes as text, as `dump` of a graph has them.
    pub fn dump(&mut self) -> Result<String, WorkspaceError>
        ensures rest { OnOk result (ChangesGraph self.old self.new × Draws self.old.graph self.new.graph) }
        ensures err { IfErr result (Refuses self.old self.new (DrawRefused self.old.graph self.new.graph)) }
    {
        Ok(dumped(self.alloc, &mut self.graph)?)
    }

    /// Returns how many symmetries the unions met, and how many of them are open.
    pub fn symmetries(&self) -> Result<SymmetryCount, WorkspaceError>
        ensures met { IfOk result (λ n. n.met ≡ length self.now.graph.image.symmetries) }
        ensures open { IfOk result
            (λ n. CountsOpen self.now.graph.image self.now.graph.image.symmetries n.open) }
        ensures err { IfErr result
            (Refuses self.now self.now (HadFailed self.now.graph self.now.graph)) }
    {
        let open = self.graph.open_symmetries()?;
        let met = self.graph.symmetries_met().len();
        Ok(SymmetryCount { met, open })
    }
}

impl<L: Printable> Workspace<L> {
    /// Returns a proof that two terms are equal, as lines that each end with a line feed. The last line is the equation
    /// of both.
    pub fn explain(&mut self, a: Handle, b: Handle) -> Result<String, WorkspaceError>
        ensures ok { IfOk result (λ text. OfBoth self.old a b
            (λ t u. ExplainsTerms L.written self.old.graph self.new.graph t u text)) }
        ensures rest { OnOk result (ChangesGraph self.old self.new) }
        ensures err { IfErr result (RefusesBoth self.old self.new a b
            (ExplainRefused L.written self.old.graph self.new.graph)) }
    {
        let (left, right) = both_at(&self.kept, self.number, a, b)?;
        Ok(explanation(self.alloc, &mut self.graph, left, right)?)
    }

    /// Returns a proof that two terms are equal, if they are: lines that each end with a line feed. The last line is the
    /// equation of both. Decides the symmetries of the graph first, unless the terms are found equal as it is. The answer
    /// is `Undecided` only if more than `limit` e-nodes were missing.
    pub fn decided_explain(
        &mut self,
        a: Handle,
        b: Handle,
        limit: usize,
    ) -> Result<ExplainedText, WorkspaceError>
        ensures ok { IfOk result (λ x. OfBoth self.old a b
            (λ t u. ProvesTerms L.written self.old.graph self.new.graph t u x)) }
        ensures rest { OnOk result (ChangesGraph self.old self.new) }
        ensures err { IfErr result (RefusesBoth self.old self.new a b
            (λ _ _. DecideRefused self.old.graph self.new.graph)) }
    {
        let (left, right) = both_at(&self.kept, self.number, a, b)?;
        Ok(proved(self.alloc, &mut self.graph, left, right, limit)?)
    }

    /// Returns a proof that two terms are equal as a chain of terms: the first term, and for each assertion that is used a
    /// line with the whole term after it. The lines are those of `to_flat_string` of slotted_explain.
    pub fn explain_chain(&mut self, a: Handle, b: Handle) -> Result<String, WorkspaceError>
        ensures ok { OnOk result (OfBoth self.old a b (ChainsTerms self.old.graph self.new.graph)) }
        ensures rest { OnOk result (ChangesGraph self.old self.new) }
        ensures err { IfErr result (RefusesBoth self.old self.new a b
            (ChainRefused self.old.graph self.new.graph)) }
    {
        let (left, right) = both_at(&self.kept, self.number, a, b)?;
        Ok(chain(self.alloc, &mut self.graph, left, right)?)
    }

    /// Returns a proof that two terms are equal as a chain of terms for people: for each assertion that is used the term
    /// before it and the term after it, each with the smallest changed place between `[` and `]`, and between them the
    /// assertion. The lines are those of `to_marked_string` of slotted_explain.
    pub fn explain_marked(&mut self, a: Handle, b: Handle) -> Result<String, WorkspaceError>
        ensures ok { OnOk result (OfBoth self.old a b (ChainsTerms self.old.graph self.new.graph)) }
        ensures rest { OnOk result (ChangesGraph self.old self.new) }
        ensures err { IfErr result (RefusesBoth self.old self.new a b
            (ChainRefused self.old.graph self.new.graph)) }
    {
        let (left, right) = both_at(&self.kept, self.number, a, b)?;
        Ok(marked_chain(self.alloc, &mut self.graph, left, right)?)
    }

    /// Returns a term of the fewest e-nodes that is equal to the handle's term, and its number of e-nodes.
    pub fn extract(&mut self, a: Handle) -> Result<Extracted<u64>, WorkspaceError>
        ensures ok { IfOk result (λ x. OfOne self.old a
            (λ t. ExtractsTerm L.form L.written self.old.graph self.new.graph t x.cost x.text)) }
        ensures rest { OnOk result (ChangesGraph self.old self.new) }
        ensures err { IfErr result (RefusesOne self.old self.new a
            (ExtractRefused L.form self.old.graph self.new.graph)) }
    {
        self.extract_by(a, AstSize)
    }

    /// Returns a term of least cost that is equal to the handle's term, and its cost, by a cost function.
    pub fn extract_by<C: CostFunction<L>>(
        &mut self,
        a: Handle,
        costs: C,
    ) -> Result<Extracted<C::Cost>, WorkspaceError>
        ensures ok { IfOk result (λ x. OfOne self.old a (λ t. ExtractsBy L.form L.written
            (costs_by C.Cost.cmp (C.node_cost costs)) self.old.graph self.new.graph t x.cost x.text)) }
        ensures rest { OnOk result (ChangesGraph self.old self.new) }
        ensures err { IfErr result (RefusesOne self.old self.new a (ExtractByRefused L.form
            (costs_by C.Cost.cmp (C.node_cost costs)) C.refuses self.old.graph self.new.graph)) }
    {
        let kept = kept_at(&self.kept, self.number, a)?;
        Ok(cheapest(self.alloc, &mut self.graph, kept, costs)?)
    }

    /// Decides the symmetries of the graph, and returns a term of least cost that is equal to the handle's term, by a
    /// cost function. If the graph is decided, no term that follows from what was asserted costs less. At most `limit`
    /// e-nodes are added.
    pub fn extract_decided<C: CostFunction<L>>(
        &mut self,
        a: Handle,
        costs: C,
        limit: usize,
    ) -> Result<LeastText<C::Cost>, WorkspaceError>
        ensures ok { IfOk result (λ x. OfOne self.old a (λ t. ExtractsDecided L.written
            (costs_by C.Cost.cmp (C.node_cost costs)) self.old.graph self.new.graph t x)) }
        ensures rest { OnOk result (ChangesGraph self.old self.new) }
        ensures err { IfErr result (RefusesOne self.old self.new a
            (λ _. ExtractDecidedRefused C.refuses self.old.graph self.new.graph)) }
    {
        let kept = kept_at(&self.kept, self.number, a)?;
        Ok(least_of_all(self.alloc, &mut self.graph, kept, costs, limit)?)
    }
}
