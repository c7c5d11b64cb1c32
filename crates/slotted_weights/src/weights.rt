//! Weights of operators, and the cost function that adds them up.
ghost use Rattle.std.specs.Prelude.{◌≡◌, ℕ, List, [], IfOk, IfErr, OnOk, OnErr};
ghost use Rattle.slotted_slots.specs.Error.{IsOutOfMemory};
ghost use Rattle.slotted_symbols.specs.SymbolForms.{symbol_form};
ghost use Rattle.slotted_costs.specs.Weights.{weighed, weighed_never_falls, weighed_covers_children};
ghost use Rattle.slotted_weights.specs.OperatorWeights.{weight_of, with_weight, place_of, node_weight};

use slotted_costs::{CostFunction, weighed_sum};
use slotted_languages::Symbol;
use slotted_slots::Error;
use slotted_symbols::SymbolLang;
use std::alloc::Global;
use std::marker::Model;

/// What e-nodes add to the costs of their children, by operator: 1 if nothing is set. Seen as the list of words and
/// their weights, in the order in which the words were first set.
///
/// As a cost function it gives an e-node the weight of its operator and the costs of its children, added up. No cost is
/// above the largest number. A weight may be 0.
#[derive(Drop)]
pub struct OperatorWeights {
    items: Vec<(Symbol, u64)>,
}

impl Model for OperatorWeights {
    ghost use Rattle.std.specs.Prelude.{List, ℕ};

    ghost Value = { List (List ℕ × ℕ) };

    ghost view = { λ w. w.items.items };
}

impl OperatorWeights {
    /// Returns weights of which none is set.
    pub fn new(alloc: Global) -> OperatorWeights
        ensures { result ≡ [] }
    {
        OperatorWeights {
            items: Vec::new(alloc),
        }
    }

    /// Returns the words that were set and their weights, in the order in which they were first set.
    pub fn as_slice(&self) -> &[(Symbol, u64)]
        ensures { result.now ≡ self.now }
    {
        self.items.as_slice()
    }

    // Returns where the weight of an operator stands, if it is set.
    fn place(&self, word: &str) -> Option<usize>
        ensures { result ≡ place_of self.now word.now }
    {
        for i in 0..self.items.len() {
            if self.items[i].0.as_str() == word {
                return Some(i);
            }
        }
        None
    }

    /// Returns the weight of an operator.
    pub fn weight(&self, word: &str) -> u64
        ensures { result ≡ weight_of self.now word.now }
    {
        match self.place(word) {
            Some(i) => self.items[i].1,
            None => 1,
        }
    }

    /// Sets the weight of an operator. On an error nothing changes.
    pub fn set(&mut self, alloc: Global, word: &str, weight: u64) -> Result<(), Error>
        ensures word { OnOk result (weight_of self.new word.now ≡ weight) }
        ensures others { OnOk result ((v : List ℕ) → ¬ (v ≡ word.now) → weight_of self.new v ≡ weight_of self.old v) }
        ensures list { OnOk result (self.new ≡ with_weight self.old word.now weight) }
        ensures stays { OnErr result (self.new ≡ self.old) }
        ensures err { IfErr result IsOutOfMemory }
    {
        match self.place(word) {
            Some(i) => self.items[i].1 = weight,
            None => self.items.push((Symbol::from_text(alloc, word)?, weight))?,
        }
        Ok(())
    }

    /// Returns weights that equal these.
    pub fn copy(&self, alloc: Global) -> Result<OperatorWeights, Error>
        ensures ok { IfOk result (λ c. c ≡ self.now) }
        ensures err { IfErr result IsOutOfMemory }
    {
        Ok(OperatorWeights {
            items: self.items.clone()?,
        })
    }
}

impl CostFunction<SymbolLang> for OperatorWeights {
    type Cost = u64;

    ghost node_cost = { λ w. weighed (node_weight w) };

    ghost refuses = { λ _. ⊥ };

    ghost never_falls = { λ w. weighed_never_falls symbol_form (node_weight w) };

    ghost covers_children = { λ w. weighed_covers_children symbol_form (node_weight w) };

    ghost never_failed = { λ h. h };

    fn copy(&self, alloc: Global, cost: &u64) -> Result<u64, Error> {
        Ok(*cost)
    }

    fn cost(&self, alloc: Global, node: &SymbolLang, child: &[u64]) -> Result<u64, Error> {
        Ok(weighed_sum(self.weight(node.word()), child))
    }
}
