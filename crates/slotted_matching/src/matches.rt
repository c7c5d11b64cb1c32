//! The matches of a pattern.
ghost use Rattle.std.specs.Prelude.{◌≡◌, ◌<◌, ◌↔◌, [], List, length, map, slice_index_or, string_bytes, Contains, IsTrue, IfOk, IfErr};
ghost use Rattle.slotted_slots.specs.Error.{IsOutOfMemory};
ghost use Rattle.slotted_model_rules.specs.Conditions.{Values};
ghost use Rattle.slotted_proofs.specs.Equations.{to_applied};
ghost use Rattle.slotted_rule_patterns.specs.Values.{values_of};
ghost use Rattle.slotted_matching.specs.Matches.{AreWhole, AscendingNames, answers_over, id_in};

use slotted_rule_patterns::Subst;
use slotted_slots::{AppliedId, Error};
use std::alloc::Global;
use std::marker::Model;

/// The matches of a pattern: each has an id for each variable.
///
/// The names of the variables are kept once, in ascending order, and the ids of all matches one after another.
#[derive(Drop)]
pub struct Matches {
    variables: Vec<String>,
    ids: Vec<AppliedId>,
    count: usize,
}

impl Model for Matches {
    ghost use Rattle.std.specs.Prelude.{List, map, string_bytes};
    ghost use Rattle.slotted_model_rules.specs.Conditions.{Values};
    ghost use Rattle.slotted_proofs.specs.Equations.{to_applied};
    ghost use Rattle.slotted_matching.specs.Matches.{AreWhole, answers_over};

    ghost Value = { List Values };

    ghost view = { λ m. answers_over (map string_bytes m.variables.items) (map to_applied m.ids.items) m.count };

    ghost invariant = { λ m. AreWhole (map string_bytes m.variables.items) (map to_applied m.ids.items) m.count };
}

impl Matches {
    /// Returns the matches with these ids, which stand in the order of the variables.
    pub fn new(variables: Vec<String>, ids: Vec<AppliedId>, count: usize) -> Self
        requires { AreWhole (map string_bytes variables.items) (map to_applied ids.items) count }
        ensures { result ≡ answers_over (map string_bytes variables.items) (map to_applied ids.items) count }
    {
        Matches {
            variables,
            ids,
            count,
        }
    }

    /// Returns no matches.
    pub fn none(alloc: Global) -> Self
        ensures { result ≡ [] }
    {
        Matches::new(Vec::new(alloc), Vec::new(alloc), 0)
    }

    /// Returns the number of matches.
    pub fn len(&self) -> usize
        ensures { result ≡ length self.now }
    {
        self.count
    }

    /// Returns whether there are no matches.
    pub fn is_empty(&self) -> bool
        ensures { IsTrue result ↔ (self.now ≡ []) }
    {
        self.count == 0
    }

    /// Returns the names of the variables, in ascending order.
    pub fn variables(&self) -> &[String]
        ensures ascending { AscendingNames (map string_bytes result.now) }
        ensures each { (s : Values) → Contains self.now s → map (λ e. e.0) s ≡ map string_bytes result.now }
    {
        &self.variables
    }

    /// Returns the id of a variable in a match, both by their places.
    pub fn value(&self, answer: usize, variable: usize) -> &AppliedId
        requires answer { answer < length self.now }
        requires variable { variable < length (slice_index_or self.now answer []) }
        ensures { to_applied result.now ≡ id_in (slice_index_or self.now answer []) variable }
    {
        let ids = self.ids.as_slice();
        let variables = self.variables.as_slice();
        &ids[answer * variables.len() + variable]
    }

    /// Returns a match as a substitution.
    pub fn substitution(&self, alloc: Global, answer: usize) -> Result<Subst, Error>
        requires { answer < length self.now }
        ensures ok { IfOk result (λ s. values_of s ≡ slice_index_or self.now answer []) }
        ensures err { IfErr result IsOutOfMemory }
    {
        let variables = self.variables.as_slice();
        let mut values = Subst::new(alloc);
        for variable in 0..variables.len() {
            let name = String::from_str(alloc, variables[variable].as_str())?;
            let id = self.value(answer, variable).copy(alloc)?;
            values.insert(name, id)?;
        }
        Ok(values)
    }
}
