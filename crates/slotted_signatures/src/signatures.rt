//! The declared signatures, and what they say of patterns.
ghost use Rattle.std.specs.Prelude.{◌≡◌, ◌↔◌, ◌<◌, ◌++◌, ◌∷◌, [], length, map, codes, nat_lt, string_bytes, All, IsTrue, IfOk, IfErr, OnOk, OnErr, IfSome, IfNone};
ghost use Rattle.std.specs.List.{filter, join_by, IsFirstBest};
ghost use Rattle.std.specs.Str.{bytes_eq};
ghost use Rattle.slotted_slots.specs.Error.{IsOutOfMemory};
ghost use Rattle.slotted_patterns.specs.View.{tree_of};
ghost use Rattle.slotted_symbols.specs.SymbolForms.{symbol_form};
ghost use Rattle.slotted_signatures.specs.Kinds.{number};
ghost use Rattle.slotted_signatures.specs.Misused.{IsFaultOf, IsFirstMisuse, IsMisuse};
ghost use Rattle.slotted_signatures.specs.Nearest.{edits, IsNearest};
ghost use Rattle.slotted_signatures.specs.Reading.{nodes_of};
ghost use Rattle.slotted_signatures.specs.UsedAsDeclared.{IsDeclared, IsDeclaredUse, IsRight, IsUsedAsDeclared};

use crate::kind::{Kind, kinds_of};
use crate::misuse::{Fault, Misuse};
use crate::reading::nodes_in_order;
use crate::signature::Signature;
use slotted_patterns::Pattern;
use slotted_slots::Error;
use slotted_symbols::SymbolLang;
use std::alloc::Global;
use std::marker::Model;
use strsim::levenshtein;

/// The declared signatures, in the order of their declaration.
///
/// If there is any, an operator with arguments may be used as one of its signatures says, and in no other way.
#[derive(Drop, Debug)]
pub struct Signatures {
    all: Vec<Signature>,
}

impl Model for Signatures {
    ghost use Rattle.std.specs.Prelude.{List};
    ghost use Rattle.slotted_signatures.specs.Usage.{Usage};

    ghost Value = { List Usage };

    ghost view = { λ s. s.all.items };
}

// Returns the place of the first of the least numbers.
fn first_least(numbers: &[usize]) -> usize
    requires { 0 < length numbers.now }
    ensures { IsFirstBest nat_lt numbers.now (length numbers.now) result }
{
    let mut best = 0;
    for i in 1..numbers.len() {
        if numbers[i] < numbers[best] {
            best = i;
        }
    }
    best
}

impl Signatures {
    /// Returns no signatures.
    pub fn new(alloc: Global) -> Signatures
        ensures { result ≡ [] }
    {
        Signatures {
            all: Vec::new(alloc),
        }
    }

    /// Returns the signatures in the order of their declaration.
    pub fn all(&self) -> &[Signature]
        ensures { result.now ≡ self.now }
    {
        self.all.as_slice()
    }

    /// Adds a signature behind those that are there. One operator may have several, and each of these uses is right.
    pub fn declare(&mut self, signature: Signature) -> Result<(), Error>
        ensures ok { OnOk result (self.new ≡ self.old ++ signature ∷ []) }
        ensures same { OnErr result (self.new ≡ self.old) }
        ensures err { IfErr result IsOutOfMemory }
    {
        self.all.push(signature)?;
        Ok(())
    }

    // Returns whether any signature is of the word.
    fn is_declared(&self, word: &str) -> bool
        ensures { IsTrue result ↔ IsDeclared self.now word.now }
    {
        self.all.iter().any(|signature| signature.word() == word)
    }

    // Returns whether a signature of the word takes arguments of these kinds.
    fn is_declared_use(&self, word: &str, kinds: &[Kind]) -> bool
        ensures { IsTrue result ↔ IsDeclaredUse self.now word.now (map number kinds.now) }
    {
        self.all.iter().any(|signature| signature.word() == word && signature.takes(kinds))
    }

    // Returns what is wrong with the word over arguments of these kinds, if anything is.
    fn fault(&self, word: &str, kinds: &[Kind]) -> Option<Fault>
        ensures none { IfNone result (IsRight self.now word.now (map number kinds.now)) }
        ensures some { IfSome result (λ x. ¬ (IsRight self.now word.now (map number kinds.now))) }
        ensures fault { IfSome result (IsFaultOf self.now word.now (map number kinds.now)) }
    {
        if self.all.is_empty() || self.is_declared_use(word, kinds) {
            return None;
        }
        match (self.is_declared(word), kinds.is_empty()) {
            (true, true) => Some(Fault::Alone),
            (true, false) => Some(Fault::Arguments),
            (false, true) => None,
            (false, false) => Some(Fault::Unknown),
        }
    }

    // Returns what is wrong with the e-node before which this number of e-nodes are read, if anything is.
    fn misuse_of(
        &self,
        alloc: Global,
        number: usize,
        node: &SymbolLang,
    ) -> Result<Option<Misuse>, Error>
        ensures none { IfOk result (λ m. IfNone m (IsUsedAsDeclared self.now (symbol_form node.now))) }
        ensures some { IfOk result (λ m. IfSome m (IsMisuse self.now number (symbol_form node.now))) }
        ensures err { IfErr result IsOutOfMemory }
    {
        let kinds = kinds_of(alloc, node.arguments())?;
        match self.fault(node.word(), &kinds) {
            Some(fault) => Ok(Some(Misuse {
                number,
                word: String::from_str(alloc, node.word())?,
                fault,
            })),
            None => Ok(None),
        }
    }

    /// Returns the first e-node, in the order in which they are read, that is used otherwise than declared.
    ///
    /// If nothing is declared, each use is right. A word without arguments that is not declared is a constant, and is
    /// right too.
    pub fn misuse(
        &self,
        alloc: Global,
        pattern: &Pattern<SymbolLang>,
    ) -> Result<Option<Misuse>, Error>
        ensures none { IfOk result (λ m. IfNone m
            (All (IsUsedAsDeclared self.now) (nodes_of (tree_of symbol_form pattern.now)))) }
        ensures some { IfOk result (λ m. IfSome m
            (IsFirstMisuse self.now (nodes_of (tree_of symbol_form pattern.now)))) }
        ensures err { IfErr result IsOutOfMemory }
    {
        let nodes = nodes_in_order(alloc, pattern)?;
        for number in 0..nodes.len() {
            if let Some(misuse) = self.misuse_of(alloc, number, nodes[number])? {
                return Ok(Some(misuse));
            }
        }
        Ok(None)
    }

    // Returns how many edits lead from the word to that of each signature.
    fn distances(&self, alloc: Global, word: &str) -> Result<Vec<usize>, Error>
        ensures ok { IfOk result (λ v. v.items ≡ map (λ u. edits word.now u.word) self.now) }
        ensures err { IfErr result IsOutOfMemory }
    {
        let mut distances = Vec::new(alloc);
        for signature in &self.all {
            distances.push(levenshtein(alloc, word, signature.word())?)?;
        }
        Ok(distances)
    }

    /// Returns the declared word that is nearest to this one, if it is two edits away at most. Of several that are as
    /// near it is the one that was declared first.
    pub fn nearest(&self, alloc: Global, word: &str) -> Result<Option<String>, Error>
        ensures none { IfOk result (λ o. IfNone o (All (λ u. 2 < edits word.now u.word) self.now)) }
        ensures some { IfOk result (λ o. IfSome o (λ v. IsNearest self.now word.now (string_bytes v))) }
        ensures err { IfErr result IsOutOfMemory }
    {
        let distances = self.distances(alloc, word)?;
        if distances.is_empty() {
            return Ok(None);
        }
        let place = first_least(&distances);
        if distances[place] > 2 {
            return Ok(None);
        }
        Ok(Some(String::from_str(alloc, self.all[place].word())?))
    }

    // Returns the examples of the word.
    fn examples_of(&self, alloc: Global, word: &str) -> Result<Vec<&str>, Error>
        ensures ok { IfOk result (λ v. map (λ t. t.now) v.items
            ≡ map (λ u. u.example) (filter (λ u. bytes_eq u.word word.now) self.now)) }
        ensures err { IfErr result IsOutOfMemory }
    {
        let mut examples = Vec::new(alloc);
        for signature in &self.all {
            if signature.word() == word {
                examples.push(signature.example())?;
            }
        }
        Ok(examples)
    }

    /// Returns the examples of the word, with ` or ` between them.
    pub fn examples(&self, alloc: Global, word: &str) -> Result<String, Error>
        ensures ok { IfOk result (λ t. string_bytes t
            ≡ join_by (λ u. u.example) (codes " or ") (filter (λ u. bytes_eq u.word word.now) self.now)) }
        ensures err { IfErr result IsOutOfMemory }
    {
        let examples = self.examples_of(alloc, word)?;
        Ok(examples.join(alloc, " or ")?)
    }
}
