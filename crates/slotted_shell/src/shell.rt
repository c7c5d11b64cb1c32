//! A session: a workspace, with signatures, weights and the rules as they were written.
use crate::examples::told_binders;
use crate::trouble::Trouble;
use slotted_messages::word_column;
use slotted_patterns::Pattern;
use slotted_rule_patterns::pattern::has_variable;
use slotted_rule_texts::SlotCondition;
use slotted_rules::has_slot_in;
use slotted_signatures::{Fault, Misuse, Signature, Signatures};
use slotted_slots::Slot;
use slotted_symbols::SymbolLang;
use slotted_terms::pattern_to_re;
use slotted_weights::OperatorWeights;
use slotted_workspace::{Handle, Workspace, WorkspaceError};
use std::alloc::Global;
use std::mem::replace;

/// A rule as it was written, and what it did so far. A rule that goes both ways is two.
#[derive(Drop)]
pub struct RuleLine {
    pub name: String,
    pub text: String,
    pub found: usize,
    pub united: usize,
}

/// A session.
#[derive(Drop)]
pub struct Shell {
    pub workspace: Workspace<SymbolLang>,
    pub signatures: Signatures,
    pub weights: OperatorWeights,
    pub rules: Vec<RuleLine>,
    pub failed_checks: usize,
    pub alloc: Global,
}

impl Shell {
    /// Returns a session in which nothing was said.
    pub fn new(alloc: Global) -> Result<Shell, WorkspaceError> {
        Ok(Shell {
            workspace: Workspace::new(alloc)?,
            signatures: Signatures::new(alloc),
            weights: OperatorWeights::new(alloc),
            rules: Vec::new(alloc),
            failed_checks: 0,
            alloc,
        })
    }

    /// Puts a new session in the place of this one.
    pub fn reset(&mut self) -> Result<(), WorkspaceError> {
        let former = replace(self, Shell::new(self.alloc)?);
        former.let_go();
        Ok(())
    }

    /// Drops the session.
    pub fn let_go(self) {
        let _ = self.workspace.into_table();
    }

    /// Declares an operator by an example. Returns what the example binds.
    pub fn declare(&mut self, text: &str) -> Result<String, Trouble> {
        let alloc = self.alloc;
        let example = match self.workspace.pattern(text) {
            Ok(pattern) => pattern,
            Err(error) => return Err(Trouble::of_call(alloc, &error, text)),
        };
        let signature = match Signature::of(alloc, &example, text) {
            Ok(Some(signature)) => signature,
            Ok(None) => return Err(no_example(alloc)?),
            Err(error) => return Err(Trouble::of_text(alloc, &error, text)),
        };
        if let Err(error) = self.signatures.declare(signature) {
            return Err(Trouble::of_text(alloc, &error, text));
        }
        let told = told_binders(alloc, text)?;
        if told.is_empty() {
            return Ok(String::from_str(alloc, "ok")?);
        }
        Ok(format!(in alloc; "ok: {told}")?)
    }

    // Returns what is told of an e-node that is used otherwise than declared.
    fn told_misuse(&self, text: &str, misuse: &Misuse) -> Result<String, Trouble> {
        let alloc = self.alloc;
        let word = &misuse.word;
        let column = word_column(text, misuse.number).unwrap_or(0);
        let examples = self.examples(word.as_str())?;
        Ok(match misuse.fault {
            Fault::Unknown => self.told_unknown(text, word.as_str(), column)?,
            Fault::Arguments => {
                format!(in alloc;
                    "`{word}` at {column} of {text} takes other arguments: {examples}"
                )?
            }
            Fault::Alone => {
                format!(in alloc; "`{word}` at {column} of {text} lacks its arguments: {examples}")?
            }
        })
    }

    fn told_unknown(&self, text: &str, word: &str, column: usize) -> Result<String, Trouble> {
        let alloc = self.alloc;
        match self.signatures.nearest(alloc, word) {
            Ok(Some(near)) => Ok(format!(in alloc;
                "unknown operator `{word}` at {column} of {text}: did you mean `{near}`? `ops` lists all"
            )?),
            Ok(None) => Ok(format!(in alloc;
                "unknown operator `{word}` at {column} of {text}: declare it by `op`; `ops` lists all"
            )?),
            Err(error) => Err(Trouble::of_text(alloc, &error, text)),
        }
    }

    fn examples(&self, word: &str) -> Result<String, Trouble> {
        match self.signatures.examples(self.alloc, word) {
            Ok(examples) => Ok(examples),
            Err(error) => Err(Trouble::of_text(self.alloc, &error, word)),
        }
    }

    /// Returns the pattern of a text. One that is used otherwise than the signatures say is refused.
    pub fn checked(&mut self, text: &str) -> Result<Pattern<SymbolLang>, Trouble> {
        let alloc = self.alloc;
        let pattern = match self.workspace.pattern(text) {
            Ok(pattern) => pattern,
            Err(error) => return Err(Trouble::of_call(alloc, &error, text)),
        };
        match self.signatures.misuse(alloc, &pattern) {
            Ok(None) => Ok(pattern),
            Ok(Some(misuse)) => {
                let told = self.told_misuse(text, &misuse)?;
                Err(Trouble::said(13, "Signature", told))
            }
            Err(error) => Err(Trouble::of_text(alloc, &error, text)),
        }
    }

    // Tests a text of a term before anything is added.
    fn check_term(&mut self, text: &str) -> Result<(), Trouble> {
        let alloc = self.alloc;
        let pattern = self.checked(text)?;
        match pattern_to_re(alloc, &pattern) {
            Ok(_) => Ok(()),
            Err(error) => Err(Trouble::of_text(alloc, &error, text)),
        }
    }

    fn add_checked(&mut self, text: &str) -> Result<Handle, Trouble> {
        match self.workspace.add(text) {
            Ok(handle) => Ok(handle),
            Err(error) => Err(Trouble::of_call(self.alloc, &error, text)),
        }
    }

    /// Adds the term of a text.
    pub fn add(&mut self, text: &str) -> Result<Handle, Trouble> {
        self.check_term(text)?;
        self.add_checked(text)
    }

    /// Adds the terms of two texts. Both are tested before either is added.
    pub fn add_both(&mut self, text: &str) -> Result<(Handle, Handle), Trouble> {
        let Some((left, right)) = text.split_once(" == ") else {
            return Err(no_equation(self.alloc)?);
        };
        self.check_term(left)?;
        self.check_term(right)?;
        let first = self.add_checked(left)?;
        let second = self.add_checked(right)?;
        Ok((first, second))
    }

    /// Returns the slot of a condition, if the pattern has what the condition asks for.
    pub fn slot_of(
        &mut self,
        side: &str,
        pattern: &Pattern<SymbolLang>,
        condition: &SlotCondition,
    ) -> Result<Slot, Trouble> {
        let alloc = self.alloc;
        let variable = condition.variable;
        if !has_variable(pattern, variable) {
            return Err(Trouble::form(format!(in alloc;
                "the condition asks for ?{variable}, which the {side} side lacks"
            )?));
        }
        let name = condition.slot;
        let slot = match self.workspace.slot(name) {
            Ok(slot) => slot,
            Err(error) => return Err(Trouble::of_call(alloc, &error, name)),
        };
        if !has_slot_in(pattern, slot) {
            return Err(Trouble::form(format!(in alloc;
                "the condition asks for ${name}, which the {side} side lacks"
            )?));
        }
        Ok(slot)
    }
}

fn no_example(alloc: Global) -> Result<Trouble, Trouble> {
    Ok(Trouble::form(String::from_str(
        alloc,
        "an operator over words and slots is wanted, such as `op (sum n $i body)`",
    )?))
}

fn no_equation(alloc: Global) -> Result<Trouble, Trouble> {
    Ok(Trouble::form(String::from_str(alloc, "two terms with ` == ` between them are wanted")?))
}
