//! The assertions and rules that a certificate has stated, and which of them gives an equation.
use crate::matching::guess;
use crate::words::Words;
use slotted_certificates::claims::{Given, Line, Says};
use slotted_certificates::given::{Assertion, asserted};
use slotted_certificates::rules::{Rule, rule_instance};
use slotted_certificates::tokens::Token;
use slotted_check::pieces::skeleton;
use slotted_check::steps::{Equation, says};
use std::alloc::{AllocError, Global};
use std::collections::HashMap;

// The reasons that lines of a proof give for what a line states: as it stands, and turned round.
#[derive(Drop)]
struct Reasons {
    reason: String,
    back: Option<String>,
}

/// Lines that state assertions and rules.
#[derive(Drop)]
pub struct Known {
    /// The lines, in the order in which they came.
    pub lines: Vec<Line>,
    reasons: Vec<Reasons>,
    // The equation of each line that is an assertion.
    equations: Vec<Option<Equation>>,
    // For a skeleton, the places of the assertions that have it.
    index: HashMap<u64, Vec<usize>>,
    rules: Vec<usize>,
}

/// The words of operators, and those that bind.
#[derive(Drop)]
pub struct Operators {
    pub words: Words,
    pub binders: Vec<usize>,
}

// Returns a number that equations have in common if a renaming takes one to the other.
fn key_of(equation: &Equation) -> u64 {
    skeleton(&equation.right, skeleton(&equation.left, 0))
}

// Returns the reason that lines of a proof give for a name.
fn reason_of(alloc: Global, name: &str) -> Result<String, AllocError> {
    Ok(format!(in alloc; "{:?}", Some(name))?)
}

// Returns the reason for instances from the right to the left: the name has `<` behind it.
fn reason_back_of(alloc: Global, name: &str) -> Result<String, AllocError> {
    let name = format!(in alloc; "{name}<")?;
    reason_of(alloc, name.as_str())
}

// Returns the reason for an assertion.
fn assertion_reason(alloc: Global, assertion: &Assertion) -> Result<String, AllocError> {
    match &assertion.name {
        Some(name) => reason_of(alloc, name.as_str()),
        None => String::from_str(alloc, "None"),
    }
}

// Returns the reasons for a rule.
fn rule_reasons(alloc: Global, rule: &Rule) -> Result<Reasons, AllocError> {
    let reason = reason_of(alloc, rule.name.as_str())?;
    let back = if rule.goes_back {
        Some(reason_back_of(alloc, rule.name.as_str())?)
    } else {
        None
    };
    Ok(Reasons { reason, back })
}

impl Known {
    /// Returns no lines.
    pub fn new(alloc: Global) -> Self {
        Known {
            lines: Vec::new(alloc),
            reasons: Vec::new(alloc),
            equations: Vec::new(alloc),
            index: HashMap::new(alloc),
            rules: Vec::new(alloc),
        }
    }

    // Notes where an assertion stands.
    fn file(&mut self, alloc: Global, key: u64, place: usize) -> Result<(), AllocError> {
        if let Some(places) = self.index.get_mut(&key) {
            places.push(place)?;
            return Ok(());
        }
        let mut places = Vec::new(alloc);
        places.push(place)?;
        self.index.insert(key, places)?;
        Ok(())
    }

    /// Adds an assertion. Returns false if the line is not its text as it is printed.
    pub fn add_assertion(
        &mut self,
        alloc: Global,
        operators: &Operators,
        line: &str,
        assertion: Assertion,
    ) -> Result<bool, AllocError> {
        let Some(equation) = asserted(
            alloc,
            &operators.words.texts,
            &operators.binders,
            line,
            &assertion,
        )?
        else {
            return Ok(false);
        };
        let place = self.lines.len();
        self.file(alloc, key_of(&equation), place)?;
        let reason = assertion_reason(alloc, &assertion)?;
        self.reasons.push(Reasons { reason, back: None })?;
        self.equations.push(Some(equation))?;
        let text = String::from_str(alloc, line)?;
        let says = Says::Assertion(assertion);
        self.lines.push(Line { text, says })?;
        Ok(true)
    }

    /// Adds a rule.
    pub fn add_rule(&mut self, alloc: Global, line: &str, rule: Rule) -> Result<(), AllocError> {
        self.rules.push(self.lines.len())?;
        self.reasons.push(rule_reasons(alloc, &rule)?)?;
        self.equations.push(None)?;
        let text = String::from_str(alloc, line)?;
        self.lines.push(Line {
            text,
            says: Says::Rule(rule),
        })?;
        Ok(())
    }

    // Returns whether the assertion at a place has a reason, and says an equation, up to a renaming.
    fn asserts(
        &self,
        alloc: Global,
        place: usize,
        goal: &Equation,
        reason: &str,
    ) -> Result<bool, AllocError> {
        let (Some(reasons), Some(Some(equation))) = (
            self.reasons.get(place),
            self.equations.get(place),
        ) else {
            return Ok(false);
        };
        if reasons.reason.as_str() != reason {
            return Ok(false);
        }
        says(alloc, equation, &goal.left, &goal.right)
    }

    // Returns the assertion with a reason that an equation is, up to a renaming.
    fn assertion(
        &self,
        alloc: Global,
        goal: &Equation,
        reason: &str,
    ) -> Result<Option<Given>, AllocError> {
        let Some(places) = self.index.get(&key_of(goal)) else {
            return Ok(None);
        };
        for line in places {
            if self.asserts(alloc, *line, goal, reason)? {
                return Ok(Some(Given {
                    line: *line,
                    values: Vec::new(alloc),
                    is_turned: false,
                }));
            }
        }
        Ok(None)
    }

    // Returns values with which the rule of a line is an equation, turned round or not.
    fn instance(
        &self,
        alloc: Global,
        operators: &Operators,
        line: usize,
        goal: &Equation,
        is_turned: bool,
    ) -> Result<Option<Given>, AllocError> {
        let Some(
            Line {
                text,
                says: Says::Rule(rule),
            },
        ) = self.lines.get(line)
        else {
            return Ok(None);
        };
        let from: &[Token] = if is_turned { &rule.right } else { &rule.left };
        let (slots, variables) = (rule.slots.len(), rule.variables.len());
        let Some(values) = guess(alloc, from, &goal.left, slots, variables)? else {
            return Ok(None);
        };
        let words = &operators.words.texts;
        let Some(made) = rule_instance(alloc, words, &operators.binders, text, rule, &values)?
        else {
            return Ok(None);
        };
        if !is_said(alloc, &made, goal, is_turned)? {
            return Ok(None);
        }
        Ok(Some(Given {
            line,
            values,
            is_turned,
        }))
    }

    // Returns which way round a line has a reason, if it has.
    fn way(&self, line: usize, reason: &str) -> Option<bool> {
        match self.reasons.get(line) {
            Some(reasons) => {
                if reasons.reason.as_str() == reason {
                    return Some(false);
                }
                match &reasons.back {
                    Some(back) if back.as_str() == reason => Some(true),
                    _ => None,
                }
            }
            None => None,
        }
    }

    /// Returns the line with a reason that gives an equation, up to a renaming.
    pub fn find(
        &self,
        alloc: Global,
        operators: &Operators,
        goal: &Equation,
        reason: &str,
    ) -> Result<Option<Given>, AllocError> {
        let asserted = self.assertion(alloc, goal, reason)?;
        if asserted.is_some() {
            return Ok(asserted);
        }
        for line in &self.rules {
            if let Some(is_turned) = self.way(*line, reason) {
                let given = self.instance(alloc, operators, *line, goal, is_turned)?;
                if given.is_some() {
                    return Ok(given);
                }
            }
        }
        Ok(None)
    }
}

// Returns whether an equation, turned round or not, is another one, up to a renaming.
fn is_said(
    alloc: Global,
    made: &Equation,
    goal: &Equation,
    is_turned: bool,
) -> Result<bool, AllocError> {
    if is_turned {
        return says(alloc, made, &goal.right, &goal.left);
    }
    says(alloc, made, &goal.left, &goal.right)
}
