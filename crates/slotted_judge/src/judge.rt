//! A judge of certificates: assertions, rules, claims, and the lines of their proofs.
use crate::known::{Known, Operators};
use crate::lines::{read_assertion, read_claim, read_equation, read_rule};
use crate::reader::Reader;
use crate::reasons::step_of;
use crate::words::Words;
use slotted_certificates::claims::{Claim, Given, Verdict, claimed, judge_claim};
use slotted_certificates::spelling::is_word;
use slotted_check::following::Step;
use slotted_check::steps::Equation;
use std::alloc::{AllocError, Global};

/// The line of a proof that fails, by its place, and why.
#[derive(Drop)]
pub struct Fault {
    pub line: usize,
    pub why: &'static str,
}

/// What is said of a claim that had a proof.
#[derive(Drop)]
pub struct Answer {
    pub claim: String,
    /// The first line that fails, if one does.
    pub fault: Option<Fault>,
}

// The lines of a proof with their steps, and which lines of the certificate give what they stand on.
#[derive(Drop)]
struct Proof {
    given: Vec<Given>,
    lines: Vec<Equation>,
    steps: Vec<Step>,
}

// A claim, its proof up to the first line that cannot be read, and that line.
#[derive(Drop)]
struct Question {
    text: String,
    claim: Claim,
    proof: Proof,
    fault: Option<Fault>,
}

/// What a certificate has said so far.
#[derive(Drop)]
pub struct Judge {
    alloc: Global,
    operators: Operators,
    known: Known,
    question: Option<Question>,
    // Whether a line could not be read that was to say what binds. No claim is read behind it.
    is_lost: bool,
    /// How many lines were to say something, and could not be read.
    pub unread: usize,
}

// Returns the number of a line of a proof, and what stands behind it.
fn numbered_line<'a>(line: &'a str) -> Option<(usize, &'a str)> {
    let mut reader = Reader::new(line);
    reader.skip_spaces();
    match reader.number() {
        Some(number) if reader.take(": ") => Some((number, reader.rest())),
        _ => None,
    }
}

// Returns the first fault of a proof, of which a line past the judged ones may be at fault.
fn first_fault(verdict: Verdict, count: usize, unread: Option<Fault>) -> Option<Fault> {
    if let Verdict::Fails(line) = verdict {
        let why = "it does not follow from the lines that it names";
        return Some(Fault { line, why });
    }
    if unread.is_some() || verdict == Verdict::Checked {
        return unread;
    }
    Some(Fault {
        line: count.saturating_sub(1),
        why: "it says something else than the claim",
    })
}

// Returns what a claim's text is behind its first word.
fn sides_of<'a>(text: &'a str) -> &'a str {
    match text.split_once(' ') {
        Some((_, sides)) => sides,
        None => "",
    }
}

impl Judge {
    /// Returns a judge who has read nothing.
    pub fn new(alloc: Global) -> Self {
        Judge {
            alloc,
            operators: Operators {
                words: Words::new(alloc),
                binders: Vec::new(alloc),
            },
            known: Known::new(alloc),
            question: None,
            is_lost: false,
            unread: 0,
        }
    }

    // Returns the step of an equation that a line with a reason gives.
    fn given_step(
        &self,
        given: &mut Vec<Given>,
        goal: &Equation,
        reason: &str,
    ) -> Result<Option<Step>, AllocError> {
        let found = self.known.find(self.alloc, &self.operators, goal, reason)?;
        match found {
            Some(found) => {
                let place = given.len();
                given.push(found)?;
                Ok(Some(Step::Given(place)))
            }
            None => Ok(None),
        }
    }

    // Returns the step of a line of a proof, or why there is none.
    fn read_step(
        &self,
        given: &mut Vec<Given>,
        goal: &Equation,
        reason: &str,
    ) -> Result<(Option<Step>, &'static str), AllocError> {
        if reason == "None" || reason.starts_with("Some(") {
            let why = "it was not asserted, and is no instance of a rule of that name";
            return Ok((self.given_step(given, goal, reason)?, why));
        }
        Ok((step_of(self.alloc, reason)?, "there is no such step"))
    }

    // Reads a line of a proof, and returns why it is none, if so.
    fn read_line(
        &mut self,
        proof: &mut Proof,
        number: usize,
        text: &str,
    ) -> Result<Option<&'static str>, AllocError> {
        let mut reader = Reader::new(text);
        let Operators { words, binders } = &mut self.operators;
        let Some(goal) = read_equation(self.alloc, &mut reader, words, binders, "=")? else {
            return Ok(Some("a side is no term"));
        };
        if number != proof.lines.len() {
            return Ok(Some("its number is not the next one"));
        }
        reader.skip_spaces();
        if !reader.take("by ") {
            return Ok(Some("it has no reason"));
        }
        let (step, why) = self.read_step(&mut proof.given, &goal, reader.rest())?;
        match step {
            Some(step) => {
                proof.steps.push(step)?;
                proof.lines.push(goal)?;
                Ok(None)
            }
            None => Ok(Some(why)),
        }
    }

    // Takes a line of the proof of the claim.
    fn take_line(&mut self, number: usize, text: &str) -> Result<(), AllocError> {
        let Some(mut question) = self.question.take() else {
            return Ok(());
        };
        if question.fault.is_none() {
            let line = question.proof.lines.len();
            if let Some(why) = self.read_line(&mut question.proof, number, text)? {
                question.fault = Some(Fault { line, why });
            }
        }
        self.question = Some(question);
        Ok(())
    }

    // Returns what is said of a claim and its proof.
    fn verdict(&self, question: &Question) -> Result<Verdict, AllocError> {
        judge_claim(
            self.alloc,
            &self.operators.words.texts,
            &self.operators.binders,
            &self.known.lines,
            &question.proof.given,
            question.text.as_str(),
            &question.claim,
            &question.proof.lines,
            &question.proof.steps,
        )
    }

    /// Ends the proof of the claim. Returns what is said of the claim, if it had a proof.
    pub fn conclude(&mut self) -> Result<Option<Answer>, AllocError> {
        let Some(question) = self.question.take() else {
            return Ok(None);
        };
        if question.proof.lines.is_empty() && question.fault.is_none() {
            return Ok(None);
        }
        let verdict = self.verdict(&question)?;
        let Question {
            text,
            proof,
            fault,
            ..
        } = question;
        Ok(Some(Answer {
            claim: String::from_str(self.alloc, sides_of(&text))?,
            fault: first_fault(verdict, proof.lines.len(), fault),
        }))
    }

    // Counts a line that was to say something, if it could not be read.
    fn count(&mut self, is_read: bool) {
        if !is_read {
            self.unread = self.unread.saturating_add(1);
        }
    }

    fn assert(&mut self, line: &str, name: Option<&str>, sides: &str) -> Result<bool, AllocError> {
        let words = &mut self.operators.words;
        match read_assertion(self.alloc, name, sides, words)? {
            Some(assertion) => {
                self.known
                    .add_assertion(self.alloc, &self.operators, line, assertion)
            }
            None => Ok(false),
        }
    }

    fn assert_named(&mut self, line: &str, text: &str) -> Result<bool, AllocError> {
        match text.split_once(": ") {
            Some((name, sides)) => self.assert(line, Some(name), sides),
            None => Ok(false),
        }
    }

    fn keep_rule(&mut self, line: &str, text: &str) -> Result<bool, AllocError> {
        match read_rule(self.alloc, text, &mut self.operators.words)? {
            Some(rule) => {
                self.known.add_rule(self.alloc, line, rule)?;
                Ok(true)
            }
            None => Ok(false),
        }
    }

    fn begin_claim(&mut self, line: &str, asks: bool, sides: &str) -> Result<bool, AllocError> {
        let alloc = self.alloc;
        if self.is_lost {
            return Ok(false);
        }
        let Some(claim) = read_claim(alloc, asks, sides, &mut self.operators.words)? else {
            return Ok(false);
        };
        let Operators { words, binders } = &self.operators;
        if claimed(alloc, &words.texts, binders, line, &claim)?.is_none() {
            return Ok(false);
        }
        let proof = Proof {
            given: Vec::new(alloc),
            lines: Vec::new(alloc),
            steps: Vec::new(alloc),
        };
        self.question = Some(Question {
            text: String::from_str(alloc, line)?,
            claim,
            proof,
            fault: None,
        });
        Ok(true)
    }

    // Begins anew, with one operator more that binds, if this is a word.
    fn bind(&mut self, word: &str) -> Result<bool, AllocError> {
        if !is_word(word) {
            self.is_lost = true;
            return Ok(false);
        }
        let operator = self.operators.words.number(self.alloc, word)?;
        self.operators.binders.push(operator)?;
        self.forget();
        Ok(true)
    }

    // Begins anew: no assertion, no rule.
    fn forget(&mut self) {
        self.known = Known::new(self.alloc);
    }

    // Keeps what a line says that is no line of a proof. Returns false if the line cannot be read.
    fn keep(&mut self, line: &str) -> Result<bool, AllocError> {
        let (word, text) = line.split_once(' ').unwrap_or((line, ""));
        match word {
            "binder" => self.bind(text.trim()),
            "union" => self.assert(line, None, text),
            "assert" => self.assert_named(line, text),
            "rule" => self.keep_rule(line, text),
            "explain" => self.begin_claim(line, false, text),
            "ask" => self.begin_claim(line, true, text),
            "---" => {
                self.forget();
                Ok(true)
            }
            _ => Ok(true),
        }
    }

    /// Reads a line. Returns what is said of the claim before it, if the line ends the proof of that claim.
    pub fn read(&mut self, line: &str) -> Result<Option<Answer>, AllocError> {
        if let Some((number, text)) = numbered_line(line) {
            self.take_line(number, text)?;
            return Ok(None);
        }
        if line.is_empty() || line == "yes" {
            return Ok(None);
        }
        let answer = self.conclude()?;
        let is_read = self.keep(line)?;
        self.count(is_read);
        Ok(answer)
    }
}
