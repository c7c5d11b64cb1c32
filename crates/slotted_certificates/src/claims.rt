//! Claims of a certificate, and the equations that a proof of one stands on.
ghost use Rattle.std.specs.Prelude.{◌≡◌, [], All, Contains, true, map, string_bytes, IfOk, IfSome, IsTrue};
ghost use Rattle.slotted_check.specs.declared.following.Judgement.TheVariants.{Checked as JudgedChecked};
ghost use Rattle.slotted_certificates.specs.declared.claims.Verdict.TheVariants.{Checked};
ghost use Rattle.slotted_certificates.specs.Following.{ClaimRows, FollowsFrom, GivenRows, LineRows, claim_opening, claim_sign};
ghost use Rattle.slotted_certificates.specs.Given.{AssertsRows, IsSidesText};
ghost use Rattle.slotted_certificates.specs.Rules.{InstanceRows};
ghost use Rattle.slotted_certificates.specs.Texts.{words};

use crate::distinct::are_many_different;
use crate::given::{Assertion, are_different, asserted, is_sides_text, sides};
use crate::rules::{Rule, rule_instance};
use crate::spelling::Spelling;
use crate::tokens::Token;
use slotted_check::following::{Judgement, Step, judge_proof};
use slotted_check::pieces::Piece;
use slotted_check::steps::Equation;
use std::alloc::{AllocError, Global};

/// A claim, by the parts of its text.
#[derive(Drop)]
pub struct Claim {
    /// Whether the text begins with `ask`, and not with `explain`.
    pub asks: bool,
    /// The words of the slots of the text.
    pub slots: Vec<String>,
    /// The sides.
    pub left: Vec<Token>,
    pub right: Vec<Token>,
}

/// What a line of a certificate says.
#[derive(Drop)]
pub enum Says {
    /// An assertion.
    Assertion(Assertion),
    /// A rule.
    Rule(Rule),
}

/// A line of a certificate, and its parts.
#[derive(Drop)]
pub struct Line {
    pub text: String,
    pub says: Says,
}

/// Which line gives an equation, and by which values, if that is a rule.
#[derive(Drop)]
pub struct Given {
    /// The place of the line.
    pub line: usize,
    /// The values of the rule's variables, in rows without bound names.
    pub values: Vec<Vec<Piece>>,
    /// Whether the rule is turned round.
    pub is_turned: bool,
}

// Returns what a claim begins with.
fn opening_of(asks: bool) -> &'static str
    ensures { result.now ≡ claim_opening asks }
{
    if asks { "ask" } else { "explain" }
}

// Returns the sign between the sides of a claim.
fn sign_of(asks: bool) -> &'static str
    ensures { result.now ≡ claim_sign asks }
{
    if asks { " =" } else { " ==" }
}

// Returns whether a text is that of a claim.
fn is_text_of(
    alloc: Global,
    operators: &[String],
    text: &str,
    claim: &Claim,
) -> Result<bool, AllocError>
    ensures { IfOk result (λ b. IsTrue b → IsSidesText
        (words (map string_bytes operators.now) (map string_bytes claim.now.slots.items) [])
        (claim_opening claim.now.asks) claim.now.left.items (claim_sign claim.now.asks) claim.now.right.items text.now) }
{
    let words = Spelling {
        operators,
        slots: &claim.slots,
        values: &[],
    };
    let (opening, sign) = (opening_of(claim.asks), sign_of(claim.asks));
    is_sides_text(
        alloc,
        &words,
        opening,
        &claim.left,
        sign,
        &claim.right,
        text,
    )
}

/// Returns the equation that a text claims. There is none if the text is not that of the claim, two slots have one word,
/// a side is no term, or a number is too large.
pub fn claimed(
    alloc: Global,
    operators: &[String],
    binders: &[usize],
    text: &str,
    claim: &Claim,
) -> Result<Option<Equation>, AllocError>
    ensures { IfOk result (λ o. IfSome o
        (λ e. ClaimRows (map string_bytes operators.now) binders.now text.now e)) }
{
    if !are_different(&claim.slots) || !is_text_of(alloc, operators, text, claim)? {
        return Ok(None);
    }
    sides(alloc, binders, &claim.left, &claim.right, &[])
}

// Returns an equation turned round.
fn turned(equation: Equation) -> Equation
    ensures left { result.left.items ≡ equation.right.items }
    ensures right { result.right.items ≡ equation.left.items }
{
    let Equation { left, right } = equation;
    Equation {
        left: right,
        right: left,
    }
}

// Returns the equation that a line gives, if it gives one.
fn line_equation(
    alloc: Global,
    operators: &[String],
    binders: &[usize],
    line: &Line,
    given: &Given,
) -> Result<Option<Equation>, AllocError>
    ensures { IfOk result (λ o. IfSome o
        (λ e. LineRows (map string_bytes operators.now) binders.now (string_bytes line.now.text) e)) }
{
    match &line.says {
        Says::Assertion(assertion) => {
            asserted(alloc, operators, binders, line.text.as_str(), assertion)
        }
        Says::Rule(rule) => rule_equation(
            alloc,
            operators,
            binders,
            line.text.as_str(),
            rule,
            given,
        ),
    }
}

// Returns the equation of an instance of a rule, turned round if that is asked and the rule goes both ways.
fn rule_equation(
    alloc: Global,
    operators: &[String],
    binders: &[usize],
    text: &str,
    rule: &Rule,
    given: &Given,
) -> Result<Option<Equation>, AllocError>
    ensures { IfOk result (λ o. IfSome o (λ e. LineRows (map string_bytes operators.now) binders.now text.now e)) }
{
    let equation = rule_instance(alloc, operators, binders, text, rule, &given.values)?;
    if !given.is_turned {
        return Ok(equation);
    }
    if !rule.goes_back {
        return Ok(None);
    }
    match equation {
        Some(equation) => Ok(Some(turned(equation))),
        None => Ok(None),
    }
}

// Returns the line at a place.
fn line_at<'a>(lines: &'a [Line], place: usize) -> Option<&'a Line>
    ensures { IfSome result (λ l. Contains lines.now l.now) }
{
    if place < lines.len() {
        return Some(&lines[place]);
    }
    None
}

// Returns the equation that one of the lines gives, if it gives one.
fn given_equation(
    alloc: Global,
    operators: &[String],
    binders: &[usize],
    lines: &[Line],
    given: &Given,
) -> Result<Option<Equation>, AllocError>
    ensures { IfOk result (λ o. IfSome o (λ e. GivenRows (map string_bytes operators.now) binders.now
        (map (λ l. string_bytes l.text) lines.now) e)) }
{
    match line_at(lines, given.line) {
        Some(line) => line_equation(alloc, operators, binders, line, given),
        None => Ok(None),
    }
}

// Returns the equations that lines give. There are none if one of them is not given.
fn given_equations(
    alloc: Global,
    operators: &[String],
    binders: &[usize],
    lines: &[Line],
    given: &[Given],
) -> Result<Option<Vec<Equation>>, AllocError>
    ensures { IfOk result (λ o. IfSome o (λ v. All (GivenRows (map string_bytes operators.now) binders.now
        (map (λ l. string_bytes l.text) lines.now)) v.items)) }
{
    let mut equations = Vec::new(alloc);
    for place in 0..given.len() {
        match given_equation(alloc, operators, binders, lines, &given[place])? {
            Some(equation) => equations.push(equation)?,
            None => return Ok(None),
        }
    }
    Ok(Some(equations))
}

/// What is said of a claim and its proof.
#[derive(Clone, Copy, PartialEq, Eq)]
pub enum Verdict {
    /// The claim follows from the lines.
    Checked,
    /// The line of the proof with this number does not follow.
    Fails(usize),
    /// Each line of the proof follows, and the last one does not say the claim, or there is none.
    OtherClaim,
    /// Two operators have one word, the claim's text is not made of its parts, or an equation is not given by its line.
    NotGiven,
}

// Returns the verdict of a judgement.
fn verdict_of(judgement: Judgement) -> Verdict
    ensures { (result ≡ Checked) → judgement ≡ JudgedChecked }
{
    match judgement {
        Judgement::Checked => Verdict::Checked,
        Judgement::Fails(line) => Verdict::Fails(line),
        Judgement::OtherClaim => Verdict::OtherClaim,
    }
}

/// Judges the proof of a claim from equations that the lines of a certificate give.
///
/// If the claim is checked, then it is derivable from the assertions of the lines and from instances of their rules.
/// Nothing is asked of the parts of lines and claim: their texts are made again, and compared.
pub fn judge_claim(
    alloc: Global,
    operators: &[String],
    binders: &[usize],
    lines: &[Line],
    given: &[Given],
    text: &str,
    claim: &Claim,
    proof: &[Equation],
    steps: &[Step],
) -> Result<Verdict, AllocError>
    ensures checked { IfOk result (λ v. (v ≡ Checked) → FollowsFrom (map string_bytes operators.now) binders.now
        (map (λ l. string_bytes l.text) lines.now) text.now) }
{
    if !are_many_different(alloc, operators)? {
        return Ok(Verdict::NotGiven);
    }
    let Some(claimed) = claimed(alloc, operators, binders, text, claim)? else {
        return Ok(Verdict::NotGiven);
    };
    match given_equations(alloc, operators, binders, lines, given)? {
        Some(equations) => Ok(verdict_of(judge_proof(alloc, &equations, proof, steps, &claimed)?)),
        None => Ok(Verdict::NotGiven),
    }
}
