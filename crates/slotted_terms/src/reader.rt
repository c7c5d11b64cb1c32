//! The parser of terms over tokens: a loop over one list of the elements of all open brackets, and one of the terms
//! among them. It gives up where the tokens are no term, or are at fault.
ghost use Rattle.std.specs.Prelude.{◌≡◌, ◌≤◌, ◌∷◌, ◌++◌, [], length, map, take, List, IsTrue, IfOk, OnOk, IfErr, IfSome};
ghost use Rattle.slotted_slots.specs.Error.{IsOutOfMemory};
ghost use Rattle.slotted_slots.specs.Syntax.{Lexeme, applied, element_of, lexeme_of, right_paren, word};
ghost use Rattle.slotted_nodes.specs.Form.{children};
ghost use Rattle.slotted_languages.specs.Filled.{term_of};
ghost use Rattle.slotted_patterns.specs.LentTokens.{lexeme};
ghost use Rattle.slotted_patterns.specs.Outcome.{Refuses};
ghost use Rattle.slotted_patterns.specs.Shown.{width};
ghost use Rattle.slotted_terms.specs.Reader.{BeginsBracket, EndsInBracket, IsChild, IsClosed, IsLastTerm, IsReadAs, Leads, ReadAsTerm, front, is_text};

use crate::expr::RecExpr;
use crate::patterns::into_term;
use slotted_languages::language::Language;
use slotted_patterns::parse::parse_lent;
use slotted_patterns::tokens::LentToken;
use slotted_slots::{AppliedId, Error, SyntaxElem, Token};
use std::alloc::Global;

// Room for the elements and the terms of most open brackets.
const USUAL_COUNT: usize = 16;

fn is_text(element: &SyntaxElem) -> bool
    ensures { result ≡ is_text (element_of element.now) }
{
    match element {
        SyntaxElem::String(_) => true,
        SyntaxElem::AppliedId(_) => false,
        SyntaxElem::Slot(_) => false,
    }
}

// Returns how many children stand in the place of an element.
fn child_count(element: &SyntaxElem) -> usize
    ensures count { result ≡ width (element_of element.now) }
    ensures one { result ≤ 1 }
{
    match element {
        SyntaxElem::AppliedId(_) => 1,
        _ => 0,
    }
}

// Returns where the elements of the innermost bracket begin, and how many children are among them, or `None` if no
// bracket is open.
fn last_bracket(elements: &[SyntaxElem]) -> Option<(usize, usize)>
    ensures some { IfSome result (λ r. EndsInBracket (map element_of elements.now) r.0 r.1) }
    ensures within { IfSome result (λ r. r.0 ≤ length elements.now) }
{
    let mut begin = elements.len();
    let mut count = 0;
    while begin > 0 {
        begin -= 1;
        let element = &elements[begin];
        if is_text(element) {
            return Some((begin, count));
        }
        count += child_count(element);
    }
    None
}

// Adds a term to those that were read, and its place to the elements.
fn push_term<L: Language>(
    alloc: Global,
    elements: &mut Vec<SyntaxElem>,
    terms: &mut Vec<RecExpr<L>>,
    term: RecExpr<L>,
) -> Result<(), Error>
    ensures elements { OnOk result (map element_of elements.new.items ≡ map element_of elements.old.items ++ applied 0 [] ∷ []) }
    ensures terms { OnOk result (terms.new.items ≡ terms.old.items ++ term ∷ []) }
    ensures err { IfErr result IsOutOfMemory }
{
    elements.push(SyntaxElem::AppliedId(AppliedId::null(alloc)))?;
    terms.push(term)?;
    Ok(())
}

// Reads a word alone. Returns that no operator is due, or `None` if the word is no term.
fn read_word<L: Language>(
    alloc: Global,
    text: &str,
    elements: &mut Vec<SyntaxElem>,
    terms: &mut Vec<RecExpr<L>>,
) -> Result<Option<bool>, Error>
    ensures ok { IfOk result (λ o. IfSome o (λ due. (ls : List Lexeme) → Leads L.form L.read
        (map element_of elements.old.items) terms.old.items (word text.now ∷ ls)
        (map element_of elements.new.items) terms.new.items (front due ls))) }
    ensures err { IfErr result IsOutOfMemory }
{
    let operator = SyntaxElem::String(String::from_str(alloc, text)?);
    let Some(node) = L::from_syntax(alloc, &[operator])? else {
        return Ok(None);
    };
    if node.applied_id_count() > 0 {
        return Ok(None);
    }
    let children = Vec::new(alloc);
    push_term(alloc, elements, terms, RecExpr { node, children })?;
    Ok(Some(false))
}

// Replaces the elements from `begin` on, and the last `count` terms, by the term of the node over them.
fn close<L: Language>(
    alloc: Global,
    elements: &mut Vec<SyntaxElem>,
    terms: &mut Vec<RecExpr<L>>,
    begin: usize,
    node: L,
) -> Result<(), Error>
    requires { length (children (L.form node).tree) ≤ length terms.old.items }
    ensures elements { OnOk result (map element_of elements.new.items ≡ take begin (map element_of elements.old.items) ++ applied 0 [] ∷ []) }
    ensures terms { OnOk result (IsClosed (L.form node) terms.old.items terms.new.items) }
    ensures err { IfErr result IsOutOfMemory }
{
    let children = terms.split_off(terms.len() - node.applied_id_count())?;
    elements.truncate(begin);
    push_term(alloc, elements, terms, RecExpr { node, children })
}

// Reads the end of a bracket. Returns that no operator is due, or `None` if no term ends here.
fn read_end<L: Language>(
    alloc: Global,
    elements: &mut Vec<SyntaxElem>,
    terms: &mut Vec<RecExpr<L>>,
) -> Result<Option<bool>, Error>
    ensures ok { IfOk result (λ o. IfSome o (λ due. (ls : List Lexeme) → Leads L.form L.read
        (map element_of elements.old.items) terms.old.items (right_paren ∷ ls)
        (map element_of elements.new.items) terms.new.items (front due ls))) }
    ensures err { IfErr result IsOutOfMemory }
{
    let Some((begin, count)) = last_bracket(elements) else {
        return Ok(None);
    };
    let Some(node) = L::from_syntax(alloc, &elements[begin..])? else {
        return Ok(None);
    };
    if node.applied_id_count() != count || terms.len() < count {
        return Ok(None);
    }
    close(alloc, elements, terms, begin, node)?;
    Ok(Some(false))
}

// Reads the operator of a bracket. Returns that no operator is due, or `None` if the token is none.
fn read_operator(
    alloc: Global,
    token: &LentToken<'_>,
    elements: &mut Vec<SyntaxElem>,
) -> Result<Option<bool>, Error>
    ensures ok { IfOk result (λ o. IfSome o (λ due. BeginsBracket
        (map element_of elements.old.items) (lexeme token.now) (map element_of elements.new.items) due)) }
    ensures err { IfErr result IsOutOfMemory }
{
    match token {
        LentToken::Word(word) => {
            elements.push(SyntaxElem::String(String::from_str(alloc, word)?))?;
            Ok(Some(false))
        }
        _ => Ok(None),
    }
}

// Reads a slot, the end of a bracket, or the sign with which one begins. Returns whether an operator is due, or `None`
// if no term goes on so.
fn read_other<L: Language>(
    alloc: Global,
    token: &Token,
    elements: &mut Vec<SyntaxElem>,
    terms: &mut Vec<RecExpr<L>>,
) -> Result<Option<bool>, Error>
    ensures ok { IfOk result (λ o. IfSome o (λ due. (ls : List Lexeme) → Leads L.form L.read
        (map element_of elements.old.items) terms.old.items (lexeme_of token.now ∷ ls)
        (map element_of elements.new.items) terms.new.items (front due ls))) }
    ensures err { IfErr result IsOutOfMemory }
{
    match token {
        Token::LParen => Ok(Some(true)),
        Token::RParen => read_end(alloc, elements, terms),
        Token::Slot(slot) => {
            elements.push(SyntaxElem::Slot(*slot))?;
            Ok(Some(false))
        }
        _ => Ok(None),
    }
}

// Reads a token, which has to be an operator if `due`. Returns whether an operator is due after it, or `None` if no
// term goes on so.
fn read_on<L: Language>(
    alloc: Global,
    token: &LentToken<'_>,
    due: bool,
    elements: &mut Vec<SyntaxElem>,
    terms: &mut Vec<RecExpr<L>>,
) -> Result<Option<bool>, Error>
    ensures ok { IfOk result (λ o. IfSome o (λ next. (ls : List Lexeme) → Leads L.form L.read
        (map element_of elements.old.items) terms.old.items (front due (lexeme token.now ∷ ls))
        (map element_of elements.new.items) terms.new.items (front next ls))) }
    ensures err { IfErr result IsOutOfMemory }
{
    if due {
        return read_operator(alloc, token, elements);
    }
    match token {
        LentToken::Word(word) => read_word(alloc, word, elements, terms),
        LentToken::Variable(_) => Ok(None),
        LentToken::Other(token) => read_other(alloc, token, elements, terms),
    }
}

fn is_child(elements: &[SyntaxElem]) -> bool
    ensures { IsTrue result → IsChild (map element_of elements.now) }
{
    match elements {
        [SyntaxElem::AppliedId(_)] => true,
        _ => false,
    }
}

// Returns the term if one was read to its end: nothing but its place is among the elements.
fn whole<L: Language>(
    due: bool,
    elements: &[SyntaxElem],
    terms: &mut Vec<RecExpr<L>>,
) -> Option<RecExpr<L>>
    ensures { IfSome result (λ t. IsLastTerm due (map element_of elements.now) terms.old.items t) }
{
    if due || terms.len() != 1 || !is_child(elements) {
        return None;
    }
    terms.pop()
}

// Returns the term that tokens write, or `None`, also for some terms, where the parser of patterns has to read them.
fn read_term<L: Language>(
    alloc: Global,
    tokens: &[LentToken<'_>],
) -> Result<Option<RecExpr<L>>, Error>
    ensures ok { IfOk result (λ o. IfSome o (IsReadAs L.form L.read (map lexeme tokens.now))) }
    ensures err { IfErr result IsOutOfMemory }
{
    let mut elements = Vec::with_capacity(alloc, USUAL_COUNT)?;
    let mut terms = Vec::with_capacity(alloc, USUAL_COUNT)?;
    let mut due = false;
    for token in tokens {
        match read_on(alloc, token, due, &mut elements, &mut terms)? {
            Some(next) => due = next,
            None => return Ok(None),
        }
    }
    Ok(whole(due, &elements, &mut terms))
}

/// Returns the term that tokens write.
pub(crate) fn parse_tokens<L: Language>(
    alloc: Global,
    tokens: &[LentToken<'_>],
) -> Result<RecExpr<L>, Error>
    ensures ok { IfOk result (IsReadAs L.form L.read (map lexeme tokens.now)) }
    ensures none { IfErr result (Refuses (ReadAsTerm L.read (map lexeme tokens.now))) }
{
    if let Some(term) = read_term(alloc, tokens)? {
        return Ok(term);
    }
    let pattern = parse_lent(alloc, tokens)?;
    into_term(alloc, pattern)
}
