//! The language `Small`: lambda terms, slots by themselves, sums, products, numbers and words.
ghost use Rattle.std.specs.Prelude.{◌≡◌, Some, [], ◌∷◌, map, option_map, IfOk, IfErr};
ghost use Rattle.slotted_slots.specs.Error.{IsOutOfMemory};
ghost use Rattle.slotted_slots.specs.Syntax.{element_of, name, text};
ghost use Rattle.slotted_small.specs.Small.{small_form, small_shown, small_read, alone, id_element, id_form};
ghost use Rattle.slotted_small.specs.Small.{over_slot, over_slots, over_binder, over_children};
ghost use Rattle.slotted_small.specs.SmallBack.{small_words, small_back, small_null};
ghost use Rattle.slotted_small.specs.SmallRead.{small_faithful};
ghost use Rattle.slotted_small.specs.SmallSame.{small_fits, small_few, small_same};
ghost use Rattle.slotted_small.specs.SmallWritten.{small_written, small_written_as};
ghost use Rattle.slotted_slots.specs.Table.{reads_u32};

use slotted_languages::{Bind, Language, LanguageChildren, ReadBack, Symbol, pair};
use slotted_slots::{AppliedId, Error, Slot, SyntaxElem};
use slotted_terms::expr::printing::Printable;
use std::alloc::Global;

/// A node of `Small`. The comment at each variant says how it is written.
///
/// A text alone is a number if Rust reads it as a `u32`, and else a word. So `lam` alone is a word, and `+5` is the
/// number 5, which is written `5`.
#[derive(Drop, Debug, Clone, PartialEq, Eq, PartialOrd, Ord, Hash)]
pub enum Small {
    /// `(lam $x t)`
    Lam(Bind<AppliedId>),
    /// `(app t u)`
    App(AppliedId, AppliedId),
    /// `(var $x)`
    Var(Slot),
    /// `(f $x $y)`
    F(Slot, Slot),
    /// `(g $x)`
    G(Slot),
    /// `(add t u)`
    Add(AppliedId, AppliedId),
    /// `(mul t u)`
    Mul(AppliedId, AppliedId),
    /// A number alone, such as `42`.
    Number(u32),
    /// Any other text alone.
    Word(Symbol),
}

impl LanguageChildren for Small {
    ghost form = { small_form };

    ghost shown = { small_shown };

    ghost read = { small_read };

    ghost fits = { small_fits };

    ghost few = { small_few };

    ghost same = { small_same };

    ghost faithful = { small_faithful };

    fn copy(&self, alloc: Global) -> Result<Self, Error> {
        Ok(self.clone()?)
    }

    fn slot_count(&self) -> usize {
        match self {
            Small::Lam(b) => b.slot_count(),
            Small::Var(x) => x.slot_count(),
            Small::G(x) => x.slot_count(),
            Small::Number(n) => n.slot_count(),
            Small::Word(w) => w.slot_count(),
            Small::App(a, b) => pair::slot_count(a, b),
            Small::F(x, y) => pair::slot_count(x, y),
            Small::Add(a, b) => pair::slot_count(a, b),
            Small::Mul(a, b) => pair::slot_count(a, b),
        }
    }

    fn slot(&self, i: usize) -> Slot {
        match self {
            Small::Lam(b) => b.slot(i),
            Small::Var(x) => x.slot(i),
            Small::G(x) => x.slot(i),
            Small::Number(n) => n.slot(i),
            Small::Word(w) => w.slot(i),
            Small::App(a, b) => pair::slot(a, b, i),
            Small::F(x, y) => pair::slot(x, y, i),
            Small::Add(a, b) => pair::slot(a, b, i),
            Small::Mul(a, b) => pair::slot(a, b, i),
        }
    }

    fn set_slot(&mut self, i: usize, s: Slot) {
        match self {
            Small::Lam(b) => b.set_slot(i, s),
            Small::Var(x) => x.set_slot(i, s),
            Small::G(x) => x.set_slot(i, s),
            Small::Number(n) => n.set_slot(i, s),
            Small::Word(w) => w.set_slot(i, s),
            Small::App(a, b) => pair::set_slot(a, b, i, s),
            Small::F(x, y) => pair::set_slot(x, y, i, s),
            Small::Add(a, b) => pair::set_slot(a, b, i, s),
            Small::Mul(a, b) => pair::set_slot(a, b, i, s),
        }
    }

    fn scope_end(&self, i: usize) -> Option<usize> {
        match self {
            Small::Lam(b) => b.scope_end(i),
            Small::Var(x) => x.scope_end(i),
            Small::G(x) => x.scope_end(i),
            Small::Number(n) => n.scope_end(i),
            Small::Word(w) => w.scope_end(i),
            Small::App(a, b) => pair::scope_end(a, b, i),
            Small::F(x, y) => pair::scope_end(x, y, i),
            Small::Add(a, b) => pair::scope_end(a, b, i),
            Small::Mul(a, b) => pair::scope_end(a, b, i),
        }
    }

    fn applied_id_count(&self) -> usize {
        match self {
            Small::Lam(b) => b.applied_id_count(),
            Small::Var(x) => x.applied_id_count(),
            Small::G(x) => x.applied_id_count(),
            Small::Number(n) => n.applied_id_count(),
            Small::Word(w) => w.applied_id_count(),
            Small::App(a, b) => pair::applied_id_count(a, b),
            Small::F(x, y) => pair::applied_id_count(x, y),
            Small::Add(a, b) => pair::applied_id_count(a, b),
            Small::Mul(a, b) => pair::applied_id_count(a, b),
        }
    }

    fn get_applied_id(&self, k: usize) -> Option<&AppliedId> {
        match self {
            Small::Lam(b) => b.get_applied_id(k),
            Small::Var(x) => x.get_applied_id(k),
            Small::G(x) => x.get_applied_id(k),
            Small::Number(n) => n.get_applied_id(k),
            Small::Word(w) => w.get_applied_id(k),
            Small::App(a, b) => pair::get_applied_id(a, b, k),
            Small::F(x, y) => pair::get_applied_id(x, y, k),
            Small::Add(a, b) => pair::get_applied_id(a, b, k),
            Small::Mul(a, b) => pair::get_applied_id(a, b, k),
        }
    }

    fn applied_id_place(&self, k: usize) -> usize {
        match self {
            Small::Lam(b) => b.applied_id_place(k),
            Small::Var(x) => x.applied_id_place(k),
            Small::G(x) => x.applied_id_place(k),
            Small::Number(n) => n.applied_id_place(k),
            Small::Word(w) => w.applied_id_place(k),
            Small::App(a, b) => pair::applied_id_place(a, b, k),
            Small::F(x, y) => pair::applied_id_place(x, y, k),
            Small::Add(a, b) => pair::applied_id_place(a, b, k),
            Small::Mul(a, b) => pair::applied_id_place(a, b, k),
        }
    }

    fn set_applied_id(&mut self, k: usize, child: AppliedId) {
        match self {
            Small::Lam(b) => b.set_applied_id(k, child),
            Small::Var(x) => x.set_applied_id(k, child),
            Small::G(x) => x.set_applied_id(k, child),
            Small::Number(n) => n.set_applied_id(k, child),
            Small::Word(w) => w.set_applied_id(k, child),
            Small::App(a, b) => pair::set_applied_id(a, b, k, child),
            Small::F(x, y) => pair::set_applied_id(x, y, k, child),
            Small::Add(a, b) => pair::set_applied_id(a, b, k, child),
            Small::Mul(a, b) => pair::set_applied_id(a, b, k, child),
        }
    }

    fn to_syntax(&self, alloc: Global) -> Result<Vec<SyntaxElem>, Error> {
        match self {
            Small::Lam(b) => write_over_binder(alloc, "lam", b.slot, &b.elem),
            Small::App(a, b) => write_over_children(alloc, "app", a, b),
            Small::Var(x) => write_over_slot(alloc, "var", *x),
            Small::F(x, y) => write_over_slots(alloc, "f", *x, *y),
            Small::G(x) => write_over_slot(alloc, "g", *x),
            Small::Add(a, b) => write_over_children(alloc, "add", a, b),
            Small::Mul(a, b) => write_over_children(alloc, "mul", a, b),
            Small::Number(n) => n.to_syntax(alloc),
            Small::Word(w) => w.to_syntax(alloc),
        }
    }

    fn from_syntax(alloc: Global, elements: &[SyntaxElem]) -> Result<Option<Self>, Error> {
        match elements {
            [SyntaxElem::String(word)] => read_alone(alloc, word.as_str()),
            [SyntaxElem::String(operator), SyntaxElem::Slot(x)] => Ok(read_over_slot(
                operator.as_str(),
                *x,
            )),
            [
                SyntaxElem::String(operator),
                SyntaxElem::Slot(x),
                SyntaxElem::Slot(y),
            ] => Ok(read_over_slots(operator.as_str(), *x, *y)),
            [
                SyntaxElem::String(operator),
                SyntaxElem::Slot(x),
                SyntaxElem::AppliedId(a),
            ] => read_over_binder(alloc, operator.as_str(), *x, a),
            [
                SyntaxElem::String(operator),
                SyntaxElem::AppliedId(a),
                SyntaxElem::AppliedId(b),
            ] => read_over_children(alloc, operator.as_str(), a, b),
            _ => Ok(None),
        }
    }
}

// Returns an operator as an element.
fn word(alloc: Global, operator: &str) -> Result<SyntaxElem, Error>
    ensures ok { IfOk result (λ e. element_of e ≡ text operator.now) }
    ensures err { IfErr result IsOutOfMemory }
{
    Ok(SyntaxElem::String(String::from_str(alloc, operator)?))
}

// Returns a child as an element.
fn child(alloc: Global, a: &AppliedId) -> Result<SyntaxElem, Error>
    ensures ok { IfOk result (λ e. element_of e ≡ id_element a.now) }
    ensures err { IfErr result IsOutOfMemory }
{
    Ok(SyntaxElem::AppliedId(a.copy(alloc)?))
}

// Returns what is written of an operator and a slot.
fn write_over_slot(alloc: Global, operator: &str, x: Slot) -> Result<Vec<SyntaxElem>, Error>
    ensures ok { IfOk result (λ v. map element_of v.items ≡ text operator.now ∷ name x ∷ []) }
    ensures err { IfErr result IsOutOfMemory }
{
    Ok(vec![in alloc; word(alloc, operator)?, SyntaxElem::Slot(x)]?)
}

// Returns what is written of an operator and two slots.
fn write_over_slots(
    alloc: Global,
    operator: &str,
    x: Slot,
    y: Slot,
) -> Result<Vec<SyntaxElem>, Error>
    ensures ok { IfOk result (λ v. map element_of v.items ≡ text operator.now ∷ name x ∷ name y ∷ []) }
    ensures err { IfErr result IsOutOfMemory }
{
    Ok(vec![in alloc;
        word(alloc, operator)?,
        SyntaxElem::Slot(x),
        SyntaxElem::Slot(y),
    ]?)
}

// Returns what is written of an operator, a slot and a child.
fn write_over_binder(
    alloc: Global,
    operator: &str,
    x: Slot,
    a: &AppliedId,
) -> Result<Vec<SyntaxElem>, Error>
    ensures ok { IfOk result (λ v. map element_of v.items ≡ text operator.now ∷ name x ∷ id_element a.now ∷ []) }
    ensures err { IfErr result IsOutOfMemory }
{
    Ok(vec![in alloc;
        word(alloc, operator)?,
        SyntaxElem::Slot(x),
        child(alloc, a)?,
    ]?)
}

// Returns what is written of an operator and two children.
fn write_over_children(
    alloc: Global,
    operator: &str,
    a: &AppliedId,
    b: &AppliedId,
) -> Result<Vec<SyntaxElem>, Error>
    ensures ok { IfOk result (λ v.
        map element_of v.items ≡ text operator.now ∷ id_element a.now ∷ id_element b.now ∷ []) }
    ensures err { IfErr result IsOutOfMemory }
{
    Ok(vec![in alloc; word(alloc, operator)?, child(alloc, a)?, child(alloc, b)?]?)
}

// Returns the number that a text writes.
fn read_number(text: &str) -> Option<u32>
    ensures { result ≡ reads_u32 text.now }
{
    text.parse().ok()
}

// Returns the node that a text alone writes.
fn read_alone(alloc: Global, word: &str) -> Result<Option<Small>, Error>
    ensures ok { IfOk result (λ o. option_map small_form o ≡ Some (alone word.now (reads_u32 word.now))) }
    ensures err { IfErr result IsOutOfMemory }
{
    match read_number(word) {
        Some(n) => Ok(Some(Small::Number(n))),
        None => Ok(Some(Small::Word(Symbol::from_text(alloc, word)?))),
    }
}

// Returns the node that a text and a slot write.
fn read_over_slot(operator: &str, x: Slot) -> Option<Small>
    ensures { option_map small_form result ≡ over_slot operator.now x }
{
    match operator {
        "var" => Some(Small::Var(x)),
        "g" => Some(Small::G(x)),
        _ => None,
    }
}

// Returns the node that a text and two slots write.
fn read_over_slots(operator: &str, x: Slot, y: Slot) -> Option<Small>
    ensures { option_map small_form result ≡ over_slots operator.now x y }
{
    match operator {
        "f" => Some(Small::F(x, y)),
        _ => None,
    }
}

// Returns the node that a text, a slot and a child write.
fn read_over_binder(
    alloc: Global,
    operator: &str,
    x: Slot,
    a: &AppliedId,
) -> Result<Option<Small>, Error>
    ensures ok { IfOk result (λ o. option_map small_form o ≡ over_binder operator.now x (id_form a.now)) }
    ensures err { IfErr result IsOutOfMemory }
{
    match operator {
        "lam" => Ok(Some(Small::Lam(Bind {
            slot: x,
            elem: a.copy(alloc)?,
        }))),
        _ => Ok(None),
    }
}

// Returns the node that an operator makes of two children.
fn over_two(operator: &str, a: AppliedId, b: AppliedId) -> Option<Small>
    ensures { option_map small_form result ≡ over_children operator.now (id_form a) (id_form b) }
{
    match operator {
        "app" => Some(Small::App(a, b)),
        "add" => Some(Small::Add(a, b)),
        "mul" => Some(Small::Mul(a, b)),
        _ => None,
    }
}

// Returns the node that a text and two children write.
fn read_over_children(
    alloc: Global,
    operator: &str,
    a: &AppliedId,
    b: &AppliedId,
) -> Result<Option<Small>, Error>
    ensures ok { IfOk result (λ o.
        option_map small_form o ≡ over_children operator.now (id_form a.now) (id_form b.now)) }
    ensures err { IfErr result IsOutOfMemory }
{
    Ok(over_two(operator, a.copy(alloc)?, b.copy(alloc)?))
}

impl Language for Small {
    fn operator(&self) -> u32 {
        match self {
            Small::Lam(_) => 0,
            Small::App(_, _) => 1,
            Small::Var(_) => 2,
            Small::F(_, _) => 3,
            Small::G(_) => 4,
            Small::Add(_, _) => 5,
            Small::Mul(_, _) => 6,
            Small::Number(_) => 7,
            Small::Word(_) => 8,
        }
    }
}

impl ReadBack for Small {
    ghost words = { small_words };

    ghost back = { small_back };

    ghost null = { small_null };
}

impl Printable for Small {
    ghost written = { small_written };

    ghost written_as = { small_written_as };
}
