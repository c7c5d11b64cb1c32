//! The text around a place of a term.
ghost use Rattle.std.specs.Prelude.{◌≡◌, ◌<◌, length, map, slice_set, string_bytes, IfOk, IfErr};
ghost use Rattle.slotted_slots.specs.Error.{IsOutOfMemory};
ghost use Rattle.slotted_terms.specs.Shown.{term_text};
ghost use Rattle.slotted_changes.specs.Changes.{IsLevel, Surround};
ghost use Rattle.slotted_changes.specs.Steps.{level_of, SurroundTexts};

use crate::marking::Marked;
use slotted_languages::Language;
use slotted_patterns::show::node_text;
use slotted_slots::{Error, SlotTable};
use slotted_terms::RecExpr;
use slotted_terms::expr::printing::Printable;
use std::alloc::Global;

// A node of a term, its children, and the number of the child in which the place is.
#[derive(Drop)]
pub(crate) struct Step<'a, L: Language> {
    pub(crate) node: &'a L,
    pub(crate) children: &'a [RecExpr<L>],
    pub(crate) at: usize,
}

// Returns the texts of some terms.
fn texts_of<L: Printable>(
    alloc: Global,
    terms: &[RecExpr<L>],
    table: &SlotTable,
) -> Result<Vec<String>, Error>
    ensures ok { IfOk result (λ v. map string_bytes v.items ≡ map (term_text L.written table.now) terms.now) }
    ensures err { IfErr result IsOutOfMemory }
{
    let mut texts = Vec::new(alloc);
    for term in terms {
        texts.push(term.text(alloc, table)?)?;
    }
    Ok(texts)
}

// Returns the texts with another one at a place.
fn with_text(mut texts: Vec<String>, k: usize, text: String) -> Vec<String>
    requires { k < length texts.items }
    ensures { result.items ≡ slice_set texts.items k text }
{
    texts[k] = text;
    texts
}

// Returns the texts of a node, with these two texts in place of that of the child.
pub(crate) fn around<L: Printable>(
    alloc: Global,
    step: &Step<L>,
    inner: Marked,
    table: &SlotTable,
) -> Result<Marked, Error>
    requires { IsLevel (level_of L.form step.now) }
    ensures ok { IfOk result (SurroundTexts L.written table.now (level_of L.form step.now) inner) }
    ensures err { IfErr result IsOutOfMemory }
{
    let elements = step.node.to_syntax(alloc)?;
    let texts = texts_of(alloc, step.children, table)?;
    let texts = with_text(texts, step.at, inner.first);
    let first = node_text(alloc, &elements, &texts, table)?;
    let texts = with_text(texts, step.at, inner.second);
    let second = node_text(alloc, &elements, &texts, table)?;
    Ok(Marked { first, second })
}
