//! The texts of rows: slots as `$8`, children as `#7:8,9`, maps as `$8->$5,$9->$6`, nodes as their elements.
ghost use Rattle.std.specs.Prelude.{IfOk};
ghost use Rattle.slotted_theory.specs.FiniteMaps.{IsInjectiveMap};

use slotted_languages::{Language, LanguageChildren};
use slotted_proofs::Equation;
use slotted_slots::{AppliedId, Error, Id, Slot, SlotMap, SlotTable, SyntaxElem};
use std::alloc::Global;

// Returns the texts before and behind a sign. Without the sign the second one is empty.
pub(crate) fn parted<'a>(text: &'a str, sign: &str) -> (&'a str, &'a str) {
    text.split_once(sign).unwrap_or((text, ""))
}

// Returns the slot of a name, which may stand after a `$`.
fn slot(table: &mut SlotTable, name: &str) -> Result<Slot, Error> {
    table.named(name.trim_start_matches('$'))
}

// Puts the pair of the text into a map. A slot alone is put under the next of the keys `$0`, `$1`, ..
fn put(m: &mut SlotMap, table: &mut SlotTable, pair: &str) -> Result<(), Error> {
    let (key, value) = match pair.split_once("->") {
        Some((key, value)) => (slot(table, key)?, value),
        None => (table.numeric(u32::try_from(m.len()).unwrap_or(0))?, pair),
    };
    let value = slot(table, value)?;
    m.insert(key, value)
}

// Returns the map of these pairs and slots, parted by commas.
pub(crate) fn map_of(alloc: Global, table: &mut SlotTable, text: &str) -> Result<SlotMap, Error> {
    let mut m = SlotMap::new(alloc);
    for pair in text.split_terminator(',') {
        put(&mut m, table, pair)?;
    }
    Ok(m)
}

// Returns a child written `id` or `id:x,y`, with a map as above.
pub(crate) fn child(alloc: Global, table: &mut SlotTable, text: &str) -> Result<AppliedId, Error> {
    let (id, slots) = parted(text, ":");
    let m = map_of(alloc, table, slots)?;
    Ok(AppliedId {
        id: Id(id.parse().unwrap_or(0)),
        m,
    })
}

// Returns the child of a text in which no slot stands twice.
pub(crate) fn applied(alloc: Global, table: &mut SlotTable, text: &str) -> Result<AppliedId, Error>
    ensures { IfOk result (λ a. IsInjectiveMap a.m) }
{
    let applied = child(alloc, table, text)?;
    if applied.m.is_bijection() {
        Ok(applied)
    } else {
        Err(Error::NotEqual)
    }
}

// Returns the equation of two children with ` = ` between them.
pub(crate) fn equation(alloc: Global, table: &mut SlotTable, text: &str) -> Result<Equation, Error>
    ensures left { IfOk result (λ e. IsInjectiveMap e.l.m) }
    ensures right { IfOk result (λ e. IsInjectiveMap e.r.m) }
{
    let (l, r) = parted(text, " = ");
    let l = applied(alloc, table, l)?;
    let r = applied(alloc, table, r)?;
    Ok(Equation { l, r })
}

// Returns an element: `$n` is a slot, `#` and a child a child, all else a text.
pub(crate) fn element(
    alloc: Global,
    table: &mut SlotTable,
    word: &str,
) -> Result<SyntaxElem, Error> {
    if word.starts_with('$') {
        Ok(SyntaxElem::Slot(slot(table, word)?))
    } else if let Some(text) = word.strip_prefix('#') {
        Ok(SyntaxElem::AppliedId(child(alloc, table, text)?))
    } else {
        Ok(SyntaxElem::String(String::from_str(alloc, word)?))
    }
}

// Returns the elements of a text, parted by spaces.
pub(crate) fn elements_of(
    alloc: Global,
    table: &mut SlotTable,
    text: &str,
) -> Result<Vec<SyntaxElem>, Error> {
    let mut elements = Vec::new(alloc);
    for word in text.split_whitespace() {
        elements.push(element(alloc, table, word)?)?;
    }
    Ok(elements)
}

// Returns the part of a text.
pub(crate) fn read<L: LanguageChildren>(
    alloc: Global,
    table: &mut SlotTable,
    text: &str,
) -> Result<Option<L>, Error> {
    L::from_syntax(alloc, elements_of(alloc, table, text)?.as_slice())
}

// Returns the node of a text.
pub(crate) fn node<L: Language>(
    alloc: Global,
    table: &mut SlotTable,
    text: &str,
) -> Result<L, Error> {
    read::<L>(alloc, table, text)?.ok_or(Error::NotATerm)
}
