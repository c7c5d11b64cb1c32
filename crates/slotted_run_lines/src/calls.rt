//! The calls of an analysis, without a graph.
use crate::carried::carried_nothing;
use crate::datum::Datum;
use crate::graphs::parted;
use slotted_data::Analysis;
use slotted_languages::LanguageChildren;
use slotted_slots::{Error, SlotTable};
use slotted_small::Small;
use slotted_terms::RecExpr;
use std::alloc::Global;

// Returns the data of words.
fn data_of<D: Datum>(alloc: Global, words: &str) -> Result<Vec<D>, Error> {
    let mut data = Vec::new(alloc);
    for word in words.split_whitespace() {
        data.push(D::read(word))?;
    }
    Ok(data)
}

// Returns what an e-node makes, if there is data for each of its children.
fn made<N: Analysis<Small>>(
    alloc: Global,
    analysis: &N,
    node: &Small,
    data: &[N::Data],
) -> Result<N::Data, Error> {
    if node.applied_id_count() == data.len() {
        analysis.make(alloc, node, data)
    } else {
        Err(Error::NotATerm)
    }
}

// Writes what the e-node at the top of a term makes over data, for `T: V ..`.
fn write_made<N: Analysis<Small>>(
    alloc: Global,
    analysis: &N,
    words: &str,
    text: &mut String,
) -> Result<(), Error>
where
    N::Data: Datum,
{
    let (term, words) = parted(words, ": ");
    let term = RecExpr::<Small>::parse(alloc, term, &mut SlotTable::new(alloc))?;
    let (node, _) = term.into_parts();
    let data = data_of::<N::Data>(alloc, words)?;
    let made = made(alloc, analysis, &node, data.as_slice())?;
    made.write(text)
}

// Writes the merge of two data, and how often the merge can still change.
fn write_merge<N: Analysis<Small>>(
    alloc: Global,
    analysis: &N,
    words: &str,
    text: &mut String,
) -> Result<(), Error>
where
    N::Data: Datum,
{
    let (l, r) = parted(words, " ");
    let merged = analysis.merge(alloc, &N::Data::read(l), &N::Data::read(r))?;
    merged.write(text)?;
    let height = analysis.height(&merged);
    Ok(write!(text, ", height {height}")?)
}

// Writes how many edits are asked.
fn write_asks<N: Analysis<Small>>(
    alloc: Global,
    analysis: &N,
    words: &str,
    text: &mut String,
) -> Result<(), Error>
where
    N::Data: Datum,
{
    let count = analysis.modify(alloc, &N::Data::read(words), &[])?.len();
    Ok(write!(text, "{count}")?)
}

// Writes how many data, and how many changed ones, a graph without classes carries.
fn write_carried(alloc: Global, text: &mut String) -> Result<(), Error> {
    let data = carried_nothing(alloc)?;
    let (count, changed) = (data.count(), data.changed_count());
    Ok(write!(text, "{count} {changed}")?)
}

/// Writes the answer of a call of an analysis.
pub fn write_call<N: Analysis<Small>>(
    alloc: Global,
    analysis: &N,
    word: &str,
    words: &str,
    text: &mut String,
) -> Result<(), Error>
where
    N::Data: Datum,
{
    match word {
        "make" => write_made(alloc, analysis, words, text),
        "merge" => write_merge(alloc, analysis, words, text),
        "asks" => write_asks(alloc, analysis, words, text),
        _ => write_carried(alloc, text),
    }
}
