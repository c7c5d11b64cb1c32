//! The index of a graph's filed e-nodes: rows of numbers, class by class.
ghost use Rattle.std.specs.Prelude.{◌≡◌, ◌<◌, ◌++◌, ◌∷◌, ℕ, [], length, map, set, slice_index_or};
ghost use Rattle.std.specs.Prelude.{All, IfOk, IfErr, OnOk, IsErrOf};
ghost use Rattle.slotted_slots.specs.Error.{IsOutOfMemory, IsShortage};
ghost use Rattle.slotted_languages.specs.Outline.{skeleton_form};
ghost use Rattle.slotted_hashcons.specs.FiledRows.{IsFiled};
ghost use Rattle.slotted_hashcons.specs.WellFiled.{IsWellFiled};
ghost use Rattle.slotted_lookup.specs.Reports.{live_ids};
ghost use Rattle.slotted_match_machine.specs.Index.{OneByOne};
ghost use Rattle.slotted_matching.specs.Indexed.{AreClassRows, AreClassSources, AreSourceRows, HasWideKey};
ghost use Rattle.slotted_matching.specs.Indexed.{IsIndexed, IsSourceRow};
ghost use Rattle.slotted_matching.specs.KeyRows.{AreCovered, IsKeyRow};
ghost use Rattle.slotted_matching.specs.Skeletons.{GrowsTo, HasFewPlaces, StandsAt};

use crate::rows::{number_count, number_outline, row_children, row_slots};
use crate::skeletons::{Skeletons, has_many_places};
use slotted_classes::Store;
use slotted_hashcons::Hashcons;
use slotted_languages::Language;
use slotted_lookup::finding::found_class;
use slotted_lookup::reports::is_alive;
use slotted_match_machine::index::{ClassRows, IndexRow, RowIndex};
use slotted_slots::{Error, SlotMap};
use std::alloc::Global;

// Rows.

// Returns the row of a filed shape. Adds its skeleton if that is new.
fn key_row<L: Language>(
    alloc: Global,
    key: &L,
    names: &SlotMap,
    found: &SlotMap,
    skeletons: &mut Skeletons<L>,
) -> Result<IndexRow, Error>
    requires few { HasFewPlaces (L.form key.now) }
    requires covered { AreCovered (L.form key.now) }
    ensures row { IfOk result (IsKeyRow (L.form key.now) names.now found.now) }
    ensures place { IfOk result (λ row. StandsAt skeletons.new (skeleton_form (L.form key.now)) row.outline) }
    ensures grows { GrowsTo skeletons.old skeletons.new }
    ensures err { IfErr result IsOutOfMemory }
{
    let (outline, owns) = number_outline(alloc, key, skeletons)?;
    let children = row_children(alloc, key)?;
    let slots = row_slots(alloc, names, found, number_count(key))?;
    Ok(IndexRow {
        outline,
        slots,
        owns,
        children,
    })
}

/// Returns the row of what is filed for a class. Adds the skeleton of its shape if that is new.
pub fn index_row<L: Language>(
    store: &Store<L>,
    nodes: &Hashcons<L>,
    alloc: Global,
    source: usize,
    skeletons: &mut Skeletons<L>,
) -> Result<IndexRow, Error>
    requires good { IsWellFiled store.now nodes.now }
    requires filed { IsFiled nodes.now.filed source }
    ensures row { IfOk result (IsSourceRow store.now nodes.now skeletons.new source) }
    ensures grows { GrowsTo skeletons.old skeletons.new }
    ensures full { IsErrOf result Error.OutOfSlots → HasWideKey nodes.now }
    ensures err { IfErr result IsShortage }
{
    match nodes.node(source) {
        Some((key, names)) => {
            if has_many_places(key) {
                return Err(Error::OutOfSlots);
            }
            let found = found_class(store, alloc, source)?;
            let row = key_row(alloc, key, names, &found.m, skeletons)?;
            Ok(row)
        }
        None => unreachable!(),
    }
}

// The sources of classes.

// Returns an empty list for each of so many classes.
fn no_sources(alloc: Global, count: usize) -> Result<Vec<Vec<usize>>, Error>
    ensures count { IfOk result (λ v. length v.items ≡ count) }
    ensures none { IfOk result (λ v. (c : ℕ) → slice_index_or (map (λ b. b.items) v.items) c [] ≡ []) }
    ensures err { IfErr result IsOutOfMemory }
{
    let mut sources = Vec::new(alloc);
    for _class in 0..count {
        sources.push(Vec::new(alloc))?;
    }
    Ok(sources)
}

// Adds a source to those of a class.
fn add_source(sources: &mut Vec<Vec<usize>>, class: usize, source: usize) -> Result<(), Error>
    requires { class < length sources.old.items }
    ensures ok { OnOk result (map (λ b. b.items) sources.new.items
        ≡ set (map (λ b. b.items) sources.old.items) class
        (slice_index_or (map (λ b. b.items) sources.old.items) class [] ++ source ∷ [])) }
    ensures err { IfErr result IsOutOfMemory }
{
    sources[class].push(source)?;
    Ok(())
}

// Returns for each class the sources of its filed e-nodes, ascending. A dead class has none.
fn sources_by_class<L: Language>(
    store: &Store<L>,
    nodes: &Hashcons<L>,
    alloc: Global,
) -> Result<Vec<Vec<usize>>, Error>
    requires { IsWellFiled store.now nodes.now }
    ensures ok { IfOk result (λ v. AreClassSources store.now nodes.now (map (λ b. b.items) v.items)) }
    ensures err { IfErr result IsOutOfMemory }
{
    let mut sources = no_sources(alloc, store.class_count())?;
    for source in 0..nodes.class_count() {
        if nodes.node(source).is_some() {
            add_source(&mut sources, store.find_class(source), source)?;
        }
    }
    Ok(sources)
}

// Returns sources with their filed shapes.
fn keyed_sources<'a, L: Language>(
    nodes: &'a Hashcons<L>,
    alloc: Global,
    sources: &[usize],
) -> Result<Vec<(&'a L, usize)>, Error>
    requires { All (IsFiled nodes.now.filed) sources.now }
    ensures ok { IfOk result (λ v. map (λ p. p.1) v.items ≡ sources.now) }
    ensures err { IfErr result IsOutOfMemory }
{
    let mut pairs = Vec::new(alloc);
    for i in 0..sources.len() {
        if let Some((key, _)) = nodes.node(sources[i]) {
            pairs.push((key, sources[i]))?;
        }
    }
    Ok(pairs)
}

// Returns the rows of sources.
fn rows_of_sources<L: Language>(
    store: &Store<L>,
    nodes: &Hashcons<L>,
    alloc: Global,
    sources: &[(&L, usize)],
    skeletons: &mut Skeletons<L>,
) -> Result<Vec<IndexRow>, Error>
    requires good { IsWellFiled store.now nodes.now }
    requires filed { All (IsFiled nodes.now.filed) (map (λ p. p.1) sources.now) }
    ensures rows { IfOk result
        (λ v. OneByOne (IsSourceRow store.now nodes.now skeletons.new) (map (λ p. p.1) sources.now) v.items) }
    ensures grows { GrowsTo skeletons.old skeletons.new }
    ensures full { IsErrOf result Error.OutOfSlots → HasWideKey nodes.now }
    ensures err { IfErr result IsShortage }
{
    let mut rows = Vec::new(alloc);
    for i in 0..sources.len() {
        let row = index_row(store, nodes, alloc, sources[i].1, skeletons)?;
        rows.push(row)?;
    }
    Ok(rows)
}

// Returns the rows of sources, ascending by their shapes.
fn ordered_rows<L: Language>(
    store: &Store<L>,
    nodes: &Hashcons<L>,
    alloc: Global,
    sources: &[usize],
    skeletons: &mut Skeletons<L>,
) -> Result<Vec<IndexRow>, Error>
    requires good { IsWellFiled store.now nodes.now }
    requires filed { All (IsFiled nodes.now.filed) sources.now }
    ensures rows { IfOk result (λ v. AreSourceRows store.now nodes.now skeletons.new sources.now v.items) }
    ensures grows { GrowsTo skeletons.old skeletons.new }
    ensures full { IsErrOf result Error.OutOfSlots → HasWideKey nodes.now }
    ensures err { IfErr result IsShortage }
{
    let mut keyed = keyed_sources(nodes, alloc, sources)?;
    keyed.sort()?;
    let rows = rows_of_sources(store, nodes, alloc, &keyed, skeletons)?;
    Ok(rows)
}

// Classes.

// Returns for each class its rows, and how many slots it has.
fn class_rows<L: Language>(
    store: &Store<L>,
    nodes: &Hashcons<L>,
    alloc: Global,
    sources: &[Vec<usize>],
    skeletons: &mut Skeletons<L>,
) -> Result<Vec<ClassRows>, Error>
    requires good { IsWellFiled store.now nodes.now }
    requires sources { AreClassSources store.now nodes.now (map (λ b. b.items) sources.now) }
    ensures rows { IfOk result
        (λ v. AreClassRows store.now nodes.now skeletons.new (length store.now.classes) v.items) }
    ensures full { IsErrOf result Error.OutOfSlots → HasWideKey nodes.now }
    ensures err { IfErr result IsShortage }
{
    let mut classes = Vec::new(alloc);
    for class in 0..sources.len() {
        let rows = ordered_rows(store, nodes, alloc, &sources[class], skeletons)?;
        let slot_count = store.entry(class).m.len();
        classes.push(ClassRows { slot_count, rows })?;
    }
    Ok(classes)
}

// Returns the live classes, ascending.
fn live_classes<L: Language>(store: &Store<L>, alloc: Global) -> Result<Vec<usize>, Error>
    ensures ok { IfOk result (λ v. v.items ≡ live_ids store.now) }
    ensures err { IfErr result IsOutOfMemory }
{
    let mut live = Vec::new(alloc);
    for class in 0..store.class_count() {
        if is_alive(store, class) {
            live.push(class)?;
        }
    }
    Ok(live)
}

/// The index of a graph's filed e-nodes, and the skeletons that stand in it by their numbers.
#[derive(Drop)]
pub struct Indexed<L: Language> {
    /// The rows of each class, and the live classes.
    pub index: RowIndex,
    /// The skeletons, by number.
    pub skeletons: Skeletons<L>,
}

/// Returns the index of the filed e-nodes. The rows of a class ascend by their shapes.
pub fn row_index<L: Language>(
    store: &Store<L>,
    nodes: &Hashcons<L>,
    alloc: Global,
) -> Result<Indexed<L>, Error>
    requires { IsWellFiled store.now nodes.now }
    ensures ok { IfOk result (λ x. IsIndexed store.now nodes.now x.skeletons x.index) }
    ensures full { IsErrOf result Error.OutOfSlots → HasWideKey nodes.now }
    ensures err { IfErr result IsShortage }
{
    let sources = sources_by_class(store, nodes, alloc)?;
    let live = live_classes(store, alloc)?;
    let mut skeletons = Skeletons::new(alloc);
    let classes = class_rows(store, nodes, alloc, &sources, &mut skeletons)?;
    Ok(Indexed {
        index: RowIndex { classes, live },
        skeletons,
    })
}
