//! What e-nodes make of the data of their children, and the data of new classes.
ghost use Rattle.std.specs.Prelude.{◌≡◌, ◌≤◌, ◌<◌, ℕ, Contains, length, IfOk, IfErr, OnOk};
ghost use Rattle.slotted_slots.specs.Error.{IsOutOfMemory};
ghost use Rattle.slotted_model.specs.Classes.{Canonical};
ghost use Rattle.slotted_classes.specs.Finding.{HasFinds};
ghost use Rattle.slotted_classes.specs.Kept.{entries_of, nodes_of};
ghost use Rattle.slotted_hashcons.specs.FiledRows.{HasChildrenBelow, key_children};
ghost use Rattle.slotted_outlines.specs.BareNodes.{HasValuesFor};
ghost use Rattle.slotted_data.specs.Made.{AddsNew, AddsNext, HasChildValues, source_class};

use crate::Analysis;
use crate::class_data::ClassData;
use slotted_classes::Store;
use slotted_languages::Language;
use slotted_slots::Error;
use std::alloc::Global;

// Returns the class whose data is read for a class: the one that `find` maps it to if this has data, else the class
// itself. Takes no memory.
fn class_with_data<L: Language>(store: &Store<L>, count: usize, class: usize) -> usize
    requires good { HasFinds store.now }
    requires within { class < length store.now.classes }
    ensures class { result ≡ source_class (entries_of store.now) count class }
    ensures within { class < count → result < count }
{
    let found = store.find_class(class);
    if found < count { found } else { class }
}

// Returns copies of the data of the classes that `find` maps the children of an e-node to, from the left. If such a
// class has no data yet, being made later, the data of the child's own class is read.
pub(crate) fn child_data<L: Language, N: Analysis<L>>(
    store: &Store<L>,
    data: &ClassData<N::Data>,
    analysis: &N,
    alloc: Global,
    node: &L,
) -> Result<Vec<N::Data>, Error>
    requires good { HasFinds store.now }
    requires within { HasChildrenBelow (length store.now.classes) (L.form node.now) }
    requires there { HasChildrenBelow (length «data».now.values) (L.form node.now) }
    ensures ok { IfOk result (λ v. HasChildValues store.now «data».now.values (L.form node.now) v.items) }
    ensures count { IfOk result (λ v. HasValuesFor (L.form node.now) v.items) }
    ensures err { IfErr result IsOutOfMemory }
{
    let mut each = Vec::new(alloc);
    for k in 0..node.applied_id_count() {
        let class = class_with_data(store, data.count(), node.applied_id(k).id.0);
        each.push(analysis.copy(alloc, data.value(class))?)?;
    }
    Ok(each)
}

// Gives the next class what its e-node makes.
fn add_next<L: Language, N: Analysis<L>>(
    store: &Store<L>,
    data: &mut ClassData<N::Data>,
    analysis: &N,
    alloc: Global,
) -> Result<(), Error>
    requires good { HasFinds store.now }
    requires canonical { Canonical (nodes_of store.now) }
    requires within { length «data».old.values < length store.now.classes }
    ensures ok { OnOk result (AddsNext (N.meaning analysis.now) store.now «data».old «data».new) }
    ensures err { IfErr result IsOutOfMemory }
{
    let node = store.node_of(data.count());
    let child = child_data(store, data, analysis, alloc, node)?;
    let value = analysis.make(alloc, node, &child)?;
    let is_tall = analysis.height(&value) > 0;
    data.add(alloc, value, is_tall)?;
    Ok(())
}

// Gives each class without data what its e-node makes, from the oldest one to the newest.
pub(crate) fn add_new<L: Language, N: Analysis<L>>(
    store: &Store<L>,
    data: &mut ClassData<N::Data>,
    analysis: &N,
    alloc: Global,
) -> Result<(), Error>
    requires good { HasFinds store.now }
    requires canonical { Canonical (nodes_of store.now) }
    requires within { length «data».old.values ≤ length store.now.classes }
    ensures ok { OnOk result (AddsNew (N.meaning analysis.now) store.now «data».old «data».new) }
    ensures count { OnOk result (length «data».new.values ≡ length store.now.classes) }
    ensures err { IfErr result IsOutOfMemory }
{
    for i in data.count()..store.class_count() {
        add_next(store, data, analysis, alloc)?;
    }
    Ok(())
}
