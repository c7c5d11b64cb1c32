//! The check of what a graph stores: that its parts fit together.
ghost use Rattle.std.specs.Prelude.{◌≡◌, IsTrue, IfOk, IfErr, IsErrOf};
ghost use Rattle.slotted_slots.specs.Error.{IsShortage};
ghost use Rattle.slotted_hashcons.specs.Filed.{HasKey};
ghost use Rattle.slotted_hashcons.specs.WellFiled.{IsWellFiled};
ghost use Rattle.slotted_classes.specs.Finding.{HasFinds};
ghost use Rattle.slotted_reports.specs.Checking.{HasKeyed, HasKeyedEach};
ghost use Rattle.slotted_reports.specs.Nodes.{HasLargeKey};

use slotted_classes::Store;
use slotted_hashcons::Hashcons;
use slotted_languages::Language;
use slotted_lookup::reports::is_alive;
use slotted_slots::Error;
use std::alloc::Global;

// Returns whether each class leads to a live class.
fn classes_fit<L: Language>(store: &Store<L>) -> bool
    requires { HasFinds store.now }
    ensures { IsTrue result }
{
    for class in 0..store.class_count() {
        if !is_alive(store, store.find_class(class)) {
            return false;
        }
    }
    true
}

// Returns whether looking up the shape that a source has filed gives that source.
fn is_found<L: Language>(nodes: &Hashcons<L>, key: &L, source: usize) -> bool
    requires { HasKey nodes.now.filed source (L.form key.now) }
    ensures { IsTrue result }
{
    match nodes.source_of(key) {
        Some(found) => found == source,
        None => false,
    }
}

// Returns whether two e-nodes are the same. E-nodes with one form are.
fn is_same<L: Language>(left: &L, right: &L) -> bool
    ensures { L.form left.now ≡ L.form right.now → IsTrue result }
{
    left == right
}

// Returns whether all three are true.
fn all(first: bool, second: bool, third: bool) -> bool
    ensures { IsTrue first → IsTrue second → IsTrue third → IsTrue result }
{
    first && second && third
}

// Returns whether the e-node that a source has filed is its own shape, is filed once, and has a slot for each of its
// numbers.
fn node_fits<L: Language>(nodes: &Hashcons<L>, alloc: Global, source: usize) -> Result<bool, Error>
    requires { HasKeyed nodes.now source }
    ensures ok { IfOk result (λ y. IsTrue y) }
    ensures full { IsErrOf result Error.OutOfSlots → HasLargeKey nodes.now }
    ensures err { IfErr result IsShortage }
{
    match nodes.node(source) {
        Some((key, slots)) => {
            let (shape, numbers) = key.weak_shape(alloc)?;
            let counted = numbers.len() == slots.len();
            Ok(all(is_same(&shape, key), counted, is_found(nodes, key, source)))
        }
        None => Ok(true),
    }
}

// Returns whether `node_fits` holds for each source.
fn nodes_fit<L: Language>(nodes: &Hashcons<L>, alloc: Global) -> Result<bool, Error>
    requires { HasKeyedEach nodes.now }
    ensures ok { IfOk result (λ y. IsTrue y) }
    ensures full { IsErrOf result Error.OutOfSlots → HasLargeKey nodes.now }
    ensures err { IfErr result IsShortage }
{
    for source in 0..nodes.class_count() {
        if !node_fits(nodes, alloc, source)? {
            return Ok(false);
        }
    }
    Ok(true)
}

/// Returns whether each class leads to a live class, and each e-node is filed under its own shape, and once. The answer
/// is true if the graph is well filed.
pub fn check<L: Language>(
    store: &Store<L>,
    nodes: &Hashcons<L>,
    alloc: Global,
) -> Result<bool, Error>
    requires { IsWellFiled store.now nodes.now }
    ensures ok { IfOk result (λ y. IsTrue y) }
    ensures full { IsErrOf result Error.OutOfSlots → HasLargeKey nodes.now }
    ensures err { IfErr result IsShortage }
{
    let fit = nodes_fit(nodes, alloc)?;
    Ok(classes_fit(store) && fit)
}
