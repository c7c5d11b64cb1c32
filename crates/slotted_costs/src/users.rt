//! The users of classes: for each class the sources whose filed e-nodes have the class as a child.
ghost use Rattle.std.specs.Prelude.{◌≡◌, ◌∷◌, ℕ, List, [], length, map, IfOk, IfErr, OnOk, slice_index_or};
ghost use Rattle.slotted_slots.specs.Error.{IsOutOfMemory};
ghost use Rattle.slotted_hashcons.specs.Filed.{filed_of};
ghost use Rattle.slotted_costs.specs.Prices.{children_of};
ghost use Rattle.slotted_costs.specs.Counts.{AreCounts, AreKeysOf, AreUsers, IsKeyOf, UsesMore};

use slotted_hashcons::{Hashcons, Usages};
use slotted_languages::Language;
use slotted_slots::{Error, Id};
use std::alloc::Global;

// Returns usages for this many classes, without any user.
fn no_users(alloc: Global, classes: usize) -> Result<Usages, Error>
    ensures lists { IfOk result (λ u. length u ≡ classes) }
    ensures none { IfOk result (λ u. (c : ℕ) → slice_index_or u c [] ≡ []) }
    ensures err { IfErr result IsOutOfMemory }
{
    let mut users = Usages::new(alloc);
    for k in 0..classes {
        users.add_class(alloc)?;
    }
    Ok(users)
}

// Adds a source to the users of a class, if the class exists.
fn add_known(users: &mut Usages, classes: usize, class: usize, source: usize) -> Result<(), Error>
    requires { classes ≡ length users.old }
    ensures ok { OnOk result (UsesMore (class ∷ []) source users.old users.new) }
    ensures err { IfErr result IsOutOfMemory }
{
    if class >= classes {
        return Ok(());
    }
    users.add(class, source)
}

// Adds a source to the users of each of these classes.
fn add_to_each(users: &mut Usages, classes: usize, ids: &[Id], source: usize) -> Result<(), Error>
    requires { classes ≡ length users.old }
    ensures ok { OnOk result (UsesMore (map (λ i. i.0) ids.now) source users.old users.new) }
    ensures err { IfErr result IsOutOfMemory }
{
    for id in ids {
        add_known(users, classes, id.0, source)?;
    }
    Ok(())
}

// Adds a source to the users of the classes of its filed e-node's children.
fn add_row<L: Language>(
    nodes: &Hashcons<L>,
    alloc: Global,
    source: usize,
    users: &mut Usages,
) -> Result<(), Error>
    requires { length users.old ≡ length nodes.now.filed }
    ensures ok { OnOk result (UsesMore (children_of nodes.now.filed source) source users.old users.new) }
    ensures err { IfErr result IsOutOfMemory }
{
    let Some((node, _)) = nodes.node(source) else {
        return add_to_each(users, nodes.class_count(), &[], source);
    };
    let ids = node.ids(alloc)?;
    add_to_each(users, nodes.class_count(), &ids, source)
}

/// Returns for each class the sources whose filed e-nodes have the class as a child, each as often as the class is
/// one.
pub fn users_of<L: Language>(nodes: &Hashcons<L>, alloc: Global) -> Result<Usages, Error>
    ensures ok { IfOk result (λ u. AreUsers nodes.now.filed u) }
    ensures err { IfErr result IsOutOfMemory }
{
    let mut users = no_users(alloc, nodes.class_count())?;
    for source in 0..nodes.class_count() {
        add_row(nodes, alloc, source, &mut users)?;
    }
    Ok(users)
}

// Returns how many children the filed e-node of a source has.
fn child_count<L: Language>(nodes: &Hashcons<L>, source: usize) -> usize
    ensures count { result ≡ length (children_of nodes.now.filed source) }
    ensures key { IsKeyOf L.form (filed_of nodes.now.filed source) }
{
    match nodes.node(source) {
        Some((node, _)) => node.applied_id_count(),
        None => 0,
    }
}

/// Returns how many children the filed e-node of each source has.
pub fn child_counts<L: Language>(nodes: &Hashcons<L>, alloc: Global) -> Result<Vec<usize>, Error>
    ensures ok { IfOk result (λ n. AreCounts nodes.now.filed n.items) }
    ensures keys { OnOk result (AreKeysOf L.form nodes.now.filed) }
    ensures err { IfErr result IsOutOfMemory }
{
    let mut counts = Vec::new(alloc);
    for source in 0..nodes.class_count() {
        counts.push(child_count(nodes, source))?;
    }
    Ok(counts)
}
