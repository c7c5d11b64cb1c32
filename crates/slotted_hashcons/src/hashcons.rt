//! The hashcons of a graph, with the usages of classes, the pending list, and the sizes of classes.
ghost use Rattle.std.specs.Prelude.{◌≡◌, ◌≤◌, ◌<◌, ◌↔◌, ℕ, length, None, Some, option_map, slice_get};
ghost use Rattle.std.specs.Prelude.{IsTrue, IfSome, IfNone, IfErr, OnOk, Contains};
ghost use Rattle.slotted_slots.specs.Error.{IsOutOfMemory};
ghost use Rattle.slotted_model.specs.Correspondence.{AllDifferent};
ghost use Rattle.slotted_model.specs.State.{HasTouched};
ghost use Rattle.slotted_hashcons.specs.Filed.{filed_of, HasKey, IsNewKey, IsNewToOthers, HasKeysOnce};
ghost use Rattle.slotted_hashcons.specs.FiledRows.{no_rows, rows_in, with_class, with_filed, rows_state, key_children};
ghost use Rattle.slotted_hashcons.specs.FiledRows.{IsFiled, HasChildrenBelow, QueuesUp, TakesTurn, WaitsOn};
ghost use Rattle.slotted_hashcons.specs.Over.{HasChild, WaitsMore, WaitOver, AreUsedMore, UsesEach, UsesFiled};
ghost use Rattle.slotted_hashcons.specs.Waiting.{Pops};

use crate::index::NodeIndex;
use crate::sizes::Sizes;
use crate::usages::Usages;
use crate::worklist::Worklist;
use slotted_languages::Language;
use slotted_slots::{Error, SlotMap};
use std::alloc::Global;
use std::marker::Model;

/// The hashcons: the filed e-nodes, by their shapes and by their source classes.
///
/// With it stand the usages of classes, the classes that are pending, in turn, and the sizes of classes. After memory
/// was refused, nothing is known of what is filed and of what is pending.
#[derive(Drop)]
pub struct Hashcons<L: Language> {
    nodes: NodeIndex<L>,
    usages: Usages,
    waiting: Worklist,
    sizes: Sizes,
}

impl<L: Language> Model for Hashcons<L> {
    ghost use Rattle.slotted_hashcons.specs.FiledRows.{Rows, rows_code};
    ghost use Rattle.slotted_hashcons.specs.Over.{FitTogether};

    ghost Value = { Rows };

    ghost coded = { rows_code };

    ghost view = { λ s. record { filed = s.nodes; waiting = s.waiting.queue } };

    ghost invariant = { λ s. FitTogether s.nodes s.usages s.waiting };
}

impl<L: Language> Hashcons<L> {
    /// Returns the hashcons without classes.
    pub fn new(alloc: Global) -> Self
        ensures { result ≡ no_rows }
    {
        Hashcons {
            nodes: NodeIndex::new(alloc),
            usages: Usages::new(alloc),
            waiting: Worklist::new(alloc),
            sizes: Sizes::new(alloc),
        }
    }

    /// Returns the number of classes, dead ones included.
    pub fn class_count(&self) -> usize
        ensures { result ≡ length self.now.filed }
    {
        self.nodes.class_count()
    }

    /// Returns the number of filed e-nodes. Takes no memory, and the same time however many they are.
    pub fn len(&self) -> usize
        ensures { result ≡ length (rows_in self.now.filed) }
    {
        self.nodes.len()
    }

    /// Adds a class, for which nothing is filed.
    pub fn add_class(&mut self, alloc: Global) -> Result<(), Error>
        ensures ok { OnOk result (self.new ≡ with_class self.old) }
        ensures err { IfErr result IsOutOfMemory }
    {
        self.sizes.grow()?;
        self.usages.add_class(alloc)?;
        self.waiting.add_class()?;
        self.nodes.add_class(alloc)?;
        Ok(())
    }

    /// Returns the size of each class: how many filed e-nodes it has, and how many have it as a child.
    ///
    /// No clause speaks of these sizes, which decide which class a union keeps.
    pub fn sizes(&self) -> &[u32] {
        self.sizes.all()
    }

    /// Counts the filed e-nodes of one class as those of another from now on.
    pub fn move_nodes(&mut self, from: usize, to: usize)
        ensures { self.new ≡ self.old }
    {
        self.sizes.move_nodes(from, to);
    }

    /// Stops counting the e-node that is filed for a class, both as one of `owner` and over the classes of its
    /// children.
    pub fn uncount(&mut self, class: usize, owner: usize)
        ensures { self.new ≡ self.old }
    {
        uncount_parent(&mut self.sizes, &self.nodes, class);
        self.sizes.take_node(owner);
    }

    /// Returns what is filed for a class: a shape, and the slot of the class for each number of it.
    pub fn node(&self, class: usize) -> Option<(&L, &SlotMap)>
        ensures { option_map (λ p. (L.form p.0.now, p.1.now)) result ≡ filed_of self.now.filed class }
    {
        self.nodes.node(class)
    }

    /// Returns the class for which a shape is filed. No shape is filed for two classes.
    pub fn source_of(&self, key: &L) -> Option<usize>
        ensures some { IfSome result (λ i. HasKey self.now.filed i (L.form key.now)) }
        ensures none { IfNone result (IsNewKey self.now.filed (L.form key.now)) }
        ensures once { HasKeysOnce self.now.filed }
    {
        self.nodes.source_of(key)
    }

    /// Returns the class whose turn is next. Each is pending once, and something is filed for it.
    pub fn front(&self) -> Option<usize>
        ensures front { result ≡ slice_get self.now.waiting 0 }
        ensures once { AllDifferent self.now.waiting }
        ensures filed { (i : ℕ) → Contains self.now.waiting i → IsFiled self.now.filed i }
    {
        self.waiting.front()
    }

    /// Returns whether a class is pending. Takes no memory.
    pub fn waits(&self, class: usize) -> bool
        ensures { IsTrue result ↔ Contains self.now.waiting class }
    {
        self.waiting.waits(class)
    }

    /// Makes each class pending whose filed e-node has a child of this class.
    pub fn touch(&mut self, class: usize) -> Result<(), Error>
        requires { class < length self.old.filed }
        ensures waits { OnOk result (WaitsOn self.old self.new) }
        ensures waiting { OnOk result (HasTouched (rows_state self.old) class self.new.waiting) }
        ensures err { IfErr result IsOutOfMemory }
    {
        wait_over(self.usages.of(class), &self.nodes, class, &mut self.waiting)?;
        Ok(())
    }

    /// Files a shape for a live class that has none, and counts it.
    pub fn file(&mut self, class: usize, key: L, names: SlotMap) -> Result<(), Error>
        requires within { class < length self.old.filed }
        requires free { filed_of self.old.filed class ≡ None }
        requires new_key { IsNewKey self.old.filed (L.form key) }
        requires children { HasChildrenBelow (length self.old.filed) (L.form key) }
        ensures ok { OnOk result (self.new ≡ with_filed self.old class (L.form key) names) }
        ensures err { IfErr result IsOutOfMemory }
    {
        use_children(&mut self.usages, &self.nodes, &key, class)?;
        count_parent(&mut self.sizes, &key);
        self.sizes.add_node(class);
        self.nodes.file(class, key, names)?;
        Ok(())
    }

    /// Makes a class pending for which something is filed. A class that was not pending goes to the end.
    pub fn wait(&mut self, class: usize) -> Result<(), Error>
        requires { IsFiled self.old.filed class }
        ensures ok { OnOk result (QueuesUp self.old self.new class) }
        ensures err { IfErr result IsOutOfMemory }
    {
        self.waiting.push(class)?;
        Ok(())
    }

    /// Files another shape for the class whose turn it is, in place of the one that it had, and ends the turn.
    pub fn refile(&mut self, class: usize, key: L, names: SlotMap) -> Result<(), Error>
        requires front { slice_get self.old.waiting 0 ≡ Some class }
        requires new_key { IsNewToOthers self.old.filed class (L.form key) }
        requires children { HasChildrenBelow (length self.old.filed) (L.form key) }
        ensures ok { OnOk result (TakesTurn self.old self.new class (Some (L.form key, names))) }
        ensures err { IfErr result IsOutOfMemory }
    {
        use_children(&mut self.usages, &self.nodes, &key, class)?;
        uncount_parent(&mut self.sizes, &self.nodes, class);
        count_parent(&mut self.sizes, &key);
        end_turn(&mut self.waiting, class);
        self.nodes.refile(class, key, names)?;
        Ok(())
    }

    /// Ends the turn of a class, and keeps what is filed for it.
    pub fn leave(&mut self, class: usize)
        requires { slice_get self.old.waiting 0 ≡ Some class }
        ensures { TakesTurn self.old self.new class (filed_of self.old.filed class) }
    {
        end_turn(&mut self.waiting, class);
    }

    /// Removes what is filed for the class whose turn it is, and ends the turn. The caller has to uncount the e-node
    /// before.
    pub fn remove(&mut self, class: usize)
        requires { slice_get self.old.waiting 0 ≡ Some class }
        ensures { TakesTurn self.old self.new class None }
    {
        end_turn(&mut self.waiting, class);
        self.nodes.unfile(class);
    }
}

// Returns whether a child of an e-node is of a class.
fn has_child<L: Language>(node: &L, class: usize) -> bool
    ensures { IsTrue result ↔ Contains (key_children (L.form node.now)) class }
{
    for k in 0..node.applied_id_count() {
        if node.applied_id(k).id.0 == class {
            return true;
        }
    }
    false
}

// Returns whether a child of the e-node that is filed for a source is of a class.
fn is_over<L: Language>(nodes: &NodeIndex<L>, source: usize, class: usize) -> bool
    ensures { IsTrue result ↔ HasChild nodes.now source class }
{
    match nodes.node(source) {
        Some((key, _)) => has_child(key, class),
        None => false,
    }
}

// Makes those of the sources pending whose e-nodes have a child of a class.
fn wait_over<L: Language>(
    sources: &[u32],
    nodes: &NodeIndex<L>,
    class: usize,
    waiting: &mut Worklist,
) -> Result<(), Error>
    requires flags { length nodes.now ≤ waiting.old.count }
    requires once { AllDifferent waiting.old.queue }
    ensures more { WaitsMore nodes.now class waiting.old waiting.new }
    ensures ok { OnOk result (WaitOver sources.now nodes.now class waiting.new.queue) }
    ensures err { IfErr result IsOutOfMemory }
{
    for k in 0..sources.len() {
        let source = sources[k] as usize;
        if is_over(nodes, source, class) {
            waiting.push(source)?;
        }
    }
    Ok(())
}

// Enters a source into the usages of the class of each child of an e-node. The source stands already in those of the
// e-node that is filed for it.
fn use_children<L: Language>(
    usages: &mut Usages,
    nodes: &NodeIndex<L>,
    node: &L,
    source: usize,
) -> Result<(), Error>
    requires below { HasChildrenBelow (length usages.old) (L.form node.now) }
    requires used { UsesFiled usages.old nodes.now source }
    ensures more { AreUsedMore usages.old usages.new }
    ensures ok { OnOk result (UsesEach usages.new (key_children (L.form node.now)) source) }
    ensures err { IfErr result IsOutOfMemory }
{
    for k in 0..node.applied_id_count() {
        let class = node.applied_id(k).id.0;
        if !is_over(nodes, source, class) {
            usages.add(class, source)?;
        }
    }
    Ok(())
}

// Ends the turn of a class.
fn end_turn(waiting: &mut Worklist, class: usize)
    requires { slice_get waiting.old.queue 0 ≡ Some class }
    ensures { Pops waiting.old waiting.new class }
{
    waiting.pop();
}

// Returns the class of a child, if there is one.
fn child_class<L: Language>(node: &L, k: usize) -> Option<usize> {
    Some(node.get_applied_id(k)?.id.0)
}

// Returns whether no earlier child has the class of this one.
fn is_first_child<L: Language>(node: &L, k: usize) -> bool {
    for i in 0..k {
        if child_class(node, i) == child_class(node, k) {
            return false;
        }
    }
    true
}

// Counts one more e-node over the class of each child of an e-node, once if two children have it.
fn count_parent<L: Language>(sizes: &mut Sizes, node: &L) {
    for k in 0..node.applied_id_count() {
        if is_first_child(node, k) {
            sizes.add_parent(node.applied_id(k).id.0);
        }
    }
}

// Stops counting the e-node that is filed for a class over the class of each child.
fn uncount_parent<L: Language>(sizes: &mut Sizes, nodes: &NodeIndex<L>, class: usize) {
    let Some((key, _)) = nodes.node(class) else {
        return;
    };
    for k in 0..key.applied_id_count() {
        if is_first_child(key, k) {
            sizes.take_parent(key.applied_id(k).id.0);
        }
    }
}
