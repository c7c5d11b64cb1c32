//! Substitution without capture: a walk over syntactic e-nodes, from the top. Frames on a list stand for the e-nodes
//! whose children are not all replaced, so nothing recurses.
ghost use Rattle.std.specs.Prelude.{◌≡◌, ◌≢◌, ◌⊎◌, None, false, length, true, IfErr, IfOk, IfSome, IsTrue, OnErr, OnOk};
ghost use Rattle.slotted_slots.specs.Error.{IsOutOfMemory, IsShortage};
ghost use Rattle.slotted_slots.specs.Maps.{values};
ghost use Rattle.slotted_nodes.specs.Form.{children};
ghost use Rattle.slotted_proofs.specs.Equations.{to_applied};
ghost use Rattle.slotted_graph.specs.Graph.{IsFullId};
ghost use Rattle.slotted_graph.specs.States.{IsGraph};
ghost use Rattle.slotted_model_rules.specs.ReplacedIds.{IsOlderOrLacks};
ghost use Rattle.slotted_rules.specs.Building.{Builds};
ghost use Rattle.slotted_rules.specs.Carried.{CarriesAlong};
ghost use Rattle.slotted_rules.specs.Frames.{Closes, IsClosing, IsDone, IsKnownAnswer, IsLessWork, IsOpen, IsStack};
ghost use Rattle.slotted_rules.specs.Frames.{KeepsGoal, Opens, TakesAnswer};
ghost use Rattle.slotted_rules.specs.Substituting.{HasNameBeside, Replaces};

use crate::adding::add_node;
use slotted_data::Analysis;
use slotted_graph::EGraph;
use slotted_languages::Language;
use slotted_slots::{AppliedId, Error, SlotMap};
use std::alloc::Global;
use std::mem;

// The e-node of an id, with fresh binders. Of its `count` children the first `next` are replaced, and `changed` says
// whether one of them is another now.
#[derive(Drop)]
pub(crate) struct Frame<L: Language> {
    pub id: AppliedId,
    pub node: L,
    pub count: usize,
    pub next: usize,
    pub changed: bool,
}

// The frame whose children are being replaced, and the frames that wait for its answer, from the top on.
#[derive(Drop)]
pub(crate) struct Stack<L: Language> {
    pub waiting: Vec<Frame<L>>,
    pub current: Frame<L>,
}

// Returns whether some value of the map is no value of the other map.
fn has_name_beside(map: &SlotMap, other: &SlotMap) -> bool
    ensures { IsTrue result → HasNameBeside map.now other.now }
{
    for i in 0..map.len() {
        if !other.has_value(map.value_at(i)) {
            return true;
        }
    }
    false
}

// Returns whether the class of `b` is older than that of `x`, or `b` omits a name of `x`. In either case `x` stands
// nowhere in `b`.
fn is_older_or_lacks(b: &AppliedId, x: &AppliedId) -> bool
    ensures { IsTrue result → IsOlderOrLacks (to_applied b.now) (to_applied x.now) }
{
    b.id < x.id || has_name_beside(&x.m, &b.m)
}

// Returns the answer for an id that need not be entered: itself if `x` stands nowhere in it, and `t` for `x`.
fn known_answer(
    alloc: Global,
    b: &AppliedId,
    x: &AppliedId,
    t: &AppliedId,
) -> Result<Option<AppliedId>, Error>
    ensures some { IfOk result (λ o. IfSome o
        (λ a. IsKnownAnswer (to_applied x.now) (to_applied t.now) (to_applied b.now) (to_applied a))) }
    ensures none { IfOk result (λ o. o ≡ None → to_applied b.now ≢ to_applied x.now) }
    ensures only { IfErr result IsOutOfMemory }
{
    if is_older_or_lacks(b, x) {
        let answer = b.copy(alloc)?;
        return Ok(Some(answer));
    }
    if b == x {
        let answer = t.copy(alloc)?;
        return Ok(Some(answer));
    }
    Ok(None)
}

// Returns the frame of an id, none of whose children is replaced yet.
fn frame_for<L: Language, N: Analysis<L>>(
    alloc: Global,
    graph: &mut EGraph<L, N>,
    b: &AppliedId,
) -> Result<Frame<L>, Error>
    requires graph { IsGraph graph.old }
    requires body { IsFullId graph.old (to_applied b.now) }
    ensures ok { IfOk result (Opens L.form graph.old graph.new (to_applied b.now)) }
    ensures err { OnErr result (IsTrue graph.new.failed ⊎ Builds graph.old graph.new) }
    ensures carries { IsTrue graph.new.failed ⊎ CarriesAlong N.codes N.meaning graph.old graph.new }
    ensures only { IfErr result IsShortage }
{
    let id = b.copy(alloc)?;
    let node = graph.fresh_node(b)?;
    Ok(Frame {
        id,
        count: node.applied_id_count(),
        node,
        next: 0,
        changed: false,
    })
}

// Puts the answer for the next child in its place.
fn take_answer<L: Language>(frame: &mut Frame<L>, answer: AppliedId)
    requires lacks { IsOpen frame.old }
    requires count { frame.old.count ≡ length (children (L.form frame.old.node).tree) }
    ensures { TakesAnswer L.form frame.old frame.new answer }
{
    frame.changed |= answer != *frame.node.applied_id(frame.next);
    frame.node.set_applied_id(frame.next, answer);
    frame.next += 1;
}

// Returns the answer of a frame all of whose children are replaced.
fn close<L: Language, N: Analysis<L>>(
    graph: &mut EGraph<L, N>,
    frame: Frame<L>,
) -> Result<AppliedId, Error>
    requires { IsDone L.form graph.old frame }
    ensures ok { IfOk result (λ a. Closes L.form graph.old graph.new frame (to_applied a)) }
    ensures err { OnErr result (IsTrue graph.new.failed ⊎ Builds graph.old graph.new) }
    ensures carries { IsTrue graph.new.failed ⊎ CarriesAlong N.codes N.meaning graph.old graph.new }
    ensures only { IfErr result IsShortage }
{
    let Frame {
        id,
        node,
        count: _,
        next: _,
        changed,
    } = frame;
    if changed {
        return add_node(graph, node);
    }
    Ok(id)
}

// Replaces the next child of the current frame, or makes its frame the current one.
fn enter_child<L: Language, N: Analysis<L>>(
    alloc: Global,
    graph: &mut EGraph<L, N>,
    stack: &mut Stack<L>,
    x: &AppliedId,
    t: &AppliedId,
) -> Result<(), Error>
    requires stack { IsStack L.form graph.old (to_applied x.now) (to_applied t.now) stack.old }
    requires lacks { IsOpen stack.old.current }
    ensures stack { OnOk result
        (KeepsGoal L.form graph.old graph.new (to_applied x.now) (to_applied t.now) stack.old stack.new) }
    ensures work { OnOk result (IsLessWork L.form graph.old (to_applied x.now) (to_applied t.now) stack.old stack.new) }
    ensures err { OnErr result (IsTrue graph.new.failed ⊎ Builds graph.old graph.new) }
    ensures carries { IsTrue graph.new.failed ⊎ CarriesAlong N.codes N.meaning graph.old graph.new }
    ensures only { IfErr result IsShortage }
{
    let current = &stack.current;
    let child = current.node.applied_id(current.next).copy(alloc)?;
    if let Some(answer) = known_answer(alloc, &child, x, t)? {
        take_answer(&mut stack.current, answer);
        return Ok(());
    }
    let frame = frame_for(alloc, graph, &child)?;
    let waiting = mem::replace(&mut stack.current, frame);
    stack.waiting.push(waiting)?;
    Ok(())
}

// Goes to the next child, or hands the answer of the current frame to the frame that waits for it. Returns whether
// either was possible.
fn step<L: Language, N: Analysis<L>>(
    alloc: Global,
    graph: &mut EGraph<L, N>,
    stack: &mut Stack<L>,
    x: &AppliedId,
    t: &AppliedId,
) -> Result<bool, Error>
    requires { IsStack L.form graph.old (to_applied x.now) (to_applied t.now) stack.old }
    ensures stack { OnOk result
        (KeepsGoal L.form graph.old graph.new (to_applied x.now) (to_applied t.now) stack.old stack.new) }
    ensures work { IfOk result (λ more. more ≡ true
        → IsLessWork L.form graph.old (to_applied x.now) (to_applied t.now) stack.old stack.new) }
    ensures end { IfOk result (λ more. more ≡ false → IsClosing stack.new) }
    ensures err { OnErr result (IsTrue graph.new.failed ⊎ Builds graph.old graph.new) }
    ensures carries { IsTrue graph.new.failed ⊎ CarriesAlong N.codes N.meaning graph.old graph.new }
    ensures only { IfErr result IsShortage }
{
    if stack.current.next < stack.current.count {
        enter_child(alloc, graph, stack, x, t)?;
        return Ok(true);
    }
    let Some(frame) = stack.waiting.pop() else {
        return Ok(false);
    };
    let done = mem::replace(&mut stack.current, frame);
    let answer = close(graph, done)?;
    take_answer(&mut stack.current, answer);
    Ok(true)
}

/// Returns the id of `b[x := t]`: the term of `b`, in which the term of `t` replaces each topmost part that is the term
/// of `x`.
///
/// Binders of `b` have fresh names meanwhile, so nothing is captured. What is put in is not searched again.
pub(crate) fn replaced<L: Language, N: Analysis<L>>(
    alloc: Global,
    graph: &mut EGraph<L, N>,
    b: &AppliedId,
    x: &AppliedId,
    t: &AppliedId,
) -> Result<AppliedId, Error>
    requires graph { IsGraph graph.old }
    requires body { IsFullId graph.old (to_applied b.now) }
    requires part { IsFullId graph.old (to_applied x.now) }
    requires value { IsFullId graph.old (to_applied t.now) }
    ensures ok { IfOk result
        (λ a. Replaces graph.old graph.new (to_applied x.now) (to_applied t.now) (to_applied b.now) (to_applied a)) }
    ensures err { OnErr result (IsTrue graph.new.failed ⊎ Builds graph.old graph.new) }
    ensures carries { IsTrue graph.new.failed ⊎ CarriesAlong N.codes N.meaning graph.old graph.new }
    ensures only { IfErr result IsShortage }
{
    if let Some(answer) = known_answer(alloc, b, x, t)? {
        return Ok(answer);
    }
    let current = frame_for(alloc, graph, b)?;
    let waiting = Vec::new(alloc);
    let mut stack = Stack { waiting, current };
    while step(alloc, graph, &mut stack, x, t)? {}
    close(graph, stack.current)
}
