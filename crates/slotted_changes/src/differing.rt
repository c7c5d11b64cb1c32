//! Which child of two terms differs.
ghost use Rattle.std.specs.Prelude.{◌≡◌, ◌⊎◌, ◌↔◌, ℕ, length, IsTrue, IfOk, IfErr, IfSome, IfNone, IsErrOf};
ghost use Rattle.slotted_slots.specs.Error.{IsOutOfMemory, IsShortage};
ghost use Rattle.slotted_languages.specs.Filled.{term_of};
ghost use Rattle.slotted_terms.specs.LargeNodes.{HasLargeNode, HaveLargeNode};
ghost use Rattle.slotted_changes.specs.Changes.{AreOfOneNode, DifferAt, DifferBelow, DifferInOne};

use slotted_languages::Language;
use slotted_languages::outline::outline;
use slotted_slots::{Error, Slot};
use slotted_terms::RecExpr;
use std::alloc::Global;

// Returns whether two nodes are one but for what stands under them, and each has the right number of children.
fn are_of_one_node<L: Language>(
    alloc: Global,
    one: &L,
    ones: &[RecExpr<L>],
    two: &L,
    twos: &[RecExpr<L>],
) -> Result<bool, Error>
    ensures ok { IfOk result
        (λ b. IsTrue b ↔ AreOfOneNode (L.form one.now) (L.form two.now) ones.now twos.now) }
    ensures err { IfErr result IsOutOfMemory }
{
    if ones.len() != one.applied_id_count() || twos.len() != two.applied_id_count() {
        return Ok(false);
    }
    let left = outline(alloc, one, Slot::numeric_at(0))?;
    let right = outline(alloc, two, Slot::numeric_at(0))?;
    Ok(left == right)
}

// Returns which of the children differs, if one alone does.
fn only_difference<L: Language>(
    alloc: Global,
    ones: &[RecExpr<L>],
    twos: &[RecExpr<L>],
) -> Result<Option<usize>, Error>
    requires { length ones.now ≡ length twos.now }
    ensures some { IfOk result (λ o. IfSome o (DifferAt ones.now twos.now)) }
    ensures none { IfOk result (λ o. IfNone o ((k : ℕ) → ¬ DifferAt ones.now twos.now k)) }
    ensures slots { IsErrOf result Error.OutOfSlots → HaveLargeNode ones.now ⊎ HaveLargeNode twos.now }
    ensures err { IfErr result IsShortage }
{
    let mut found = None;
    for k in 0..ones.len() {
        if !ones[k].alpha_eq(alloc, &twos[k])? {
            if found.is_some() {
                return Ok(None);
            }
            found = Some(k);
        }
    }
    Ok(found)
}

// Returns which child of two terms differs, if their nodes are one and one child alone differs. The terms are given by
// their nodes and children.
pub(crate) fn differing_child<L: Language>(
    alloc: Global,
    one: &L,
    ones: &[RecExpr<L>],
    two: &L,
    twos: &[RecExpr<L>],
) -> Result<Option<usize>, Error>
    ensures some { IfOk result
        (λ o. IfSome o (DifferBelow (L.form one.now) (L.form two.now) ones.now twos.now)) }
    ensures none { IfOk result (λ o. IfNone o
        (¬ DifferInOne (term_of (L.form one.now) ones.now) (term_of (L.form two.now) twos.now))) }
    ensures slots { IsErrOf result Error.OutOfSlots → HaveLargeNode ones.now ⊎ HaveLargeNode twos.now }
    ensures err { IfErr result IsShortage }
{
    if !are_of_one_node(alloc, one, ones, two, twos)? {
        return Ok(None);
    }
    only_difference(alloc, ones, twos)
}
