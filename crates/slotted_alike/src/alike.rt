//! E-nodes that agree up to their children, and the equations of the children.
ghost use Rattle.std.specs.Prelude.{◌≡◌, ◌⊎◌, All, IfOk, IfErr, IfSome, IfNone, IsErrOf};
ghost use Rattle.slotted_theory.specs.FiniteMaps.{IsInjectiveMap};
ghost use Rattle.slotted_slots.specs.Error.{IsOutOfMemory, IsShortage};
ghost use Rattle.slotted_proofs.specs.Equations.{HaveManyNames};
ghost use Rattle.slotted_proofs.specs.Steps.{HasInjectiveSides};
ghost use Rattle.slotted_languages.specs.Sizes.{IsWideNode};
ghost use Rattle.slotted_alike.specs.Frames.{AreAlikeForms, AreNeverAlike, MatchesBelow, partner_of, partners_of};

use slotted_languages::Language;
use slotted_outlines::outlines::{Outlines, same_name};
use slotted_proofs::Equation;
use slotted_slots::{AppliedId, Error, Slot, SlotMap};
use std::alloc::Global;

// Returns the slot of the left child whose name is this one of the right child, below the binders.
fn partner(binders: &[(Slot, Slot)], left: &SlotMap, name: Slot) -> Option<Slot>
    ensures { result ≡ partner_of binders.now left.now name }
{
    for (slot, own) in left.iter() {
        if same_name(binders, own, name) {
            return Some(slot);
        }
    }
    None
}

// Returns the map from slots of the right child to the slots of the left child with the same names, below the
// binders.
fn partners(
    alloc: Global,
    binders: &[(Slot, Slot)],
    left: &SlotMap,
    right: &SlotMap,
) -> Result<SlotMap, Error>
    ensures ok { IfOk result (λ m. m ≡ partners_of binders.now left.now right.now) }
    ensures err { IfErr result IsOutOfMemory }
{
    let mut map = SlotMap::new(alloc);
    for (slot, name) in right.iter() {
        if let Some(other) = partner(binders, left, name) {
            map.insert(slot, other)?;
        }
    }
    Ok(map)
}

// Returns the equation of two children below the binders of their e-nodes, with numbered names.
fn child_equation(
    alloc: Global,
    binders: &[(Slot, Slot)],
    left: &AppliedId,
    right: &AppliedId,
) -> Result<Equation, Error>
    requires left { IsInjectiveMap left.now.m }
    requires right { IsInjectiveMap right.now.m }
    ensures matches { IfOk result (MatchesBelow binders.now left.now right.now) }
    ensures injective { IfOk result HasInjectiveSides }
    ensures full { IsErrOf result Error.OutOfSlots → HaveManyNames left.now.m right.now.m }
    ensures err { IfErr result IsShortage }
{
    prove_eq!(left.m.len(), left.m.len());
    prove_eq!(right.m.len(), right.m.len());
    let shared = partners(alloc, binders, &left.m, &right.m)?;
    let equation = Equation::by_partners(alloc, left, right, &shared)?;
    Ok(equation)
}

/// Returns the equations of the children of two e-nodes, if the e-nodes agree up to their children and no name stands
/// twice in a child.
pub fn child_equations<L: Language>(
    alloc: Global,
    left: &L,
    right: &L,
) -> Result<Option<Vec<Equation>>, Error>
    ensures alike { IfOk result (λ o. IfSome o (λ v. AreAlikeForms (L.form left.now) (L.form right.now) v.items)) }
    ensures injective { IfOk result (λ o. IfSome o (λ v. All HasInjectiveSides v.items)) }
    ensures none { IfOk result (λ o. IfNone o (AreNeverAlike (L.form left.now) (L.form right.now))) }
    ensures full { IsErrOf result Error.OutOfSlots → IsWideNode (L.form left.now) ⊎ IsWideNode (L.form right.now) }
    ensures err { IfErr result IsShortage }
{
    let Some(nodes) = Outlines::new(alloc, left, right)? else {
        return Ok(None);
    };
    let mut binders = Vec::new(alloc);
    if !nodes.same_owns(&mut binders)? {
        return Ok(None);
    }
    let mut equations = Vec::new(alloc);
    for k in 0..left.applied_id_count() {
        let (a, b) = (left.applied_id(k), right.applied_id(k));
        if !a.m.is_bijection() {
            return Ok(None);
        }
        if !b.m.is_bijection() {
            return Ok(None);
        }
        binders.truncate(0);
        nodes.push_above(k, &mut binders)?;
        equations.push(child_equation(alloc, &binders, a, b)?)?;
    }
    Ok(Some(equations))
}
