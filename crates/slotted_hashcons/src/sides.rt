//! The equation of two classes whose canonical e-nodes have one shape.
ghost use Rattle.std.specs.Prelude.{◌≡◌, ◌<◌, length, IfOk, IfErr, IsErrOf};
ghost use Rattle.slotted_theory.specs.FiniteMaps.{IsInjectiveMap};
ghost use Rattle.slotted_slots.specs.Error.{IsOutOfMemory, IsShortage};
ghost use Rattle.slotted_model.specs.Applied.{keys};
ghost use Rattle.slotted_model.specs.Classes.{Canonical};
ghost use Rattle.slotted_model.specs.Correspondence.{IsPartialInjection};
ghost use Rattle.slotted_proofs.specs.Equations.{HaveManyNames, IsWritten, partnered_statement};
ghost use Rattle.slotted_classes.specs.Kept.{nodes_of, rows_from};
ghost use Rattle.slotted_hashcons.specs.Sides.{AreTwinSides, HaveManySlots, HaveOneShape, number_partners};

use slotted_classes::Store;
use slotted_languages::Language;
use slotted_proofs::{Equation, shared_names};
use slotted_slots::{AppliedId, Error, SlotMap};
use std::alloc::Global;

// Returns the map from slots of the right id that have a number to the slots of the left class with that number.
fn partners(
    alloc: Global,
    names: &SlotMap,
    others: &SlotMap,
    right: &SlotMap,
) -> Result<SlotMap, Error>
    requires { IsInjectiveMap others.now }
    ensures ok { IfOk result (λ m. m ≡ number_partners names.now others.now right.now) }
    ensures err { IfErr result IsOutOfMemory }
{
    let numbered = shared_names(alloc, right, others)?;
    numbered.compose_partial(alloc, names)
}

// Returns the equation of two ids in which slots share a name if they have one number.
fn numbered_equation(
    alloc: Global,
    left: &AppliedId,
    names: &SlotMap,
    right: &AppliedId,
    others: &SlotMap,
) -> Result<Equation, Error>
    requires different { IsInjectiveMap others.now }
    requires partners { IsPartialInjection
        (keys right.now.m) (keys left.now.m) (number_partners names.now others.now right.now.m) }
    ensures ok { IfOk result
        (IsWritten (partnered_statement left.now right.now (number_partners names.now others.now right.now.m))) }
    ensures full { IsErrOf result Error.OutOfSlots → HaveManyNames left.now.m right.now.m }
    ensures err { IfErr result IsShortage }
{
    let partners = partners(alloc, names, others, &right.m)?;
    let equation = Equation::by_partners(alloc, left, right, &partners)?;
    Ok(equation)
}

/// Returns the equation of two classes over all their canonical slots.
///
/// Two slots share a name if they have one number in the shape that the canonical e-nodes of both classes have.
pub fn sides<L: Language>(
    store: &Store<L>,
    alloc: Global,
    left: usize,
    names: &SlotMap,
    right: usize,
    others: &SlotMap,
) -> Result<Equation, Error>
    requires rows { store.now.rows ≡ rows_from 0 store.now.classes }
    requires canonical { Canonical (nodes_of store.now) }
    requires left { left < length store.now.classes }
    requires right { right < length store.now.classes }
    requires shape { HaveOneShape store.now left names.now right others.now }
    ensures ok { IfOk result (AreTwinSides store.now left right) }
    ensures full { IsErrOf result Error.OutOfSlots → HaveManySlots store.now left right }
    ensures err { IfErr result IsShortage }
{
    let l = store.own_id(alloc, left)?;
    let r = store.own_id(alloc, right)?;
    let equation = numbered_equation(alloc, &l, names, &r, others)?;
    Ok(equation)
}
