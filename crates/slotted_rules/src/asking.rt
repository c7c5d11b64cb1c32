//! Conditions by their names.
ghost use Rattle.std.specs.Prelude.{◌≡◌, string_bytes, IfOk, IfErr};
ghost use Rattle.slotted_slots.specs.Error.{IsOutOfMemory};

use crate::condition::{And, Not, Or, SlotFreeIn};
use slotted_slots::{Error, Slot};
use std::alloc::Global;

/// Returns the condition that a slot does not occur in the value of a variable, which is named without its `?`.
pub fn slot_free_in(alloc: Global, slot: Slot, variable: &str) -> Result<SlotFreeIn, Error>
    ensures slot { IfOk result (λ c. c.slot ≡ slot) }
    ensures variable { IfOk result (λ c. string_bytes c.variable ≡ variable.now) }
    ensures err { IfErr result IsOutOfMemory }
{
    let variable = String::from_str(alloc, variable)?;
    Ok(SlotFreeIn { slot, variable })
}

/// Returns the condition that one of two conditions holds. The second one is asked only if the first one does not hold.
pub fn or<X, Y>(first: X, second: Y) -> Or<X, Y>
    ensures { result ≡ record { first = first; second = second } }
{
    Or { first, second }
}

/// Returns the condition that two conditions hold. The second one is asked only if the first one holds.
pub fn and<X, Y>(first: X, second: Y) -> And<X, Y>
    ensures { result ≡ record { first = first; second = second } }
{
    And { first, second }
}

/// Returns the condition that another condition does not hold.
pub fn not<X>(condition: X) -> Not<X>
    ensures { result ≡ record { condition = condition } }
{
    Not { condition }
}
